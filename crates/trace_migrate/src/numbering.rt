//! The numbers of version array pages.

ghost use Rattle.std.specs.Prelude.{◌≡◌, ◌<◌, ◌≤◌, ◌+◌, ◌-◌, ◌^◌, length, reverse};
ghost use Rattle.sgx_rules.specs.Frames.{vas_after};
ghost use Rattle.trace_migrate.specs.Migrated.{numbered_anew, numbered_event};

use sgx_rules::entries::{Action, Answer, Entry, Event};

/// Gives each version array page that is made in these entries, which stand oldest first, its number: how many were made before it.
pub fn number_arrays(entries: &mut [Entry])
    requires { length entries.old < 2 ^ 32 }
    ensures { entries.new ≡ reverse (numbered_anew (reverse entries.old)) }
{
    let mut made = 0;
    for at in 0..entries.len() {
        made = number(&mut entries[at].event, made);
    }
}

// Numbers one entry, and answers how many pages are made behind it.
fn number(event: &mut Event, made: u32) -> u32
    requires { made < 2 ^ 32 - 1 }
    ensures event { event.new ≡ numbered_event made event.old }
    ensures made { result ≡ vas_after event.old made }
    ensures few { result ≤ made + 1 }
{
    match event {
        Event::Did {
            action: Action::Epa { .. },
            answer,
        } => {
            *answer = Answer::Va(made);
            made + 1
        }
        _ => made,
    }
}
