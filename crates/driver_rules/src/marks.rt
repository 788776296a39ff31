//! When the reclaimer works.

ghost use Rattle.std.specs.Prelude.{◌≡◌};
ghost use Rattle.driver_rules.specs.Passes.{works_with};

use job_grammar::jobs::Marks;

/// Whether the reclaimer works, with so many frames free: it begins below the low mark, stops from the high mark on, and else goes on
/// as before.
pub fn works_with(marks: Marks, free: u32, before: bool) -> bool
    ensures { result ≡ works_with marks free before }
{
    if free < marks.low {
        return true;
    }
    if free >= marks.high {
        return false;
    }
    before
}
