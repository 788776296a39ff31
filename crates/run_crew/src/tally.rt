//! How many entries each actor made.

ghost use Rattle.std.specs.Prelude.{IfOk};
ghost use Rattle.run_crew.specs.inner.Tallies.{IsFew, IsMore, IsTally};

use sgx_rules::entries::Entry;
use sgx_types::names::{Actor, Memory};
use std::alloc::Global;

/// How many entries of a trace each actor made.
#[derive(Drop)]
pub struct Tally {
    pub builder: u64,
    /// One number for each processor of the job.
    pub cpus: Vec<u64>,
    pub reclaimer: u64,
}

/// Counts the entries of a trace of a job of so many processors, in one walk.
pub fn count(alloc: Global, entries: &[Entry], cpus: usize) -> Result<Tally, Memory>
    ensures { IfOk result (λ tally. IsTally entries.now cpus tally) }
{
    let mut tally = Tally {
        builder: 0,
        cpus: vec![in alloc; 0; cpus]?,
        reclaimer: 0,
    };
    for entry in entries {
        tally.note(entry.actor);
    }
    Ok(tally)
}

impl Tally {
    // One entry more of an actor.
    fn note(&mut self, actor: Actor)
        requires { IsFew self.old }
        ensures { IsMore actor self.old self.new }
    {
        match actor {
            Actor::Builder => self.builder += 1,
            Actor::Cpu(cpu) => {
                if let Some(number) = self.cpus.get_mut(usize::from(cpu.0)) {
                    *number += 1;
                }
            }
            Actor::Reclaimer => self.reclaimer += 1,
        }
    }
}
