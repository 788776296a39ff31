//! How a run ended.

ghost use Rattle.std.specs.Prelude.{◌≡◌, List};
ghost use Rattle.sgx_rules.specs.declared.entries.Entry.{Entry};
ghost use Rattle.driver_rules.specs.Stops.{has_loss, is_spent};
ghost use Rattle.run_jobs.specs.Ends.{IsEndOf};

/// How a run ended (this project's own).
#[derive(Clone, Copy)]
pub enum End {
    /// Each operation of each script has its reply.
    Done,

    /// A processor was ended by a page that could not be reloaded.
    Bus,

    /// An epoch or a version was used up, and the run was stopped.
    Spent,
}

impl End {
    /// How a run ended, by whether an epoch or a version was used up and whether a page could not be reloaded.
    pub fn of(spent: bool, lost: bool) -> End
        ensures { (past : List Entry) → spent ≡ is_spent past → lost ≡ has_loss past → IsEndOf past result }
    {
        if spent {
            End::Spent
        } else if lost {
            End::Bus
        } else {
            End::Done
        }
    }
}
