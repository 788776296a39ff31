//! How a command ended.

ghost use Rattle.std.specs.Prelude.{◌≡◌};
ghost use Rattle.page_commands.specs.Commands.{status_of};
ghost use Rattle.page_commands.specs.inner.Commands.{number_of};

use run_jobs::ends::End;

/// How a command ended (this project's own).
#[derive(Clone, Copy, Debug, PartialEq, Eq)]
pub enum Status {
    /// It did all.
    Done,

    /// The job is none that is accepted.
    BadJob,

    /// The words of the command line are no command.
    BadWords,

    /// The job or the old trace could not be read.
    ReadFault,

    /// A text could not be written.
    WriteFault,

    /// Memory was refused.
    Memory,

    /// The old trace is no history of the job.
    AuditNo,

    /// A processor was ended by a page that could not be reloaded.
    Bus,

    /// The old trace is none.
    BadTrace,

    /// An epoch or a version was used up, and the run was stopped.
    Spent,
}

impl Status {
    /// The exit status of the program.
    pub fn code(self) -> u8
        ensures { result ≡ number_of self }
    {
        match self {
            Status::Done => 0,
            Status::BadJob => 1,
            Status::BadWords => 2,
            Status::ReadFault => 3,
            Status::WriteFault => 4,
            Status::Memory => 5,
            Status::AuditNo => 6,
            Status::Bus => 7,
            Status::BadTrace => 8,
            Status::Spent => 9,
        }
    }

    /// The status of a run that ended so.
    pub fn of_run(end: End) -> Status
        ensures { result ≡ status_of end }
    {
        match end {
            End::Done => Status::Done,
            End::Bus => Status::Bus,
            End::Spent => Status::Spent,
        }
    }
}
