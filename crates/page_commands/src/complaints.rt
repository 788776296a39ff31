//! What is told on standard error of a command that was not carried out.

use crate::help::HELP;
use crate::status::Status;
use std::io::{self, Eprint};

/// Why a command was not carried out: one line, or the text on the commands where the words are none; with the path of the trace where
/// that is what could not be read or written. Nothing is told where the output and the status tell all: of a run that came to its end, of a
/// verdict, and of a job that is none.
pub fn complain(to: &impl Eprint, status: Status, failed: Option<&str>) -> io::Result<()> {
    match (status, failed) {
        (Status::BadWords, _) => eprint!(to; "{HELP}"),
        (Status::ReadFault, Some(path)) => eprintln!(to; "sgxpage: cannot read the trace: {path}"),
        (Status::ReadFault, None) => eprintln!(to;
            "sgxpage: cannot read the job from standard input"
        ),
        (Status::WriteFault, Some(path)) => eprintln!(to;
            "sgxpage: cannot write the trace: {path}"
        ),
        (Status::WriteFault, None) => eprintln!(to; "sgxpage: cannot write to standard output"),
        (Status::Memory, _) => eprintln!(to; "sgxpage: memory was refused"),
        (Status::BadTrace, _) => eprintln!(to;
            "sgxpage: a trace begins `trace 2`; sgxpage migrate PATH makes such a text of one that begins `trace 1`"
        ),
        (Status::Done | Status::BadJob | Status::AuditNo | Status::Bus | Status::Spent, _) => Ok(
            (),
        ),
    }
}
