//! The output of entries that no run makes.

use crate::same::are_same;
use job_text::reader::read_job;
use run_replies::replies::print_out;
use sgx_rules::entries::{Action, Answer, Entry, Event};
use sgx_rules::refusals::Refusal;
use sgx_types::names::{Actor, Cpu, Frame};
use std::test::Fail;

// Three enclaves and three processors.
const JOB: &[u8] =
    b"epc 32\nenclave A 0x0 0x2000\nenclave B 0x0 0x2000\nenclave C 0x0 0x2000\ncpu 0\ncpu 1\ncpu 2\n";

const ENTER: Action = Action::Enter {
    enclave: 1,
    tcs: 0,
    tcs_frame: Frame(2),
    ssa_frame: Frame(3),
};

fn init(enclave: u16) -> Action {
    Action::Init {
        enclave,
        expect: None,
    }
}

fn did(actor: Actor, action: Action, answer: Answer) -> Entry {
    Entry {
        actor,
        event: Event::Did { action, answer },
    }
}

fn refused(actor: Actor, action: Action, why: Refusal) -> Entry {
    Entry {
        actor,
        event: Event::Refused { action, why },
    }
}

#[test]
fn enclaves_and_processors(rt: HostRuntime) -> Result<(), Fail> {
    let builder = Actor::Builder;
    let first = Actor::Cpu(Cpu(0));
    let second = Actor::Cpu(Cpu(1));
    let entries = [
        did(builder, init(1), Answer::Hash([0; 32])),
        refused(builder, init(3), Refusal::BadMeasure { made: [0; 32] }),
        did(first, ENTER, Answer::Cssa(0)),
        did(
            first,
            Action::Fill {
                number: 2,
                frame: Frame(4),
            },
            Answer::Plain,
        ),
        refused(second, ENTER, Refusal::NoFrame),
        did(first, Action::Load { off: 0x2000 }, Answer::Value(7)),
        refused(second, Action::Load { off: 0 }, Refusal::WrongMode),
        did(first, Action::Exit, Answer::Plain),
    ];
    let job = read_job(rt.alloc(), JOB)?;
    let text = print_out(rt.alloc(), &job, &entries)?;
    are_same(
        &rt,
        text.as_slice(),
        b"\
A init
C badmeasure
cpu 0
cssa 0
7
exit
cpu 1
gp NoFrame
mode
cpu 2
"
            .as_slice(),
    );
    Ok(())
}
