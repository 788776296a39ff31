//! The words that instructions write in flat memory.

ghost use Rattle.std.specs.Prelude.{◌≡◌, ◌<◌, IfSome};
ghost use Rattle.flat_machine.specs.inner.Parts.{memory_of};
ghost use Rattle.flat_machine.specs.inner.Step.{IsItsActor};
ghost use Rattle.flat_words.specs.Writes.{writes_of, save_words, word_at_offset, state_word};

use crate::flat::{Flat, Mode};
use flat_words::writes::{WordAt, Writes};
use sgx_rules::entries::Action;
use sgx_types::names::{Actor, Cpu, PROCESSORS};

impl Flat {
    /// The words that an instruction may write, if it is taken next: no other words of pages that were added change.
    pub fn writes(&self, actor: Actor, action: &Action) -> Writes
        requires { IsItsActor actor action.now }
        ensures value { result ≡ writes_of (memory_of self.now) actor action.now }
        ensures first { IfSome result.first (λ at. at.index < 512) }
        ensures second { IfSome result.second (λ at. at.index < 512) }
    {
        match (actor, *action) {
            (Actor::Cpu(_), Action::Resume { enclave, tcs, .. }) => Writes {
                first: Some(state_word(enclave, tcs)),
                second: None,
            },
            (Actor::Cpu(cpu), Action::Aex { .. }) => self.save_words(cpu),
            (Actor::Cpu(cpu), Action::Store { off, .. } | Action::Xadd { off, .. }) => {
                self.word_at_offset(cpu, off)
            }
            _ => Writes::NONE,
        }
    }

    // The words that a processor's state is saved in when it is taken out.
    fn save_words(&self, cpu: Cpu) -> Writes
        requires { cpu.0 < PROCESSORS }
        ensures value { result ≡ save_words (memory_of self.now) ((memory_of self.now).cpus cpu.0).inside }
        ensures first { IfSome result.first (λ at. at.index < 512) }
        ensures second { IfSome result.second (λ at. at.index < 512) }
    {
        let Mode::Inside { enclave, tcs } = self.mode(cpu) else {
            return Writes::NONE;
        };
        let fields = self.tcs_fields(enclave, tcs);
        Writes {
            first: Some(WordAt {
                enclave,
                number: fields.ossa / 4096 + u64::from(fields.cssa),
                index: 0,
            }),
            second: Some(state_word(enclave, tcs)),
        }
    }

    // The word at an offset in the enclave that a processor is inside.
    fn word_at_offset(&self, cpu: Cpu, off: u64) -> Writes
        requires { cpu.0 < PROCESSORS }
        ensures value { result ≡ word_at_offset ((memory_of self.now).cpus cpu.0).inside off }
        ensures first { IfSome result.first (λ at. at.index < 512) }
        ensures second { IfSome result.second (λ at. at.index < 512) }
    {
        let Mode::Inside { enclave, .. } = self.mode(cpu) else {
            return Writes::NONE;
        };
        Writes {
            first: Some(WordAt {
                enclave,
                number: off / 4096,
                index: (off % 4096 / 8) as u16,
            }),
            second: None,
        }
    }
}

// The word of a TCS page that has CSSA and NSSA.
fn state_word(enclave: u16, tcs: u32) -> WordAt
    ensures { result ≡ state_word enclave tcs }
{
    WordAt {
        enclave,
        number: u64::from(tcs),
        index: 3,
    }
}
