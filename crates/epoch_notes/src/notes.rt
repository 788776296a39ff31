//! The seat of the tracking words, with who is inside which enclave since which epoch.

ghost use Rattle.std.specs.Prelude.{◌≡◌, ◌≤◌, ◌<◌, ◌-◌, ◌∷◌, ◌++◌, [], IfOk, IfSome, None, length, replicate};
ghost use Rattle.std.specs.Prelude.{reverse, slice_index_or};
ghost use Rattle.epoch_words.specs.inner.Rule.{at};
ghost use Rattle.epoch_words.specs.inner.Seen.{HasRoom};
ghost use Rattle.epoch_notes.specs.inner.Notes.{CanNote, IsIn, TellsEntries, after_enter, after_leave};

use epoch_words::words::{HardwareSeat, Words};
use sgx_rules::entries::{Action, Entry, Event};
use sgx_types::names::{Actor, Cpu, Memory};
use std::alloc::Global;
use std::marker::Model;

/// A processor is inside an enclave since an epoch of it (this project's own).
#[derive(Clone, Copy)]
pub struct Inside {
    pub enclave: u16,
    pub epoch: u64,
}

/// The seat that writes the tracking words of a run, and since which epoch each processor is inside which enclave. Contracts see to which
/// words it belongs, what they say, and who is inside.
#[derive(Drop)]
pub struct EpochNotes {
    seat: HardwareSeat,
    inside: Vec<Option<Inside>>,
}

impl Model for EpochNotes {
    ghost use Rattle.epoch_notes.specs.inner.Notes.{NotesView};

    ghost Value = { NotesView };

    ghost view = { λ n. record { words = n.seat.words; seen = n.seat.seen; inside = n.inside.items } };
}

impl EpochNotes {
    /// The notes of so many processors, of which none is inside.
    pub fn new(alloc: Global, seat: HardwareSeat, cpus: usize) -> Result<EpochNotes, Memory>
        ensures { IfOk result (λ notes. notes ≡ record { words = seat.words; seen = seat.seen; inside = replicate cpus None }) }
    {
        Ok(EpochNotes {
            seat,
            inside: vec![in alloc; None; cpus]?,
        })
    }

    /// Takes in the next entry of a run: who enters is inside since the epoch that the word says, who leaves is outside, and at a track an
    /// epoch begins. The words then say what the entries say. It is one store at most.
    pub fn note(&mut self, words: &Words, entry: &Entry)
        requires words { self.old.words ≡ words.now }
        requires can { CanNote self.old (entry.now ∷ []) }
        ensures words { self.new.words ≡ self.old.words }
        ensures cpus { length self.new.inside ≡ length self.old.inside }
        ensures tells { (can : CanNote self.old (entry.now ∷ [])) → TellsEntries can.first (entry.now ∷ can.past) self.new }
    {
        let Event::Did { action, .. } = entry.event else {
            return;
        };
        match action {
            Action::Enter { enclave, .. } | Action::Resume { enclave, .. } => {
                if let Actor::Cpu(cpu) = entry.actor {
                    self.enter(words, cpu, enclave);
                }
            }
            Action::Exit | Action::Aex { .. } => {
                if let Actor::Cpu(cpu) = entry.actor {
                    self.leave(words, cpu);
                }
            }
            Action::Track { enclave } => self.seat.tracked(words, enclave),
            _ => {}
        }
    }

    /// Takes in the next entries of a run, oldest first.
    pub fn note_all(&mut self, words: &Words, entries: &[Entry])
        requires words { self.old.words ≡ words.now }
        requires can { CanNote self.old (reverse entries.now) }
        ensures words { self.new.words ≡ self.old.words }
        ensures cpus { length self.new.inside ≡ length self.old.inside }
        ensures tells { (can : CanNote self.old (reverse entries.now))
            → TellsEntries can.first (reverse entries.now ++ can.past) self.new }
    {
        for entry in entries {
            self.note(words, entry);
        }
    }

    // A processor has entered an enclave.
    fn enter(&mut self, words: &Words, cpu: Cpu, enclave: u16)
        requires words { self.old.words ≡ words.now }
        requires first { 1 ≤ enclave }
        requires last { enclave ≤ words.now.words }
        requires room { HasRoom (at self.old.seen (enclave - 1)) }
        requires cpu { cpu.0 < length self.old.inside }
        ensures { self.new ≡ after_enter self.old cpu.0 enclave }
    {
        let epoch = self.seat.known(enclave).epoch;
        self.seat.entered(words, enclave);
        self.inside[usize::from(cpu.0)] = Some(Inside { enclave, epoch });
    }

    // A processor that is inside an enclave has left it.
    fn leave(&mut self, words: &Words, cpu: Cpu)
        requires words { self.old.words ≡ words.now }
        requires cpu { cpu.0 < length self.old.inside }
        requires inside { IfSome (slice_index_or self.old.inside cpu.0 None) (IsIn self.old) }
        ensures { self.new ≡ after_leave self.old cpu.0 }
    {
        if let Some(Inside { enclave, epoch }) = self.inside[usize::from(cpu.0)].take() {
            self.seat.left(words, enclave, epoch);
        }
    }
}
