//! The words, the seat that writes them, and the passes that read them.

ghost use Rattle.std.specs.Prelude.{◌≡◌, ◌≤◌, length, replicate, IfOk};
ghost use Rattle.epoch_words.specs.inner.Seen.{IsLawful, starting_at, HasRoom, entered, IsInside, left, CanTrack, tracked};
ghost use Rattle.epoch_words.specs.inner.Seen.{Changes, IsNotAhead};
ghost use Rattle.epoch_words.specs.inner.Known.{enclaves, known, seen_of, learnt};

use crate::rule::{EpochRule, Observe, Tell, View, Write};
use crate::seen::Seen;
use atomic_table::{Seat, Table};
use job_grammar::jobs::Job;
use sgx_types::names::{LAST_EPOCH, Memory};
use std::alloc::Global;
use std::marker::Model;

/// One word for each enclave of a job. Any thread reads them, and takes no lock for it. Contracts see which words they are.
#[derive(Drop)]
pub struct Words {
    table: Table<(), View, Vec<Seen>, EpochRule, Global>,
}

impl Model for Words {
    ghost use Rattle.std.specs.Prelude.{◌≤◌};
    ghost use Rattle.atomic_table.specs.Seated.{TableId, table_id_coded};

    ghost Value = { TableId };

    ghost coded = { table_id_coded };

    ghost view = { λ words. words.table.shared.table_id };

    ghost invariant = { λ words. 1 ≤ words.table.shared.table_id.words };
}

/// The one seat that writes the words, at each entry, exit and track. Contracts see to which words it belongs and what they
/// say.
#[derive(Drop)]
pub struct HardwareSeat {
    seen: Vec<Seen>,
    seat: Seat<(), View>,
}

impl Model for HardwareSeat {
    ghost use Rattle.std.specs.Prelude.{◌≡◌, ℕ, length};
    ghost use Rattle.epoch_words.specs.inner.Seen.{IsLawful};
    ghost use Rattle.epoch_words.specs.inner.Rule.{at, hardware};
    ghost use Rattle.epoch_words.specs.inner.Known.{Known, known};

    ghost Value = { Known };

    ghost view = { λ h. known h.seat.table_id h.seen.items };

    ghost invariant = { λ h. (h.seat.me.0 ≡ hardware h.seen.items) × (length h.seen.items ≡ h.seat.table_id.words)
        × ((i : ℕ) → IsLawful (at h.seen.items i)) };
}

/// A reader of the words. Contracts see to which words it belongs and what it has last seen of each enclave.
#[derive(Drop)]
pub struct Pass {
    seat: Seat<(), View>,
}

impl Model for Pass {
    ghost use Rattle.std.specs.Prelude.{◌≡◌, length};
    ghost use Rattle.epoch_words.specs.inner.Rule.{pass};
    ghost use Rattle.epoch_words.specs.inner.Known.{Known, known};

    ghost Value = { Known };

    ghost view = { λ p. known p.seat.table_id p.seat.me.0.seen };

    ghost invariant = { λ p. (p.seat.me.0 ≡ pass p.seat.me.0.seen) × (length p.seat.me.0.seen ≡ p.seat.table_id.words) };
}

impl Words {
    /// The words of a job's enclaves, each at the job's first epoch with no processor inside; the seat that writes them, and
    /// a pass that has seen this.
    pub fn new(alloc: Global, job: &Job) -> Result<(Words, HardwareSeat, Pass), Memory>
        ensures words { IfOk result (λ made. enclaves made.0 ≡ length job.now.enclaves) }
        ensures hardware { IfOk result (λ made. made.1 ≡ known made.0
            (replicate (length job.now.enclaves) (starting_at job.now.start_epoch))) }
        ensures pass { IfOk result (λ made. made.2 ≡ known made.0 (replicate (length job.now.enclaves) (starting_at job.now.start_epoch))) }
    {
        Words::starting_at(alloc, job.enclaves().len(), job.start_epoch())
    }

    /// Words for so many enclaves, each at an epoch with no processor inside.
    fn starting_at(
        alloc: Global,
        enclaves: usize,
        epoch: u64,
    ) -> Result<(Words, HardwareSeat, Pass), Memory>
        requires some { 1 ≤ enclaves }
        requires limited { epoch ≤ LAST_EPOCH }
        ensures words { IfOk result (λ made. made.0.words ≡ enclaves) }
        ensures hardware { IfOk result (λ made. made.1 ≡ known made.0 (replicate enclaves (starting_at epoch))) }
        ensures pass { IfOk result (λ made. made.2 ≡ known made.0 (replicate enclaves (starting_at epoch))) }
    {
        let start = Seen {
            epoch,
            older: 0,
            newer: 0,
        };
        let seen = vec![in alloc; start; enclaves]?;
        let row = vec![in alloc; start.word(); enclaves]?;
        let (table, mut seat) = Table::of_words(alloc, row.as_slice(), &seen)?;
        let reader = table.shared.split_seat::<Tell>(&mut seat);
        Ok((
            Words { table },
            HardwareSeat { seen, seat },
            Pass { seat: reader },
        ))
    }

    /// How many enclaves have a word.
    pub fn enclaves(&self) -> usize
        ensures { result ≡ enclaves self.now }
    {
        self.table.word_count()
    }

    /// What the word of an enclave says. It is never behind what the pass has seen of the enclave. It takes no lock.
    pub fn observe(&self, pass: &mut Pass, enclave: u16) -> Seen
        requires words { pass.old.words ≡ self.now }
        requires first { 1 ≤ enclave }
        requires last { enclave ≤ enclaves self.now }
        ensures learnt { pass.new ≡ learnt pass.old enclave result }
        ensures later { IsNotAhead (seen_of pass.old enclave) result }
        ensures lawful { IsLawful result }
    {
        let at = usize::from(enclave) - 1;
        Seen::in_word(self.table.shared.load::<Observe>(&mut pass.seat, at))
    }

    /// One more pass, which has seen what this one has.
    pub fn split_pass(&self, pass: &mut Pass) -> Pass
        requires { pass.old.words ≡ self.now }
        ensures same { pass.new ≡ pass.old }
        ensures other { result ≡ pass.old }
    {
        Pass {
            seat: self.table.shared.split_seat::<Tell>(&mut pass.seat),
        }
    }
}

impl HardwareSeat {
    /// What the word of an enclave says.
    pub fn known(&self, enclave: u16) -> Seen
        requires first { 1 ≤ enclave }
        requires last { enclave ≤ enclaves self.now.words }
        ensures value { result ≡ seen_of self.now enclave }
        ensures lawful { IsLawful result }
    {
        self.seen[usize::from(enclave) - 1]
    }

    /// The one store of a change.
    fn write(&mut self, words: &Words, enclave: u16, seen: Seen)
        requires words { self.old.words ≡ words.now }
        requires first { 1 ≤ enclave }
        requires last { enclave ≤ enclaves words.now }
        requires changes { Changes (seen_of self.old enclave) seen }
        requires lawful { IsLawful seen }
        ensures { self.new ≡ learnt self.old enclave seen }
    {
        let at = usize::from(enclave) - 1;
        words
            .table
            .shared
            .store::<Write>(&mut self.seat, at, seen.word());
        self.seen[at] = seen;
    }

    /// A processor has entered an enclave.
    pub fn entered(&mut self, words: &Words, enclave: u16)
        requires words { self.old.words ≡ words.now }
        requires first { 1 ≤ enclave }
        requires last { enclave ≤ enclaves words.now }
        requires room { HasRoom (seen_of self.old enclave) }
        ensures { self.new ≡ learnt self.old enclave (entered (seen_of self.old enclave)) }
    {
        let before = self.known(enclave);
        let after = Seen {
            newer: before.newer + 1,
            ..before
        };
        self.write(words, enclave, after);
    }

    /// A processor that entered an enclave at an epoch has left it.
    pub fn left(&mut self, words: &Words, enclave: u16, epoch: u64)
        requires words { self.old.words ≡ words.now }
        requires first { 1 ≤ enclave }
        requires last { enclave ≤ enclaves words.now }
        requires inside { IsInside (seen_of self.old enclave) epoch }
        ensures { self.new ≡ learnt self.old enclave (left (seen_of self.old enclave) epoch) }
    {
        let before = self.known(enclave);
        let after = if epoch == before.epoch {
            Seen {
                newer: before.newer - 1,
                ..before
            }
        } else {
            Seen {
                older: before.older - 1,
                ..before
            }
        };
        self.write(words, enclave, after);
    }

    /// A new epoch of an enclave has begun, and whoever is inside entered before it.
    pub fn tracked(&mut self, words: &Words, enclave: u16)
        requires words { self.old.words ≡ words.now }
        requires first { 1 ≤ enclave }
        requires last { enclave ≤ enclaves words.now }
        requires allowed { CanTrack (seen_of self.old enclave) }
        ensures { self.new ≡ learnt self.old enclave (tracked (seen_of self.old enclave)) }
    {
        let before = self.known(enclave);
        let after = Seen {
            epoch: before.epoch + 1,
            older: before.newer,
            newer: 0,
        };
        self.write(words, enclave, after);
    }
}
