//! The book of a run with its tracking words.

ghost use Rattle.std.specs.Prelude.{◌≡◌, ◌≤◌, ◌<◌, [], false, true, IfOk, IfSome, OnErr, drop, is_some, length, replicate};
ghost use Rattle.std.specs.Prelude.{reverse};
ghost use Rattle.driver_laws.specs.inner.Agrees.{loaded_by};
ghost use Rattle.driver_rules.specs.Turns.{last_of};
ghost use Rattle.driver_rules.specs.inner.Stops.{frame_started};
ghost use Rattle.driver_rules.specs.Stops.{has_loss, is_spent, last_event};
ghost use Rattle.sgx_types.specs.declared.names.Actor.TheVariants as actors;
ghost use Rattle.epoch_words.specs.inner.Known.{enclaves};
ghost use Rattle.epoch_words.specs.inner.Seen.{starting_at};
ghost use Rattle.epoch_notes.specs.inner.Notes.{TellsEntries};
ghost use Rattle.run_course.specs.inner.Views.{Holds, IsBuild, IsLoadEnd, IsOutEnd, IsReclaim, IsRun, is_stopped, tells_stop};

use backing_store::backing::Backing;
use epoch_notes::notes::EpochNotes;
use epoch_words::words::{HardwareSeat, Words};
use job_grammar::jobs::Job;
use run_course::book::Book;
pub use run_course::book::Parts;
pub use run_course::turn::Turn;
use seal_record::seal::SealedWork;
use seal_record::unseal::UnsealedWork;
use sgx_rules::entries::Entry;
use sgx_types::names::{Cpu, Memory};
use std::alloc::Global;
use std::marker::Model;

/// The book of a run of any valid job, with the seat that writes the tracking words of its enclaves. Each turn writes the words that its
/// entries change, in that turn, so whoever looks at a word sees how its enclave stands by the entries so far. No turn and no commit
/// changes the job, or the words to which the seat belongs.
#[derive(Drop)]
pub struct MachineBook<B: Backing> {
    book: Book<B>,
    notes: EpochNotes,
}

impl<B: Backing> Model for MachineBook<B> {
    ghost use Rattle.run_book.specs.inner.Words.{KeepsWords, MachineView};

    ghost Value = { MachineView };

    ghost view = { λ b. record { book = b.book; words = b.notes.words } };

    ghost invariant = { λ b. KeepsWords b.book b.notes };
}

impl<B: Backing> MachineBook<B> {
    /// The book of a job before its first entry, whose plan lines are handed to the store. The store has told no calls yet, and the words
    /// say that each enclave is at the job's first epoch with no processor inside.
    pub fn start(
        alloc: Global,
        job: Job,
        store: B,
        seat: HardwareSeat,
    ) -> Result<MachineBook<B>, Memory>
        requires told { IfSome (B.told store) (λ calls. calls ≡ []) }
        requires enclaves { enclaves seat.words ≡ length job.enclaves }
        requires seen { seat.seen ≡ replicate (length job.enclaves) (starting_at job.start_epoch) }
        ensures job { IfOk result (λ made. made.book.job ≡ job) }
        ensures past { IfOk result (λ made. made.book.past ≡ []) }
        ensures told { IfOk result (λ made. made.book.told ≡ B.told store) }
        ensures out_of_memory { IfOk result (λ made. made.book.out_of_memory ≡ false) }
        ensures words { IfOk result (λ made. made.words ≡ seat.words) }
    {
        let book = Book::start(alloc, job, store)?;
        let notes = EpochNotes::new(alloc, seat, usize::from(book.cpus()))?;
        Ok(MachineBook { book, notes })
    }

    /// A turn of the builder. After Memory nothing has changed. Stopped exactly where memory was refused to a worker, or an
    /// epoch or a version was used up; the book is as it was then.
    pub fn build_turn(&mut self, alloc: Global) -> Result<Turn, Memory>
        ensures turn { IfOk result (λ turn. IsBuild self.old.book turn self.new.book) }
        ensures stopped { IfOk result (λ turn. tells_stop turn ≡ is_stopped self.old.book) }
        ensures memory { OnErr result (self.new ≡ self.old) }
        ensures words { self.new.words ≡ self.old.words }
    {
        let turn = self.book.build_turn(alloc)?;
        prove!(self.book.entries().len() < 1 << 63);
        Ok(turn)
    }

    /// A turn of a processor of the job. After Memory nothing has changed. Stopped exactly where memory was refused to a worker, or an
    /// epoch or a version was used up; the book is as it was then.
    pub fn turn(&mut self, alloc: Global, words: &Words, cpu: Cpu) -> Result<Turn, Memory>
        requires cpu { cpu.0 < length self.old.book.job.scripts }
        requires words { self.old.words ≡ words.now }
        ensures turn { IfOk result (λ turn. IsRun self.old.book cpu turn self.new.book) }
        ensures stopped { IfOk result (λ turn. tells_stop turn ≡ is_stopped self.old.book) }
        // Its started load is given again, and no entry is made.
        ensures again { is_some (loaded_by (last_of self.old.book.past cpu.0)) ≡ true → self.new.book ≡ self.old.book }
        ensures memory { OnErr result (self.new ≡ self.old) }
        ensures words { self.new.words ≡ self.old.words }
    {
        let before = self.book.entries().len();
        let turn = self.book.turn(alloc, cpu)?;
        self.notes
            .note_all(words, behind(self.book.entries(), before));
        Ok(turn)
    }

    /// A turn of the reclaimer. After Memory nothing has changed. Stopped exactly where memory was refused to a worker, or an
    /// epoch or a version was used up; the book is as it was then.
    pub fn reclaim_turn(&mut self, alloc: Global, words: &Words) -> Result<Turn, Memory>
        requires { self.old.words ≡ words.now }
        ensures turn { IfOk result (λ turn. IsReclaim self.old.book turn self.new.book) }
        ensures stopped { IfOk result (λ turn. tells_stop turn ≡ is_stopped self.old.book) }
        // Its started write-out is given again, and no entry is made.
        ensures again { is_some (frame_started (last_event self.old.book.past actors.Reclaimer)) ≡ true → self.new.book ≡ self.old.book }
        ensures memory { OnErr result (self.new ≡ self.old) }
        ensures words { self.new.words ≡ self.old.words }
    {
        let before = self.book.entries().len();
        let turn = self.book.reclaim_turn(alloc)?;
        self.notes
            .note_all(words, behind(self.book.entries(), before));
        Ok(turn)
    }

    /// Ends the started write-out, whatever work is handed in. Where none has started nothing changes. Takes no memory.
    /// Stopped as a turn is.
    pub fn commit_sealed(&mut self, work: SealedWork) -> Turn
        ensures turn { IsOutEnd self.old.book result self.new.book }
        ensures stopped { tells_stop result ≡ is_stopped self.old.book }
        ensures words { self.new.words ≡ self.old.words }
    {
        self.book.commit_sealed(work)
    }

    /// Ends the started load of a processor of the job, whatever work is handed in. Where none has started nothing changes. Takes no
    /// memory. Stopped as a turn is.
    pub fn commit_opened(&mut self, cpu: Cpu, work: UnsealedWork) -> Turn
        requires { cpu.0 < length self.old.book.job.scripts }
        ensures turn { IsLoadEnd self.old.book cpu result self.new.book }
        ensures stopped { tells_stop result ≡ is_stopped self.old.book }
        ensures words { self.new.words ≡ self.old.words }
    {
        self.book.commit_opened(cpu, work)
    }

    /// Whether an epoch or a version was used up.
    pub fn is_spent(&self) -> bool
        ensures { result ≡ is_spent self.now.book.past }
    {
        self.book.is_spent()
    }

    /// Whether a page could not be reloaded.
    pub fn has_loss(&self) -> bool
        ensures { result ≡ has_loss self.now.book.past }
    {
        self.book.has_loss()
    }

    /// Keeps in mind that memory was refused to a worker: no turn does anything from now on.
    pub fn stop_for_memory(&mut self)
        ensures book { self.new.book ≡ record self.old.book { out_of_memory = true } }
        ensures words { self.new.words ≡ self.old.words }
    {
        self.book.stop_for_memory();
    }

    /// Whether memory was refused to a worker.
    pub fn out_of_memory(&self) -> bool
        ensures { result ≡ self.now.book.out_of_memory }
    {
        self.book.out_of_memory()
    }

    /// The entries so far, oldest first.
    pub fn entries(&self) -> &[Entry]
        ensures value { reverse result.now ≡ self.now.book.past }
        ensures holds { Holds self.now.book }
    {
        self.book.entries()
    }

    /// The job.
    pub fn job(&self) -> &Job
        ensures { result.now ≡ self.now.book.job }
    {
        self.book.job()
    }

    /// How many processors the job has.
    pub fn cpus(&self) -> u8
        ensures { result ≡ length self.now.book.job.scripts }
    {
        self.book.cpus()
    }

    /// How the words of the enclaves stand: what they say is what the entries say.
    pub fn notes(&self) -> &EpochNotes
        ensures words { result.now.words ≡ self.now.words }
        ensures tells { TellsEntries self.now.book.job.start_epoch self.now.book.past result.now }
    {
        &self.notes
    }

    /// The job, the entries, oldest first, and the store. They keep what the book kept.
    pub fn into_parts(self) -> Parts<B>
        ensures job { result.job ≡ self.book.job }
        ensures entries { reverse result.entries.items ≡ self.book.past }
        ensures told { B.told result.store ≡ self.book.told }
        ensures plans { B.plans result.store ≡ self.book.plans }
        ensures holds { Holds self.book }
    {
        self.book.into_parts()
    }
}

// The entries behind the first so many.
fn behind(entries: &[Entry], before: usize) -> &[Entry]
    requires { before ≤ length entries.now }
    ensures { result.now ≡ drop before entries.now }
{
    &entries[before..]
}
