//! The book of a run.

ghost use Rattle.std.specs.Prelude.{◌≡◌, ◌<◌, [], false, true, IfOk, IfSome, OnErr, is_some, length, reverse};
ghost use Rattle.driver_laws.specs.inner.Agrees.{loaded_by};
ghost use Rattle.driver_rules.specs.Turns.{last_of};
ghost use Rattle.driver_rules.specs.inner.Stops.{frame_started};
ghost use Rattle.driver_rules.specs.Stops.{has_loss, is_spent, last_event};
ghost use Rattle.job_grammar.specs.inner.Valid.{IsValid};
ghost use Rattle.sgx_types.specs.declared.names.Actor.TheVariants as actors;
ghost use Rattle.run_course.specs.inner.Views.{Holds, IsBuild, IsLoadEnd, IsOutEnd, IsReclaim, IsRun, is_stopped, tells_stop};

use crate::course::Course;
use crate::turn::Turn;
use backing_store::backing::Backing;
use job_grammar::jobs::Job;
use seal_record::seal::SealedWork;
use seal_record::unseal::UnsealedWork;
use sgx_rules::entries::Entry;
use sgx_types::names::{Cpu, Memory};
use std::alloc::Global;
use std::marker::Model;

/// The book of a run of any valid job: how far it is, over a store that keeps the records, and whether memory was refused to a worker.
/// Whatever turns are taken, in whatever order, and whatever the store answers, it keeps its promises (`Holds`). No turn and no commit
/// changes the job.
#[derive(Drop)]
pub struct Book<B: Backing> {
    course: Box<Course>,
    store: B,
    out_of_memory: bool,
}

impl<B: Backing> Model for Book<B> {
    ghost use Rattle.run_course.specs.inner.Views.{BookView};

    ghost Value = { BookView };

    ghost use Rattle.run_course.specs.inner.Kept.{IsKept, view_of};

    ghost view = { λ b. view_of b.course.value (B.told b.store) (B.plans b.store) b.out_of_memory };

    ghost invariant = { λ b. IsKept b.course.value (B.told b.store) (B.plans b.store) (B.spare b.store) };
}

impl<B: Backing> Book<B> {
    /// The book of a job before its first entry, whose plan lines are handed to the store. The store has told no calls yet.
    pub fn start(alloc: Global, job: Job, store: B) -> Result<Book<B>, Memory>
        requires { IfSome (B.told store) (λ calls. calls ≡ []) }
        ensures job { IfOk result (λ book. book.job ≡ job) }
        ensures past { IfOk result (λ book. book.past ≡ []) }
        ensures told { IfOk result (λ book. book.told ≡ B.told store) }
        ensures out_of_memory { IfOk result (λ book. book.out_of_memory ≡ false) }
        ensures kicked { IfOk result (λ book. book.kicked ≡ false) }
    {
        let mut store = store;
        store.plan(alloc, job.plans())?;
        let course = Box::new(alloc, Course::new(alloc, job)?)?;
        Ok(Book {
            course,
            store,
            out_of_memory: false,
        })
    }

    /// A turn of the builder. After Memory nothing has changed. Stopped exactly where memory was refused to a worker, or an
    /// epoch or a version was used up; the book is as it was then.
    pub fn build_turn(&mut self, alloc: Global) -> Result<Turn, Memory>
        ensures turn { IfOk result (λ turn. IsBuild self.old turn self.new) }
        ensures stopped { IfOk result (λ turn. tells_stop turn ≡ is_stopped self.old) }
        ensures memory { OnErr result (self.new ≡ self.old) }
    {
        if self.is_stopped() {
            return Ok(Turn::Stopped);
        }
        self.course.build_turn(alloc)
    }

    /// A turn of a processor of the job. After Memory nothing has changed. Stopped exactly where memory was refused to a worker, or an
    /// epoch or a version was used up; the book is as it was then.
    pub fn turn(&mut self, alloc: Global, cpu: Cpu) -> Result<Turn, Memory>
        requires { cpu.0 < length self.old.job.scripts }
        ensures turn { IfOk result (λ turn. IsRun self.old cpu turn self.new) }
        ensures stopped { IfOk result (λ turn. tells_stop turn ≡ is_stopped self.old) }
        // Its started load is given again, and no entry is made.
        ensures again { is_some (loaded_by (last_of self.old.past cpu.0)) ≡ true → self.new ≡ self.old }
        ensures memory { OnErr result (self.new ≡ self.old) }
    {
        if self.is_stopped() {
            return Ok(Turn::Stopped);
        }
        self.course.turn(alloc, &mut self.store, cpu)
    }

    /// A turn of the reclaimer. After Memory nothing has changed. Stopped exactly where memory was refused to a worker, or an
    /// epoch or a version was used up; the book is as it was then.
    pub fn reclaim_turn(&mut self, alloc: Global) -> Result<Turn, Memory>
        ensures turn { IfOk result (λ turn. IsReclaim self.old turn self.new) }
        ensures stopped { IfOk result (λ turn. tells_stop turn ≡ is_stopped self.old) }
        // Its started write-out is given again, and no entry is made.
        ensures again { is_some (frame_started (last_event self.old.past actors.Reclaimer)) ≡ true → self.new ≡ self.old }
        ensures memory { OnErr result (self.new ≡ self.old) }
    {
        if self.is_stopped() {
            return Ok(Turn::Stopped);
        }
        self.course.reclaim_turn(alloc, &mut self.store)
    }

    /// Ends the started write-out, whatever work is handed in. Where none has started nothing changes. Takes no memory.
    /// Stopped as a turn is.
    pub fn commit_sealed(&mut self, work: SealedWork) -> Turn
        ensures turn { IsOutEnd self.old result self.new }
        ensures stopped { tells_stop result ≡ is_stopped self.old }
    {
        if self.is_stopped() {
            return Turn::Stopped;
        }
        self.course.commit_sealed(&mut self.store, work)
    }

    /// Ends the started load of a processor of the job, whatever work is handed in. Where none has started nothing changes. Takes no
    /// memory. Stopped as a turn is.
    pub fn commit_opened(&mut self, cpu: Cpu, work: UnsealedWork) -> Turn
        requires { cpu.0 < length self.old.job.scripts }
        ensures turn { IsLoadEnd self.old cpu result self.new }
        ensures stopped { tells_stop result ≡ is_stopped self.old }
    {
        if self.is_stopped() {
            return Turn::Stopped;
        }
        self.course.commit_opened(cpu, work)
    }

    // Nothing is done any more: memory was refused to a worker, or an epoch or a version was used up.
    fn is_stopped(&self) -> bool
        ensures { result ≡ is_stopped self.now }
    {
        self.out_of_memory || self.course.turns.is_spent
    }

    /// Whether an epoch or a version was used up.
    pub fn is_spent(&self) -> bool
        ensures { result ≡ is_spent self.now.past }
    {
        self.course.turns.is_spent
    }

    /// Whether a page could not be reloaded.
    pub fn has_loss(&self) -> bool
        ensures { result ≡ has_loss self.now.past }
    {
        self.course.turns.has_loss
    }

    /// Keeps in mind that memory was refused to a worker: no turn does anything from now on.
    pub fn stop_for_memory(&mut self)
        ensures { self.new ≡ record self.old { out_of_memory = true } }
    {
        self.out_of_memory = true;
    }

    /// Whether memory was refused to a worker.
    pub fn out_of_memory(&self) -> bool
        ensures { result ≡ self.now.out_of_memory }
    {
        self.out_of_memory
    }

    /// The entries so far, oldest first.
    pub fn entries(&self) -> &[Entry]
        ensures value { reverse result.now ≡ self.now.past }
        ensures holds { Holds self.now }
    {
        &self.course.entries
    }

    /// The job.
    pub fn job(&self) -> &Job
        ensures { result.now ≡ self.now.job }
    {
        &self.course.job
    }

    /// How many processors the job has, which is valid.
    pub fn cpus(&self) -> u8
        ensures value { result ≡ length self.now.job.scripts }
        ensures valid { IsValid self.now.job }
    {
        self.course.job.scripts().len() as u8
    }

    /// The job, the entries, oldest first, and the store. They keep what the book kept.
    pub fn into_parts(self) -> Parts<B>
        ensures job { result.job ≡ self.job }
        ensures entries { reverse result.entries.items ≡ self.past }
        ensures told { B.told result.store ≡ self.told }
        ensures plans { B.plans result.store ≡ self.plans }
        ensures holds { Holds self }
    {
        let Book { course, store, .. } = self;
        let Course { job, entries, .. } = Box::into_inner(course);
        Parts {
            job,
            entries,
            store,
        }
    }
}

/// What is left of a book.
#[derive(Drop)]
pub struct Parts<B: Backing> {
    pub job: Job,
    /// Oldest first.
    pub entries: Vec<Entry>,
    pub store: B,
}
