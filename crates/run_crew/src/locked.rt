//! What lies under the lock.

ghost use Rattle.std.specs.Prelude.{◌≡◌, IfOk, false, is_some};
ghost use Rattle.run_crew.specs.inner.Actors.{IsOf};
ghost use Rattle.run_crew.specs.inner.Views.{MayLoad};

use backing_store::backing::Backing;
use epoch_words::words::Words;
use run_rounds::run::{MachineBook, Turn};
use seal_record::seal::SealedWork;
use seal_record::unseal::UnsealedWork;
use sgx_types::names::{Actor, Cpu, Memory};
use std::alloc::Global;
use std::marker::{Brand, PhantomData};

/// The name of a run, which fixes its job, its words and whether its store tells its calls.
pub trait Run {
    ghost use Rattle.std.specs.Prelude.{Bool};
    ghost use Rattle.job_grammar.specs.Jobs.{JobView};
    ghost use Rattle.run_crew.specs.inner.Actors.{TableId};

    ghost job: { JobView };

    ghost words: { TableId };

    ghost tells: { Bool };
}

impl Run for Brand {
    ghost use Rattle.run_crew.specs.inner.Actors.{no_job, no_words};
    ghost use Rattle.std.specs.Prelude.{false};

    ghost job = { no_job };

    ghost words = { no_words };

    ghost tells = { false };
}

/// A book of the run's job and words, over a store that tells its calls where that of the run does. When the lock is free the book keeps
/// its promises, as every book does, and nothing else is known of it.
#[derive(Drop)]
pub struct Locked<B: Backing, N: Run> {
    book: MachineBook<B>,
    of: PhantomData<N>,
    ghost same_job: { book.book.job ≡ N.job },
    ghost same_words: { book.words ≡ N.words },
    ghost same_tells: { is_some book.book.told ≡ N.tells },
}

impl<B: Backing, N: Run> Locked<B, N> {
    pub fn new(book: MachineBook<B>) -> Locked<B, N>
        requires job { book.book.job ≡ N.job }
        requires words { book.words ≡ N.words }
        requires tells { is_some book.book.told ≡ N.tells }
    {
        Locked {
            book,
            of: PhantomData,
        }
    }

    pub fn into_book(self) -> MachineBook<B>
        ensures job { result.book.job ≡ N.job }
        ensures words { result.words ≡ N.words }
        ensures tells { is_some result.book.told ≡ N.tells }
    {
        let Locked { book, of: _ } = self;
        book
    }

    /// A turn of an actor of the job.
    pub fn turn(&mut self, alloc: Global, words: &Words, who: Actor) -> Result<Turn, Memory>
        requires who { IsOf N.job who }
        requires words { words.now ≡ N.words }
        ensures { IfOk result (MayLoad who) }
    {
        match who {
            Actor::Builder => self.book.build_turn(alloc),
            Actor::Cpu(cpu) => self.book.turn(alloc, words, cpu),
            Actor::Reclaimer => self.book.reclaim_turn(alloc, words),
        }
    }

    /// The end of the started write-out.
    pub fn commit_sealed(&mut self, work: SealedWork) -> Turn {
        self.book.commit_sealed(work)
    }

    /// The end of a processor's started load.
    pub fn commit_opened(&mut self, cpu: Cpu, work: UnsealedWork) -> Turn
        requires { IsOf N.job (Actor.Cpu cpu) }
    {
        self.book.commit_opened(cpu, work)
    }

    pub fn stop_for_memory(&mut self) {
        self.book.stop_for_memory();
    }
}
