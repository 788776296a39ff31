//! A book of a job whose pages do not fit, with its words, and the rows of steps that are taken on it.

ghost use Rattle.std.specs.Prelude.{◌≡◌, ◌<◌, length};

use crate::rows::{Change, Last, Row, Seen, Step, Told, last_of};
use backing_store::planned_store::PlannedStore;
use epoch_words::words::Words;
use job_text::reader::read_job;
use run_book::book::{MachineBook, Turn};
use seal_record::seal::{SealWork, SealedWork, seal};
use seal_record::unseal::{UnsealWork, UnsealedWork, unseal};
use sgx_rules::entries::Entry;
use sgx_types::names::{Actor, Cpu, Memory};
use std::alloc::Global;
use std::process::Abort;
use std::test::Fail;

// One processor stores to 40 pages, and loads from them, in an EPC of 12 frames for 42 pages.
const FORTY_PAGES: &[u8] =
    b"epc 12\nenclave A 0x40000 0x40000\ntcs 0 1 1 plain\nreg 1 1 rw 0 plain\nreg 2 40 rw 0 plain\ncpu 0\neenter A 0\n\
    store 0x2000 1\nstore 0x3000 2\nstore 0x4000 3\nstore 0x5000 4\nstore 0x6000 5\nstore 0x7000 6\nstore 0x8000 7\n\
    store 0x9000 8\nstore 0xa000 9\nstore 0xb000 10\nstore 0xc000 11\nstore 0xd000 12\nstore 0xe000 13\n\
    store 0xf000 14\nstore 0x10000 15\nstore 0x11000 16\nstore 0x12000 17\nstore 0x13000 18\nstore 0x14000 19\n\
    store 0x15000 20\nstore 0x16000 21\nstore 0x17000 22\nstore 0x18000 23\nstore 0x19000 24\nstore 0x1a000 25\n\
    store 0x1b000 26\nstore 0x1c000 27\nstore 0x1d000 28\nstore 0x1e000 29\nstore 0x1f000 30\nstore 0x20000 31\n\
    store 0x21000 32\nstore 0x22000 33\nstore 0x23000 34\nstore 0x24000 35\nstore 0x25000 36\nstore 0x26000 37\n\
    store 0x27000 38\nstore 0x28000 39\nstore 0x29000 40\nload 0x2000\nload 0x3000\nload 0x4000\nload 0x5000\n\
    load 0x6000\nload 0x7000\nload 0x8000\nload 0x9000\nload 0xa000\nload 0xb000\nload 0xc000\nload 0xd000\n\
    load 0xe000\nload 0xf000\nload 0x10000\nload 0x11000\nload 0x12000\nload 0x13000\nload 0x14000\nload 0x15000\n\
    load 0x16000\nload 0x17000\nload 0x18000\nload 0x19000\nload 0x1a000\nload 0x1b000\nload 0x1c000\nload 0x1d000\n\
    load 0x1e000\nload 0x1f000\nload 0x20000\nload 0x21000\nload 0x22000\nload 0x23000\nload 0x24000\nload 0x25000\n\
    load 0x26000\nload 0x27000\nload 0x28000\nload 0x29000\neexit\n";

/// A book of that job and its words, with the work of what has started.
#[derive(Drop)]
pub struct World {
    book: MachineBook<PlannedStore>,
    words: Words,
    first: Option<Work>,
    again: Option<Work>,
    given: Option<[u8; 32]>,
    ghost theirs: { book.words ≡ words },
    ghost some: { 0 < length book.book.job.scripts },
}

// What is left to do between a start and its end.
#[derive(Drop)]
enum Work {
    Out(Box<SealWork>),
    Back(Box<UnsealWork>),
}

// What a book shows to its callers.
#[derive(Drop, PartialEq)]
struct Shown {
    entries: Vec<Entry>,
    cpus: u8,
    out_of_memory: bool,
}

impl World {
    fn new(rt: &impl Abort, alloc: Global) -> Result<Box<World>, Fail> {
        let job = Box::new(alloc, read_job(alloc, FORTY_PAGES)?)?;
        assert!(rt; !job.scripts().is_empty());
        let (words, seat, _) = Words::new(alloc, &job)?;
        let book = MachineBook::start(alloc, Box::into_inner(job), PlannedStore::new(), seat)?;
        let world = World {
            book,
            words,
            first: None,
            again: None,
            given: None,
        };
        Ok(Box::new(alloc, world)?)
    }

    fn shown(&self, alloc: Global) -> Result<Shown, Memory> {
        Ok(Shown {
            entries: self.book.entries().to_vec(alloc)?,
            cpus: self.book.cpus(),
            out_of_memory: self.book.out_of_memory(),
        })
    }

    fn build(&mut self, alloc: Global) -> Result<Turn, Memory> {
        self.book.build_turn(alloc)
    }

    fn run(&mut self, alloc: Global) -> Result<Turn, Memory> {
        self.book.turn(alloc, &self.words, Cpu(0))
    }

    fn reclaim(&mut self, alloc: Global) -> Result<Turn, Memory> {
        self.book.reclaim_turn(alloc, &self.words)
    }

    fn commit_sealed(&mut self, work: SealedWork) -> Turn {
        self.book.commit_sealed(work)
    }

    fn commit_opened(&mut self, work: UnsealedWork) -> Turn {
        self.book.commit_opened(Cpu(0), work)
    }

    fn refuse_memory(&mut self) {
        self.book.stop_for_memory();
    }

    // A turn. There is one processor.
    fn turn(&mut self, alloc: Global, actor: Actor) -> Result<Turn, Memory> {
        match actor {
            Actor::Builder => self.build(alloc),
            Actor::Reclaimer => self.reclaim(alloc),
            Actor::Cpu(_) => self.run(alloc),
        }
    }

    // Keeps the work that a turn answers.
    fn keep(&mut self, turn: Turn) -> Told {
        match turn {
            Turn::Seal(work) => self.keep_work(Work::Out(work)),
            Turn::Unseal(work) => {
                self.given = Some(work.rec.tag);
                self.keep_work(Work::Back(work))
            }
            turn => told(&turn),
        }
    }

    fn keep_work(&mut self, work: Work) -> Told {
        match &self.first {
            Some(first) => {
                let is_same = first.version() == work.version();
                self.again = Some(work);
                Told::Again { is_same }
            }
            None => {
                self.first = Some(work);
                Told::Started
            }
        }
    }

    fn end(&mut self, work: Option<Work>) -> Told {
        let turn = match work {
            Some(Work::Out(work)) => self.commit_sealed(seal(Box::into_inner(work))),
            Some(Work::Back(work)) => self.commit_opened(unseal(Box::into_inner(work))),
            None => return Told::Nothing,
        };
        told(&turn)
    }

    fn end_by_first(&mut self) -> Told {
        let work = self.first.take();
        self.end(work)
    }

    fn end_by_last(&mut self) -> Told {
        let work = self.again.take();
        self.end(work)
    }

    fn end_over_zeros(&mut self) -> Told {
        let Some(Work::Back(work)) = self.first.take() else {
            return Told::Nothing;
        };
        told(&self.commit_opened(unseal(over_zeros(Box::into_inner(work)))))
    }

    fn end_by_new(&mut self, alloc: Global) -> Result<Told, Memory> {
        let work = Box::new(alloc, SealWork::new(alloc)?)?;
        Ok(self.end(Some(Work::Out(work))))
    }

    fn take(&mut self, alloc: Global, step: Step) -> Result<Told, Memory> {
        match step {
            Step::Look => Ok(Told::Nothing),
            Step::Turn(actor) => {
                let turn = self.turn(alloc, actor)?;
                Ok(self.keep(turn))
            }
            Step::EndByFirst => Ok(self.end_by_first()),
            Step::EndByLast => Ok(self.end_by_last()),
            Step::EndOverZeros => Ok(self.end_over_zeros()),
            Step::EndByNew => self.end_by_new(alloc),
            Step::RefuseMemory => {
                self.refuse_memory();
                Ok(Told::Nothing)
            }
        }
    }

    fn last(&self) -> Last {
        last_of(self.book.entries().last(), self.given)
    }

    // Takes a step: what it answers, and what it leaves.
    fn see(&mut self, alloc: Global, step: Step) -> Result<Seen, Memory> {
        let before = self.shown(alloc)?;
        let told = self.take(alloc, step)?;
        let change = change(&before, &self.shown(alloc)?);
        Ok((told, change, self.last()))
    }

    fn play(&mut self, rt: &impl Abort, alloc: Global, rows: &[Row]) -> Result<(), Fail> {
        for (number, (step, want)) in rows.iter().enumerate() {
            let seen = self.see(alloc, *step)?;
            assert_eq!(rt; seen, *want, "row {number}");
        }
        Ok(())
    }

    // Ten turns of the builder, each of one entry. Ten pages stand in the EPC then.
    fn add_ten(&mut self, rt: &impl Abort, alloc: Global) -> Result<(), Memory> {
        for _ in 0..10 {
            assert!(rt; told(&self.build(alloc)?) == Told::Made(1));
        }
        Ok(())
    }

    // Turns of the reclaimer until a write-out has started.
    fn start_write_out(&mut self, rt: &impl Abort, alloc: Global) -> Result<(), Memory> {
        for _ in 0..1000 {
            if self.take(alloc, Step::Turn(Actor::Reclaimer))? == Told::Started {
                return Ok(());
            }
        }
        panic!(rt; "no write-out has started");
    }

    // Rounds of turns, each write-out ended at once, until the processor's load has started.
    fn start_load(&mut self, rt: &impl Abort, alloc: Global) -> Result<(), Memory> {
        for round in 0..40_000u32 {
            if self.take(alloc, round_step(round))? == Told::Started && self.given.is_some() {
                return Ok(());
            }
        }
        panic!(rt; "no load has started");
    }
}

impl Work {
    fn version(&self) -> u64 {
        match self {
            Work::Out(work) => work.version,
            Work::Back(work) => work.version,
        }
    }
}

// A round has four steps.
fn round_step(number: u32) -> Step {
    match number % 4 {
        0 => Step::Turn(Actor::Reclaimer),
        1 => Step::EndByFirst,
        2 => Step::Turn(Actor::Builder),
        _ => Step::Turn(Actor::Cpu(Cpu(0))),
    }
}

fn told(turn: &Turn) -> Told {
    match turn {
        Turn::Did { entries } => Told::Made(*entries),
        Turn::Stopped => Told::Stopped,
        _ => Told::Nothing,
    }
}

fn change(before: &Shown, after: &Shown) -> Change {
    if before == after {
        return Change::Same;
    }
    Change::Grown(after.entries.len().saturating_sub(before.entries.len()))
}

fn over_zeros(work: UnsealWork) -> UnsealWork {
    let mut work = work;
    for byte in &mut work.rec.cipher {
        *byte = 0;
    }
    work
}

/// Takes these steps on a book of ten pages, of which one has started to go out.
pub fn play_write_out(rt: &impl Abort, alloc: Global, rows: &[Row]) -> Result<(), Fail> {
    let mut world = World::new(rt, alloc)?;
    world.add_ten(rt, alloc)?;
    world.start_write_out(rt, alloc)?;
    world.play(rt, alloc, rows)
}

/// Takes these steps on a book in which a load of the processor has started.
pub fn play_load(rt: &impl Abort, alloc: Global, rows: &[Row]) -> Result<(), Fail> {
    let mut world = World::new(rt, alloc)?;
    world.start_load(rt, alloc)?;
    world.play(rt, alloc, rows)
}
