//! A run of a book by threads.

ghost use Rattle.std.specs.Prelude.{◌≡◌, ◌≤◌, IfOk, is_some, length, reverse};
ghost use Rattle.run_crew.specs.inner.Tallies.{IsTally};
ghost use Rattle.driver_rules.specs.Scripts.{IsEnded};

use crate::gate::Gate;
use crate::locked::{Locked, Run};
use crate::tally::{Tally, count};
use crate::waiting::Made;
use crate::workers::work;
use backing_store::backing::Backing;
use epoch_words::words::{Pass, Words};
use run_rounds::run::run;
pub use run_rounds::run::{MachineBook, Parts};
use sgx_types::names::{Actor, Cpu, Memory};
use std::alloc::Global;
use std::marker::Brand;
use std::sync::{Mutex, Wait};
use std::thread;
use std::thread::Threads;

/// Lets the builder, each processor and the reclaimer work on a book (`run_workers`), and counts the entries that each made.
pub fn run_crew<R: Threads + Wait + Sync, B: Backing + Send, G: Gate + Sync>(
    rt: &R,
    alloc: Global,
    book: MachineBook<B>,
    words: &Words,
    pass: Pass,
    gate: &G,
) -> Result<(MachineBook<B>, Tally), Memory>
    requires words { book.words ≡ words.now }
    requires pass { pass.words ≡ words.now }
    ensures job { IfOk result (λ made. made.0.book.job ≡ book.book.job) }
    ensures words { IfOk result (λ made. made.0.words ≡ book.words) }
    // A store that tells its calls goes on to.
    ensures tells { IfOk result (λ made. is_some made.0.book.told ≡ is_some book.book.told) }
    ensures ended { IfOk result (λ made. IsEnded made.0.book.job made.0.book.past) }
    ensures tally { IfOk result (λ made. IsTally (reverse made.0.book.past) (length made.0.book.job.scripts) made.1) }
{
    let book = run_workers(rt, alloc, book, words, pass, gate)?;
    let cpus = book.job().scripts().len();
    let tally = count(alloc, book.entries(), cpus)?;
    Ok((book, tally))
}

/// Lets the builder, each processor and the reclaimer work on a book, each in a thread of its own, until nothing is left to anyone or the
/// run is stopped. Nothing is supposed of the order in which they take the lock. What a worker knew of the book is not known behind the
/// lock, so rounds of turns on one thread close the run; they call no gate. Where a thread can't be made, a worker that has to wait stops,
/// and those rounds do what is left. While a processor keeps a page back, the reclaimer's worker looks at the word of that enclave, with
/// the lock free; the words and the pass are those of the book's seat. A run whose store fails for ever may not return.
pub fn run_workers<R: Threads + Wait + Sync, B: Backing + Send, G: Gate + Sync>(
    rt: &R,
    alloc: Global,
    book: MachineBook<B>,
    words: &Words,
    pass: Pass,
    gate: &G,
) -> Result<MachineBook<B>, Memory>
    requires words { book.words ≡ words.now }
    requires pass { pass.words ≡ words.now }
    ensures job { IfOk result (λ made. made.book.job ≡ book.book.job) }
    ensures words { IfOk result (λ made. made.words ≡ book.words) }
    // A store that tells its calls goes on to.
    ensures tells { IfOk result (λ made. is_some made.book.told ≡ is_some book.book.told) }
    ensures ended { IfOk result (λ made. IsEnded made.book.job made.book.past) }
{
    let mut book = run_named::<Brand, R, B, G>(rt, alloc, book, words, pass, gate);
    if book.out_of_memory() {
        return Err(Memory);
    }
    run(rt, alloc, &mut book, words)?;
    Ok(book)
}

// A run under a name, which fixes the job, the words and whether the store tells its calls.
fn run_named<N: Run + Send + Sync, R: Threads + Wait + Sync, B: Backing + Send, G: Gate + Sync>(
    rt: &R,
    alloc: Global,
    book: MachineBook<B>,
    words: &Words,
    pass: Pass,
    gate: &G,
) -> MachineBook<B>
    requires job { book.book.job ≡ N.job }
    requires seat { book.words ≡ N.words }
    requires tells { is_some book.book.told ≡ N.tells }
    requires words { words.now ≡ N.words }
    requires pass { pass.words ≡ words.now }
    ensures job { result.book.job ≡ N.job }
    ensures words { result.words ≡ N.words }
    ensures tells { is_some result.book.told ≡ N.tells }
{
    let cpus = book.job().scripts().len() as u8;
    let shared: Mutex<Locked<B, N>> = Mutex::new(Locked::new(book));
    let made = Made::new();
    in_threads(rt, alloc, &shared, &made, words, pass, gate, cpus);
    shared.into_inner().into_book()
}

// A thread for each worker. Where one can't be made the others are told, since they might wait for it for ever. One lifetime serves all
// that they borrow.
fn in_threads<
    'x,
    N: Run + Send + Sync,
    R: Threads + Wait + Sync,
    B: Backing + Send,
    G: Gate + Sync,
>(
    rt: &'x R,
    alloc: Global,
    shared: &'x Mutex<Locked<B, N>>,
    made: &'x Made,
    words: &'x Words,
    pass: Pass,
    gate: &'x G,
    cpus: u8,
)
    requires cpus { cpus ≤ length N.job.scripts }
    requires words { words.now ≡ N.words }
    requires pass { pass.words ≡ words.now }
{
    thread::scope(
        thread::scope_env(),
        rt,
        |scope| -> ()
            requires { (cpus ≤ length N.job.scripts) × (words.now ≡ N.words) × (pass.words ≡ words.now) }
        {
            if scope
                .spawn(move || work(rt, alloc, shared, made, words, None, gate, Actor::Builder))
                .is_err()
            {
                made.give_up();
            }
            for number in 0..cpus {
                if scope
                    .spawn(move || work(
                        rt,
                        alloc,
                        shared,
                        made,
                        words,
                        None,
                        gate,
                        Actor::Cpu(Cpu(number)),
                    ))
                    .is_err()
                {
                    made.give_up();
                }
            }
            if scope
                .spawn(move || work(
                    rt,
                    alloc,
                    shared,
                    made,
                    words,
                    Some(pass),
                    gate,
                    Actor::Reclaimer,
                ))
                .is_err()
            {
                made.give_up();
            }
        },
    );
}
