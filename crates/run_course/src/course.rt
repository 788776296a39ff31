//! How far a run is.

ghost use Rattle.std.specs.Prelude.{◌≡◌, ℕ, [], false, List, Option, IfOk, IfSome};
ghost use Rattle.backing_store.specs.Calls.{Call};
ghost use Rattle.driver_pass.specs.inner.Viewed.{is_kicked};
ghost use Rattle.run_course.specs.inner.Courses.{KeepsCourse};

use crate::building::ROOM;
use driver_pass::pass::Pass;
use driver_tables::driver::Driver;
use due_tables::turns::Turns;
use job_grammar::jobs::Job;
use seal_record::seal::SealWork;
use sgx_machine::machine::Machine;
use sgx_rules::entries::Entry;
use sgx_types::names::Memory;
use std::alloc::Global;

/// How far a run of a job is: the entries so far, and what stands for them.
#[derive(Drop)]
pub struct Course {
    pub job: Job,
    pub machine: Machine,
    pub driver: Driver,
    pub turns: Turns,
    pub pass: Pass,
    /// Oldest first.
    pub entries: Vec<Entry>,
    /// Room for the work of the next page that goes out.
    pub room: Option<Box<SealWork>>,
}

// A page is added, and measured in 16 pieces.
const BUILD_OF_PAGE: usize = 17;

impl Course {
    /// A course before its first entry.
    pub fn new(alloc: Global, job: Job) -> Result<Course, Memory>
        ensures job { IfOk result (λ course. course.job ≡ job) }
        ensures entries { IfOk result (λ course. course.entries.items ≡ []) }
        ensures kicks { IfOk result (λ course. is_kicked course.pass ≡ false) }
        ensures keeps { IfOk result (λ course. (told : Option (List Call)) (spare : ℕ) → IfSome told (λ calls. calls ≡ [])
            → KeepsCourse course told spare) }
    {
        let pass = Pass::new(alloc)?;
        let entries = no_entries(alloc, &job)?;
        let turns = Turns::new(alloc, &job)?;
        let driver = Driver::new(alloc, &job)?;
        // The machine comes last, so that no other refusal has to give it back.
        let machine = Machine::new(
            alloc,
            job.epc(),
            job.scripts().len() as u8,
            *job.key(),
            job.start_epoch(),
            job.start_version(),
        )?;
        Ok(Course {
            job,
            machine,
            driver,
            turns,
            pass,
            entries,
            room: None,
        })
    }
}

// No entries, with room for those of most jobs: one of each operation, the build's, and the translations of each processor. What grows
// has to be moved while the lock is held.
fn no_entries(alloc: Global, job: &Job) -> Result<Vec<Entry>, Memory>
    ensures { IfOk result (λ entries. entries.items ≡ []) }
{
    let mut room = ROOM;
    for script in job.scripts() {
        room = room.saturating_add(script.len());
    }
    let a_page = job.scripts().len().saturating_add(BUILD_OF_PAGE);
    room = room.saturating_add(a_page.saturating_mul(job.pages() as usize));
    Ok(Vec::with_capacity(alloc, room)?)
}
