//! The making of a machine.

ghost use Rattle.std.specs.Prelude.{◌≡◌, ◌≤◌, [], IfOk, None, replicate};
ghost use Rattle.sgx_machine.specs.inner.Parts.{idle, made, state_of};
ghost use Rattle.machine_laws.specs.inner.Shape.{ShapeWithRules};
ghost use Rattle.machine_laws.specs.inner.State.{making_of};
ghost use Rattle.machine_laws.specs.inner.Histories.{StandsWithAllRules};
ghost use Rattle.sgx_types.specs.declared.names.TheConstants.{LAST_EPOCH};

use crate::machine::Machine;
use crate::starts::Start;
use cached_translations::processor::Processor;
use epcm_entry::epc::Epc;
use measure_log::measure::Measure;
use secs_state::table::SecsTable;
use sgx_types::names::Memory;
use std::alloc::Global;
use track_epoch::tracks::Tracks;
use version_array::va_table::VaTable;
use version_array::versions::Versions;

// One place for each enclave from 1 to 8; place 0 stays empty.
const PLACES: usize = 9;

impl Machine {
    /// A machine with at most 4096 free frames and at most 16 processors outside. It seals with a key, and counts
    /// tracking epochs, of which 2^40 - 1 is the last, and versions from the given numbers on, which are at least 1.
    pub fn new(
        alloc: Global,
        frames: u32,
        cpus: u8,
        key: [u8; 32],
        start_epoch: u64,
        start_version: u64,
    ) -> Result<Machine, Memory>
        requires frames { frames ≤ 4096 }
        requires cpus { cpus ≤ 16 }
        requires first_epoch { 1 ≤ start_epoch }
        requires last_epoch { start_epoch ≤ LAST_EPOCH }
        requires first_version { 1 ≤ start_version }
        ensures value { IfOk result (λ m. m ≡ made frames cpus key start_epoch start_version) }
        ensures shape { IfOk result (λ m. ShapeWithRules (making_of (state_of m)) (state_of m) []) }
        ensures history { IfOk result (λ m. StandsWithAllRules (making_of (state_of m)) (state_of m) [] []) }
    {
        let starts = no_starts(alloc, frames)?;
        let measures = no_measures(alloc)?;
        let cpus = idle_processors(alloc, cpus)?;
        let epc = Epc::new(alloc, frames)?;
        Ok(Machine {
            epc,
            secs: SecsTable::new(),
            measures,
            tracks: Tracks::new(start_epoch),
            va: VaTable::new(),
            versions: Versions::new(start_version),
            starts,
            cpus,
            key,
            start_epoch,
            start_version,
        })
    }
}

#[tactic(auto, using(crate::proofs::Fresh::replicate_more))]
fn no_measures(alloc: Global) -> Result<Vec<Option<Measure>>, Memory>
    ensures { IfOk result (λ measures. measures.items ≡ replicate 9 None) }
{
    let mut measures = Vec::with_capacity(alloc, PLACES)?;
    for _ in 0..PLACES {
        measures.push(None)?;
    }
    Ok(measures)
}

#[tactic(auto, using(crate::proofs::Fresh::replicate_more))]
fn no_starts(alloc: Global, frames: u32) -> Result<Vec<Option<Start>>, Memory>
    ensures { IfOk result (λ starts. starts.items ≡ replicate frames None) }
{
    let mut starts = Vec::with_capacity(alloc, frames as usize)?;
    for _ in 0..frames {
        starts.push(None)?;
    }
    Ok(starts)
}

#[tactic(auto, using(crate::proofs::Fresh::replicate_more))]
fn idle_processors(alloc: Global, count: u8) -> Result<Vec<Processor>, Memory>
    ensures { IfOk result (λ cpus. cpus.items ≡ replicate count idle) }
{
    let mut cpus = Vec::with_capacity(alloc, usize::from(count))?;
    for _ in 0..count {
        cpus.push(Processor::new(alloc)?)?;
    }
    Ok(cpus)
}
