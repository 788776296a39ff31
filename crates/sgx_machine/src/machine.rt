//! The machine and its readers.

ghost use Rattle.std.specs.Prelude.{◌≡◌, ◌<◌, ◌≤◌, ◌^◌, ◌%◌, ◌/◌, count_by, length, is_some, nat_le, true};
ghost use Rattle.std.specs.Option.{option_map};
ghost use Rattle.sgx_types.specs.Pages.{page_at};
ghost use Rattle.sgx_rules.specs.Frames.{children, least_free};
ghost use Rattle.sgx_rules.specs.Table.{allows, is_lawful_access, is_loading, is_ready, is_va};
ghost use Rattle.sgx_rules.specs.Flat.{enclave_sight_of};
ghost use Rattle.epcm_entry.specs.inner.Epc.{is_free_frame};
ghost use Rattle.cached_translations.specs.inner.Translations.{translation_of};
ghost use Rattle.sgx_machine.specs.inner.Parts.{state_of, cpu_at, tcs_of};
ghost use Rattle.machine_laws.specs.inner.Stands.{IsSound};
ghost use Rattle.machine_laws.specs.inner.State.{is_in_use, number_noting};

use crate::starts::Start;
use cached_translations::processor::{Mode, Processor};
use epcm_entry::entry_view::EntryView;
use epcm_entry::epc::Epc;
use measure_log::measure::Measure;
use secs_state::table::SecsTable;
use sgx_rules::entries::AccessOp;
use sgx_types::layouts::TcsFields;
use sgx_types::names::{Cpu, Frame, Kind, Page, Perm};
use std::alloc::Global;
use std::marker::Model;
use track_epoch::tracks::Tracks;
use version_array::va_table::VaTable;
use version_array::versions::Versions;

/// SGX1's instructions over one EPC, with up to 16 processors and enclaves from 1 to 8.
#[derive(Drop)]
pub struct Machine {
    pub(crate) epc: Epc,
    pub(crate) secs: SecsTable,
    // By the enclave's number; place 0 stays empty.
    pub(crate) measures: Vec<Option<Measure>>,
    pub(crate) tracks: Tracks,
    pub(crate) va: VaTable,
    pub(crate) versions: Versions,
    // By the frame's number.
    pub(crate) starts: Vec<Option<Start>>,
    pub(crate) cpus: Vec<Processor>,
    pub(crate) key: [u8; 32],
    pub(crate) start_epoch: u64,
    pub(crate) start_version: u64,
}

impl Model for Machine {
    ghost use Rattle.sgx_machine.specs.inner.Parts.{Parts};

    ghost Value = { Parts };

    ghost use Rattle.sgx_machine.specs.inner.Whole.{parts_of, IsWhole};

    ghost view = { parts_of };

    ghost invariant = { IsWhole };
}

impl Machine {
    /// How many frames the EPC has.
    pub fn frames(&self) -> u32
        ensures value { result ≡ (state_of self.now).frames }
        ensures sound { IsSound (state_of self.now) }
        ensures numbered { (g : Page) → is_some ((state_of self.now).added g) ≡ true → (1 ≤ g.enclave) × (g.enclave ≤ 8) }
    {
        self.epc.frames()
    }

    /// How many processors there are, at most 16.
    pub fn cpus(&self) -> u8
        ensures value { result ≡ length self.now.cpus }
        ensures few { result ≤ 16 }
    {
        self.cpus.len() as u8
    }

    /// How a processor stands: outside, or inside an enclave by a TCS page.
    pub fn mode(&self, cpu: Cpu) -> Mode
        requires { cpu.0 < length self.now.cpus }
        ensures { result ≡ (cpu_at self.now cpu.0).mode }
    {
        self.cpus[usize::from(cpu.0)].mode
    }

    /// Whether a processor holds a translation of a page of its enclave, by the page's number.
    pub fn holds(&self, cpu: Cpu, number: u32) -> bool
        requires { cpu.0 < length self.now.cpus }
        ensures { result ≡ is_some (translation_of (cpu_at self.now cpu.0).cache number) }
    {
        self.cpus[usize::from(cpu.0)].cache.find(number).is_some()
    }

    /// How many processors are inside an enclave, from 1 to 8, with an epoch at or below one.
    pub fn older(&self, enclave: u16, block: u64) -> u32
        requires first { 1 ≤ enclave }
        requires last { enclave ≤ 8 }
        ensures { result ≡ number_noting (state_of self.now) enclave (λ m. nat_le m block) }
    {
        self.tracks.get(enclave).at_or_below(block)
    }

    /// Whether an enclave was created and initialised.
    pub fn is_init(&self, enclave: u16) -> bool
        ensures { result ≡ is_ready (enclave_sight_of ((state_of self.now).enclaves enclave)) }
    {
        match self.secs.get(enclave) {
            Some(secs) => secs.is_init(),
            None => false,
        }
    }

    /// The free frame with the least number, None exactly where none is free.
    pub fn first_free(&self) -> Option<Frame>
        ensures { option_map (λ f. f.0) result ≡ least_free (state_of self.now).frames (state_of self.now).content }
    {
        self.epc.first_free()
    }

    /// How many frames are free.
    pub fn free_count(&self) -> u32
        ensures { result ≡ count_by is_free_frame self.now.epc }
    {
        self.epc.free_count()
    }

    /// Whether the page in a frame has started to go out, and its write-out has not ended.
    pub fn is_leaving(&self, frame: Frame) -> bool
        ensures { result ≡ (state_of self.now).is_sealing frame.0 }
    {
        frame.0 < self.frames()
            && matches!(
                self.epc.entry(frame),
                EntryView::Valid { sealing: true, .. }
            )
    }

    /// Whether a page has started to come into a frame, and its load has not ended.
    pub fn is_coming(&self, frame: Frame) -> bool
        ensures { result ≡ is_loading ((state_of self.now).content frame.0) }
    {
        frame.0 < self.frames() && matches!(self.epc.entry(frame), EntryView::Loading { .. })
    }

    /// How many frames hold TCS and REG pages of an enclave, from 1 to 8, or wait for one. None does before it is created.
    pub fn children(&self, enclave: u16) -> u32
        requires first { 1 ≤ enclave }
        requires last { enclave ≤ 8 }
        ensures { result ≡ children (state_of self.now).frames (state_of self.now).content enclave }
    {
        match self.secs.get(enclave) {
            Some(secs) => secs.children(),
            None => 0,
        }
    }

    /// Whether an open start names a slot of the version array page in a frame.
    pub fn any_busy(&self, frame: Frame) -> bool
        requires { is_va ((state_of self.now).content frame.0) ≡ true }
        ensures { result ≡ is_in_use (state_of self.now) frame.0 }
    {
        self.va.any_busy(frame)
    }

    /// The fields of the TCS page in a frame, None exactly where the frame holds no TCS.
    pub fn tcs(&self, frame: Frame) -> Option<TcsFields>
        ensures { result ≡ tcs_of ((state_of self.now).content frame.0) ((state_of self.now).words frame.0) }
    {
        if frame.0 >= self.frames() {
            return None;
        }
        if !self.epc.entry(frame).is_tcs() {
            return None;
        }
        let ossa = self.epc.word(frame, 2);
        let counts = self.epc.word(frame, 3);
        Some(TcsFields {
            ossa,
            cssa: low_half(counts),
            nssa: high_half(counts),
        })
    }

    /// Whether a page was added as a PT_REG page with the permission that an access needs: R for a load, W for a store,
    /// both for an exchange and add. No other access of it can succeed, wherever the page is.
    pub fn lawful(&self, page: Page, op: AccessOp) -> bool
        ensures { result ≡ is_lawful_access ((state_of self.now).added page) op }
    {
        is_lawful_access(self.added(page.enclave, u64::from(page.number)), op)
    }

    /// The kind and the permissions with which a page was added. A number past its enclave is of no page.
    pub(crate) fn added(&self, enclave: u16, number: u64) -> Option<(Kind, Perm)>
        ensures { result ≡ (state_of self.now).added (page_at enclave number) }
    {
        let secs = self.secs.get(enclave)?;
        if number >= secs.size() / 4096 {
            return None;
        }
        secs.added(number as u32)
    }
}

/// Whether an access can succeed, by what its page was added as.
pub(crate) fn is_lawful_access(added: Option<(Kind, Perm)>, op: AccessOp) -> bool
    ensures { result ≡ is_lawful_access added op }
{
    match added {
        Some((Kind::Reg, perm)) => allows(perm, op),
        _ => false,
    }
}

fn allows(perm: Perm, op: AccessOp) -> bool
    ensures { result ≡ allows perm op }
{
    match op {
        AccessOp::Load => perm.r,
        AccessOp::Store => perm.w,
        AccessOp::Xadd => perm.r && perm.w,
    }
}

fn low_half(word: u64) -> u32
    ensures { result ≡ word % 2 ^ 32 }
{
    (word % (1 << 32)) as u32
}

fn high_half(word: u64) -> u32
    ensures { result ≡ word / 2 ^ 32 }
{
    (word >> 32) as u32
}
