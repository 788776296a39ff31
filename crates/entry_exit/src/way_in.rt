//! What the two ways into an enclave share: the cases of their rows, and the seat.

ghost use Rattle.std.specs.Prelude.{◌≡◌, ◌<◌, true, false, length, IsSome};
ghost use Rattle.sgx_types.specs.Cases.{first_of_row};
ghost use Rattle.sgx_rules.specs.Table.{ssa_row};
ghost use Rattle.epcm_entry.specs.inner.Sights.{sight_in};
ghost use Rattle.secs_state.specs.inner.Secs.{added_at, with_busy};
ghost use Rattle.track_epoch.specs.inner.Tracking.{entered};
ghost use Rattle.entry_exit.specs.inner.Entry.{enter_sight, row_of, frame_case, seen_fields, ssa_page, with_entered};

use crate::tcs::fields;
use cached_translations::processor::{Mode, Processor};
use epcm_entry::epc::Epc;
use secs_state::secs::Secs;
use sgx_rules::refusals::Refusal;
use sgx_types::layouts::TcsFields;
use sgx_types::names::{Frame, PROCESSORS};
use track_epoch::track::Track;

/// The two ways into an enclave: with a new state, or with the one that was saved last.
#[derive(Clone, Copy)]
pub enum WayIn {
    Enter,
    Resume,
}

impl WayIn {
    // Whether no state save frame is left for a new state, or none is in use.
    fn lacks_frame(self, fields: TcsFields) -> bool
        ensures { result ≡ (frame_case self (seen_fields fields)).holds }
    {
        match self {
            WayIn::Enter => fields.cssa == fields.nssa,
            WayIn::Resume => fields.cssa == 0,
        }
    }

    // The refusal for that.
    fn frame_refusal(self, fields: TcsFields) -> Refusal
        ensures { result ≡ (frame_case self (seen_fields fields)).why }
    {
        match self {
            WayIn::Enter => Refusal::NoFrame,
            WayIn::Resume => Refusal::NoSaved,
        }
    }

    // The number of the state save page. OSSA and CSSA are not cut to 32 bits.
    fn ssa_page(self, fields: TcsFields) -> u64
        requires { (frame_case self (seen_fields fields)).holds ≡ false }
        ensures { result ≡ ssa_page self (seen_fields fields) }
    {
        let next = fields.ossa / 4096 + u64::from(fields.cssa);
        match self {
            WayIn::Enter => next,
            WayIn::Resume => next - 1,
        }
    }

    /// The first case that holds of the row of `enter` or `resume`.
    pub fn refusal(
        self,
        epc: &Epc,
        secs: &Secs,
        mode: Mode,
        tcs: u32,
        tcs_frame: Frame,
        ssa_frame: Frame,
    ) -> Option<Refusal>
        ensures { result
            ≡ first_of_row (row_of self secs.now.enclave tcs (enter_sight epc.now secs.now mode tcs tcs_frame.0 ssa_frame.0)) }
    {
        if mode.is_inside() {
            return Some(Refusal::WrongMode);
        }
        if tcs_frame.0 >= epc.frames() || ssa_frame.0 >= epc.frames() {
            return Some(Refusal::BadRange);
        }
        if !secs.is_init() {
            return Some(Refusal::NotInit);
        }
        let tcs_entry = epc.entry(tcs_frame);
        if tcs_entry.is_busy() {
            return Some(Refusal::Conflict);
        }
        if !tcs_entry.holds(secs.enclave(), u64::from(tcs)) {
            return Some(Refusal::Absent);
        }
        if !tcs_entry.is_tcs() {
            return Some(Refusal::BadKind);
        }
        if tcs_entry.is_blocked() {
            return Some(Refusal::Blocked);
        }
        if secs.tcs_busy(tcs) {
            return Some(Refusal::TcsBusy);
        }
        let fields = fields(epc, tcs_frame);
        if self.lacks_frame(fields) {
            return Some(self.frame_refusal(fields));
        }
        ssa_refusal(epc, secs.enclave(), self.ssa_page(fields), ssa_frame)
    }
}

// The first case that holds of the part of the rows that is on the state save frame.
fn ssa_refusal(epc: &Epc, enclave: u16, number: u64, frame: Frame) -> Option<Refusal>
    requires { frame.0 < length epc.now }
    ensures { result ≡ first_of_row (ssa_row enclave number (sight_in epc.now frame.0)) }
{
    let entry = epc.entry(frame);
    if entry.is_busy() {
        return Some(Refusal::Conflict);
    }
    if !entry.holds(enclave, number) {
        return Some(Refusal::Absent);
    }
    if !entry.is_reg() {
        return Some(Refusal::BadKind);
    }
    if entry.is_blocked() {
        return Some(Refusal::Blocked);
    }
    if !entry.perm().is_some_and(|perm| perm.r && perm.w) {
        return Some(Refusal::NoPerm);
    }
    None
}

/// Takes a processor into an enclave: its TCS page is busy, the enclave's track counts the processor, and it holds no
/// translation.
pub fn seat(
    secs: &mut Secs,
    track: &mut Track,
    cpu: &mut Processor,
    tcs: u32,
    tcs_frame: Frame,
    ssa_frame: Frame,
    acc: u64,
)
    requires room { length track.old.noted < PROCESSORS }
    requires added { IsSome (added_at secs.old tcs) }
    ensures secs { secs.new ≡ with_busy secs.old tcs true }
    ensures track { track.new ≡ entered track.old }
    ensures cpu { cpu.new ≡ with_entered secs.old.enclave tcs tcs_frame ssa_frame track.old.epoch acc }
{
    // The processor is counted and holds nothing before it can take a translation: a track that comes then finds it among those
    // that it waits for.
    cpu.mode = Mode::Inside {
        enclave: secs.enclave(),
        tcs,
        tcs_frame,
        ssa_frame,
        epoch: track.enter(),
    };
    cpu.acc = acc;
    cpu.cache.clear();
    secs.take_tcs(tcs);
}
