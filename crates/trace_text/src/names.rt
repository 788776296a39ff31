//! The words for the cases of an enum.

ghost use Rattle.std.specs.Prelude.{◌≡◌, ◌≤◌, [], ◌∷◌, length};
ghost use Rattle.trace_text.specs.Names.{access_word, cause_word, fault_word, kind_word, look_word, perms_word, stop_word};
ghost use Rattle.trace_text.specs.TraceText.{action_name, refusal_name};

use crate::room::LONGEST_NAME;
use sgx_rules::entries::{AccessOp, Action, BusWhy, Cause, Look, PfWhy};
use sgx_rules::refusals::Refusal;
use sgx_types::names::{Kind, Perm};

pub(crate) fn kind_name(kind: Kind) -> &'static str
    ensures name { result.now ≡ kind_word kind }
    ensures short { length result.now ≤ LONGEST_NAME }
{
    match kind {
        Kind::Secs => "secs",
        Kind::Tcs => "tcs",
        Kind::Reg => "reg",
        Kind::Va => "va",
    }
}

pub(crate) fn perms_name(perm: Perm) -> &'static str
    ensures name { result.now ≡ perms_word perm }
    ensures short { length result.now ≤ LONGEST_NAME }
{
    match (perm.r, perm.w, perm.x) {
        (false, false, false) => "-",
        (false, false, true) => "x",
        (false, true, false) => "w",
        (false, true, true) => "wx",
        (true, false, false) => "r",
        (true, false, true) => "rx",
        (true, true, false) => "rw",
        (true, true, true) => "rwx",
    }
}

pub(crate) fn cause_name(cause: Cause) -> &'static str
    ensures name { result.now ≡ cause_word cause }
    ensures short { length result.now ≤ LONGEST_NAME }
{
    match cause {
        Cause::Timer => "timer",
        Cause::Fault => "fault",
        Cause::Kick => "kick",
        Cause::End => "end",
    }
}

pub(crate) fn access_name(access: AccessOp) -> &'static str
    ensures name { result.now ≡ access_word access }
    ensures short { length result.now ≤ LONGEST_NAME }
{
    match access {
        AccessOp::Load => "load",
        AccessOp::Store => "store",
        AccessOp::Xadd => "xadd",
    }
}

pub fn fault_name(fault: PfWhy) -> &'static str
    ensures name { result.now ≡ fault_word fault }
    ensures short { length result.now ≤ LONGEST_NAME }
{
    match fault {
        PfWhy::Absent => "absent",
        PfWhy::WrongType => "type",
        PfWhy::NoPerm => "perm",
    }
}

pub(crate) fn look_name(look: Look) -> &'static str
    ensures name { result.now ≡ look_word look }
    ensures short { length result.now ≤ LONGEST_NAME }
{
    match look {
        Look::Young => "young",
        Look::Held => "held",
        Look::NoRoom => "noroom",
        Look::Taken => "taken",
    }
}

pub(crate) fn stop_name(stop: BusWhy) -> &'static str
    ensures name { result.now ≡ stop_word stop }
    ensures short { length result.now ≤ LONGEST_NAME }
{
    match stop {
        BusWhy::GetFailed => "get",
        BusWhy::NoRecord => "none",
        BusWhy::PutFailed => "put",
        BusWhy::Mac => "mac",
        BusWhy::Header => "header",
        BusWhy::Slot => "slot",
    }
}

/// The name of an instruction, without its operands.
pub fn action_name(action: &Action) -> &'static str
    ensures name { action_name action.now ≡ result.now ∷ [] }
    ensures short { length result.now ≤ LONGEST_NAME }
{
    match action {
        Action::Epa { .. } => "epa",
        Action::Create { .. } => "create",
        Action::Add { .. } => "add",
        Action::Extend { .. } => "extend",
        Action::Init { .. } => "init",
        Action::Enter { .. } => "enter",
        Action::Resume { .. } => "resume",
        Action::Exit => "exit",
        Action::Aex { .. } => "aex",
        Action::Fill { .. } => "fill",
        Action::Load { .. } => "load",
        Action::Store { .. } => "store",
        Action::Xadd { .. } => "xadd",
        Action::Set { .. } => "set",
        Action::Plus { .. } => "plus",
        Action::Pf { .. } => "pf",
        Action::OutLoad { .. } => "outload",
        Action::OutStore { .. } => "outstore",
        Action::Block { .. } => "block",
        Action::Track { .. } => "track",
        Action::EwbStart { .. } => "ewbstart",
        Action::Ewb { .. } => "ewb",
        Action::EldStart { .. } => "eldstart",
        Action::Eld { .. } => "eld",
    }
}

/// The name of a refusal, without its numbers.
pub fn refusal_name(refusal: &Refusal) -> &'static str
    ensures name { refusal_name refusal.now ≡ result.now ∷ [] }
    ensures short { length result.now ≤ LONGEST_NAME }
{
    match refusal {
        Refusal::PgInvld => "PgInvld",
        Refusal::PgIsSecs => "PgIsSecs",
        Refusal::NotBlockable => "NotBlockable",
        Refusal::BlkState => "BlkState",
        Refusal::Conflict => "Conflict",
        Refusal::PrevTrk { .. } => "PrevTrk",
        Refusal::EpochSpent => "EpochSpent",
        Refusal::PageNotBlocked => "PageNotBlocked",
        Refusal::NotTracked { .. } => "NotTracked",
        Refusal::SlotOccupied { .. } => "SlotOccupied",
        Refusal::SlotEmpty => "SlotEmpty",
        Refusal::VersionSpent => "VersionSpent",
        Refusal::MacFail { .. } => "MacFail",
        Refusal::BadHeader { .. } => "BadHeader",
        Refusal::ChildPresent { .. } => "ChildPresent",
        Refusal::PageExists => "PageExists",
        Refusal::BadRange => "BadRange",
        Refusal::BadPerm => "BadPerm",
        Refusal::BadKind => "BadKind",
        Refusal::NotInit => "NotInit",
        Refusal::IsInit => "IsInit",
        Refusal::BadMeasure { .. } => "BadMeasure",
        Refusal::TcsBusy => "TcsBusy",
        Refusal::NoFrame => "NoFrame",
        Refusal::NoSaved => "NoSaved",
        Refusal::FrameBusy => "FrameBusy",
        Refusal::Absent => "Absent",
        Refusal::Blocked => "Blocked",
        Refusal::NoPerm => "NoPerm",
        Refusal::Miss => "Miss",
        Refusal::NoFault => "NoFault",
        Refusal::WrongMode => "WrongMode",
    }
}
