//! Names that are read. A word that is none of a kind of names is read as one of them: who prints again what was read sees that the
//! word was another.

ghost use Rattle.std.specs.Prelude.{◌≡◌};
ghost use Rattle.trace_lines.specs.inner.Names.{access_in, bare_of, cause_in, fault_in, kind_in, look_in, perm_in, row_of, stop_in};

use sgx_rules::entries::{AccessOp, BusWhy, Cause, Look, PfWhy};
use sgx_rules::refusals::Refusal;
use sgx_types::names::{Kind, Perm};
use text_words::names::by_name;

/// The instructions, by their names alone.
#[derive(Clone, Copy)]
pub enum Row {
    Epa,
    Create,
    Add,
    Extend,
    Init,
    Enter,
    Resume,
    Exit,
    Aex,
    Fill,
    Load,
    Store,
    Xadd,
    Set,
    Plus,
    Pf,
    OutLoad,
    OutStore,
    Block,
    Track,
    EwbStart,
    Ewb,
    EldStart,
    Eld,
}

const INSTRUCTIONS: &[(&[u8], Row)] = &[
    (b"epa", Row::Epa),
    (b"create", Row::Create),
    (b"add", Row::Add),
    (b"extend", Row::Extend),
    (b"init", Row::Init),
    (b"enter", Row::Enter),
    (b"resume", Row::Resume),
    (b"exit", Row::Exit),
    (b"aex", Row::Aex),
    (b"fill", Row::Fill),
    (b"load", Row::Load),
    (b"store", Row::Store),
    (b"xadd", Row::Xadd),
    (b"set", Row::Set),
    (b"plus", Row::Plus),
    (b"pf", Row::Pf),
    (b"outload", Row::OutLoad),
    (b"outstore", Row::OutStore),
    (b"block", Row::Block),
    (b"track", Row::Track),
    (b"ewbstart", Row::EwbStart),
    (b"ewb", Row::Ewb),
    (b"eldstart", Row::EldStart),
    (b"eld", Row::Eld),
];

#[tactic(auto, unfolding(crate::specs::inner::Names::row_of))]
pub fn instruction(word: &[u8]) -> Option<Row>
    ensures { result ≡ row_of word.now }
{
    by_name(INSTRUCTIONS, word)
}

const KINDS: &[(&[u8], Kind)] = &[
    (b"secs", Kind::Secs),
    (b"tcs", Kind::Tcs),
    (b"reg", Kind::Reg),
    (b"va", Kind::Va),
];

#[tactic(auto, unfolding(crate::specs::inner::Names::kind_in))]
pub fn kind(word: &[u8]) -> Kind
    ensures { result ≡ kind_in word.now }
{
    by_name(KINDS, word).unwrap_or(Kind::Reg)
}

// Whether R, W and X stand in permissions.
const PERMS: &[(&[u8], (bool, bool, bool))] = &[
    (b"-", (false, false, false)),
    (b"x", (false, false, true)),
    (b"w", (false, true, false)),
    (b"wx", (false, true, true)),
    (b"r", (true, false, false)),
    (b"rx", (true, false, true)),
    (b"rw", (true, true, false)),
    (b"rwx", (true, true, true)),
];

#[tactic(auto, unfolding(crate::specs::inner::Names::perm_in))]
pub fn perm(word: &[u8]) -> Perm
    ensures { result ≡ perm_in word.now }
{
    let (r, w, x) = by_name(PERMS, word).unwrap_or((false, false, false));
    Perm { r, w, x }
}

const CAUSES: &[(&[u8], Cause)] = &[
    (b"timer", Cause::Timer),
    (b"fault", Cause::Fault),
    (b"kick", Cause::Kick),
    (b"end", Cause::End),
];

#[tactic(auto, unfolding(crate::specs::inner::Names::cause_in))]
pub fn cause(word: &[u8]) -> Cause
    ensures { result ≡ cause_in word.now }
{
    by_name(CAUSES, word).unwrap_or(Cause::Timer)
}

const ACCESSES: &[(&[u8], AccessOp)] = &[
    (b"load", AccessOp::Load),
    (b"store", AccessOp::Store),
    (b"xadd", AccessOp::Xadd),
];

#[tactic(auto, unfolding(crate::specs::inner::Names::access_in))]
pub fn access(word: &[u8]) -> AccessOp
    ensures { result ≡ access_in word.now }
{
    by_name(ACCESSES, word).unwrap_or(AccessOp::Load)
}

const FAULTS: &[(&[u8], PfWhy)] = &[
    (b"absent", PfWhy::Absent),
    (b"type", PfWhy::WrongType),
    (b"perm", PfWhy::NoPerm),
];

#[tactic(auto, unfolding(crate::specs::inner::Names::fault_in))]
pub fn fault(word: &[u8]) -> PfWhy
    ensures { result ≡ fault_in word.now }
{
    by_name(FAULTS, word).unwrap_or(PfWhy::Absent)
}

const LOOKS: &[(&[u8], Look)] = &[
    (b"young", Look::Young),
    (b"held", Look::Held),
    (b"noroom", Look::NoRoom),
    (b"taken", Look::Taken),
];

#[tactic(auto, unfolding(crate::specs::inner::Names::look_in))]
pub fn look(word: &[u8]) -> Look
    ensures { result ≡ look_in word.now }
{
    by_name(LOOKS, word).unwrap_or(Look::Young)
}

const STOPS: &[(&[u8], BusWhy)] = &[
    (b"get", BusWhy::GetFailed),
    (b"none", BusWhy::NoRecord),
    (b"put", BusWhy::PutFailed),
    (b"mac", BusWhy::Mac),
    (b"header", BusWhy::Header),
    (b"slot", BusWhy::Slot),
];

#[tactic(auto, unfolding(crate::specs::inner::Names::stop_in))]
pub fn stop(word: &[u8]) -> BusWhy
    ensures { result ≡ stop_in word.now }
{
    by_name(STOPS, word).unwrap_or(BusWhy::GetFailed)
}

const BARE_REFUSALS: &[(&[u8], Refusal)] = &[
    (b"PgInvld", Refusal::PgInvld),
    (b"PgIsSecs", Refusal::PgIsSecs),
    (b"NotBlockable", Refusal::NotBlockable),
    (b"BlkState", Refusal::BlkState),
    (b"Conflict", Refusal::Conflict),
    (b"EpochSpent", Refusal::EpochSpent),
    (b"PageNotBlocked", Refusal::PageNotBlocked),
    (b"SlotEmpty", Refusal::SlotEmpty),
    (b"VersionSpent", Refusal::VersionSpent),
    (b"PageExists", Refusal::PageExists),
    (b"BadRange", Refusal::BadRange),
    (b"BadPerm", Refusal::BadPerm),
    (b"BadKind", Refusal::BadKind),
    (b"NotInit", Refusal::NotInit),
    (b"IsInit", Refusal::IsInit),
    (b"TcsBusy", Refusal::TcsBusy),
    (b"NoFrame", Refusal::NoFrame),
    (b"NoSaved", Refusal::NoSaved),
    (b"FrameBusy", Refusal::FrameBusy),
    (b"Absent", Refusal::Absent),
    (b"Blocked", Refusal::Blocked),
    (b"NoPerm", Refusal::NoPerm),
    (b"Miss", Refusal::Miss),
    (b"NoFault", Refusal::NoFault),
    (b"WrongMode", Refusal::WrongMode),
];

/// A refusal that has no fields.
#[tactic(auto, unfolding(crate::specs::inner::Names::bare_of))]
pub fn bare(word: &[u8]) -> Option<Refusal>
    ensures { result ≡ bare_of word.now }
{
    by_name(BARE_REFUSALS, word)
}
