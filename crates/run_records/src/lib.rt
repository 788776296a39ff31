// What each entry of a run tells of the record of its call, whatever was forged, and that each page comes back over an honest store; and,
// where no record was forged, that each entry carries on the machine's standing with all the rules that bytes decide.
#![tactic(auto)]

pub mod bytes;
pub mod records;
