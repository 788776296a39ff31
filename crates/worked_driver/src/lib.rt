// The rules Script, Age and Kick, and Refusal to Fresh, evaluated at whole traces with evictions; all eleven rules at entries that are
// wrong; and what is due to each actor at places of the traces. The jobs, the traces and most of what is wrong come from the reference
// program, which follows the same rules.
// Each function's contract is one fact, or some of one kind.
#![tactic(auto)]

pub mod calls;
pub mod dues;
pub mod laws;
pub mod right;
pub mod whole_traces;
pub mod wrong_ages;
pub mod wrong_dues;
pub mod wrong_kicks;
pub mod wrong_scripts;
pub mod wrong_tables;
