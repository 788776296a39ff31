// What the machine's instructions do to its state, and the laws of that: the state goes on to be what the entries say, and they
// go on to keep the rules. The definitions stand in specs/; here is a law that holds for every run.
#![tactic(auto)]

pub mod laws;
