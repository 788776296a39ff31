// Tests of the commands, over memory. What is expected is what the reference program gave: a plain, unverified program with the same
// command line.
#![tactic(auto)]

#[cfg(test)]
mod audit_tests;
#[cfg(test)]
mod audited_traces;
#[cfg(test)]
mod away_tests;
#[cfg(test)]
mod calls;
#[cfg(test)]
mod cut_jobs;
#[cfg(test)]
mod fault_tests;
#[cfg(test)]
mod gate_tests;
#[cfg(test)]
mod least_tests;
#[cfg(test)]
mod meeting;
#[cfg(test)]
mod meeting_tests;
#[cfg(test)]
mod paged_jobs;
#[cfg(test)]
mod picture_tests;
#[cfg(test)]
mod question_tests;
#[cfg(test)]
mod reply_tests;
#[cfg(test)]
mod run_tests;
#[cfg(test)]
mod same;
#[cfg(test)]
mod seen_store;
#[cfg(test)]
mod verdict_tests;
#[cfg(test)]
mod word_tests;
#[cfg(test)]
mod worked_runs;
