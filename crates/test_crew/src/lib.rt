// Runs of jobs by threads, what is supposed of the records of runs, the gate that processors enter, leave and use with no lock, and the
// tracking words that processors and the reclaimer's worker share.
#![tactic(auto)]

#[cfg(test)]
mod epochs;
#[cfg(test)]
mod gates;
#[cfg(test)]
mod jobs;
#[cfg(test)]
mod premise;
#[cfg(test)]
mod runs;
#[cfg(test)]
mod tests;
