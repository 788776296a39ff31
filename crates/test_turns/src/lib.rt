// Turns of a book taken by hand: what stands between the start of a write-out or of a load and its end.
#![tactic(auto)]

#[cfg(test)]
mod builds;
#[cfg(test)]
mod loads;
#[cfg(test)]
mod rows;
#[cfg(test)]
mod stops;
#[cfg(test)]
mod worlds;
#[cfg(test)]
mod write_outs;
