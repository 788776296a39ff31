// Tests of what is told of a trace: where pages are, its picture, its fewest loads; and of flat memory. They go along rows, which are
// constants, in one loop each.
#![tactic(auto)]

#[cfg(test)]
mod flat;
#[cfg(test)]
mod least;
#[cfg(test)]
mod pictures;
#[cfg(test)]
mod queries;
#[cfg(test)]
mod same;
