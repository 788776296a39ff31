//! What is supposed of the records of a run, tried: jobs are run over stores that give newest, older, changed or swapped records, or fail,
//! and the tag of each record that a store gave is computed under each version of the run. It goes with no version but the one under which
//! that record was put. In the last run a record is forged. And a store that knows the key forges a version array page.

mod forging;
mod jobs;
mod records;
mod report;
mod runs;
mod tests;
