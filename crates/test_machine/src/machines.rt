//! Tests of the machine.

mod building;
mod digests;
mod instructions;
mod leaving;
mod paging;
mod rows;
mod running;
mod small_jobs;
mod world;
