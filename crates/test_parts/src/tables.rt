//! Tests of the driver's tables: the list of pages that may be written out, and the slots that are handed out. `bench/tables` takes the
//! time of some.

mod lists;
mod long;
mod slots;
mod world;
