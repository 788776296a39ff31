// Sets of numbers below a length, as bits: of the free frames of an EPC, and of the slots of a version array page that are not out.
#![tactic(auto)]

pub mod map;
