// The backing store, where sealed records are kept outside the EPC: what is asked of any store, and one that lies by a plan.
#![tactic(auto)]

pub mod backing;
mod blank;
pub mod calls;
mod flips;
mod ledger;
mod page_places;
mod plan_rules;
pub mod planned_store;
