//! The right trace of a small job: it keeps every rule.

ghost use Rattle.sgx_rules.specs.Rules.{Along, Fits, FlatRule, RefusalRule, Stale};
ghost use Rattle.sgx_rules.specs.inner.Rules.{KeepsRules};
ghost use Rattle.script_rules.specs.Machines.{machine_of};
ghost use Rattle.driver_rules.specs.Scripts.{Script};
ghost use Rattle.worked_traces.specs.inner.Traces.{first_job, first_trace};

pub fn the_first_trace_keeps_the_script()
    ensures { Script first_job first_trace }
{}

#[tactic(auto, using(crate::proofs::TraceLaws::first_trace_table))]
pub fn the_first_trace_keeps_the_table()
    ensures { Along (RefusalRule (machine_of first_job)) first_trace }
{}

#[tactic(auto, using(crate::proofs::TraceLaws::first_trace_flat))]
pub fn the_first_trace_answers_as_flat_memory()
    ensures { Along FlatRule first_trace }
{}

#[tactic(auto, using(crate::proofs::TraceLaws::first_trace_pages))]
pub fn the_first_trace_fits()
    ensures { Fits 6 first_trace }
{}

pub fn the_first_trace_has_nothing_stale()
    ensures { Stale first_trace }
{}

#[tactic(auto, using(crate::proofs::TraceLaws::first_trace_laws), unfolding(sgx_types::specs::Counts::least_below))]
pub fn the_first_trace_keeps_the_rules()
    ensures { KeepsRules (machine_of first_job) first_trace }
{}
