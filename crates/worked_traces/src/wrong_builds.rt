//! Traces that are wrong in the build: the rules that each breaks, and rules that it keeps.

ghost use Rattle.sgx_rules.specs.Rules.{Along, AtEachPlace, FitsRule, FlatRule, NoPageTwice, RefusalRule};
ghost use Rattle.sgx_rules.specs.inner.Rules.{KeepsRules};
ghost use Rattle.script_rules.specs.Machines.{machine_of};
ghost use Rattle.driver_rules.specs.Scripts.{ScriptRule};
ghost use Rattle.worked_traces.specs.inner.Traces.{adds_exchanged, epa_by_reclaimer, first_job, frame_beyond, frame_twice};
ghost use Rattle.worked_traces.specs.inner.Traces.{page_twice};

pub fn a_frame_beyond_the_epc_does_not_fit()
    ensures { ¬ Along (FitsRule 6) frame_beyond }
{}

pub fn a_frame_beyond_the_epc_breaks_the_table()
    ensures { ¬ Along (RefusalRule (machine_of first_job)) frame_beyond }
{}

#[tactic(auto, using(crate::proofs::TraceLaws::frame_beyond_flat))]
pub fn a_frame_beyond_the_epc_answers_as_flat_memory()
    ensures { Along FlatRule frame_beyond }
{}

pub fn a_frame_taken_twice_does_not_fit()
    ensures { ¬ Along (FitsRule 6) frame_twice }
{}

pub fn a_frame_taken_twice_breaks_the_script()
    ensures { ¬ Along (ScriptRule first_job) frame_twice }
{}

#[tactic(auto, using(crate::proofs::TraceLaws::frame_twice_flat))]
pub fn a_frame_taken_twice_answers_as_flat_memory()
    ensures { Along FlatRule frame_twice }
{}

#[tactic(auto, using(crate::proofs::TraceLaws::page_twice_not_pages))]
pub fn a_page_in_two_frames_does_not_fit()
    ensures { ¬ AtEachPlace NoPageTwice page_twice }
{}

pub fn a_page_in_two_frames_takes_free_frames()
    ensures { Along (FitsRule 6) page_twice }
{}

pub fn exchanged_adds_break_the_script()
    ensures { ¬ Along (ScriptRule first_job) adds_exchanged }
{}

#[tactic(auto, using(crate::proofs::TraceLaws::adds_exchanged_laws), unfolding(sgx_types::specs::Counts::least_below))]
pub fn exchanged_adds_keep_the_rules()
    ensures { KeepsRules (machine_of first_job) adds_exchanged }
{}

pub fn an_epa_by_the_reclaimer_breaks_the_script()
    ensures { ¬ Along (ScriptRule first_job) epa_by_reclaimer }
{}

#[tactic(auto, using(crate::proofs::TraceLaws::epa_by_reclaimer_laws), unfolding(sgx_types::specs::Counts::least_below))]
pub fn an_epa_by_the_reclaimer_keeps_the_rules()
    ensures { KeepsRules (machine_of first_job) epa_by_reclaimer }
{}
