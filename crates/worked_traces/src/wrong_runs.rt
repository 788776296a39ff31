//! Traces that are wrong in the script of a processor: the rules that each breaks, and rules that it keeps.

ghost use Rattle.sgx_rules.specs.Rules.{Along, AtEachPlace, Fits, FitsRule, FlatRule, NoneStale, RefusalRule, StaleRule};
ghost use Rattle.sgx_rules.specs.inner.Rules.{KeepsRules};
ghost use Rattle.script_rules.specs.Machines.{machine_of};
ghost use Rattle.driver_rules.specs.Scripts.{IsEnded, Script, ScriptRule};
ghost use Rattle.worked_traces.specs.inner.Traces.{enter_before_init, fill_from_other_frame, first_job, load_by_builder};
ghost use Rattle.worked_traces.specs.inner.Traces.{load_by_other_cpu};
ghost use Rattle.worked_traces.specs.inner.Traces.{no_exit, no_fill, other_cssa, other_value};

pub fn an_enter_before_the_init_breaks_the_table()
    ensures { ¬ Along (RefusalRule (machine_of first_job)) enter_before_init }
{}

pub fn an_enter_before_the_init_is_no_step_of_flat_memory()
    ensures { ¬ Along FlatRule enter_before_init }
{}

pub fn an_enter_before_the_init_names_frames_that_fit()
    ensures { Along (FitsRule 6) enter_before_init }
{}

pub fn another_cssa_answers_unlike_flat_memory()
    ensures { ¬ Along FlatRule other_cssa }
{}

#[tactic(auto, using(crate::proofs::TraceLaws::other_cssa_table))]
pub fn another_cssa_keeps_the_table()
    ensures { Along (RefusalRule (machine_of first_job)) other_cssa }
{}

pub fn another_cssa_keeps_the_script()
    ensures { Script first_job other_cssa }
{}

pub fn a_load_without_a_fill_breaks_the_script()
    ensures { ¬ Along (ScriptRule first_job) no_fill }
{}

pub fn a_load_without_a_fill_has_no_translation()
    ensures { ¬ Along StaleRule no_fill }
{}

pub fn a_load_without_a_fill_breaks_the_table()
    ensures { ¬ Along (RefusalRule (machine_of first_job)) no_fill }
{}

#[tactic(auto, using(crate::proofs::TraceLaws::no_fill_flat))]
pub fn a_load_without_a_fill_answers_as_flat_memory()
    ensures { Along FlatRule no_fill }
{}

pub fn a_fill_from_another_frame_breaks_the_table()
    ensures { ¬ Along (RefusalRule (machine_of first_job)) fill_from_other_frame }
{}

#[tactic(auto, using(crate::proofs::TraceLaws::fill_from_other_frame_not_stale))]
pub fn a_fill_from_another_frame_leaves_a_stale_translation()
    ensures { ¬ AtEachPlace NoneStale fill_from_other_frame }
{}

#[tactic(auto, using(crate::proofs::TraceLaws::fill_from_other_frame_flat))]
pub fn a_fill_from_another_frame_answers_as_flat_memory()
    ensures { Along FlatRule fill_from_other_frame }
{}

pub fn another_value_answers_unlike_flat_memory()
    ensures { ¬ Along FlatRule other_value }
{}

#[tactic(auto, using(crate::proofs::TraceLaws::other_value_table))]
pub fn another_value_keeps_the_table()
    ensures { Along (RefusalRule (machine_of first_job)) other_value }
{}

pub fn another_value_keeps_the_script()
    ensures { Script first_job other_value }
{}

pub fn a_load_by_another_processor_breaks_the_script()
    ensures { ¬ Along (ScriptRule first_job) load_by_other_cpu }
{}

pub fn a_load_by_another_processor_breaks_the_table()
    ensures { ¬ Along (RefusalRule (machine_of first_job)) load_by_other_cpu }
{}

#[tactic(auto, using(crate::proofs::TraceLaws::first_trace_pages))]
pub fn a_load_by_another_processor_fits()
    ensures { Fits 6 load_by_other_cpu }
{}

pub fn a_load_by_the_builder_is_no_step_of_flat_memory()
    ensures { ¬ Along FlatRule load_by_builder }
{}

pub fn a_load_by_the_builder_breaks_the_table()
    ensures { ¬ Along (RefusalRule (machine_of first_job)) load_by_builder }
{}

pub fn a_run_without_an_exit_is_not_ended()
    ensures { ¬ IsEnded first_job no_exit }
{}

pub fn a_run_without_an_exit_keeps_the_script()
    ensures { Along (ScriptRule first_job) no_exit }
{}

#[tactic(auto, using(crate::proofs::TraceLaws::first_trace_laws), unfolding(sgx_types::specs::Counts::least_below))]
pub fn a_run_without_an_exit_keeps_the_rules()
    ensures { KeepsRules (machine_of first_job) no_exit }
{}
