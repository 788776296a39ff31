//! A page goes out and comes back: the rules that the trace keeps, and those that traces which are wrong in one place of it break.

ghost use Rattle.std.specs.Prelude.{◌≡◌, ◌∷◌};
ghost use Rattle.sgx_rules.specs.Frames.{IsLoading, Free, content};
ghost use Rattle.sgx_rules.specs.Fresh.{FreshRule};
ghost use Rattle.sgx_rules.specs.Rules.{Along, EvictRule, FitsRule, FlatRule, RefusalRule};
ghost use Rattle.script_rules.specs.Machines.{machine_of};
ghost use Rattle.worked_traces.specs.inner.Evictions.{came_back, enter_by_reclaimer, gone_out, no_track, other_page_in};
ghost use Rattle.worked_traces.specs.inner.Evictions.{other_version_in};
ghost use Rattle.worked_traces.specs.inner.Evictions.{other_version_out, second_start, sevens, start_in};
ghost use Rattle.worked_traces.specs.inner.Traces.{first_job};

#[tactic(auto, using(crate::proofs::EvictionLaws::came_back_table))]
pub fn a_page_that_came_back_keeps_the_table()
    ensures { Along (RefusalRule (machine_of first_job)) came_back }
{}

#[tactic(auto, using(crate::proofs::EvictionLaws::came_back_drained))]
pub fn a_page_that_came_back_was_drained()
    ensures { Along EvictRule came_back }
{}

pub fn a_page_that_came_back_is_the_last_version()
    ensures { Along (FreshRule 1) came_back }
{}

pub fn a_page_that_came_back_fits()
    ensures { Along (FitsRule 6) came_back }
{}

pub fn a_frame_waits_for_the_page_of_its_load()
    ensures waits { content (start_in 1 ∷ gone_out) 5 ≡ IsLoading sevens }
    ensures free { content gone_out 5 ≡ Free }
{}

pub fn no_track_breaks_the_table()
    ensures { ¬ Along (RefusalRule (machine_of first_job)) no_track }
{}

pub fn no_track_is_not_drained()
    ensures { ¬ Along EvictRule no_track }
{}

pub fn another_version_out_is_of_no_start()
    ensures { ¬ Along EvictRule other_version_out }
{}

pub fn another_version_in_breaks_the_table()
    ensures { ¬ Along (RefusalRule (machine_of first_job)) other_version_in }
{}

pub fn another_page_in_breaks_the_table()
    ensures { ¬ Along (RefusalRule (machine_of first_job)) other_page_in }
{}

#[tactic(auto, unfolding(sgx_types::specs::Counts::any_below))]
pub fn a_second_start_from_a_slot_breaks_the_table()
    ensures { ¬ Along (RefusalRule (machine_of first_job)) second_start }
{}

#[tactic(auto, using(crate::proofs::EvictionLaws::enter_by_reclaimer_table))]
pub fn an_enter_by_the_reclaimer_keeps_the_table()
    ensures { Along (RefusalRule (machine_of first_job)) enter_by_reclaimer }
{}

pub fn an_enter_by_the_reclaimer_is_no_step_of_flat_memory()
    ensures { ¬ Along FlatRule enter_by_reclaimer }
{}
