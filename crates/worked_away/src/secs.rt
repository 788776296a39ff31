//! The SECS of an enclave goes out behind its pages and comes back before them.

ghost use Rattle.worked_away.specs.Machine.{making};
ghost use Rattle.worked_away.specs.SecsAway.{child_comes, comes_without_secs, goes_with_children, other_version};
ghost use Rattle.worked_away.specs.SecsAway.{tracked_on_its_way};
ghost use Rattle.sgx_rules.specs.Fresh.{FreshRule};
ghost use Rattle.sgx_rules.specs.Rules.{Along, EvictRule, FitsRule, RefusalRule};

#[tactic(auto, using(crate::proofs::SecsLaws::child_comes_table))]
pub fn a_secs_that_came_back_keeps_the_table()
    ensures { Along (RefusalRule making) child_comes }
{}

#[tactic(auto, using(crate::proofs::SecsLaws::child_comes_drained))]
pub fn a_secs_goes_behind_its_pages()
    ensures { Along EvictRule child_comes }
{}

pub fn a_secs_comes_back_under_its_last_version()
    ensures { Along (FreshRule 1) child_comes }
{}

pub fn a_secs_that_came_back_fits()
    ensures { Along (FitsRule 8) child_comes }
{}

#[tactic(auto, unfolding(sgx_types::specs::Counts::count_below))]
pub fn a_secs_with_children_breaks_the_table()
    ensures { ¬ Along (RefusalRule making) goes_with_children }
{}

#[tactic(auto, using(crate::proofs::SecsLaws::children_stay))]
pub fn a_secs_with_children_may_not_go()
    ensures { ¬ Along EvictRule goes_with_children }
{}

#[tactic(auto, unfolding(sgx_types::specs::Counts::least_below))]
pub fn a_page_without_its_secs_breaks_the_table()
    ensures { ¬ Along (RefusalRule making) comes_without_secs }
{}

#[tactic(auto, unfolding(sgx_types::specs::Counts::least_below))]
pub fn a_track_of_a_secs_on_its_way_breaks_the_table()
    ensures { ¬ Along (RefusalRule making) tracked_on_its_way }
{}

pub fn a_secs_under_another_version_breaks_the_table()
    ensures { ¬ Along (RefusalRule making) other_version }
{}
