//! A version array page goes out and comes back.

ghost use Rattle.worked_away.specs.ArraysAway.{array_kept_out, goes_in_use, other_array, other_number, slot_on_its_way};
ghost use Rattle.worked_away.specs.Machine.{making};
ghost use Rattle.sgx_rules.specs.Fresh.{FreshRule};
ghost use Rattle.sgx_rules.specs.Rules.{Along, EvictRule, FitsRule, RefusalRule};

#[tactic(auto, using(crate::proofs::ArrayLaws::array_kept_out_table))]
pub fn an_array_that_came_back_keeps_the_table()
    ensures { Along (RefusalRule making) array_kept_out }
{}

#[tactic(auto, using(crate::proofs::ArrayLaws::array_kept_out_drained))]
pub fn an_array_that_came_back_was_one_start()
    ensures { Along EvictRule array_kept_out }
{}

pub fn an_array_comes_back_under_its_last_version()
    ensures { Along (FreshRule 1) array_kept_out }
{}

pub fn an_array_that_came_back_fits()
    ensures { Along (FitsRule 8) array_kept_out }
{}

pub fn another_number_breaks_the_table()
    ensures { ¬ Along (RefusalRule making) other_number }
{}

#[tactic(auto, unfolding(sgx_types::specs::Counts::any_below))]
pub fn an_array_in_use_breaks_the_table()
    ensures { ¬ Along (RefusalRule making) goes_in_use }
{}

#[tactic(auto, unfolding(sgx_types::specs::Counts::any_below))]
pub fn a_slot_of_an_array_on_its_way_breaks_the_table()
    ensures { ¬ Along (RefusalRule making) slot_on_its_way }
{}

pub fn a_slot_of_another_array_breaks_the_table()
    ensures { ¬ Along (RefusalRule making) other_array }
{}
