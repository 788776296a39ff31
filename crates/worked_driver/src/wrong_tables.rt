//! Entries that are done where the table refuses them, and an end of a write-out that was not started: they break the rule Refusal, and
//! Script holds at each. But for the track at the last epoch they are written by hand.

ghost use Rattle.std.specs.Prelude.{◌≡◌, true};
ghost use Rattle.sgx_types.specs.declared.names.Actor.TheVariants.{Reclaimer};
ghost use Rattle.history_rules.specs.declared.rules.Rule.TheVariants as rules;
ghost use Rattle.worked_driver.specs.inner.CrowdTrace.{crowd_job, crowd_trace};
ghost use Rattle.worked_driver.specs.inner.KickTrace.{kick_job, kick_trace};
ghost use Rattle.worked_driver.specs.inner.SpentTrace.{spent_job, spent_trace};
ghost use Rattle.worked_driver.specs.inner.Faults.{breaks_first, first_of};
ghost use Rattle.worked_driver.specs.inner.Words.{block, other_track_done, out, start_out, track};

pub fn a_start_in_place_of_its_refusal_breaks_the_table()
    ensures first { breaks_first rules.Refusal kick_job (first_of 11 kick_trace) (start_out Reclaimer 2 0 1) ≡ true }
    ensures no_track { breaks_first rules.Refusal kick_job (first_of 12 kick_trace) (start_out Reclaimer 2 0 1) ≡ true }
    ensures no_kick { breaks_first rules.Refusal kick_job (first_of 114 kick_trace) (start_out Reclaimer 3 2 10) ≡ true }
    ensures one_kick { breaks_first rules.Refusal crowd_job (first_of 20 crowd_trace) (start_out Reclaimer 6 0 1) ≡ true }
    ensures twice { breaks_first rules.Refusal kick_job (first_of 14 kick_trace) (start_out Reclaimer 2 1 2) ≡ true }
{}

pub fn a_track_in_place_of_its_refusal_breaks_the_table()
    ensures older { breaks_first rules.Refusal kick_job (first_of 114 kick_trace) (track Reclaimer) ≡ true }
    ensures kicked { breaks_first rules.Refusal kick_job (first_of 115 kick_trace) (track Reclaimer) ≡ true }
    ensures spent { breaks_first rules.Refusal spent_job (first_of 12 spent_trace) (track Reclaimer) ≡ true }
    ensures other { breaks_first rules.Refusal kick_job (first_of 12 kick_trace) (other_track_done Reclaimer) ≡ true }
{}

pub fn a_page_is_blocked_once()
    ensures { breaks_first rules.Refusal kick_job (first_of 11 kick_trace) (block Reclaimer 2) ≡ true }
{}

pub fn a_write_out_ends_a_start()
    ensures { breaks_first rules.Refusal kick_job (first_of 9 kick_trace) (out Reclaimer 2 0 1) ≡ true }
{}
