//! Entries that break the rule Kick, and no rule before it. The reference program names Kick at half of them; the others are written by
//! hand.

ghost use Rattle.std.specs.Prelude.{◌≡◌, true};
ghost use Rattle.sgx_types.specs.declared.names.Actor.TheVariants.{Reclaimer};
ghost use Rattle.sgx_rules.specs.declared.entries.Cause.TheVariants as causes;
ghost use Rattle.history_rules.specs.declared.rules.Rule.TheVariants as rules;
ghost use Rattle.worked_driver.specs.inner.BusTrace.{bus_job, bus_trace};
ghost use Rattle.worked_driver.specs.inner.CrowdTrace.{crowd_job, crowd_trace};
ghost use Rattle.worked_driver.specs.inner.KickTrace.{kick_job, kick_trace};
ghost use Rattle.worked_driver.specs.inner.PairTrace.{pair_job, pair_trace};
ghost use Rattle.worked_driver.specs.inner.Faults.{breaks_first, first_of};
ghost use Rattle.worked_driver.specs.inner.Words.{aex, busy_out, kick, other_track, track, track_kept, try_refused};
ghost use Rattle.worked_traces.specs.inner.Traces.{cpu};

pub fn a_first_refusal_is_answered_by_a_track()
    ensures again { breaks_first rules.Kick bus_job (first_of 10 bus_trace) (try_refused Reclaimer 2 0 1 0) ≡ true }
    ensures other { breaks_first rules.Kick kick_job (first_of 12 kick_trace) (other_track Reclaimer) ≡ true }
    ensures kick { breaks_first rules.Kick kick_job (first_of 12 kick_trace) (kick 0) ≡ true }
{}

pub fn a_track_is_followed_by_the_second_try()
    ensures track { breaks_first rules.Kick kick_job (first_of 13 kick_trace) (track Reclaimer) ≡ true }
    ensures early { breaks_first rules.Kick bus_job (first_of 31 bus_trace) (track Reclaimer) ≡ true }
{}

pub fn a_second_refusal_is_answered_by_the_kicks()
    ensures other { breaks_first rules.Kick kick_job (first_of 114 kick_trace) (kick 1) ≡ true }
    ensures none { breaks_first rules.Kick kick_job (first_of 114 kick_trace) (try_refused Reclaimer 3 2 8 1) ≡ true }
    ensures track { breaks_first rules.Kick kick_job (first_of 114 kick_trace) (track_kept Reclaimer 1) ≡ true }
    ensures pair { breaks_first rules.Kick pair_job (first_of 107 pair_trace) (kick 2) ≡ true }
{}

pub fn a_processor_is_kicked_once()
    ensures kick { breaks_first rules.Kick kick_job (first_of 115 kick_trace) (kick 0) ≡ true }
    ensures pair { breaks_first rules.Kick pair_job (first_of 108 pair_trace) (kick 1) ≡ true }
{}

/// Both are kicked, rising, with nothing between the two.
pub fn the_kicks_stand_next_to_each_other()
    ensures order { breaks_first rules.Kick crowd_job (first_of 19 crowd_trace) (kick 1) ≡ true }
    ensures one { breaks_first rules.Kick crowd_job (first_of 20 crowd_trace) (try_refused Reclaimer 6 0 2 2) ≡ true }
    ensures between { breaks_first rules.Kick crowd_job (first_of 20 crowd_trace) (aex (cpu 0) causes.Kick) ≡ true }
    ensures twice { breaks_first rules.Kick crowd_job (first_of 20 crowd_trace) (kick 0) ≡ true }
{}

pub fn the_third_try_is_the_last()
    ensures refused { breaks_first rules.Kick pair_job (first_of 108 pair_trace) (try_refused Reclaimer 3 5 7 1) ≡ true }
    ensures track { breaks_first rules.Kick kick_job (first_of 115 kick_trace) (track_kept Reclaimer 1) ≡ true }
{}

pub fn a_started_write_out_ends()
    ensures track { breaks_first rules.Kick kick_job (first_of 14 kick_trace) (track Reclaimer) ≡ true }
    ensures again { breaks_first rules.Kick kick_job (first_of 14 kick_trace) (busy_out Reclaimer 2 1) ≡ true }
{}
