//! Entries of the reclaimer that break the rule Age, and no rule before it. The reference program names Age at most of them; the others are
//! written by hand.

ghost use Rattle.std.specs.Prelude.{◌≡◌, true, Some};
ghost use Rattle.sgx_types.specs.declared.names.Actor.TheVariants.{Reclaimer};
ghost use Rattle.sgx_rules.specs.declared.entries.Look.TheVariants as looks;
ghost use Rattle.history_rules.specs.declared.rules.Rule.TheVariants as rules;
ghost use Rattle.history_rules.specs.Histories.{FailsHere};
ghost use Rattle.worked_driver.specs.inner.BusTrace.{bus_job, bus_trace};
ghost use Rattle.worked_driver.specs.inner.KickTrace.{kick_job, kick_trace};
ghost use Rattle.worked_driver.specs.inner.MeasuredTrace.{measured_job, measured_trace};
ghost use Rattle.worked_driver.specs.inner.PairTrace.{pair_job, pair_trace};
ghost use Rattle.worked_driver.specs.inner.Faults.{breaks_first, first_of};
ghost use Rattle.worked_driver.specs.inner.Words.{add_reg, age, block, block_refused, create, kick, measured_init, track};
ghost use Rattle.worked_traces.specs.inner.Traces.{epa};
ghost use Rattle.worked_driver.specs.inner.Words.{try_refused};

pub fn a_look_names_the_head()
    ensures held { breaks_first rules.Age kick_job (first_of 69 kick_trace) (age 1 looks.Held) ≡ true }
    ensures taken { breaks_first rules.Age measured_job (first_of 37 measured_trace) (age 4 looks.Taken) ≡ true }
    ensures beyond { breaks_first rules.Age bus_job (first_of 45 bus_trace) (age 6 looks.Taken) ≡ true }
{}

pub fn a_look_tells_what_is_so()
    ensures held_young { breaks_first rules.Age kick_job (first_of 69 kick_trace) (age 0 looks.Young) ≡ true }
    ensures held_noroom { breaks_first rules.Age kick_job (first_of 69 kick_trace) (age 0 looks.NoRoom) ≡ true }
    ensures held_taken { breaks_first rules.Age kick_job (first_of 69 kick_trace) (age 0 looks.Taken) ≡ true }
    ensures young_held { breaks_first rules.Age kick_job (first_of 68 kick_trace) (age 2 looks.Held) ≡ true }
    ensures young_noroom { breaks_first rules.Age kick_job (first_of 68 kick_trace) (age 2 looks.NoRoom) ≡ true }
    ensures young_taken { breaks_first rules.Age kick_job (first_of 68 kick_trace) (age 2 looks.Taken) ≡ true }
    ensures unused_held { breaks_first rules.Age kick_job (first_of 8 kick_trace) (age 1 looks.Held) ≡ true }
    ensures unused_young { breaks_first rules.Age kick_job (first_of 8 kick_trace) (age 1 looks.Young) ≡ true }
{}

/// Enough frames are free.
pub fn a_pass_is_begun_by_who_works()
    ensures works { breaks_first rules.Age kick_job (first_of 3 kick_trace) (age 0 looks.Taken) ≡ true }
    ensures measured { breaks_first rules.Age measured_job (first_of 3 measured_trace) (age 0 looks.Taken) ≡ true }
{}

pub fn a_pass_has_its_looks()
    ensures more { breaks_first rules.Age kick_job (first_of 9 kick_trace) (age 2 looks.Taken) ≡ true }
    ensures again { breaks_first rules.Age kick_job (first_of 88 kick_trace) (age 4 looks.Young) ≡ true }
    ensures fewer { breaks_first rules.Age kick_job (first_of 8 kick_trace) (block Reclaimer 2) ≡ true }
{}

pub fn the_taken_pages_are_blocked_in_order()
    ensures order { breaks_first rules.Age pair_job (first_of 54 pair_trace) (block Reclaimer 2) ≡ true }
    ensures twice { breaks_first rules.Age kick_job (first_of 11 kick_trace) (block_refused Reclaimer 2) ≡ true }
    ensures none { breaks_first rules.Age bus_job (first_of 14 bus_trace) (block Reclaimer 3) ≡ true }
{}

pub fn the_taken_pages_are_tried_in_order()
    ensures look { breaks_first rules.Age pair_job (first_of 106 pair_trace) (age 0 looks.Held) ≡ true }
    ensures order { breaks_first rules.Age kick_job (first_of 11 kick_trace) (try_refused Reclaimer 3 0 1 0) ≡ true }
    ensures block { breaks_first rules.Age pair_job (first_of 79 pair_trace) (block Reclaimer 3) ≡ true }
{}

pub fn outside_the_tries_is_no_track_and_no_kick()
    ensures track { breaks_first rules.Age bus_job (first_of 7 bus_trace) (track Reclaimer) ≡ true }
    ensures kick { breaks_first rules.Age kick_job (first_of 7 kick_trace) (kick 0) ≡ true }
    ensures start { breaks_first rules.Age kick_job (first_of 10 kick_trace) (try_refused Reclaimer 2 0 1 0) ≡ true }
{}

pub fn the_reclaimer_builds_nothing()
    ensures add { breaks_first rules.Age kick_job (first_of 28 kick_trace) (add_reg Reclaimer 6 3 7) ≡ true }
    ensures create { breaks_first rules.Age bus_job (first_of 1 bus_trace) (create Reclaimer 1) ≡ true }
    ensures epa { breaks_first rules.Age measured_job (first_of 0 measured_trace) (epa Reclaimer 0) ≡ true }
{}

/// The digest is the one of the enclave's log, so that Measure holds too.
pub fn the_reclaimer_initialises_nothing()
    ensures { FailsHere measured_job (first_of 33 measured_trace) (Some (measured_init Reclaimer (first_of 33 measured_trace))) rules.Age }
{}
