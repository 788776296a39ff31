//! Entries that break the rule Script, and ends at which something is missing.

ghost use Rattle.std.specs.Prelude.{◌≡◌, [], true, false};
ghost use Rattle.sgx_types.specs.declared.names.Actor.TheVariants.{Builder, Reclaimer};
ghost use Rattle.sgx_rules.specs.declared.entries.BusWhy.TheVariants as reasons;
ghost use Rattle.sgx_rules.specs.declared.entries.Cause.TheVariants as causes;
ghost use Rattle.driver_rules.specs.inner.Decided.{is_ended, keeps_script};
ghost use Rattle.history_rules.specs.declared.rules.Rule.TheVariants as rules;
ghost use Rattle.worked_driver.specs.inner.BusTrace.{bus_job, bus_trace};
ghost use Rattle.worked_driver.specs.inner.KickTrace.{kick_job, kick_trace};
ghost use Rattle.worked_driver.specs.inner.MeasuredTrace.{measured_job, measured_trace};
ghost use Rattle.worked_driver.specs.inner.PairTrace.{pair_job, pair_trace};
ghost use Rattle.worked_driver.specs.inner.SpentTrace.{spent_job, spent_trace};
ghost use Rattle.worked_driver.specs.inner.Faults.{breaks_first, first_of};
ghost use Rattle.worked_driver.specs.inner.Words.{add_reg, add_tcs, aex, back, block, bus, enter, exit, extend, fill};
ghost use Rattle.worked_traces.specs.inner.Traces.{cpu, epa};
ghost use Rattle.worked_driver.specs.inner.Words.{init, load, out};
ghost use Rattle.worked_driver.specs.inner.Words.{resume, set, start_back, track, try_refused, xadd};

pub fn the_builder_takes_its_steps_in_order()
    ensures frame { breaks_first rules.Script kick_job (first_of 28 kick_trace) (add_reg Builder 6 4095 7) ≡ true }
    ensures order { breaks_first rules.Script kick_job (first_of 28 kick_trace) (init Builder) ≡ true }
    ensures twice { breaks_first rules.Script pair_job (first_of 4 pair_trace) (add_tcs Builder 1 3 3) ≡ true }
    ensures more { breaks_first rules.Script kick_job (first_of 131 kick_trace) (epa Builder 0) ≡ true }
    ensures chunk { breaks_first rules.Script measured_job (first_of 13 measured_trace) (extend Builder 4 9) ≡ true }
    ensures other { breaks_first rules.Script kick_job (first_of 128 kick_trace) (load Builder 0x2000 7) ≡ true }
{}

pub fn a_processor_does_what_is_due()
    ensures tcs_frame { breaks_first rules.Script kick_job (first_of 35 kick_trace) (enter (cpu 0) 0 5 5 0) ≡ true }
    ensures save_frame { breaks_first rules.Script kick_job (first_of 35 kick_trace) (enter (cpu 0) 0 4 6 0) ≡ true }
    ensures resumes_by { breaks_first rules.Script pair_job (first_of 63 pair_trace) (resume (cpu 0) 0 5 5 0) ≡ true }
    ensures fill_frame { breaks_first rules.Script kick_job (first_of 99 kick_trace) (fill (cpu 0) 5 7) ≡ true }
    ensures operand { breaks_first rules.Script pair_job (first_of 106 pair_trace) (xadd (cpu 1) 0x4000 2 2) ≡ true }
    ensures twice { breaks_first rules.Script kick_job (first_of 61 kick_trace) (load (cpu 0) 0x3000 7) ≡ true }
    ensures no_kick { breaks_first rules.Script kick_job (first_of 53 kick_trace) (aex (cpu 0) causes.Kick) ≡ true }
    ensures more { breaks_first rules.Script kick_job (first_of 131 kick_trace) (set (cpu 0) 1) ≡ true }
    ensures other { breaks_first rules.Script kick_job (first_of 61 kick_trace) (aex (cpu 1) causes.Fault) ≡ true }
    ensures unknown { breaks_first rules.Script kick_job (first_of 128 kick_trace) (load (cpu 15) 0x2000 7) ≡ true }
{}

pub fn a_load_is_the_one_that_is_due()
    ensures frame { breaks_first rules.Script kick_job (first_of 84 kick_trace) (start_back (cpu 0) 7 5 1 6) ≡ true }
    ensures page { breaks_first rules.Script kick_job (first_of 84 kick_trace) (start_back (cpu 0) 6 6 1 6) ≡ true }
    ensures slot { breaks_first rules.Script kick_job (first_of 84 kick_trace) (start_back (cpu 0) 6 5 2 6) ≡ true }
    ensures end_frame { breaks_first rules.Script kick_job (first_of 66 kick_trace) (back (cpu 0) 4 4 5) ≡ true }
    ensures twice { breaks_first rules.Script kick_job (first_of 67 kick_trace) (back (cpu 0) 3 4 5) ≡ true }
    ensures start_twice { breaks_first rules.Script pair_job (first_of 114 pair_trace) (start_back (cpu 1) 3 7 3 8) ≡ true }
{}

pub fn a_bus_tells_what_was()
    ensures mac { breaks_first rules.Script kick_job (first_of 84 kick_trace) (bus 0 5 reasons.Mac) ≡ true }
    ensures why { breaks_first rules.Script bus_job (first_of 55 bus_trace) (bus 0 2 reasons.PutFailed) ≡ true }
    ensures page { breaks_first rules.Script bus_job (first_of 55 bus_trace) (bus 0 3 reasons.Mac) ≡ true }
    ensures early { breaks_first rules.Script bus_job (first_of 42 bus_trace) (bus 0 2 reasons.Mac) ≡ true }
{}

/// Written by hand: page 2 is outside and no frame is free, so nothing is asked of the store; it may have been lost before.
pub fn without_a_frame_nothing_is_fetched()
    ensures start { breaks_first rules.Script kick_job (first_of 37 kick_trace) (start_back (cpu 0) 6 2 2 3) ≡ true }
    ensures get { breaks_first rules.Script kick_job (first_of 37 kick_trace) (bus 0 2 reasons.GetFailed) ≡ true }
    ensures none { breaks_first rules.Script kick_job (first_of 37 kick_trace) (bus 0 2 reasons.NoRecord) ≡ true }
    ensures lost { keeps_script kick_job (first_of 37 kick_trace) (bus 0 2 reasons.PutFailed) ≡ true }
    ensures other { breaks_first rules.Script kick_job (first_of 37 kick_trace) (bus 0 1 reasons.PutFailed) ≡ true }
{}

pub fn nothing_follows_a_bus()
    ensures again { breaks_first rules.Script bus_job (first_of 56 bus_trace) (bus 0 2 reasons.Mac) ≡ true }
    ensures script { breaks_first rules.Script bus_job (first_of 56 bus_trace) (set (cpu 0) 1) ≡ true }
{}

pub fn nothing_follows_the_last_epoch()
    ensures track { breaks_first rules.Script spent_job (first_of 13 spent_trace) (track Reclaimer) ≡ true }
    ensures build { breaks_first rules.Script spent_job (first_of 13 spent_trace) (add_reg Builder 5 2 7) ≡ true }
{}

pub fn each_kind_of_entry_has_its_actor()
    ensures write_out { breaks_first rules.Script kick_job (first_of 50 kick_trace) (out (cpu 0) 2 5 6) ≡ true }
    ensures start { breaks_first rules.Script bus_job (first_of 31 bus_trace) (try_refused (cpu 0) 5 3 4 0) ≡ true }
    ensures block { breaks_first rules.Script measured_job (first_of 24 measured_trace) (block (cpu 1) 2) ≡ true }
    ensures track { breaks_first rules.Script pair_job (first_of 57 pair_trace) (track Builder) ≡ true }
    ensures load { breaks_first rules.Script kick_job (first_of 84 kick_trace) (start_back Reclaimer 6 5 1 6) ≡ true }
    ensures load_end { breaks_first rules.Script kick_job (first_of 66 kick_trace) (back Reclaimer 6 4 5) ≡ true }
    ensures add { breaks_first rules.Script bus_job (first_of 4 bus_trace) (add_reg (cpu 2) 2 4 7) ≡ true }
{}

/// Without the last exit, without the bus behind a refused load, and before the first entry.
pub fn something_is_missing_at_the_end()
    ensures exit { is_ended kick_job (first_of 130 kick_trace) ≡ false }
    ensures bus { is_ended bus_job (first_of 55 bus_trace) ≡ false }
    ensures all { is_ended kick_job [] ≡ false }
    ensures build { is_ended spent_job (first_of 12 spent_trace) ≡ false }
{}
