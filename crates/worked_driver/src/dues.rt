//! What is due to each actor at places of the right traces, read from the rules by hand.

ghost use Rattle.std.specs.Prelude.{◌≡◌, [], ◌∷◌, None, Some, true, false};
ghost use Rattle.sgx_rules.specs.declared.entries.Action.TheVariants as actions;
ghost use Rattle.sgx_rules.specs.declared.entries.BusWhy.TheVariants as reasons;
ghost use Rattle.sgx_rules.specs.declared.entries.Cause.TheVariants as causes;
ghost use Rattle.sgx_types.specs.Pages.{page_at};
ghost use Rattle.sgx_types.specs.Pages.{frame_at};
ghost use Rattle.driver_rules.specs.declared.waits.Why.TheVariants as waits;
ghost use Rattle.driver_rules.specs.Dues.{Asks, Ends, Fetches, Finished, KicksAll, LooksAt, Makes, Reports, Stopped, TriesOut, Waits};
ghost use Rattle.driver_rules.specs.Holds.{is_held};
ghost use Rattle.driver_rules.specs.inner.Reclaims.{reclaimer_due};
ghost use Rattle.driver_rules.specs.Turns.{builder_due, cpu_due};
ghost use Rattle.worked_driver.specs.inner.BusTrace.{bus_job, bus_trace};
ghost use Rattle.worked_driver.specs.inner.CrowdTrace.{crowd_job, crowd_trace};
ghost use Rattle.worked_driver.specs.inner.KickTrace.{kick_job, kick_trace};
ghost use Rattle.worked_driver.specs.inner.MeasuredTrace.{measured_job, measured_trace};
ghost use Rattle.worked_driver.specs.inner.SpentTrace.{spent_job, spent_trace};
ghost use Rattle.worked_driver.specs.inner.Faults.{first_of};
ghost use Rattle.worked_driver.specs.inner.Words.{aex, slot_at};
ghost use Rattle.worked_traces.specs.inner.Traces.{cpu};

pub fn the_builder_waits_for_a_frame()
    ensures makes { builder_due kick_job (first_of 0 kick_trace) ≡ Makes (actions.Epa (frame_at 0)) }
    ensures waits { builder_due kick_job (first_of 7 kick_trace) ≡ Waits waits.NoFrame }
    ensures finished { builder_due kick_job (first_of 31 kick_trace) ≡ Finished }
    ensures stopped { builder_due spent_job (first_of 13 spent_trace) ≡ Stopped }
{}

pub fn a_processor_waits_and_why()
    ensures busy { cpu_due crowd_job (aex (cpu 0) causes.Fault ∷ first_of 15 crowd_trace) 0 ≡ Waits (waits.Busy (page_at 1 4)) }
    ensures building { cpu_due kick_job (first_of 7 kick_trace) 0 ≡ Waits waits.Building }
    ensures fetches { cpu_due kick_job (first_of 30 kick_trace) 0
        ≡ Fetches (page_at 1 0) (Asks (page_at 1 0) (Some (slot_at 0)) (Some 4)) }
    ensures ends { cpu_due kick_job (first_of 31 kick_trace) 0 ≡ Ends (actions.Eld (frame_at 4)) }
    ensures no_frame { cpu_due kick_job (first_of 37 kick_trace) 0 ≡ Fetches (page_at 1 2) (Asks (page_at 1 2) (Some (slot_at 2)) None) }
    ensures enters { cpu_due kick_job (first_of 35 kick_trace) 0 ≡ Makes (actions.Enter 1 0 (frame_at 4) (frame_at 5)) }
    ensures kicked { cpu_due kick_job (first_of 115 kick_trace) 0 ≡ Makes (actions.Aex causes.Kick) }
    ensures reports { cpu_due bus_job (first_of 55 bus_trace) 0 ≡ Reports (page_at 1 2) reasons.Mac }
    ensures bus { cpu_due bus_job (first_of 56 bus_trace) 0 ≡ Finished }
    ensures finished { cpu_due kick_job (first_of 131 kick_trace) 0 ≡ Finished }
    ensures stopped { cpu_due spent_job (first_of 13 spent_trace) 0 ≡ Stopped }
{}

pub fn the_reclaimer_waits_and_why()
    ensures all_held { reclaimer_due
        (record crowd_job { marks = record { low = 8; high = 9; scan = 1 } }) (first_of 2 crowd_trace) false ≡ Waits waits.AllHeld }
    ensures enough { reclaimer_due kick_job (first_of 3 kick_trace) false ≡ Waits (waits.Enough 4) }
    ensures looks { reclaimer_due kick_job (first_of 7 kick_trace) false ≡ LooksAt (page_at 1 0) false false }
    ensures blocks { reclaimer_due kick_job (first_of 9 kick_trace) false ≡ Makes (actions.Block (frame_at 2)) }
    ensures tries { reclaimer_due kick_job (first_of 11 kick_trace) false ≡ TriesOut (page_at 1 0) 2 }
    ensures tracks { reclaimer_due kick_job (first_of 12 kick_trace) false ≡ Makes (actions.Track 1) }
    ensures ends { reclaimer_due kick_job (first_of 14 kick_trace) false ≡ Ends (actions.Ewb (frame_at 2)) }
    ensures kicks { reclaimer_due kick_job (first_of 114 kick_trace) false ≡ KicksAll (0 ∷ []) }
    ensures older { reclaimer_due kick_job (first_of 115 kick_trace) true ≡ Waits (waits.Older 1 1) }
    ensures third { reclaimer_due kick_job (first_of 116 kick_trace) true ≡ TriesOut (page_at 1 4) 3 }
    ensures both { reclaimer_due crowd_job (first_of 19 crowd_trace) false ≡ KicksAll (0 ∷ 1 ∷ []) }
    ensures older_two { reclaimer_due crowd_job (first_of 21 crowd_trace) true ≡ Waits (waits.Older 1 2) }
    ensures finished { reclaimer_due kick_job (first_of 131 kick_trace) false ≡ Finished }
    ensures stopped { reclaimer_due spent_job (first_of 13 spent_trace) false ≡ Stopped }
{}

/// A page is held from the entry that needs it to its processor's next reply; one that is measured from its `add` to its last `extend`.
pub fn pages_are_held()
    ensures not_yet { is_held measured_job (first_of 4 measured_trace) (page_at 1 2) ≡ false }
    ensures added { is_held measured_job (first_of 5 measured_trace) (page_at 1 2) ≡ true }
    ensures measured { is_held measured_job (first_of 20 measured_trace) (page_at 1 2) ≡ true }
    ensures done { is_held measured_job (first_of 21 measured_trace) (page_at 1 2) ≡ false }
    ensures target { is_held kick_job (first_of 33 kick_trace) (page_at 1 1) ≡ true }
    ensures before { is_held kick_job (first_of 33 kick_trace) (page_at 1 0) ≡ true }
    ensures later { is_held kick_job (first_of 31 kick_trace) (page_at 1 1) ≡ false }
    ensures replied { is_held kick_job (first_of 36 kick_trace) (page_at 1 0) ≡ false }
    ensures fault { is_held kick_job (first_of 37 kick_trace) (page_at 1 2) ≡ true }
{}
