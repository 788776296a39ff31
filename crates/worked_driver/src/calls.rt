//! The store's calls of some runs are those of which their traces tell, and with one call dropped or another answer they are not.

ghost use Rattle.std.specs.Prelude.{◌∷◌, drop, true};
ghost use Rattle.sgx_types.specs.Pages.{page_at};
ghost use Rattle.backing_store.specs.Calls.{Room};
ghost use Rattle.history_rules.specs.Calls.{CallsAre};
ghost use Rattle.worked_driver.specs.inner.BusTrace.{bus_trace};
ghost use Rattle.worked_driver.specs.inner.LostTrace.{lost_trace};
ghost use Rattle.worked_driver.specs.inner.ReloadTrace.{reload_trace};
ghost use Rattle.worked_driver.specs.inner.RoomTrace.{room_trace};
ghost use Rattle.worked_driver.specs.inner.StoreCalls.{bus_calls, lost_calls, reload_calls, room_calls};

pub fn the_bus_trace_tells_of_its_calls()
    ensures { CallsAre bus_trace bus_calls }
{}

pub fn the_lost_trace_tells_of_its_calls()
    ensures { CallsAre lost_trace lost_calls }
{}

pub fn the_room_trace_tells_of_its_calls()
    ensures { CallsAre room_trace room_calls }
{}

pub fn the_reload_trace_tells_of_its_calls()
    ensures { CallsAre reload_trace reload_calls }
{}

pub fn other_calls_are_not_the_traces()
    ensures fewer { ¬ CallsAre bus_trace (drop 1 bus_calls) }
    ensures more { ¬ CallsAre bus_trace (Room (page_at 1 2) true ∷ bus_calls) }
    ensures other { ¬ CallsAre bus_trace lost_calls }
{}
