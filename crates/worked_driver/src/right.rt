//! The right traces: Script, Age and Kick hold at each entry, and, of each but that whose SECS leaves, Refusal, Flat, Fits, Stale, Evict
//! and Fresh. At the end of each but that of many processors all is done.

ghost use Rattle.std.specs.Prelude.{◌≡◌, true};
ghost use Rattle.driver_rules.specs.inner.Decided.{is_ended};
ghost use Rattle.worked_driver.specs.inner.BusTrace.{bus_job, bus_trace};
ghost use Rattle.worked_driver.specs.inner.CrowdTrace.{crowd_job, crowd_trace};
ghost use Rattle.worked_driver.specs.inner.KickTrace.{kick_job, kick_trace};
ghost use Rattle.worked_driver.specs.inner.MeasuredTrace.{measured_job, measured_trace};
ghost use Rattle.worked_driver.specs.inner.PairTrace.{pair_job, pair_trace};
ghost use Rattle.worked_driver.specs.inner.LostTrace.{lost_job, lost_trace};
ghost use Rattle.worked_driver.specs.inner.ReloadTrace.{reload_job, reload_trace};
ghost use Rattle.worked_driver.specs.inner.ReplayTrace.{replay_job, replay_trace};
ghost use Rattle.worked_driver.specs.inner.RoomTrace.{room_job, room_trace};
ghost use Rattle.worked_driver.specs.inner.TimerTrace.{timer_job, timer_trace};
ghost use Rattle.worked_driver.specs.inner.SecsTrace.{secs_job, secs_trace};
ghost use Rattle.worked_driver.specs.inner.VersionTrace.{version_job, version_trace};
ghost use Rattle.worked_driver.specs.inner.SpentTrace.{spent_job, spent_trace};
ghost use Rattle.worked_driver.specs.inner.Faults.{keeps_all, keeps_all_six};

pub fn the_kick_trace_is_right()
    ensures entries { keeps_all kick_job kick_trace ≡ true }
    ensures six { keeps_all_six kick_job kick_trace ≡ true }
    ensures end { is_ended kick_job kick_trace ≡ true }
{}

pub fn the_pair_trace_is_right()
    ensures entries { keeps_all pair_job pair_trace ≡ true }
    ensures six { keeps_all_six pair_job pair_trace ≡ true }
    ensures end { is_ended pair_job pair_trace ≡ true }
{}

pub fn the_bus_trace_is_right()
    ensures entries { keeps_all bus_job bus_trace ≡ true }
    ensures six { keeps_all_six bus_job bus_trace ≡ true }
    ensures end { is_ended bus_job bus_trace ≡ true }
{}

pub fn the_measured_trace_is_right()
    ensures entries { keeps_all measured_job measured_trace ≡ true }
    ensures six { keeps_all_six measured_job measured_trace ≡ true }
    ensures end { is_ended measured_job measured_trace ≡ true }
{}

pub fn the_spent_trace_is_right()
    ensures entries { keeps_all spent_job spent_trace ≡ true }
    ensures six { keeps_all_six spent_job spent_trace ≡ true }
    ensures end { is_ended spent_job spent_trace ≡ true }
{}

pub fn the_lost_trace_is_right()
    ensures entries { keeps_all lost_job lost_trace ≡ true }
    ensures six { keeps_all_six lost_job lost_trace ≡ true }
    ensures end { is_ended lost_job lost_trace ≡ true }
{}

pub fn the_reload_trace_is_right()
    ensures entries { keeps_all reload_job reload_trace ≡ true }
    ensures six { keeps_all_six reload_job reload_trace ≡ true }
    ensures end { is_ended reload_job reload_trace ≡ true }
{}

pub fn the_replay_trace_is_right()
    ensures entries { keeps_all replay_job replay_trace ≡ true }
    ensures six { keeps_all_six replay_job replay_trace ≡ true }
    ensures end { is_ended replay_job replay_trace ≡ true }
{}

pub fn the_room_trace_is_right()
    ensures entries { keeps_all room_job room_trace ≡ true }
    ensures six { keeps_all_six room_job room_trace ≡ true }
    ensures end { is_ended room_job room_trace ≡ true }
{}

pub fn the_timer_trace_is_right()
    ensures entries { keeps_all timer_job timer_trace ≡ true }
    ensures six { keeps_all_six timer_job timer_trace ≡ true }
    ensures end { is_ended timer_job timer_trace ≡ true }
{}

pub fn the_version_trace_is_right()
    ensures entries { keeps_all version_job version_trace ≡ true }
    ensures six { keeps_all_six version_job version_trace ≡ true }
    ensures end { is_ended version_job version_trace ≡ true }
{}

pub fn the_secs_trace_is_right()
    ensures entries { keeps_all secs_job secs_trace ≡ true }
    ensures end { is_ended secs_job secs_trace ≡ true }
{}

pub fn the_crowd_trace_is_right()
    ensures entries { keeps_all crowd_job crowd_trace ≡ true }
    ensures six { keeps_all_six crowd_job crowd_trace ≡ true }
{}
