//! The names of counters.

ghost use Rattle.std.specs.Prelude.{◌≡◌, ◌≤◌, length};
ghost use Rattle.picture_text.specs.PictureText.{counter_name};

use crate::events::Counter;

/// The name of a counter.
pub(crate) fn counter_name(counter: Counter) -> &'static str
    ensures name { counter_name counter ≡ result.now }
    ensures short { length result.now ≤ 16 }
{
    match counter {
        Counter::Frames => "frames in use",
        Counter::Pages => "pages outside",
        Counter::Version => "version",
    }
}
