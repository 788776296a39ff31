//! Laws of pictures. Each is the contract of a function without arguments, and so holds for every list of entries.

ghost use Rattle.std.specs.Prelude.{◌≡◌, List, [], Some};
ghost use Rattle.sgx_rules.specs.declared.entries.Entry.{Entry};
ghost use Rattle.sgx_types.specs.declared.names.Page.{Page};
ghost use Rattle.picture_text.specs.declared.events.Counter.{Counter};
ghost use Rattle.picture_text.specs.declared.events.Lane.{Lane};
ghost use Rattle.picture_text.specs.Events.{counts_of, events_of};
ghost use Rattle.picture_text.specs.Open.{open_on};
ghost use Rattle.picture_text.specs.Reading.{count_in, read_events, read_value, stack_of, begun_on, begun_by_moves, NeverFall};

/// What is read back from a lane is what is so there: on a frame's lane what sits in the frame, that it is blocked, that it is on its way
/// out; on a page's lane where the page is; on a processor's lane how it is inside. So it is behind every entry, since a picture of fewer
/// entries is the front of that of more. Each end has its beginning.
#[tactic(auto, using(crate::proofs::ReadLaws::read_back))]
pub fn a_lane_is_read_back()
    ensures { (past : List Entry) (lane : Lane) → read_events lane (events_of past) (Some []) ≡ Some (stack_of (open_on past lane)) }
{}

/// The spans on a page's lane are its moves: one begins at the place of each move, but for a move to nowhere, and no other does.
#[tactic(auto, using(crate::proofs::MoveLaws::spans_are_moves))]
pub fn spans_of_a_page_are_its_moves()
    ensures { (past : List Entry) (g : Page) → begun_on (Lane.Page g) (events_of past) ≡ begun_by_moves past g }
{}

/// The value of a counter that is told last is what is counted: the frames that have a page or await one, the pages that are outside, and
/// the version that was drawn last.
#[tactic(auto, using(crate::proofs::ValueLaws::value_back))]
pub fn a_counter_is_read_back()
    ensures { (past : List Entry) (counter : Counter) → read_value counter (events_of past) 0 ≡ count_in counter (counts_of past) }
{}

/// No event stands before one of an earlier time.
#[tactic(auto, using(crate::proofs::TimeLaws::never_fall))]
pub fn times_never_fall()
    ensures { (past : List Entry) → NeverFall 0 (events_of past) }
{}
