//! How many bytes of room a line and its parts need at most, in memory that was taken before.

/// A line of a trace with its line feed. Where a text has so many bytes of room, its printer asks for no memory.
pub const LONGEST_LINE: usize = 1024;

/// A line without its line feed.
pub const SPELLING_ROOM: usize = 1000;

/// What stands behind the actor.
pub const EVENT_ROOM: usize = 900;

/// An instruction with its operands.
pub const ACTION_ROOM: usize = 400;

/// An answer, or a refusal with its numbers.
pub const ANSWER_ROOM: usize = 300;

/// The actor.
pub const ACTOR_ROOM: usize = 100;

/// The name of a case.
pub const LONGEST_NAME: usize = 16;
