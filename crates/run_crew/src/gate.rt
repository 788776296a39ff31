//! Who is told of each turn.

use sgx_types::names::Actor;

/// Is told of each turn of a worker. Both calls are made outside the lock.
pub trait Gate: Drop {
    /// Before a turn of an actor.
    fn before_turn(&self, who: Actor);

    /// Behind that turn, and behind the end of the start that it made, where it made one.
    fn after_turn(&self, who: Actor);
}

/// A gate that does nothing.
#[derive(Drop)]
pub struct OpenGate;

impl Gate for OpenGate {
    fn before_turn(&self, _who: Actor) {}

    fn after_turn(&self, _who: Actor) {}
}
