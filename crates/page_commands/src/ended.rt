//! How a command ended, with the store.

ghost use Rattle.std.specs.Prelude.{◌≡◌, None};

use crate::status::Status;
use backing_store::backing::Backing;

/// How a command ended, with the store, where a run was made and came to its end.
#[derive(Drop)]
pub struct Ended<B: Backing> {
    pub status: Status,
    pub store: Option<B>,
}

/// The end of a command that made no run.
pub(crate) fn unrun<B: Backing>(status: Status) -> Ended<B>
    ensures status { result.status ≡ status }
    ensures store { result.store ≡ None }
{
    Ended {
        status,
        store: None,
    }
}
