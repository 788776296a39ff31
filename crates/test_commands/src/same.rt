//! What a call told, beside what it has to tell.

use std::fmt::Debug;
use std::process::Abort;

/// Holds both to be equal. A body with many of these calls is proved in a fraction of the time that as many `assert_eq!` take.
pub fn are_same<T: PartialEq + Debug + Drop>(rt: &impl Abort, told: T, want: T) {
    assert_eq!(rt; told, want);
}
