//! How far the reclaimer is.

use sgx_types::names::{Frame, Page};

/// A page that was taken, and the frame that it leaves.
#[derive(Clone, Copy)]
pub struct Taken {
    pub page: Page,
    pub frame: Frame,
}

/// How far a pass is with one page: before its first try, before the track, before the second try; behind that, which told its
/// enclave's epoch; within the kicks, the next of them by its place; behind them; behind the start.
#[derive(Clone, Copy)]
pub enum Form {
    First,
    Track,
    Second,
    /// A turn of kicks that finds nobody to kick makes no entry. So it is noted here whether that turn was made.
    Kick { epoch: u64, is_made: bool },
    Kicks { epoch: u64, next: usize },
    Third { epoch: u64 },
    Sealing,
}

/// How far a pass is: between two passes; looking, with so many looks left; blocking the pages from one on; writing out one.
#[derive(Clone, Copy)]
pub enum Stage {
    Idle { works: bool },
    Scan { left: u32 },
    Block { next: usize },
    Tries { next: usize, form: Form },
}

/// A SECS or version array page that goes out beside the passes.
#[derive(Clone, Copy)]
pub enum Aside {
    /// None does.
    None,
    /// It was taken, and goes out next.
    ToGo(Taken),
    /// Its write-out has started.
    Going(Taken),
}

/// The reclaimer's last entry, as far as it tells which SECS or version array page is due.
#[derive(Clone, Copy)]
pub enum Behind {
    /// This page has gone out.
    Out(Page),
    /// The store had no room for a SECS.
    NoRoom,
    /// Any other, or none.
    Nothing,
}
