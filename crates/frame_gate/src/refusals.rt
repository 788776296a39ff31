//! Why a call of a gate is refused. A refusal by a word that the call loaded has that word.

/// The seat has entered 2^27 times.
#[derive(Clone, Copy, Debug, PartialEq, Eq)]
pub struct EntriesSpent {
    pub entries: u64,
}

/// The frame's word, which was loaded, is free or blocked.
#[derive(Clone, Copy, Debug, PartialEq, Eq)]
pub struct NotHeld {
    pub word: u64,
}

/// A processor may be inside that entered in the epoch before: that epoch's leave word, which was loaded, is not the number
/// of its entries.
#[derive(Clone, Copy, Debug, PartialEq, Eq)]
pub struct Older {
    pub word: u64,
}

/// The frame, whose word this is, has its last generation.
#[derive(Clone, Copy, Debug, PartialEq, Eq)]
pub struct GenerationSpent {
    pub word: u64,
}

/// Why no new epoch begins.
#[derive(Clone, Copy, Debug, PartialEq, Eq)]
pub enum TrackRefusal {
    /// As `Older` of `settle`.
    Older { word: u64 },
    /// This is the last epoch.
    EpochSpent { epoch: u64 },
}

/// Why a blocked frame is not freed.
#[derive(Clone, Copy, Debug, PartialEq, Eq)]
pub enum EvictRefusal {
    /// No track came since the block, at this epoch.
    NoTrack { epoch: u64 },
    /// As `Older` of `settle`.
    Older { word: u64 },
}
