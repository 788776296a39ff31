//! Frames, processors, those who act, pages, permissions and slots by their names.

use std::alloc::{AllocError, AllocFailed};

/// A frame of the EPC, 4096 bytes, by its number from 0.
#[derive(Clone, Copy, Debug, PartialEq, Eq)]
pub struct Frame(pub u32);

/// An EPC has at most so many frames (this project's own).
pub const MOST_FRAMES: u32 = 4096;

/// The bytes of a page, and of a frame.
pub const PAGE_BYTES: u64 = 4096;

/// A machine has at most so many logical processors (this project's own).
pub const PROCESSORS: u32 = 16;

/// The greatest epoch of an enclave, 2^40 - 1 (this project's own). An enclave that has reached it can be tracked no more.
pub const LAST_EPOCH: u64 = (1 << 40) - 1;

/// A logical processor, by its number from 0 to 15.
#[derive(Clone, Copy, Debug, PartialEq, Eq)]
pub struct Cpu(pub u8);

/// Who acts on the EPC: the builder of enclaves, a processor, or the driver's reclaimer.
#[derive(Clone, Copy, Debug, PartialEq, Eq)]
pub enum Actor {
    Builder,
    Cpu(Cpu),
    Reclaimer,
}

/// Memory was refused. The only answer of this project that may come at any call which names it.
#[derive(Clone, Copy, Debug, PartialEq, Eq)]
pub struct Memory;

impl From<AllocError> for Memory {
    fn from(_error: AllocError) -> Memory {
        Memory
    }
}

impl<T: Drop> From<AllocFailed<T>> for Memory {
    fn from(_error: AllocFailed<T>) -> Memory {
        Memory
    }
}

/// The number of an enclave's SECS among the enclave's pages: 2^32 - 1, which no other page has (this project's own).
pub const SECS_NUMBER: u32 = u32::MAX;

/// A page that can leave the EPC. Of an enclave: the enclave's number from 1, and the page's offset from the enclave's base in
/// pages of 4096 bytes, or `SECS_NUMBER` for its SECS. A version array page has enclave 0 and its number, from 0 in the order
/// in which they were made.
#[derive(Clone, Copy, Debug, PartialEq, Eq, Hash)]
pub struct Page {
    pub enclave: u16,
    pub number: u32,
}

/// Read, write and execute permission, the bits R, W and X of SECINFO.FLAGS (Intel SDM volume 3D, SECINFO).
#[derive(Clone, Copy, Debug, PartialEq, Eq)]
pub struct Perm {
    pub r: bool,
    pub w: bool,
    pub x: bool,
}

impl Perm {
    /// No permission, which a TCS, SECS or VA page has.
    pub const NONE: Perm = Perm {
        r: false,
        w: false,
        x: false,
    };
}

/// The type of an EPC page: PT_SECS, PT_TCS, PT_REG or PT_VA (Intel SDM volume 3D, EPCM).
#[derive(Clone, Copy, Debug, PartialEq, Eq)]
pub enum Kind {
    Secs,
    Tcs,
    Reg,
    Va,
}

/// How many slots a version array page has (Intel SDM volume 3D, EPA).
pub const SLOTS: u16 = 512;

/// Where an instruction finds a slot of a version array page: the frame that holds the page, and the slot's index from 0 to 511.
#[derive(Clone, Copy, Debug, PartialEq, Eq)]
pub struct SlotAt {
    pub frame: Frame,
    pub index: u16,
}

/// A slot of a version array page, wherever the page is: the page's number, and the slot's index from 0 to 511.
#[derive(Clone, Copy, Debug, PartialEq, Eq)]
pub struct VaSlot {
    pub va: u32,
    pub index: u16,
}
