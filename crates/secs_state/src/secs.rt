//! The state of one enclave.

ghost use Rattle.std.specs.Prelude.{◌≡◌, ◌≢◌, ◌+◌, ◌-◌, ◌*◌, ◌<◌, ◌^◌, true, false, None, IfOk, IsSome};
ghost use Rattle.std.specs.Prelude.{OnSome};
ghost use Rattle.sgx_types.specs.Lawful.{is_lawful};
ghost use Rattle.secs_state.specs.inner.Secs.{IsSecs, page_count, created, added_at, is_busy_at, with_init, with_page, with_busy};
ghost use Rattle.secs_state.specs.inner.Secs.{with_children, with_frame};

use sgx_types::names::{Frame, Kind, Memory, PAGE_BYTES, Perm};
use std::alloc::Global;
use std::marker::Model;

/// The state of one enclave, as its SECS keeps it (Intel SDM volume 3D, SECS): its range in bytes, which pages were
/// added with which kind and permissions, which TCS pages are busy, how many pages are resident, and which frame holds the
/// SECS page itself.
#[derive(Drop)]
pub struct Secs {
    enclave: u16,
    base: u64,
    size: u64,
    is_init: bool,
    // By page number, as are the busy marks.
    pages: Vec<Option<(Kind, Perm)>>,
    busy: Vec<bool>,
    children: u32,
    frame: Option<Frame>,
}

impl Model for Secs {
    ghost use Rattle.secs_state.specs.inner.Secs.{SecsState};

    ghost Value = { SecsState };

    ghost use Rattle.secs_state.specs.inner.Kept.{secs_of, IsSecsKept};

    ghost view = { secs_of };

    ghost invariant = { IsSecsKept };
}

impl Secs {
    /// An enclave without pages, over `size` bytes from `base` on.
    pub fn new(alloc: Global, enclave: u16, base: u64, size: u64) -> Result<Secs, Memory>
        requires { is_lawful base size ≡ true }
        ensures { IfOk result (λ secs. secs ≡ created enclave base size) }
    {
        let count = (size / PAGE_BYTES) as usize;
        Ok(Secs {
            enclave,
            base,
            size,
            is_init: false,
            pages: vec![in alloc; None; count]?,
            busy: vec![in alloc; false; count]?,
            children: 0,
            frame: None,
        })
    }

    /// The enclave's number, from 1.
    pub fn enclave(&self) -> u16
        ensures { result ≡ self.now.enclave }
    {
        self.enclave
    }

    /// The first address of its range.
    pub fn base(&self) -> u64
        ensures { result ≡ self.now.base }
    {
        self.base
    }

    /// The size of its range in bytes.
    pub fn size(&self) -> u64
        ensures size { result ≡ self.now.size }
        ensures sound { IsSecs self.now }
    {
        self.size
    }

    /// The first address of a page of the range.
    pub fn address(&self, number: u32) -> u64
        requires { number < page_count self.now.size }
        ensures { result ≡ self.now.base + 4096 * number }
    {
        self.base + PAGE_BYTES * u64::from(number)
    }

    /// Whether EINIT was done.
    pub fn is_init(&self) -> bool
        ensures { result ≡ self.now.is_init }
    {
        self.is_init
    }

    /// Marks the enclave as initialised.
    pub fn set_init(&mut self)
        ensures { self.new ≡ with_init self.old }
    {
        self.is_init = true;
    }

    /// The kind and the permissions with which a page was added.
    pub fn added(&self, number: u32) -> Option<(Kind, Perm)>
        ensures value { result ≡ added_at self.now number }
        ensures within { OnSome result (number < page_count self.now.size) }
    {
        self.pages.get(number as usize).copied().flatten()
    }

    /// Notes that a page was added.
    pub fn note_added(&mut self, number: u32, kind: Kind, perm: Perm)
        requires within { number < page_count self.old.size }
        requires absent { added_at self.old number ≡ None }
        ensures { self.new ≡ with_page self.old number kind perm }
    {
        self.pages[number as usize] = Some((kind, perm));
    }

    /// Whether a processor is inside by a TCS page.
    pub fn tcs_busy(&self, number: u32) -> bool
        ensures { result ≡ is_busy_at self.now number }
    {
        self.busy.get(number as usize).copied().unwrap_or(false)
    }

    /// Marks a TCS page as busy.
    pub fn take_tcs(&mut self, number: u32)
        requires { IsSome (added_at self.old number) }
        ensures { self.new ≡ with_busy self.old number true }
    {
        self.busy[number as usize] = true;
    }

    /// Takes the mark of a TCS page away.
    pub fn free_tcs(&mut self, number: u32)
        requires { IsSome (added_at self.old number) }
        ensures { self.new ≡ with_busy self.old number false }
    {
        self.busy[number as usize] = false;
    }

    /// How many of the enclave's pages are resident.
    pub fn children(&self) -> u32
        ensures { result ≡ self.now.children }
    {
        self.children
    }

    /// The frame that holds the SECS page, None exactly where no valid frame does.
    pub fn frame(&self) -> Option<Frame>
        ensures { result ≡ self.now.frame }
    {
        self.frame
    }

    /// Notes which frame holds the SECS page.
    pub fn set_frame(&mut self, frame: Option<Frame>)
        ensures { self.new ≡ with_frame self.old frame }
    {
        self.frame = frame;
    }

    /// Counts a page that became resident.
    pub fn child_added(&mut self)
        requires { self.old.children < 2 ^ 32 - 1 }
        ensures { self.new ≡ with_children self.old (self.old.children + 1) }
    {
        self.children += 1;
    }

    /// Counts a page that left.
    pub fn child_left(&mut self)
        requires { self.old.children ≢ 0 }
        ensures { self.new ≡ with_children self.old (self.old.children - 1) }
    {
        self.children -= 1;
    }
}
