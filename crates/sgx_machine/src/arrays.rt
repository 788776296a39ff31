//! What a driver that moves version array pages asks before it does.

ghost use Rattle.std.specs.Prelude.{◌≡◌, true, false, ℕ, MatchOption};
ghost use Rattle.sgx_rules.specs.Frames.{IsLoading, IsVa};
ghost use Rattle.sgx_rules.specs.Table.{is_loading, is_va};
ghost use Rattle.epcm_entry.specs.inner.Sights.{held};
ghost use Rattle.machine_laws.specs.inner.Steps.{CanBring};
ghost use Rattle.sgx_machine.specs.inner.Parts.{state_of};

use crate::machine::Machine;
use epcm_entry::entry_view::EntryView;
use sgx_types::names::{Frame, Kind, Page};

impl Machine {
    /// How many version array pages were made.
    pub fn arrays_made(&self) -> u64
        ensures { result ≡ (state_of self.now).vas_made }
    {
        self.va.made()
    }

    /// Whether a frame holds a version array page.
    pub fn holds_array(&self, frame: Frame) -> bool
        ensures { result ≡ is_va ((state_of self.now).content frame.0) }
    {
        frame.0 < self.epc.frames() && self.epc.entry(frame).is_va()
    }

    /// Whether a frame holds a version array page, by the page's number. Looks at each frame.
    pub fn has_array(&self, number: u32) -> bool
        ensures there { result ≡ true → (n : ℕ) × ((state_of self.now).content n ≡ IsVa number) }
        ensures away { result ≡ false → (n : ℕ) → (state_of self.now).content n ≡ IsVa number → ⊥ }
    {
        for frame in 0..self.epc.frames() {
            if is_array(self.epc.entry(Frame(frame)), number) {
                return true;
            }
        }
        false
    }

    /// Whether the load into a frame may end, whatever record is brought: no frame holds the version array page for which it waits.
    pub fn can_bring(&self, frame: Frame) -> bool
        ensures may { result ≡ true → CanBring (state_of self.now) frame.0 }
        ensures may_not { result ≡ false → CanBring (state_of self.now) frame.0 → ⊥ }
    {
        let Some(page) = self.awaited(frame) else {
            return true;
        };
        if page.enclave != 0 {
            return true;
        }
        !self.has_array(page.number)
    }

    // The page for which a frame waits.
    fn awaited(&self, frame: Frame) -> Option<Page>
        ensures { MatchOption result (is_loading ((state_of self.now).content frame.0) ≡ false)
            (λ page. (state_of self.now).content frame.0 ≡ IsLoading page) }
    {
        if frame.0 >= self.epc.frames() {
            return None;
        }
        match self.epc.entry(frame) {
            EntryView::Loading { page } => Some(page),
            _ => None,
        }
    }
}

// An entry's frame holds this version array page.
fn is_array(entry: EntryView, number: u32) -> bool
    ensures there { result ≡ true → held entry ≡ IsVa number }
    ensures away { result ≡ false → held entry ≡ IsVa number → ⊥ }
{
    match entry {
        EntryView::Valid {
            page,
            kind: Kind::Va,
            ..
        } => page.number == number,
        _ => false,
    }
}
