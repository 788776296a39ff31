//! The EPC with its EPCM.

ghost use Rattle.std.specs.Prelude.{◌≡◌, ◌<◌, ◌≤◌, ◌||◌, true, false, length, replicate, count_by, IfOk, OnOk, OnErr};
ghost use Rattle.epcm_entry.specs.inner.EntryView.{is_free, is_busy, is_valid, claim_answer};
ghost use Rattle.epcm_entry.specs.inner.Words.{words_of};
ghost use Rattle.epcm_entry.specs.inner.Epc.{IsEpc, entry_at, word_at, words_at, bytes_at, free_frames, is_free_frame};
ghost use Rattle.epcm_entry.specs.inner.Epc.{first_free_of, with_entry};
ghost use Rattle.std.specs.Option.{option_map};
ghost use Rattle.sgx_rules.specs.Frames.{secs_frame};
ghost use Rattle.epcm_entry.specs.inner.Sights.{held_in};
ghost use Rattle.epcm_entry.specs.inner.Epc.{with_page, with_blocked, with_sealing, with_loading, with_word, with_words, cleared};

use crate::entry_view::EntryView;
use free_map::map::FreeMap;
use sgx_rules::refusals::Refusal;
use sgx_types::names::{Frame, Kind, Memory, Page, Perm};
use std::alloc::Global;
use std::marker::Model;

/// The EPC with its EPCM: frames of 4096 bytes, each with an entry.
#[derive(Drop)]
pub struct Epc {
    entries: Vec<EntryView>,
    // The words of each frame, low byte first.
    pages: Vec<[[u8; 8]; 512]>,
    free: FreeMap,
}

impl Model for Epc {
    ghost use Rattle.std.specs.Prelude.{List};
    ghost use Rattle.epcm_entry.specs.inner.Epc.{EpcFrame};

    ghost Value = { List EpcFrame };

    ghost use Rattle.epcm_entry.specs.inner.Kept.{epc_of, IsEpcKept};

    ghost view = { epc_of };

    ghost invariant = { IsEpcKept };
}

impl Epc {
    /// An EPC whose frames, at most 4096, are free and zero.
    pub fn new(alloc: Global, frames: u32) -> Result<Epc, Memory>
        requires { frames ≤ 4096 }
        ensures { IfOk result (λ epc. epc ≡ free_frames frames) }
    {
        let count = frames as usize;
        Ok(Epc {
            entries: vec![in alloc; EntryView::Free; count]?,
            pages: vec![in alloc; [[0; 8]; 512]; count]?,
            free: FreeMap::full(alloc, frames)?,
        })
    }

    /// How many frames there are.
    pub fn frames(&self) -> u32
        ensures count { result ≡ length self.now }
        ensures sound { IsEpc self.now }
    {
        self.entries.len() as u32
    }

    /// The EPCM entry of a frame.
    pub fn entry(&self, frame: Frame) -> EntryView
        requires { frame.0 < length self.now }
        ensures { result ≡ entry_at self.now frame.0 }
    {
        self.entries[frame.0 as usize]
    }

    /// How many frames are free.
    pub fn free_count(&self) -> u32
        ensures { result ≡ count_by is_free_frame self.now }
    {
        self.free.count()
    }

    /// The free frame with the least number.
    pub fn first_free(&self) -> Option<Frame>
        ensures { result ≡ first_free_of self.now }
    {
        let number = self.free.first()?;
        Some(Frame(number))
    }

    /// The frame that holds an enclave's SECS, the least one where more do. None exactly where none does. Looks at each frame's entry.
    pub fn secs_frame(&self, enclave: u16) -> Option<Frame>
        ensures { option_map (λ f. f.0) result ≡ secs_frame (length self.now) (held_in self.now) enclave }
    {
        for (number, entry) in self.entries.iter().enumerate() {
            if entry.is_secs_of(enclave) {
                return Some(Frame(number as u32));
            }
        }
        None
    }

    /// The 8 bytes of a frame from byte `8 * index` on, low byte first.
    pub fn word(&self, frame: Frame, index: u16) -> u64
        requires within { frame.0 < length self.now }
        requires in_frame { index < 512 }
        ensures { result ≡ word_at self.now frame.0 index }
    {
        let page = &self.pages[frame.0 as usize];
        u64::from_le_bytes(page[usize::from(index)])
    }

    /// The 4096 bytes of a frame.
    pub fn bytes(&self, frame: Frame) -> &[u8; 4096]
        requires { frame.0 < length self.now }
        ensures value { result.now ≡ bytes_at self.now frame.0 }
        ensures words { words_of result.now ≡ words_at self.now frame.0 }
    {
        let page = &self.pages[frame.0 as usize];
        page.as_flattened().as_array().unwrap()
    }

    /// Claims the page in a frame for an EWB: the page is sealing from then on. A busy frame is refused.
    pub fn claim_seal(&mut self, frame: Frame) -> Result<(), Refusal>
        requires within { frame.0 < length self.old }
        requires taken { is_free (entry_at self.old frame.0) ≡ false }
        ensures answer { result ≡ claim_answer (entry_at self.old frame.0) }
        ensures done { OnOk result (self.new ≡ with_sealing self.old frame.0) }
        ensures refused { OnErr result (self.new ≡ self.old) }
    {
        let entry = self.entry(frame);
        if entry.is_busy() {
            return Err(Refusal::Conflict);
        }
        self.put(frame, entry.outgoing());
        Ok(())
    }

    /// Claims a free frame for an ELDU of a page: it is Loading from then on. A busy frame is refused.
    pub fn claim_load(&mut self, frame: Frame, page: Page) -> Result<(), Refusal>
        requires within { frame.0 < length self.old }
        requires free_or_busy { (is_free (entry_at self.old frame.0) || is_busy (entry_at self.old frame.0)) ≡ true }
        ensures answer { result ≡ claim_answer (entry_at self.old frame.0) }
        ensures done { OnOk result (self.new ≡ with_loading self.old frame.0 page) }
        ensures refused { OnErr result (self.new ≡ self.old) }
    {
        if self.entry(frame).is_busy() {
            return Err(Refusal::Conflict);
        }
        self.put(frame, EntryView::Loading { page });
        Ok(())
    }

    /// Puts a page into a frame that is free or Loading, neither blocked nor sealing. The frame's words stay.
    pub fn set(&mut self, frame: Frame, page: Page, kind: Kind, perm: Perm)
        requires within { frame.0 < length self.old }
        requires vacant { is_valid (entry_at self.old frame.0) ≡ false }
        ensures { self.new ≡ with_page self.old frame.0 page kind perm }
    {
        self.put(
            frame,
            EntryView::Valid {
                page,
                kind,
                perm,
                blocked: None,
                sealing: false,
            },
        );
    }

    /// Blocks the page in a frame at an epoch.
    pub fn block(&mut self, frame: Frame, epoch: u64)
        requires within { frame.0 < length self.old }
        requires valid { is_valid (entry_at self.old frame.0) ≡ true }
        requires idle { is_busy (entry_at self.old frame.0) ≡ false }
        ensures { self.new ≡ with_blocked self.old frame.0 epoch }
    {
        let entry = self.entry(frame);
        self.put(frame, entry.with_block(epoch));
    }

    /// Makes a frame free, and its words 0.
    pub fn clear(&mut self, frame: Frame)
        requires { frame.0 < length self.old }
        ensures { self.new ≡ cleared self.old frame.0 }
    {
        self.put(frame, EntryView::Free);
        let page = &mut self.pages[frame.0 as usize];
        page.fill([0; 8]);
    }

    /// Writes the 8 bytes of a frame from byte `8 * index` on, low byte first.
    pub fn set_word(&mut self, frame: Frame, index: u16, value: u64)
        requires within { frame.0 < length self.old }
        requires in_frame { index < 512 }
        ensures { self.new ≡ with_word self.old frame.0 index value }
    {
        let page = &mut self.pages[frame.0 as usize];
        page[usize::from(index)] = value.to_le_bytes();
    }

    /// Makes every 8-byte word of a frame this value.
    pub fn fill(&mut self, frame: Frame, value: u64)
        requires { frame.0 < length self.old }
        ensures { self.new ≡ with_words self.old frame.0 (replicate 512 value) }
    {
        let page = &mut self.pages[frame.0 as usize];
        page.fill(value.to_le_bytes());
    }

    /// Writes the 4096 bytes of a frame.
    pub fn set_bytes(&mut self, frame: Frame, from: &[u8; 4096])
        requires { frame.0 < length self.old }
        ensures { self.new ≡ with_words self.old frame.0 (words_of from.now) }
    {
        let page = &mut self.pages[frame.0 as usize];
        page.copy_from_slice(from.as_chunks().0);
    }

    // The one place where an entry is written, so that the set of free frames stays with the entries.
    fn put(&mut self, frame: Frame, entry: EntryView)
        requires { frame.0 < length self.old }
        ensures { self.new ≡ with_entry self.old frame.0 entry }
    {
        let index = frame.0 as usize;
        let old = self.entries[index];
        self.entries[index] = entry;
        self.free.update(frame.0, old.is_free(), entry.is_free());
    }
}
