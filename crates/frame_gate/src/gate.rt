//! The gate, and the calls of its seats.

ghost use Rattle.std.specs.Prelude.{◌≡◌, ◌≢◌, ◌+◌, ◌-◌, ◌*◌, ◌/◌, ◌%◌, ◌<◌, ◌≤◌, ◌⊎◌};
ghost use Rattle.std.specs.Prelude.{true, Some, None, length, replicate, IfOk, IfErr, OnOk};
ghost use Rattle.frame_gate.specs.declared.limits.TheConstants.{MOST_FRAMES, MOST_PAIRS, MOST_ENTRIES, LAST_EPOCH};
ghost use Rattle.frame_gate.specs.declared.limits.TheConstants.{LAST_GENERATION};
ghost use Rattle.sgx_types.specs.declared.names.TheConstants.{PROCESSORS};
ghost use Rattle.frame_gate.specs.inner.Words.{free_word, held_word, blocked_word, IsFrame, IsFree, IsHeld, IsBlocked};
ghost use Rattle.frame_gate.specs.inner.Views.{first_words, untouched};
ghost use Rattle.frame_gate.specs.inner.Known.{newcomer_of, StepsAtMost, IsOutside, IsProcInside, HoldsFrame, entered, outside};
ghost use Rattle.frame_gate.specs.inner.Known.{Filled, RefusedFill, Touched};
ghost use Rattle.frame_gate.specs.inner.Known.{first_pager, word_now, generation_now, with_frame, settled_pager, RefusedOlder};
ghost use Rattle.frame_gate.specs.inner.Known.{next_pager, Tracked, RefusedTrack, settled_if, Evicted, RefusedEvict, HasDrained};

use crate::limits::{LAST_EPOCH, LAST_GENERATION, MOST_ENTRIES, MOST_PAIRS};
use crate::refusals::{EntriesSpent, EvictRefusal, GenerationSpent, NotHeld, Older, TrackRefusal};
use crate::rule::{
    Enter, Fill, GateRule, Leave, NewProcessor, SetBack, Settle, Touch, Track, WriteFrame,
};
use crate::seats::{BLOCKED, HELD, PagerSeat, ProcSeat, STATES, find_generation};
use crate::view::{Ledger, Pair, View, Visit, Written};
use atomic_table::Table;
use sgx_types::names::Memory;
use std::alloc::Global;
use std::marker::Model;

/// Word 0 has the epoch above its 32 bits of entries.
const EPOCH: u64 = 1 << 32;

/// The words before those of the frames: word 0, and the two that count leaves.
///
/// Two leave words are enough, since at most two epochs have processors inside. Think of two cloakrooms, each with a tally on
/// its door. Who comes is sent to the room of the present epoch, and ticks that room's tally on the way out, however late.
/// When the pager begins the next epoch, newcomers are sent to the other room. For that the other room has to be empty, and
/// its tally wiped. It is empty once its tally has as many ticks as people were sent there since it was wiped, a number that
/// the pager took down when newcomers were no longer sent there; and it stays empty, since nobody is sent there any more. So
/// the pager only ever waits for the old room, reads one number for it, and needs no third: the epoch after next does not
/// begin while somebody is inside who came in this one.
const COUNTS: usize = 3;

/// A gate: one atomic word with the epoch and its entries, two that count leaves, and one for each frame. Each call takes a
/// seat of this gate and a few steps on words, and takes no lock. Contracts see which gate it is.
#[derive(Drop)]
pub struct FrameGate {
    frames: u32,
    table: Table<(), View, u32, GateRule, Global>,
}

impl Model for FrameGate {
    ghost use Rattle.std.specs.Prelude.{◌≡◌, ◌+◌};
    ghost use Rattle.atomic_table.specs.Seated.{TableId, table_id_coded};

    ghost Value = { TableId };

    ghost coded = { table_id_coded };

    ghost view = { λ g. g.table.shared.table_id };

    ghost invariant = { λ g. (g.table.shared.table_id.words ≡ 3 + g.table.shared.key) × (g.frames ≡ g.table.shared.key) };
}

/// So many frames, each free with generation 0.
fn untouched_frames(alloc: Global, frames: u32) -> Result<Vec<Written>, Memory>
    ensures { IfOk result (λ all. all.items ≡ replicate frames untouched) }
{
    let untouched = Written {
        word: 0,
        blocked: None,
    };
    Ok(vec![in alloc; untouched; frames as usize]?)
}

/// The words at the start: the epoch is 1, and everything else 0.
fn first_words(alloc: Global, frames: u32) -> Result<Vec<u64>, Memory>
    ensures { IfOk result (λ all. all.items ≡ first_words frames) }
{
    let mut all = vec![in alloc; 0; COUNTS + frames as usize]?;
    all[0] = EPOCH;
    Ok(all)
}

impl FrameGate {
    /// A gate with its seats. The epoch is 1, every processor is outside, and each frame is free with generation 0.
    pub fn new(
        alloc: Global,
        frames: u32,
        processors: u32,
    ) -> Result<(FrameGate, PagerSeat, Vec<ProcSeat>), Memory>
        requires frames { (1 ≤ frames) × (frames ≤ MOST_FRAMES) }
        requires processors { (1 ≤ processors) × (processors ≤ PROCESSORS) }
        ensures words { IfOk result (λ made. made.0.words ≡ 3 + frames) }
        ensures pager { IfOk result (λ made. made.1 ≡ first_pager made.0 processors frames) }
        ensures processors { IfOk result (λ made. made.2.items ≡ replicate processors (newcomer_of made.0)) }
    {
        let all = untouched_frames(alloc, frames)?;
        let words = first_words(alloc, frames)?;
        let (table, mut seat) = Table::of_words(alloc, words.as_slice(), &frames)?;
        let mut procs = Vec::new(alloc);
        for split in 0..processors {
            let pairs = Vec::with_capacity(alloc, MOST_PAIRS)?;
            procs.push(ProcSeat {
                visit: Visit {
                    entries: 0,
                    epoch: None,
                },
                pairs,
                seat: table.shared.split_seat::<NewProcessor>(&mut seat),
            })?;
        }
        let ledger = Ledger {
            seats: processors,
            epoch: 1,
            kept: 0,
            is_empty: true,
            is_set_back: true,
        };
        let pager = PagerSeat {
            ledger,
            frames: all,
            seat,
        };
        Ok((FrameGate { frames, table }, pager, procs))
    }

    /// The number of frames.
    pub fn frames(&self) -> u32
        ensures { 3 + result ≡ self.now.words }
    {
        self.frames
    }

    /// A processor enters, and is told the epoch. It is refused exactly where its seat has entered 2^27 times, and then stays
    /// as it was.
    pub fn enter(&self, seat: &mut ProcSeat) -> Result<u64, EntriesSpent>
        requires gate { seat.old.gate ≡ self.now }
        requires outside { IsOutside seat.old }
        ensures entered { IfOk result (λ epoch. (seat.old.visit.entries < MOST_ENTRIES) × (seat.new ≡ entered seat.old epoch)) }
        ensures spent { IfErr result (λ spent. (spent.entries ≡ MOST_ENTRIES) × (seat.old.visit.entries ≡ MOST_ENTRIES)
            × (seat.new ≡ seat.old)) }
        ensures steps { StepsAtMost 3 seat.old.counter seat.new.counter }
    {
        let entries = seat.visit.entries;
        if entries == MOST_ENTRIES {
            return Err(EntriesSpent { entries });
        }
        let found = self.table.shared.fetch_add::<Enter>(&mut seat.seat, 0, 1);
        let epoch = found / EPOCH;
        seat.visit = Visit {
            entries: entries + 1,
            epoch: Some(epoch),
        };
        seat.pairs.clear();
        Ok(epoch)
    }

    /// A processor leaves. What it held is dropped.
    pub fn leave(&self, seat: &mut ProcSeat)
        requires gate { seat.old.gate ≡ self.now }
        requires inside { IsProcInside seat.old }
        ensures outside { seat.new ≡ outside seat.old }
        ensures steps { StepsAtMost 3 seat.old.counter seat.new.counter }
    {
        let Some(epoch) = seat.visit.epoch else {
            unreachable!()
        };
        let at = 1 + epoch % 2;
        self.table
            .shared
            .fetch_add::<Leave>(&mut seat.seat, at as usize, 1);
        seat.visit = Visit {
            entries: seat.visit.entries,
            epoch: None,
        };
        seat.pairs.clear();
    }

    /// A processor takes a frame's translation, and is told the frame's generation. It is refused exactly where the frame's
    /// word, which it loads, is free or blocked.
    pub fn fill(&self, seat: &mut ProcSeat, frame: u32) -> Result<u64, NotHeld>
        requires gate { seat.old.gate ≡ self.now }
        requires frame { IsFrame self.now frame }
        requires inside { IsProcInside seat.old }
        requires room { (length seat.old.pairs < MOST_PAIRS) ⊎ HoldsFrame seat.old frame }
        ensures filled { IfOk result (λ generation. Filled seat.old frame generation seat.new) }
        ensures refused { IfErr result (λ refusal. RefusedFill seat.old frame refusal.word seat.new) }
        ensures steps { StepsAtMost 3 seat.old.counter seat.new.counter }
    {
        let at = COUNTS + frame as usize;
        let had = find_generation(seat.pairs.as_slice(), frame);
        let word = self.table.shared.load::<Fill>(&mut seat.seat, at);
        if word % STATES != HELD {
            return Err(NotHeld { word });
        }
        let generation = word / STATES;
        if had.is_none() {
            seat.pairs.push_reserved(Pair { frame, generation });
        }
        Ok(generation)
    }

    /// A processor uses a translation that it holds, and is told the generation of the frame's word, which it loads: the one
    /// that the seat holds, whatever the pager and the others do.
    pub fn touch(&self, seat: &mut ProcSeat, frame: u32) -> u64
        requires gate { seat.old.gate ≡ self.now }
        requires frame { IsFrame self.now frame }
        requires holds { HoldsFrame seat.old frame }
        ensures touched { Touched seat.old frame result seat.new }
        ensures steps { StepsAtMost 3 seat.old.counter seat.new.counter }
    {
        let at = COUNTS + frame as usize;
        self.table.shared.load::<Touch>(&mut seat.seat, at) / STATES
    }

    /// The pager asks whether every processor has left that entered in the epoch before, with no step where that is known.
    /// It is refused exactly where that epoch's leave word, which it loads, is not the number of its entries.
    pub fn settle(&self, pager: &mut PagerSeat) -> Result<(), Older>
        requires { pager.old.gate ≡ self.now }
        ensures settled { OnOk result (pager.new ≡ settled_pager pager.old) }
        ensures older { IfErr result (λ refusal. RefusedOlder pager.old refusal.word pager.new) }
        ensures steps { StepsAtMost 1 pager.old.counter pager.new.counter }
    {
        if pager.ledger.is_empty {
            return Ok(());
        }
        let at = 1 + (pager.ledger.epoch - 1) % 2;
        let word = self
            .table
            .shared
            .load::<Settle>(&mut pager.seat, at as usize);
        if word != pager.ledger.kept {
            return Err(Older { word });
        }
        pager.ledger.is_empty = true;
        Ok(())
    }

    /// The pager begins the next epoch, and is told it. It settles first, and is refused as `settle` is; then it is refused
    /// exactly at the last epoch.
    pub fn track(&self, pager: &mut PagerSeat) -> Result<u64, TrackRefusal>
        requires { pager.old.gate ≡ self.now }
        ensures tracked { IfOk result (λ epoch. Tracked pager.old epoch pager.new) }
        ensures refused { IfErr result (λ refusal. RefusedTrack pager.old refusal pager.new) }
        ensures steps { StepsAtMost 3 pager.old.counter pager.new.counter }
    {
        if let Err(Older { word }) = self.settle(pager) {
            return Err(TrackRefusal::Older { word });
        }
        let epoch = pager.ledger.epoch;
        if epoch == LAST_EPOCH {
            return Err(TrackRefusal::EpochSpent { epoch });
        }
        self.begin(pager);
        Ok(epoch + 1)
    }

    /// Begins the next epoch. The leave word of the epoch before is set back first: once word 0 is swapped, processors that
    /// entered in the next epoch may leave, and that word counts them.
    fn begin(&self, pager: &mut PagerSeat)
        requires gate { pager.old.gate ≡ self.now }
        requires empty { pager.old.ledger.is_empty ≡ true }
        requires epoch { pager.old.ledger.epoch < LAST_EPOCH }
        ensures { (entries : _) × (pager.new ≡ next_pager pager.old entries pager.old.counter) }
    {
        let epoch = pager.ledger.epoch;
        let at = 1 + (epoch - 1) % 2;
        let shared = &self.table.shared;
        shared.store::<SetBack>(&mut pager.seat, at as usize, 0);
        let found = shared.swap::<Track>(&mut pager.seat, 0, (epoch + 1) * EPOCH);
        pager.ledger = Ledger {
            seats: pager.ledger.seats,
            epoch: epoch + 1,
            kept: found % EPOCH,
            is_empty: false,
            is_set_back: false,
        };
    }

    /// The pager blocks a frame that is held. Nobody takes its translation any more, and who holds it goes on to until he
    /// leaves.
    pub fn block(&self, pager: &mut PagerSeat, frame: u32)
        requires gate { pager.old.gate ≡ self.now }
        requires frame { IsFrame self.now frame }
        requires held { IsHeld (word_now pager.old frame) }
        ensures blocked { pager.new
            ≡ with_frame pager.old frame (blocked_word (generation_now pager.old frame)) (Some pager.old.ledger.epoch) }
        ensures steps { StepsAtMost 3 pager.old.counter pager.new.counter }
    {
        let at = COUNTS + frame as usize;
        let generation = pager.frames[frame as usize].word / STATES;
        let word = STATES * generation + BLOCKED;
        let epoch = pager.ledger.epoch;
        self.table
            .shared
            .swap::<WriteFrame>(&mut pager.seat, at, word);
        pager.frames[frame as usize] = Written {
            word,
            blocked: Some(epoch),
        };
    }

    /// The pager places a page in a free frame, and is told the frame's generation, which is the next one. It is refused
    /// exactly where the frame has the last one.
    pub fn place(&self, pager: &mut PagerSeat, frame: u32) -> Result<u64, GenerationSpent>
        requires gate { pager.old.gate ≡ self.now }
        requires frame { IsFrame self.now frame }
        requires free { IsFree (word_now pager.old frame) }
        ensures placed { IfOk result (λ generation. (generation_now pager.old frame < LAST_GENERATION)
            × (generation ≡ generation_now pager.old frame + 1) × (pager.new ≡ with_frame pager.old frame (held_word generation) None)) }
        ensures spent { IfErr result (λ refusal. (generation_now pager.old frame ≡ LAST_GENERATION)
            × (refusal.word ≡ word_now pager.old frame) × (pager.new ≡ pager.old)) }
        ensures steps { StepsAtMost 3 pager.old.counter pager.new.counter }
    {
        let at = COUNTS + frame as usize;
        let before = pager.frames[frame as usize].word;
        if before / STATES == LAST_GENERATION {
            return Err(GenerationSpent { word: before });
        }
        let generation = before / STATES + 1;
        let word = STATES * generation + HELD;
        self.table
            .shared
            .store::<WriteFrame>(&mut pager.seat, at, word);
        pager.frames[frame as usize] = Written {
            word,
            blocked: None,
        };
        Ok(generation)
    }

    /// The pager frees a blocked frame. It is refused exactly where no track came since the block; and where one alone came
    /// it settles, and is refused as `settle` is. So nobody inside holds the frame's translation any more.
    pub fn evict(&self, pager: &mut PagerSeat, frame: u32) -> Result<(), EvictRefusal>
        requires gate { pager.old.gate ≡ self.now }
        requires frame { IsFrame self.now frame }
        requires blocked { IsBlocked (word_now pager.old frame) }
        ensures evicted { OnOk result (Evicted pager.old frame pager.new) }
        ensures refused { IfErr result (λ refusal. RefusedEvict pager.old frame refusal pager.new) }
        ensures steps { StepsAtMost 3 pager.old.counter pager.new.counter }
    {
        let Some(at) = pager.frames[frame as usize].blocked else {
            unreachable!()
        };
        let epoch = pager.ledger.epoch;
        if at == epoch {
            return Err(EvictRefusal::NoTrack { epoch });
        }
        match self.settle_if(pager, at + 1 == epoch) {
            Ok(()) => {
                self.free(pager, frame);
                Ok(())
            }
            Err(Older { word }) => Err(EvictRefusal::Older { word }),
        }
    }

    /// Settles where that is needed.
    fn settle_if(&self, pager: &mut PagerSeat, needed: bool) -> Result<(), Older>
        requires { pager.old.gate ≡ self.now }
        ensures settled { OnOk result (pager.new ≡ settled_if needed pager.old) }
        ensures older { IfErr result (λ refusal. (needed ≡ true) × RefusedOlder pager.old refusal.word pager.new) }
        ensures steps { StepsAtMost 1 pager.old.counter pager.new.counter }
    {
        if needed { self.settle(pager) } else { Ok(()) }
    }

    /// Frees a drained frame.
    fn free(&self, pager: &mut PagerSeat, frame: u32)
        requires gate { pager.old.gate ≡ self.now }
        requires frame { IsFrame self.now frame }
        requires drained { HasDrained pager.old frame }
        ensures { pager.new ≡ with_frame pager.old frame (free_word (generation_now pager.old frame)) None }
    {
        let at = COUNTS + frame as usize;
        let word = STATES * (pager.frames[frame as usize].word / STATES);
        self.table
            .shared
            .store::<WriteFrame>(&mut pager.seat, at, word);
        pager.frames[frame as usize] = Written {
            word,
            blocked: None,
        };
    }
}
