//! Laws of the definitions. Each is the contract of a function without arguments, and so holds for every list of entries.

ghost use Rattle.std.specs.Prelude.{ℕ, ◌≡◌, ◌==◌, ◌≤◌, ◌<◌, ◌+◌, Bool, true, false, List, [], ◌∷◌, Some};
ghost use Rattle.std.specs.Prelude.{None, length, nat_le, nat_lt};
ghost use Rattle.sgx_types.specs.Making.{Making};
ghost use Rattle.sgx_rules.specs.inner.ByEpochs.{IsTrackedBlock};
ghost use Rattle.sgx_types.specs.declared.names.Actor.{Actor};
ghost use Rattle.sgx_rules.specs.declared.entries.Entry.{Entry};
ghost use Rattle.sgx_rules.specs.declared.entries.Event.{Event};
ghost use Rattle.sgx_rules.specs.Starts.{open_start, Start, slot_found};
ghost use Rattle.sgx_types.specs.declared.names.Cpu.{Cpu};
ghost use Rattle.sgx_types.specs.declared.names.Page.{Page};
ghost use Rattle.sgx_rules.specs.Epochs.{epoch, older_at};
ghost use Rattle.sgx_rules.specs.inner.Epochs.{block_epoch};
ghost use Rattle.sgx_rules.specs.Eviction.{is_drained};
ghost use Rattle.sgx_rules.specs.Frames.{content, Free, is_blocked};
ghost use Rattle.sgx_types.specs.declared.names.SlotAt.{SlotAt};
ghost use Rattle.sgx_rules.specs.Sights.{secs_sight_at, sight_at, use_sight_at};
ghost use Rattle.sgx_types.specs.Cases.{first_of_row};
ghost use Rattle.sgx_rules.specs.Table.{DrainSight, LoadSight, eldstart_row, ewbstart_row, is_va};
ghost use Rattle.sgx_rules.specs.Flat.{settled};
ghost use Rattle.driver_slots.specs.inner.Keeper.{AllOut, count_all, count_out, is_ours, is_out, Keeper, new_keeper};
ghost use Rattle.job_grammar.specs.Jobs.{JobView};
ghost use Rattle.sgx_rules.specs.Rules.{Along, EvictRule, FitsRule, RefusalRule, RisingRule};
ghost use Rattle.driver_rules.specs.Ages.{AgeRuleBy, KickRule};
ghost use Rattle.driver_laws.specs.inner.Agrees.{drivers, Keeping, ShowsSlots};
ghost use Rattle.driver_laws.specs.inner.Driven.{IsDriven};
ghost use Rattle.driver_laws.specs.inner.Inits.{InitsAreReady, InitTells};
ghost use Rattle.driver_laws.specs.inner.Kinds.{CanMove};
ghost use Rattle.driver_rules.specs.Passes.{First, keepers, pass, Tries};
ghost use Rattle.driver_rules.specs.inner.Passes.{processors_noting};
ghost use Rattle.driver_rules.specs.Places.{Away, is_here, Leaving, Loading, place};
ghost use Rattle.driver_rules.specs.Scripts.{ScriptRule};
ghost use Rattle.driver_rules.specs.inner.Stops.{frame_started};
ghost use Rattle.driver_rules.specs.Stops.{last_event};
ghost use Rattle.driver_rules.specs.Turns.{last_of, load_of};
ghost use Rattle.driver_laws.specs.inner.Started.{frame_loaded};
ghost use Rattle.driver_laws.specs.inner.Sound.{is_absent, IsSound, slot_of};
ghost use Rattle.driver_laws.specs.inner.Stages.{IsTaken, KeepsPages};
ghost use Rattle.driver_laws.specs.inner.Three.{IsApart, TcsAreApart, three};
ghost use Rattle.driver_laws.specs.inner.Counted.{AddsAreBuilt, CountMoves, CountsSlots};
ghost use Rattle.driver_laws.specs.inner.Keeps.{ArraysAreBuilt, ArraysFirst, is_epa_refused, KeeperMoves, LeavesFull};
ghost use Rattle.driver_laws.specs.inner.Loads.{IsEndedBy, load_ended, LoadsAreTheirs, TheirRule};
ghost use Rattle.sgx_types.specs.declared.names.VaSlot.{VaSlot};
ghost use Rattle.sgx_types.specs.Pages.{is_own_page, is_va_page, secs_page, va_page};
ghost use Rattle.sgx_rules.specs.Slots.{is_busy_at, version_at, version_in};
ghost use Rattle.sgx_rules.specs.inner.Slots.{IsIdle};
ghost use Rattle.driver_laws.specs.inner.Fixed.{IsInJob, SlotsAreTheirs};
ghost use Rattle.driver_rules.specs.Spares.{Outs, outs_kept};
ghost use Rattle.driver_rules.specs.inner.Slotted.{fixed_slot, occupied, SlotRule};
ghost use Rattle.driver_laws.specs.inner.Used.{left_to_refuse, load_left, SealingAreOpen, slot_with, SlotsAreUsed, start_left};
ghost use Rattle.driver_laws.specs.inner.Used.{StartsAlone, StartTells, VersionsStand};
ghost use Rattle.driver_laws.specs.inner.Tracks.{IsCalm, IsTracked, IsUntracked, KeepsTracks, OwnRule, TryTells};
ghost use Rattle.sgx_types.specs.declared.names.Actor.TheVariants as actors;

/// One entry more, of any kind, keeps places, the list and the slots sound, where it can move its page.
pub fn entries_stay_sound()
    ensures first { IsSound [] }
    ensures more { (past : List Entry) (e : Entry) → CanMove past e.event → IsSound past → IsSound (e ∷ past) }
{}

/// One entry more keeps what a pass says of tracks. So a first try that is refused for want of a track tells that there was none since
/// the block.
pub fn passes_keep_tracks()
    ensures more { (j : JobView) (past : List Entry) (out : Outs) (e : Entry) → IsSound past → CanMove past e.event → TryTells past e.event
        → OwnRule past e
        → AgeRuleBy j past out e → KickRule j past e → KeepsTracks past (pass j past) → KeepsTracks (e ∷ past) (pass j (e ∷ past)) }
    ensures first { (j : JobView) (past : List Entry) (g : Page) (rest : List Page) (f : ℕ) → IsSound past → KeepsTracks past (pass j past)
        → pass j past ≡ Tries g rest First → place past g ≡ Leaving f → is_blocked past f ≡ true → is_drained past f ≡ false
        → is_own_page g ≡ true → IsUntracked past g }
    ensures own { (j : JobView) (past : List Entry) (e : Entry) → ScriptRule j past e → OwnRule past e }
    ensures told { (k : Making) (past : List Entry) (e : Entry) → RefusalRule k past e → TryTells past e.event }
{}

/// One entry more keeps how the pages of a pass stand: those that were taken wait in their frames, each once, and are blocked in their
/// order; a page that is here is not blocked; within a scan the list has a page for each look that is left.
pub fn pages_stay()
    ensures first { (j : JobView) → KeepsPages [] (pass j []) }
    ensures more { (j : JobView) (past : List Entry) (out : Outs) (e : Entry) → IsSound past → CanMove past e.event → OwnRule past e
        → AgeRuleBy j past out e → KickRule j past e → KeepsPages past (pass j past) → KeepsPages (e ∷ past) (pass j (e ∷ past)) }
{}

/// Before the track of a page's tries no processor inside is older than the last one, so that it is not refused for one. The block's
/// epoch is then the enclave's, and behind the track it is the one before. Once nobody keeps the page back it is drained.
pub fn tries_end()
    ensures older { (past : List Entry) (e : ℕ) → IsCalm past e → older_at past e ≡ 0 }
    ensures now { (first : ℕ) (past : List Entry) (g : Page) (u : IsUntracked past g) → IsSound past
        → block_epoch first past u.frame ≡ Some (epoch first past g.enclave) }
    ensures before { (first : ℕ) (past : List Entry) (g : Page) (t : IsTracked past g) → IsSound past
        → (b : ℕ) × (block_epoch first past t.frame ≡ Some b) × (b + 1 ≡ epoch first past g.enclave) }
    ensures drained { (past : List Entry) (g : Page) (t : IsTracked past g) → IsSound past → keepers past g ≡ []
        → is_drained past t.frame ≡ true }
{}

/// Those whom the reclaimer kicks are the processors inside whose noted epoch is at or below the block's.
pub fn kicks_go_by_epochs()
    ensures { (first : ℕ) (past : List Entry) (g : Page) (f b k : ℕ) → place past g ≡ Leaving f → IsTrackedBlock first past f g.enclave b k
        → keepers past g ≡ processors_noting first past g.enclave b }
{}

/// In a history, places, the list and the slots are sound, slots stay used, a pass keeps what it says of tracks and of its pages, each open
/// start of a load is one processor's, no more pages are added than the build has steps for, and three holds suffice.
pub fn histories_are_sound()
    ensures sound { (k : Making) (j : JobView) (past : List Entry) → 1 ≤ k.first_version → IsDriven k j past → IsSound past }
    ensures tracks { (k : Making) (j : JobView) (past : List Entry) → 1 ≤ k.first_version → IsDriven k j past
        → KeepsTracks past (pass j past) }
    ensures pages { (k : Making) (j : JobView) (past : List Entry) → 1 ≤ k.first_version → IsDriven k j past
        → KeepsPages past (pass j past) }
    ensures used { (k : Making) (j : JobView) (past : List Entry) → 1 ≤ k.first_version → IsDriven k j past → SlotsAreUsed past }
    ensures loads { (k : Making) (j : JobView) (past : List Entry) → 1 ≤ k.first_version → IsDriven k j past → LoadsAreTheirs past }
    ensures built { (k : Making) (j : JobView) (past : List Entry) → IsDriven k j past → AddsAreBuilt j past }
    ensures three { (k : Making) (j : JobView) (past : List Entry) → 1 ≤ k.first_version → TcsAreApart j → IsDriven k j past → (p : ℕ)
        → IsApart j past p }
{}

/// What a processor holds until its next reply is of three pages: the TCS page, the state save page beside it, and the page of its
/// access. It is so at first, and each entry that is due keeps it where no two scripts name one TCS page.
pub fn three_holds_suffice()
    ensures first { (j : JobView) (p : ℕ) → IsApart j [] p }
    ensures more { (j : JobView) (past : List Entry) (out : Outs) (e : Entry) → TcsAreApart j → IsSound past → ScriptRule j past e
        → AgeRuleBy j past out e → ((p : ℕ) → IsApart j past p) → (p : ℕ) → IsApart j (e ∷ past) p }
    ensures most { (j : JobView) (past : List Entry) (p : ℕ) → length (three j past p) ≤ 3 }
{}

/// One entry more keeps what slots hold: that of a page that is outside a version, and a slot is busy exactly where an open start names
/// it.
pub fn slots_stay_used()
    ensures first { SlotsAreUsed [] }
    ensures more { (past : List Entry) (e : Entry) → IsSound past → CanMove past e.event → StartTells past e.event → SlotsAreUsed past
        → SlotsAreUsed (e ∷ past) }
    ensures told { (k : Making) (past : List Entry) (e : Entry) → 1 ≤ k.first_version → IsSound past → SealingAreOpen past
        → RefusalRule k past e → EvictRule past e → RisingRule k.first_version past e → StartTells past e.event }
{}

/// Each version in a slot stands for a page that has the slot. Where the driver names slots by its rule, a page's is one for pages, and a
/// SECS's and a version array page's is that page's own; so the own slot of a page of the job that has no slot now holds no version.
pub fn versions_stand()
    ensures none { VersionsStand [] }
    ensures more { (past : List Entry) (e : Entry) → IsSound past → CanMove past e.event → StartTells past e.event → VersionsStand past
        → VersionsStand (e ∷ past) }
    ensures first { (j : JobView) → SlotsAreTheirs j [] }
    ensures theirs { (j : JobView) (past : List Entry) (e : Entry) → IsSound past → CanMove past e.event → SlotRule j past e
        → SlotsAreTheirs j past → SlotsAreTheirs j (e ∷ past) }
    ensures empty { (j : JobView) (past : List Entry) (g : Page) → VersionsStand past → SlotsAreTheirs j past
        → ((h : Page) (s : VaSlot) → slot_of past h ≡ Some s → is_own_page h ≡ false → IsInJob j h) → IsInJob j g → slot_of past g ≡ None
        → version_in past (fixed_slot j g) ≡ 0 }
{}

/// A load of a page that is away, by its slot in a version array page that is here, into a free frame of the EPC is refused only where the
/// slot holds no version, as long as its enclave's SECS is here. A try to write out a page that was taken and blocked, into a slot that is
/// not out, is refused only for want of a track, for a version that the slot holds already, or for want of a version; and a SECS or a
/// version array page that leaves only for the last two. By the entries the one slot holds a version, and the other none; what a version
/// array page has there may differ where a forged record brought it back. Version array pages are in frames of the EPC.
pub fn moves_are_lawful()
    ensures load { (frames : ℕ) (past : List Entry) (g : Page) (slot : VaSlot) (at : SlotAt) (f : ℕ) (load : LoadSight) (version : ℕ)
        → IsSound past → SealingAreOpen past → place past g ≡ Away slot → slot_found (content past) at ≡ Some slot
        → is_here (place past (va_page slot.va)) ≡ true → content past f ≡ Free → nat_le frames f ≡ false
        → nat_le frames at.frame.0 ≡ false → nat_lt 511 at.index ≡ false → load.is_known ≡ true → load.secs ≡ settled
        → first_of_row (eldstart_row (sight_at frames past f) load (slot_with frames past at version))
        ≡ first_of_row (load_left version) }
    ensures filled { (past : List Entry) (g : Page) (slot : VaSlot) (at : SlotAt) → SlotsAreUsed past → place past g ≡ Away slot
        → slot_found (content past) at ≡ Some slot → (version_at past at == 0) ≡ false }
    ensures secs { (frames : ℕ) (past : List Entry) (enclave : ℕ) → IsSound past → SealingAreOpen past → Along (FitsRule frames) past
        → is_va_page (secs_page enclave) ≡ false → is_here (place past (secs_page enclave)) ≡ true
        → secs_sight_at frames past enclave ≡ settled }
    ensures out { (frames : ℕ) (k : Keeping) (j : JobView) (keeper : Keeper) (past : List Entry) (g : Page) (slot : VaSlot) (at : SlotAt)
        (w : IsTaken past true g) (drain : DrainSight) (version : ℕ) (is_spent : Bool) → IsSound past → SealingAreOpen past
        → ShowsSlots k j keeper past → is_own_page g ≡ true → is_ours keeper slot ≡ true → is_out keeper slot ≡ false
        → slot_found (content past) at ≡ Some slot → nat_le frames w.frame ≡ false → nat_le frames at.frame.0 ≡ false
        → first_of_row (ewbstart_row (sight_at frames past w.frame) (use_sight_at frames past w.frame at)
        (slot_with frames past at version) drain is_spent)
        ≡ first_of_row (left_to_refuse drain version is_spent) }
    ensures empty { (frames : ℕ) (k : Keeping) (j : JobView) (keeper : Keeper) (past : List Entry) (slot : VaSlot) (at : SlotAt)
        → IsSound past
        → SealingAreOpen past → ShowsSlots k j keeper past → is_ours keeper slot ≡ true → is_out keeper slot ≡ false
        → slot_found (content past) at ≡ Some slot → (is_busy_at frames past at ≡ false) × (version_at past at ≡ 0) }
    ensures beside { (frames : ℕ) (past : List Entry) (g : Page) (f : ℕ) (slot : VaSlot) (at : SlotAt) (drain : DrainSight) (version : ℕ)
        (is_spent : Bool) → IsSound past → SealingAreOpen past → is_own_page g ≡ false → place past g ≡ Leaving f
        → open_start past f ≡ None → slot_found (content past) at ≡ Some slot → is_here (place past (va_page slot.va)) ≡ true
        → IsIdle past slot → nat_le frames f ≡ false → nat_le frames at.frame.0 ≡ false → nat_lt 511 at.index ≡ false
        → first_of_row (ewbstart_row (sight_at frames past f) (use_sight_at frames past f at) (slot_with frames past at version) drain
        is_spent)
        ≡ first_of_row (start_left version is_spent) }
    ensures array { (frames : ℕ) (past : List Entry) (n : ℕ) → Along (FitsRule frames) past → is_va (content past n) ≡ true
        → nat_le frames n ≡ false }
{}

/// The keeper of the version slots agrees with the entries: one entry more keeps it, where the keeper moves with it.
pub fn the_keeper_agrees()
    ensures first { (k : Keeping) (j : JobView) (pages : ℕ) → ShowsSlots k j (new_keeper pages) [] }
    ensures more { (k : Keeping) (j : JobView) (old new : Keeper) (past : List Entry) (e : Entry) → IsSound past → CanMove past e.event
        → StartTells past e.event → VersionsStand past → ArraysFirst j past e.event → LeavesFull old e.event
        → KeeperMoves k past e.event old new → ShowsSlots k j old past → ShowsSlots k j new (e ∷ past) }
{}

/// By the build's order the version array pages are made first, all of them before a page is added: as many were made as the builder's
/// steps till now make, where none was refused.
pub fn arrays_come_first()
    ensures first { (j : JobView) → ArraysAreBuilt j [] }
    ensures more { (j : JobView) (past : List Entry) (out : Outs) (e : Entry) → ScriptRule j past e → AgeRuleBy j past out e
        → is_epa_refused e.event ≡ false → ArraysAreBuilt j past → ArraysAreBuilt j (e ∷ past) }
    ensures order { (j : JobView) (past : List Entry) (out : Outs) (e : Entry) → ScriptRule j past e → AgeRuleBy j past out e
        → AddsAreBuilt j past → ArraysAreBuilt j past → ArraysFirst j past e.event }
{}

/// As many slots are out as pages have one: each entry keeps it.
pub fn slots_are_counted()
    ensures first { (pages : ℕ) → CountsSlots (new_keeper pages) [] }
    ensures more { (old new : Keeper) (past : List Entry) (e : Entry) → IsSound past → CanMove past e.event → StartTells past e.event
        → CountMoves past e.event (count_out old) (count_out new) → CountsSlots old past → CountsSlots new (e ∷ past) }
{}

/// No more pages are added than the build has steps for. So fewer slots are out than the version array pages have, once a page was added:
/// a slot is left wherever one is asked for.
pub fn a_slot_is_left()
    ensures first { (j : JobView) → AddsAreBuilt j [] }
    ensures more { (j : JobView) (past : List Entry) (out : Outs) (e : Entry) → ScriptRule j past e → AgeRuleBy j past out e
        → AddsAreBuilt j past → AddsAreBuilt j (e ∷ past) }
    ensures left { (j : JobView) (keeper : Keeper) (past : List Entry) (g : Page) → IsSound past → ShowsSlots (drivers j) j keeper past
        → CountsSlots keeper past → AddsAreBuilt j past → occupied past ≡ 0 → is_own_page g ≡ true → is_absent (place past g) ≡ false
        → count_out keeper < count_all keeper }
    ensures none { (j : JobView) (keeper : Keeper) (past : List Entry) (g : Page) → IsSound past → ShowsSlots (drivers j) j keeper past
        → CountsSlots keeper past → AddsAreBuilt j past → occupied past ≡ 0 → is_own_page g ≡ true → is_absent (place past g) ≡ false
        → AllOut keeper → ⊥ }
{}

/// One of the driver's slots is out by its keeper exactly where the rule on looks counts it as out: it is busy or holds a version, or a try
/// found it in use.
pub fn kept_slots_are_the_rules()
    ensures { (j : JobView) (keeper : Keeper) (past : List Entry) (s : VaSlot) → IsSound past → SealingAreOpen past → SlotsAreUsed past
        → ((n : ℕ) (x : Start) → open_start past n ≡ Some x → n < j.epc) → ShowsSlots (drivers j) j keeper past → is_ours keeper s ≡ true
        → is_out keeper s ≡ outs_kept j past s }
{}

/// No two open starts name one slot, and none names that of a page that is away.
pub fn starts_alone()
    ensures { (past : List Entry) → IsSound past → StartsAlone past }
{}

/// A processor has an open start exactly where its turn is to end a load, which is that of the start's frame.
pub fn open_starts_are_ended()
    ensures { (j : JobView) (past : List Entry) (c : Cpu) → Along (ScriptRule j) past
        → frame_started (last_event past (actors.Cpu c)) ≡ frame_loaded (last_of past c.0) }
{}

/// Each open start of a load is of a page that is loading into its frame, and of the one processor whose last entry is that start. By
/// the rule Script who has a load to end ends it, and nobody else ends one: so a load that ends is that of the processor that ends it.
pub fn loads_are_theirs()
    ensures first { LoadsAreTheirs [] }
    ensures more { (past : List Entry) (e : Entry) → IsSound past → CanMove past e.event → TheirRule past e.actor e.event
        → LoadsAreTheirs past → LoadsAreTheirs (e ∷ past) }
    ensures own { (j : JobView) (past : List Entry) (e : Entry) → ScriptRule j past e → TheirRule past e.actor e.event }
    ensures page { (past : List Entry) (n : ℕ) (g : Page) → IsSound past → load_of (open_start past n) ≡ Some g
        → (slot : VaSlot) × (place past g ≡ Loading n slot) }
    ensures ended { (past : List Entry) (actor : Actor) (event : Event) (n : ℕ) → TheirRule past actor event → load_ended event ≡ Some n
        → IsEndedBy past actor n }
{}

/// Enclaves that were initialised were created before. One entry more keeps it, where it initialises only an enclave that was created, as
/// the rule Refusal has it.
pub fn inits_stay_ready()
    ensures first { InitsAreReady [] }
    ensures more { (past : List Entry) (e : Entry) → IsSound past → CanMove past e.event → InitTells past e.event → InitsAreReady past
        → InitsAreReady (e ∷ past) }
    ensures told { (made : Making) (past : List Entry) (e : Entry) → Along (RefusalRule made) past → RefusalRule made past e
        → InitTells past e.event }
{}
