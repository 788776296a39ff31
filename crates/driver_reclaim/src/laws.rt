//! When the reclaimer is ready for a turn, and what its turns are by the rules. A law is the contract of a function without arguments.

ghost use Rattle.std.specs.Prelude.{ℕ, ◌≡◌, ◌+◌, ◌≤◌, Bool, true, false, List, [], ◌∷◌, Option};
ghost use Rattle.backing_store.specs.Calls.{Call};
ghost use Rattle.driver_rules.specs.Ages.{KeptAgeRule, KickRule};
ghost use Rattle.driver_rules.specs.Spares.{outs_kept};
ghost use Rattle.driver_rules.specs.inner.Reclaims.{all_finished, going_due, reclaimer_due_by};
ghost use Rattle.driver_rules.specs.inner.Slotted.{occupied};
ghost use Rattle.driver_rules.specs.Stops.{is_spent};
ghost use Rattle.sgx_rules.specs.Rules.{Along};
ghost use Rattle.driver_rules.specs.Places.{Leaving, place};
ghost use Rattle.driver_tables.specs.inner.Agrees.{Agrees};
ghost use Rattle.driver_slots.specs.inner.Keeper.{AllOut};
ghost use Rattle.driver_tables.specs.declared.driver.Driver.{Driver};
ghost use Rattle.job_grammar.specs.Jobs.{JobView};
ghost use Rattle.sgx_machine.specs.inner.Parts.{Parts, state_of};
ghost use Rattle.driver_pass.specs.inner.Noted.{instructed};
ghost use Rattle.driver_pass.specs.inner.Viewed.{is_amid, is_kicked, is_sealing, PassView, still_out};
ghost use Rattle.driver_reclaim.specs.inner.After.{StandsAfter};
ghost use Rattle.driver_reclaim.specs.inner.Answers.{IsTurn};
ghost use Rattle.driver_reclaim.specs.inner.Asked.{look_told, places_by};
ghost use Rattle.driver_reclaim.specs.inner.Ended.{IsEndedOut};
ghost use Rattle.driver_reclaim.specs.inner.Kept.{TurnKeeps};
ghost use Rattle.driver_reclaim.specs.inner.Ready.{CanStep, HasFirst, Ready};
ghost use Rattle.driver_reclaim.specs.inner.Rests.{IsWait};
ghost use Rattle.driver_reclaim.specs.inner.Shown.{ShowsAfter};
ghost use Rattle.driver_reclaim.specs.inner.Stored.{IsOpen, IsStartedPass, StoredSays};
ghost use Rattle.driver_reclaim.specs.inner.Turning.{TurnSays};
ghost use Rattle.driver_reclaim.specs.declared.turns.PassTurn.{PassTurn};
ghost use Rattle.sgx_types.specs.Making.{Making};
ghost use Rattle.sgx_types.specs.Pages.{is_own_page};
ghost use Rattle.sgx_rules.specs.declared.entries.Entry.{Entry};
ghost use Rattle.sgx_types.specs.declared.names.Page.{Page};

/// Where the reclaimer is ready and no write-out of it is open, its next turn can be made.
pub fn passes_can_step()
    ensures { (made : Making) (j : JobView) (past : List Entry) (v : PassView) (d : Driver) (m : Parts) → Ready made j past v d m
        → is_sealing v ≡ false → CanStep v d m }
{}

/// Where a page was taken beside the passes, the first version array page was made, into whose slots such pages go: it is so at first, and
/// one entry more by the rule Age keeps it, where the reclaimer was ready before it.
pub fn first_arrays_are_made()
    ensures first { HasFirst [] }
    ensures more { (made : Making) (j : JobView) (past : List Entry) (v : PassView) (d : Driver) (m : Parts) (e : Entry)
        → Ready made j past v d m → KeptAgeRule j past e → HasFirst (e ∷ past) }
{}

/// Where it is ready and waits for the bytes of a page, that page has started to go out: its work can be asked for, and the write-out can
/// be ended.
pub fn started_passes_can_be_stored()
    ensures { (made : Making) (j : JobView) (past : List Entry) (v : PassView) (d : Driver) (m : Parts) → Ready made j past v d m
        → is_sealing v ≡ true → IsOpen v (state_of m) × IsStartedPass v (state_of m) d.states.counts }
{}

/// A slot is left wherever a TCS or REG page is tried: where driver and machine agree and no try found its slot in use, not all slots are
/// out while a page has still to go out.
pub fn a_slot_is_left_for_a_try()
    ensures { (made : Making) (j : JobView) (past : List Entry) (d : Driver) (m : Parts) (g : Page) (f : ℕ) → Agrees made j past d m
        → occupied past ≡ 0 → is_own_page g ≡ true → place past g ≡ Leaving f → AllOut d.slots → ⊥ }
{}

/// What a pass and the pages beside it give is what the reclaimer does next, where no write-out of it is open, nothing was used up, and
/// some actor has still something to do.
pub fn the_pass_is_due()
    ensures { (made : Making) (j : JobView) (past : List Entry) (v : PassView) (d : Driver) (m : Parts) (kicked : Bool)
        → Ready made j past v d m → Along (KeptAgeRule j) past → is_sealing v ≡ false → is_spent past ≡ false
        → all_finished j past ≡ false → reclaimer_due_by j past (outs_kept j past) kicked ≡ going_due j past (outs_kept j past) kicked }
{}

/// A turn is right, for whatever entries the reclaimer is ready for: it is exactly what is next by the rules; its entry keeps Age and Kick,
/// can move its page, names a slot as the driver does, and tells of a try what is so; behind it the pass stands for the longer list, and
/// tables and holds show it. Each page that has still to go out keeps its place in the store.
pub fn turns_are_right()
    ensures due { (made : Making) (j : JobView) (past : List Entry) (v v' : PassView) (d d' : Driver) (m m' : Parts) (turn : PassTurn)
        → Ready made j past v d m → TurnSays v d m turn v' d' m'
        → IsTurn made j past d.slots (going_due j past (outs_kept j past) (is_kicked v)) turn }
    ensures kept { (made : Making) (j : JobView) (past : List Entry) (v v' : PassView) (d d' : Driver) (m m' : Parts) (turn : PassTurn)
        → Ready made j past v d m → TurnSays v d m turn v' d' m' → TurnKeeps made.first_epoch j past turn }
    ensures stands { (made : Making) (j : JobView) (past : List Entry) (v v' : PassView) (d d' : Driver) (m m' : Parts) (turn : PassTurn)
        → Ready made j past v d m → TurnSays v d m turn v' d' m' → (IsWait turn → v' ≡ v)
        → StandsAfter made.first_epoch j past turn v' × (is_amid v' ≡ false) }
    ensures shows { (made : Making) (j : JobView) (past : List Entry) (v v' : PassView) (d d' : Driver) (m m' : Parts) (turn : PassTurn)
        → Ready made j past v d m → TurnSays v d m turn v' d' m' → (IsWait turn → d' ≡ d) → ShowsAfter j past d turn d' }
    ensures spare { (v v' : PassView) (d d' : Driver) (m m' : Parts) (turn : PassTurn) (n : ℕ) → TurnSays v d m turn v' d' m'
        → (IsWait turn → v' ≡ v) → still_out v ≤ n → still_out v' ≤ places_by (look_told turn) n }
{}

/// The end of a write-out is right, for whatever entries by the rules Age and Kick the reclaimer is ready for: its entry is due, keeps both
/// rules, and can move its page; behind it the pass stands for the longer list, and tables and holds show it. It uses the place of its
/// page alone.
pub fn ends_are_right()
    ensures ended { (made : Making) (j : JobView) (past : List Entry) (v : PassView) (d d' : Driver) (m m' : Parts)
        (told told' : Option (List Call)) (before after : ℕ) (e : Entry) → Ready made j past v d m → Along (KeptAgeRule j) past
        → Along (KickRule j) past → StoredSays v (state_of m) d told before e (state_of m') d' told' after
        → IsEndedOut made.first_epoch j past d e (instructed e.event v) d' }
    ensures spare { (v : PassView) (d d' : Driver) (m m' : Parts) (told told' : Option (List Call)) (before after : ℕ) (e : Entry)
        (n n' : ℕ) → StoredSays v (state_of m) d told before e (state_of m') d' told' after → n' + 1 ≡ n → still_out v ≤ n
        → still_out (instructed e.event v) ≤ n' }
{}
