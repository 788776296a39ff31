//! What the turns of a book owe. A law is the contract of a function without arguments.

ghost use Rattle.std.specs.Prelude.{ℕ, ◌≡◌, ◌+◌, ◌<◌, ◌≤◌, true, false, if◌then◌else◌, List, [], ◌∷◌, ◌++◌};
ghost use Rattle.std.specs.Prelude.{Option, count_by, length};
ghost use Rattle.backing_store.specs.Calls.{Call};
ghost use Rattle.cached_translations.specs.declared.processor.Mode.{Mode};
ghost use Rattle.driver_laws.specs.inner.Three.{TcsAreApart};
ghost use Rattle.driver_rules.specs.Dues.{KicksAll, Makes};
ghost use Rattle.driver_rules.specs.Passes.{free_count, keepers, pass, pass_after};
ghost use Rattle.driver_rules.specs.inner.Reclaims.{going_due};
ghost use Rattle.driver_rules.specs.Spares.{outs_kept};
ghost use Rattle.driver_rules.specs.Stops.{is_spent};
ghost use Rattle.driver_rules.specs.Turns.{builder_due, cpu_due};
ghost use Rattle.driver_tables.specs.inner.Agrees.{Agrees};
ghost use Rattle.driver_tables.specs.inner.Asked.{IsNextOf};
ghost use Rattle.driver_tables.specs.declared.driver.Driver.{Driver};
ghost use Rattle.epcm_entry.specs.inner.Epc.{is_free_frame};
ghost use Rattle.job_grammar.specs.Jobs.{JobView};
ghost use Rattle.machine_laws.specs.inner.Shape.{ShapeWithRules};
ghost use Rattle.machine_laws.specs.inner.Steps.{CanApply, MayNeedMemory};
ghost use Rattle.sgx_machine.specs.inner.Parts.{Parts, state_of};
ghost use Rattle.driver_reclaim.specs.inner.After.{cpu_of, kicked_past};
ghost use Rattle.driver_reclaim.specs.inner.Answers.{bits_of, by_reclaimer};
ghost use Rattle.driver_pass.specs.inner.Standing.{StandsAt, StandsFor};
ghost use Rattle.driver_pass.specs.inner.Viewed.{is_amid, PassView};
ghost use Rattle.run_laws.specs.inner.Books.{IsMade, KeepsBook};
ghost use Rattle.run_laws.specs.inner.Loads.{GoesOnWith};
ghost use Rattle.due_notes.specs.inner.Plain.{is_plain, is_reclaimer};
ghost use Rattle.run_laws.specs.inner.Bits.{AllBelow, GoesOnBy, RisesFrom, below, has_bit, is_member};
ghost use Rattle.run_laws.specs.inner.Behind.{CanHoldBehind};
ghost use Rattle.sgx_types.specs.Making.{Making};
ghost use Rattle.sgx_rules.specs.declared.entries.Action.{Action};
ghost use Rattle.sgx_types.specs.declared.names.Actor.TheVariants as actors;
ghost use Rattle.sgx_rules.specs.declared.entries.Entry.{Entry};
ghost use Rattle.sgx_rules.specs.declared.entries.Event.TheVariants.{Kick};
ghost use Rattle.sgx_types.specs.declared.names.Cpu.{Cpu};
ghost use Rattle.sgx_types.specs.declared.names.Page.{Page};
ghost use Rattle.due_tables.specs.inner.Entries.{CanNote};
ghost use Rattle.due_tables.specs.inner.Holding.{mode_of};
ghost use Rattle.due_tables.specs.inner.Noting.{IsAmong};
ghost use Rattle.due_tables.specs.declared.turns.Turns.{Turns};

/// An instruction that is due to the builder or to a processor is one that it can make, and moves no page out or back. A processor's needs
/// no memory.
pub fn dues_can_be_made()
    ensures builder { (cpus : ℕ) (j : JobView) (past : List Entry) (action : Action) → builder_due j past ≡ Makes action
        → CanApply cpus actors.Builder action × (is_plain action ≡ true) }
    ensures cpu { (cpus : ℕ) (j : JobView) (past : List Entry) (p : ℕ) (cpu : Cpu) (action : Action) → cpu_due j past p ≡ Makes action
        → p < cpus → cpu.0 ≡ p → CanApply cpus (actors.Cpu cpu) action × ((is_plain action ≡ true) × (MayNeedMemory action → ⊥)) }
{}

/// Behind an entry of another actor by which driver and machine go on to agree, before it is decided whether the reclaimer works, its pass
/// stands for what it stood for.
pub fn passes_stay_for_others()
    ensures { (made : Making) (j : JobView) (past : List Entry) (d d' : Driver) (m m' : Parts) (e : Entry) (v : PassView)
        → j.marks.scan ≤ 64 → Agrees made j past d m → IsNextOf made j past d m e d' m' → is_reclaimer e.actor ≡ false
        → StandsAt made.first_epoch j past v
        → StandsFor made.first_epoch (e ∷ past) v (pass_after j past e.actor e.event (pass j past)) }
{}

/// An entry that was made can be noted in the tables of what is due, and its holds kept in the driver's, by how its actor stood before it.
/// A processor's entry is that of one of the job.
pub fn entries_can_be_noted()
    ensures note { (made : Making) (j : JobView) (past : List Entry) (told told' : Option (List Call)) (d d' : Driver) (m m' : Parts)
        (t : Turns) (e : Entry) (before : Mode) → KeepsBook made j past told d m t → IsMade made j past told d m e told' d' m'
        → before ≡ mode_of m e.actor → CanNote j past before e }
    ensures hold { (made : Making) (j : JobView) (past : List Entry) (told told' : Option (List Call)) (d d' : Driver) (m m' : Parts)
        (t : Turns) (e : Entry) (before : Mode) → KeepsBook made j past told d m t → IsMade made j past told d m e told' d' m'
        → before ≡ mode_of m e.actor → TcsAreApart j → CanHoldBehind j past d' before t e }
    ensures among { (made : Making) (j : JobView) (past : List Entry) (told told' : Option (List Call)) (d d' : Driver) (m m' : Parts)
        (t : Turns) (e : Entry) → KeepsBook made j past told d m t → IsMade made j past told d m e told' d' m'
        → IsAmong (length t.cpus) e.actor }
{}

/// The machine tells as many free frames as the entries have.
pub fn free_is_told()
    ensures { (made : Making) (j : JobView) (past : List Entry) (m : Parts) → ShapeWithRules made (state_of m) past → made.frames ≡ j.epc
        → count_by is_free_frame m.epc ≡ free_count j.epc past }
{}

/// In a turn of kicks, behind some of them, the kick of the one behind these is one with which driver and machine go on to agree, where the
/// machine goes on with that note. Those who are kicked rise, and are below 16.
pub fn kicks_are_next()
    ensures next { (made : Making) (j : JobView) (past : List Entry) (d : Driver) (m : Parts) (v : PassView) (ps done : List ℕ) (p : ℕ)
        (rest : List ℕ) → StandsAt made.first_epoch j past v → is_amid v ≡ false
        → going_due j past (outs_kept j past) false ≡ KicksAll ps → is_spent past ≡ false → ps ≡ done ++ (p ∷ rest)
        → Agrees made j (kicked_past done past) d m → GoesOnWith made (kicked_past done past) (by_reclaimer (Kick (cpu_of p))) m
        → IsNextOf made j (kicked_past done past) d m (by_reclaimer (Kick (cpu_of p))) d m }
    ensures more { (done : List ℕ) (p : ℕ) (past : List Entry)
        → kicked_past (done ++ (p ∷ [])) past ≡ by_reclaimer (Kick (cpu_of p)) ∷ kicked_past done past }
    ensures order { (first : ℕ) (j : JobView) (past : List Entry) (v : PassView) (ps : List ℕ) → StandsAt first j past v
        → is_amid v ≡ false → going_due j past (outs_kept j past) false ≡ KicksAll ps → RisesFrom 0 ps × AllBelow 16 ps }
    ensures keepers { (past : List Entry) (g : Page) → RisesFrom 0 (keepers past g) × AllBelow 16 (keepers past g) }
{}

/// A loop over the processors, which takes those whose bit is set, goes through a list that rises in its order: none is below 0, one number
/// more takes in the processor whose bit it is, behind those below it, and all are below 16.
pub fn bits_go_in_order()
    ensures bit { (ps : List ℕ) (p : ℕ) → p < 16 → has_bit (bits_of ps) p ≡ is_member p ps }
    ensures first { (ps : List ℕ) → below 0 ps ≡ [] }
    ensures more { (ps : List ℕ) (p : ℕ) → p < 16 → RisesFrom 0 ps
        → below (p + 1) ps ≡ (if has_bit (bits_of ps) p then below p ps ++ (p ∷ []) else below p ps) }
    ensures splits { (ps : List ℕ) (p : ℕ) → p < 16 → RisesFrom 0 ps → has_bit (bits_of ps) p ≡ true → GoesOnBy p ps }
    ensures all { (ps : List ℕ) → AllBelow 16 ps → below 16 ps ≡ ps }
{}
