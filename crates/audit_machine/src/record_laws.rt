//! Laws of the records that are kept. Each is the contract of a function without arguments, and so holds for every trace.

ghost use Rattle.std.specs.Prelude.{ℕ, ◌≡◌, false, List, [], ◌∷◌, ◌++◌, None, Some};
ghost use Rattle.sgx_types.specs.Making.{Making};
ghost use Rattle.sgx_types.specs.Sealed.{Sealed};
ghost use Rattle.sgx_rules.specs.Fresh.{IsLastOut};
ghost use Rattle.sgx_rules.specs.Starts.{Start, open_start};
ghost use Rattle.sgx_rules.specs.declared.entries.Action.TheVariants as actions;
ghost use Rattle.sgx_rules.specs.declared.entries.Action.{Action};
ghost use Rattle.sgx_rules.specs.declared.entries.Answer.TheVariants as answers;
ghost use Rattle.sgx_rules.specs.declared.entries.Entry.{Entry};
ghost use Rattle.sgx_rules.specs.declared.entries.Event.TheVariants as events;
ghost use Rattle.sgx_rules.specs.declared.entries.Event.{Event};
ghost use Rattle.sgx_types.specs.declared.names.Frame.{Frame};
ghost use Rattle.sgx_types.specs.declared.names.Page.{Page};
ghost use Rattle.seal_record.specs.Records.{Made};
ghost use Rattle.seal_record.specs.Sealing.{made_with};
ghost use Rattle.seal_record.specs.inner.Sealing.{made_by};
ghost use Rattle.seal_record.specs.declared.unseal.UnsealedWork.{UnsealedWork};
ghost use Rattle.script_rules.specs.Script.{action_of};
ghost use Rattle.machine_laws.specs.inner.Histories.{StandsWithAllRules};
ghost use Rattle.machine_laws.specs.inner.State.{State};
ghost use Rattle.audit_machine.specs.inner.Asked.{GoesOnWith, HasLeft, IsDoneBack, IsOwnRecord};
ghost use Rattle.audit_machine.specs.inner.Kept.{IsKeptUnder, KeepsRecords, Records, is_done_ewb, is_ewb, kept_of, no_records, with_record};
ghost use Rattle.audit_machine.specs.inner.Kept.{without_record};

/// Nothing is outside before the first entry, and no record is kept.
pub fn nothing_is_out_at_first()
    ensures { (key : List ℕ) → KeepsRecords key [] no_records }
{}

/// Where a record is kept for a page that a frame waits for, of the version that the start found, it is the one that the end of the load
/// asks for. Where none of that version is kept, the page did not go out last with what stands in the slot, whatever is told of it.
pub fn kept_records_are_own()
    ensures own { (k : Making) (s : State) (past : List Entry) (records : List Made) (kept : Records)
        → StandsWithAllRules k s past records → KeepsRecords k.key past kept → (n : ℕ) (start : Start) (page : Page) (rec : Sealed)
        → open_start past n ≡ Some start → start.loads ≡ Some page → kept page ≡ Some (start.version, rec)
        → IsOwnRecord k.key past n rec }
    ensures fresh { (k : Making) (s : State) (past : List Entry) (records : List Made) (kept : Records)
        → StandsWithAllRules k s past records → KeepsRecords k.key past kept → (n : ℕ) (start : Start) (page : Page) (version : ℕ)
        (tag : List ℕ) → open_start past n ≡ Some start → start.loads ≡ Some page → IsLastOut past n page version tag
        → IsKeptUnder start.version (kept page) }
{}

/// A page that goes out has its record kept in place of the one that was. That of a page that came back is kept no more. Every other entry,
/// also a load that is refused, leaves the records as they are.
pub fn records_stay_kept()
    ensures gone { (key : List ℕ) (past : List Entry) (e : Entry) (f : Frame) (page : Page) (version : ℕ) (tag : List ℕ) (rec : Sealed)
        (kept : Records) → e.event ≡ events.Did (actions.Ewb f) (answers.Moved page version tag)
        → made_by key (e ∷ past) ≡ made_by key past ++ made_with version rec ∷ [] → KeepsRecords key past kept
        → KeepsRecords key (e ∷ past) (with_record kept page (version, rec)) }
    ensures left { (k : Making) (s t : State) (past : List Entry) (e : Entry) (f : Frame) (work : UnsealedWork) (action : Action)
        (page : Page) (version : ℕ) (tag : List ℕ) (kept : Records) → HasLeft s e f work t
        → e.event ≡ events.Did action (answers.Moved page version tag) → StandsWithAllRules k s past (made_by k.key past)
        → KeepsRecords k.key past kept → KeepsRecords k.key (e ∷ past) (with_record kept page (kept_of work)) }
    ensures back { (k : Making) (s t : State) (past : List Entry) (records : List Made) (e : Entry) (f : Frame) (start : Start)
        (page : Page)
        (kept : Records) → StandsWithAllRules k t (e ∷ past) records → IsDoneBack e.event f → open_start past f.0 ≡ Some start
        → start.loads ≡ Some page → KeepsRecords k.key past kept → KeepsRecords k.key (e ∷ past) (without_record kept page) }
    ensures stays { (key : List ℕ) (past : List Entry) (e : Entry) (kept : Records) → is_done_ewb e.event ≡ false
        → KeepsRecords key past kept → KeepsRecords key (e ∷ past) kept }
{}

/// The records that a machine stands for are those that its entries made. So it goes on with those that they made then, whatever the entry
/// gave: a done `ewb` the record with which the page went out, and every other entry none.
pub fn records_are_those_made()
    ensures own { (k : Making) (s : State) (past : List Entry) (records : List Made) → StandsWithAllRules k s past records
        → StandsWithAllRules k s past (made_by k.key past) }
    ensures goes_on { (k : Making) (s t : State) (past : List Entry) (e : Entry) (more : List Made) → GoesOnWith s e more t
        → StandsWithAllRules k s past (made_by k.key past) → StandsWithAllRules k t (e ∷ past) (made_by k.key (e ∷ past)) }
    ensures left { (k : Making) (s t : State) (past : List Entry) (e : Entry) (f : Frame) (work : UnsealedWork) → HasLeft s e f work t
        → StandsWithAllRules k s past (made_by k.key past)
        → made_by k.key (e ∷ past) ≡ made_by k.key past ++ made_with work.version work.rec ∷ [] }
    ensures others { (key : List ℕ) (past : List Entry) (e : Entry) → is_done_ewb e.event ≡ false
        → made_by key (e ∷ past) ≡ made_by key past }
{}

/// An entry of another instruction than `ewb`, or of none, tells of no `ewb` that was done.
pub fn other_entries_put_nothing_out()
    ensures asked { (event : Event) (action : Action) → action_of event ≡ Some action → is_ewb action ≡ false
        → is_done_ewb event ≡ false }
    ensures none { (event : Event) → action_of event ≡ None → is_done_ewb event ≡ false }
{}
