//! Laws of the definitions. Each is the contract of a function without arguments, and so holds for every list of entries.

ghost use Rattle.std.specs.Prelude.{◌≡◌, ◌⊎◌, Bool, false, List};
ghost use Rattle.sgx_types.specs.declared.names.Actor.TheVariants as actors;
ghost use Rattle.sgx_rules.specs.declared.entries.Entry.{Entry};
ghost use Rattle.sgx_rules.specs.declared.entries.Event.{Event};
ghost use Rattle.sgx_types.specs.Making.{Making};
ghost use Rattle.sgx_rules.specs.Rules.{Along, RefusalRule};
ghost use Rattle.job_grammar.specs.Jobs.{JobView};
ghost use Rattle.driver_rules.specs.Ages.{AgeRule, AgeRuleBy, KeptAgeRule, KickRule};
ghost use Rattle.driver_rules.specs.inner.Decided.{is_ended, keeps_age_by, keeps_kick, keeps_script, TellsIf};
ghost use Rattle.driver_rules.specs.declared.waits.Why.{Why};
ghost use Rattle.driver_rules.specs.Dues.{IsNext, Waits};
ghost use Rattle.driver_rules.specs.inner.Reclaims.{going_due, is_refused};
ghost use Rattle.driver_rules.specs.Scripts.{IsEnded, ScriptRule};
ghost use Rattle.driver_rules.specs.inner.Slotted.{has_occupied, SlotRule};
ghost use Rattle.driver_rules.specs.Spares.{Outs, outs, outs_kept};

/// The tests of the rules Script, Age and Kick, and of the end, pass exactly where these hold.
pub fn tests_tell_rules()
    ensures script { (j : JobView) (past : List Entry) (e : Entry) → TellsIf (keeps_script j past e) (ScriptRule j past e) }
    ensures age { (j : JobView) (past : List Entry) (out : Outs) (e : Entry)
        → TellsIf (keeps_age_by j past out e) (AgeRuleBy j past out e) }
    ensures kick { (j : JobView) (past : List Entry) (e : Entry) → TellsIf (keeps_kick j past e) (KickRule j past e) }
    ensures ended { (j : JobView) (past : List Entry) → TellsIf (is_ended j past) (IsEnded j past) }
{}

/// What is due to the reclaimer and the rules Age and Kick agree, whatever is told of which slots are out: an entry that keeps both is what
/// the page that is due or its pass gives next, unless that is to wait, and no trace shows a wait; and an entry that is given next and
/// that is not refused keeps both.
pub fn dues_agree_with_rules()
    ensures due { (j : JobView) (past : List Entry) (out : Outs) (ev : Event)
        → AgeRuleBy j past out (record { actor = actors.Reclaimer; event = ev })
        → KickRule j past (record { actor = actors.Reclaimer; event = ev })
        → (is_kicked : Bool) × (IsNext (going_due j past out is_kicked) ev
        ⊎ (reason : Why) × (going_due j past out is_kicked ≡ Waits reason)) }
    ensures rules { (j : JobView) (past : List Entry) (out : Outs) (is_kicked : Bool) (ev : Event) → is_refused ev ≡ false
        → IsNext (going_due j past out is_kicked) ev
        → AgeRuleBy j past out (record { actor = actors.Reclaimer; event = ev }) × KickRule j past
        (record { actor = actors.Reclaimer; event = ev }) }
{}

/// Where each refusal is its row's, as it is where no record was forged, no try of a driver that names only slots which it keeps as free
/// finds its slot in use. Where none did, the slots that it keeps as out are those that are out by the entries, and what it keeps of the
/// rule Age is the rule.
pub fn kept_slots_are_out()
    ensures none { (k : Making) (j : JobView) (past : List Entry) → Along (RefusalRule k) past → Along (SlotRule j) past
        → has_occupied past ≡ false }
    ensures outs { (j : JobView) (past : List Entry) → has_occupied past ≡ false → outs_kept j past ≡ outs j past }
    ensures ages { (j : JobView) (past : List Entry) → has_occupied past ≡ false → Along (KeptAgeRule j) past → Along (AgeRule j) past }
{}
