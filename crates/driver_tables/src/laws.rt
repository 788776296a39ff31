//! That tables and entries begin together. A law is the contract of a function without arguments.

ghost use Rattle.std.specs.Prelude.{◌≡◌, ◌≤◌, ◌<◌, ◌+◌, ◌^◌, ℕ, true, false, [], List, length};
ghost use Rattle.driver_list.specs.inner.Holds.{is_held as is_held_by};
ghost use Rattle.driver_rules.specs.Holds.{is_held};
ghost use Rattle.driver_laws.specs.inner.Agrees.{first_kept, Keeping};
ghost use Rattle.driver_laws.specs.inner.Sound.{IsSound, is_absent};
ghost use Rattle.driver_list.specs.inner.Places.{IsPlaced};
ghost use Rattle.driver_rules.specs.inner.Slotted.{fixed_slot};
ghost use Rattle.driver_rules.specs.Places.{Away, place};
ghost use Rattle.driver_rules.specs.Targets.{slot_here};
ghost use Rattle.driver_rules.specs.inner.Targets.{target};
ghost use Rattle.driver_tables.specs.inner.Targets.{first_in, fixed_in, slot_here_in, target_in};
ghost use Rattle.sgx_types.specs.declared.names.VaSlot.{VaSlot};
ghost use Rattle.sgx_types.specs.Pages.{is_own_page, is_va_page, secs_page, va_page};
ghost use Rattle.driver_tables.specs.inner.Held.{ShowsHolds};
ghost use Rattle.sgx_rules.specs.declared.entries.Entry.{Entry};
ghost use Rattle.sgx_types.specs.declared.names.Page.{Page};
ghost use Rattle.driver_tables.specs.inner.Tables.{IsNew, ShowsTables};
ghost use Rattle.driver_tables.specs.declared.driver.Driver.{Driver};
ghost use Rattle.job_grammar.specs.Jobs.{JobView};
ghost use Rattle.job_grammar.specs.inner.Valid.{IsValid};

/// The tables of a valid job show that nothing was done before its first entry, whichever slots are kept.
pub fn tables_begin()
    ensures { (k : Keeping) (j : JobView) (d : Driver) → IsValid j → IsNew j d → ShowsTables k j d [] }
{}

/// Where the holds that are kept are those of the entries, a page is held by the one exactly where it is held by the other.
pub fn holds_are_shown()
    ensures { (j : JobView) (own : List (List Page)) (past : List Entry) (g : Page) → length j.scripts ≤ 16 → ShowsHolds j own past
        → is_held_by own g ≡ is_held j past g }
{}

/// Where the tables show the entries, they tell the page that is brought back first, a slot by its frame, the slots of SECSs and version
/// array pages, and the first slot behind these, as the rules do. What is asked of the tables for that has its place in them.
pub fn targets_are_shown()
    ensures target { (k : Keeping) (j : JobView) (d : Driver) (past : List Entry) (g : Page) (slot : VaSlot) → ShowsTables k j d past
        → IsSound past → place past g ≡ Away slot → target_in d g slot ≡ target past g }
    ensures secs { (k : Keeping) (j : JobView) (d : Driver) (past : List Entry) (g : Page) → ShowsTables k j d past → is_own_page g ≡ true
        → is_absent (place past g) ≡ false → IsPlaced d.states.counts (secs_page g.enclave) }
    ensures array { (k : Keeping) (j : JobView) (d : Driver) (past : List Entry) (g : Page) (slot : VaSlot) → ShowsTables k j d past
        → IsSound past → place past g ≡ Away slot → IsPlaced d.states.counts (va_page slot.va) }
    ensures slot { (k : Keeping) (j : JobView) (d : Driver) (past : List Entry) (slot : VaSlot) → ShowsTables k j d past
        → IsPlaced d.states.counts (va_page slot.va) → slot_here_in d slot ≡ slot_here past slot }
    ensures fixed { (k : Keeping) (j : JobView) (d : Driver) (past : List Entry) (g : Page) → ShowsTables k j d past
        → fixed_in d g ≡ fixed_slot j g }
    ensures few { (k : Keeping) (j : JobView) (d : Driver) (past : List Entry) (g : Page) → ShowsTables k j d past
        → IsPlaced d.states.counts g → is_va_page g ≡ true → d.enclaves + g.number < 2 ^ 16 }
    ensures first { (k : Keeping) (j : JobView) (d : Driver) (past : List Entry) (va : ℕ) → ShowsTables k j d past
        → first_in d va ≡ first_kept j va }
{}
