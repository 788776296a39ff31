//! Laws of the definitions. Each is the contract of a function without arguments, and so holds for every list of entries.

ghost use Rattle.std.specs.Prelude.{ℕ, ◌≡◌, ◌≤◌, ◌<◌, List, ◌∷◌, Some};
ghost use Rattle.sgx_rules.specs.declared.entries.Entry.{Entry};
ghost use Rattle.sgx_rules.specs.Rules.{Along, Fits, RefusalRule};
ghost use Rattle.sgx_rules.specs.inner.Rules.{LoadsAwayRule};
ghost use Rattle.sgx_rules.specs.Slots.{version_in};
ghost use Rattle.sgx_rules.specs.inner.Starts.{LoadsAreApart};
ghost use Rattle.sgx_types.specs.declared.names.Page.{Page};
ghost use Rattle.sgx_types.specs.declared.names.VaSlot.{VaSlot};
ghost use Rattle.machine_copies.specs.inner.Away.{BytesRest};
ghost use Rattle.machine_copies.specs.inner.Copies.{InSlot, OneLiveCopy, copy};
ghost use Rattle.sgx_types.specs.Making.{Making};
ghost use Rattle.machine_copies.specs.inner.Once.{DrawnOnce, KeepsMoves, MadeOnce, StartsApart};
ghost use Rattle.seal_record.specs.Sealing.{SealedRule};

/// Where the rules are kept, each version is drawn once, and each open start has its slot for itself.
pub fn versions_are_drawn_once()
    ensures drawn { (k : Making) (past : List Entry) → KeepsMoves k past → DrawnOnce k.first_version past }
    ensures apart { (k : Making) (past : List Entry) → KeepsMoves k past → StartsApart k.frames past }
{}

/// Where the rules are kept, each page that there is has exactly one live copy: one frame, or one slot with its version. A slot counts
/// wherever its version array page is.
pub fn one_live_copy()
    ensures { (k : Making) (past : List Entry) → 1 ≤ k.first_version → KeepsMoves k past → OneLiveCopy past }
{}

/// Where the rules are kept, each record that was made is one page's, and no two have one version.
pub fn records_are_made_once()
    ensures { (k : Making) (key : List ℕ) (past : List Entry) → KeepsMoves k past → Along (SealedRule key) past → MadeOnce key past }
{}

/// Where the rules are kept, a version that stands in a slot for a page is above 0, and no two slots have one version.
pub fn versions_stand_in_one_slot()
    ensures above { (k : Making) (past : List Entry) → 1 ≤ k.first_version → KeepsMoves k past → (slot : VaSlot) (v : ℕ) (g : Page)
        → copy past g ≡ Some (InSlot slot v) → 1 ≤ v }
    ensures apart { (k : Making) (past : List Entry) → 1 ≤ k.first_version → KeepsMoves k past → (one other : VaSlot)
        → 0 < version_in past one → version_in past one ≡ version_in past other → one ≡ other }
{}

/// Where an instruction is done exactly where its row allows it, and each load that starts is of a page that no frame holds and no
/// other load brings, the entries fit: the frames that are named are of the EPC, what takes a frame takes a free one, and no page
/// stands in two frames. No page is loaded that stands in one either, and none twice.
pub fn loads_of_pages_away_fit()
    ensures fits { (k : Making) (past : List Entry) → Along (RefusalRule k) past → Along LoadsAwayRule past → Fits k.frames past }
    ensures apart { (k : Making) (past : List Entry) → Along (RefusalRule k) past → Along LoadsAwayRule past → LoadsAreApart past }
{}

/// While a SECS or a version array page is out, it has the bytes with which it went: no instruction is done that would change them.
pub fn bytes_rest_while_away()
    ensures { (k : Making) (past : List Entry) (e : Entry) → 1 ≤ k.first_version → KeepsMoves k (e ∷ past) → BytesRest past e }
{}
