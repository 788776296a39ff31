//! Laws of the definitions. Each is the contract of a function without arguments, and so holds for every list of entries.

ghost use Rattle.std.specs.Prelude.{◌≡◌, ℕ, List};
ghost use Rattle.sgx_rules.specs.declared.entries.Entry.{Entry};
ghost use Rattle.sgx_types.specs.declared.names.Page.{Page};
ghost use Rattle.sgx_rules.specs.Frames.{content};
ghost use Rattle.trace_places.specs.Laws.{IsWhere, LoadsAdded, tenant_by};
ghost use Rattle.trace_places.specs.Places.{tenant, place_of};

/// Whatever was done, a page is at the least frame that has it, else at the least that awaits it, else sealed under the last version
/// with which it went out, else nowhere.
#[tactic(auto, using(crate::proofs::FoldLaws::is_place))]
pub fn places_are_least()
    ensures { (past : List Entry) (g : Page) → IsWhere past g (place_of past g) }
{}

/// Where each load that ended brought a page that was added, as in each trace that keeps the machine's rules, a frame has or awaits
/// the page that these rules say it holds.
#[tactic(auto, using(crate::proofs::ContentLaws::tenant_of_content))]
pub fn tenants_are_contents()
    ensures { (past : List Entry) (n : ℕ) → LoadsAdded past → tenant past n ≡ tenant_by (content past n) }
{}
