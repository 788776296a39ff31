//! What an enclave counts of its pages in frames.

ghost use Rattle.std.specs.Prelude.{◌≡◌, ◌≢◌, ◌-◌, ◌<◌, ◌^◌, true, IfSome};
ghost use Rattle.sgx_types.specs.Pages.{is_own_page};
ghost use Rattle.secs_state.specs.inner.Table.{enclave_at};
ghost use Rattle.evict_reload.specs.inner.Effects.{with_child, with_page_of, without_child, without_page_of};
ghost use Rattle.evict_reload.specs.inner.Sights.{is_kind_own};

use epcm_entry::epc::Epc;
use secs_state::table::SecsTable;
use sgx_types::names::{Kind, Page, SECS_NUMBER};

/// Counts a TCS or REG page that comes into a frame, or starts to. A SECS or version array page is no enclave's.
pub fn child_comes(secs: &mut SecsTable, page: Page)
    requires { IfSome (enclave_at secs.old page.enclave) (λ x. x.children < 2 ^ 32 - 1) }
    ensures { secs.new ≡ with_child secs.old page }
{
    if page.enclave == 0 || page.number == SECS_NUMBER {
        return;
    }
    if let Some(enclave) = secs.get_mut(page.enclave) {
        enclave.child_added();
    }
}

/// Counts a TCS or REG page that went out, or finds the frame that holds an enclave's SECS still, where one did not go alone.
#[tactic(auto, using(crate::proofs::CountLaws::named_frame))]
pub fn page_goes(epc: &Epc, secs: &mut SecsTable, page: Page, kind: Kind)
    requires { is_kind_own kind ≡ true → IfSome (enclave_at secs.old page.enclave) (λ x. x.children ≢ 0) }
    ensures { secs.new ≡ without_page_of epc.now secs.old page kind }
{
    let Some(enclave) = secs.get_mut(page.enclave) else {
        return;
    };
    match kind {
        Kind::Va => {}
        Kind::Secs => enclave.set_frame(epc.secs_frame(page.enclave)),
        Kind::Tcs | Kind::Reg => enclave.child_left(),
    }
}

/// Counts a TCS or REG page no more whose load was refused.
pub fn child_fails(secs: &mut SecsTable, page: Page)
    requires { is_own_page page ≡ true → IfSome (enclave_at secs.old page.enclave) (λ x. x.children ≢ 0) }
    ensures { secs.new ≡ without_child secs.old page }
{
    if page.enclave == 0 || page.number == SECS_NUMBER {
        return;
    }
    if let Some(enclave) = secs.get_mut(page.enclave) {
        enclave.child_left();
    }
}

/// Finds the frame that holds an enclave's SECS once one has come into a frame. A TCS or REG page counts since its load started.
#[tactic(auto, using(crate::proofs::CountLaws::named_frame))]
pub fn page_comes(epc: &Epc, secs: &mut SecsTable, page: Page, kind: Kind)
    ensures { secs.new ≡ with_page_of epc.now secs.old page kind }
{
    let Some(enclave) = secs.get_mut(page.enclave) else {
        return;
    };
    if kind == Kind::Secs {
        enclave.set_frame(epc.secs_frame(page.enclave));
    }
}
