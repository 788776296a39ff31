//! The EPCM entry of a frame, and what the rows ask of one.

ghost use Rattle.std.specs.Prelude.{◌≡◌, ◌||◌, is_some};
ghost use Rattle.sgx_types.specs.Pages.{page_at};
ghost use Rattle.sgx_rules.specs.Frames.{is_page, is_secs_of};
ghost use Rattle.sgx_rules.specs.Frames.{is_free as holds_nothing};
ghost use Rattle.sgx_rules.specs.Table.{is_loading, is_reg, is_secs, is_tcs, is_va, perm_in};
ghost use Rattle.sgx_rules.specs.Table.{is_valid as holds_something};
ghost use Rattle.epcm_entry.specs.inner.EntryView.{is_free, is_busy, is_valid, block_of, goes_out, outgoing, with_block};
ghost use Rattle.epcm_entry.specs.inner.Sights.{held};

use sgx_types::names::{Kind, Page, Perm};

/// The EPCM entry of a frame (Intel SDM volume 3D, EPCM): it is free, it waits for a page that is being loaded, or it holds a page. A page
/// that is blocked has the epoch of its block. A page that is being written out is sealing. The states Loading and
/// sealing are this project's own.
#[derive(Clone, Copy, Debug, PartialEq, Eq)]
pub enum EntryView {
    Free,
    Loading {
        page: Page,
    },
    Valid {
        page: Page,
        kind: Kind,
        perm: Perm,
        blocked: Option<u64>,
        sealing: bool,
    },
}

impl EntryView {
    /// A free frame holds nothing and is not being loaded.
    pub fn is_free(self) -> bool
        ensures value { result ≡ is_free self }
        ensures seen { result ≡ holds_nothing (held self) }
    {
        matches!(self, EntryView::Free)
    }

    /// A frame is busy while its page is being loaded or written out.
    pub fn is_busy(self) -> bool
        ensures value { result ≡ is_busy self }
        ensures seen { result ≡ (goes_out self || is_loading (held self)) }
    {
        matches!(
            self,
            EntryView::Loading { .. } | EntryView::Valid { sealing: true, .. }
        )
    }

    /// A frame is valid where it holds something and is not being loaded.
    pub fn is_valid(self) -> bool
        ensures value { result ≡ is_valid self }
        ensures seen { result ≡ holds_something (held self) }
    {
        matches!(self, EntryView::Valid { .. })
    }

    /// Whether the page was blocked since it came into the frame.
    pub fn is_blocked(self) -> bool
        ensures { result ≡ is_some (block_of self) }
    {
        matches!(
            self,
            EntryView::Valid {
                blocked: Some(_),
                ..
            }
        )
    }

    /// Whether the frame holds the TCS or REG page with this number of an enclave. A number past 32 bits is of no page.
    pub fn holds(self, enclave: u16, number: u64) -> bool
        ensures { result ≡ is_page (held self) (page_at enclave number) }
    {
        match self {
            EntryView::Valid {
                page,
                kind: Kind::Tcs | Kind::Reg,
                ..
            } => page.enclave == enclave && u64::from(page.number) == number,
            _ => false,
        }
    }

    pub fn is_tcs(self) -> bool
        ensures { result ≡ is_tcs (held self) }
    {
        matches!(
            self,
            EntryView::Valid {
                kind: Kind::Tcs,
                ..
            }
        )
    }

    pub fn is_reg(self) -> bool
        ensures { result ≡ is_reg (held self) }
    {
        matches!(
            self,
            EntryView::Valid {
                kind: Kind::Reg,
                ..
            }
        )
    }

    /// Whether the frame holds the SECS of this enclave.
    pub fn is_secs_of(self, enclave: u16) -> bool
        ensures { result ≡ is_secs_of (held self) enclave }
    {
        match self {
            EntryView::Valid {
                page,
                kind: Kind::Secs,
                ..
            } => page.enclave == enclave,
            _ => false,
        }
    }

    pub fn is_secs(self) -> bool
        ensures { result ≡ is_secs (held self) }
    {
        matches!(
            self,
            EntryView::Valid {
                kind: Kind::Secs,
                ..
            }
        )
    }

    pub fn is_va(self) -> bool
        ensures { result ≡ is_va (held self) }
    {
        matches!(self, EntryView::Valid { kind: Kind::Va, .. })
    }

    /// The permissions of the TCS or REG page in the frame.
    pub fn perm(self) -> Option<Perm>
        ensures { result ≡ perm_in (held self) }
    {
        match self {
            EntryView::Valid {
                kind: Kind::Tcs | Kind::Reg,
                perm,
                ..
            } => Some(perm),
            _ => None,
        }
    }

    // The same page, sealing.
    pub(crate) fn outgoing(self) -> EntryView
        ensures { result ≡ outgoing self }
    {
        match self {
            EntryView::Valid {
                page,
                kind,
                perm,
                blocked,
                ..
            } => EntryView::Valid {
                page,
                kind,
                perm,
                blocked,
                sealing: true,
            },
            other => other,
        }
    }

    // The same page, blocked at an epoch.
    pub(crate) fn with_block(self, epoch: u64) -> EntryView
        ensures { result ≡ with_block self epoch }
    {
        match self {
            EntryView::Valid {
                page,
                kind,
                perm,
                sealing,
                ..
            } => EntryView::Valid {
                page,
                kind,
                perm,
                blocked: Some(epoch),
                sealing,
            },
            other => other,
        }
    }
}
