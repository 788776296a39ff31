//! What an enclave and its pages may be: the enclave's range and number, and a page's kind, permissions, first bytes and place.

ghost use Rattle.std.specs.Prelude.{◌≡◌};
ghost use Rattle.sgx_types.specs.Lawful.{is_addable, is_enclave, is_lawful, is_lawful_perm, is_within};

use crate::names::{Kind, PAGE_BYTES, Perm};

/// The bytes with which a page is added: every 8-byte word alike, or a thread control structure whose first state
/// save frame is at page `ossa` and which has `nssa` of them.
#[derive(Clone, Copy, Debug, PartialEq, Eq)]
pub enum PageInit {
    Words(u64),
    Tcs { ossa: u32, nssa: u32 },
}

/// Whether an enclave may have this number: 1 to 8. This is the project's own.
pub fn is_enclave(enclave: u16) -> bool
    ensures { result ≡ is_enclave enclave }
{
    1 <= enclave && enclave <= 8
}

/// Whether an enclave may have this range in bytes: the size is a power of two from 2 pages to 4096 pages, and the base is
/// a multiple of it (Intel SDM volume 3D, ECREATE). The upper bound is this project's own.
pub fn is_lawful(base: u64, size: u64) -> bool
    ensures { result ≡ is_lawful base size }
{
    size.is_power_of_two()
        && 2 * PAGE_BYTES <= size
        && size <= 4096 * PAGE_BYTES
        && base % size == 0
}

/// Whether a page of this kind can be added, and with these bytes: a TCS with its fields, or a REG page with words.
pub fn is_addable(kind: Kind, init: PageInit) -> bool
    ensures { result ≡ is_addable kind init }
{
    matches!(
        (kind, init),
        (Kind::Tcs, PageInit::Tcs { .. }) | (Kind::Reg, PageInit::Words(_))
    )
}

/// Whether a page of this kind may have these permissions: W never without R, and a TCS has none (Intel SDM volume 3D,
/// EADD).
pub fn is_lawful_perm(kind: Kind, perm: Perm) -> bool
    ensures { result ≡ is_lawful_perm kind perm }
{
    match kind {
        Kind::Tcs => !perm.r && !perm.w && !perm.x,
        _ => perm.r || !perm.w,
    }
}

/// Whether a page lies in an enclave of `size` bytes, and with a TCS page its state save frames, of which there is one.
pub fn is_within(size: u64, number: u32, init: PageInit) -> bool
    ensures { result ≡ is_within size number init }
{
    let pages = size / PAGE_BYTES;
    match init {
        PageInit::Words(_) => u64::from(number) < pages,
        PageInit::Tcs { ossa, nssa } => {
            u64::from(number) < pages && u64::from(ossa) + u64::from(nssa) <= pages && nssa != 0
        }
    }
}
