//! The layouts of the manual that this machine reads: SECINFO and a TCS page.

ghost use Rattle.std.specs.Prelude.{◌≡◌, ◌+◌, ◌*◌, ◌≤◌, length};
ghost use Rattle.sgx_types.specs.Layouts.{flags_of, number_of};
ghost use Rattle.sgx_types.specs.inner.Layouts.{int_at, long_at, secinfo_in, tcs_in};

use crate::names::{Kind, Perm};

/// The fields of a TCS page that this machine reads (Intel SDM volume 3D, TCS): OSSA as a byte offset in the enclave,
/// and how many state save frames are in use and there are.
#[derive(Clone, Copy, Debug, PartialEq, Eq)]
pub struct TcsFields {
    pub ossa: u64,
    pub cssa: u32,
    pub nssa: u32,
}

/// There are more bytes, or fewer, than a layout has.
#[derive(Clone, Copy, Debug, PartialEq, Eq)]
pub struct BadLength {
    /// How many there are.
    pub got: usize,
}

/// SECINFO.FLAGS in the 64 bytes of a SECINFO, where it stands first, low byte first (Intel SDM volume 3D, SECINFO).
/// Another number of bytes is refused.
pub fn read_secinfo(bytes: &[u8]) -> Result<u64, BadLength>
    ensures { result ≡ secinfo_in bytes.now }
{
    let got = bytes.len();
    if got != 64 {
        return Err(BadLength { got });
    }
    Ok(long_at(bytes, 0))
}

/// The fields of a TCS page in its 4096 bytes: OSSA at byte 16, CSSA at 24 and NSSA at 28, low byte first (Intel SDM
/// volume 3D, TCS). Another number of bytes is refused.
pub fn read_tcs(bytes: &[u8]) -> Result<TcsFields, BadLength>
    ensures { result ≡ tcs_in bytes.now }
{
    let got = bytes.len();
    if got != 4096 {
        return Err(BadLength { got });
    }
    Ok(TcsFields {
        ossa: long_at(bytes, 2),
        cssa: int_at(bytes, 6),
        nssa: int_at(bytes, 7),
    })
}

/// The number that 8 bytes make, the low byte first, by how many such numbers stand before it.
pub fn long_at(bytes: &[u8], index: usize) -> u64
    requires { 8 * (index + 1) ≤ length bytes.now }
    ensures { result ≡ long_at bytes.now (8 * index) }
{
    u64::from_le_bytes(bytes.as_chunks().0[index])
}

// The number that 4 bytes make.
fn int_at(bytes: &[u8], index: usize) -> u32
    requires { 4 * (index + 1) ≤ length bytes.now }
    ensures { result ≡ int_at bytes.now (4 * index) }
{
    u32::from_le_bytes(bytes.as_chunks().0[index])
}

/// SECINFO.FLAGS of a page (Intel SDM volume 3D, SECINFO.FLAGS): R in bit 0, W in bit 1, X in bit 2, and the page
/// type in bits 8 to 15.
pub fn flags(kind: Kind, perm: Perm) -> u64
    ensures { result ≡ flags_of kind perm }
{
    let r = u64::from(perm.r);
    let w = 2 * u64::from(perm.w);
    let x = 4 * u64::from(perm.x);
    r + w + x + 256 * kind_number(kind)
}

fn kind_number(kind: Kind) -> u64
    ensures { result ≡ number_of kind }
{
    match kind {
        Kind::Secs => 0,
        Kind::Tcs => 1,
        Kind::Reg => 2,
        Kind::Va => 3,
    }
}
