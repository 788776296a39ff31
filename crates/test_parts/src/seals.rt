//! Sealed pages, as the reference program seals them. That is a plain, unverified program with the same command line.

ghost use Rattle.std.specs.Prelude.{◌≡◌};

use seal_record::seal::{SealWork, SealedWork, seal};
use seal_record::unseal::{UnsealWork, UnsealedWork, unseal};
use sgx_types::names::Memory;
use sgx_types::record::{Header, Record};
use std::alloc::Global;
use std::process::Abort;
use std::test::Fail;

// Page 2 of the first enclave, whose base is 0x10000; it may be read and written.
const HEADER: Header = Header {
    enclave: 1,
    address: 0x12000,
    flags: 0x203,
};

// Python's hashlib: the record of 512 words 7 under the zero key and version 1.
const TAG: [u8; 32] = [
    0xb4, 0x0e, 0xef, 0x08, 0xeb, 0x5a, 0x9b, 0x63, 0x89, 0x4d, 0xe2, 0x50, 0xd9, 0x0f, 0xd8, 0x36,
    0x9e, 0x8a, 0x79, 0x85, 0x7a, 0x9d, 0x78, 0x52, 0x88, 0x56, 0x6a, 0x63, 0x67, 0x1d, 0x4a, 0x6f,
];

const FIRST_CIPHER: [u8; 32] = [
    0xd0, 0xe9, 0x31, 0x2a, 0xec, 0x58, 0xe7, 0xd2, 0x28, 0x7f, 0xf2, 0x1e, 0xcc, 0xa2, 0x82, 0xc5,
    0xb6, 0xcb, 0xd6, 0x47, 0x63, 0x52, 0x66, 0x52, 0xb2, 0x54, 0x3f, 0xa0, 0xb1, 0x03, 0xe7, 0x65,
];

const LAST_CIPHER: [u8; 32] = [
    0x9c, 0xde, 0x56, 0x5e, 0x50, 0xf8, 0x4b, 0x8f, 0xd8, 0xdb, 0xb1, 0x1f, 0x38, 0x5d, 0xf3, 0x5c,
    0x59, 0x42, 0x25, 0x22, 0x02, 0x59, 0x53, 0x22, 0x1d, 0x2f, 0x82, 0xab, 0xe5, 0xd2, 0x05, 0xc8,
];

// .. and the tag of the bytes (7 i + i / 256) mod 256 under the key 0, 1, .. 31.
const OTHER_TAG: [u8; 32] = [
    0xbc, 0x39, 0xa6, 0xc3, 0xe2, 0x1c, 0x0d, 0x95, 0x2a, 0x5a, 0xeb, 0xc2, 0x39, 0xc6, 0xc4, 0x25,
    0x85, 0xe3, 0x21, 0x6e, 0x46, 0xab, 0x78, 0xd2, 0xcb, 0x11, 0x73, 0xc3, 0x96, 0x0a, 0x84, 0xce,
];

const OTHER_HEADER: Header = Header {
    enclave: 8,
    address: 0x7fff_ffff_e000,
    flags: 0x205,
};

// What a machine does with a work: it sets each field, and copies a page in.
fn filled(
    mut work: SealWork,
    key: [u8; 32],
    version: u64,
    header: Header,
    page: &[u8; 4096],
) -> SealWork
    ensures key { result.key ≡ key }
    ensures version { result.version ≡ version }
    ensures header { result.header ≡ header }
    ensures plain { result.plain.items ≡ page.now }
{
    work.key = key;
    work.version = version;
    work.header = header;
    work.plain.copy_from_slice(page);
    work
}

// It seals anew in the buffers of a work that is done ..
fn to_be_sealed_again(work: SealedWork) -> SealWork
    ensures plain { result.plain.items ≡ work.plain.items }
    ensures header { result.header ≡ work.rec.header }
{
    let SealedWork {
        key,
        version,
        plain,
        rec,
    } = work;
    let Record { header, cipher, .. } = rec;
    SealWork {
        key,
        version,
        header,
        plain,
        space: cipher,
    }
}

// .. takes the record of one ..
fn record_of(work: SealedWork) -> Record
    ensures { result ≡ work.rec }
{
    work.rec
}

// .. and opens a record anew under its own key and version.
fn to_be_opened_again(work: UnsealedWork, key: [u8; 32], version: u64) -> UnsealWork
    ensures key { result.key ≡ key }
    ensures version { result.version ≡ version }
    ensures rec { result.rec ≡ work.rec }
{
    UnsealWork {
        key,
        version,
        rec: work.rec,
        space: work.plain,
    }
}

fn sevens() -> [u8; 4096] {
    let mut page = [0; 4096];
    for word in 0..512 {
        page[8 * word] = 7;
    }
    page
}

// The page of words 7, sealed under the zero key and version 1.
fn sealed_sevens(alloc: Global) -> Result<SealedWork, Memory> {
    let work = SealWork::new(alloc)?;
    Ok(seal(filled(work, [0; 32], 1, HEADER, &sevens())))
}

#[test]
fn a_page_is_sealed_as_python_does(rt: HostRuntime) -> Result<(), Fail> {
    let sealed = Box::new(rt.alloc(), sealed_sevens(rt.alloc())?)?;
    assert_eq!(rt; (sealed.rec.header, sealed.rec.tag), (HEADER, TAG));
    let starts = sealed.rec.cipher.starts_with(&FIRST_CIPHER);
    let ends = sealed.rec.cipher.ends_with(&LAST_CIPHER);
    let is_kept = sealed.plain.as_slice() == sevens().as_slice();
    assert_eq!(rt; [starts, ends, is_kept], [true; 3]);
    Ok(())
}

#[test]
fn a_used_work_seals_another_page(rt: HostRuntime) -> Result<(), Fail> {
    let mut page = [0; 4096];
    for index in 0..4096 {
        page[index] = ((7 * index + index / 256) % 256) as u8;
    }
    let mut key = [0; 32];
    for index in 0..32u8 {
        key[usize::from(index)] = index;
    }

    let used = seal(SealWork::new(rt.alloc())?);
    let work = filled(
        to_be_sealed_again(used),
        key,
        0x0102_0304_0506_0708,
        OTHER_HEADER,
        &page,
    );
    let sealed = seal(work);
    let tag = sealed.rec.tag;
    let again = seal(to_be_sealed_again(sealed));
    assert_eq!(rt; [tag, again.rec.tag], [OTHER_TAG; 2]);
    Ok(())
}

// How the record of the page of words 7 is opened twice, the first time under the zero key, and whether it fits each time.
struct Opening {
    // The first byte of its cipher.
    cipher: u8,

    first_version: u64,
    first_fits: bool,

    // The last byte of the second key, whose others are zeros.
    key: u8,
    version: u64,
    fits: bool,

    // What the bytes begin with then, where that is known.
    start: &'static [u8],
}

const OPENINGS: &[Opening] = &[
    // As it was sealed.
    Opening {
        cipher: 0xd0,
        first_version: 1,
        first_fits: true,
        key: 0,
        version: 1,
        fits: true,
        start: &[7, 0],
    },
    // A changed cipher.
    Opening {
        cipher: 0xd1,
        first_version: 0,
        first_fits: false,
        key: 0,
        version: 1,
        fits: false,
        start: &[6, 0],
    },
    // Another version, and then another key.
    Opening {
        cipher: 0xd0,
        first_version: 0,
        first_fits: false,
        key: 1,
        version: 1,
        fits: false,
        start: &[],
    },
];

// The page comes back exactly where its record fits.
fn shows(rt: &impl Abort, opened: &UnsealedWork, fits: bool) {
    let is_page = opened.plain.as_slice() == sevens().as_slice();
    let is_fit = opened.computed == opened.rec.tag;
    assert_eq!(rt; (is_page, is_fit, opened.rec.tag), (fits, fits, TAG));
}

fn opens(rt: &impl Abort, alloc: Global, opening: &Opening) -> Result<(), Fail> {
    let mut rec = record_of(sealed_sevens(alloc)?);
    rec.cipher[0] = opening.cipher;
    let mut work = UnsealWork::new(alloc, rec)?;
    work.version = opening.first_version;
    let opened = unseal(work);
    shows(rt, &opened, opening.first_fits);
    let mut key = [0; 32];
    key[31] = opening.key;
    let opened = unseal(to_be_opened_again(opened, key, opening.version));
    shows(rt, &opened, opening.fits);
    assert!(rt; opened.plain.starts_with(opening.start));
    Ok(())
}

#[test]
fn only_a_record_that_fits_comes_back(rt: HostRuntime) -> Result<(), Fail> {
    for opening in OPENINGS {
        opens(&rt, rt.alloc(), opening)?;
    }
    Ok(())
}
