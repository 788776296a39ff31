//! Measurements of enclaves, as sha256sum gives them.

use measure_log::measure::Measure;
use sha2::{Digest, Sha256};

// The digests are those of sha256sum over the same bytes.
const CREATED: [u8; 32] = [
    0x03, 0xc7, 0x99, 0x54, 0x89, 0x5f, 0xe9, 0x8c, 0x9b, 0xd1, 0xb8, 0x6e, 0xbe, 0x8b, 0x7b, 0x17,
    0x48, 0xb6, 0x5b, 0xfc, 0x30, 0x08, 0x5d, 0xd3, 0x87, 0xcb, 0x43, 0x51, 0xe7, 0xde, 0x51, 0xe2,
];

const BUILT: [u8; 32] = [
    0x00, 0x6d, 0x51, 0x8b, 0xbd, 0x88, 0x25, 0xda, 0x4a, 0x0e, 0x7d, 0x35, 0xd4, 0x18, 0xaa, 0xf1,
    0x6b, 0x77, 0x49, 0xc6, 0x28, 0x54, 0xa6, 0xf4, 0x0d, 0x8d, 0x58, 0xdb, 0x41, 0x5a, 0x8c, 0x31,
];

const EXTENDED: [u8; 32] = [
    0x7d, 0x9d, 0x61, 0x36, 0x97, 0x38, 0x59, 0xf7, 0x97, 0x97, 0xa0, 0xf0, 0x29, 0x0f, 0x02, 0x0e,
    0x70, 0x2e, 0x48, 0x0c, 0x0a, 0x57, 0x20, 0xf5, 0xa5, 0x2c, 0x59, 0x5e, 0xb7, 0x40, 0x3f, 0xbc,
];

// The blocks of an enclave of 65536 bytes, with a TCS at page 0 and writable pages 1 and 2, written out.
const ECREATE: [u8; 20] = *b"ECREATE\0\x01\0\0\0\0\0\x01\0\0\0\0\0";

const EADD_TCS: [u8; 24] = *b"EADD\0\0\0\0\0\0\0\0\0\0\0\0\0\x01\0\0\0\0\0\0";

const EADD_ONE: [u8; 24] = *b"EADD\0\0\0\0\0\x10\0\0\0\0\0\0\x03\x02\0\0\0\0\0\0";

const EADD_TWO: [u8; 24] = *b"EADD\0\0\0\0\0\x20\0\0\0\0\0\0\x03\x02\0\0\0\0\0\0";

const EEXTEND: [u8; 16] = *b"EEXTEND\0\0\x21\0\0\0\0\0\0";

const EEXTEND_LAST: [u8; 16] = *b"EEXTEND\0\0\x2f\0\0\0\0\0\0";

const ZEROS: [u8; 48] = [0; 48];

// SHA-256 of the first parts.
fn digest_of(parts: &[&[u8]], count: usize) -> [u8; 32] {
    let mut hasher = Sha256::new();
    for part in parts.iter().take(count) {
        hasher.update(*part);
    }
    hasher.finalize()
}

// 32 words 7.
fn sevens() -> [u8; 256] {
    let mut chunk = [0; 256];
    for word in 0..32 {
        chunk[8 * word] = 7;
    }
    chunk
}

fn rising() -> [u8; 256] {
    let mut chunk = [0; 256];
    for index in 0..=255u8 {
        chunk[usize::from(index)] = index;
    }
    chunk
}

// The measurements behind the enclave's start, behind its pages, and behind two chunks of the last.
fn measured(first: &[u8; 256], last: &[u8; 256]) -> [[u8; 32]; 3] {
    let mut measure = Measure::create(0x1_0000);
    let created = measure.finish();
    measure.add(0, 0x100);
    measure.add(0x1000, 0x203);
    measure.add(0x2000, 0x203);
    let built = measure.finish();
    measure.extend(0x2100, first);
    measure.extend(0x2f00, last);
    [created, built, measure.finish()]
}

#[test]
fn measures_logs_as_sha256sum(rt: HostRuntime) {
    let first = sevens();
    let last = rising();
    let log: [&[u8]; 14] = [
        &ECREATE,
        &ZEROS[..44],
        &EADD_TCS,
        &ZEROS[..40],
        &EADD_ONE,
        &ZEROS[..40],
        &EADD_TWO,
        &ZEROS[..40],
        &EEXTEND,
        &ZEROS,
        &first,
        &EEXTEND_LAST,
        &ZEROS,
        &last,
    ];
    let [created, built, extended] = measured(&first, &last);
    for (parts, made, want) in [
        (2, created, CREATED),
        (8, built, BUILT),
        (14, extended, EXTENDED),
    ] {
        assert_eq!(rt; [digest_of(&log, parts), made], [want; 2], "{parts} parts");
    }
}
