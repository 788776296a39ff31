//! Sealed records and their bytes.

use crate::same::are_same;
use sgx_types::record::{Header, Record, RecordFault};
use std::alloc::{AllocError, Global};
use std::process::Abort;
use std::test::Fail;

// Page 2 of the first enclave, whose base is 0x10000; it may be read and written.
fn record(alloc: Global) -> Result<Record, AllocError> {
    Ok(Record {
        header: Header {
            enclave: 1,
            address: 0x12000,
            flags: 0x203,
        },
        cipher: vec![in alloc; 0xa5; 4096]?,
        tag: [7; 32],
    })
}

#[test]
fn a_record_prints_its_fields(rt: HostRuntime) -> Result<(), Fail> {
    let record = record(rt.alloc())?;
    let text = format!(in rt.alloc(); "{record:?}")?;
    assert!(rt;
        text.starts_with(
            "Record { header: Header { enclave: 1, address: 73728, flags: 515 }, cipher: [165, 165, "
        )
    );
    assert!(rt; text.ends_with("7, 7] }"));
    Ok(())
}

#[test]
fn a_record_is_its_bytes(rt: HostRuntime) -> Result<(), Fail> {
    let bytes = record(rt.alloc())?.to_bytes(rt.alloc())?;
    let header = [
        1, 0, 0, 0, 0, 0, 0, 0, 0, 0x20, 1, 0, 0, 0, 0, 0, 3, 2, 0, 0, 0, 0, 0, 0,
    ];
    are_same(&rt, bytes.len(), 4152);
    assert!(rt; bytes.starts_with(&header));
    assert!(rt; bytes[24..4120].iter().all(|byte| *byte == 0xa5));
    assert!(rt; bytes[4120..].iter().all(|byte| *byte == 7));
    let same = Record::from_bytes(rt.alloc(), &bytes)?;
    are_same(&rt, same.header, record(rt.alloc())?.header);
    assert!(rt; same.cipher.iter().all(|byte| *byte == 0xa5));
    are_same(&rt, same.tag, [7; 32]);
    Ok(())
}

fn fault_of(rt: &impl Abort, alloc: Global, bytes: &[u8]) -> RecordFault {
    Record::from_bytes(alloc, bytes)
        .map(|_| ())
        .expect_err(rt, "these bytes are no record")
}

#[test]
fn another_number_of_bytes_is_no_record(rt: HostRuntime) -> Result<(), Fail> {
    let bytes = [0; 4153];
    for got in [0, 24, 4151, 4153] {
        let fault = fault_of(&rt, rt.alloc(), &bytes[..got]);
        are_same(&rt, fault, RecordFault::BadLength { got });
    }
    Ok(())
}
