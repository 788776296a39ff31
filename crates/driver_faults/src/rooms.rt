//! Room for the work of a load.

use seal_record::unseal::UnsealWork;
use sgx_types::names::Memory;
use sgx_types::record::{Header, Record};
use std::alloc::Global;

/// A work over a record of zeros. It is made before the store is asked, so that nothing is refused behind that.
pub(crate) fn room(alloc: Global) -> Result<Box<UnsealWork>, Memory> {
    let header = Header {
        enclave: 0,
        address: 0,
        flags: 0,
    };
    let cipher = vec![in alloc; 0; 4096]?;
    let rec = Record {
        header,
        cipher,
        tag: [0; 32],
    };
    Ok(Box::new(alloc, UnsealWork::new(alloc, rec)?)?)
}
