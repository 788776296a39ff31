//! Names, as they are printed.

use sgx_types::names::{Cpu, Frame, Kind, Memory, Page, Perm, SlotAt};
use std::alloc::{AllocError, AllocFailed};
use std::test::Fail;

#[test]
fn refused_memory_has_one_name(rt: HostRuntime) -> Result<(), Fail> {
    let refused = Memory::from(AllocError);
    let given_back = Memory::from(AllocFailed { value: Frame(3) });
    let text = format!(in rt.alloc(); "{refused:?} {given_back:?}")?;
    assert_eq!(rt; text.as_str(), "Memory Memory");
    Ok(())
}

#[test]
fn names_print_as_they_are_written(rt: HostRuntime) -> Result<(), Fail> {
    let cpu = Cpu(15);
    let page = Page {
        enclave: 1,
        number: 2,
    };
    let slot = SlotAt {
        frame: Frame(3),
        index: 511,
    };
    let perm = Perm {
        r: true,
        w: true,
        x: false,
    };
    let text = format!(in rt.alloc(); "{cpu:?}, {page:?}, {slot:?}, {perm:?}, {:?}", Kind::Reg)?;
    assert_eq!(rt;
        text.as_str(),
        "Cpu(15), Page { enclave: 1, number: 2 }, SlotAt { frame: Frame(3), index: 511 }, Perm { r: true, w: true, x: false }, Reg"
    );
    Ok(())
}
