//! SECINFO and TCS pages, as the manual lays them out.

use crate::same::are_same;
use sgx_types::layouts::{BadLength, TcsFields, flags, read_secinfo, read_tcs};
use sgx_types::names::{Kind, Perm};
use std::test::Fail;

fn perm(r: bool, w: bool, x: bool) -> Perm {
    Perm { r, w, x }
}

#[test]
fn flags_are_the_manuals(rt: HostRuntime) {
    let none = perm(false, false, false);
    let rows = [
        (Kind::Secs, none, 0x0000),
        (Kind::Tcs, none, 0x0100),
        (Kind::Reg, perm(true, false, false), 0x0201),
        (Kind::Reg, perm(true, true, false), 0x0203),
        (Kind::Reg, perm(true, false, true), 0x0205),
        (Kind::Reg, perm(true, true, true), 0x0207),
        (Kind::Va, none, 0x0300),
    ];
    for (kind, perm, expected) in rows {
        assert_eq!(rt; flags(kind, perm), expected, "{kind:?} {perm:?}");
    }
}

#[test]
fn flags_stand_first_in_secinfo(rt: HostRuntime) {
    let mut info = [0xff; 65];
    info[..8].copy_from_slice(&[3, 2, 0, 0, 0, 0, 0, 0x80]);
    are_same(&rt, read_secinfo(&info[..64]), Ok(0x8000_0000_0000_0203));
    for got in [0, 63, 65] {
        are_same(&rt, read_secinfo(&info[..got]), Err(BadLength { got }));
    }
}

fn tcs_page() -> [u8; 4096] {
    let mut page = [0xff; 4096];
    page[16..24].copy_from_slice(&[0, 0x30, 1, 0, 0, 0, 0, 2]);
    page[24..28].copy_from_slice(&[1, 0, 0, 4]);
    page[28..32].copy_from_slice(&[16, 0, 5, 0]);
    page
}

#[test]
fn a_tcs_page_has_its_fields(rt: HostRuntime) {
    let page = tcs_page();
    let fields = TcsFields {
        ossa: 0x0200_0000_0001_3000,
        cssa: 0x0400_0001,
        nssa: 0x0005_0010,
    };
    are_same(&rt, read_tcs(&page), Ok(fields));
    are_same(&rt, read_tcs(&page[1..]), Err(BadLength { got: 4095 }));
    are_same(&rt, read_tcs(&[0; 4097]), Err(BadLength { got: 4097 }));
    are_same(&rt, read_tcs(&[]), Err(BadLength { got: 0 }));
}

#[test]
fn the_fields_of_a_tcs_print(rt: HostRuntime) -> Result<(), Fail> {
    let fields = TcsFields {
        ossa: 0x1000,
        cssa: 0,
        nssa: 1,
    };
    let text = format!(in rt.alloc(); "{fields:?}")?;
    assert_eq!(rt; text.as_str(), "TcsFields { ossa: 4096, cssa: 0, nssa: 1 }");
    Ok(())
}
