//! Version array pages that go out and come back, and the bytes of pages that are no TCS or REG pages.

ghost use Rattle.std.specs.Prelude.{◌≡◌, ◌<◌, true, false, length};
ghost use Rattle.version_array.specs.inner.Slots.{has_page};

use page_bytes::bytes::{put_secs, put_slots};
use sgx_types::names::{Frame, SlotAt};
use std::process::Abort;
use std::test::Fail;
use version_array::va_table::VaTable;

// Slot `index` has the version 0x0607080900000000 + `index`, whose low byte stands first.
fn versions() -> [u8; 4096] {
    let mut bytes = [0; 4096];
    for index in 0..512 {
        bytes[8 * index] = (index % 256) as u8;
        bytes[8 * index + 1] = (index / 256) as u8;
        bytes[8 * index + 4] = 9;
        bytes[8 * index + 5] = 8;
        bytes[8 * index + 6] = 7;
        bytes[8 * index + 7] = 6;
    }
    bytes
}

// The page in frame 3, of which a slot is busy, goes out, and comes back into frame 5 with other versions.
#[tactic(auto, using(crate::proofs::Arrays::vacant_then, crate::proofs::Arrays::fewer_then, crate::proofs::Arrays::there_then))]
fn go_and_come(rt: &impl Abort, table: &mut VaTable, from: &[u8; 4096])
    requires there { has_page table.old.pages 3 ≡ true }
    requires vacant { has_page table.old.pages 5 ≡ false }
    requires places { 5 < length table.old.pages }
    ensures { has_page table.new.pages 5 ≡ true }
{
    assert!(rt; table.any_busy(Frame(3)));
    assert_eq!(rt; table.made(), 1);
    table.take_out(Frame(3));
    assert_eq!(rt; table.made(), 1);
    table.put_in(Frame(5), from);
    assert!(rt; !table.any_busy(Frame(5)));
    assert_eq!(rt; table.made(), 1);
}

fn has_each(rt: &impl Abort, table: &VaTable)
    requires { has_page table.now.pages 5 ≡ true }
{
    for index in 0..512u16 {
        let at = SlotAt {
            frame: Frame(5),
            index,
        };
        let version = 0x0607_0809_0000_0000 + u64::from(index);
        assert_eq!(rt; (table.slot(at), table.busy(at)), (version, false));
    }
}

const LAST: SlotAt = SlotAt {
    frame: Frame(3),
    index: 511,
};

#[test]
fn versions_come_back_as_they_were(rt: HostRuntime) -> Result<(), Fail> {
    let from = versions();
    let mut onto = Vec::with_capacity(rt.alloc(), 4096)?;
    let mut table = VaTable::new();
    table.epa(rt.alloc(), Frame(3))?;
    assert!(rt; !table.any_busy(Frame(3)));
    table.set_busy(LAST, true);
    go_and_come(&rt, &mut table, &from);
    has_each(&rt, &table);
    put_slots(&table, Frame(5), &mut onto);
    assert!(rt; onto.as_slice() == from.as_slice());
    Ok(())
}

// SIZE, BASE, the number 1 and the digest, at 0, 8, 16 and 64.
#[test]
fn a_secs_is_its_range_and_its_digest(rt: HostRuntime) -> Result<(), Fail> {
    let mut digest = [0; 32];
    let mut want = [0; 4096];
    for index in 0..32 {
        digest[index] = 0xe0 + index as u8;
        want[64 + index] = 0xe0 + index as u8;
    }
    want[2] = 8;
    want[10] = 0x12;
    want[12] = 0xff;
    want[13] = 0x7f;
    want[16] = 1;
    let mut onto = Vec::with_capacity(rt.alloc(), 4096)?;
    put_secs(0x7fff_0012_0000, 0x8_0000, &digest, &mut onto);
    assert!(rt; onto.as_slice() == want.as_slice());
    Ok(())
}
