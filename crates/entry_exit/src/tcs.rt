//! The fields of a TCS page in its frame.

ghost use Rattle.std.specs.Prelude.{◌≡◌, ◌<◌, ◌/◌, ◌%◌, ◌^◌, length};
ghost use Rattle.entry_exit.specs.inner.Entry.{fields_at, seen_fields, with_cssa_at};

use epcm_entry::epc::Epc;
use sgx_types::layouts::TcsFields;
use sgx_types::names::Frame;

// The words of a TCS page that an entry or an exit reads or writes.
const OSSA: u16 = 2;

const COUNTS: u16 = 3;

/// The fields of the TCS page in a frame.
pub fn fields(epc: &Epc, frame: Frame) -> TcsFields
    requires { frame.0 < length epc.now }
    ensures { seen_fields result ≡ fields_at epc.now frame.0 }
{
    let counts = epc.word(frame, COUNTS);
    TcsFields {
        ossa: epc.word(frame, OSSA),
        cssa: low_half(counts),
        nssa: high_half(counts),
    }
}

/// Writes CSSA into the TCS page in a frame.
pub fn set_cssa(epc: &mut Epc, frame: Frame, cssa: u32)
    requires { frame.0 < length epc.old }
    ensures { epc.new ≡ with_cssa_at epc.old frame.0 cssa }
{
    let nssa = high_half(epc.word(frame, COUNTS));
    epc.set_word(frame, COUNTS, u64::from(cssa) + u64::from(nssa) * (1 << 32));
}

fn low_half(word: u64) -> u32
    ensures { result ≡ word % 2 ^ 32 }
{
    (word % (1 << 32)) as u32
}

fn high_half(word: u64) -> u32
    ensures { result ≡ word / 2 ^ 32 }
{
    (word >> 32) as u32
}
