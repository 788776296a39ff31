//! What a processor makes next.

ghost use Rattle.std.specs.Prelude.{◌≡◌};
ghost use Rattle.due_tables.specs.inner.Due.{made_by};

use sgx_rules::entries::{AccessOp, Action, Cause};
use sgx_types::names::Frame;

/// An instruction of a processor, with its operands as `Action` has them: one of those that are no other actor's. It takes 24 bytes,
/// where an `Action` has room for a measurement.
#[derive(Clone, Copy)]
pub enum CpuStep {
    Enter {
        enclave: u16,
        tcs: u32,
        tcs_frame: Frame,
        ssa_frame: Frame,
    },
    Resume {
        enclave: u16,
        tcs: u32,
        tcs_frame: Frame,
        ssa_frame: Frame,
    },
    Exit,
    Aex {
        cause: Cause,
    },
    Fill {
        number: u32,
        frame: Frame,
    },
    Load {
        off: u64,
    },
    Store {
        off: u64,
        value: u64,
    },
    Xadd {
        off: u64,
        value: u64,
    },
    Set {
        value: u64,
    },
    Plus {
        value: u64,
    },
    Pf {
        op: AccessOp,
        off: u64,
    },
    OutLoad {
        enclave: u16,
        off: u64,
    },
    OutStore {
        enclave: u16,
        off: u64,
        value: u64,
    },
}

impl CpuStep {
    /// The instruction.
    #[inline(always)]
    pub fn action(self) -> Action
        ensures { result ≡ made_by self }
    {
        match self {
            CpuStep::Enter {
                enclave,
                tcs,
                tcs_frame,
                ssa_frame,
            } => Action::Enter {
                enclave,
                tcs,
                tcs_frame,
                ssa_frame,
            },
            CpuStep::Resume {
                enclave,
                tcs,
                tcs_frame,
                ssa_frame,
            } => Action::Resume {
                enclave,
                tcs,
                tcs_frame,
                ssa_frame,
            },
            CpuStep::Exit => Action::Exit,
            CpuStep::Aex { cause } => Action::Aex { cause },
            CpuStep::Fill { number, frame } => Action::Fill { number, frame },
            CpuStep::Load { off } => Action::Load { off },
            CpuStep::Store { off, value } => Action::Store { off, value },
            CpuStep::Xadd { off, value } => Action::Xadd { off, value },
            CpuStep::Set { value } => Action::Set { value },
            CpuStep::Plus { value } => Action::Plus { value },
            CpuStep::Pf { op, off } => Action::Pf { op, off },
            CpuStep::OutLoad { enclave, off } => Action::OutLoad { enclave, off },
            CpuStep::OutStore {
                enclave,
                off,
                value,
            } => Action::OutStore {
                enclave,
                off,
                value,
            },
        }
    }
}
