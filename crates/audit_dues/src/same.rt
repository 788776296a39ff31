//! Whether two instructions are the same. The comparison that is derived for `Action` says too little of its operands.

ghost use Rattle.std.specs.Prelude.{◌≡◌};
ghost use Rattle.driver_rules.specs.inner.Same.{same_action, same_perm};

use sgx_rules::entries::Action;
use sgx_types::names::Perm;

/// Whether two instructions are the same, with their operands.
pub fn same_action(one: &Action, other: &Action) -> bool
    ensures { result ≡ same_action one.now other.now }
{
    match (*one, *other) {
        (Action::Epa { frame }, Action::Epa { frame: f }) => frame.0 == f.0,
        (
            Action::Create {
                enclave,
                frame,
                base,
                size,
            },
            Action::Create {
                enclave: e,
                frame: f,
                base: b,
                size: s,
            },
        ) => enclave == e && frame.0 == f.0 && base == b && size == s,
        (
            Action::Add {
                enclave,
                number,
                frame,
                kind,
                perm,
                init,
            },
            Action::Add {
                enclave: e,
                number: n,
                frame: f,
                kind: k,
                perm: p,
                init: i,
            },
        ) => {
            enclave == e
                && number == n
                && frame.0 == f.0
                && kind == k
                && same_perm(perm, p)
                && init == i
        }
        (Action::Extend { frame, chunk }, Action::Extend { frame: f, chunk: c }) => {
            frame.0 == f.0 && chunk == c
        }
        (
            Action::Init { enclave, expect },
            Action::Init {
                enclave: e,
                expect: x,
            },
        ) => enclave == e && expect == x,
        (
            Action::Enter {
                enclave,
                tcs,
                tcs_frame,
                ssa_frame,
            },
            Action::Enter {
                enclave: e,
                tcs: t,
                tcs_frame: tf,
                ssa_frame: sf,
            },
        ) => enclave == e && tcs == t && tcs_frame.0 == tf.0 && ssa_frame.0 == sf.0,
        (
            Action::Resume {
                enclave,
                tcs,
                tcs_frame,
                ssa_frame,
            },
            Action::Resume {
                enclave: e,
                tcs: t,
                tcs_frame: tf,
                ssa_frame: sf,
            },
        ) => enclave == e && tcs == t && tcs_frame.0 == tf.0 && ssa_frame.0 == sf.0,
        (Action::Exit, Action::Exit) => true,
        (Action::Aex { cause }, Action::Aex { cause: c }) => cause == c,
        (
            Action::Fill { number, frame },
            Action::Fill {
                number: n,
                frame: f,
            },
        ) => number == n && frame.0 == f.0,
        (Action::Load { off }, Action::Load { off: o }) => off == o,
        (Action::Store { off, value }, Action::Store { off: o, value: v }) => off == o
            && value == v,
        (Action::Xadd { off, value }, Action::Xadd { off: o, value: v }) => off == o && value == v,
        (Action::Set { value }, Action::Set { value: v }) => value == v,
        (Action::Plus { value }, Action::Plus { value: v }) => value == v,
        (Action::Pf { op, off }, Action::Pf { op: p, off: o }) => op == p && off == o,
        (Action::OutLoad { enclave, off }, Action::OutLoad { enclave: e, off: o }) => {
            enclave == e && off == o
        }
        (
            Action::OutStore {
                enclave,
                off,
                value,
            },
            Action::OutStore {
                enclave: e,
                off: o,
                value: v,
            },
        ) => enclave == e && off == o && value == v,
        (Action::Block { frame }, Action::Block { frame: f }) => frame.0 == f.0,
        (Action::Track { enclave }, Action::Track { enclave: e }) => enclave == e,
        (Action::EwbStart { frame, slot }, Action::EwbStart { frame: f, slot: s }) => {
            frame.0 == f.0 && slot == s
        }
        (Action::Ewb { frame }, Action::Ewb { frame: f }) => frame.0 == f.0,
        (
            Action::EldStart { frame, page, slot },
            Action::EldStart {
                frame: f,
                page: p,
                slot: s,
            },
        ) => frame.0 == f.0 && page == p && slot == s,
        (Action::Eld { frame }, Action::Eld { frame: f }) => frame.0 == f.0,
        _ => false,
    }
}

fn same_perm(one: Perm, other: Perm) -> bool
    ensures { result ≡ same_perm one other }
{
    one == other
}
