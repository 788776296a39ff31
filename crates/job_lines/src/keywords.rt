//! The words that a line may begin with.

/// The first word of a line.
#[derive(Clone, Copy)]
pub enum Keyword {
    Epc,
    Marks,
    Key,
    Start,
    Enclave,
    Tcs,
    Reg,
    Expect,
    Store,
    Cpu,
    Enter,
    Resume,
    Exit,
    Timer,
    Load,
    Xadd,
    Set,
    Plus,
    OutLoad,
    OutStore,
}

/// The second word of a store line.
#[derive(Clone, Copy)]
pub enum PlanWord {
    Fail,
    Drop,
    Flip,
    Replay,
    Swap,
}

/// The call that a `store fail` line names.
#[derive(Clone, Copy)]
pub enum CallWord {
    Room,
    Put,
    Get,
}
