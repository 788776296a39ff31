//! How its entries left each processor.

ghost use Rattle.std.specs.Prelude.{◌≡◌, ◌<◌, ◌^◌, length, replicate, slice_set, IfOk};
ghost use Rattle.due_tables.specs.inner.CpuTurns.{first_turn, replying, turn_at};

use sgx_rules::entries::BusWhy;
use sgx_types::names::{Cpu, Frame, Memory, Page};
use std::alloc::Global;
use std::marker::Model;

/// An exit that no operation of the script asked for, after which the processor has still to resume: by which TCS page it was
/// inside, and whether it left for the page of its access.
#[derive(Clone, Copy)]
pub struct Interruption {
    pub enclave: u16,
    pub tcs: u32,
    pub for_page: bool,
}

/// How its last entry left a processor.
#[derive(Clone, Copy)]
pub enum Last {
    /// It loads a page into a frame.
    Loads { frame: Frame, page: Page },

    /// Its load of a page was refused, which is to be told next.
    Fails { page: Page, why: BusWhy },

    /// It was ended: a page that it needed doesn't come back.
    WasEnded,

    /// None of these.
    Other,
}

/// What stands of a processor: to how many operations of its script it has replies, whether a kick is pending, the interruption
/// after which it has still to resume, and how its last entry left it.
#[derive(Clone, Copy)]
pub struct CpuTurn {
    pub replied: u64,
    pub is_kicked: bool,
    pub interruption: Option<Interruption>,
    pub last: Last,
}

/// A processor before its first entry.
const FIRST: CpuTurn = CpuTurn {
    replied: 0,
    is_kicked: false,
    interruption: None,
    last: Last::Other,
};

/// What stands of each processor, by its number.
#[derive(Drop)]
pub struct CpuTurns {
    turns: Vec<CpuTurn>,
}

impl Model for CpuTurns {
    ghost use Rattle.std.specs.Prelude.{List};
    ghost use Rattle.due_tables.specs.declared.cpu_turns.CpuTurn.{CpuTurn};

    ghost Value = { List CpuTurn };

    ghost view = { λ t. t.turns.items };
}

impl CpuTurns {
    /// So many processors before their first entries.
    pub(crate) fn new(alloc: Global, cpus: usize) -> Result<CpuTurns, Memory>
        ensures { IfOk result (λ turns. turns ≡ replicate cpus first_turn) }
    {
        let turns = vec![in alloc; FIRST; cpus]?;
        Ok(CpuTurns { turns })
    }

    /// How many processors there are.
    pub(crate) fn len(&self) -> usize
        ensures { result ≡ length self.now }
    {
        self.turns.len()
    }

    /// What stands of a processor.
    pub fn get(&self, cpu: Cpu) -> CpuTurn
        requires { cpu.0 < length self.now }
        ensures { result ≡ turn_at self.now cpu.0 }
    {
        self.turns[usize::from(cpu.0)]
    }

    /// One more operation of a processor has its reply, and none of its loads stands.
    pub(crate) fn reply(&mut self, cpu: Cpu)
        requires cpu { cpu.0 < length self.old }
        requires few { (turn_at self.old cpu.0).replied < 2 ^ 63 }
        ensures { self.new ≡ slice_set self.old cpu.0 (replying (turn_at self.old cpu.0)) }
    {
        let turn = &mut self.turns[usize::from(cpu.0)];
        turn.replied += 1;
        turn.last = Last::Other;
    }

    /// What stands of a processor from now on.
    pub(crate) fn set(&mut self, cpu: Cpu, turn: CpuTurn)
        requires { cpu.0 < length self.old }
        ensures { self.new ≡ slice_set self.old cpu.0 turn }
    {
        self.turns[usize::from(cpu.0)] = turn;
    }
}
