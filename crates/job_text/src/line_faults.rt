//! The first fault of a line, by what stands before it.

ghost use Rattle.std.specs.Prelude.{◌≡◌, ◌≤◌, ◌+◌, ◌^◌, ◌&&◌, nat_le, nat_lt, true, false};
ghost use Rattle.sgx_types.specs.Lawful.{is_lawful};
ghost use Rattle.job_text.specs.Faults.{part_of, is_between, is_plan_in_range, latest_part, is_any_added, lines_here, has_digest};
ghost use Rattle.job_text.specs.Faults.{is_misplaced, is_out_of_order, is_twice, is_in_range, is_outer_offset, is_op_in_range};
ghost use Rattle.job_text.specs.Faults.{is_too_many};
ghost use Rattle.job_text.specs.Faults.{is_added, is_tcs_of, plan_stands, op_stands, is_missing, is_named_before, is_shared, faults};
ghost use Rattle.sgx_types.specs.Cases.{first_of_row};
ghost use Rattle.job_text.specs.inner.Faults.{HasNoFault};
ghost use Rattle.job_grammar.specs.Jobs.{enclave_at};
ghost use Rattle.job_text.specs.Drafts.{last};

use crate::drafts::JobDraft;
use job_lines::kinds::JobKind;
use job_lines::statements::{NamedPage, Operation, Plan, Statement};

impl JobDraft {
    /// The latest part that a line was of.
    fn latest_part(&self) -> u32
        ensures { result ≡ latest_part self.now }
    {
        if !self.scripts.is_empty() {
            4
        } else if !self.plans.is_empty() {
            3
        } else if !self.enclaves.is_empty() {
            2
        } else if self.marks.is_some() || self.key.is_some() || self.start.is_some() {
            1
        } else {
            0
        }
    }

    /// Whether a line has no place where it stands in its part.
    fn is_misplaced(&self, statement: Statement) -> bool
        ensures { result ≡ is_misplaced self.now statement }
    {
        match statement {
            Statement::Epc { .. } => self.epc.is_some(),
            Statement::Enclave { enclave, .. } => usize::from(enclave) != self.enclaves.len() + 1,
            Statement::Tcs { .. } | Statement::Reg { .. } | Statement::Expect { .. } => {
                self.enclaves.is_empty()
            }
            Statement::Cpu { number } => number != self.scripts.len() as u64,
            Statement::Operation(_) => self.scripts.is_empty(),
            _ => false,
        }
    }

    #[tactic(auto, unfolding(crate::specs::Faults::is_out_of_order))]
    fn is_out_of_order(&self, statement: Statement) -> bool
        ensures { result ≡ is_out_of_order self.now statement }
    {
        part_of(statement) < self.latest_part() || self.is_misplaced(statement)
    }

    /// Whether one of `count` pages from `first` on is added to the enclave that stands last.
    fn is_added_here(&self, first: u64, count: u64) -> bool
        ensures { result ≡ is_any_added first count (lines_here self.now) }
    {
        match self.last_enclave() {
            Some(enclave) => enclave.has_any(first, count),
            None => false,
        }
    }

    /// Whether a digest of the enclave that stands last is expected.
    fn has_digest_here(&self) -> bool
        ensures { result ≡ has_digest (last self.now.enclaves) }
    {
        match self.last_enclave() {
            Some(enclave) => enclave.has_digest(),
            None => false,
        }
    }

    #[tactic(auto, unfolding(crate::specs::Faults::is_twice))]
    fn is_twice(&self, statement: Statement) -> bool
        ensures { result ≡ is_twice self.now statement }
    {
        match statement {
            Statement::Marks { .. } => self.marks.is_some(),
            Statement::Key { .. } => self.key.is_some(),
            Statement::Start(_) => self.start.is_some(),
            Statement::Expect { .. } => self.has_digest_here(),
            Statement::Tcs { page, .. } => self.is_added_here(page, 1),
            Statement::Reg { first, count, .. } => self.is_added_here(first, count),
            _ => false,
        }
    }

    #[tactic(auto, unfolding(crate::specs::Faults::is_in_range))]
    fn is_in_range(&self, statement: Statement) -> bool
        ensures { result ≡ is_in_range self.now statement }
    {
        match statement {
            Statement::Epc { frames } => 1 <= frames && frames <= 4096,
            Statement::Marks { low, high, scan } => {
                1 <= low && low < high && high <= 4096 && (1 <= scan && scan <= 64)
            }
            Statement::Start(start) => {
                1 <= start.epoch && start.epoch <= (1 << 40) - 1 && 1 <= start.version
            }
            Statement::Enclave { base, size, .. } => is_enclave_in_range(base, size),
            Statement::Tcs {
                page,
                ossa,
                nssa,
                ..
            } => is_tcs_in_range(self.pages_here(), page, ossa, nssa),
            Statement::Reg { first, count, .. } => is_reg_in_range(self.pages_here(), first, count),
            Statement::Plan(plan) => is_plan_in_range(plan),
            Statement::Cpu { number } => number <= 15,
            Statement::Operation(operation) => self.is_op_in_range(operation),
            Statement::Key { .. } | Statement::Expect { .. } => true,
        }
    }

    /// Whether an offset is that of a word in an enclave, or, where that is not declared, a multiple of 8.
    fn is_outer_offset(&self, enclave: u16, off: u64) -> bool
        ensures { result ≡ is_outer_offset (enclave_at self.now.enclaves enclave) off }
    {
        match self.enclave(usize::from(enclave)) {
            Some(enclave) => off % 8 == 0 && off < enclave.size(),
            None => off % 8 == 0,
        }
    }

    fn is_op_in_range(&self, operation: Operation) -> bool
        ensures { result ≡ is_op_in_range self.now.enclaves operation }
    {
        match operation {
            Operation::Load { off } | Operation::Store { off, .. } | Operation::Xadd { off, .. } =>
                { off % 8 == 0 && off < 1 << 24 }
            Operation::OutLoad { enclave, off } | Operation::OutStore { enclave, off, .. } => {
                self.is_outer_offset(enclave, off)
            }
            _ => true,
        }
    }

    #[tactic(auto, unfolding(crate::specs::Faults::is_too_many))]
    fn is_too_many(&self, statement: Statement) -> bool
        ensures { result ≡ is_too_many self.now statement }
    {
        match statement {
            Statement::Tcs { .. } => 4096 < self.pages + 1,
            Statement::Reg { count, .. } => 4096 - self.pages < count,
            Statement::Plan(_) => 64 < self.plans.len() + 1,
            Statement::Operation(_) => 100_000 < self.ops + 1,
            _ => false,
        }
    }

    fn is_added(&self, page: NamedPage) -> bool
        ensures { result ≡ is_added self.now.enclaves page }
    {
        match self.enclave(usize::from(page.enclave)) {
            Some(enclave) => enclave.has(page.number),
            None => false,
        }
    }

    fn is_tcs(&self, page: NamedPage) -> bool
        ensures { result ≡ is_tcs_of self.now.enclaves page }
    {
        match self.enclave(usize::from(page.enclave)) {
            Some(enclave) => enclave.is_tcs(page.number),
            None => false,
        }
    }

    fn plan_stands(&self, plan: Plan) -> bool
        ensures { result ≡ plan_stands self.now.enclaves plan }
    {
        match plan {
            Plan::DropGet { page, .. } | Plan::Flip { page, .. } | Plan::Replay { page, .. } => {
                self.is_added(page)
            }
            Plan::Swap { one, other } => self.is_added(one) && self.is_added(other),
            _ => true,
        }
    }

    fn op_stands(&self, operation: Operation) -> bool
        ensures { result ≡ op_stands self.now.enclaves operation }
    {
        match operation {
            Operation::Enter { tcs } | Operation::Resume { tcs } => self.is_tcs(tcs),
            Operation::OutLoad { enclave, .. } | Operation::OutStore { enclave, .. } => {
                self.enclave(usize::from(enclave)).is_some()
            }
            _ => true,
        }
    }

    #[tactic(auto, unfolding(crate::specs::Faults::is_missing))]
    fn is_missing(&self, statement: Statement) -> bool
        ensures { result ≡ is_missing self.now statement }
    {
        match statement {
            Statement::Plan(plan) => !self.plan_stands(plan),
            Statement::Operation(operation) => !self.op_stands(operation),
            _ => false,
        }
    }

    fn is_named_before(&self, tcs: NamedPage) -> bool
        requires { is_tcs_of self.now.enclaves tcs ≡ true }
        ensures { result ≡ is_named_before self.now tcs }
    {
        self.scripts.names_before(self.page_of(tcs))
    }

    #[tactic(auto, using(crate::proofs::FaultLaws::tcs_stands), unfolding(crate::specs::Faults::is_shared))]
    fn is_shared(&self, statement: Statement) -> bool
        requires { is_missing self.now statement ≡ false }
        ensures { result ≡ is_shared self.now statement }
    {
        match statement {
            Statement::Operation(Operation::Enter { tcs }) => self.is_named_before(tcs),
            Statement::Operation(Operation::Resume { tcs }) => self.is_named_before(tcs),
            _ => false,
        }
    }

    /// The first fault of a line, by what stands before it.
    #[tactic(auto, unfolding(crate::specs::Faults::faults))]
    pub(crate) fn fault_of(&self, statement: Statement) -> Option<JobKind>
        ensures first { result ≡ first_of_row (faults self.now statement) }
        ensures none { result ≡ None → HasNoFault self.now statement }
    {
        if self.is_out_of_order(statement) {
            Some(JobKind::Order)
        } else if self.is_twice(statement) {
            Some(JobKind::Twice)
        } else if !self.is_in_range(statement) {
            Some(JobKind::Range)
        } else if self.is_too_many(statement) {
            Some(JobKind::TooMany)
        } else if self.is_missing(statement) {
            Some(JobKind::Missing)
        } else if self.is_shared(statement) {
            Some(JobKind::TcsShared)
        } else {
            None
        }
    }
}

/// The part of a job that a line is of.
fn part_of(statement: Statement) -> u32
    ensures { result ≡ part_of statement }
{
    match statement {
        Statement::Epc { .. } => 0,
        Statement::Marks { .. } | Statement::Key { .. } | Statement::Start(_) => 1,
        Statement::Plan(_) => 3,
        Statement::Cpu { .. } | Statement::Operation(_) => 4,
        _ => 2,
    }
}

fn is_enclave_in_range(base: u64, size: u64) -> bool
    ensures { result ≡ (is_lawful base size && nat_le (base + size) (2 ^ 47)) }
{
    size.is_power_of_two()
        && 8192 <= size
        && size <= 1 << 24
        && base % size == 0
        && base <= (1 << 47) - size
}

fn is_tcs_in_range(pages: u64, page: u64, ossa: u64, nssa: u64) -> bool
    requires { pages ≤ 4096 }
    ensures { result ≡ (is_between 1 16 nssa && nat_lt page pages && nat_le (ossa + nssa) pages) }
{
    (1 <= nssa && nssa <= 16) && page < pages && (ossa <= pages && nssa <= pages - ossa)
}

fn is_reg_in_range(pages: u64, first: u64, count: u64) -> bool
    ensures { result ≡ (nat_le 1 count && nat_le (first + count) pages) }
{
    1 <= count && (first <= pages && count <= pages - first)
}

fn is_plan_in_range(plan: Plan) -> bool
    ensures { result ≡ is_plan_in_range plan }
{
    match plan {
        Plan::FailRoom { k } | Plan::FailPut { k } | Plan::FailGet { k } => 1 <= k,
        Plan::DropGet { g, .. } => 1 <= g,
        Plan::Flip { bit, .. } => bit <= 33215,
        Plan::Replay { g, w, .. } => 1 <= g && 1 <= w,
        Plan::Swap { .. } => true,
    }
}
