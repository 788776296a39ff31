//! What the lines of a job's parts say.

ghost use Rattle.std.specs.Prelude.{◌≡◌};
ghost use Rattle.job_lines.specs.Statements.{page_by};
ghost use Rattle.job_print.specs.JobText.{named, op_says, page_says, plan_says};

use io_edges::plans::PlanLine;
use job_grammar::jobs::{Op, PageLine};
use job_lines::statements::{NamedPage, Operation, Plan, Statement};
use sgx_types::names::Page;

/// What a line of pages says.
pub(crate) fn page_statement(line: PageLine) -> Statement
    ensures { result ≡ page_says line }
{
    match line {
        PageLine::Tcs {
            page,
            ossa,
            nssa,
            plain,
        } => Statement::Tcs {
            page: page.into(),
            ossa: ossa.into(),
            nssa: nssa.into(),
            plain,
        },
        PageLine::Reg {
            first,
            count,
            perm,
            value,
            plain,
        } => Statement::Reg {
            first: first.into(),
            count: count.into(),
            perm,
            value,
            plain,
        },
    }
}

fn named_page(page: Page) -> NamedPage
    ensures { result ≡ named page }
{
    NamedPage {
        enclave: page.enclave,
        number: page.number.into(),
    }
}

/// What a store line says.
pub(crate) fn plan_statement(line: PlanLine) -> Plan
    ensures { result ≡ plan_says line }
{
    match line {
        PlanLine::FailRoom { k } => Plan::FailRoom { k },
        PlanLine::FailPut { k } => Plan::FailPut { k },
        PlanLine::FailGet { k } => Plan::FailGet { k },
        PlanLine::DropGet { page, g } => Plan::DropGet {
            page: named_page(page),
            g,
        },
        PlanLine::Flip { page, g, bit } => Plan::Flip {
            page: named_page(page),
            g,
            bit: bit.into(),
        },
        PlanLine::Replay { page, g, w } => Plan::Replay {
            page: named_page(page),
            g,
            w,
        },
        PlanLine::Swap { one, other } => Plan::Swap {
            one: named_page(one),
            other: named_page(other),
        },
    }
}

fn named_tcs(enclave: u16, tcs: u32) -> NamedPage
    ensures { result ≡ page_by enclave tcs }
{
    NamedPage {
        enclave,
        number: tcs.into(),
    }
}

/// What the line of an operation says.
pub(crate) fn op_statement(op: Op) -> Operation
    ensures { result ≡ op_says op }
{
    match op {
        Op::Enter { enclave, tcs } => Operation::Enter {
            tcs: named_tcs(enclave, tcs),
        },
        Op::Resume { enclave, tcs } => Operation::Resume {
            tcs: named_tcs(enclave, tcs),
        },
        Op::Exit => Operation::Exit,
        Op::Timer => Operation::Timer,
        Op::Load { off } => Operation::Load { off },
        Op::Store { off, value } => Operation::Store { off, value },
        Op::Xadd { off, value } => Operation::Xadd { off, value },
        Op::Set { value } => Operation::Set { value },
        Op::Plus { value } => Operation::Plus { value },
        Op::OutLoad { enclave, off } => Operation::OutLoad { enclave, off },
        Op::OutStore {
            enclave,
            off,
            value,
        } => Operation::OutStore {
            enclave,
            off,
            value,
        },
    }
}
