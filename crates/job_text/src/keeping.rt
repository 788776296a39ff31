//! What a line that has no fault adds to a draft.

ghost use Rattle.std.specs.Prelude.{◌≡◌, ◌≤◌, ◌<◌, true, IfOk};
ghost use Rattle.job_text.specs.Faults.{is_plan_in_range, is_added, plan_stands, op_stands};
ghost use Rattle.job_text.specs.inner.Faults.{HasNoFault};
ghost use Rattle.job_grammar.specs.Jobs.{first_page, page_count};
ghost use Rattle.job_lines.specs.declared.statements.Statement.TheVariants as says;
ghost use Rattle.job_text.specs.inner.Facts.{HasRoom};
ghost use Rattle.job_text.specs.inner.Scripts.{AreSmall};
ghost use Rattle.job_lines.specs.inner.Spelled.{IsSpelled};
ghost use Rattle.job_text.specs.Drafts.{add_page, keep, kept_page, kept_op, kept_plan};

use crate::drafts::JobDraft;
use crate::enclaves::EnclaveDraft;
use crate::lasts::{add_digest, add_page};
use crate::tcs_lines::TcsLine;
use io_edges::plans::PlanLine;
use job_grammar::jobs::{Marks, Op, PageLine};
use job_lines::statements::{NamedPage, Operation, Plan, Start, Statement};
use sgx_types::names::{Page, Perm};
use std::alloc::{AllocError, Global};

impl JobDraft {
    /// Adds a line of pages to the enclave that stands last.
    fn add_page(&mut self, line: PageLine) -> Result<(), AllocError>
        requires { HasRoom self.old (first_page line) (page_count line) }
        ensures { IfOk result (λ _. self.new ≡ record self.old { enclaves = add_page line self.old.enclaves }) }
    {
        add_page(&mut self.enclaves, line)?;
        self.pages += u64::from(line.count());
        Ok(())
    }

    #[tactic(auto, unfolding(crate::specs::Drafts::keep))]
    fn keep_reg(
        &mut self,
        number: u32,
        first: u64,
        count: u64,
        perm: Perm,
        value: u64,
        plain: bool,
    ) -> Result<(), AllocError>
        requires { HasNoFault self.old (says.Reg first count perm value plain) }
        ensures { IfOk result (λ _. self.new ≡ keep number self.old (says.Reg first count perm value plain)) }
    {
        prove!(self.pages_here() <= 4096);
        self.add_page(PageLine::Reg {
            first: first as u32,
            count: count as u32,
            perm,
            value,
            plain,
        })
    }

    #[tactic(auto, unfolding(crate::specs::Drafts::keep))]
    fn keep_tcs(
        &mut self,
        number: u32,
        page: u64,
        ossa: u64,
        nssa: u64,
        plain: bool,
    ) -> Result<(), AllocError>
        requires { HasNoFault self.old (says.Tcs page ossa nssa plain) }
        ensures { IfOk result (λ _. self.new ≡ keep number self.old (says.Tcs page ossa nssa plain)) }
    {
        prove!(self.pages_here() <= 4096);
        let line = TcsLine {
            line: number,
            enclave: self.enclaves.len(),
            ossa: ossa as u32,
            nssa: nssa as u32,
        };
        self.add_page(PageLine::Tcs {
            page: page as u32,
            ossa: ossa as u32,
            nssa: nssa as u32,
            plain,
        })?;
        self.tcs_lines.push(line)?;
        Ok(())
    }

    #[tactic(auto, unfolding(crate::specs::Drafts::keep))]
    fn keep_epc(&mut self, number: u32, frames: u64)
        requires { HasNoFault self.old (says.Epc frames) }
        ensures { self.new ≡ keep number self.old (says.Epc frames) }
    {
        self.epc = Some(frames as u32);
        self.epc_line = number;
    }

    #[tactic(auto, unfolding(crate::specs::Drafts::keep))]
    fn keep_marks(&mut self, number: u32, low: u64, high: u64, scan: u64)
        requires { HasNoFault self.old (says.Marks low high scan) }
        ensures { self.new ≡ keep number self.old (says.Marks low high scan) }
    {
        self.marks = Some(Marks {
            low: low as u32,
            high: high as u32,
            scan: scan as u32,
        });
    }

    #[tactic(auto, unfolding(crate::specs::Drafts::keep))]
    fn keep_enclave(
        &mut self,
        alloc: Global,
        number: u32,
        enclave: u16,
        base: u64,
        size: u64,
    ) -> Result<(), AllocError>
        requires letter { enclave ≤ 8 }
        requires fits { HasNoFault self.old (says.Enclave enclave base size) }
        ensures { IfOk result (λ _. self.new ≡ keep number self.old (says.Enclave enclave base size)) }
    {
        let draft = EnclaveDraft::new(alloc, base, size)?;
        self.enclaves.push(draft)?;
        Ok(())
    }

    #[tactic(auto, unfolding(crate::specs::Drafts::keep))]
    fn keep_expect(&mut self, number: u32, digest: [u8; 32])
        ensures { self.new ≡ keep number self.old (says.Expect digest) }
    {
        add_digest(&mut self.enclaves, digest);
    }

    #[tactic(auto, unfolding(crate::specs::Drafts::keep))]
    fn keep_cpu(&mut self, alloc: Global, number: u32, cpu: u64) -> Result<(), AllocError>
        requires { HasNoFault self.old (says.Cpu cpu) }
        ensures { IfOk result (λ _. self.new ≡ keep number self.old (says.Cpu cpu)) }
    {
        self.scripts.begin(alloc)?;
        Ok(())
    }

    /// A page that is added.
    pub(crate) fn page_of(&self, page: NamedPage) -> Page
        requires { is_added self.now.enclaves page ≡ true }
        ensures page { result ≡ kept_page page }
        ensures enclave { result.enclave ≤ 8 }
        ensures number { result.number < 4096 }
    {
        prove!(self.enclaves.len() <= 8);
        let number = match self.enclave(usize::from(page.enclave)) {
            Some(enclave) => enclave.small(page.number),
            None => 0,
        };
        Page {
            enclave: page.enclave,
            number,
        }
    }

    /// An operation that stands.
    fn op_of(&self, operation: Operation) -> Op
        requires { op_stands self.now.enclaves operation ≡ true }
        ensures op { result ≡ kept_op operation }
        ensures small { AreSmall result }
    {
        match operation {
            Operation::Enter { tcs } => Op::Enter {
                enclave: tcs.enclave,
                tcs: self.page_of(tcs).number,
            },
            Operation::Resume { tcs } => Op::Resume {
                enclave: tcs.enclave,
                tcs: self.page_of(tcs).number,
            },
            Operation::Exit => Op::Exit,
            Operation::Timer => Op::Timer,
            Operation::Load { off } => Op::Load { off },
            Operation::Store { off, value } => Op::Store { off, value },
            Operation::Xadd { off, value } => Op::Xadd { off, value },
            Operation::Set { value } => Op::Set { value },
            Operation::Plus { value } => Op::Plus { value },
            Operation::OutLoad { enclave, off } => Op::OutLoad { enclave, off },
            Operation::OutStore {
                enclave,
                off,
                value,
            } => Op::OutStore {
                enclave,
                off,
                value,
            },
        }
    }

    /// A store line that stands.
    fn plan_of(&self, plan: Plan) -> PlanLine
        requires range { is_plan_in_range plan ≡ true }
        requires stands { plan_stands self.now.enclaves plan ≡ true }
        ensures { result ≡ kept_plan plan }
    {
        match plan {
            Plan::FailRoom { k } => PlanLine::FailRoom { k },
            Plan::FailPut { k } => PlanLine::FailPut { k },
            Plan::FailGet { k } => PlanLine::FailGet { k },
            Plan::DropGet { page, g } => PlanLine::DropGet {
                page: self.page_of(page),
                g,
            },
            Plan::Flip { page, g, bit } => PlanLine::Flip {
                page: self.page_of(page),
                g,
                bit: bit as u32,
            },
            Plan::Replay { page, g, w } => PlanLine::Replay {
                page: self.page_of(page),
                g,
                w,
            },
            Plan::Swap { one, other } => PlanLine::Swap {
                one: self.page_of(one),
                other: self.page_of(other),
            },
        }
    }

    #[tactic(auto, unfolding(crate::specs::Drafts::keep))]
    fn keep_plan(&mut self, number: u32, plan: Plan) -> Result<(), AllocError>
        requires { HasNoFault self.old (says.Plan plan) }
        ensures { IfOk result (λ _. self.new ≡ keep number self.old (says.Plan plan)) }
    {
        let line = self.plan_of(plan);
        self.plans.push(line)?;
        Ok(())
    }

    #[tactic(auto, unfolding(crate::specs::Drafts::keep))]
    fn keep_operation(&mut self, number: u32, operation: Operation) -> Result<(), AllocError>
        requires { HasNoFault self.old (says.Operation operation) }
        ensures { IfOk result (λ _. self.new ≡ keep number self.old (says.Operation operation)) }
    {
        let op = self.op_of(operation);
        self.scripts.add(op)?;
        self.ops += 1;
        Ok(())
    }

    /// Adds what a line says, which has no fault, by the line's number.
    pub(crate) fn keep(
        &mut self,
        alloc: Global,
        number: u32,
        statement: Statement,
    ) -> Result<(), AllocError>
        requires spelled { IsSpelled statement }
        requires fits { HasNoFault self.old statement }
        ensures { IfOk result (λ _. self.new ≡ keep number self.old statement) }
    {
        match statement {
            Statement::Epc { frames } => self.keep_epc(number, frames),
            Statement::Marks { low, high, scan } => self.keep_marks(number, low, high, scan),
            Statement::Key { key } => self.keep_key(number, key),
            Statement::Start(start) => self.keep_start(number, start),
            Statement::Enclave {
                enclave,
                base,
                size,
            } => self.keep_enclave(alloc, number, enclave, base, size)?,
            Statement::Tcs {
                page,
                ossa,
                nssa,
                plain,
            } => self.keep_tcs(number, page, ossa, nssa, plain)?,
            Statement::Reg {
                first,
                count,
                perm,
                value,
                plain,
            } => self.keep_reg(number, first, count, perm, value, plain)?,
            Statement::Expect { digest } => self.keep_expect(number, digest),
            Statement::Plan(plan) => self.keep_plan(number, plan)?,
            Statement::Cpu { number: cpu } => self.keep_cpu(alloc, number, cpu)?,
            Statement::Operation(operation) => self.keep_operation(number, operation)?,
        }
        Ok(())
    }

    #[tactic(auto, unfolding(crate::specs::Drafts::keep))]
    fn keep_key(&mut self, number: u32, key: [u8; 32])
        ensures { self.new ≡ keep number self.old (says.Key key) }
    {
        self.key = Some(key);
    }

    #[tactic(auto, unfolding(crate::specs::Drafts::keep))]
    fn keep_start(&mut self, number: u32, start: Start)
        ensures { self.new ≡ keep number self.old (says.Start start) }
    {
        self.start = Some(start);
    }
}
