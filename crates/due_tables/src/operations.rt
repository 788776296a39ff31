//! The next step of an operation.

ghost use Rattle.std.specs.Prelude.{◌≡◌, ◌||◌, false, not, length, map, slice_index_or};
ghost use Rattle.cached_translations.specs.inner.Modes.{is_inside};
ghost use Rattle.due_tables.specs.declared.steps.CpuStep.TheVariants as steps;
ghost use Rattle.due_tables.specs.inner.Asked.{CanAskDue, access_by, access_in, access_page, enters_by, fill_by, frame_seen};
ghost use Rattle.due_tables.specs.inner.Asked.{last_save_of};
ghost use Rattle.due_tables.specs.inner.Asked.{looks_at, next_save_of, op_by, page_of, resumes_by, with_access};
ghost use Rattle.due_tables.specs.inner.TcsTurns.{rows, tcs_at};

use crate::dues::CpuDue;
use crate::steps::CpuStep;
use crate::turns::Turns;
use cached_translations::processor::Mode;
use driver_tables::driver::Driver;
use job_grammar::jobs::Op;
use sgx_machine::machine::Machine;
use sgx_rules::entries::{AccessOp, Cause};
use sgx_types::names::{Cpu, Frame, Page};

// Who is turned away names this frame, and is refused whatever it holds.
const NO_FRAME: Frame = Frame(0);

impl Turns {
    /// The next step of an operation.
    #[inline(always)]
    pub(crate) fn op_due(&self, driver: &Driver, machine: &Machine, cpu: Cpu, op: Op) -> CpuDue
        requires { CanAskDue driver.now machine.now self.now cpu.0 }
        ensures { result ≡ op_by (looks_at driver.now machine.now self.now cpu.0) op }
    {
        match op {
            Op::Enter { enclave, tcs } => self.enter_due(driver, machine, cpu, enclave, tcs),
            Op::Resume { enclave, tcs } => self.resume_due(driver, machine, cpu, enclave, tcs),
            Op::Exit => CpuDue::Makes(CpuStep::Exit),
            Op::Timer => CpuDue::Makes(CpuStep::Aex {
                cause: Cause::Timer,
            }),
            Op::Load { off } => {
                self.access(
                    driver,
                    machine,
                    cpu,
                    AccessOp::Load,
                    off,
                    CpuStep::Load { off },
                )
            }
            Op::Store { off, value } => {
                let access = CpuStep::Store { off, value };
                self.access(driver, machine, cpu, AccessOp::Store, off, access)
            }
            Op::Xadd { off, value } => {
                let access = CpuStep::Xadd { off, value };
                self.access(driver, machine, cpu, AccessOp::Xadd, off, access)
            }
            Op::Set { value } => CpuDue::Makes(CpuStep::Set { value }),
            Op::Plus { value } => CpuDue::Makes(CpuStep::Plus { value }),
            Op::OutLoad { enclave, off } => CpuDue::Makes(CpuStep::OutLoad { enclave, off }),
            Op::OutStore {
                enclave,
                off,
                value,
            } => CpuDue::Makes(CpuStep::OutStore {
                enclave,
                off,
                value,
            }),
        }
    }

    fn enter_due(
        &self,
        driver: &Driver,
        machine: &Machine,
        cpu: Cpu,
        enclave: u16,
        tcs: u32,
    ) -> CpuDue
        requires { CanAskDue driver.now machine.now self.now cpu.0 }
        ensures { result ≡ op_by (looks_at driver.now machine.now self.now cpu.0) (Op.Enter enclave tcs) }
    {
        if self.is_turned_away(machine.mode(cpu), enclave) {
            return CpuDue::Makes(CpuStep::Enter {
                enclave,
                tcs,
                tcs_frame: NO_FRAME,
                ssa_frame: NO_FRAME,
            });
        }
        let number = tcs;
        self.enters(driver, Page { enclave, number })
    }

    fn resume_due(
        &self,
        driver: &Driver,
        machine: &Machine,
        cpu: Cpu,
        enclave: u16,
        tcs: u32,
    ) -> CpuDue
        requires { CanAskDue driver.now machine.now self.now cpu.0 }
        ensures { result ≡ op_by (looks_at driver.now machine.now self.now cpu.0) (Op.Resume enclave tcs) }
    {
        if self.is_turned_away(machine.mode(cpu), enclave) {
            return CpuDue::Makes(CpuStep::Resume {
                enclave,
                tcs,
                tcs_frame: NO_FRAME,
                ssa_frame: NO_FRAME,
            });
        }
        let number = tcs;
        self.resumes(driver, Page { enclave, number }, None)
    }

    // Who is inside, or enters an enclave that is not initialised, is refused whatever the frames are.
    fn is_turned_away(&self, mode: Mode, enclave: u16) -> bool
        ensures { result ≡ (is_inside mode || not (slice_index_or self.now.inits enclave false)) }
    {
        mode.is_inside() || !self.is_init(enclave)
    }

    fn is_init(&self, enclave: u16) -> bool
        ensures { result ≡ slice_index_or self.now.inits enclave false }
    {
        match self.inits.get(usize::from(enclave)) {
            Some(is_init) => *is_init,
            None => false,
        }
    }

    // With its pages here it enters, by their frames: those of the TCS page and of the state save page, that of the first alone where
    // all of these are in use.
    fn enters(&self, driver: &Driver, tcs: Page) -> CpuDue
        requires { map length self.now.tcs ≡ rows driver.now.states.counts }
        ensures { result ≡ enters_by (frame_seen driver.now self.now) tcs (next_save_of tcs.enclave (tcs_at self.now.tcs tcs)) }
    {
        let Some(tcs_frame) = self.frame(driver, tcs) else {
            return CpuDue::Needs(tcs);
        };
        let Some(save) = self.next_save(tcs) else {
            return enter(tcs, tcs_frame, tcs_frame);
        };
        match self.frame(driver, save) {
            Some(ssa_frame) => enter(tcs, tcs_frame, ssa_frame),
            None => CpuDue::Needs(save),
        }
    }

    /// With its pages here it resumes: the TCS page, the state save page that was used last, and the page of an access.
    pub(crate) fn resumes(&self, driver: &Driver, tcs: Page, access: Option<Page>) -> CpuDue
        requires { map length self.now.tcs ≡ rows driver.now.states.counts }
        ensures { result ≡ resumes_by (frame_seen driver.now self.now) tcs (last_save_of tcs.enclave (tcs_at self.now.tcs tcs)) access }
    {
        let Some(tcs_frame) = self.frame(driver, tcs) else {
            return CpuDue::Needs(tcs);
        };
        let Some(save) = self.last_save(tcs) else {
            return self.with_access(driver, access, resume(tcs, tcs_frame, tcs_frame));
        };
        match self.frame(driver, save) {
            Some(ssa_frame) => {
                self.with_access(driver, access, resume(tcs, tcs_frame, ssa_frame))
            }
            None => CpuDue::Needs(save),
        }
    }

    // With the page of its access here too.
    fn with_access(&self, driver: &Driver, access: Option<Page>, due: CpuDue) -> CpuDue
        requires { map length self.now.tcs ≡ rows driver.now.states.counts }
        ensures { result ≡ with_access (frame_seen driver.now self.now) access due }
    {
        let Some(page) = access else {
            return due;
        };
        match self.frame(driver, page) {
            Some(_) => due,
            None => CpuDue::Needs(page),
        }
    }

    // An access outside is made, and refused. It stands in line, as `access_inside`, so that what is due is not copied.
    #[inline(always)]
    fn access(
        &self,
        driver: &Driver,
        machine: &Machine,
        cpu: Cpu,
        op: AccessOp,
        off: u64,
        access: CpuStep,
    ) -> CpuDue
        requires { CanAskDue driver.now machine.now self.now cpu.0 }
        ensures { let look = looks_at driver.now machine.now self.now cpu.0 in result ≡ access_by look look.mode op off access }
    {
        match machine.mode(cpu) {
            Mode::Outside => CpuDue::Makes(access),
            Mode::Inside { enclave, .. } => {
                self.access_inside(driver, machine, cpu, enclave, op, off, access)
            }
        }
    }

    // One inside that cannot succeed is told as a fault. Another one goes by a translation, which is filled first where none is held;
    // for a page that is not here the processor leaves.
    #[inline(always)]
    fn access_inside(
        &self,
        driver: &Driver,
        machine: &Machine,
        cpu: Cpu,
        enclave: u16,
        op: AccessOp,
        off: u64,
        access: CpuStep,
    ) -> CpuDue
        requires { CanAskDue driver.now machine.now self.now cpu.0 }
        ensures { result ≡ access_in (looks_at driver.now machine.now self.now cpu.0) enclave op off access }
    {
        let page = page_of(enclave, off);
        if !machine.lawful(page, op) {
            return CpuDue::Makes(CpuStep::Pf { op, off });
        }
        if machine.holds(cpu, page.number) {
            return CpuDue::Makes(access);
        }
        fill(page.number, self.frame(driver, page))
    }
}

fn enter(tcs: Page, tcs_frame: Frame, ssa_frame: Frame) -> CpuDue
    ensures { result ≡ CpuDue.Makes (steps.Enter tcs.enclave tcs.number tcs_frame ssa_frame) }
{
    CpuDue::Makes(CpuStep::Enter {
        enclave: tcs.enclave,
        tcs: tcs.number,
        tcs_frame,
        ssa_frame,
    })
}

fn resume(tcs: Page, tcs_frame: Frame, ssa_frame: Frame) -> CpuDue
    ensures { result ≡ CpuDue.Makes (steps.Resume tcs.enclave tcs.number tcs_frame ssa_frame) }
{
    CpuDue::Makes(CpuStep::Resume {
        enclave: tcs.enclave,
        tcs: tcs.number,
        tcs_frame,
        ssa_frame,
    })
}

// A page that is here is filled, for another one the processor leaves.
fn fill(number: u32, frame: Option<Frame>) -> CpuDue
    ensures { result ≡ fill_by number frame }
{
    match frame {
        Some(frame) => CpuDue::Makes(CpuStep::Fill { number, frame }),
        None => CpuDue::Makes(CpuStep::Aex {
            cause: Cause::Fault,
        }),
    }
}

/// The page of an offset. The offsets of a job are below 2^24.
pub fn page_of(enclave: u16, off: u64) -> Page
    ensures { result ≡ page_of enclave off }
{
    let number = (off / 4096 % (1 << 32)) as u32;
    Page { enclave, number }
}

/// The page of an access.
pub(crate) fn access_page(enclave: u16, op: Op) -> Option<Page>
    ensures { result ≡ access_page enclave op }
{
    match op {
        Op::Load { off } | Op::Store { off, .. } | Op::Xadd { off, .. } => {
            Some(page_of(enclave, off))
        }
        _ => None,
    }
}
