//! What the words of each line say, a function a row.

ghost use Rattle.std.specs.Prelude.{◌≡◌, map, IfOk};
ghost use Rattle.job_lines.specs.inner.Spelled.{IsSpelled, IsSpelledOp};
ghost use Rattle.job_lines.specs.Statements.{epc_row, marks_row, key_row, start_row, enclave_row, tcs_row, reg_row, expect_row};
ghost use Rattle.job_lines.specs.Statements.{fail_row};
ghost use Rattle.job_lines.specs.Statements.{drop_row, flip_row, replay_row, swap_row, plan_row, cpu_row, on_tcs, alone};
ghost use Rattle.job_lines.specs.Statements.{with_one};
ghost use Rattle.job_lines.specs.Statements.{with_two, outload_row, outstore_row, statement_of};
ghost use Rattle.job_lines.specs.declared.statements.Operation.TheVariants as ops;

use crate::keywords::{CallWord, Keyword, PlanWord};
use crate::kinds::JobKind;
use crate::statements::{NamedPage, Operation, Plan, Start, Statement};
use crate::words::{call_word_of, hash, keyword_of, letter, number, perm, plain, plan_word_of};

#[tactic(auto, unfolding(crate::specs::Statements::epc_row))]
fn epc(words: &[&[u8]]) -> Result<Statement, JobKind>
    ensures says { result ≡ epc_row (map (λ word. word.now) words.now) }
    ensures spelled { IfOk result IsSpelled }
{
    let [frames] = words else {
        return Err(JobKind::Word);
    };
    Ok(Statement::Epc {
        frames: number(frames)?,
    })
}

#[tactic(auto, unfolding(crate::specs::Statements::marks_row))]
fn marks(words: &[&[u8]]) -> Result<Statement, JobKind>
    ensures says { result ≡ marks_row (map (λ word. word.now) words.now) }
    ensures spelled { IfOk result IsSpelled }
{
    let [low, high, scan] = words else {
        return Err(JobKind::Word);
    };
    Ok(Statement::Marks {
        low: number(low)?,
        high: number(high)?,
        scan: number(scan)?,
    })
}

#[tactic(auto, unfolding(crate::specs::Statements::key_row))]
fn key(words: &[&[u8]]) -> Result<Statement, JobKind>
    ensures says { result ≡ key_row (map (λ word. word.now) words.now) }
    ensures spelled { IfOk result IsSpelled }
{
    let [word] = words else {
        return Err(JobKind::Word);
    };
    Ok(Statement::Key { key: hash(word)? })
}

#[tactic(auto, unfolding(crate::specs::Statements::start_row))]
fn start(words: &[&[u8]]) -> Result<Statement, JobKind>
    ensures says { result ≡ start_row (map (λ word. word.now) words.now) }
    ensures spelled { IfOk result IsSpelled }
{
    let [epoch, version] = words else {
        return Err(JobKind::Word);
    };
    Ok(Statement::Start(Start {
        epoch: number(epoch)?,
        version: number(version)?,
    }))
}

#[tactic(auto, unfolding(crate::specs::Statements::enclave_row))]
fn enclave(words: &[&[u8]]) -> Result<Statement, JobKind>
    ensures says { result ≡ enclave_row (map (λ word. word.now) words.now) }
    ensures spelled { IfOk result IsSpelled }
{
    let [name, base, size] = words else {
        return Err(JobKind::Word);
    };
    Ok(Statement::Enclave {
        enclave: letter(name)?,
        base: number(base)?,
        size: number(size)?,
    })
}

#[tactic(auto, unfolding(crate::specs::Statements::tcs_row))]
fn tcs(words: &[&[u8]]) -> Result<Statement, JobKind>
    ensures says { result ≡ tcs_row (map (λ word. word.now) words.now) }
    ensures spelled { IfOk result IsSpelled }
{
    let [page, ossa, nssa, rest @ ..] = words else {
        return Err(JobKind::Word);
    };
    let plain = plain(rest)?;
    Ok(Statement::Tcs {
        page: number(page)?,
        ossa: number(ossa)?,
        nssa: number(nssa)?,
        plain,
    })
}

#[tactic(auto, unfolding(crate::specs::Statements::reg_row))]
fn reg(words: &[&[u8]]) -> Result<Statement, JobKind>
    ensures says { result ≡ reg_row (map (λ word. word.now) words.now) }
    ensures spelled { IfOk result IsSpelled }
{
    let [first, count, access, value, rest @ ..] = words else {
        return Err(JobKind::Word);
    };
    let perm = perm(access)?;
    let plain = plain(rest)?;
    Ok(Statement::Reg {
        first: number(first)?,
        count: number(count)?,
        perm,
        value: number(value)?,
        plain,
    })
}

#[tactic(auto, unfolding(crate::specs::Statements::expect_row))]
fn expect(words: &[&[u8]]) -> Result<Statement, JobKind>
    ensures says { result ≡ expect_row (map (λ word. word.now) words.now) }
    ensures spelled { IfOk result IsSpelled }
{
    let [word] = words else {
        return Err(JobKind::Word);
    };
    Ok(Statement::Expect {
        digest: hash(word)?,
    })
}

#[tactic(auto, unfolding(crate::specs::Statements::fail_row))]
fn fail(words: &[&[u8]]) -> Result<Statement, JobKind>
    ensures says { result ≡ fail_row (map (λ word. word.now) words.now) }
    ensures spelled { IfOk result IsSpelled }
{
    let [call, count] = words else {
        return Err(JobKind::Word);
    };
    let call = call_word_of(call).ok_or(JobKind::Word)?;
    let k = number(count)?;
    Ok(Statement::Plan(match call {
        CallWord::Room => Plan::FailRoom { k },
        CallWord::Put => Plan::FailPut { k },
        CallWord::Get => Plan::FailGet { k },
    }))
}

#[tactic(auto, unfolding(crate::specs::Statements::drop_row))]
fn drop_line(words: &[&[u8]]) -> Result<Statement, JobKind>
    ensures says { result ≡ drop_row (map (λ word. word.now) words.now) }
    ensures spelled { IfOk result IsSpelled }
{
    let [name, page, get] = words else {
        return Err(JobKind::Word);
    };
    let page = NamedPage {
        enclave: letter(name)?,
        number: number(page)?,
    };
    Ok(Statement::Plan(Plan::DropGet {
        page,
        g: number(get)?,
    }))
}

#[tactic(auto, unfolding(crate::specs::Statements::flip_row))]
fn flip(words: &[&[u8]]) -> Result<Statement, JobKind>
    ensures says { result ≡ flip_row (map (λ word. word.now) words.now) }
    ensures spelled { IfOk result IsSpelled }
{
    let [name, page, get, place] = words else {
        return Err(JobKind::Word);
    };
    let page = NamedPage {
        enclave: letter(name)?,
        number: number(page)?,
    };
    Ok(Statement::Plan(Plan::Flip {
        page,
        g: number(get)?,
        bit: number(place)?,
    }))
}

#[tactic(auto, unfolding(crate::specs::Statements::replay_row))]
fn replay(words: &[&[u8]]) -> Result<Statement, JobKind>
    ensures says { result ≡ replay_row (map (λ word. word.now) words.now) }
    ensures spelled { IfOk result IsSpelled }
{
    let [name, page, get, put] = words else {
        return Err(JobKind::Word);
    };
    let page = NamedPage {
        enclave: letter(name)?,
        number: number(page)?,
    };
    Ok(Statement::Plan(Plan::Replay {
        page,
        g: number(get)?,
        w: number(put)?,
    }))
}

#[tactic(auto, unfolding(crate::specs::Statements::swap_row))]
fn swap(words: &[&[u8]]) -> Result<Statement, JobKind>
    ensures says { result ≡ swap_row (map (λ word. word.now) words.now) }
    ensures spelled { IfOk result IsSpelled }
{
    let [name, page, other_name, other_page] = words else {
        return Err(JobKind::Word);
    };
    let enclave = letter(name)?;
    let other_enclave = letter(other_name)?;
    let one = NamedPage {
        enclave,
        number: number(page)?,
    };
    let other = NamedPage {
        enclave: other_enclave,
        number: number(other_page)?,
    };
    Ok(Statement::Plan(Plan::Swap { one, other }))
}

/// What a line says whose first word is `store`, before the first processor.
#[tactic(auto, unfolding(crate::specs::Statements::plan_row))]
fn plan(words: &[&[u8]]) -> Result<Statement, JobKind>
    ensures says { result ≡ plan_row (map (λ word. word.now) words.now) }
    ensures spelled { IfOk result IsSpelled }
{
    let [first, rest @ ..] = words else {
        return Err(JobKind::Word);
    };
    match plan_word_of(first).ok_or(JobKind::Word)? {
        PlanWord::Fail => fail(rest),
        PlanWord::Drop => drop_line(rest),
        PlanWord::Flip => flip(rest),
        PlanWord::Replay => replay(rest),
        PlanWord::Swap => swap(rest),
    }
}

#[tactic(auto, unfolding(crate::specs::Statements::cpu_row))]
fn cpu(words: &[&[u8]]) -> Result<Statement, JobKind>
    ensures says { result ≡ cpu_row (map (λ word. word.now) words.now) }
    ensures spelled { IfOk result IsSpelled }
{
    let [word] = words else {
        return Err(JobKind::Word);
    };
    Ok(Statement::Cpu {
        number: number(word)?,
    })
}

fn enter(words: &[&[u8]]) -> Result<Statement, JobKind>
    ensures says { result ≡ on_tcs ops.Enter (map (λ word. word.now) words.now) }
    ensures spelled { IfOk result IsSpelled }
{
    let [name, page] = words else {
        return Err(JobKind::Word);
    };
    let tcs = NamedPage {
        enclave: letter(name)?,
        number: number(page)?,
    };
    Ok(Statement::Operation(Operation::Enter { tcs }))
}

fn resume(words: &[&[u8]]) -> Result<Statement, JobKind>
    ensures says { result ≡ on_tcs ops.Resume (map (λ word. word.now) words.now) }
    ensures spelled { IfOk result IsSpelled }
{
    let [name, page] = words else {
        return Err(JobKind::Word);
    };
    let tcs = NamedPage {
        enclave: letter(name)?,
        number: number(page)?,
    };
    Ok(Statement::Operation(Operation::Resume { tcs }))
}

fn load(words: &[&[u8]]) -> Result<Statement, JobKind>
    ensures says { result ≡ with_one ops.Load (map (λ word. word.now) words.now) }
    ensures spelled { IfOk result IsSpelled }
{
    let [off] = words else {
        return Err(JobKind::Word);
    };
    Ok(Statement::Operation(Operation::Load { off: number(off)? }))
}

fn set(words: &[&[u8]]) -> Result<Statement, JobKind>
    ensures says { result ≡ with_one ops.Set (map (λ word. word.now) words.now) }
    ensures spelled { IfOk result IsSpelled }
{
    let [value] = words else {
        return Err(JobKind::Word);
    };
    Ok(Statement::Operation(Operation::Set {
        value: number(value)?,
    }))
}

fn plus(words: &[&[u8]]) -> Result<Statement, JobKind>
    ensures says { result ≡ with_one ops.Plus (map (λ word. word.now) words.now) }
    ensures spelled { IfOk result IsSpelled }
{
    let [value] = words else {
        return Err(JobKind::Word);
    };
    Ok(Statement::Operation(Operation::Plus {
        value: number(value)?,
    }))
}

fn store(words: &[&[u8]]) -> Result<Statement, JobKind>
    ensures says { result ≡ with_two ops.Store (map (λ word. word.now) words.now) }
    ensures spelled { IfOk result IsSpelled }
{
    let [off, value] = words else {
        return Err(JobKind::Word);
    };
    Ok(Statement::Operation(Operation::Store {
        off: number(off)?,
        value: number(value)?,
    }))
}

fn xadd(words: &[&[u8]]) -> Result<Statement, JobKind>
    ensures says { result ≡ with_two ops.Xadd (map (λ word. word.now) words.now) }
    ensures spelled { IfOk result IsSpelled }
{
    let [off, value] = words else {
        return Err(JobKind::Word);
    };
    Ok(Statement::Operation(Operation::Xadd {
        off: number(off)?,
        value: number(value)?,
    }))
}

#[tactic(auto, unfolding(crate::specs::Statements::outload_row))]
fn outload(words: &[&[u8]]) -> Result<Statement, JobKind>
    ensures says { result ≡ outload_row (map (λ word. word.now) words.now) }
    ensures spelled { IfOk result IsSpelled }
{
    let [name, off] = words else {
        return Err(JobKind::Word);
    };
    Ok(Statement::Operation(Operation::OutLoad {
        enclave: letter(name)?,
        off: number(off)?,
    }))
}

#[tactic(auto, unfolding(crate::specs::Statements::outstore_row))]
fn outstore(words: &[&[u8]]) -> Result<Statement, JobKind>
    ensures says { result ≡ outstore_row (map (λ word. word.now) words.now) }
    ensures spelled { IfOk result IsSpelled }
{
    let [name, off, value] = words else {
        return Err(JobKind::Word);
    };
    Ok(Statement::Operation(Operation::OutStore {
        enclave: letter(name)?,
        off: number(off)?,
        value: number(value)?,
    }))
}

/// An operation of no word more.
fn alone(operation: Operation, words: &[&[u8]]) -> Result<Statement, JobKind>
    requires { IsSpelledOp operation }
    ensures says { result ≡ alone operation (map (λ word. word.now) words.now) }
    ensures spelled { IfOk result IsSpelled }
{
    if words.is_empty() {
        Ok(Statement::Operation(operation))
    } else {
        Err(JobKind::Word)
    }
}

/// What the words of a line say, or the first fault of a word. `store` is an operation once a processor stands.
#[tactic(auto, unfolding(crate::specs::Statements::statement_of))]
pub fn statement_of(has_cpu: bool, words: &[&[u8]]) -> Result<Statement, JobKind>
    ensures says { result ≡ statement_of has_cpu (map (λ word. word.now) words.now) }
    ensures spelled { IfOk result IsSpelled }
{
    let [first, rest @ ..] = words else {
        return Err(JobKind::Word);
    };
    match keyword_of(first).ok_or(JobKind::Word)? {
        Keyword::Epc => epc(rest),
        Keyword::Marks => marks(rest),
        Keyword::Key => key(rest),
        Keyword::Start => start(rest),
        Keyword::Enclave => enclave(rest),
        Keyword::Tcs => tcs(rest),
        Keyword::Reg => reg(rest),
        Keyword::Expect => expect(rest),
        Keyword::Store if has_cpu => store(rest),
        Keyword::Store => plan(rest),
        Keyword::Cpu => cpu(rest),
        Keyword::Enter => enter(rest),
        Keyword::Resume => resume(rest),
        Keyword::Exit => alone(Operation::Exit, rest),
        Keyword::Timer => alone(Operation::Timer, rest),
        Keyword::Load => load(rest),
        Keyword::Xadd => xadd(rest),
        Keyword::Set => set(rest),
        Keyword::Plus => plus(rest),
        Keyword::OutLoad => outload(rest),
        Keyword::OutStore => outstore(rest),
    }
}
