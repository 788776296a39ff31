//! Writing one line of a job.

ghost use Rattle.std.specs.Prelude.{◌≡◌, ◌++◌, ◌∷◌, OnOk, codes};
ghost use Rattle.text_words.specs.Words.{line_text, perm_word};
ghost use Rattle.job_print.specs.JobText.{op_words, plan_words, statement_text};

use job_lines::statements::{Operation, Plan, Statement};
use sgx_types::names::{Memory, Perm};
use text_words::words::Word::{Decimal, Digest, Enclave, Hexadecimal, Name};
use text_words::words::push_line;

/// The letters of permissions.
fn perm_name(perm: Perm) -> &'static str
    ensures { result.now ≡ perm_word perm }
{
    match (perm.r, perm.w, perm.x) {
        (true, true, true) => "rwx",
        (true, true, false) => "rw",
        (true, false, true) => "rx",
        (true, false, false) => "r",
        (false, true, true) => "wx",
        (false, true, false) => "w",
        (false, false, true) => "x",
        (false, false, false) => "",
    }
}

/// Writes the line of a TCS page.
#[tactic(auto, unfolding(crate::specs::JobText::statement_text))]
fn push_tcs(page: u64, ossa: u64, nssa: u64, plain: bool, onto: &mut Vec<u8>) -> Result<(), Memory>
    ensures { OnOk result (
        onto.new.items ≡ onto.old.items ++ statement_text (Statement.Tcs page ossa nssa plain)) }
{
    let (page, ossa, nssa) = (Decimal(page), Decimal(ossa), Decimal(nssa));
    if plain {
        push_line(Name("tcs"), &[page, ossa, nssa, Name("plain")], onto)
    } else {
        push_line(Name("tcs"), &[page, ossa, nssa], onto)
    }
}

/// Writes the line of REG pages.
#[tactic(auto, unfolding(crate::specs::JobText::statement_text))]
fn push_reg(
    first: u64,
    count: u64,
    perm: Perm,
    value: u64,
    plain: bool,
    onto: &mut Vec<u8>,
) -> Result<(), Memory>
    ensures { OnOk result (
        onto.new.items ≡ onto.old.items ++ statement_text (Statement.Reg first count perm value plain)) }
{
    let (first, count, value) = (Decimal(first), Decimal(count), Decimal(value));
    let perm = Name(perm_name(perm));
    if plain {
        push_line(
            Name("reg"),
            &[first, count, perm, value, Name("plain")],
            onto,
        )
    } else {
        push_line(Name("reg"), &[first, count, perm, value], onto)
    }
}

/// Writes a store line.
fn push_plan(plan: Plan, onto: &mut Vec<u8>) -> Result<(), Memory>
    ensures { OnOk result (onto.new.items ≡ onto.old.items ++ line_text (codes "store" ∷ plan_words plan)) }
{
    let store = Name("store");
    match plan {
        Plan::FailRoom { k } => push_line(store, &[Name("fail"), Name("room"), Decimal(k)], onto),
        Plan::FailPut { k } => push_line(store, &[Name("fail"), Name("put"), Decimal(k)], onto),
        Plan::FailGet { k } => push_line(store, &[Name("fail"), Name("get"), Decimal(k)], onto),
        Plan::DropGet { page, g } => push_line(
            store,
            &[
                Name("drop"),
                Enclave(page.enclave.into()),
                Decimal(page.number),
                Decimal(g),
            ],
            onto,
        ),
        Plan::Flip { page, g, bit } => push_line(
            store,
            &[
                Name("flip"),
                Enclave(page.enclave.into()),
                Decimal(page.number),
                Decimal(g),
                Decimal(bit),
            ],
            onto,
        ),
        Plan::Replay { page, g, w } => push_line(
            store,
            &[
                Name("replay"),
                Enclave(page.enclave.into()),
                Decimal(page.number),
                Decimal(g),
                Decimal(w),
            ],
            onto,
        ),
        Plan::Swap { one, other } => push_line(
            store,
            &[
                Name("swap"),
                Enclave(one.enclave.into()),
                Decimal(one.number),
                Enclave(other.enclave.into()),
                Decimal(other.number),
            ],
            onto,
        ),
    }
}

/// Writes the line of an operation.
fn push_operation(op: Operation, onto: &mut Vec<u8>) -> Result<(), Memory>
    ensures { OnOk result (onto.new.items ≡ onto.old.items ++ line_text (op_words op)) }
{
    match op {
        Operation::Enter { tcs } => push_line(
            Name("eenter"),
            &[Enclave(tcs.enclave.into()), Decimal(tcs.number)],
            onto,
        ),
        Operation::Resume { tcs } => push_line(
            Name("eresume"),
            &[Enclave(tcs.enclave.into()), Decimal(tcs.number)],
            onto,
        ),
        Operation::Exit => push_line(Name("eexit"), &[], onto),
        Operation::Timer => push_line(Name("timer"), &[], onto),
        Operation::Load { off } => push_line(Name("load"), &[Hexadecimal(off)], onto),
        Operation::Store { off, value } => {
            push_line(Name("store"), &[Hexadecimal(off), Decimal(value)], onto)
        }
        Operation::Xadd { off, value } => {
            push_line(Name("xadd"), &[Hexadecimal(off), Decimal(value)], onto)
        }
        Operation::Set { value } => push_line(Name("set"), &[Decimal(value)], onto),
        Operation::Plus { value } => push_line(Name("plus"), &[Decimal(value)], onto),
        Operation::OutLoad { enclave, off } => push_line(
            Name("outload"),
            &[Enclave(enclave.into()), Hexadecimal(off)],
            onto,
        ),
        Operation::OutStore {
            enclave,
            off,
            value,
        } => push_line(
            Name("outstore"),
            &[Enclave(enclave.into()), Hexadecimal(off), Decimal(value)],
            onto,
        ),
    }
}

/// Writes the line that says this.
#[tactic(auto, unfolding(crate::specs::JobText::statement_text))]
pub(crate) fn push_statement(statement: Statement, onto: &mut Vec<u8>) -> Result<(), Memory>
    ensures { OnOk result (onto.new.items ≡ onto.old.items ++ statement_text statement) }
{
    match statement {
        Statement::Epc { frames } => push_line(Name("epc"), &[Decimal(frames)], onto),
        Statement::Marks { low, high, scan } => push_line(
            Name("marks"),
            &[Decimal(low), Decimal(high), Decimal(scan)],
            onto,
        ),
        Statement::Key { key } => push_line(Name("key"), &[Digest(key)], onto),
        Statement::Start(start) => push_line(
            Name("start"),
            &[Decimal(start.epoch), Decimal(start.version)],
            onto,
        ),
        Statement::Enclave {
            enclave,
            base,
            size,
        } => push_line(
            Name("enclave"),
            &[
                Enclave(enclave.into()),
                Hexadecimal(base),
                Hexadecimal(size),
            ],
            onto,
        ),
        Statement::Tcs {
            page,
            ossa,
            nssa,
            plain,
        } => push_tcs(page, ossa, nssa, plain, onto),
        Statement::Reg {
            first,
            count,
            perm,
            value,
            plain,
        } => push_reg(first, count, perm, value, plain, onto),
        Statement::Expect { digest } => push_line(Name("expect"), &[Digest(digest)], onto),
        Statement::Plan(plan) => push_plan(plan, onto),
        Statement::Cpu { number } => push_line(Name("cpu"), &[Decimal(number)], onto),
        Statement::Operation(op) => push_operation(op, onto),
    }
}
