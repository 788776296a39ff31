//! The scripts of the processors, drawn from a generator.

ghost use Rattle.std.specs.Prelude.{◌≡◌, ◌≤◌, IfOk, OnOk};
ghost use Rattle.job_grammar.specs.inner.Jobs.{script_ops};
ghost use Rattle.job_make.specs.MadeOps.{own_offset, shared_offset, made_op, made_script, made_scripts, state_behind_op};
ghost use Rattle.job_make.specs.MadeOps.{state_behind_ops};

use crate::generator::Generator;
use job_grammar::jobs::Op;
use sgx_types::names::{Memory, PAGE_BYTES};
use std::alloc::Global;

/// How many processors a made job has.
const CPUS: u32 = 4;

/// The offset of a word in a page that a processor has for itself.
#[tactic(auto, unfolding(crate::specs::MadeOps::own_offset))]
fn own_offset_of(cpu: u32, page: u32, word: u32) -> u64
    ensures { result ≡ own_offset cpu page word }
{
    (8 + 4 * u64::from(page) + u64::from(cpu)) * PAGE_BYTES + 8 * u64::from(word)
}

/// The offset of the word that all processors add to.
#[tactic(auto, unfolding(crate::specs::MadeOps::shared_offset))]
fn shared_offset_of(size: u32) -> u64
    ensures { result ≡ shared_offset size }
{
    (8 + u64::from(size)) * PAGE_BYTES
}

/// Draws an operation of a processor.
fn draw_op(draws: &mut Generator, size: u32, cpu: u32) -> Op
    requires { 4 ≤ size }
    ensures op { result ≡ made_op size cpu draws.old.state }
    ensures state { draws.new.state ≡ state_behind_op draws.old.state }
{
    let kind = draws.draw(4);
    let page = draws.draw(size / 4);
    let word = draws.draw(512);
    let off = own_offset_of(cpu, page, word);
    match kind {
        0 | 1 => Op::Load { off },
        2 => Op::Store {
            off,
            value: draws.draw(1_000_000).into(),
        },
        _ => Op::Xadd {
            off: shared_offset_of(size),
            value: 1,
        },
    }
}

/// Draws the script of a processor.
fn draw_script(alloc: Global, draws: &mut Generator, size: u32, cpu: u32) -> Result<Vec<Op>, Memory>
    requires { 4 ≤ size }
    ensures script { IfOk result (λ script. script.items ≡ made_script size cpu draws.old.state) }
    ensures state { OnOk result (draws.new.state ≡ state_behind_ops size draws.old.state) }
{
    let mut script = Vec::new(alloc);
    script.push(Op::Enter {
        enclave: 1,
        tcs: cpu,
    })?;
    for _ in 0..size {
        script.push(draw_op(draws, size, cpu))?;
    }
    script.push(Op::Exit)?;
    Ok(script)
}

/// Draws the scripts of all processors, one after the other.
pub(crate) fn draw_scripts(alloc: Global, number: u64, size: u32) -> Result<Vec<Vec<Op>>, Memory>
    requires { 4 ≤ size }
    ensures { IfOk result (λ scripts. script_ops scripts.items ≡ made_scripts size 4 0 number) }
{
    let mut draws = Generator { state: number };
    let mut scripts = Vec::new(alloc);
    for cpu in 0..CPUS {
        scripts.push(draw_script(alloc, &mut draws, size, cpu)?)?;
    }
    Ok(scripts)
}
