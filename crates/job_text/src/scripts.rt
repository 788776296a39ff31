//! The scripts of a job while their lines are read.

ghost use Rattle.std.specs.Prelude.{◌≡◌, ◌+◌, ◌*◌, ◌<◌, ◌≤◌, ℕ, Some, cond, vec_len};
ghost use Rattle.job_grammar.specs.Jobs.{names_tcs};
ghost use Rattle.job_text.specs.inner.Scripts.{AreSmall, owner_at};

use crate::lasts::add_op;
use job_grammar::jobs::Op;
use sgx_types::names::Page;
use std::alloc::{AllocError, Global};
use std::marker::Model;

/// How many places the table of owners has: one for each page that an enclave from 1 to 8 can have.
const PLACES: usize = 9 * 4096;

/// The scripts as their lines are read, with a table of the TCS pages that they name.
#[derive(Drop)]
pub(crate) struct Scripts {
    scripts: Vec<Vec<Op>>,

    /// Which script names each page first, by the page's enclave and number.
    owners: Vec<Option<u8>>,
}

impl Model for Scripts {
    ghost use Rattle.std.specs.Prelude.{List};
    ghost use Rattle.job_grammar.specs.declared.jobs.Op.{Op};
    ghost use Rattle.job_text.specs.inner.Scripts.{view_of, AreScriptsKept};

    ghost Value = { List (List Op) };

    ghost view = { view_of };

    ghost invariant = { AreScriptsKept };
}

/// The place of a page in the table of owners.
fn place_of(enclave: u16, number: u32) -> usize
    requires enclave { enclave ≤ 8 }
    requires number { number < 4096 }
    ensures { result ≡ enclave * 4096 + number }
{
    usize::from(enclave) * 4096 + number as usize
}

/// Notes the script of an operation that names a TCS page.
fn note(owners: &mut Vec<Option<u8>>, op: Op, script: u8)
    requires sized { vec_len owners.old ≡ 9 * 4096 }
    requires small { AreSmall op }
    ensures length { vec_len owners.new ≡ vec_len owners.old }
    ensures noted { (enclave number : ℕ) → number < 4096 → owner_at owners.new.items enclave number
        ≡ cond (names_tcs enclave number op) (Some script) (owner_at owners.old.items enclave number) }
{
    if let Op::Enter { enclave, tcs } | Op::Resume { enclave, tcs } = op {
        owners[place_of(enclave, tcs)] = Some(script);
    }
}

impl Scripts {
    ghost use Rattle.std.specs.Prelude.{[], ◌∷◌, ◌++◌, ◌==◌, length, IfOk, IfErr, true, false};
    ghost use Rattle.std.specs.List.{list_any};
    ghost use Rattle.job_grammar.specs.Jobs.{script_names};
    ghost use Rattle.job_grammar.specs.inner.Jobs.{script_ops};
    ghost use Rattle.job_text.specs.Drafts.{add_op};
    ghost use Rattle.job_text.specs.Faults.{earlier};

    /// No script.
    pub(crate) fn new(alloc: Global) -> Result<Self, AllocError>
        ensures { IfOk result (λ scripts. scripts ≡ []) }
    {
        let owners = vec![in alloc; None; PLACES]?;
        Ok(Scripts {
            scripts: Vec::new(alloc),
            owners,
        })
    }

    /// How many scripts there are.
    pub(crate) fn len(&self) -> usize
        ensures value { result ≡ length self.now }
        ensures few { result ≤ 16 }
    {
        self.scripts.len()
    }

    /// Whether there is none.
    pub(crate) fn is_empty(&self) -> bool
        ensures { result ≡ (length self.now == 0) }
    {
        self.scripts.is_empty()
    }

    /// Whether a script before the last names a page.
    pub(crate) fn names_before(&self, page: Page) -> bool
        requires enclave { page.enclave ≤ 8 }
        requires number { page.number < 4096 }
        ensures { result ≡ list_any (script_names page.enclave page.number) (earlier self.now) }
    {
        match self.owners[place_of(page.enclave, page.number)] {
            Some(owner) => usize::from(owner) + 1 < self.scripts.len(),
            None => false,
        }
    }

    /// Begins a script.
    pub(crate) fn begin(&mut self, alloc: Global) -> Result<(), AllocError>
        requires { length self.old ≤ 15 }
        ensures begun { IfOk result (λ _. self.new ≡ self.old ++ [] ∷ []) }
        ensures kept { IfErr result (λ _. self.new ≡ self.old) }
    {
        self.scripts.push(Vec::new(alloc))?;
        Ok(())
    }

    /// Adds an operation to the last script. A page that it names is named by no script before.
    pub(crate) fn add(&mut self, op: Op) -> Result<(), AllocError>
        requires some { 1 ≤ length self.old }
        requires small { AreSmall op }
        requires own { (enclave number : ℕ) → names_tcs enclave number op ≡ true
            → list_any (script_names enclave number) (earlier self.old) ≡ false }
        ensures added { IfOk result (λ _. self.new ≡ add_op op self.old) }
        ensures kept { IfErr result (λ _. self.new ≡ self.old) }
    {
        add_op(&mut self.scripts, op)?;
        let last = self.scripts.len() - 1;
        note(&mut self.owners, op, last as u8);
        Ok(())
    }

    /// The scripts, without their table.
    pub(crate) fn into_vec(self) -> Vec<Vec<Op>>
        ensures { script_ops result.items ≡ self }
    {
        self.scripts
    }
}
