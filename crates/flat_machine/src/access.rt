//! Loads, stores and exchanges of flat memory, and its page faults.

ghost use Rattle.std.specs.Prelude.{◌≡◌, ◌<◌, ◌==◌, ◌&&◌, ◌^◌, ◌/◌, ◌%◌, ◌+◌, is_some, Some};
ghost use Rattle.sgx_rules.specs.declared.entries.Answer.TheVariants as answers;
ghost use Rattle.sgx_types.specs.Cases.{first_of_row};
ghost use Rattle.sgx_rules.specs.Table.{access_row, load_row, store_row, xadd_row, inside_row, pf_row};
ghost use Rattle.sgx_rules.specs.Table.{outside_row, allows, is_lawful_access, fault_of};
ghost use Rattle.sgx_rules.specs.declared.entries.AccessOp.TheVariants as accesses;
ghost use Rattle.sgx_rules.specs.Flat.{flat_translation, added_at_offset, word_seen, stored, sum_of, all_ones, with_acc};
ghost use Rattle.flat_machine.specs.inner.Parts.{memory_of, kind_of};
ghost use Rattle.flat_machine.specs.inner.Step.{replied, taken, allowed_by};

use crate::flat::{Flat, Mode, Processor};
use crate::reply::FlatReply;
use crate::table::Added;
use sgx_rules::entries::{AccessOp, Answer, PfWhy};
use sgx_rules::refusals::Refusal;
use sgx_types::names::{Cpu, Kind, PROCESSORS, Perm};

impl Flat {
    /// A processor reads a word of its enclave.
    pub(crate) fn load(&self, cpu: Cpu, off: u64) -> FlatReply
        requires { cpu.0 < PROCESSORS }
        ensures { result ≡ replied (first_of_row (load_row off (is_some ((memory_of self.now).cpus cpu.0).inside)
            (flat_translation (memory_of self.now) ((memory_of self.now).cpus cpu.0).inside off)))
            (answers.Value (word_seen (memory_of self.now) ((memory_of self.now).cpus cpu.0).inside off)) }
    {
        if let Some(refusal) = self.access_refusal(cpu, off, AccessOp::Load) {
            return FlatReply::Refused(refusal);
        }
        FlatReply::Did(Answer::Value(self.word_seen(cpu, off)))
    }

    /// A processor writes a word of its enclave.
    pub(crate) fn store(&mut self, cpu: Cpu, off: u64, value: u64) -> FlatReply
        requires { cpu.0 < PROCESSORS }
        ensures reply { result ≡ replied (first_of_row
            (store_row off (is_some ((memory_of self.old).cpus cpu.0).inside)
            (flat_translation (memory_of self.old) ((memory_of self.old).cpus cpu.0).inside off))) answers.Plain }
        ensures memory { memory_of self.new ≡ taken
            (first_of_row (store_row off (is_some ((memory_of self.old).cpus cpu.0).inside)
            (flat_translation (memory_of self.old) ((memory_of self.old).cpus cpu.0).inside off)))
            (stored (memory_of self.old) ((memory_of self.old).cpus cpu.0).inside off value) (memory_of self.old) }
    {
        if let Some(refusal) = self.access_refusal(cpu, off, AccessOp::Store) {
            return FlatReply::Refused(refusal);
        }
        self.write_seen(cpu, off, value);
        FlatReply::Did(Answer::Plain)
    }

    /// A processor adds to a word of its enclave, and takes what it was.
    pub(crate) fn xadd(&mut self, cpu: Cpu, off: u64, value: u64) -> FlatReply
        requires { cpu.0 < PROCESSORS }
        ensures reply { result ≡ replied (first_of_row
            (xadd_row off (is_some ((memory_of self.old).cpus cpu.0).inside)
            (flat_translation (memory_of self.old) ((memory_of self.old).cpus cpu.0).inside off)))
            (answers.Value (word_seen (memory_of self.old) ((memory_of self.old).cpus cpu.0).inside off)) }
        ensures memory { memory_of self.new ≡ taken
            (first_of_row (xadd_row off (is_some ((memory_of self.old).cpus cpu.0).inside)
            (flat_translation (memory_of self.old) ((memory_of self.old).cpus cpu.0).inside off)))
            (stored (memory_of self.old) ((memory_of self.old).cpus cpu.0).inside off
            (sum_of (word_seen (memory_of self.old) ((memory_of self.old).cpus cpu.0).inside off) value)) (memory_of self.old) }
    {
        if let Some(refusal) = self.access_refusal(cpu, off, AccessOp::Xadd) {
            return FlatReply::Refused(refusal);
        }
        let word = self.word_seen(cpu, off);
        self.write_seen(cpu, off, word.wrapping_add(value));
        FlatReply::Did(Answer::Value(word))
    }

    /// A processor inside sets its accumulator.
    pub(crate) fn set(&mut self, cpu: Cpu, value: u64) -> FlatReply
        requires { cpu.0 < PROCESSORS }
        ensures reply { result ≡ replied (first_of_row (inside_row (is_some ((memory_of self.old).cpus cpu.0).inside))) answers.Plain }
        ensures memory { memory_of self.new ≡ taken (first_of_row (inside_row (is_some ((memory_of self.old).cpus cpu.0).inside)))
            (with_acc (memory_of self.old) cpu.0 value) (memory_of self.old) }
    {
        if !self.is_inside(cpu) {
            return FlatReply::Refused(Refusal::WrongMode);
        }
        self.set_acc(cpu, value);
        FlatReply::Did(Answer::Plain)
    }

    /// A processor inside adds to its accumulator, mod 2^64.
    pub(crate) fn plus(&mut self, cpu: Cpu, value: u64) -> FlatReply
        requires { cpu.0 < PROCESSORS }
        ensures reply { result ≡ replied (first_of_row (inside_row (is_some ((memory_of self.old).cpus cpu.0).inside)))
            (answers.Value (sum_of ((memory_of self.old).cpus cpu.0).acc value)) }
        ensures memory { memory_of self.new ≡ taken (first_of_row (inside_row (is_some ((memory_of self.old).cpus cpu.0).inside)))
            (with_acc (memory_of self.old) cpu.0 (sum_of ((memory_of self.old).cpus cpu.0).acc value)) (memory_of self.old) }
    {
        if !self.is_inside(cpu) {
            return FlatReply::Refused(Refusal::WrongMode);
        }
        let sum = self.acc(cpu).wrapping_add(value);
        self.set_acc(cpu, sum);
        FlatReply::Did(Answer::Value(sum))
    }

    /// A processor learns that no reload can help an access.
    pub(crate) fn fault(&self, cpu: Cpu, op: AccessOp, off: u64) -> FlatReply
        requires { cpu.0 < PROCESSORS }
        ensures { result ≡ replied (first_of_row (pf_row op off (is_some ((memory_of self.now).cpus cpu.0).inside)
            (added_at_offset (memory_of self.now) ((memory_of self.now).cpus cpu.0).inside off)))
            (answers.Pf (fault_of (added_at_offset (memory_of self.now) ((memory_of self.now).cpus cpu.0).inside off))) }
    {
        let Mode::Inside { enclave, .. } = self.mode(cpu) else {
            return FlatReply::Refused(Refusal::WrongMode);
        };
        if off % 8 != 0 {
            return FlatReply::Refused(Refusal::BadRange);
        }
        let added = self.added(enclave, off / 4096);
        if is_lawful_access(added, op) {
            return FlatReply::Refused(Refusal::NoFault);
        }
        FlatReply::Did(Answer::Pf(fault_of(added)))
    }

    /// From outside, an enclave's memory reads as all ones.
    pub(crate) fn out_load(&self, cpu: Cpu) -> FlatReply
        requires { cpu.0 < PROCESSORS }
        ensures { result ≡ replied (first_of_row (outside_row (is_some ((memory_of self.now).cpus cpu.0).inside)))
            (answers.Value all_ones) }
    {
        if self.is_inside(cpu) {
            return FlatReply::Refused(Refusal::WrongMode);
        }
        FlatReply::Did(Answer::Value(u64::MAX))
    }

    /// From outside, nothing is kept in an enclave's memory.
    pub(crate) fn out_store(&self, cpu: Cpu) -> FlatReply
        requires { cpu.0 < PROCESSORS }
        ensures { result ≡ replied (first_of_row (outside_row (is_some ((memory_of self.now).cpus cpu.0).inside))) answers.Plain }
    {
        if self.is_inside(cpu) {
            return FlatReply::Refused(Refusal::WrongMode);
        }
        FlatReply::Did(Answer::Plain)
    }

    fn is_inside(&self, cpu: Cpu) -> bool
        requires { cpu.0 < PROCESSORS }
        ensures { result ≡ is_some ((memory_of self.now).cpus cpu.0).inside }
    {
        matches!(self.mode(cpu), Mode::Inside { .. })
    }

    // The first case that holds of the row of an access.
    fn access_refusal(&self, cpu: Cpu, off: u64, op: AccessOp) -> Option<Refusal>
        requires { cpu.0 < PROCESSORS }
        ensures { result ≡ first_of_row (access_row off (is_some ((memory_of self.now).cpus cpu.0).inside)
            (flat_translation (memory_of self.now) ((memory_of self.now).cpus cpu.0).inside off)
            (allowed_by op (flat_translation (memory_of self.now) ((memory_of self.now).cpus cpu.0).inside off))) }
    {
        let Mode::Inside { enclave, .. } = self.mode(cpu) else {
            return Some(Refusal::WrongMode);
        };
        if off % 8 != 0 {
            return Some(Refusal::BadRange);
        }
        let Some(perm) = self.reg_perm(enclave, off / 4096) else {
            return Some(Refusal::Miss);
        };
        if !allows(perm, op) {
            return Some(Refusal::NoPerm);
        }
        None
    }

    // The word at an offset in the enclave that a processor is inside, 0 outside.
    fn word_seen(&self, cpu: Cpu, off: u64) -> u64
        requires { cpu.0 < PROCESSORS }
        ensures { result ≡ word_seen (memory_of self.now) ((memory_of self.now).cpus cpu.0).inside off }
    {
        match self.mode(cpu) {
            Mode::Inside { enclave, .. } => self.word(
                enclave,
                off / 4096,
                (off % 4096 / 8) as usize,
            ),
            Mode::Outside => 0,
        }
    }

    // Writes that word, outside nothing.
    fn write_seen(&mut self, cpu: Cpu, off: u64, value: u64)
        requires { cpu.0 < PROCESSORS }
        ensures { memory_of self.new ≡ stored (memory_of self.old) ((memory_of self.old).cpus cpu.0).inside off value }
    {
        if let Mode::Inside { enclave, .. } = self.mode(cpu) {
            self.set_word(enclave, off / 4096, (off % 4096 / 8) as usize, value);
        }
    }

    fn set_acc(&mut self, cpu: Cpu, acc: u64)
        requires { cpu.0 < PROCESSORS }
        ensures { memory_of self.new ≡ with_acc (memory_of self.old) cpu.0 acc }
    {
        let mode = self.mode(cpu);
        self.set_cpu(cpu, Processor { mode, acc });
    }
}

fn allows(perm: Perm, op: AccessOp) -> bool
    ensures { result ≡ allows perm op }
{
    match op {
        AccessOp::Load => perm.r,
        AccessOp::Store => perm.w,
        AccessOp::Xadd => perm.r && perm.w,
    }
}

fn is_lawful_access(added: Option<Added>, op: AccessOp) -> bool
    ensures { result ≡ is_lawful_access (kind_of added) op }
{
    match added {
        Some(
            Added {
                kind: Kind::Reg,
                perm,
            },
        ) => allows(perm, op),
        _ => false,
    }
}

fn fault_of(added: Option<Added>) -> PfWhy
    ensures { result ≡ fault_of (kind_of added) }
{
    match added {
        None => PfWhy::Absent,
        Some(
            Added {
                kind: Kind::Reg,
                ..
            },
        ) => PfWhy::NoPerm,
        Some(_) => PfWhy::WrongType,
    }
}
