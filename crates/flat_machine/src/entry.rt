//! Entries and exits of flat memory.

ghost use Rattle.std.specs.Prelude.{◌≡◌, ◌<◌, ◌+◌, ◌-◌, ◌==◌, ◌^◌, ◌%◌, ◌/◌, true, is_some, Some};
ghost use Rattle.sgx_rules.specs.declared.entries.Answer.TheVariants as answers;
ghost use Rattle.sgx_types.specs.Pages.{page_at};
ghost use Rattle.sgx_types.specs.Cases.{first_of_row, when};
ghost use Rattle.sgx_rules.specs.Table.{entry_row, ssa_row, inside_row};
ghost use Rattle.sgx_rules.specs.Flat.{flat_frame, flat_enter_sight, flat_enter_row, flat_resume_row, fields_in};
ghost use Rattle.sgx_rules.specs.Flat.{with_words, with_cssa, entered, left, saved, resumed, resumed_word};
ghost use Rattle.flat_machine.specs.inner.Parts.{memory_of, fields_of, seat};
ghost use Rattle.flat_machine.specs.inner.Step.{replied, taken};

use crate::flat::{Flat, Mode, Processor};
use crate::reply::FlatReply;
use sgx_rules::entries::Answer;
use sgx_rules::refusals::Refusal;
use sgx_types::layouts::TcsFields;
use sgx_types::names::{Cpu, Kind, PROCESSORS};

impl Flat {
    /// A processor goes into an enclave by a free TCS page (EENTER).
    pub(crate) fn enter(&mut self, cpu: Cpu, enclave: u16, tcs: u32) -> FlatReply
        requires { cpu.0 < PROCESSORS }
        ensures reply { result ≡ replied (first_of_row (flat_enter_row (memory_of self.old) cpu.0 enclave tcs))
            (answers.Cssa (fields_in (memory_of self.old) enclave tcs).cssa) }
        ensures memory { memory_of self.new ≡ taken (first_of_row (flat_enter_row (memory_of self.old) cpu.0 enclave tcs))
            (entered (memory_of self.old) cpu.0 enclave tcs (fields_in (memory_of self.old) enclave tcs).cssa) (memory_of self.old) }
    {
        let fields = self.tcs_fields(enclave, tcs);
        let lacks = fields.cssa == fields.nssa;
        let next = fields.ossa / 4096 + u64::from(fields.cssa);
        if let Some(refusal) = self.entry_refusal(
            cpu,
            enclave,
            tcs,
            lacks,
            Refusal::NoFrame,
            next,
        ) {
            return FlatReply::Refused(refusal);
        }
        self.seat(cpu, enclave, tcs, u64::from(fields.cssa));
        FlatReply::Did(Answer::Cssa(fields.cssa))
    }

    /// A processor goes on where it was taken out last (ERESUME).
    pub(crate) fn resume(&mut self, cpu: Cpu, enclave: u16, tcs: u32) -> FlatReply
        requires { cpu.0 < PROCESSORS }
        ensures reply { result ≡ replied (first_of_row (flat_resume_row (memory_of self.old) cpu.0 enclave tcs))
            (answers.Value (resumed_word (memory_of self.old) enclave tcs)) }
        ensures memory { memory_of self.new ≡ taken (first_of_row (flat_resume_row (memory_of self.old) cpu.0 enclave tcs))
            (resumed (memory_of self.old) cpu.0 enclave tcs) (memory_of self.old) }
    {
        let fields = self.tcs_fields(enclave, tcs);
        let lacks = fields.cssa == 0;
        let last = (fields.ossa / 4096 + u64::from(fields.cssa)).saturating_sub(1);
        if let Some(refusal) = self.entry_refusal(
            cpu,
            enclave,
            tcs,
            lacks,
            Refusal::NoSaved,
            last,
        ) {
            return FlatReply::Refused(refusal);
        }
        FlatReply::Did(Answer::Value(self.take_back(cpu, enclave, tcs)))
    }

    /// A processor leaves its enclave (EEXIT).
    pub(crate) fn exit(&mut self, cpu: Cpu) -> FlatReply
        requires { cpu.0 < PROCESSORS }
        ensures reply { result ≡ replied (first_of_row (inside_row (is_some ((memory_of self.old).cpus cpu.0).inside))) answers.Plain }
        ensures memory { memory_of self.new ≡ taken (first_of_row (inside_row (is_some ((memory_of self.old).cpus cpu.0).inside)))
            (left (memory_of self.old) cpu.0) (memory_of self.old) }
    {
        let Mode::Inside { enclave, tcs } = self.mode(cpu) else {
            return FlatReply::Refused(Refusal::WrongMode);
        };
        self.leave(cpu, enclave, tcs);
        FlatReply::Did(Answer::Plain)
    }

    /// A processor is taken out of its enclave, and its state is saved there (asynchronous exit).
    pub(crate) fn aex(&mut self, cpu: Cpu) -> FlatReply
        requires { cpu.0 < PROCESSORS }
        ensures reply { result ≡ replied (first_of_row (inside_row (is_some ((memory_of self.old).cpus cpu.0).inside))) answers.Plain }
        ensures memory { memory_of self.new ≡ taken (first_of_row (inside_row (is_some ((memory_of self.old).cpus cpu.0).inside)))
            (left (saved (memory_of self.old) ((memory_of self.old).cpus cpu.0).acc ((memory_of self.old).cpus cpu.0).inside) cpu.0)
            (memory_of self.old) }
    {
        let Mode::Inside { enclave, tcs } = self.mode(cpu) else {
            return FlatReply::Refused(Refusal::WrongMode);
        };
        let acc = self.acc(cpu);
        self.save(enclave, tcs, acc);
        self.leave(cpu, enclave, tcs);
        FlatReply::Did(Answer::Plain)
    }

    // The first case that holds of the row of an entry, with what is asked of CSSA, and the page of the state save frame.
    fn entry_refusal(
        &self,
        cpu: Cpu,
        enclave: u16,
        tcs: u32,
        lacks: bool,
        why: Refusal,
        saved: u64,
    ) -> Option<Refusal>
        requires { cpu.0 < PROCESSORS }
        ensures { result ≡ first_of_row (entry_row enclave tcs (flat_enter_sight (memory_of self.now) cpu.0 enclave tcs saved)
            (when lacks why) saved) }
    {
        if let Mode::Inside { .. } = self.mode(cpu) {
            return Some(Refusal::WrongMode);
        }
        let Some(found) = self.enclave(enclave) else {
            return Some(Refusal::Absent);
        };
        if !found.is_init {
            return Some(Refusal::NotInit);
        }
        let Some(page) = self.added(enclave, u64::from(tcs)) else {
            return Some(Refusal::Absent);
        };
        if page.kind != Kind::Tcs {
            return Some(Refusal::BadKind);
        }
        if self.is_busy(enclave, u64::from(tcs)) {
            return Some(Refusal::TcsBusy);
        }
        if lacks {
            return Some(why);
        }
        self.ssa_refusal(enclave, saved)
    }

    // The first case that holds of the part of that row that is on the state save frame.
    fn ssa_refusal(&self, enclave: u16, number: u64) -> Option<Refusal>
        ensures { result ≡ first_of_row (ssa_row enclave number (flat_frame (memory_of self.now) (page_at enclave number))) }
    {
        let Some(page) = self.added(enclave, number) else {
            return Some(Refusal::Absent);
        };
        if page.kind != Kind::Reg {
            return Some(Refusal::BadKind);
        }
        if !page.perm.r || !page.perm.w {
            return Some(Refusal::NoPerm);
        }
        None
    }

    // The fields of a TCS page.
    pub(crate) fn tcs_fields(&self, enclave: u16, tcs: u32) -> TcsFields
        ensures { fields_of result ≡ fields_in (memory_of self.now) enclave tcs }
    {
        let counts = self.word(enclave, u64::from(tcs), 3);
        TcsFields {
            ossa: self.word(enclave, u64::from(tcs), 2),
            cssa: (counts % (1 << 32)) as u32,
            nssa: (counts >> 32) as u32,
        }
    }

    // Another CSSA for a TCS page. It counts mod 2^32.
    fn set_cssa(&mut self, enclave: u16, tcs: u32, cssa: u64)
        ensures { memory_of self.new ≡ with_words (memory_of self.old) (page_at enclave tcs) (λ words. with_cssa words cssa) }
    {
        let counts = self.word(enclave, u64::from(tcs), 3);
        let counts = cssa % (1 << 32) + counts / (1 << 32) * (1 << 32);
        self.set_word(enclave, u64::from(tcs), 3, counts);
    }

    // A processor is inside by a TCS page.
    fn seat(&mut self, cpu: Cpu, enclave: u16, tcs: u32, acc: u64)
        requires cpu_in { cpu.0 < PROCESSORS }
        requires added { is_some ((memory_of self.old).pages (page_at enclave tcs)) ≡ true }
        ensures { memory_of self.new ≡ entered (memory_of self.old) cpu.0 enclave tcs acc }
    {
        let mode = Mode::Inside { enclave, tcs };
        self.set_cpu(cpu, Processor { mode, acc });
        self.set_busy(enclave, u64::from(tcs), true);
    }

    // A processor is inside again with the accumulator that was saved last, and one state save frame fewer is in use.
    fn take_back(&mut self, cpu: Cpu, enclave: u16, tcs: u32) -> u64
        requires cpu_in { cpu.0 < PROCESSORS }
        requires added { is_some ((memory_of self.old).pages (page_at enclave tcs)) ≡ true }
        ensures answer { result ≡ resumed_word (memory_of self.old) enclave tcs }
        ensures done { memory_of self.new ≡ resumed (memory_of self.old) cpu.0 enclave tcs }
    {
        let fields = self.tcs_fields(enclave, tcs);
        let last = (fields.ossa / 4096 + u64::from(fields.cssa)).saturating_sub(1);
        let acc = self.word(enclave, last, 0);
        self.set_cssa(enclave, tcs, u64::from(fields.cssa).saturating_sub(1));
        self.seat(cpu, enclave, tcs, acc);
        acc
    }

    // A processor that is inside by a TCS page leaves.
    fn leave(&mut self, cpu: Cpu, enclave: u16, tcs: u32)
        requires cpu_in { cpu.0 < PROCESSORS }
        requires inside { ((memory_of self.old).cpus cpu.0).inside ≡ Some (seat enclave tcs) }
        ensures { memory_of self.new ≡ left (memory_of self.old) cpu.0 }
    {
        let acc = self.acc(cpu);
        let mode = Mode::Outside;
        self.set_cpu(cpu, Processor { mode, acc });
        self.set_busy(enclave, u64::from(tcs), false);
    }

    // Saves an accumulator in the state save frame that CSSA names, and takes that frame into use.
    fn save(&mut self, enclave: u16, tcs: u32, acc: u64)
        ensures { memory_of self.new ≡ saved (memory_of self.old) acc (Some (seat enclave tcs)) }
    {
        let fields = self.tcs_fields(enclave, tcs);
        let number = fields.ossa / 4096 + u64::from(fields.cssa);
        self.set_word(enclave, number, 0, acc);
        self.set_cssa(enclave, tcs, u64::from(fields.cssa) + 1);
    }
}
