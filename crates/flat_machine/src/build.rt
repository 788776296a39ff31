//! The instructions of flat memory that build an enclave.

ghost use Rattle.std.specs.Prelude.{◌≡◌, ◌<◌, false, is_some, IfOk, OnOk, OnErr};
ghost use Rattle.sgx_rules.specs.declared.entries.Answer.TheVariants as answers;
ghost use Rattle.sgx_types.specs.Pages.{page_at};
ghost use Rattle.sgx_types.specs.Cases.{first_of_row};
ghost use Rattle.sgx_rules.specs.Table.{create_row, add_row, extend_row, init_row};
ghost use Rattle.sgx_rules.specs.Flat.{open_frame, settled, some_page, enclave_sight, first_words, with_enclave, with_page, initialised};
ghost use Rattle.flat_machine.specs.inner.Parts.{memory_of};
ghost use Rattle.flat_machine.specs.inner.Step.{replied, taken};

use crate::flat::{Enclave, Flat};
use crate::reply::FlatReply;
use crate::table::{PlainPage, Table};
use crate::words::Words;
use sgx_rules::entries::Answer;
use sgx_rules::refusals::Refusal;
use sgx_types::lawful::{PageInit, is_addable, is_enclave, is_lawful, is_lawful_perm, is_within};
use sgx_types::names::{Kind, Memory, Perm};
use std::alloc::Global;

impl Flat {
    /// An enclave is created (ECREATE).
    pub(crate) fn create(
        &mut self,
        alloc: Global,
        enclave: u16,
        base: u64,
        size: u64,
    ) -> Result<FlatReply, Memory>
        ensures reply { IfOk result (λ reply. reply ≡ replied
            (first_of_row (create_row enclave base size (is_some ((memory_of self.old).enclaves enclave)) open_frame)) answers.Plain) }
        ensures memory { OnOk result (memory_of self.new ≡ taken
            (first_of_row (create_row enclave base size (is_some ((memory_of self.old).enclaves enclave)) open_frame))
            (with_enclave (memory_of self.old) enclave (record { base = base; size = size; is_init = false })) (memory_of self.old)) }
        ensures refused { OnErr result (self.new ≡ self.old) }
    {
        if let Some(refusal) = self.create_refusal(enclave, base, size) {
            return Ok(FlatReply::Refused(refusal));
        }
        self.set_enclave(alloc, enclave, base, size)?;
        Ok(FlatReply::Did(Answer::Plain))
    }

    /// A page is added to an enclave that is not initialised (EADD).
    pub(crate) fn add(
        &mut self,
        alloc: Global,
        enclave: u16,
        number: u32,
        kind: Kind,
        perm: Perm,
        init: PageInit,
    ) -> Result<FlatReply, Memory>
        ensures reply { IfOk result (λ reply. reply ≡ replied
            (first_of_row (add_row number kind perm init (enclave_sight (memory_of self.old) enclave) settled
            (is_some ((memory_of self.old).pages (page_at enclave number))) open_frame)) answers.Plain) }
        ensures memory { OnOk result (memory_of self.new ≡ taken
            (first_of_row (add_row number kind perm init (enclave_sight (memory_of self.old) enclave) settled
            (is_some ((memory_of self.old).pages (page_at enclave number))) open_frame))
            (with_page (memory_of self.old) (page_at enclave number) (record { kind = kind; perm = perm; words = first_words init }))
            (memory_of self.old)) }
        ensures refused { OnErr result (self.new ≡ self.old) }
    {
        if let Some(refusal) = self.add_refusal(enclave, number, kind, perm, init) {
            return Ok(FlatReply::Refused(refusal));
        }
        self.set_page(alloc, enclave, number, kind, perm, init)?;
        Ok(FlatReply::Did(Answer::Plain))
    }

    /// An enclave is initialised (EINIT). Its measurement is not counted.
    pub(crate) fn init(&mut self, enclave: u16) -> FlatReply
        ensures reply { result ≡ replied (first_of_row (init_row (enclave_sight (memory_of self.old) enclave) settled)) answers.Plain }
        ensures memory { memory_of self.new ≡ taken (first_of_row (init_row (enclave_sight (memory_of self.old) enclave) settled))
            (initialised (memory_of self.old) enclave) (memory_of self.old) }
    {
        if let Some(refusal) = self.init_refusal(enclave) {
            return FlatReply::Refused(refusal);
        }
        self.set_init(enclave);
        FlatReply::Did(Answer::Plain)
    }

    fn create_refusal(&self, enclave: u16, base: u64, size: u64) -> Option<Refusal>
        ensures { result ≡ first_of_row (create_row enclave base size (is_some ((memory_of self.now).enclaves enclave)) open_frame) }
    {
        if !is_enclave(enclave) || !is_lawful(base, size) {
            return Some(Refusal::BadRange);
        }
        if self.enclave(enclave).is_some() {
            return Some(Refusal::PageExists);
        }
        None
    }

    fn add_refusal(
        &self,
        enclave: u16,
        number: u32,
        kind: Kind,
        perm: Perm,
        init: PageInit,
    ) -> Option<Refusal>
        ensures { result ≡ first_of_row (add_row number kind perm init (enclave_sight (memory_of self.now) enclave) settled
            (is_some ((memory_of self.now).pages (page_at enclave number))) open_frame) }
    {
        let Some(found) = self.enclave(enclave) else {
            return Some(Refusal::Absent);
        };
        if found.is_init {
            return Some(Refusal::IsInit);
        }
        if !is_addable(kind, init) {
            return Some(Refusal::BadKind);
        }
        if !is_lawful_perm(kind, perm) {
            return Some(Refusal::BadPerm);
        }
        if !is_within(found.size, number, init) {
            return Some(Refusal::BadRange);
        }
        if self.added(enclave, u64::from(number)).is_some() {
            return Some(Refusal::PageExists);
        }
        None
    }

    fn init_refusal(&self, enclave: u16) -> Option<Refusal>
        ensures { result ≡ first_of_row (init_row (enclave_sight (memory_of self.now) enclave) settled) }
    {
        match self.enclave(enclave) {
            None => Some(Refusal::Absent),
            Some(found) if found.is_init => Some(Refusal::IsInit),
            Some(_) => None,
        }
    }

    // A new enclave, with a place for each of its pages.
    fn set_enclave(
        &mut self,
        alloc: Global,
        enclave: u16,
        base: u64,
        size: u64,
    ) -> Result<(), Memory>
        requires { first_of_row (create_row enclave base size (is_some ((memory_of self.old).enclaves enclave)) open_frame) ≡ None }
        ensures done { OnOk result (memory_of self.new ≡ with_enclave (memory_of self.old) enclave
            (record { base = base; size = size; is_init = false })) }
        ensures refused { OnErr result (self.new ≡ self.old) }
    {
        let table = Table::new(alloc, size / 4096)?;
        let place = usize::from(enclave);
        self.tables[place] = table;
        self.enclaves[place] = Some(Enclave {
            base,
            size,
            is_init: false,
        });
        Ok(())
    }

    // A page more, with its first words.
    fn set_page(
        &mut self,
        alloc: Global,
        enclave: u16,
        number: u32,
        kind: Kind,
        perm: Perm,
        init: PageInit,
    ) -> Result<(), Memory>
        requires { first_of_row (add_row number kind perm init (enclave_sight (memory_of self.old) enclave) settled
            (is_some ((memory_of self.old).pages (page_at enclave number))) open_frame) ≡ None }
        ensures done { OnOk result (memory_of self.new ≡ with_page (memory_of self.old) (page_at enclave number)
            (record { kind = kind; perm = perm; words = first_words init })) }
        ensures refused { OnErr result (self.new ≡ self.old) }
    {
        let mut words = take_room(alloc, &mut self.spare)?;
        words.write(init);
        let page = PlainPage {
            kind,
            perm,
            words,
            is_busy: false,
        };
        self.tables[usize::from(enclave)].put(number, page);
        Ok(())
    }

    fn set_init(&mut self, enclave: u16)
        requires { first_of_row (init_row (enclave_sight (memory_of self.old) enclave) settled) ≡ None }
        ensures { memory_of self.new ≡ initialised (memory_of self.old) enclave }
    {
        let found = self.enclave(enclave).unwrap();
        self.enclaves[usize::from(enclave)] = Some(Enclave {
            is_init: true,
            ..found
        });
    }
}

/// `extend` changes nothing here, for measurements are not counted. A page has 16 chunks of 256 bytes (EEXTEND).
pub(crate) fn extend(chunk: u8) -> FlatReply
    ensures { result ≡ replied (first_of_row (extend_row chunk false some_page)) answers.Plain }
{
    if chunk > 15 {
        return FlatReply::Refused(Refusal::BadRange);
    }
    FlatReply::Did(Answer::Plain)
}

// Words of the room that was taken for the job's pages, or more.
fn take_room(alloc: Global, spare: &mut Vec<Words>) -> Result<Words, Memory> {
    match spare.pop() {
        Some(words) => Ok(words),
        None => Words::new(alloc),
    }
}
