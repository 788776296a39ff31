//! Plain enclave memory: its enclaves, pages and processors.

ghost use Rattle.std.specs.Prelude.{◌≡◌, ◌<◌, true, replicate, slice_index, slice_set, is_some, IfOk, [], None};
ghost use Rattle.sgx_types.specs.Pages.{page_at};
ghost use Rattle.sgx_rules.specs.Flat.{fresh, flat_content, reg_perm, added_as, words_of, with_cpu, with_words, with_busy};
ghost use Rattle.flat_machine.specs.inner.Parts.{memory_of, look, added_in, kind_of, content_in, words_in, enclave_of, inside_of};
ghost use Rattle.flat_machine.specs.inner.Parts.{cpu_of, idle};
ghost use Rattle.flat_machine.specs.inner.Parts.{with_slot, with_word, with_busy_mark};
ghost use Rattle.flat_machine.specs.inner.Parts.{page_of};
ghost use Rattle.flat_machine.specs.inner.Bytes.{bytes_in};
ghost use Rattle.flat_words.specs.Words.{word_of, word_in};

use crate::table::{Added, Table};
use crate::words::Words;
use flat_words::writes::WordAt;
use job_grammar::jobs::Job;
use sgx_types::names::{Cpu, Kind, Memory, PROCESSORS, Page, Perm};
use std::alloc::Global;
use std::marker::Model;

// One place for each enclave from 1 to 8; place 0 stays empty.
const PLACES: usize = 9;

/// What is known of a created enclave: its base and size in bytes, and whether it is initialised.
#[derive(Clone, Copy)]
pub(crate) struct Enclave {
    pub base: u64,
    pub size: u64,
    pub is_init: bool,
}

/// How a processor stands: outside, or inside an enclave by a TCS page.
#[derive(Clone, Copy)]
pub(crate) enum Mode {
    Outside,
    Inside { enclave: u16, tcs: u32 },
}

/// A processor: how it stands, and its accumulator.
#[derive(Clone, Copy)]
pub(crate) struct Processor {
    pub mode: Mode,
    pub acc: u64,
}

/// Plain enclave memory that is never evicted, with 16 processors and enclaves from 1 to 8.
#[derive(Drop)]
pub struct Flat {
    // By the enclave's number.
    pub(crate) enclaves: Vec<Option<Enclave>>,
    pub(crate) tables: Vec<Table>,
    pub(crate) cpus: Vec<Processor>,
    // Room for the job's pages.
    pub(crate) spare: Vec<Words>,
}

impl Model for Flat {
    ghost use Rattle.flat_machine.specs.inner.Parts.{FlatParts};

    ghost Value = { FlatParts };

    ghost use Rattle.flat_machine.specs.inner.Whole.{parts_of, IsWholeMemory};

    ghost view = { parts_of };

    ghost invariant = { IsWholeMemory };
}

impl Flat {
    /// Nothing is built yet. Takes the room for the job's pages.
    pub fn new(alloc: Global, job: &Job) -> Result<Flat, Memory>
        ensures fresh { IfOk result (λ flat. memory_of flat ≡ fresh) }
    {
        Ok(Flat {
            enclaves: no_enclaves(alloc)?,
            tables: no_tables(alloc)?,
            cpus: idle_processors(alloc)?,
            spare: room_for(alloc, job)?,
        })
    }

    /// Writes the 4096 bytes of a page, each 8-byte word low byte first, and answers true exactly where the page was added.
    pub fn bytes(&self, page: Page, into: &mut [u8; 4096]) -> bool
        ensures added { result ≡ is_some ((memory_of self.now).pages page) }
        ensures bytes { into.new ≡ bytes_in ((memory_of self.now).pages page) into.old }
    {
        match self.tables.get(usize::from(page.enclave)) {
            Some(table) => table.copy_to(u64::from(page.number), into),
            None => false,
        }
    }

    /// A word of a page, None where the page was not added.
    pub fn added_word(&self, at: WordAt) -> Option<u64>
        requires { at.index < 512 }
        ensures { result ≡ word_in (memory_of self.now) (page_at at.enclave at.number) at.index }
    {
        added_word_at(&self.tables, at)
    }

    /// The enclave of a number, None where it was not created.
    pub(crate) fn enclave(&self, enclave: u16) -> Option<Enclave>
        ensures { enclave_of result ≡ (memory_of self.now).enclaves enclave }
    {
        self.enclaves.get(usize::from(enclave)).copied().flatten()
    }

    /// How a page was added, None where it was not.
    pub(crate) fn added(&self, enclave: u16, number: u64) -> Option<Added>
        ensures added { kind_of result ≡ added_as ((memory_of self.now).pages (page_at enclave number)) }
        ensures content { content_in (page_at enclave number) result ≡ flat_content (page_at enclave number)
            ((memory_of self.now).pages (page_at enclave number)) }
        ensures there { is_some result ≡ is_some ((memory_of self.now).pages (page_at enclave number)) }
    {
        added_at(&self.tables, enclave, number)
    }

    /// The permissions of a page that was added as a REG page.
    pub(crate) fn reg_perm(&self, enclave: u16, number: u64) -> Option<Perm>
        ensures { result ≡ reg_perm ((memory_of self.now).pages (page_at enclave number)) }
    {
        match added_at(&self.tables, enclave, number) {
            Some(
                Added {
                    kind: Kind::Reg,
                    perm,
                },
            ) => Some(perm),
            _ => None,
        }
    }

    /// Whether a processor is inside by a page.
    pub(crate) fn is_busy(&self, enclave: u16, number: u64) -> bool
        ensures { result ≡ (memory_of self.now).is_busy (page_at enclave number) }
    {
        match self.tables.get(usize::from(enclave)) {
            Some(table) => table.is_busy(number),
            None => false,
        }
    }

    /// A word of a page, 0 where the page was not added.
    pub(crate) fn word(&self, enclave: u16, number: u64, index: usize) -> u64
        requires { index < 512 }
        ensures { result ≡ slice_index (words_of (memory_of self.now) (page_at enclave number)) index }
    {
        word_at(&self.tables, enclave, number, index)
    }

    /// How a processor stands.
    pub(crate) fn mode(&self, cpu: Cpu) -> Mode
        requires { cpu.0 < PROCESSORS }
        ensures { inside_of result ≡ ((memory_of self.now).cpus cpu.0).inside }
    {
        self.cpus[usize::from(cpu.0)].mode
    }

    /// A processor's accumulator.
    pub(crate) fn acc(&self, cpu: Cpu) -> u64
        requires { cpu.0 < PROCESSORS }
        ensures { result ≡ ((memory_of self.now).cpus cpu.0).acc }
    {
        self.cpus[usize::from(cpu.0)].acc
    }

    /// A processor stands and has its accumulator so.
    pub(crate) fn set_cpu(&mut self, cpu: Cpu, processor: Processor)
        requires { cpu.0 < PROCESSORS }
        ensures { memory_of self.new ≡ with_cpu (memory_of self.old) cpu.0 (cpu_of processor) }
    {
        self.cpus[usize::from(cpu.0)] = processor;
    }

    /// Writes a word of a page, if the page was added.
    pub(crate) fn set_word(&mut self, enclave: u16, number: u64, index: usize, value: u64)
        requires { index < 512 }
        ensures { memory_of self.new ≡ with_words (memory_of self.old) (page_at enclave number) (λ words. slice_set words index value) }
    {
        write_word(&mut self.tables, enclave, number, index, value);
    }

    /// Marks a page busy or not.
    pub(crate) fn set_busy(&mut self, enclave: u16, number: u64, is_busy: bool)
        requires { is_busy ≡ true → is_some ((memory_of self.old).pages (page_at enclave number)) ≡ true }
        ensures { memory_of self.new ≡ with_busy (memory_of self.old) (page_at enclave number) is_busy }
    {
        write_busy(&mut self.tables, enclave, number, is_busy);
    }
}

fn added_at(tables: &[Table], enclave: u16, number: u64) -> Option<Added>
    ensures { result ≡ added_in (look tables.now (page_at enclave number)) }
{
    tables.get(usize::from(enclave))?.added(number)
}

fn added_word_at(tables: &[Table], at: WordAt) -> Option<u64>
    requires { at.index < 512 }
    ensures { result ≡ word_of (page_of (look tables.now (page_at at.enclave at.number))) at.index }
{
    tables
        .get(usize::from(at.enclave))?
        .added_word(at.number, usize::from(at.index))
}

fn word_at(tables: &[Table], enclave: u16, number: u64, index: usize) -> u64
    requires { index < 512 }
    ensures { result ≡ slice_index (words_in (look tables.now (page_at enclave number))) index }
{
    match tables.get(usize::from(enclave)) {
        Some(table) => table.word(number, index),
        None => 0,
    }
}

fn write_word(tables: &mut Vec<Table>, enclave: u16, number: u64, index: usize, value: u64)
    requires { index < 512 }
    ensures { tables.new.items ≡ with_slot tables.old.items enclave number
        (with_word (look tables.old.items (page_at enclave number)) index value) }
{
    let place = usize::from(enclave);
    if place < tables.len() {
        tables[place].set_word(number, index, value);
    }
}

fn write_busy(tables: &mut Vec<Table>, enclave: u16, number: u64, is_busy: bool)
    ensures { tables.new.items ≡ with_slot tables.old.items enclave number
        (with_busy_mark (look tables.old.items (page_at enclave number)) is_busy) }
{
    let place = usize::from(enclave);
    if place < tables.len() {
        tables[place].set_busy(number, is_busy);
    }
}

fn no_enclaves(alloc: Global) -> Result<Vec<Option<Enclave>>, Memory>
    ensures { IfOk result (λ enclaves. enclaves.items ≡ replicate 9 None) }
{
    Ok(vec![in alloc; None; PLACES]?)
}

#[tactic(auto, using(crate::proofs::Lists::replicate_more))]
fn no_tables(alloc: Global) -> Result<Vec<Table>, Memory>
    ensures { IfOk result (λ tables. tables.items ≡ replicate 9 []) }
{
    let mut tables = Vec::with_capacity(alloc, PLACES)?;
    for _ in 0..PLACES {
        tables.push(Table::new(alloc, 0)?)?;
    }
    Ok(tables)
}

fn idle_processors(alloc: Global) -> Result<Vec<Processor>, Memory>
    ensures { IfOk result (λ cpus. cpus.items ≡ replicate PROCESSORS idle) }
{
    let idle = Processor {
        mode: Mode::Outside,
        acc: 0,
    };
    Ok(vec![in alloc; idle; PROCESSORS as usize]?)
}

// The words of as many pages as the job has.
fn room_for(alloc: Global, job: &Job) -> Result<Vec<Words>, Memory> {
    let mut spare = Vec::new(alloc);
    for enclave in job.enclaves() {
        for line in &enclave.lines {
            for _ in 0..line.count() {
                spare.push(Words::new(alloc)?)?;
            }
        }
    }
    Ok(spare)
}
