//! What the builder has to do under a job, step by step.

ghost use Rattle.std.specs.Prelude.{ℕ, ◌≡◌, ◌+◌, ◌≤◌, true, false, [], ◌∷◌, if◌then◌else◌, IfNone, IfSome};
ghost use Rattle.std.specs.Prelude.{length};
ghost use Rattle.job_grammar.specs.Jobs.{first_page, page_count};
ghost use Rattle.script_rules.specs.Script.{build_of, line_steps};
ghost use Rattle.script_rules.specs.inner.Cursor.{IsCursor, IsRun, left, run_left};

use crate::steps::BuildStep;
use job_grammar::jobs::{Job, PageLine};
use sgx_types::lawful::PageInit;
use sgx_types::names::{Kind, Perm};

/// How far the builder is in its job: what is left are `vas` version arrays, then the rest of the enclave that was created
/// last, and then the enclaves behind it.
#[derive(Clone, Copy)]
pub struct BuildCursor {
    vas: u32,
    // The number of the enclave that was created last, 0 where none was.
    enclave: u16,
    // Whether its `Init` is left.
    unfinished: bool,
    // How many of its lines were begun, and what is left of the last of them.
    line: usize,
    pages: PageRun,
}

// What is left of a line: of the page that was added last the chunks from `chunk` on, and then `count` pages from `number`
// on.
#[derive(Clone, Copy)]
struct PageRun {
    added: u32,
    chunk: u8,
    number: u32,
    count: u32,
    kind: Kind,
    perm: Perm,
    init: PageInit,
    plain: bool,
}

// How many chunks a page has.
const CHUNKS: u8 = 16;

const NO_PAGES: PageRun = PageRun {
    added: 0,
    chunk: CHUNKS,
    number: 0,
    count: 0,
    kind: Kind::Reg,
    perm: Perm::NONE,
    init: PageInit::Words(0),
    plain: false,
};

impl BuildCursor {
    /// Before the first step.
    pub fn new(job: &Job) -> BuildCursor
        ensures left { left job.now result ≡ build_of job.now }
        ensures within { IsCursor job.now result }
    {
        BuildCursor {
            vas: job.va_pages(),
            enclave: 0,
            unfinished: false,
            line: 0,
            pages: NO_PAGES,
        }
    }

    /// The next step, None where none is left. The cursor stands behind it then.
    pub fn next(&mut self, job: &Job) -> Option<BuildStep>
        requires { IsCursor job.now self.old }
        ensures some { IfSome result (λ step. left job.now self.old ≡ step ∷ left job.now self.new) }
        ensures none { IfNone result (left job.now self.old ≡ []) }
        ensures within { IsCursor job.now self.new }
    {
        if self.vas > 0 {
            self.vas -= 1;
            return Some(BuildStep::Va);
        }
        if self.unfinished {
            return Some(self.next_within(job));
        }
        self.next_enclave(job)
    }

    /// Whether nothing is left: each enclave was created, and none is unfinished. Who only asks this needs no step made.
    pub fn is_done(&self, job: &Job) -> bool
        requires { IsCursor job.now self.now }
        ensures none { result ≡ true → left job.now self.now ≡ [] }
        ensures some { result ≡ false → 1 ≤ length (left job.now self.now) }
    {
        if self.vas > 0 {
            return false;
        }
        if self.unfinished {
            return false;
        }
        usize::from(self.enclave) >= job.enclaves().len()
    }

    // The next step of the enclave that was created last.
    fn next_within(&mut self, job: &Job) -> BuildStep
        requires cursor { IsCursor job.now self.old }
        requires vas { self.old.vas ≡ 0 }
        requires unfinished { self.old.unfinished ≡ true }
        ensures left { left job.now self.old ≡ result ∷ left job.now self.new }
        ensures within { IsCursor job.now self.new }
    {
        let enclave = self.enclave;
        let made = &job.enclaves()[usize::from(enclave) - 1];
        if let Some(step) = self.pages.next(enclave) {
            return step;
        }
        if self.line >= made.lines.len() {
            self.unfinished = false;
            return BuildStep::Init {
                enclave,
                expect: made.expect,
            };
        }
        self.pages = PageRun::of(&made.lines[self.line]);
        self.line += 1;
        self.pages.add(enclave)
    }

    // The creation of the next enclave.
    fn next_enclave(&mut self, job: &Job) -> Option<BuildStep>
        requires cursor { IsCursor job.now self.old }
        requires vas { self.old.vas ≡ 0 }
        requires finished { self.old.unfinished ≡ false }
        ensures some { IfSome result (λ step. left job.now self.old ≡ step ∷ left job.now self.new) }
        ensures none { IfNone result (left job.now self.old ≡ []) }
        ensures within { IsCursor job.now self.new }
    {
        let made = job.enclaves().get(usize::from(self.enclave))?;
        self.enclave += 1;
        self.unfinished = true;
        self.line = 0;
        self.pages = NO_PAGES;
        Some(BuildStep::Create {
            enclave: self.enclave,
            base: made.base,
            size: made.size,
        })
    }
}

impl PageRun {
    // All pages of a line.
    fn of(line: &PageLine) -> PageRun
        requires { first_page line.now + page_count line.now ≤ 4096 }
        ensures left { (enclave : ℕ) → run_left enclave result ≡ line_steps enclave line.now }
        ensures within { IsRun result }
        ensures chunk { result.chunk ≡ 16 }
        ensures count { result.count ≡ page_count line.now }
    {
        match *line {
            PageLine::Tcs {
                page,
                ossa,
                nssa,
                plain,
            } => PageRun {
                added: 0,
                chunk: CHUNKS,
                number: page,
                count: 1,
                kind: Kind::Tcs,
                perm: Perm::NONE,
                init: PageInit::Tcs { ossa, nssa },
                plain,
            },
            PageLine::Reg {
                first,
                count,
                perm,
                value,
                plain,
            } => PageRun {
                added: 0,
                chunk: CHUNKS,
                number: first,
                count,
                kind: Kind::Reg,
                perm,
                init: PageInit::Words(value),
                plain,
            },
        }
    }

    // The next step, None where none is left.
    fn next(&mut self, enclave: u16) -> Option<BuildStep>
        requires { IsRun self.old }
        ensures some { IfSome result (λ step. run_left enclave self.old ≡ step ∷ run_left enclave self.new) }
        ensures none { IfNone result (run_left enclave self.old ≡ []) }
        ensures within { IsRun self.new }
    {
        if self.chunk < CHUNKS {
            let chunk = self.chunk;
            self.chunk += 1;
            return Some(BuildStep::Extend {
                enclave,
                number: self.added,
                chunk,
            });
        }
        if self.count > 0 {
            Some(self.add(enclave))
        } else {
            None
        }
    }

    // The next page, whose measurement comes then.
    fn add(&mut self, enclave: u16) -> BuildStep
        requires within { IsRun self.old }
        requires chunk { self.old.chunk ≡ 16 }
        requires some { 1 ≤ self.old.count }
        ensures left { run_left enclave self.old ≡ result ∷ run_left enclave self.new }
        ensures within { IsRun self.new }
    {
        self.added = self.number;
        self.chunk = first_chunk(self.plain);
        self.number += 1;
        self.count -= 1;
        BuildStep::Add {
            enclave,
            number: self.added,
            kind: self.kind,
            perm: self.perm,
            init: self.init,
        }
    }
}

// The chunk at which the measurement of a page begins: of a plain page none is measured.
fn first_chunk(plain: bool) -> u8
    ensures { result ≡ (if plain then 16 else 0) }
{
    if plain { CHUNKS } else { 0 }
}
