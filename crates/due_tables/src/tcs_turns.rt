//! The state save pages of each TCS page.

ghost use Rattle.std.specs.Prelude.{ℕ, ◌≡◌, ◌<◌, ◌≤◌, ◌^◌, length, map, slice_index_or, IfOk, IfSome};
ghost use Rattle.std.specs.List.{All};
ghost use Rattle.job_grammar.specs.Jobs.{tcs_line};
ghost use Rattle.job_grammar.specs.inner.Jobs.{enclave_view};
ghost use Rattle.driver_tables.specs.inner.Counts.{IsLow, IsShort, last_end, line_end};
ghost use Rattle.due_tables.specs.inner.TcsTurns.{IsInRow, IsNewTable, has_place, has_row, tcs_at, tcs_by, with_less, with_more};
ghost use Rattle.due_tables.specs.inner.TcsTurns.{with_turn};
ghost use Rattle.due_tables.specs.inner.TcsPlaces.{or_line};

use job_grammar::jobs::{EnclaveJob, PageLine};
use sgx_types::names::{Memory, Page, SECS_NUMBER};
use std::alloc::Global;
use std::marker::Model;

/// The state save pages of a TCS page: `nssa` pages from page `ossa` on, of which so many are in use.
#[derive(Clone, Copy)]
pub struct TcsTurn {
    pub ossa: u32,
    pub nssa: u32,
    pub saved: u64,
}

/// Those of each TCS page of a job. There is a place for each page that the job's lines name, and for those below it, and for each version
/// array page.
#[derive(Drop)]
pub struct TcsTurns {
    // By enclave, and then by page number. Version array pages are of enclave 0.
    pages: Vec<Vec<Option<TcsTurn>>>,
}

impl Model for TcsTurns {
    ghost use Rattle.std.specs.Prelude.{List, Option, map};
    ghost use Rattle.due_tables.specs.declared.tcs_turns.TcsTurn.{TcsTurn};
    ghost use Rattle.due_tables.specs.inner.TcsPlaces.{turns_in};

    ghost Value = { List (List (Option TcsTurn)) };

    ghost view = { λ t. map turns_in t.pages.items };
}

impl TcsTurns {
    /// A place for each of so many version array pages and for each page of these enclaves, with no state save page in use.
    pub(crate) fn new(
        alloc: Global,
        arrays: u32,
        enclaves: &[EnclaveJob],
    ) -> Result<TcsTurns, Memory>
        requires { All IsLow enclaves.now }
        ensures { IfOk result (IsNewTable arrays (map enclave_view enclaves.now)) }
    {
        let mut pages = Vec::with_capacity(alloc, enclaves.len())?;
        pages.push(vec![in alloc; None; arrays as usize]?)?;
        for enclave in enclaves {
            pages.push(turns_of(alloc, &enclave.lines)?)?;
        }
        Ok(TcsTurns { pages })
    }

    /// Whether a job's tables have a place for a page: for its TCS and REG pages, its version array pages, and the SECS of each enclave.
    pub fn has_place(&self, page: Page) -> bool
        ensures { result ≡ has_place self.now page }
    {
        if page.enclave != 0 && page.number == SECS_NUMBER {
            return usize::from(page.enclave) < self.pages.len();
        }
        self.has_row(page)
    }

    // Whether there are so many pages of the page's enclave, or so many version array pages.
    fn has_row(&self, page: Page) -> bool
        ensures { result ≡ has_row self.now page }
    {
        match self.pages.get(usize::from(page.enclave)) {
            Some(turns) => (page.number as usize) < turns.len(),
            None => false,
        }
    }

    /// What stands of a TCS page, None of every other page.
    pub fn get(&self, page: Page) -> Option<TcsTurn>
        ensures value { result ≡ tcs_at self.now page }
        ensures placed { IfSome result (λ turn. IsInRow (map length self.now) page) }
    {
        let turns = self.pages.get(usize::from(page.enclave))?;
        let turn = turns.get(page.number as usize)?;
        *turn
    }

    // What stands of a page from now on.
    fn set(&mut self, page: Page, turn: TcsTurn)
        requires { IsInRow (map length self.old) page }
        ensures { self.new ≡ with_turn self.old page turn }
    {
        self.pages[usize::from(page.enclave)][page.number as usize] = Some(turn);
    }

    /// One more state save page of a TCS page is in use.
    pub(crate) fn save(&mut self, page: Page)
        requires { IfSome (tcs_at self.old page) (λ turn. turn.saved < 2 ^ 63) }
        ensures { self.new ≡ with_more self.old page }
    {
        if let Some(turn) = self.get(page) {
            let saved = turn.saved + 1;
            self.set(page, TcsTurn { saved, ..turn });
        }
    }

    /// One fewer is in use, if one was.
    pub(crate) fn restore(&mut self, page: Page)
        ensures { self.new ≡ with_less self.old page }
    {
        if let Some(turn) = self.get(page) {
            let saved = turn.saved.saturating_sub(1);
            self.set(page, TcsTurn { saved, ..turn });
        }
    }
}

// One past the highest page number that the lines name.
fn places_of(lines: &[PageLine]) -> u32
    requires { All IsShort lines.now }
    ensures { result ≡ last_end lines.now }
{
    let mut end = 0;
    for line in lines {
        end = end.max(line.first() + line.count());
    }
    end
}

// The TCS pages of an enclave, by page number.
fn turns_of(alloc: Global, lines: &[PageLine]) -> Result<Vec<Option<TcsTurn>>, Memory>
    requires { All IsShort lines.now }
    ensures sized { IfOk result (λ turns. length turns.items ≡ last_end lines.now) }
    ensures turns { IfOk result (λ turns. (n : ℕ) → slice_index_or turns.items n None ≡ tcs_by (tcs_line lines.now n) 0) }
{
    let mut turns = vec![in alloc; None; places_of(lines) as usize]?;
    for line in lines {
        add_line(&mut turns, line);
    }
    Ok(turns)
}

// A TCS page of a line, unless an earlier line added one of its number.
fn add_line(turns: &mut [Option<TcsTurn>], line: &PageLine)
    requires { line_end line.now ≤ length turns.old }
    ensures { (n : ℕ) → slice_index_or turns.new n None ≡ or_line (slice_index_or turns.old n None) line.now n }
{
    if let PageLine::Tcs {
        page,
        ossa,
        nssa,
        ..
    } = *line
    {
        let turn = &mut turns[page as usize];
        if turn.is_none() {
            *turn = Some(TcsTurn {
                ossa,
                nssa,
                saved: 0,
            });
        }
    }
}
