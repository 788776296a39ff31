//! A set of numbers below a length, as bits.

ghost use Rattle.std.specs.Prelude.{◌≡◌, ◌<◌, ◌≤◌, true, false, length, replicate, slice_index_or, slice_set, count_by};
ghost use Rattle.std.specs.Prelude.{position, IfOk};
ghost use Rattle.free_map.specs.inner.FreeMap.{IsFull, is_used};

use std::alloc::{AllocError, Global};
use std::marker::Model;

/// A set of numbers below a length of at most 4096, one bit for each. The least one is found by one machine word for 64 of them.
#[derive(Drop)]
pub struct FreeMap {
    marks: Vec<u64>,
    len: u32,
    count: u32,
}

impl Model for FreeMap {
    ghost use Rattle.std.specs.Prelude.{List, Bool};

    ghost Value = { List Bool };

    ghost use Rattle.free_map.specs.inner.FreeMap.{members, IsFreeMap};

    ghost view = { λ m. members m.marks.items m.len };

    ghost invariant = { λ m. IsFreeMap m.marks.items m.len m.count };
}

impl FreeMap {
    /// The set of all numbers below `len`.
    pub fn full(alloc: Global, len: u32) -> Result<FreeMap, AllocError>
        requires { len ≤ 4096 }
        ensures { IfOk result (λ m. m ≡ replicate len true) }
    {
        Ok(FreeMap {
            marks: full_marks(alloc, len)?,
            len,
            count: len,
        })
    }

    /// How many numbers are in the set.
    pub fn count(&self) -> u32
        ensures { result ≡ count_by (λ b. b) self.now }
    {
        self.count
    }

    /// The least number of the set.
    pub fn first(&self) -> Option<u32>
        ensures { result ≡ position (λ b. b) self.now }
    {
        let index = first_used(&self.marks)?;
        Some(64 * index as u32 + self.marks[index].trailing_zeros())
    }

    /// Moves a number into the set or out of it; `was` says whether it is in the set.
    pub fn update(&mut self, number: u32, was: bool, is: bool)
        requires within { number < length self.old }
        requires known { slice_index_or self.old number false ≡ was }
        ensures { self.new ≡ slice_set self.old number is }
    {
        match (was, is) {
            (false, true) => self.insert(number),
            (true, false) => self.remove(number),
            _ => {}
        }
    }

    fn insert(&mut self, number: u32)
        requires within { number < length self.old }
        requires absent { slice_index_or self.old number false ≡ false }
        ensures { self.new ≡ slice_set self.old number true }
    {
        self.marks[number as usize / 64] |= 1 << (number % 64);
        self.count += 1;
    }

    fn remove(&mut self, number: u32)
        requires within { number < length self.old }
        requires present { slice_index_or self.old number false ≡ true }
        ensures { self.new ≡ slice_set self.old number false }
    {
        self.marks[number as usize / 64] &= !(1 << (number % 64));
        self.count -= 1;
    }
}

// Marks with the bits of the first `len` frames.
fn full_marks(alloc: Global, len: u32) -> Result<Vec<u64>, AllocError>
    ensures { IfOk result (λ marks. IsFull marks.items len) }
{
    let mut marks = vec![in alloc; u64::MAX; len as usize / 64]?;
    let rest = len % 64;
    if rest != 0 {
        marks.push((1 << rest) - 1)?;
    }
    Ok(marks)
}

// The first mark with a bit.
fn first_used(marks: &[u64]) -> Option<usize>
    ensures { result ≡ position is_used marks.now }
{
    marks.iter().position(|mark| *mark != 0)
}
