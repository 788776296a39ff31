//! Reading a source to its end.

ghost use Rattle.std.specs.Prelude.{◌≡◌, ◌<◌, ◌≤◌, ◌+◌, ◌^◌, ◌++◌, [], take, length, vec_len, IfOk, OnOk};
ghost use Rattle.std.specs.Prelude.{OnErr, IfSome, IsErrOf};
ghost use Rattle.io_edges.specs.declared.reading.ReadEnd.TheVariants as ends;
ghost use Rattle.io_edges.specs.inner.Faults.{HasCause};
ghost use Rattle.io_edges.specs.Sources.{fewer, TakesAtMost};
ghost use Rattle.io_edges.specs.inner.Sources.{emptied, HasRead};

use crate::faults::Failed;
use crate::sources::Source;
use std::alloc::{AllocError, Global};

/// How many bytes are asked for in one call at most.
const PIECE: usize = 1 << 14;

/// Why a source was not read to its end.
#[derive(Clone, Copy, Debug, PartialEq, Eq)]
pub enum ReadEnd {
    /// It had more bytes than the limit.
    TooLong,

    /// It failed.
    Failed,

    /// Memory was refused.
    Memory,
}

impl From<AllocError> for ReadEnd {
    ghost from_gives = { λ _ e. e ≡ ends.Memory };

    fn from(_error: AllocError) -> ReadEnd {
        ReadEnd::Memory
    }
}

impl From<Failed> for ReadEnd {
    ghost from_gives = { λ _ e. e ≡ ends.Failed };

    fn from(_error: Failed) -> ReadEnd {
        ReadEnd::Failed
    }
}

/// Reads the source to its end, or one byte past the limit. After `Failed` and `Memory` what was taken is lost.
pub fn read_all<S: Source>(alloc: Global, source: &mut S, limit: usize) -> Result<Vec<u8>, ReadEnd>
    requires { limit ≤ 2 ^ 30 }

    ensures within { IfOk result (λ bytes. vec_len bytes ≤ limit) }
    ensures all { IfOk result (λ bytes. IfSome (S.left source.old) (λ left. bytes.items ≡ left)) }
    ensures at_end { OnOk result (S.left source.new ≡ emptied (S.left source.old)) }

    ensures too_long { IsErrOf result ReadEnd.TooLong →
        IfSome (S.left source.old) (λ left. limit < length left) }
    ensures one_past { IsErrOf result ReadEnd.TooLong →
        S.left source.new ≡ fewer (limit + 1) (S.left source.old) }
    ensures err { OnErr result (TakesAtMost (limit + 1) (S.left source.old) (S.left source.new)) }
    ensures cause { HasCause (S.faults source.old) (S.faults source.new)
        (IsErrOf result ReadEnd.Failed) }
{
    let mut piece = [0u8; PIECE];
    let mut bytes = Vec::new(alloc);
    while bytes.len() <= limit {
        let room = piece.len().min(limit + 1 - bytes.len());
        if read_piece(source, &mut piece[..room], &mut bytes)? == 0 {
            return Ok(bytes);
        }
    }
    Err(ReadEnd::TooLong)
}

// One call of the source. What it gave is put behind the bytes that were read before.
fn read_piece<S: Source>(
    source: &mut S,
    piece: &mut [u8],
    bytes: &mut Vec<u8>,
) -> Result<usize, ReadEnd>
    requires { 0 < length piece.old }

    ensures bound { IfOk result (λ n. n ≤ length piece.old) }
    ensures len { IfOk result (λ n. vec_len bytes.new ≡ vec_len bytes.old + n) }
    ensures bytes { IfOk result (λ n. bytes.new.items ≡ bytes.old.items ++ take n piece.new) }
    ensures read { IfOk result (λ n.
        HasRead (S.left source.old) (S.left source.new) (take n piece.new)) }
    ensures at_end { IfOk result (λ n. n ≡ 0 → IfSome (S.left source.new) (λ left. left ≡ [])) }
    ensures err { OnErr result
        (TakesAtMost (length piece.old) (S.left source.old) (S.left source.new)) }
    ensures not_long { IsErrOf result ReadEnd.TooLong → ⊥ }
    ensures cause { HasCause (S.faults source.old) (S.faults source.new)
        (IsErrOf result ReadEnd.Failed) }
{
    let n = source.take(piece)?;
    bytes.extend_from_slice(&piece[..n])?;
    Ok(n)
}
