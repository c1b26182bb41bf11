// One line of what a name holds.
ghost use Rattle.std.specs.Prelude.{◌≡◌, ◌+◌, ◌<◌, ◌≤◌, ◌^◌, List, ℕ, Some, ◌++◌, length, take, vec_len, IsErrOf, IfOk};
ghost use Rattle.tetri_algebra.specs.Counts.{Rose};
ghost use Rattle.tetri_io.specs.Line.{AnswersLine, IsPlacedAfter, line_or_end, line_size};
ghost use Rattle.tetri_io.specs.Lines.{line_of};

use crate::{Failed, Shelf};
use memchr::memchr;
use std::alloc::{AllocError, Global};
use thiserror::Error;

const LINE_FEED: u8 = 10;

/// What stands at an offset.
#[derive(Drop)]
pub enum Line {
    /// The bytes up to the next line feed or the end, without the line feed, and the offset behind
    /// it.
    Text { bytes: Vec<u8>, next: u64 },
    /// The content ends at or before the offset.
    End,
}

/// Why no line is read.
#[derive(Clone, Copy, Debug, PartialEq, Eq, Error)]
pub enum LineFault {
    /// A read failed, and was counted.
    #[error("a read failed")]
    Failed,
    /// More bytes than the limit stand before the line feed or the end.
    #[error("a line is too long")]
    TooLong,
    /// There is no memory for the line.
    #[error("out of memory")]
    NoMemory,
}

impl From<Failed> for LineFault {
    ghost use Rattle.std.specs.Prelude.{◌≡◌};
    ghost use Rattle.tetri_io.specs.declared.line.LineFault.TheVariants as fault;

    ghost from_gives = { λ _ e. e ≡ fault.Failed };

    fn from(_: Failed) -> Self {
        LineFault::Failed
    }
}

impl From<AllocError> for LineFault {
    ghost use Rattle.std.specs.Prelude.{◌≡◌};
    ghost use Rattle.tetri_io.specs.declared.line.LineFault.TheVariants as fault;

    ghost from_gives = { λ _ e. e ≡ fault.NoMemory };

    fn from(_: AllocError) -> Self {
        LineFault::NoMemory
    }
}

/// The line at an offset, of at most `limit` bytes. It reads chunk by chunk, and `Failed` comes
/// only where the count of the name's faults rose.
pub fn read_line_at<S: Shelf>(
    alloc: Global,
    shelf: &mut S,
    name: &str,
    offset: u64,
    limit: usize,
) -> Result<Line, LineFault>
    requires { offset < 2 ^ 63 }
    ensures line { (content : List ℕ) → S.told shelf.old name.now ≡ Some content
        → AnswersLine limit offset content result }

    // This holds of a shelf that tells nothing, too.
    ensures place { IfOk result (IsPlacedAfter offset) }
    ensures short { IfOk result (λ line. line_size line ≤ limit) }
    ensures failed { IsErrOf result LineFault.Failed
        → Rose (S.faults shelf.old name.now) (S.faults shelf.new name.now) }
    ensures later { (other : List ℕ) → S.faults shelf.old other ≤ S.faults shelf.new other }
    ensures same { S.told shelf.new ≡ S.told shelf.old }
{
    let mut bytes = Vec::new(alloc);
    let mut at = offset;
    let mut chunk = [0u8; 4096];
    'chunks: loop {
        let count = shelf.read_at(name, at, &mut chunk)?;
        if count == 0 {
            return Ok(line_or_end(bytes, at));
        }
        let front = add_front(&mut bytes, &chunk[..count], limit)?;
        if front < count {
            let next = at + front as u64 + 1;
            return Ok(Line::Text { bytes, next });
        }
        at += count as u64;
    }
}

/// Adds what stands before the first line feed of a piece, and says how much it was.
pub(crate) fn add_front(bytes: &mut Vec<u8>, piece: &[u8], limit: usize) -> Result<usize, LineFault>
    requires { vec_len bytes.old ≤ limit }
    ensures ok { IfOk result (λ n. (n ≡ length (line_of piece.now)) × (n ≤ length piece.now)
        × (bytes.new.items ≡ bytes.old.items ++ take n piece.now) × (vec_len bytes.new ≤ limit)
        × (vec_len bytes.new ≡ vec_len bytes.old + n)) }
    ensures failed { ¬ IsErrOf result LineFault.Failed }
    ensures long { IsErrOf result LineFault.TooLong
        → limit < vec_len bytes.old + length (line_of piece.now) }
{
    let front = line_len(piece);
    if limit - bytes.len() < front {
        return Err(LineFault::TooLong);
    }
    bytes.extend_from_slice(&piece[..front])?;
    Ok(front)
}

// How many bytes stand before the first line feed.
fn line_len(bytes: &[u8]) -> usize
    ensures value { result ≡ length (line_of bytes.now) }
    ensures within { result ≤ length bytes.now }
{
    memchr(LINE_FEED, bytes).unwrap_or(bytes.len())
}

/// The last line, which has no line feed, or the end.
pub(crate) fn line_or_end(bytes: Vec<u8>, next: u64) -> Line
    ensures { result ≡ line_or_end bytes next }
{
    if bytes.is_empty() {
        Line::End
    } else {
        Line::Text { bytes, next }
    }
}
