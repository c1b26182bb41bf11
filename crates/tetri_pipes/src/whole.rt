// What a reader has left, whole.
ghost use Rattle.std.specs.Prelude.{◌≡◌, ◌<◌, ◌≤◌, List, ℕ, Some, vec_len, length, IfOk, IsErrAnd};
ghost use Rattle.tetri_pipes.specs.Whole.{is_too_long};

use std::alloc::{AllocError, Global};
use std::io;
use std::io::{ErrorKind, Read};

/// Why something is not read whole.
#[derive(Drop)]
pub enum Unread {
    /// A read failed, for the system's own reason.
    Failed(io::Error),
    /// There is more than may be read.
    TooLong,
    /// There is no memory for it.
    NoMemory,
}

impl From<io::Error> for Unread {
    ghost use Rattle.std.specs.Prelude.{◌≢◌};
    ghost use Rattle.tetri_pipes.specs.declared.whole.Unread.TheVariants as why;

    ghost from_gives = { λ _ e. e ≢ why.TooLong };

    fn from(error: io::Error) -> Self {
        match error.kind() {
            ErrorKind::OutOfMemory => Unread::NoMemory,
            _ => Unread::Failed(error),
        }
    }
}

impl From<AllocError> for Unread {
    ghost use Rattle.std.specs.Prelude.{◌≡◌};
    ghost use Rattle.tetri_pipes.specs.declared.whole.Unread.TheVariants as why;

    ghost from_gives = { λ _ e. e ≡ why.NoMemory };

    fn from(_: AllocError) -> Self {
        Unread::NoMemory
    }
}

/// What a reader has left, of at most `limit` bytes. `TooLong` comes only where it has more.
pub fn read_whole<R: Read + Drop>(alloc: Global, reader: R, limit: u64) -> Result<Vec<u8>, Unread>
    ensures short { IfOk result (λ content. vec_len content ≤ limit) }
    ensures bytes { (left : List ℕ) → R.remaining reader ≡ Some left
        → IfOk result (λ content. content.items ≡ left) }
    ensures long { (left : List ℕ) → R.remaining reader ≡ Some left
        → IsErrAnd result is_too_long → limit < length left }
{
    let mut content = Vec::new(alloc);
    let most = limit.saturating_add(1);
    reader.take(most).read_to_end(&mut content)?;
    if limit < content.len() as u64 {
        return Err(Unread::TooLong);
    }
    Ok(content)
}
