// The words of a line.
ghost use Rattle.std.specs.Prelude.{◌≡◌, ◌≢◌, ◌==◌, All, IfOk, MatchOption, map};
ghost use Rattle.tetri_io.specs.Words.{AreHalves, is_blank, parts_at};

use std::alloc::{AllocError, Global};

/// What stands between single bytes of this kind, before the first and behind the last. Its only error is want of memory.
pub fn parts_at(alloc: Global, mark: u8, bytes: &[u8]) -> Result<Vec<&[u8]>, AllocError>
    ensures { IfOk result (λ v. map (λ x. x.now) v.items ≡ parts_at mark bytes.now) }
{
    bytes.split(|b| *b == mark).collect(alloc)
}

/// What stands before the first byte of this kind, and what stands behind it. `None` exactly where no byte is of this kind.
pub fn halves_at(mark: u8, bytes: &[u8]) -> Option<(&[u8], &[u8])>
    ensures { MatchOption result (All (λ b. b ≢ mark) bytes.now) (λ halves. AreHalves mark bytes.now halves.0.now halves.1.now) }
{
    for (i, b) in bytes.iter().enumerate() {
        if *b == mark {
            return Some((&bytes[..i], &bytes[i + 1..]));
        }
    }
    None
}

/// Whether the byte is a space, a tab or a carriage return.
pub fn is_blank(b: u8) -> bool
    ensures { result ≡ is_blank b }
{
    b == b' ' || b == b'\t' || b == b'\r'
}
