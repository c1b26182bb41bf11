// All that a name holds.
ghost use Rattle.std.specs.Prelude.{◌≡◌, ◌<◌, ◌≤◌, ℕ, List, IfOk, IsErrOf, vec_len};
ghost use Rattle.tetri_algebra.specs.Counts.{Rose};

use crate::fault::LintFault;
use std::alloc::{AllocError, Global};
use tetri_io::Shelf;

const CHUNK: usize = 65_536;

const TRACE_MOST: usize = 67_108_864;

// Room for a piece.
fn room(alloc: Global) -> Result<Vec<u8>, AllocError>
    ensures { IfOk result (λ chunk. 0 < vec_len chunk) }
{
    vec![in alloc; 0u8; CHUNK]
}

/// What a name holds, or somewhat more of it than a trace has at most. `Read` comes only where the count of the name's faults rose.
pub(crate) fn text_of<S: Shelf>(
    alloc: Global,
    shelf: &mut S,
    name: &str,
) -> Result<Vec<u8>, LintFault>
    ensures same { S.told shelf.new ≡ S.told shelf.old }
    ensures read { IsErrOf result LintFault.Read
        → Rose (S.faults shelf.old name.now) (S.faults shelf.new name.now) }
    ensures later { (other : List ℕ) → S.faults shelf.old other ≤ S.faults shelf.new other }
{
    let mut bytes = Vec::new(alloc);
    let mut chunk = room(alloc)?;
    'chunks: loop {
        let count = shelf.read_at(name, bytes.len() as u64, &mut chunk)?;
        if count == 0 {
            return Ok(bytes);
        }
        bytes.extend_from_slice(&chunk[..count])?;
        if bytes.len() > TRACE_MOST {
            return Ok(bytes);
        }
    }
}
