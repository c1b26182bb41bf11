// Which pieces are on the nodes, and until when.
ghost use Rattle.std.specs.Prelude.{◌≡◌, ◌<◌, All, filter, length, map, not, IfOk};
ghost use Rattle.std.specs.List.{range_with_len};
ghost use Rattle.tetri_state.specs.Begin.{has_ended, holder_in};
ghost use Rattle.tetri_state.specs.Planning.{busy_until, marked};

use crate::pieces::Piece;
use std::alloc::{AllocError, Global};

// By node, the slot in which the piece on it is expected to have ended, or now.
pub fn busy_row(
    alloc: Global,
    nodes: u32,
    now: u32,
    pieces: &[Piece],
) -> Result<Vec<u32>, AllocError>
    requires { All (λ p. All (λ n. n < nodes) p.nodes) pieces.now }
    ensures { IfOk result (λ v. v.items ≡ map (busy_until now pieces.now) (range_with_len 0 nodes)) }
{
    let mut row = vec![in alloc; now; nodes as usize]?;
    let mut left = pieces.len();
    while left > 0 {
        left -= 1;
        let piece = &pieces[left];
        mark(&mut row, piece.nodes.as_slice(), piece.expected);
    }
    Ok(row)
}

// By node, the job whose piece is on it, of those pieces that have not ended.
pub fn holder_row(
    alloc: Global,
    nodes: u32,
    now: u32,
    pieces: &[Piece],
) -> Result<Vec<Option<u32>>, AllocError>
    requires { All (λ p. All (λ n. n < nodes) p.nodes) pieces.now }
    ensures { IfOk result (λ v. v.items
        ≡ map (holder_in (filter (λ p. not (has_ended now p)) pieces.now)) (range_with_len 0 nodes)) }
{
    let mut row = vec![in alloc; None; nodes as usize]?;
    let mut left = pieces.len();
    while left > 0 {
        left -= 1;
        let piece = &pieces[left];
        if now < piece.real {
            mark(&mut row, piece.nodes.as_slice(), Some(piece.job));
        }
    }
    Ok(row)
}

// Writes this at each of the places.
fn mark<T: Copy>(row: &mut Vec<T>, places: &[u32], with: T)
    requires { All (λ n. n < length row.old.items) places.now }
    ensures { row.new.items ≡ marked with row.old.items places.now }
{
    for place in places {
        row[*place as usize] = with;
    }
}
