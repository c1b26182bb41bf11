// Grants from nodes in the order of their leaves.
ghost use Rattle.std.specs.Prelude.{◌≡◌, ◌<◌, ◌+◌, ◌&&◌, ◌==◌, ◌||◌, not, length, slice_index_or, IfOk};
ghost use Rattle.tetri_assign.specs.Assigned.{gathered};
ghost use Rattle.tetri_assign.specs.declared.held.Held.{Held};

use crate::held::Held;
use std::alloc::{AllocError, Global};
use tetri_strl::{Allotment, Grant, NodeList};

// Whether no further node of the same leaf follows.
fn is_last(held: &[Held], place: usize) -> bool
    requires { place < length held.now }
    ensures { (d : Held) → result ≡ not (Rattle.std.specs.Prelude.nat_lt (place + 1) (length held.now)
        && (slice_index_or held.now (place + 1) d).job == (slice_index_or held.now place d).job
        && (slice_index_or held.now (place + 1) d).leaf == (slice_index_or held.now place d).leaf) }
{
    if place + 1 >= held.len() {
        return true;
    }
    held[place + 1].job != held[place].job || held[place + 1].leaf != held[place].leaf
}

// One grant for each leaf in a row.
pub fn gather(alloc: Global, held: &[Held]) -> Result<Allotment, AllocError>
    ensures { IfOk result (λ a. a ≡ gathered held.now) }
{
    let mut grants = Allotment::new(alloc);
    let mut nodes = NodeList::new(alloc);
    for place in 0..held.len() {
        nodes.push(held[place].node)?;
        if is_last(held, place) {
            let full = std::mem::replace(&mut nodes, NodeList::new(alloc));
            grants.push(Grant {
                job: held[place].job,
                leaf: held[place].leaf,
                nodes: full,
            })?;
        }
    }
    Ok(grants)
}
