// Grants that are moved to earlier starts.
ghost use Rattle.tetri_space.specs.Sound.{IsSound};
ghost use Rattle.tetri_space.specs.Space.{space};

use std::alloc::{AllocError, Global};
use tetri_sooner::moved_sooner;
use tetri_space::Instance;
use tetri_strl::{Allotment, Grant, NodeList};
use tetri_tables::grants_told;

// A number, and 0 for what is none.
fn number_of(word: &str) -> u32 {
    word.parse::<u32>().unwrap_or(0)
}

// A grant as it stands in a row: `JOB LEAF NODE,NODE`.
fn grant_of(alloc: Global, text: &str) -> Result<Grant, AllocError> {
    let (job, rest) = text.split_once(' ').unwrap_or((text, ""));
    let (leaf, list) = rest.split_once(' ').unwrap_or((rest, ""));
    let mut nodes = NodeList::new(alloc);
    for word in list.split(',') {
        nodes.push(number_of(word))?;
    }
    Ok(Grant {
        job: number_of(job),
        leaf: number_of(leaf),
        nodes,
    })
}

// The grants of a row, with `;` between them.
fn grants_of(alloc: Global, row: &str) -> Result<Allotment, AllocError> {
    let mut grants = Allotment::new(alloc);
    for text in row.split(';') {
        grants.push(grant_of(alloc, text.trim())?)?;
    }
    Ok(grants)
}

/// The grants of a row, as they are moved.
pub fn moved_in(alloc: Global, inst: &Instance, row: &str) -> Result<String, AllocError>
    requires { IsSound (space inst.now) }
{
    let grants = grants_of(alloc, row)?;
    let moved = moved_sooner(alloc, inst, &grants)?;
    grants_told(alloc, moved.as_slice())
}
