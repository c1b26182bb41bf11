// Sets of nodes up to their limit.
ghost use Rattle.std.specs.Prelude.{◌≡◌, ◌∷◌, [], ◌<◌, IfOk};

use std::alloc::{AllocError, Global};
use tetri_cluster::{NodeSet, Sets};
use tetri_tables::{Tally, debug_text};

fn pair(alloc: Global, first: u32, second: u32) -> Result<NodeSet, AllocError>
    ensures { IfOk result (λ set. set ≡ first ∷ second ∷ []) }
{
    NodeSet::of_slice(alloc, &[first, second])
}

// What a set of two nodes answers.
fn found(alloc: Global, sets: &mut Sets, first: u32, second: u32) -> Result<String, AllocError> {
    if second <= first {
        return String::from_str(alloc, "not ascending");
    }
    let answer = sets.find_or_add(pair(alloc, first, second)?);
    debug_text(alloc, &answer)
}

fn expect_found(
    alloc: Global,
    tally: &mut Tally,
    sets: &mut Sets,
    first: u32,
    second: u32,
    wanted: &str,
) -> Result<(), AllocError> {
    let found = found(alloc, sets, first, second)?;
    tally.expect("a set of two nodes", found.as_str(), wanted)
}

fn told(alloc: Global, sets: &Sets) -> Result<String, AllocError> {
    if sets.len() <= 2 {
        return String::from_str(alloc, "too few");
    }
    let nodes = sets.nodes_of(2).as_slice();
    let (third, fourth) = (sets.holds(2, 3), sets.holds(2, 4));
    format!(in alloc; "{} {nodes:?} {third} {fourth}", sets.len())
}

// 4,096 sets of two nodes, found under their numbers.
fn fill(alloc: Global, tally: &mut Tally, sets: &mut Sets) -> Result<(), AllocError> {
    for first in 0..4096u32 {
        let wanted = format!(in alloc; "Ok({first})")?;
        expect_found(alloc, tally, sets, first, first + 1, wanted.as_str())?;
    }
    Ok(())
}

// What is told of the first so many sets, which are left then.
fn expect_first(
    alloc: Global,
    tally: &mut Tally,
    sets: &mut Sets,
    count: u32,
    what: &str,
    wanted: &str,
) -> Result<(), AllocError> {
    sets.truncate(count);
    let found = told(alloc, sets)?;
    tally.expect(what, found.as_str(), wanted)
}

fn expect_sets(alloc: Global, tally: &mut Tally, sets: &mut Sets) -> Result<(), AllocError> {
    fill(alloc, tally, sets)?;
    expect_found(alloc, tally, sets, 7, 8, "Ok(7)")?;
    expect_found(alloc, tally, sets, 7, 9, "Err(Full)")?;
    expect_first(
        alloc,
        tally,
        sets,
        5000,
        "all sets",
        "4096 [2, 3] true false",
    )?;
    expect_first(alloc, tally, sets, 3, "three sets", "3 [2, 3] true false")?;
    expect_found(alloc, tally, sets, 7, 9, "Ok(3)")
}

/// 4,096 sets of two nodes, one more, and fewer.
pub fn numbered_sets(alloc: Global, tally: &mut Tally) -> Result<(), AllocError> {
    let mut sets = Sets::new(alloc);
    expect_sets(alloc, tally, &mut sets)
}
