// The pieces that run.
ghost use Rattle.std.specs.Prelude.{◌≡◌, ◌<◌, ◌≤◌, ℤ, negsuc, pos, ◌≤ℤ◌, length, IfOk};
ghost use Rattle.tetri_state.specs.After.{piece_of, real_dur};
ghost use Rattle.tetri_strl.specs.WellMade.{IsGoodLeaf};
ghost use Rattle.tetri_trace.specs.Scenario.{scenario};
ghost use Rattle.tetri_trace.specs.Sound.{IsSound};

use std::alloc::{AllocError, Global};
use tetri_strl::{Grant, Leaf, NodeList, copy_nodes};
use tetri_trace::Trace;

/// A leaf of a launched job, which runs on the nodes that were granted to it.
#[derive(Drop)]
pub struct Piece {
    /// The number of the job.
    pub job: u32,
    /// The number of the leaf in the job's expression.
    pub leaf: u32,
    /// The nodes that it runs on.
    pub nodes: NodeList,
    /// The slot in which it started.
    pub started: u32,
    /// The first slot in which it is expected to run no more.
    pub expected: u32,
    /// The first slot in which it really runs no more.
    pub real: u32,
}

// How many slots a piece really runs.
fn real_dur(dur: u32, late: i32) -> u32
    requires few { dur ≤ 10000 }
    requires not_too_early { negsuc 9999 ≤ℤ late }
    requires not_too_late { late ≤ℤ pos 10000 }
    ensures { result ≡ real_dur dur late }
{
    (dur as i32 + late).max(1) as u32
}

// The piece that a grant of a leaf becomes.
pub fn piece_of(
    alloc: Global,
    trace: &Trace,
    grant: &Grant,
    leaf: &Leaf,
) -> Result<Piece, AllocError>
    requires sound { IsSound (scenario trace.now) }
    requires known { grant.now.job < length (scenario trace.now).submissions }
    requires good { IsGoodLeaf leaf.now }
    ensures { IfOk result (λ p. p ≡ piece_of (scenario trace.entry.now) grant.now leaf.now) }
{
    let late = trace.job(grant.job).late;
    Ok(Piece {
        job: grant.job,
        leaf: grant.leaf,
        nodes: copy_nodes(alloc, &grant.nodes)?,
        started: leaf.start,
        expected: leaf.start + leaf.dur,
        real: leaf.start + real_dur(leaf.dur, late),
    })
}
