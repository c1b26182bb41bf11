// What a run of the dual simplex method from nothing says of a region.

ghost use Rattle.std.specs.Prelude.{◌≡◌, length};
ghost use Rattle.tetri_ip.specs.Points.{IsFit, IsInBox, bounds_of};

use crate::columns::choose;
use crate::engine::Proposal;
use crate::single::Branch;
use std::alloc::{AllocError, Global};
use tetri_ip::{Program, Region, Weight};
use tetri_num::{Frac, Place};
use tetri_simplex::{Outcome, dual_run_over};

// What a run says: a proposal, or the place of the first number that left the range, or that the
// run was too long.
#[derive(Drop)]
pub(crate) enum Said {
    Proposed(Proposal),
    Past(Place),
    Long,
}

fn numerators(alloc: Global, point: &[Frac]) -> Result<Vec<i128>, AllocError> {
    let mut numbers = Vec::with_capacity(alloc, point.len())?;
    for x in point {
        numbers.push(x.num)?;
    }
    Ok(numbers)
}

/// What a best point with its weights proposes: a split at a branch, or else that it is whole.
pub(crate) fn of_point(
    alloc: Global,
    branch: Option<Branch>,
    q: i128,
    weights: Vec<Weight>,
    point: Vec<Frac>,
) -> Result<Proposal, AllocError> {
    match branch {
        Some(branch) => Ok(Proposal::Split {
            q,
            weights,
            column: branch.column,
            at: branch.at,
            point,
        }),
        None => Ok(Proposal::Whole {
            q,
            weights,
            point: numerators(alloc, &point)?,
        }),
    }
}

/// What a run from nothing says of a region.
pub(crate) fn run_anew(
    alloc: Global,
    p: &Program,
    r: &Region,
    factors: &mut [i128],
    best: u64,
) -> Result<Said, AllocError>
    requires fit { IsFit p.now }
    requires in_box { IsInBox p.now (bounds_of r.now) }
    requires length { length factors.old ≡ length p.now.costs.items }
{
    match dual_run_over(alloc, p, r, factors, best)? {
        Outcome::Best { point, q, weights } => {
            let branch = choose(p, &point);
            Ok(Said::Proposed(of_point(alloc, branch, q, weights, point)?))
        }
        Outcome::Cut { q, weights } => Ok(Said::Proposed(Proposal::Close { q, weights })),
        Outcome::Empty { weights } => Ok(Said::Proposed(Proposal::Close { q: 0, weights })),
        Outcome::Past(place) => Ok(Said::Past(place)),
        Outcome::Long => Ok(Said::Long),
    }
}
