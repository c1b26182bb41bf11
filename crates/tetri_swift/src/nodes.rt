// The mark of a node, and the weights above it.

ghost use Rattle.std.specs.Prelude.{◌≡◌, ◌<◌, ◌^◌, All, IfOk, IfSome, false, length, pos, true};
ghost use Rattle.tetri_compile.specs.Gain.{most_gain};
ghost use Rattle.tetri_ip.specs.Points.{IsFit, IsInBox, bounds_of};
ghost use Rattle.tetri_swift.specs.Branches.{IsOpen};
ghost use Rattle.tetri_swift.specs.Nodes.{IsFair};

use crate::anew::{Said, run_anew};
use crate::engine::{Engine, Proposal};
use crate::single::{Branch, find_open, middle_mark, single_mark};
use crate::tests::{closed, plain_rest, rest, split, whole};
use std::alloc::{AllocError, Global};
use std::rc::Rc;
use tetri_cert::Mark;
use tetri_ip::{Program, Region, Weight};
use tetri_num::Place;

// Weights over the multiplier, which bound the region of a node that was split.
#[derive(Drop)]
pub(crate) struct Dual {
    pub(crate) q: i128,
    pub(crate) weights: Vec<Weight>,
}

// A node's mark, and for a split the weights that were proposed with it.
#[derive(Drop)]
pub(crate) struct Written {
    pub(crate) mark: Mark,
    pub(crate) own: Option<Dual>,
}

// The mark that a proposal stands for, where it passes its tests.
fn tested(
    alloc: Global,
    p: &Program,
    r: &Region,
    factors: &mut [i128],
    best: u64,
    proposal: Proposal,
) -> Result<Option<Written>, AllocError>
    requires fit { IsFit p.now }
    requires in_box { IsInBox p.now (bounds_of r.now) }
    requires length { length factors.old ≡ length p.now.costs.items }
    ensures { IfOk result (λ o. IfSome o (λ w. IsFair p.now (bounds_of r.now) best true w.mark)) }
{
    match proposal {
        Proposal::Close { q, weights } => {
            let Some(mark) = closed(p, r, factors, best, q, weights) else {
                return Ok(None);
            };
            Ok(Some(Written { mark, own: None }))
        }
        Proposal::Whole { q, weights, point } => {
            let Some(mark) = whole(alloc, p, r, factors, best, q, weights, point)? else {
                return Ok(None);
            };
            Ok(Some(Written { mark, own: None }))
        }
        Proposal::Split {
            q,
            weights,
            column,
            at,
            point,
        } => {
            let Some(mark) = split(alloc, p, r, best, column, at, &point)? else {
                return Ok(None);
            };
            Ok(Some(Written {
                mark,
                own: Some(Dual { q, weights }),
            }))
        }
    }
}

// A split in the middle of the column.
fn middle(p: &Program, r: &Region, best: u64, branch: Branch, past: Option<Place>) -> Written
    requires fit { IsFit p.now }
    requires in_box { IsInBox p.now (bounds_of r.now) }
    requires branch { IsOpen p.now (bounds_of r.now) branch }
    ensures { IsFair p.now (bounds_of r.now) best true result.mark }
{
    let mark = middle_mark(p, r, best, branch, past);
    Written { mark, own: None }
}

// The mark of a node that the engine gave none for: by a run from nothing, and where that fails a
// split in the middle of the column.
fn run_mark(
    alloc: Global,
    p: &Program,
    r: &Region,
    factors: &mut [i128],
    best: u64,
    branch: Branch,
) -> Result<Written, AllocError>
    requires fit { IsFit p.now }
    requires in_box { IsInBox p.now (bounds_of r.now) }
    requires length { length factors.old ≡ length p.now.costs.items }
    requires branch { IsOpen p.now (bounds_of r.now) branch }
    ensures { IfOk result (λ w. IsFair p.now (bounds_of r.now) best true w.mark) }
{
    match run_anew(alloc, p, r, factors, best)? {
        Said::Proposed(proposal) => match tested(alloc, p, r, factors, best, proposal)? {
            Some(written) => Ok(written),
            None => Ok(middle(p, r, best, branch, None)),
        },
        Said::Past(place) => Ok(middle(p, r, best, branch, Some(place))),
        Said::Long => Ok(middle(p, r, best, branch, None)),
    }
}

// What the engine proposes, where that passes its tests.
fn proposed<E: Engine>(
    alloc: Global,
    p: &Program,
    r: &Region,
    factors: &mut [i128],
    best: u64,
    engine: &mut E,
) -> Result<Option<Written>, AllocError>
    requires fit { IsFit p.now }
    requires in_box { IsInBox p.now (bounds_of r.now) }
    requires length { length factors.old ≡ length p.now.costs.items }
    ensures { IfOk result (λ o. IfSome o (λ w. IsFair p.now (bounds_of r.now) best true w.mark)) }
{
    let Some(proposal) = engine.propose(alloc, p, r, best)? else {
        return Ok(None);
    };
    tested(alloc, p, r, factors, best, proposal)
}

// The mark of a node that is worked: of a region of one point by its rule, else what the engine
// proposes where that passes its tests, else by a run from nothing.
fn work<E: Engine>(
    alloc: Global,
    p: &Program,
    r: &Region,
    factors: &mut [i128],
    best: u64,
    engine: &mut E,
) -> Result<Written, AllocError>
    requires fit { IsFit p.now }
    requires in_box { IsInBox p.now (bounds_of r.now) }
    requires length { length factors.old ≡ length p.now.costs.items }
    requires zero { All (λ z. z ≡ pos 0) p.now.lower.items }
    requires bounded { most_gain p.now < 2 ^ 64 }
    ensures { IfOk result (λ w. IsFair p.now (bounds_of r.now) best true w.mark) }
{
    let Some(branch) = find_open(p, r) else {
        let mark = single_mark(alloc, p, r, best)?;
        return Ok(Written { mark, own: None });
    };
    if let Some(written) = proposed(alloc, p, r, factors, best, engine)? {
        return Ok(written);
    }
    run_mark(alloc, p, r, factors, best, branch)
}

// The mark of a node that is left open: the weights above it where they can be weighed over its
// region, else none.
fn rest_mark(
    alloc: Global,
    p: &Program,
    r: &Region,
    factors: &mut [i128],
    best: u64,
    above: &Option<Rc<Dual>>,
) -> Result<Written, AllocError>
    requires fit { IsFit p.now }
    requires in_box { IsInBox p.now (bounds_of r.now) }
    requires length { length factors.old ≡ length p.now.costs.items }
    ensures { IfOk result (λ w. IsFair p.now (bounds_of r.now) best false w.mark) }
{
    if let Some(dual) = above {
        if let Some(mark) = rest(alloc, p, r, factors, best, dual.q, &dual.weights)? {
            return Ok(Written { mark, own: None });
        }
    }
    let mark = plain_rest(alloc, p, r, best);
    Ok(Written { mark, own: None })
}

/// The mark of an open node: worked where the budget is not spent, else left open.
pub(crate) fn write_mark<E: Engine>(
    alloc: Global,
    p: &Program,
    r: &Region,
    factors: &mut [i128],
    best: u64,
    left: bool,
    engine: &mut E,
    above: &Option<Rc<Dual>>,
) -> Result<Written, AllocError>
    requires fit { IsFit p.now }
    requires in_box { IsInBox p.now (bounds_of r.now) }
    requires length { length factors.old ≡ length p.now.costs.items }
    requires zero { All (λ z. z ≡ pos 0) p.now.lower.items }
    requires bounded { most_gain p.now < 2 ^ 64 }
    ensures { IfOk result (λ w. IsFair p.now (bounds_of r.now) best left w.mark) }
{
    if left {
        return work(alloc, p, r, factors, best, engine);
    }
    rest_mark(alloc, p, r, factors, best, above)
}

// The weights below a node: its own, else those above it.
fn dual_below(
    alloc: Global,
    own: Option<Dual>,
    above: Option<Rc<Dual>>,
) -> Result<Option<Rc<Dual>>, AllocError> {
    match own {
        Some(dual) => Ok(Some(Rc::new(alloc, dual)?)),
        None => Ok(above),
    }
}

fn share(dual: &Option<Rc<Dual>>) -> Result<Option<Rc<Dual>>, AllocError> {
    match dual {
        Some(dual) => Ok(Some(Rc::clone(dual)?)),
        None => Ok(None),
    }
}

/// Keeps the weights above the two sides of a split, which share them.
pub(crate) fn push_duals(
    alloc: Global,
    duals: &mut Vec<Option<Rc<Dual>>>,
    own: Option<Dual>,
    above: Option<Rc<Dual>>,
    mark: &Mark,
) -> Result<(), AllocError> {
    if let Mark::Split { .. } = mark {
        let dual = dual_below(alloc, own, above)?;
        let shared = share(&dual)?;
        duals.push(shared)?;
        duals.push(dual)?;
    }
    Ok(())
}
