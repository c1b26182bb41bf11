// What one node bounds over its region.

ghost use Rattle.std.specs.Prelude.{◌≡◌, ℕ, ◌<◌, length, false, true, MatchResult};
ghost use Rattle.std.specs.List.{list_any};
ghost use Rattle.tetri_ip.specs.Points.{IsFit, IsInBox, bounds_of};
ghost use Rattle.tetri_cert.specs.Cells.{is_whole_point};
ghost use Rattle.tetri_cert.specs.NodeBounds.{bound_by, capped, is_unknown_row, multiplied, node_bound, quotient_at, split_bound, weights_bound};
ghost use Rattle.tetri_cert.specs.Trees.{IsTreeAnswer};

use crate::faults::{TreeFault, TreeWhy};
use crate::marks::Mark;
use crate::points::is_whole_point;
use std::alloc::Global;
use tetri_ip::{Program, Region, WeighFault, Weight, weigh_over};

fn has_unknown_row(rows: usize, weights: &[Weight]) -> bool
    ensures { result ≡ list_any (is_unknown_row rows) weights.now }
{
    for w in weights {
        if w.row as usize >= rows {
            return true;
        }
    }
    false
}

fn cap(z: i128) -> u64
    ensures { result ≡ capped z }
{
    if z < 0 {
        0
    } else if z > 18_446_744_073_709_551_615 {
        18_446_744_073_709_551_615
    } else {
        z as u64
    }
}

// The floor of a weighed number over q, or that q is no multiplier of it.
fn quotient(node: u64, q: i128, weighed: i128) -> Result<u64, TreeFault>
    ensures { IsTreeAnswer result (multiplied node q (quotient_at node q weighed)) }
{
    if q > 0 {
        return Ok(cap(weighed.div_euclid(q)));
    }
    if q == 0 && weighed < 0 {
        return Ok(0);
    }
    bad(node, TreeWhy::Denominator)
}

// What a fault of weighing is at this node.
fn weigh_fault(node: u64, q: i128, fault: WeighFault) -> Result<u64, TreeFault>
    ensures { IsTreeAnswer result (bound_by node q (Err fault)) }
{
    match fault {
        WeighFault::Negative(_) => bad(node, TreeWhy::Negative),
        WeighFault::Past(column) => {
            if q < 0 {
                return bad(node, TreeWhy::Denominator);
            }
            Err(TreeFault::Past { node, column })
        }
    }
}

#[tactic(auto, using(crate::proofs::Signed::signed), unfolding(crate::specs::NodeBounds::weights_bound))]
fn test_weights(
    p: &Program,
    r: &Region,
    factors: &mut [i128],
    node: u64,
    q: i128,
    weights: &[Weight],
) -> Result<u64, TreeFault>
    requires fit { IsFit p.now }
    requires in_box { IsInBox p.now (bounds_of r.now) }
    requires length { length factors.old ≡ length p.now.costs.items }
    ensures { IsTreeAnswer result (weights_bound p.now (bounds_of r.now) node q weights.now) }
{
    if has_unknown_row(p.rows.len(), weights) {
        return bad(node, TreeWhy::Row);
    }
    match weigh_over(p, r, q, weights, factors) {
        Ok(weighed) => quotient(node, q, weighed),
        Err(fault) => weigh_fault(node, q, fault),
    }
}

fn bad(node: u64, why: TreeWhy) -> Result<u64, TreeFault>
    ensures { result ≡ Err (TreeFault.Bad node why) }
{
    Err(TreeFault::Bad { node, why })
}

#[tactic(auto, using(crate::proofs::Signed::signed), unfolding(crate::specs::NodeBounds::split_bound))]
fn test_split(p: &Program, r: &Region, node: u64, column: u32, at: i128) -> Result<u64, TreeFault>
    requires in_box { IsInBox p.now (bounds_of r.now) }
    ensures { IsTreeAnswer result (split_bound p.now (bounds_of r.now) node column at) }
{
    let place = column as usize;
    if place >= p.costs.len() {
        return bad(node, TreeWhy::Column);
    }
    if at < r.lower[place] {
        return bad(node, TreeWhy::At);
    }
    if at >= r.upper[place] {
        return bad(node, TreeWhy::At);
    }
    Ok(0)
}

/// What a node bounds over its region, or its first fault.
#[tactic(auto, using(crate::proofs::Signed::signed), unfolding(crate::specs::NodeBounds::node_bound))]
pub(crate) fn test_node(
    alloc: Global,
    p: &Program,
    r: &Region,
    factors: &mut [i128],
    node: u64,
    mark: &Mark,
) -> Result<u64, TreeFault>
    requires fit { IsFit p.now }
    requires in_box { IsInBox p.now (bounds_of r.now) }
    requires length { length factors.old ≡ length p.now.costs.items }
    ensures { IsTreeAnswer result (node_bound p.now (bounds_of r.now) node mark.now) }
{
    match mark {
        Mark::Split { column, at, .. } => test_split(p, r, node, *column, *at),
        Mark::Close { q, weights } => test_weights(p, r, factors, node, *q, weights.as_slice()),
        Mark::Whole {
            q,
            weights,
            worth,
            point,
        } => {
            let most = test_weights(p, r, factors, node, *q, weights.as_slice())?;
            match is_whole_point(alloc, p, r, *worth, point.as_slice()) {
                Ok(true) => Ok(most),
                Ok(false) => bad(node, TreeWhy::Point),
                Err(_) => Err(TreeFault::NoMemory),
            }
        }
        Mark::Rest { q, weights } => test_weights(p, r, factors, node, *q, weights.as_slice()),
    }
}
