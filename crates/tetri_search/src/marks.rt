//! The mark of a node.

ghost use Rattle.std.specs.Prelude.{◌≡◌, ◌≤◌, ◌^◌, ℕ, [], IfOk, length, map, pos};
ghost use Rattle.tetri_num.specs.Frac.{value};
ghost use Rattle.tetri_ip.specs.Points.{IsBetween, IsFit, IsInBox, bounds_of};
ghost use Rattle.tetri_ip.specs.Weighed.{once};
ghost use Rattle.tetri_simplex.specs.Certificates.{Certifies};
ghost use Rattle.tetri_dictionary.specs.Fractions.{values};
ghost use Rattle.tetri_simplex.specs.Outcomes.{end_of};
ghost use Rattle.tetri_simplex.specs.Relaxation.{numerators};
ghost use Rattle.tetri_search.specs.Follow.{dual_of, dual_or, own_dual};
ghost use Rattle.tetri_search.specs.Nodes.{IfDual, IsNarrow};
ghost use Rattle.tetri_search.specs.Table.{best_by, fractional_from, end_mark, rest_mark, single_mark, table, worked_mark};
ghost use Rattle.tetri_search.specs.Views.{IfSplit, dual_of_rc};

use crate::branches::{Branch, find_fractional, find_unfixed};
use crate::duals::Dual;
use std::alloc::{AllocError, Global};
use std::rc::Rc;
use tetri_base::Items;
use tetri_cert::{Licence, Mark, cells_of, frac_cells_of, objective_at};
use tetri_ip::{Program, Region, Weight, first_unmet, weigh_over};
use tetri_num::Frac;
use tetri_simplex::{Outcome, dual_run_over};

// A node's mark, and for a split the weights of its run where it ended at a best point.
#[derive(Drop)]
pub(crate) struct Written {
    pub(crate) mark: Mark,
    pub(crate) own: Option<Dual>,
}

fn once(alloc: Global, row: u32) -> Result<Items<Weight>, AllocError>
    ensures { IfOk result (λ w. w ≡ once row) }
{
    let mut weights = Items::new(alloc);
    weights.push(Weight { row, by: 1 })?;
    Ok(weights)
}

// The mark of a region of one point.
fn single_mark(alloc: Global, p: &Program, r: &Region, best: u64) -> Result<Mark, AllocError>
    requires fit { IsFit p.now }
    requires in_box { IsInBox p.now (bounds_of r.now) }
    ensures { IfOk result (λ m. m ≡ single_mark p.now (bounds_of r.now) best) }
{
    if let Some(row) = first_unmet(p, &r.lower) {
        let weights = once(alloc, row as u32)?;
        return Ok(Mark::Close { q: 0, weights });
    }
    let worth = objective_at(p, &r.lower);
    if worth <= best as i128 {
        return Ok(Mark::Close {
            q: 1,
            weights: Items::new(alloc),
        });
    }
    let point = cells_of(alloc, &r.lower)?;
    Ok(Mark::Whole {
        q: 1,
        weights: Items::new(alloc),
        worth,
        point,
    })
}

fn numerators(alloc: Global, point: &[Frac]) -> Result<Vec<i128>, AllocError>
    ensures { IfOk result (λ v. v.items ≡ numerators (map value point.now)) }
{
    let mut numbers = Vec::with_capacity(alloc, point.len())?;
    for j in 0..point.len() {
        numbers.push(point[j].num)?;
    }
    Ok(numbers)
}

// The mark of a best point that is whole.
fn whole_mark(
    alloc: Global,
    p: &Program,
    point: &[Frac],
    q: i128,
    weights: Vec<Weight>,
) -> Result<Mark, AllocError>
    requires fit { IsFit p.now }
    requires count { length point.now ≡ length p.now.costs.items }
    requires in_box { IsBetween (length p.now.costs.items) p.now.lower.items (numerators (map value point.now)) p.now.upper.items }
    ensures { IfOk result (λ m. m ≡ best_by None p.now (map value point.now) q weights.items) }
{
    let whole = numerators(alloc, point)?;
    let cells = cells_of(alloc, &whole)?;
    Ok(Mark::Whole {
        q,
        weights: Items::of(weights),
        worth: objective_at(p, &whole),
        point: cells,
    })
}

// The mark of a best point: a split where it is not whole.
fn best_mark(
    alloc: Global,
    p: &Program,
    point: &[Frac],
    q: i128,
    weights: Vec<Weight>,
) -> Result<Written, AllocError>
    requires fit { IsFit p.now }
    requires count { length point.now ≡ length p.now.costs.items }
    requires in_box { fractional_from 0 (map value point.now) ≡ None →
        IsBetween (length p.now.costs.items) p.now.lower.items (numerators (map value point.now)) p.now.upper.items }
    ensures mark { IfOk result (λ w. w.mark ≡ best_by (fractional_from 0 (map value point.now)) p.now (map value point.now) q weights.items) }
    ensures own { IfOk result (λ w. IfSplit w.mark (w.own ≡ Some (record { q = q; weights = weights.items }))) }
    ensures narrow { IfOk result (λ w. IsNarrow w.mark) }
{
    let Some(branch) = find_fractional(point) else {
        let mark = whole_mark(alloc, p, point, q, weights)?;
        return Ok(Written { mark, own: None });
    };
    let cells = frac_cells_of(alloc, point)?;
    Ok(Written {
        mark: Mark::Split {
            column: branch.column,
            at: branch.at,
            licence: Licence::Point(cells),
        },
        own: Some(Dual {
            q,
            weights: Items::of(weights),
        }),
    })
}

fn ended(mark: Mark) -> Written
    ensures mark { result.mark ≡ mark }
    ensures own { result.own ≡ None }
{
    Written { mark, own: None }
}

// The mark that the end of a node's run gives it.
fn end_mark(
    alloc: Global,
    p: &Program,
    r: &Region,
    best: u64,
    branch: Branch,
    outcome: Outcome,
) -> Result<Written, AllocError>
    requires fit { IsFit p.now }
    requires in_box { IsInBox p.now (bounds_of r.now) }
    requires certified { Certifies p.now (bounds_of r.now) best (end_of outcome) }
    ensures mark { IfOk result (λ w. w.mark ≡ end_mark p.now branch (end_of outcome)) }
    ensures own { IfOk result (λ w. IfSplit w.mark (w.own ≡ dual_of (end_of outcome))) }
    ensures narrow { IfOk result (λ w. IsNarrow w.mark) }
{
    let Branch { column, at } = branch;
    match outcome {
        Outcome::Best { point, q, weights } => best_mark(alloc, p, &point, q, weights),
        Outcome::Cut { q, weights } => Ok(ended(Mark::Close {
            q,
            weights: Items::of(weights),
        })),
        Outcome::Empty { weights } => Ok(ended(Mark::Close {
            q: 0,
            weights: Items::of(weights),
        })),
        Outcome::Past(place) => Ok(ended(Mark::Split {
            column,
            at,
            licence: Licence::Past(place),
        })),
        Outcome::Long => Ok(ended(Mark::Split {
            column,
            at,
            licence: Licence::Long,
        })),
    }
}

// The mark of a node that is worked.
#[tactic(auto, using(crate::proofs::Signed::signed), unfolding(crate::specs::Table::worked_mark, crate::specs::Follow::own_dual))]
fn work(
    alloc: Global,
    p: &Program,
    r: &Region,
    factors: &mut [i128],
    best: u64,
) -> Result<Written, AllocError>
    requires fit { IsFit p.now }
    requires in_box { IsInBox p.now (bounds_of r.now) }
    requires length { length factors.old ≡ length p.now.costs.items }
    ensures mark { IfOk result (λ w. w.mark ≡ worked_mark p.now (bounds_of r.now) best) }
    ensures own { IfOk result (λ w. IfSplit w.mark (w.own ≡ own_dual p.now (bounds_of r.now) best)) }
    ensures narrow { IfOk result (λ w. IsNarrow w.mark) }
{
    let Some(branch) = find_unfixed(p, r) else {
        let mark = single_mark(alloc, p, r, best)?;
        return Ok(ended(mark));
    };
    let outcome = dual_run_over(alloc, p, r, factors, best)?;
    end_mark(alloc, p, r, best, branch, outcome)
}

fn copy_weights(alloc: Global, weights: &[Weight]) -> Result<Items<Weight>, AllocError>
    ensures { IfOk result (λ w. w ≡ weights.now) }
{
    Ok(Items::of(Vec::from_slice(alloc, weights)?))
}

fn plain_rest(alloc: Global) -> Mark
    ensures { result ≡ Mark.Rest (pos 1) [] }
{
    Mark::Rest {
        q: 1,
        weights: Items::new(alloc),
    }
}

// The mark of a node that is left open.
#[tactic(auto, using(crate::proofs::Signed::signed), unfolding(crate::specs::Table::rest_mark))]
fn rest_mark(
    alloc: Global,
    p: &Program,
    r: &Region,
    factors: &mut [i128],
    above: &Option<Rc<Dual>>,
) -> Result<Mark, AllocError>
    requires fit { IsFit p.now }
    requires in_box { IsInBox p.now (bounds_of r.now) }
    requires length { length factors.old ≡ length p.now.costs.items }
    requires dual { IfDual p.now (dual_of_rc above.now) }
    ensures { IfOk result (λ m. m ≡ rest_mark p.now (bounds_of r.now) (dual_of_rc above.now)) }
{
    let Some(dual) = above else {
        return Ok(plain_rest(alloc));
    };
    match weigh_over(p, r, dual.q, dual.weights.as_slice(), factors) {
        Ok(_) => {
            let weights = copy_weights(alloc, dual.weights.as_slice())?;
            Ok(Mark::Rest { q: dual.q, weights })
        }
        Err(_) => Ok(plain_rest(alloc)),
    }
}

// The mark of an open node: worked where the budget is not spent, else left open.
#[tactic(auto, using(crate::proofs::Signed::signed), unfolding(crate::specs::Table::table))]
pub(crate) fn write_mark(
    alloc: Global,
    p: &Program,
    r: &Region,
    factors: &mut [i128],
    above: &Option<Rc<Dual>>,
    best: u64,
    left: bool,
) -> Result<Written, AllocError>
    requires fit { IsFit p.now }
    requires in_box { IsInBox p.now (bounds_of r.now) }
    requires length { length factors.old ≡ length p.now.costs.items }
    requires dual { IfDual p.now (dual_of_rc above.now) }
    ensures mark { IfOk result (λ w. w.mark ≡ table p.now (record { region = bounds_of r.now; dual = dual_of_rc above.now }) best left) }
    ensures own { IfOk result (λ w. IfSplit w.mark (w.own ≡ own_dual p.now (bounds_of r.now) best)) }
    ensures narrow { IfOk result (λ w. IsNarrow w.mark) }
{
    if left {
        return work(alloc, p, r, factors, best);
    }
    let mark = rest_mark(alloc, p, r, factors, above)?;
    Ok(ended(mark))
}
