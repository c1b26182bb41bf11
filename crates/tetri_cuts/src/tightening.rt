//! Tightening: cuts are added to a program one by one.

ghost use Rattle.std.specs.Prelude.{◌≡◌, ◌↔◌, ◌<◌, ◌≤◌, ◌<ℤ◌, ℕ, None, All, length, option_map, pos, IfOk, IfSome, IsTrue, MatchOption};
ghost use Rattle.std.specs.Int.{saturate_unsigned, w64};
ghost use Rattle.tetri_ip.specs.Points.{IsFit, IsFitRow, bounds_of, box_of, column_at, term_at};
ghost use Rattle.tetri_algebra.specs.Range.{IsWithin};
ghost use Rattle.tetri_ip.specs.Weighed.{AreOfRows};
ghost use Rattle.tetri_simplex.specs.Certificates.{AreWeights};
ghost use Rattle.tetri_simplex.specs.Ends.{best};
ghost use Rattle.tetri_dictionary.specs.Fractions.{values};
ghost use Rattle.tetri_simplex.specs.Relaxation.{IsWhole};
ghost use Rattle.tetri_cuts.specs.Breaking.{IsBroken};
ghost use Rattle.tetri_cuts.specs.Cuts.{HasNoNegativeBound, IsMetByPoints};
ghost use Rattle.tetri_cuts.specs.Sums.{AreSums};
ghost use Rattle.tetri_cuts.specs.Tightening.{Bounds, IsCutBy, IsTaken, IsTightening, NonePasses, Passes, Stops, Takes, own_root, plain_root, root_by, root_run};

use crate::breaking::is_broken;
use crate::copies::{copy_program, push_row};
use crate::cuts::divided;
use crate::fault::CutFault;
use crate::fitting::is_in_range;
use crate::sums::{Sums, weighted_sums};
use std::alloc::{AllocError, Global};
use tetri_ip::{Program, Region, Row, Weight, product, weigh_over};
use tetri_num::Frac;
use tetri_simplex::{Outcome, dual_run_over};

// The most cuts that are added.
const MOST_CUTS: usize = 16;

// As many rows as a program has at most when a cut is added, and one more.
const MOST_ROWS: usize = 2000;

/// A cut that was added last to a program: the divisor and the weights of the program's rows that
/// give it, and its row. The weights may be of cuts that were added before.
#[derive(Drop)]
pub struct Added {
    pub divisor: i128,
    pub weights: Vec<Weight>,
    pub row: Row,
}

/// What a run over the program with its cuts certifies: the weights of its rows to the multiplier `q`,
/// and their bound, the floor of the weighed number over `q`, but 0 where that is less, and `u64::MAX`
/// where it is more.
#[derive(Drop)]
pub struct Root {
    pub q: i128,
    pub weights: Vec<Weight>,
    pub bound: u64,
}

/// The cuts in the order in which they were added, and the root of the last run that ended at a best
/// point or cut, where there was one.
#[derive(Drop)]
pub struct Tight {
    pub cuts: Vec<Added>,
    pub root: Option<Root>,
}

// What a run over a program comes to: the root, where it ends at a best point or a cut, and the cut
// that is taken, where the tightening goes on.
#[derive(Drop)]
struct Round {
    root: Option<Root>,
    cut: Option<Added>,
}

// The nearest number from 0 to `u64::MAX`.
fn capped(number: i128) -> u64
    ensures { result ≡ saturate_unsigned w64 number }
{
    if number < 0 {
        0
    } else if number > u64::MAX as i128 {
        u64::MAX
    } else {
        number as u64
    }
}

// The root of a multiplier and weights of a run over the whole box of the program.
fn root_by(p: &Program, r: &Region, factors: &mut [i128], q: i128, weights: Vec<Weight>) -> Root
    requires fit { IsFit p.now }
    requires whole { bounds_of r.now ≡ box_of p.now }
    requires length { length factors.old ≡ length p.now.costs.items }
    requires multiplier { pos 0 <ℤ q }
    requires weights { AreWeights p.now (box_of p.now) q weights.items }
    ensures { plain_root result ≡ root_by p.now q weights.items }
{
    let bound = match weigh_over(p, r, q, &weights, factors) {
        Ok(total) => capped(total.div_euclid(q)),
        Err(_) => 0,
    };
    Root { q, weights, bound }
}

// Whether each number of a point is whole.
fn is_whole(point: &[Frac]) -> bool
    ensures { IsTrue result ↔ All IsWhole (values point.now) }
{
    for i in 0..point.len() {
        if point[i].den != 1 {
            return false;
        }
    }
    true
}

// Whether the program stays fit with a row, and the point breaks it.
fn passes(p: &Program, row: &Row, point: &[Frac]) -> bool
    requires fit { IsFit p.now }
    requires count { length point.now ≡ length p.now.costs.items }
    requires ascending { (k m : ℕ) → k < m → m < length row.now.terms.items →
        column_at row.now.terms.items k < column_at row.now.terms.items m }
    requires columns { (k : ℕ) → k < length row.now.terms.items → column_at row.now.terms.items k < length p.now.costs.items }
    requires numbers { (k : ℕ) → k < length row.now.terms.items → IsWithin (term_at row.now.terms.items k).by }
    requires right { IsWithin row.now.right }
    ensures { IsTrue result ↔ (IsFitRow p.now row.now.terms.items row.now.right × IsBroken row.now.terms.items row.now.right (values point.now)) }
{
    if !is_in_range(p, row) {
        return false;
    }
    is_broken(row, point)
}

// The cut of a divisor, where it passes.
fn cut_by(
    alloc: Global,
    p: &Program,
    point: &[Frac],
    q: i128,
    weights: &[Weight],
    sums: &Sums,
    d: u32,
) -> Result<Option<Added>, AllocError>
    requires fit { IsFit p.now }
    requires count { length point.now ≡ length p.now.costs.items }
    requires multiplier { pos 0 <ℤ q }
    requires divisor { 1 ≤ d }
    requires sums { AreSums p.now weights.now sums.now }
    ensures { IfOk result (λ o. MatchOption o (Passes p.now (values point.now) q weights.now d → ⊥) (IsCutBy p.now (values point.now) q weights.now d)) }
{
    let Some(divisor) = product(q, i128::from(d)) else {
        return Ok(None);
    };
    let row = divided(alloc, sums, divisor)?;
    if !passes(p, &row, point) {
        return Ok(None);
    }
    let weights = Vec::from_slice(alloc, weights)?;
    Ok(Some(Added {
        divisor,
        weights,
        row,
    }))
}

// The cut of the first divisor that passes.
fn first_cut(
    alloc: Global,
    p: &Program,
    point: &[Frac],
    q: i128,
    weights: &[Weight],
) -> Result<Option<Added>, AllocError>
    requires fit { IsFit p.now }
    requires count { length point.now ≡ length p.now.costs.items }
    requires multiplier { pos 0 <ℤ q }
    requires rows { AreOfRows p.now weights.now }
    ensures { IfOk result (λ o. MatchOption o (NonePasses p.now (values point.now) q weights.now) (IsTaken p.now (values point.now) q weights.now)) }
{
    let sums = match weighted_sums(alloc, p, weights) {
        Ok(sums) => sums,
        Err(CutFault::Past(_)) => return Ok(None),
        Err(CutFault::NoMemory) => return Err(AllocError),
    };
    for d in 2..65 {
        if let Some(added) = cut_by(alloc, p, point, q, weights, &sums, d)? {
            return Ok(Some(added));
        }
    }
    Ok(None)
}

// The cut that is taken at a best point, with some cuts made.
fn next_cut(
    alloc: Global,
    p: &Program,
    made: usize,
    point: &[Frac],
    q: i128,
    weights: &[Weight],
) -> Result<Option<Added>, AllocError>
    requires fit { IsFit p.now }
    requires count { length point.now ≡ length p.now.costs.items }
    requires multiplier { pos 0 <ℤ q }
    requires rows { AreOfRows p.now weights.now }
    requires run { root_run p.now ≡ best (values point.now) q weights.now }
    ensures { IfOk result (λ o. MatchOption o (Stops p.now made) (Takes p.now made)) }
{
    if is_whole(point) {
        return Ok(None);
    }
    if made >= MOST_CUTS {
        return Ok(None);
    }
    if p.rows.len() >= MOST_ROWS {
        return Ok(None);
    }
    first_cut(alloc, p, point, q, weights)
}

// The run over a program with some cuts made.
fn run_over(alloc: Global, p: &Program, made: usize) -> Result<Round, AllocError>
    requires fit { IsFit p.now }
    ensures root { IfOk result (λ s. option_map plain_root s.root ≡ own_root p.now (root_run p.now)) }
    ensures cut { IfOk result (λ s. MatchOption s.cut (Stops p.now made) (Takes p.now made)) }
{
    let region = Region::whole(alloc, p)?;
    let mut list = vec![in alloc; 0i128; p.costs.len()]?;
    let factors = list.as_mut_slice();
    match dual_run_over(alloc, p, &region, factors, 0)? {
        Outcome::Best { point, q, weights } => {
            let cut = next_cut(alloc, p, made, &point, q, &weights)?;
            let root = root_by(p, &region, factors, q, weights);
            Ok(Round {
                root: Some(root),
                cut,
            })
        }
        Outcome::Cut { q, weights } => {
            let root = root_by(p, &region, factors, q, weights);
            Ok(Round {
                root: Some(root),
                cut: None,
            })
        }
        Outcome::Empty { .. } => Ok(Round {
            root: None,
            cut: None,
        }),
        Outcome::Past(_) => Ok(Round {
            root: None,
            cut: None,
        }),
        Outcome::Long => Ok(Round {
            root: None,
            cut: None,
        }),
    }
}

/// Adds cuts to the program, at most sixteen and while it has fewer than 2,000 rows. The dual simplex
/// method is run over its box. Where it ends at a best point that is not whole, with a multiplier and
/// weights, the multiplier times 2, 3, and so on to 64 are tried as divisors. The first whose cut is
/// formed, leaves the program fit, and is broken by the point is taken. Each point of the program meets
/// each cut, and none has an objective above the root's bound, where this is below `u64::MAX` or no
/// point has an objective above that. The only error is want of memory.
pub fn tighten(alloc: Global, p: &Program) -> Result<Tight, AllocError>
    requires fit { IsFit p.now }
    requires lower { HasNoNegativeBound p.now }
    ensures tightened { IfOk result (IsTightening p.now) }
    ensures met { IfOk result (λ t. All (λ a. IsMetByPoints p.now a.row) t.cuts.items) }
    ensures bound { IfOk result (λ t. IfSome t.root (λ r. Bounds p.now r.bound)) }
{
    let mut current = copy_program(alloc, p)?;
    let mut cuts = Vec::new(alloc);
    let mut root = None;
    'adding: loop {
        let round = run_over(alloc, &current, cuts.len())?;
        let Round { root: own, cut } = round;
        root = own.or(root);
        let Some(added) = cut else {
            return Ok(Tight { cuts, root });
        };
        push_row(alloc, &mut current, &added.row)?;
        cuts.push(added)?;
    }
}
