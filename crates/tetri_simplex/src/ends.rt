//! The ends of a run, with the values that they carry.

ghost use Rattle.std.specs.Prelude.{◌≡◌, ◌<◌, ◌^◌, ℕ, List, length, cond, pos, MatchOption, MatchResult};
ghost use lib.IntN.{ℤ};
ghost use Rattle.tetri_num.specs.declared.places.Kind.TheVariants as kind;
ghost use Rattle.tetri_ip.specs.declared.programs.Weight.{Weight};
ghost use Rattle.tetri_ip.specs.Points.{IsFit, IsInBox, bounds_of};
ghost use Rattle.tetri_ip.specs.Weighed.{AreOfRows};
ghost use Rattle.tetri_ip.specs.Forming.{weigh_answer};
ghost use Rattle.tetri_simplex.specs.Ends.{End, past, when_weighed, weighted_end, objective_weights, row_weights, cut_end, best_end, empty_end};
ghost use Rattle.tetri_simplex.specs.Faults.{EndsPast};
ghost use Rattle.tetri_dictionary.specs.Fractions.{values};
ghost use Rattle.tetri_simplex.specs.Outcomes.{end_of};
ghost use Rattle.tetri_dictionary.specs.Steps.{place_at};
ghost use Rattle.tetri_simplex.specs.Turns.{HasPlaces};

use crate::outcome::Outcome;
use crate::point::point_of;
use crate::weights::{common_denominator, row_weights, whole_weights};
use std::alloc::Global;
use tetri_dictionary::{Dictionary, PivotFault};
use tetri_ip::{Program, Region, WeighFault, Weight, weigh_over};
use tetri_num::{Frac, Kind, Place};

// Whole weights and the multiplier of the objective.
#[derive(Drop)]
struct Weighing {
    q: i128,
    weights: Vec<Weight>,
}

// The column at which weighing leaves the range.
fn past_column(
    p: &Program,
    r: &Region,
    q: i128,
    weights: &[Weight],
    factors: &mut [i128],
) -> Option<u32>
    requires fit { IsFit p.now }
    requires in_box { IsInBox p.now (bounds_of r.now) }
    requires rows { AreOfRows p.now weights.now }
    requires length { length factors.old ≡ length p.now.costs.items }
    ensures { (e : End) → let end = when_weighed (weigh_answer p.now (bounds_of r.now) q weights.now) e in
        MatchOption result (end ≡ e) (λ j. end ≡ past (place_at kind.Weigh 0 j)) }
{
    match weigh_over(p, r, q, weights, factors) {
        Ok(_) => None,
        Err(WeighFault::Negative(_)) => None,
        Err(WeighFault::Past(column)) => Some(column),
    }
}

// Brings weights to whole numbers, and weighs with them: with the common denominator for the
// multiplier, or with 0.
fn weighted(
    alloc: Global,
    p: &Program,
    r: &Region,
    factors: &mut [i128],
    fractions: &[Frac],
    has_objective: bool,
) -> Result<Weighing, PivotFault>
    requires fit { IsFit p.now }
    requires in_box { IsInBox p.now (bounds_of r.now) }
    requires length { length factors.old ≡ length p.now.costs.items }
    requires count { length fractions.now ≡ length p.now.rows.items }
    ensures { (done : ℤ → List Weight → End) →
        let end = weighted_end p.now (bounds_of r.now) (values fractions.now) (λ q. cond has_objective (pos q) (pos 0)) done in
        MatchResult result (λ w. end ≡ done w.q w.weights.items) (λ e. EndsPast e end) }
{
    let denominator = match common_denominator(fractions) {
        Ok(denominator) => denominator,
        Err(place) => return Err(PivotFault::Past(place)),
    };
    let weights = match whole_weights(alloc, denominator, fractions) {
        Ok(weights) => weights,
        Err(fault) => return Err(fault),
    };
    let q = if has_objective { denominator } else { 0 };
    match past_column(p, r, q, &weights, factors) {
        None => Ok(Weighing { q, weights }),
        Some(column) => Err(PivotFault::Past(Place {
            kind: Kind::Weigh,
            step: 0,
            row: 0,
            column,
        })),
    }
}

// The weights that the objective's row gives.
fn objective_weighted<D: Dictionary>(
    alloc: Global,
    p: &Program,
    r: &Region,
    factors: &mut [i128],
    d: &D,
) -> Result<Weighing, PivotFault>
    requires fit { IsFit p.now }
    requires in_box { IsInBox p.now (bounds_of r.now) }
    requires length { length factors.old ≡ length p.now.costs.items }
    requires sound { D.is_sound d.now }
    requires places { HasPlaces p.now (D.table d.now) }
    ensures { (done : ℤ → List Weight → End) →
        let end = weighted_end p.now (bounds_of r.now) (objective_weights p.now (D.table d.now)) pos done in
        MatchResult result (λ w. end ≡ done w.q w.weights.items) (λ e. EndsPast e end) }
{
    let first = p.costs.len();
    let none = first + p.rows.len() + first;
    let row = (p.rows.len() + first) as u32;
    match row_weights(alloc, d, row, none, first, &p.rows) {
        Ok(fractions) => weighted(alloc, p, r, factors, &fractions, true),
        Err(_) => Err(PivotFault::NoMemory),
    }
}

// The weights that the row at place i gives.
fn row_weighted<D: Dictionary>(
    alloc: Global,
    p: &Program,
    r: &Region,
    factors: &mut [i128],
    d: &D,
    i: u32,
) -> Result<Weighing, PivotFault>
    requires fit { IsFit p.now }
    requires in_box { IsInBox p.now (bounds_of r.now) }
    requires length { length factors.old ≡ length p.now.costs.items }
    requires sound { D.is_sound d.now }
    requires places { HasPlaces p.now (D.table d.now) }
    requires place { i < length (D.table d.now).basic }
    ensures { (done : ℤ → List Weight → End) →
        let end = weighted_end p.now (bounds_of r.now) (row_weights p.now (D.table d.now) i) (λ _. pos 0) done in
        MatchResult result (λ w. end ≡ done w.q w.weights.items) (λ e. EndsPast e end) }
{
    let own = d.basic()[i as usize];
    match row_weights(alloc, d, i, own, p.costs.len(), &p.rows) {
        Ok(fractions) => weighted(alloc, p, r, factors, &fractions, false),
        Err(_) => Err(PivotFault::NoMemory),
    }
}

/// The end where nothing is better than the best objective known.
pub(crate) fn cut_end<D: Dictionary>(
    alloc: Global,
    p: &Program,
    r: &Region,
    factors: &mut [i128],
    d: &D,
) -> Result<Outcome, PivotFault>
    requires fit { IsFit p.now }
    requires in_box { IsInBox p.now (bounds_of r.now) }
    requires length { length factors.old ≡ length p.now.costs.items }
    requires sound { D.is_sound d.now }
    requires places { HasPlaces p.now (D.table d.now) }
    ensures { let end = cut_end p.now (bounds_of r.now) (D.table d.now) in
        MatchResult result (λ o. end_of o ≡ end) (λ e. EndsPast e end) }
{
    match objective_weighted(alloc, p, r, factors, d) {
        Ok(Weighing { q, weights }) => Ok(Outcome::Cut { q, weights }),
        Err(fault) => Err(fault),
    }
}

/// The end where no constant is below 0.
pub(crate) fn best_end<D: Dictionary>(
    alloc: Global,
    p: &Program,
    r: &Region,
    factors: &mut [i128],
    d: &D,
) -> Result<Outcome, PivotFault>
    requires fit { IsFit p.now }
    requires in_box { IsInBox p.now (bounds_of r.now) }
    requires length { length factors.old ≡ length p.now.costs.items }
    requires sound { D.is_sound d.now }
    requires places { HasPlaces p.now (D.table d.now) }
    ensures { let end = best_end p.now (bounds_of r.now) (D.table d.now) in
        MatchResult result (λ o. end_of o ≡ end) (λ e. EndsPast e end) }
{
    let point = match point_of(alloc, p, r, d) {
        Ok(point) => point,
        Err(fault) => return Err(fault),
    };
    match objective_weighted(alloc, p, r, factors, d) {
        Ok(Weighing { q, weights }) => Ok(Outcome::Best { point, q, weights }),
        Err(fault) => Err(fault),
    }
}

/// The end where the leaving row at place i has no coefficient above 0.
pub(crate) fn empty_end<D: Dictionary>(
    alloc: Global,
    p: &Program,
    r: &Region,
    factors: &mut [i128],
    d: &D,
    i: u32,
) -> Result<Outcome, PivotFault>
    requires fit { IsFit p.now }
    requires in_box { IsInBox p.now (bounds_of r.now) }
    requires length { length factors.old ≡ length p.now.costs.items }
    requires sound { D.is_sound d.now }
    requires places { HasPlaces p.now (D.table d.now) }
    requires place { i < length (D.table d.now).basic }
    ensures { let end = empty_end p.now (bounds_of r.now) (D.table d.now) i in
        MatchResult result (λ o. end_of o ≡ end) (λ e. EndsPast e end) }
{
    match row_weighted(alloc, p, r, factors, d, i) {
        Ok(Weighing { q: _, weights }) => Ok(Outcome::Empty { weights }),
        Err(fault) => Err(fault),
    }
}
