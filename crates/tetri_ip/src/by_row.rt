//! The weighed number, formed row by row in a list of the columns' factors.

ghost use Rattle.std.specs.Prelude.{◌≡◌, ◌<◌, ◌*ℤ◌, ℕ, Ok, Some, length, IfOk, IfSome, IsTrue};
ghost use Rattle.tetri_ip.specs.Points.{NumbersWithin, IsFit, IsInBox, bounds_of, coefficient, column_at, number_at};
ghost use Rattle.tetri_ip.specs.Weighed.{AreNotNegative, AreOfRows, weighed};
ghost use Rattle.tetri_ip.specs.Forming.{AreFactors, form_bounds, form_factor, subtract_product, weigh_answer, within};

use crate::programs::{Program, Region, Row, WeighFault, Weight};
use crate::range::{product, subtract_product};
use crate::weighing::{add_bound, find_negative, right_sum, weigh};

// Writes q times each column's cost. False where one is out of range.
fn start_factors(p: &Program, q: i128, factors: &mut [i128]) -> bool
    requires { length factors.old ≡ length p.now.costs.items }
    ensures { IsTrue result → (j : ℕ) → j < length p.now.costs.items →
        within (q *ℤ number_at p.now.costs.items j) ≡ Some (number_at factors.new j) }
{
    for j in 0..p.costs.len() {
        let Some(first) = product(q, p.costs[j]) else {
            return false;
        };
        factors[j] = first;
    }
    true
}

// Takes a row's terms times a weight away from the factors of their columns. False where a number
// leaves the range.
fn subtract_row(row: &Row, by: i128, factors: &mut [i128]) -> bool
    requires ascending { (k m : ℕ) → k < m → m < length row.now.terms.items →
        column_at row.now.terms.items k < column_at row.now.terms.items m }
    requires columns { (k : ℕ) → k < length row.now.terms.items → column_at row.now.terms.items k < length factors.old }
    requires in_range { NumbersWithin factors.old }
    ensures in_range { IsTrue result → NumbersWithin factors.new }
    ensures taken { IsTrue result → (j : ℕ) → j < length factors.old →
        subtract_product (number_at factors.old j) by (coefficient row.now.terms.items j) ≡ Some (number_at factors.new j) }
{
    for term in &row.terms {
        let column = term.column as usize;
        let Some(next) = subtract_product(factors[column], by, term.by) else {
            return false;
        };
        factors[column] = next;
    }
    true
}

// Takes the weights' rows away from the factors, one by one. False where a number leaves the range.
fn subtract_rows(p: &Program, weights: &[Weight], factors: &mut [i128]) -> bool
    requires fit { IsFit p.now }
    requires rows { AreOfRows p.now weights.now }
    requires length { length factors.old ≡ length p.now.costs.items }
    requires in_range { NumbersWithin factors.old }
    ensures { IsTrue result → (j : ℕ) → j < length factors.old →
        form_factor p.now.rows.items weights.now j (number_at factors.old j) ≡ Some (number_at factors.new j) }
{
    for w in weights {
        if !subtract_row(&p.rows[w.row as usize], w.by, factors) {
            return false;
        }
    }
    true
}

// Forms the factor of each column. False where a number leaves the range.
fn form_factors(p: &Program, q: i128, weights: &[Weight], factors: &mut [i128]) -> bool
    requires fit { IsFit p.now }
    requires rows { AreOfRows p.now weights.now }
    requires length { length factors.old ≡ length p.now.costs.items }
    ensures { IsTrue result → AreFactors p.now q weights.now factors.new }
{
    if !start_factors(p, q, factors) {
        return false;
    }
    subtract_rows(p, weights, factors)
}

fn bounds_total(r: &Region, factors: &[i128], right: i128) -> Option<i128>
    requires lower { length r.now.lower.items ≡ length factors.now }
    requires upper { length r.now.upper.items ≡ length factors.now }
    ensures { result ≡ form_bounds (bounds_of r.now) 0 factors.now right }
{
    let mut sum = right;
    for j in 0..factors.len() {
        let Some(next) = add_bound(r, j, factors[j], sum) else {
            return None;
        };
        sum = next;
    }
    Some(sum)
}

// The weighed number, where no weight is below 0 and each number is in range.
fn formed(
    p: &Program,
    r: &Region,
    q: i128,
    weights: &[Weight],
    factors: &mut [i128],
) -> Option<i128>
    requires fit { IsFit p.now }
    requires in_box { IsInBox p.now (bounds_of r.now) }
    requires rows { AreOfRows p.now weights.now }
    requires length { length factors.old ≡ length p.now.costs.items }
    ensures { IfSome result (λ z. Ok z ≡ weigh_answer p.now (bounds_of r.now) q weights.now) }
{
    if find_negative(weights).is_some() {
        return None;
    }
    let Some(right) = right_sum(p, weights) else {
        return None;
    };
    if !form_factors(p, q, weights, factors) {
        return None;
    }
    bounds_total(r, factors, right)
}

/// `weigh` over a list with a number for each column, in which it forms the columns' factors: it
/// writes each cost times `q`, takes each weight's row away from them, and then adds up what they
/// bound. So it goes once through the columns and the terms of the weights' rows, and as `weigh`
/// where there is a fault to tell. What the list holds before and after does not matter.
pub fn weigh_over(
    p: &Program,
    r: &Region,
    q: i128,
    weights: &[Weight],
    factors: &mut [i128],
) -> Result<i128, WeighFault>
    requires fit { IsFit p.now }
    requires in_box { IsInBox p.now (bounds_of r.now) }
    requires rows { AreOfRows p.now weights.now }
    requires length { length factors.old ≡ length p.now.costs.items }
    ensures answer { result ≡ weigh_answer p.now (bounds_of r.now) q weights.now }
    ensures value { IfOk result (λ z. z ≡ weighed p.now (bounds_of r.now) q weights.now) }
    ensures weights { IfOk result (λ z. AreNotNegative weights.now) }
{
    match formed(p, r, q, weights, factors) {
        Some(z) => Ok(z),
        None => weigh(p, r, q, weights),
    }
}
