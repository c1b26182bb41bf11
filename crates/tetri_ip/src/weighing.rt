//! The weighed number, which bounds the objective of each point of a region:
//! the right side of weak duality for linear programs with bounded columns
//! (Dantzig, Linear Programming and Extensions, 1963).

ghost use Rattle.std.specs.Prelude.{◌≡◌, ◌<◌, length, pos, IfOk};
ghost use Rattle.tetri_ip.specs.Points.{IsFit, IsInBox, bounds_of, number_at};
ghost use Rattle.tetri_ip.specs.Weighed.{AreNotNegative, AreOfRows, bound_taken, weighed};
ghost use Rattle.tetri_ip.specs.Forming.{add_product, first_negative, form_right, form_factor, form_column, form_columns, weigh_answer};

use crate::columns::coefficient_of;
use crate::programs::{Program, Region, WeighFault, Weight};
use crate::range::{add_product, product, subtract_product};

pub(crate) fn find_negative(weights: &[Weight]) -> Option<u32>
    ensures { result ≡ first_negative weights.now }
{
    for w in weights {
        if w.by < 0 {
            return Some(w.row);
        }
    }
    None
}

/// The sum of the weights' products with their rows' right sides, if each product and each sum on the way is in range.
pub fn right_sum(p: &Program, weights: &[Weight]) -> Option<i128>
    requires { AreOfRows p.now weights.now }
    ensures { result ≡ form_right p.now.rows.items weights.now (pos 0) }
{
    let mut sum = 0;
    for w in weights {
        let right = p.rows[w.row as usize].right;
        let Some(next) = add_product(sum, w.by, right) else {
            return None;
        };
        sum = next;
    }
    Some(sum)
}

// The cost of a column, from which its coefficients times their rows' weights are taken away.
pub(crate) fn factor(p: &Program, weights: &[Weight], column: u32, cost: i128) -> Option<i128>
    requires fit { IsFit p.now }
    requires rows { AreOfRows p.now weights.now }
    ensures { result ≡ form_factor p.now.rows.items weights.now column cost }
{
    let mut rest = cost;
    for w in weights {
        let by = coefficient_of(&p.rows[w.row as usize], column);
        let Some(next) = subtract_product(rest, w.by, by) else {
            return None;
        };
        rest = next;
    }
    Some(rest)
}

// The sum with a factor times the bound that it takes, if that and the product are in range.
pub(crate) fn add_bound(r: &Region, j: usize, by: i128, sum: i128) -> Option<i128>
    requires lower { j < length r.now.lower.items }
    requires upper { j < length r.now.upper.items }
    ensures { result ≡ add_product sum by (bound_taken (bounds_of r.now) j by) }
{
    let bound = if by > 0 { r.upper[j] } else { r.lower[j] };
    add_product(sum, by, bound)
}

fn column_total(
    p: &Program,
    r: &Region,
    q: i128,
    weights: &[Weight],
    j: usize,
    sum: i128,
) -> Option<i128>
    requires fit { IsFit p.now }
    requires in_box { IsInBox p.now (bounds_of r.now) }
    requires rows { AreOfRows p.now weights.now }
    requires column { j < length p.now.costs.items }
    ensures { result ≡
        form_column p.now.rows.items (bounds_of r.now) q weights.now j (number_at p.now.costs.items j) sum }
{
    let Some(cost) = product(q, p.costs[j]) else {
        return None;
    };
    let Some(by) = factor(p, weights, j as u32, cost) else {
        return None;
    };
    add_bound(r, j, by, sum)
}

fn columns_total(
    p: &Program,
    r: &Region,
    q: i128,
    weights: &[Weight],
    right: i128,
) -> Result<i128, WeighFault>
    requires fit { IsFit p.now }
    requires in_box { IsInBox p.now (bounds_of r.now) }
    requires rows { AreOfRows p.now weights.now }
    ensures { result ≡ form_columns p.now.rows.items (bounds_of r.now) q weights.now 0 p.now.costs.items right }
{
    let mut sum = right;
    for j in 0..p.costs.len() {
        let Some(next) = column_total(p, r, q, weights, j, sum) else {
            return Err(WeighFault::Past(j as u32));
        };
        sum = next;
    }
    Ok(sum)
}

/// The weighed number of a region, for `q` times the objective and the weights
/// of some rows of the program, ascending by row. Negative with the row of the
/// first weight below 0; else Past with the column at which a number out of
/// range came up first, and with 0 where the right sides gave one.
pub fn weigh(p: &Program, r: &Region, q: i128, weights: &[Weight]) -> Result<i128, WeighFault>
    requires fit { IsFit p.now }
    requires in_box { IsInBox p.now (bounds_of r.now) }
    requires rows { AreOfRows p.now weights.now }
    ensures answer { result ≡ weigh_answer p.now (bounds_of r.now) q weights.now }
    ensures value { IfOk result (λ z. z ≡ weighed p.now (bounds_of r.now) q weights.now) }
    ensures weights { IfOk result (λ z. AreNotNegative weights.now) }
{
    if let Some(row) = find_negative(weights) {
        return Err(WeighFault::Negative(row));
    }
    let Some(right) = right_sum(p, weights) else {
        return Err(WeighFault::Past(0));
    };
    columns_total(p, r, q, weights, right)
}
