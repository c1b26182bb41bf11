// Whether programs and weights of tables are what calls on them require.
ghost use Rattle.std.specs.Prelude.{◌≡◌, ℕ, ◌+◌, ◌<◌, ◌^◌, ◌-ℤ◌, ◌≤ℤ◌, All, length, pos, true};
ghost use Rattle.tetri_ip.specs.Points.{NumbersWithin, IsBelow, IsFit, IsFitRow, column_at, cost_reach, number_at, reach, right_of, size_at, term_at, terms_of};
ghost use Rattle.tetri_algebra.specs.Range.{IsWithin};
ghost use Rattle.tetri_ip.specs.Weighed.{AreNotNegative, AreOfRows, WeightsAscend};

use tetri_ip::{Program, Row, Term, Weight};

// One more than the greatest size of a number.
const LIMIT: u128 = 1 << 127;

// One more than the most columns and the most rows.
const MOST: usize = 1 << 31;

fn do_columns_ascend(terms: &[Term]) -> bool
    ensures { result ≡ true → (k m : ℕ) → k < m → m < length terms.now → column_at terms.now k < column_at terms.now m }
{
    for k in 1..terms.len() {
        if terms[k].column <= terms[k - 1].column {
            return false;
        }
    }
    true
}

/// Whether the terms are of the first so many columns, with coefficients in range.
pub fn are_of_columns(terms: &[Term], columns: usize) -> bool
    ensures columns { result ≡ true → (k : ℕ) → k < length terms.now → column_at terms.now k < columns }
    ensures numbers { result ≡ true → (k : ℕ) → k < length terms.now → IsWithin (term_at terms.now k).by }
{
    for term in terms {
        if columns <= term.column as usize || term.by < -i128::MAX {
            return false;
        }
    }
    true
}

fn number_at(numbers: &[i128], place: usize) -> i128
    ensures { result ≡ number_at numbers.now place }
{
    match numbers.get(place) {
        Some(number) => *number,
        None => 0,
    }
}

// The greatest size of a column's number in the box.
fn size_at(p: &Program, column: usize) -> u128
    ensures { result ≡ size_at p.now column }
{
    let lower = number_at(&p.lower, column).unsigned_abs();
    let upper = number_at(&p.upper, column).unsigned_abs();
    lower.max(upper)
}

// Whether the sum and the sizes of the terms are in range at each point of the box.
fn are_in_range(p: &Program, terms: &[Term], sum: u128) -> bool
    ensures { result ≡ true → sum + reach p.now terms.now < 2 ^ 127 }
{
    match terms {
        [] => sum < LIMIT,
        [term, rest @ ..] => {
            let size = size_at(p, term.column as usize);
            let part = term.by.unsigned_abs().saturating_mul(size);
            are_in_range(p, rest, sum.saturating_add(part))
        }
    }
}

fn is_fit_row(p: &Program, row: &Row) -> bool
    ensures { result ≡ true → IsFitRow p.now row.now.terms.items row.now.right }
{
    do_columns_ascend(&row.terms)
        && are_of_columns(&row.terms, p.costs.len())
        && are_in_range(p, &row.terms, row.right.unsigned_abs())
}

fn are_fit_rows(p: &Program, rows: &[Row]) -> bool
    ensures { result ≡ true → (k : ℕ) → k < length rows.now → IsFitRow p.now (terms_of rows.now k) (right_of rows.now k) }
{
    match rows {
        [] => true,
        [row, rest @ ..] => is_fit_row(p, row) && are_fit_rows(p, rest),
    }
}

fn are_costs_in_range(p: &Program, column: usize, costs: &[i128], sum: u128) -> bool
    requires { column + length costs.now < 2 ^ 31 }
    ensures { result ≡ true → sum + cost_reach p.now column costs.now < 2 ^ 127 }
{
    match costs {
        [] => sum < LIMIT,
        [cost, rest @ ..] => {
            let part = cost.unsigned_abs().saturating_mul(size_at(p, column));
            are_costs_in_range(p, column + 1, rest, sum.saturating_add(part))
        }
    }
}

// Whether each column is from at least 0 to at least that, with a cost in range.
fn are_columns(p: &Program) -> bool
    requires lower { length p.now.lower.items ≡ length p.now.costs.items }
    requires upper { length p.now.upper.items ≡ length p.now.costs.items }
    ensures lower { result ≡ true → (k : ℕ) → k < length p.now.costs.items → pos 0 ≤ℤ number_at p.now.lower.items k }
    ensures ordered { result ≡ true → IsBelow (length p.now.costs.items) p.now.lower.items p.now.upper.items }
    ensures costs_within { result ≡ true → NumbersWithin p.now.costs.items }
    ensures lower_within { result ≡ true → NumbersWithin p.now.lower.items }
    ensures upper_within { result ≡ true → NumbersWithin p.now.upper.items }
    ensures widths { result ≡ true → (k : ℕ) → k < length p.now.costs.items → IsWithin (number_at p.now.upper.items k -ℤ number_at p.now.lower.items k) }
{
    for k in 0..p.costs.len() {
        if p.lower[k] < 0 || p.upper[k] < p.lower[k] || p.costs[k] < -i128::MAX {
            return false;
        }
    }
    true
}

/// Whether the program is fit, with no lower bound below 0.
pub fn is_fit(p: &Program) -> bool
    ensures fit { result ≡ true → IsFit p.now }
    ensures lower { result ≡ true → (k : ℕ) → k < length p.now.costs.items → pos 0 ≤ℤ number_at p.now.lower.items k }
{
    if p.costs.len() >= MOST {
        return false;
    }
    if p.rows.len() >= MOST {
        return false;
    }
    if p.lower.len() != p.costs.len() {
        return false;
    }
    if p.upper.len() != p.costs.len() {
        return false;
    }
    if !are_columns(p) {
        return false;
    }
    if !are_costs_in_range(p, 0, &p.costs, 0) {
        return false;
    }
    are_fit_rows(p, &p.rows)
}

fn do_rows_ascend(weights: &[Weight]) -> bool
    ensures { result ≡ true → WeightsAscend weights.now }
{
    for k in 1..weights.len() {
        if weights[k].row <= weights[k - 1].row {
            return false;
        }
    }
    true
}

fn are_of_rows(weights: &[Weight], rows: usize) -> bool
    ensures rows { result ≡ true → All (λ w. w.row < rows) weights.now }
    ensures signs { result ≡ true → AreNotNegative weights.now }
{
    match weights {
        [] => true,
        [weight, rest @ ..] => (weight.row as usize) < rows
            && weight.by >= 0
            && are_of_rows(rest, rows),
    }
}

/// Whether the weights are of the program's rows, which ascend, and none is below 0.
pub fn are_weights(p: &Program, weights: &[Weight]) -> bool
    ensures rows { result ≡ true → AreOfRows p.now weights.now }
    ensures ascending { result ≡ true → WeightsAscend weights.now }
    ensures signs { result ≡ true → AreNotNegative weights.now }
{
    do_rows_ascend(weights) && are_of_rows(weights, p.rows.len())
}
