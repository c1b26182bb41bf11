//! The first table: each column starts at the bound that its cost prefers.

ghost use Rattle.std.specs.Prelude.{◌≡◌, ◌+◌, ◌<◌, ◌^◌, ◌∷◌, ◌++◌, length, map, cond, ◌==◌, pos, ◌-ℤ◌, ◌*ℤ◌, ◌≤ℤ◌, IfOk};
ghost use Rattle.std.specs.List.{range_with_len};
ghost use lib.IntN.{negsuc, neg_ℤ};
ghost use Rattle.tetri_algebra.specs.IntegerRing.{ℤ_ring};
ghost use Rattle.tetri_algebra.specs.Sums.{dot};
ghost use Rattle.tetri_algebra.specs.Rational.{whole_ℚ};
ghost use Rattle.tetri_num.specs.Frac.{value};
ghost use Rattle.tetri_algebra.specs.Range.{IsWithin};
ghost use Rattle.tetri_ip.specs.Points.{IsFit, IsFitRow, IsInBox, bounds_of, coefficient, left_side, number_at};
ghost use Rattle.tetri_dictionary.specs.Fractions.{values, rows_of};
ghost use Rattle.tetri_dictionary.specs.Full.{IsShaped, table_of};
ghost use Rattle.tetri_dictionary.specs.Start.{IsStart, corner, direction, start_at, slack_from, slack_row, minus_one_at, bound_rows, objective_row, first_table};

use crate::full::Full;
use std::alloc::{AllocError, Global};
use tetri_ip::{Program, Region, Row, coefficient_of, left_side};
use tetri_num::Frac;

// The numbers from `first` on.
pub(crate) fn numbers_from(
    alloc: Global,
    first: usize,
    count: usize,
) -> Result<Vec<usize>, AllocError>
    requires { first + count < 2 ^ 63 }
    ensures { IfOk result (λ v. v.items ≡ range_with_len first count) }
{
    let mut numbers = Vec::new(alloc);
    for k in 0..count {
        numbers.push(first + k)?;
    }
    Ok(numbers)
}

// Where a column starts.
fn start_at(cost: i128, lower: i128, upper: i128) -> i128
    ensures { result ≡ start_at cost lower upper }
{
    if cost > 0 { upper } else { lower }
}

// Where the columns start.
pub(crate) fn corner(alloc: Global, p: &Program, r: &Region) -> Result<Vec<i128>, AllocError>
    requires fit { IsFit p.now }
    requires in_box { IsInBox p.now (bounds_of r.now) }
    ensures corner { IfOk result (λ v. v.items ≡ corner p.now.costs.items r.now.lower.items r.now.upper.items) }
    ensures start { IfOk result (λ v. IsStart p.now v.items) }
{
    let mut start = Vec::new(alloc);
    for j in 0..p.costs.len() {
        start.push(start_at(p.costs[j], r.lower[j], r.upper[j]))?;
    }
    Ok(start)
}

// The number times what a column's variable adds to the column.
pub(crate) fn directed(by: i128, cost: i128) -> i128
    requires { IsWithin by }
    ensures value { result ≡ by *ℤ direction cost }
    ensures within { IsWithin result }
{
    if cost > 0 { -by } else { by }
}

// The constant of a row's slack.
pub(crate) fn slack_at(p: &Program, row: &Row, start: &[i128]) -> i128
    requires row { IsFitRow p.now row.now.terms.items row.now.right }
    requires start { IsStart p.now start.now }
    ensures value { result ≡ row.now.right -ℤ left_side row.now.terms.items start.now }
    ensures within { IsWithin result }
{
    let left = left_side(row, start);
    row.right - left
}

/// The coefficient of a column's variable in a slack with so much of the column.
pub(crate) fn slack_number(p: &Program, by: i128, j: usize) -> i128
    requires column { j < length p.now.costs.items }
    requires within { IsWithin by }
    ensures value { result ≡ neg_ℤ (by *ℤ direction (number_at p.now.costs.items j)) }
    ensures within { IsWithin result }
{
    -directed(by, p.costs[j])
}

// The coefficient of a column's variable in a row's slack.
fn slack_coefficient(p: &Program, row: &Row, j: usize) -> i128
    requires fit { IsFit p.now }
    requires row { IsFitRow p.now row.now.terms.items row.now.right }
    requires column { j < length p.now.costs.items }
    ensures value { result ≡ neg_ℤ (coefficient row.now.terms.items j *ℤ direction (number_at p.now.costs.items j)) }
    ensures within { IsWithin result }
{
    let by = coefficient_of(row, j as u32);
    slack_number(p, by, j)
}

// The slack of a row of the program.
pub(crate) fn slack_row(
    alloc: Global,
    p: &Program,
    row: &Row,
    start: &[i128],
) -> Result<Vec<Frac>, AllocError>
    requires fit { IsFit p.now }
    requires row { IsFitRow p.now row.now.terms.items row.now.right }
    requires start { IsStart p.now start.now }
    ensures { IfOk result (λ v. values v.items ≡ map whole_ℚ (slack_row p.now.costs.items start.now row.now)) }
{
    let mut slack = Vec::new(alloc);
    slack.push(Frac::whole(slack_at(p, row, start)))?;
    for j in 0..p.costs.len() {
        slack.push(Frac::whole(slack_coefficient(p, row, j)))?;
    }
    Ok(slack)
}

// The coefficient of column k's variable in the slack of column j's bounds.
fn bound_coefficient(j: usize, k: usize) -> i128
    ensures value { result ≡ cond (j == k) (negsuc 0) (pos 0) }
    ensures within { IsWithin result }
{
    if j == k { -1 } else { 0 }
}

// The slack of the bounds of column j, with this width.
pub(crate) fn bound_row(
    alloc: Global,
    p: &Program,
    j: usize,
    width: i128,
) -> Result<Vec<Frac>, AllocError>
    requires { IsWithin width }
    ensures { IfOk result (λ v. values v.items ≡ whole_ℚ width ∷ map whole_ℚ (minus_one_at j 0 p.now.costs.items)) }
{
    let mut slack = Vec::new(alloc);
    slack.push(Frac::whole(width))?;
    for k in 0..p.costs.len() {
        slack.push(Frac::whole(bound_coefficient(j, k)))?;
    }
    Ok(slack)
}

// The objective where the columns start.
pub(crate) fn objective_at(p: &Program, start: &[i128]) -> i128
    requires fit { IsFit p.now }
    requires start { IsStart p.now start.now }
    ensures value { result ≡ dot ℤ_ring p.now.costs.items start.now }
    ensures within { IsWithin result }
{
    let mut sum = 0;
    for j in 0..p.costs.len() {
        let part = p.costs[j] * start[j];
        sum += part;
    }
    sum
}

// The row of the objective.
pub(crate) fn objective_row(
    alloc: Global,
    p: &Program,
    start: &[i128],
) -> Result<Vec<Frac>, AllocError>
    requires fit { IsFit p.now }
    requires start { IsStart p.now start.now }
    ensures { IfOk result (λ v. values v.items ≡ map whole_ℚ (objective_row p.now.costs.items start.now)) }
{
    let mut objective = Vec::new(alloc);
    objective.push(Frac::whole(objective_at(p, start)))?;
    for j in 0..p.costs.len() {
        let cost = p.costs[j];
        objective.push(Frac::whole(directed(cost, cost)))?;
    }
    Ok(objective)
}

// The slacks of the program's rows.
fn slack_rows(alloc: Global, p: &Program, start: &[i128]) -> Result<Vec<Vec<Frac>>, AllocError>
    requires fit { IsFit p.now }
    requires start { IsStart p.now start.now }
    ensures { IfOk result (λ v. rows_of v.items ≡ map (map whole_ℚ) (map (slack_row p.now.costs.items start.now) p.now.rows.items)) }
{
    let mut rows = Vec::new(alloc);
    for i in 0..p.rows.len() {
        rows.push(slack_row(alloc, p, &p.rows[i], start)?)?;
    }
    Ok(rows)
}

// The width of a column's bounds.
pub(crate) fn width_at(p: &Program, r: &Region, j: usize) -> i128
    requires fit { IsFit p.now }
    requires in_box { IsInBox p.now (bounds_of r.now) }
    requires column { j < length p.now.costs.items }
    ensures value { result ≡ number_at r.now.upper.items j -ℤ number_at r.now.lower.items j }
    ensures within { IsWithin result }
    ensures sign { pos 0 ≤ℤ result }
{
    r.upper[j] - r.lower[j]
}

// The rows with the slacks of the columns' bounds behind them.
fn with_bound_rows(
    alloc: Global,
    p: &Program,
    r: &Region,
    mut rows: Vec<Vec<Frac>>,
) -> Result<Vec<Vec<Frac>>, AllocError>
    requires fit { IsFit p.now }
    requires in_box { IsInBox p.now (bounds_of r.now) }
    ensures { IfOk result (λ v. rows_of v.items ≡ rows_of rows.items ++ map (map whole_ℚ) (bound_rows 0 p.now.costs.items r.now.lower.items r.now.upper.items)) }
{
    for j in 0..p.costs.len() {
        rows.push(bound_row(alloc, p, j, width_at(p, r, j))?)?;
    }
    Ok(rows)
}

/// The first table of a program over a region.
pub(crate) fn first_table(alloc: Global, p: &Program, r: &Region) -> Result<Full, AllocError>
    requires fit { IsFit p.now }
    requires in_box { IsInBox p.now (bounds_of r.now) }
    ensures table { IfOk result (λ t. table_of t ≡ first_table p.now (bounds_of r.now)) }
    ensures shape { IfOk result (λ t. IsShaped t) }
{
    let start = corner(alloc, p, r)?;
    let slacks = slack_rows(alloc, p, &start)?;
    let mut rows = with_bound_rows(alloc, p, r, slacks)?;
    rows.push(objective_row(alloc, p, &start)?)?;
    let columns = p.costs.len();
    let nonbasic = numbers_from(alloc, 0, columns)?;
    let basic = numbers_from(alloc, columns, p.rows.len() + columns)?;
    Ok(Full {
        nonbasic,
        basic,
        rows,
    })
}
