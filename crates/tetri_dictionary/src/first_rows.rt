//! The rows of the first table, straight from the program: as short whole numbers, and as fractions where a number is
//! not short.

ghost use Rattle.std.specs.Prelude.{◌≡◌, ◌<◌, ◌∷◌, length, map, pos, IfOk, IfSome};
ghost use Rattle.tetri_algebra.specs.Range.{IsWithin};
ghost use Rattle.tetri_algebra.specs.Rational.{whole_ℚ};
ghost use Rattle.tetri_ip.specs.Points.{IsFit, IsFitRow};
ghost use Rattle.tetri_dictionary.specs.Mixed.{mixed_row, AreWholeNumbers, IsMixedRow};
ghost use Rattle.tetri_dictionary.specs.Start.{IsStart, minus_one_at, objective_row, slack_row};

use crate::mixed::MixedRow;
use crate::start;
use crate::start::{directed, objective_at, slack_at, slack_number};
use std::alloc::{AllocError, Global};
use tetri_ip::{Program, Row};
use tetri_rows::short;

// The slack of a row of the program, where all its numbers are short.
fn short_slack(
    alloc: Global,
    p: &Program,
    row: &Row,
    start: &[i128],
) -> Result<Option<Vec<i64>>, AllocError>
    requires fit { IsFit p.now }
    requires row { IsFitRow p.now row.now.terms.items row.now.right }
    requires start { IsStart p.now start.now }
    ensures numbers { IfOk result (λ o. IfSome o (λ v.
        v.items ≡ slack_row p.now.costs.items start.now row.now)) }
    ensures sound { IfOk result (λ o. IfSome o (λ v.
        AreWholeNumbers (length p.now.costs.items) (pos 1) v.items)) }
{
    let Some(constant) = short(slack_at(p, row, start)) else {
        return Ok(None);
    };
    let mut numbers = vec![in alloc; 0i64; p.costs.len() + 1]?;
    numbers[0] = constant;
    for k in 0..row.terms.len() {
        let term = row.terms[k];
        let column = term.column as usize;
        let Some(number) = short(slack_number(p, term.by, column)) else {
            return Ok(None);
        };
        numbers[column + 1] = number;
    }
    Ok(Some(numbers))
}

/// The slack of a row of the program.
pub(crate) fn slack(
    alloc: Global,
    p: &Program,
    row: &Row,
    start: &[i128],
) -> Result<MixedRow, AllocError>
    requires fit { IsFit p.now }
    requires row { IsFitRow p.now row.now.terms.items row.now.right }
    requires start { IsStart p.now start.now }
    ensures numbers { IfOk result (λ r.
        mixed_row r ≡ map whole_ℚ (slack_row p.now.costs.items start.now row.now)) }
    ensures sound { IfOk result (λ r. IsMixedRow (length p.now.costs.items) r) }
{
    if let Some(numbers) = short_slack(alloc, p, row, start)? {
        return Ok(MixedRow::Whole { den: 1, numbers });
    }
    let numbers = start::slack_row(alloc, p, row, start)?;
    Ok(MixedRow::Fractions(numbers))
}

// The slack of the bounds of column j, with this width, where that is short.
fn short_bound(
    alloc: Global,
    p: &Program,
    j: usize,
    width: i128,
) -> Result<Option<Vec<i64>>, AllocError>
    requires fit { IsFit p.now }
    requires column { j < length p.now.costs.items }
    ensures numbers { IfOk result (λ o. IfSome o (λ v.
        v.items ≡ width ∷ minus_one_at j 0 p.now.costs.items)) }
    ensures sound { IfOk result (λ o. IfSome o (λ v.
        AreWholeNumbers (length p.now.costs.items) (pos 1) v.items)) }
{
    let Some(constant) = short(width) else {
        return Ok(None);
    };
    let mut numbers = vec![in alloc; 0i64; p.costs.len() + 1]?;
    numbers[0] = constant;
    numbers[j + 1] = -1;
    Ok(Some(numbers))
}

/// The slack of the bounds of column j, with this width.
pub(crate) fn bound(
    alloc: Global,
    p: &Program,
    j: usize,
    width: i128,
) -> Result<MixedRow, AllocError>
    requires fit { IsFit p.now }
    requires column { j < length p.now.costs.items }
    requires width { IsWithin width }
    ensures numbers { IfOk result (λ r.
        mixed_row r ≡ map whole_ℚ (width ∷ minus_one_at j 0 p.now.costs.items)) }
    ensures sound { IfOk result (λ r. IsMixedRow (length p.now.costs.items) r) }
{
    if let Some(numbers) = short_bound(alloc, p, j, width)? {
        return Ok(MixedRow::Whole { den: 1, numbers });
    }
    let numbers = start::bound_row(alloc, p, j, width)?;
    Ok(MixedRow::Fractions(numbers))
}

// The row of the objective, where all its numbers are short.
fn short_objective(
    alloc: Global,
    p: &Program,
    start: &[i128],
) -> Result<Option<Vec<i64>>, AllocError>
    requires fit { IsFit p.now }
    requires start { IsStart p.now start.now }
    ensures numbers { IfOk result (λ o. IfSome o (λ v.
        v.items ≡ objective_row p.now.costs.items start.now)) }
    ensures sound { IfOk result (λ o. IfSome o (λ v.
        AreWholeNumbers (length p.now.costs.items) (pos 1) v.items)) }
{
    let Some(constant) = short(objective_at(p, start)) else {
        return Ok(None);
    };
    let mut numbers = Vec::with_capacity(alloc, p.costs.len() + 1)?;
    numbers.push(constant)?;
    for j in 0..p.costs.len() {
        let cost = p.costs[j];
        let Some(number) = short(directed(cost, cost)) else {
            return Ok(None);
        };
        numbers.push(number)?;
    }
    Ok(Some(numbers))
}

/// The row of the objective.
pub(crate) fn objective(alloc: Global, p: &Program, start: &[i128]) -> Result<MixedRow, AllocError>
    requires fit { IsFit p.now }
    requires start { IsStart p.now start.now }
    ensures numbers { IfOk result (λ r.
        mixed_row r ≡ map whole_ℚ (objective_row p.now.costs.items start.now)) }
    ensures sound { IfOk result (λ r. IsMixedRow (length p.now.costs.items) r) }
{
    if let Some(numbers) = short_objective(alloc, p, start)? {
        return Ok(MixedRow::Whole { den: 1, numbers });
    }
    let numbers = start::objective_row(alloc, p, start)?;
    Ok(MixedRow::Fractions(numbers))
}
