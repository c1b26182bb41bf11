// What the end of a node's pivots proposes.

use crate::anew::of_point;
use crate::dictionary::{Dictionary, is_mirrored};
use crate::engine::Proposal;
use crate::goal::{divide_all, divisor, part};
use crate::losses::choose_by_loss;
use crate::numbers::{at, name_at, wide_at};
use crate::repair::End;
use std::alloc::{AllocError, Global};
use tetri_ip::{Program, Region, Weight, add_product};
use tetri_num::Frac;

// Weights are rounded to this denominator: any of 0 or more bound a region.
const FINE: i128 = 1 << 20;

fn put(numbers: &mut [i128], place: usize, x: i128) {
    if place < numbers.len() {
        numbers[place] = x;
    }
}

// The numbers above 0 as weights by row, with their multiplier, in lowest terms.
fn lowest(alloc: Global, q: i128, numbers: &[i128]) -> Result<(i128, Vec<Weight>), AllocError> {
    let mut by = q;
    for x in numbers {
        by = divisor(by, *x);
    }
    let mut weights = Vec::new(alloc);
    for (row, x) in numbers.iter().enumerate() {
        if *x > 0 {
            weights.push(Weight {
                row: u32::try_from(row).unwrap_or(0),
                by: part(*x, by),
            })?;
        }
    }
    Ok((part(q, by), weights))
}

// The weights of the objective, over a denominator that is not much greater than `FINE`: what it
// loses by the slack of each row.
fn goal_weights(
    alloc: Global,
    p: &Program,
    d: &Dictionary,
) -> Result<(i128, Vec<Weight>), AllocError> {
    let columns = p.costs.len();
    let mut numbers = vec![in alloc; 0i128; p.rows.len()]?;
    for place in 0..d.nonbasic.len() {
        let variable = name_at(&d.nonbasic, place);
        if columns <= variable {
            let loss = wide_at(&d.goal.numbers, place).wrapping_neg();
            put(&mut numbers, variable - columns, loss);
        }
    }
    let by = part(d.goal.over, FINE);
    divide_all(&mut numbers, by);
    lowest(alloc, part(d.goal.over, by), &numbers)
}

// The weights that show that a line's variable is below 0 at each point.
fn line_weights(
    alloc: Global,
    p: &Program,
    d: &Dictionary,
    row: usize,
) -> Result<(i128, Vec<Weight>), AllocError> {
    let columns = p.costs.len();
    let mut numbers = vec![in alloc; 0i128; p.rows.len()]?;
    if row < d.lines.len() {
        let line = &d.lines[row];
        for place in 0..d.nonbasic.len() {
            let variable = name_at(&d.nonbasic, place);
            if columns <= variable {
                let number = at(&line.numbers, place) as i128;
                put(&mut numbers, variable - columns, number.wrapping_neg());
            }
        }
        let variable = name_at(&d.basic, row);
        if columns <= variable {
            put(&mut numbers, variable - columns, line.over as i128);
        }
    }
    lowest(alloc, 0, &numbers)
}

/// A column's number, whose variable is a constant over a denominator.
pub(crate) fn number_of(
    r: &Region,
    mirrored: bool,
    column: usize,
    constant: i64,
    over: i64,
) -> Option<Frac> {
    let over = over as i128;
    let number = if mirrored {
        add_product(
            (constant as i128).wrapping_neg(),
            wide_at(&r.upper, column),
            over,
        )?
    } else {
        add_product(constant as i128, wide_at(&r.lower, column), over)?
    };
    if over <= 0 || number == i128::MIN {
        return None;
    }
    Some(Frac::new(number, over))
}

fn put_frac(point: &mut [Frac], place: usize, x: Frac) {
    if place < point.len() {
        point[place] = x;
    }
}

// The point at which all nonbasic variables are 0.
fn point_of(
    alloc: Global,
    p: &Program,
    r: &Region,
    d: &Dictionary,
) -> Result<Option<Vec<Frac>>, AllocError> {
    let columns = p.costs.len();
    let mut point = Vec::with_capacity(alloc, columns)?;
    for column in 0..columns {
        let mirrored = is_mirrored(&d.mirrored, column);
        let Some(number) = number_of(r, mirrored, column, 0, 1) else {
            return Ok(None);
        };
        point.push(number)?;
    }
    for (row, line) in d.lines.iter().enumerate() {
        let column = name_at(&d.basic, row);
        if column < columns {
            let mirrored = is_mirrored(&d.mirrored, column);
            let Some(number) = number_of(r, mirrored, column, line.constant, line.over) else {
                return Ok(None);
            };
            put_frac(&mut point, column, number);
        }
    }
    Ok(Some(point))
}

/// What an end proposes, if anything, where this is the best objective known. Its only error is want
/// of memory.
pub(crate) fn of_end(
    alloc: Global,
    p: &Program,
    r: &Region,
    d: &Dictionary,
    end: End,
    best: u64,
) -> Result<Option<Proposal>, AllocError> {
    match end {
        End::Cut => {
            let (q, weights) = goal_weights(alloc, p, d)?;
            Ok(Some(Proposal::Close { q, weights }))
        }
        End::Empty(row) => {
            let (q, weights) = line_weights(alloc, p, d, row)?;
            Ok(Some(Proposal::Close { q, weights }))
        }
        End::Best => {
            let (q, weights) = goal_weights(alloc, p, d)?;
            let Some(point) = point_of(alloc, p, r, d)? else {
                return Ok(None);
            };
            let branch = choose_by_loss(p, r, d, best);
            Ok(Some(of_point(alloc, branch, q, weights, point)?))
        }
        End::Spent => Ok(None),
    }
}
