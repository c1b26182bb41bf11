// The dual simplex method, from a dictionary whose objective has no number above 0.

use crate::dictionary::{Dictionary, mirror_line, pivot, width};
use crate::goal::{SHARE, part};
use crate::lines::Line;
use crate::numbers::{name_at, wide_at};
use std::alloc::{AllocError, Global};
use tetri_ip::Region;

// The most pivots of one node, and those after which the least variable leaves, so that none comes
// back.
const PIVOTS: u32 = 5000;

const GREATEST: u32 = 2000;

/// How the pivots of a node end.
#[derive(Clone, Copy, PartialEq, Eq)]
pub(crate) enum End {
    /// The objective's constant is at most the best objective known.
    Cut,
    /// No variable is below 0 or above its width.
    Best,
    /// The variable of this line is below 0 at each point.
    Empty(usize),
    /// A number is too long, or the most pivots were made.
    Spent,
}

// A line whose variable is below 0, or above its width.
#[derive(Clone, Copy)]
struct Leaving {
    row: usize,
    variable: usize,
    // how far it is out, over the line's denominator
    amount: i128,
    over: i128,
    above: bool,
}

// How far the variable of a line is out of its bounds, where it is.
fn out_of(r: &Region, columns: usize, row: usize, variable: usize, line: &Line) -> Option<Leaving> {
    let over = line.over as i128;
    let constant = line.constant as i128;
    if constant < 0 {
        let amount = constant.wrapping_neg();
        return Some(Leaving {
            row,
            variable,
            amount,
            over,
            above: false,
        });
    }
    if variable < columns {
        let most = width(r, variable).saturating_mul(over);
        if most < constant {
            let amount = constant.saturating_sub(most);
            return Some(Leaving {
                row,
                variable,
                amount,
                over,
                above: true,
            });
        }
    }
    None
}

// Whether the one leaves before the other.
fn leaves_before(one: Leaving, other: Leaving, least: bool) -> bool {
    if least {
        return one.variable < other.variable;
    }
    other.amount.saturating_mul(one.over) < one.amount.saturating_mul(other.over)
}

fn find_leaving(d: &Dictionary, r: &Region, least: bool) -> Option<Leaving> {
    let columns = d.nonbasic.len();
    let mut found: Option<Leaving> = None;
    for (row, line) in d.lines.iter().enumerate() {
        let Some(one) = out_of(r, columns, row, name_at(&d.basic, row), line) else {
            continue;
        };
        found = match found {
            Some(other) if !leaves_before(one, other, least) => Some(other),
            _ => Some(one),
        };
    }
    found
}

// A place whose variable may enter: its number in the objective with the other sign, and in the
// line.
#[derive(Clone, Copy)]
struct Entering {
    place: usize,
    variable: usize,
    loss: i128,
    number: i128,
}

// Whether the ratio of the one is less, or the same and its variable less.
fn enters_before(one: Entering, other: Entering) -> bool {
    let left = one.loss.saturating_mul(other.number);
    let right = other.loss.saturating_mul(one.number);
    left < right || (left == right && one.variable < other.variable)
}

fn find_entering(d: &Dictionary, numbers: &[i64]) -> Option<usize> {
    let mut found: Option<Entering> = None;
    for (place, number) in numbers.iter().enumerate() {
        if *number <= 0 {
            continue;
        }
        let one = Entering {
            place,
            variable: name_at(&d.nonbasic, place),
            loss: wide_at(&d.goal.numbers, place).wrapping_neg(),
            number: *number as i128,
        };
        found = match found {
            Some(other) if !enters_before(one, other) => Some(other),
            _ => Some(one),
        };
    }
    match found {
        Some(one) => Some(one.place),
        None => None,
    }
}

// Whether the objective of the program is at most the best one known: the dictionary's is less than
// that by at most a unit over `SHARE`.
fn is_cut(d: &Dictionary, best: u64) -> bool {
    let most = d.goal.constant.saturating_add(part(d.goal.over, SHARE));
    d.goal.over > 0 && most.div_euclid(d.goal.over) <= best as i128
}

// One pivot, or the end.
fn step(
    alloc: Global,
    d: &mut Dictionary,
    r: &Region,
    best: u64,
    least: bool,
) -> Result<Option<End>, AllocError> {
    if is_cut(d, best) {
        return Ok(Some(End::Cut));
    }
    let Some(out) = find_leaving(d, r, least) else {
        return Ok(Some(End::Best));
    };
    if out.above {
        let width = width(r, out.variable);
        if mirror_line(d, out.row, out.variable, width).is_none() {
            return Ok(Some(End::Spent));
        }
    }
    if d.lines.len() <= out.row {
        return Ok(Some(End::Spent));
    }
    let Some(place) = find_entering(d, &d.lines[out.row].numbers) else {
        return Ok(Some(End::Empty(out.row)));
    };
    match pivot(alloc, d, out.row, place)? {
        Some(()) => Ok(None),
        None => Ok(Some(End::Spent)),
    }
}

/// Pivots till an end, at most a stated number of times. Its only error is want of memory.
pub(crate) fn repair(
    alloc: Global,
    d: &mut Dictionary,
    r: &Region,
    best: u64,
) -> Result<End, AllocError> {
    for turn in 0..PIVOTS {
        if let Some(end) = step(alloc, d, r, best, GREATEST <= turn)? {
            return Ok(end);
        }
    }
    Ok(End::Spent)
}
