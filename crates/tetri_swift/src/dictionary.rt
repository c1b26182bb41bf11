// Dictionaries of the dual simplex method over bounded variables. A column is one variable, its
// number less the lower bound, or, where it is mirrored, the upper bound less its number; both are
// 0 or more.

use crate::goal::{Goal, ONE, SHARE, part, put_in_goal};
use crate::lines::{Line, mirror, places, put_in, solve_for};
use crate::numbers::{at, name_at, narrow, plus, wide_at};
use std::alloc::{AllocError, Global};
use tetri_ip::{Program, Region, Row, add_product, product};

/// Variables by name: a column by its number, and the slack of a row by its number behind the
/// columns.
#[derive(Drop)]
pub(crate) struct Dictionary {
    /// The basic variable of each line.
    pub(crate) basic: Vec<u32>,
    /// The nonbasic variable at each place.
    pub(crate) nonbasic: Vec<u32>,
    /// Whether each column is mirrored.
    pub(crate) mirrored: Vec<bool>,
    pub(crate) lines: Vec<Line>,
    pub(crate) goal: Goal,
}

pub(crate) fn is_mirrored(mirrored: &[bool], column: usize) -> bool {
    column < mirrored.len() && mirrored[column]
}

// The bound at which a column stands where its variable is 0.
fn base(r: &Region, mirrored: &[bool], column: usize) -> i128 {
    if is_mirrored(mirrored, column) {
        wide_at(&r.upper, column)
    } else {
        wide_at(&r.lower, column)
    }
}

/// How many whole numbers more than one a column has.
pub(crate) fn width(r: &Region, column: usize) -> i128 {
    wide_at(&r.upper, column).saturating_sub(wide_at(&r.lower, column))
}

// The slack of a row. None where a number is too long.
fn first_line(
    alloc: Global,
    columns: usize,
    row: &Row,
    r: &Region,
    mirrored: &[bool],
) -> Result<Option<Line>, AllocError> {
    let mut numbers = vec![in alloc; 0i64; columns]?;
    let mut constant = row.right;
    for term in &row.terms {
        let column = term.column as usize;
        let Some(by) = narrow(term.by) else {
            return Ok(None);
        };
        let base = base(r, mirrored, column);
        let Some(next) = add_product(constant, term.by.wrapping_neg(), base) else {
            return Ok(None);
        };
        constant = next;
        if column < columns {
            numbers[column] = if is_mirrored(mirrored, column) {
                by
            } else {
                by.wrapping_neg()
            };
        }
    }
    let Some(constant) = narrow(constant) else {
        return Ok(None);
    };
    Ok(Some(Line {
        over: 1,
        constant,
        numbers,
    }))
}

// The most that a number of the first objective is lessened by, over `ONE`: all columns of the
// program's box together make less than a unit over `SHARE` of it.
fn most_lessened(p: &Program) -> i128 {
    let mut widths: i128 = 0;
    for (column, upper) in p.upper.iter().enumerate() {
        widths = widths.saturating_add(upper.saturating_sub(wide_at(&p.lower, column)));
    }
    part(part(ONE, SHARE), widths).max(1)
}

// The next of a row of numbers without a pattern (Lehmer 1951).
fn next_seed(seed: u64) -> u64 {
    seed.wrapping_mul(6_364_136_223_846_793_005)
        .wrapping_add(1_442_695_040_888_963_407)
}

// A number from 1 to the most.
fn lessened(seed: u64, most: i128) -> i128 {
    if most <= 1 {
        return 1;
    }
    ((seed >> 33) as i128 % most).saturating_add(1)
}

// A number of the first objective: what a unit of the column's variable costs, and a little more.
fn first_number(cost: i128, less: i128) -> Option<i128> {
    Some(product(cost.min(cost.wrapping_neg()), ONE)?.saturating_sub(less))
}

// The objective, each of whose numbers is below 0. Each is a little less than the program's, so that
// few ratios are the same and pivots lessen the objective (Charnes 1952).
fn first_goal(
    alloc: Global,
    p: &Program,
    r: &Region,
    mirrored: &[bool],
) -> Result<Option<Goal>, AllocError> {
    let most = most_lessened(p);
    let mut seed = 1;
    let mut numbers = Vec::with_capacity(alloc, p.costs.len())?;
    let mut constant = 0;
    for (column, cost) in p.costs.iter().enumerate() {
        let Some(next) = add_product(constant, *cost, base(r, mirrored, column)) else {
            return Ok(None);
        };
        constant = next;
        seed = next_seed(seed);
        let Some(number) = first_number(*cost, lessened(seed, most)) else {
            return Ok(None);
        };
        numbers.push(number)?;
    }
    let Some(constant) = product(constant, ONE) else {
        return Ok(None);
    };
    Ok(Some(Goal {
        over: ONE,
        constant,
        numbers,
    }))
}

fn first_names(alloc: Global, from: usize, count: usize) -> Result<Vec<u32>, AllocError> {
    let mut names = Vec::with_capacity(alloc, count)?;
    for k in 0..count {
        names.push(u32::try_from(from.saturating_add(k)).unwrap_or(0))?;
    }
    Ok(names)
}

fn first_mirrored(alloc: Global, p: &Program) -> Result<Vec<bool>, AllocError> {
    let mut mirrored = Vec::with_capacity(alloc, p.costs.len())?;
    for cost in &p.costs {
        mirrored.push(*cost > 0)?;
    }
    Ok(mirrored)
}

/// The first dictionary over a region. None where a number is too long. Its only error is want of
/// memory.
pub(crate) fn start(
    alloc: Global,
    p: &Program,
    r: &Region,
) -> Result<Option<Dictionary>, AllocError> {
    let columns = p.costs.len();
    let mirrored = first_mirrored(alloc, p)?;
    let Some(goal) = first_goal(alloc, p, r, &mirrored)? else {
        return Ok(None);
    };
    let mut lines = Vec::with_capacity(alloc, p.rows.len())?;
    for row in &p.rows {
        let Some(line) = first_line(alloc, columns, row, r, &mirrored)? else {
            return Ok(None);
        };
        lines.push(line)?;
    }
    Ok(Some(Dictionary {
        basic: first_names(alloc, columns, p.rows.len())?,
        nonbasic: first_names(alloc, 0, columns)?,
        mirrored,
        lines,
        goal,
    }))
}

fn copy_lines(alloc: Global, lines: &[Line]) -> Result<Vec<Line>, AllocError> {
    let mut copies = Vec::with_capacity(alloc, lines.len())?;
    for line in lines {
        copies.push(Line {
            over: line.over,
            constant: line.constant,
            numbers: Vec::from_slice(alloc, &line.numbers)?,
        })?;
    }
    Ok(copies)
}

/// A copy. Its only error is want of memory.
pub(crate) fn copy(alloc: Global, d: &Dictionary) -> Result<Dictionary, AllocError> {
    Ok(Dictionary {
        basic: Vec::from_slice(alloc, &d.basic)?,
        nonbasic: Vec::from_slice(alloc, &d.nonbasic)?,
        mirrored: Vec::from_slice(alloc, &d.mirrored)?,
        lines: copy_lines(alloc, &d.lines)?,
        goal: Goal {
            over: d.goal.over,
            constant: d.goal.constant,
            numbers: Vec::from_slice(alloc, &d.goal.numbers)?,
        },
    })
}

/// About how many bytes a copy takes.
pub(crate) fn bytes(d: &Dictionary) -> usize {
    d.lines
        .len()
        .saturating_mul(d.nonbasic.len())
        .saturating_mul(8)
}

fn put_in_all(lines: &mut [Line], place: usize, solved: &Line, places: &[u32]) -> Option<()> {
    for line in lines {
        put_in(line, place, solved, places)?;
    }
    Some(())
}

fn put_name(names: &mut [u32], place: usize, name: usize) {
    if place < names.len() {
        names[place] = u32::try_from(name).unwrap_or(0);
    }
}

/// Exchanges the variables of a line and of a place, at which the line's number is above 0. None
/// where a number is too long, and then the dictionary is spent.
pub(crate) fn pivot(
    alloc: Global,
    d: &mut Dictionary,
    row: usize,
    place: usize,
) -> Result<Option<()>, AllocError> {
    if d.lines.len() <= row {
        return Ok(None);
    }
    let solved = solve_for(alloc, &d.lines[row], place)?;
    let places = places(alloc, &solved)?;
    if solved.over <= 0 || put_in_goal(&mut d.goal, place, &solved, &places).is_none() {
        return Ok(None);
    }
    if put_in_all(&mut d.lines, place, &solved, &places).is_none() {
        return Ok(None);
    }
    let entering = name_at(&d.nonbasic, place);
    put_name(&mut d.nonbasic, place, name_at(&d.basic, row));
    put_name(&mut d.basic, row, entering);
    put_line(&mut d.lines, row, solved);
    Ok(Some(()))
}

fn put_line(lines: &mut [Line], row: usize, line: Line) {
    if row < lines.len() {
        lines[row] = line;
    }
}

// The place of a name in a list.
fn place_of(names: &[u32], name: usize) -> Option<usize> {
    names.iter().position(|other| *other as usize == name)
}

// Adds a multiple of the numbers at a place to the constants.
fn shift_all(lines: &mut [Line], place: usize, by: i64) -> Option<()> {
    for line in lines {
        line.constant = plus(line.constant, by, at(&line.numbers, place))?;
    }
    Some(())
}

fn shift_line(lines: &mut [Line], row: usize, by: i64) -> Option<()> {
    if row < lines.len() {
        let line = &mut lines[row];
        line.constant = plus(line.constant, by.wrapping_neg(), line.over)?;
    }
    Some(())
}

/// The dictionary where a column's variable is less by a number, since the bound at which it stands
/// for 0 moved. None where a number is too long, and then the dictionary is spent.
pub(crate) fn shift(d: &mut Dictionary, column: usize, by: i128) -> Option<()> {
    let by = narrow(by)?;
    if let Some(row) = place_of(&d.basic, column) {
        return shift_line(&mut d.lines, row, by);
    }
    let place = place_of(&d.nonbasic, column)?;
    let number = wide_at(&d.goal.numbers, place);
    d.goal.constant = add_product(d.goal.constant, by as i128, number)?;
    shift_all(&mut d.lines, place, by)
}

/// The line's variable mirrored in its width.
pub(crate) fn mirror_line(
    d: &mut Dictionary,
    row: usize,
    column: usize,
    width: i128,
) -> Option<()> {
    if d.lines.len() <= row || d.mirrored.len() <= column {
        return None;
    }
    mirror(&mut d.lines[row], width)?;
    d.mirrored[column] = !d.mirrored[column];
    Some(())
}
