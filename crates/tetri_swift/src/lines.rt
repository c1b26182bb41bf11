// Rows of a dictionary as whole numbers of one word over one denominator.

use crate::numbers::{at, divisor, narrow, part, plus};
use std::alloc::{AllocError, Global};
use tetri_ip::add_product;

/// The basic variable is the constant and the numbers times the nonbasic variables, all over
/// `over`, which is above 0.
#[derive(Drop)]
pub(crate) struct Line {
    pub(crate) over: i64,
    pub(crate) constant: i64,
    pub(crate) numbers: Vec<i64>,
}

// The greatest common divisor of all numbers of a row.
fn line_divisor(line: &Line) -> i64 {
    let mut found = divisor(line.over, line.constant);
    for x in &line.numbers {
        if found == 1 {
            return 1;
        }
        found = divisor(found, *x);
    }
    found
}

fn divide_all(numbers: &mut [i64], by: i64) {
    for x in numbers {
        *x = part(*x, by);
    }
}

// Brings a row to lowest terms.
fn lower(line: &mut Line) {
    let by = line_divisor(line);
    if by != 1 {
        line.over = part(line.over, by);
        line.constant = part(line.constant, by);
        divide_all(&mut line.numbers, by);
    }
}

fn multiply_all(numbers: &mut [i64], by: i64) -> Option<()> {
    for x in numbers {
        *x = plus(0, by, *x)?;
    }
    Some(())
}

// Multiplies a row by a number. None where a number is too long.
fn multiply(line: &mut Line, by: i64) -> Option<()> {
    line.over = plus(0, by, line.over)?;
    line.constant = plus(0, by, line.constant)?;
    multiply_all(&mut line.numbers, by)
}

/// The row with its variable and constant mirrored in a width: the variable that is the width less
/// it.
pub(crate) fn mirror(line: &mut Line, width: i128) -> Option<()> {
    let constant = add_product(
        (line.constant as i128).wrapping_neg(),
        width,
        line.over as i128,
    )?;
    line.constant = narrow(constant)?;
    negate_all(&mut line.numbers);
    Some(())
}

fn negate_all(numbers: &mut [i64]) {
    for x in numbers {
        *x = x.wrapping_neg();
    }
}

/// The row solved for the variable at a place, whose number is above 0.
pub(crate) fn solve_for(alloc: Global, line: &Line, place: usize) -> Result<Line, AllocError> {
    let mut numbers = Vec::from_slice(alloc, &line.numbers)?;
    negate_all(&mut numbers);
    if place < numbers.len() {
        numbers[place] = line.over;
    }
    let mut solved = Line {
        over: at(&line.numbers, place),
        constant: line.constant.wrapping_neg(),
        numbers,
    };
    if solved.over != 1 {
        lower(&mut solved);
    }
    Ok(solved)
}

/// The places at which a row is not 0.
pub(crate) fn places(alloc: Global, line: &Line) -> Result<Vec<u32>, AllocError> {
    let mut found = Vec::new(alloc);
    for (place, x) in line.numbers.iter().enumerate() {
        if *x != 0 {
            found.push(u32::try_from(place).unwrap_or(0))?;
        }
    }
    Ok(found)
}

// Adds a multiple of the numbers at these places.
fn add_at(numbers: &mut [i64], by: i64, others: &[i64], places: &[u32]) -> Option<()> {
    for place in places {
        let place = *place as usize;
        if place < numbers.len() && place < others.len() {
            numbers[place] = plus(numbers[place], by, others[place])?;
        }
    }
    Some(())
}

fn put(numbers: &mut [i64], place: usize, x: i64) {
    if place < numbers.len() {
        numbers[place] = x;
    }
}

/// Puts a solved row in for the variable at a place. None where a number is too long.
pub(crate) fn put_in(line: &mut Line, place: usize, solved: &Line, places: &[u32]) -> Option<()> {
    let number = at(&line.numbers, place);
    if number == 0 {
        return Some(());
    }
    let common = divisor(number, solved.over);
    let factor = part(solved.over, common);
    let by = part(number, common);
    if factor != 1 {
        multiply(line, factor)?;
    }
    put(&mut line.numbers, place, 0);
    line.constant = plus(line.constant, by, solved.constant)?;
    add_at(&mut line.numbers, by, &solved.numbers, places)?;
    if factor != 1 {
        lower(line);
    }
    Some(())
}
