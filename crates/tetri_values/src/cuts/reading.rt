// Programs, rows, weights and points of texts.
ghost use Rattle.tetri_algebra.specs.Range.{IsWithin};

use std::alloc::{AllocError, Global};
use tetri_ip::{Program, Row, Term, Weight};
use tetri_num::Frac;

/// The number of a text, and 0 of another one.
pub fn number_in(text: &str) -> i128 {
    text.parse::<i128>().unwrap_or(0)
}

fn numbers_in(alloc: Global, text: &str) -> Result<Vec<i128>, AllocError> {
    let mut numbers = Vec::new(alloc);
    for word in text.split(' ') {
        numbers.push(number_in(word))?;
    }
    Ok(numbers)
}

fn terms_in(alloc: Global, text: &str) -> Result<Vec<Term>, AllocError> {
    let mut terms = Vec::new(alloc);
    for word in text.split(' ') {
        if let Some((column, by)) = word.split_once(':') {
            let column = column.parse::<u32>().unwrap_or(0);
            let by = number_in(by);
            terms.push(Term { column, by })?;
        }
    }
    Ok(terms)
}

/// The weights of a text as `0:3 5:1`, by row.
pub fn weights_in(alloc: Global, text: &str) -> Result<Vec<Weight>, AllocError> {
    let mut weights = Vec::new(alloc);
    for word in text.split(' ') {
        if let Some((row, by)) = word.split_once(':') {
            let row = row.parse::<u32>().unwrap_or(0);
            let by = number_in(by);
            weights.push(Weight { row, by })?;
        }
    }
    Ok(weights)
}

/// The row of a text as `0:3 5:-1 at most 7`, by column.
pub fn row_in(alloc: Global, text: &str) -> Result<Row, AllocError> {
    let (terms, right) = text.split_once("at most ").unwrap_or((text, ""));
    let terms = terms_in(alloc, terms)?;
    let right = number_in(right);
    Ok(Row { terms, right })
}

fn number_in_range(text: &str) -> i128
    ensures { IsWithin result }
{
    number_in(text).max(-i128::MAX)
}

// The fraction of a text as `3/4` or `3`; a denominator that is not above 0 is taken for 1.
fn fraction_in(text: &str) -> Frac {
    let (num, den) = text.split_once('/').unwrap_or((text, "1"));
    Frac::new(number_in_range(num), number_in_range(den).max(1))
}

/// The fractions of a text, one for each column.
pub fn point_in(alloc: Global, text: &str) -> Result<Vec<Frac>, AllocError> {
    let mut point = Vec::new(alloc);
    for word in text.split(' ') {
        point.push(fraction_in(word))?;
    }
    Ok(point)
}

// Takes a line of a program.
fn take_line(alloc: Global, p: &mut Program, line: &str) -> Result<(), AllocError> {
    let (word, rest) = line.split_once(' ').unwrap_or((line, ""));
    match word {
        "costs" => p.costs = numbers_in(alloc, rest)?,
        "lower" => p.lower = numbers_in(alloc, rest)?,
        "upper" => p.upper = numbers_in(alloc, rest)?,
        _ => p.rows.push(row_in(alloc, rest)?)?,
    }
    Ok(())
}

/// The program of a text: lines with its costs, its lower and its upper bounds, and then a line for each row.
pub fn program_in(alloc: Global, text: &str) -> Result<Program, AllocError> {
    let mut p = Program {
        costs: Vec::new(alloc),
        lower: Vec::new(alloc),
        upper: Vec::new(alloc),
        rows: Vec::new(alloc),
    };
    for line in text.lines() {
        take_line(alloc, &mut p, line)?;
    }
    Ok(p)
}
