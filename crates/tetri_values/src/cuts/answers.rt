// What the calls answer, as text.
ghost use Rattle.tetri_cuts.specs.Cuts.{HasNoNegativeBound};
ghost use Rattle.tetri_ip.specs.Points.{IsFit};

use crate::cuts::reading::{number_in, point_in, row_in, weights_in};
use std::alloc::{AllocError, Global};
use tetri_cuts::{CutFault, Tight, breaks, cut, tighten};
use tetri_ip::{Program, Row, Weight};
use tetri_num::Past;
use tetri_tables::{are_of_columns, are_weights, debug_text};

fn row_told(out: &mut String, row: &Row) -> Result<(), AllocError> {
    for term in &row.terms {
        write!(out, "{}:{} ", term.column, term.by)?;
    }
    write!(out, "at most {}", row.right)
}

fn weights_told(out: &mut String, weights: &[Weight]) -> Result<(), AllocError> {
    for weight in weights {
        write!(out, " {}:{}", weight.row, weight.by)?;
    }
    Ok(())
}

fn made_told(alloc: Global, made: Result<Row, CutFault>) -> Result<String, AllocError> {
    let mut out = String::new(alloc);
    match made {
        Ok(row) => row_told(&mut out, &row)?,
        Err(CutFault::Past(column)) => write!(out, "past {column}")?,
        Err(CutFault::NoMemory) => return Err(AllocError),
    }
    Ok(out)
}

fn cut_told(alloc: Global, p: &Program, text: &str) -> Result<String, AllocError>
    requires fit { IsFit p.now }
    requires lower { HasNoNegativeBound p.now }
{
    let (divisor, weights) = text.split_once(' ').unwrap_or((text, ""));
    let q = number_in(divisor);
    let weights = weights_in(alloc, weights)?;
    if q < 1 || !are_weights(p, &weights) {
        return String::from_str(alloc, "no weights");
    }
    made_told(alloc, cut(alloc, p, q, &weights))
}

fn past_told(alloc: Global, past: &Past) -> Result<String, AllocError> {
    let op = debug_text(alloc, &past.op)?;
    let (left, right) = (past.left, past.right);
    format!(in alloc;
        "past {op} {}/{} {}/{}",
        left.num, left.den, right.num, right.den
    )
}

fn breaks_told(alloc: Global, text: &str) -> Result<String, AllocError> {
    let (row, point) = text.split_once(" by ").unwrap_or((text, ""));
    let row = row_in(alloc, row)?;
    let point = point_in(alloc, point)?;
    if row.right < -i128::MAX || !are_of_columns(&row.terms, point.len()) {
        return String::from_str(alloc, "no row");
    }
    match breaks(&row, &point) {
        Ok(broken) => format!(in alloc; "{broken}"),
        Err(past) => past_told(alloc, &past),
    }
}

fn root_told(alloc: Global, tight: &Tight) -> Result<String, AllocError> {
    let mut out = String::new(alloc);
    match &tight.root {
        Some(root) => {
            write!(out, "{} of", root.q)?;
            weights_told(&mut out, &root.weights)?;
            write!(out, " at most {}", root.bound)?;
        }
        None => out.push_str("none")?,
    }
    Ok(out)
}

fn added_told(alloc: Global, tight: &Tight, number: usize) -> Result<String, AllocError> {
    let mut out = String::new(alloc);
    match tight.cuts.get(number) {
        Some(added) => {
            write!(out, "{} of", added.divisor)?;
            weights_told(&mut out, &added.weights)?;
            out.push_str(": ")?;
            row_told(&mut out, &added.row)?;
        }
        None => out.push_str("none")?,
    }
    Ok(out)
}

fn tightening_told(alloc: Global, p: &Program, word: &str, rest: &str) -> Result<String, AllocError>
    requires fit { IsFit p.now }
    requires lower { HasNoNegativeBound p.now }
{
    let tight = tighten(alloc, p)?;
    match word {
        "cuts" => format!(in alloc; "{}", tight.cuts.len()),
        "added" => added_told(alloc, &tight, rest.parse::<usize>().unwrap_or(0)),
        "root" => root_told(alloc, &tight),
        _ => String::from_str(alloc, "no such word"),
    }
}

/// What is told of a program: its `cut DIVISOR WEIGHTS`, whether a row `breaks ROW by POINT`, or, of its tightening, the number of
/// its `cuts`, the cut `added NUMBER` and its `root`.
pub fn told(alloc: Global, p: &Program, what: &str) -> Result<String, AllocError>
    requires fit { IsFit p.now }
    requires lower { HasNoNegativeBound p.now }
{
    let (word, rest) = what.split_once(' ').unwrap_or((what, ""));
    match word {
        "cut" => cut_told(alloc, p, rest),
        "breaks" => breaks_told(alloc, rest),
        _ => tightening_told(alloc, p, word, rest),
    }
}
