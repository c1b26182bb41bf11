//! The first sparse dictionary, in time linear in the program's columns, rows and terms.

ghost use Rattle.std.specs.Prelude.{◌≡◌, ◌+◌, ◌<◌, ◌∷◌, ◌++◌, length, map, pos, ◌*ℤ◌, ◌-ℤ◌, IfOk};
ghost use lib.IntN.{neg_ℤ};
ghost use Rattle.tetri_algebra.specs.Rational.{whole_ℚ};
ghost use Rattle.tetri_algebra.specs.Range.{IsWithin};
ghost use Rattle.tetri_ip.specs.Points.{IsFit, IsFitRow, IsInBox, bounds_of, number_at};
ghost use Rattle.tetri_dictionary.specs.Sparse.{AreEntries, AreLines, IsSparse, line_of, lines_of, numbers_from, table_of};
ghost use Rattle.tetri_dictionary.specs.Start.{IsStart, bound_rows, direction, first_table, minus_one_at, objective_row, slack_from, slack_row};

use crate::lines::{Entry, Line};
use crate::sparse::Sparse;
use crate::start::{
    corner, directed, numbers_from, objective_at, slack_at, slack_number, width_at,
};
use std::alloc::{AllocError, Global};
use tetri_ip::{Program, Region, Row};
use tetri_num::Frac;

// The entries of the slack of a row of the program.
fn slack_entries(alloc: Global, p: &Program, row: &Row) -> Result<Vec<Entry>, AllocError>
    requires fit { IsFit p.now }
    requires row { IsFitRow p.now row.now.terms.items row.now.right }
    ensures numbers { IfOk result (λ v. numbers_from 0 (length p.now.costs.items) v.items ≡ map whole_ℚ (slack_from row.now.terms.items 0 p.now.costs.items)) }
    ensures sound { IfOk result (λ v. AreEntries (length p.now.costs.items) v.items) }
{
    let mut entries = Vec::with_capacity(alloc, row.terms.len())?;
    for k in 0..row.terms.len() {
        let term = row.terms[k];
        let number = slack_number(p, term.by, term.column as usize);
        entries.push(Entry {
            place: term.column,
            number: Frac::whole(number),
        })?;
    }
    Ok(entries)
}

// The slack of a row of the program.
fn slack_line(alloc: Global, p: &Program, row: &Row, start: &[i128]) -> Result<Line, AllocError>
    requires fit { IsFit p.now }
    requires row { IsFitRow p.now row.now.terms.items row.now.right }
    requires start { IsStart p.now start.now }
    ensures numbers { IfOk result (λ l. line_of (length p.now.costs.items) l ≡ map whole_ℚ (slack_row p.now.costs.items start.now row.now)) }
    ensures sound { IfOk result (λ l. AreEntries (length p.now.costs.items) l.entries.items) }
{
    let constant = Frac::whole(slack_at(p, row, start));
    match slack_entries(alloc, p, row) {
        Ok(entries) => Ok(Line { constant, entries }),
        Err(fault) => Err(fault),
    }
}

// The slacks of the program's rows.
fn slack_lines(alloc: Global, p: &Program, start: &[i128]) -> Result<Vec<Line>, AllocError>
    requires fit { IsFit p.now }
    requires start { IsStart p.now start.now }
    ensures numbers { IfOk result (λ v. lines_of (length p.now.costs.items) v.items ≡ map (map whole_ℚ) (map (slack_row p.now.costs.items start.now) p.now.rows.items)) }
    ensures sound { IfOk result (λ v. AreLines (length p.now.costs.items) v.items) }
{
    let mut lines = Vec::new(alloc);
    for i in 0..p.rows.len() {
        lines.push(slack_line(alloc, p, &p.rows[i], start)?)?;
    }
    Ok(lines)
}

// The slack of the bounds of column j, with this width.
fn bound_line(alloc: Global, p: &Program, j: usize, width: i128) -> Result<Line, AllocError>
    requires fit { IsFit p.now }
    requires column { j < length p.now.costs.items }
    requires width { IsWithin width }
    ensures numbers { IfOk result (λ l. line_of (length p.now.costs.items) l ≡ whole_ℚ width ∷ map whole_ℚ (minus_one_at j 0 p.now.costs.items)) }
    ensures sound { IfOk result (λ l. AreEntries (length p.now.costs.items) l.entries.items) }
{
    let mut entries = Vec::with_capacity(alloc, 1)?;
    entries.push(Entry {
        place: j as u32,
        number: Frac::whole(-1),
    })?;
    Ok(Line {
        constant: Frac::whole(width),
        entries,
    })
}

// The rows with the slacks of the columns' bounds behind them.
fn with_bound_lines(
    alloc: Global,
    p: &Program,
    r: &Region,
    mut lines: Vec<Line>,
) -> Result<Vec<Line>, AllocError>
    requires fit { IsFit p.now }
    requires in_box { IsInBox p.now (bounds_of r.now) }
    requires sound { AreLines (length p.now.costs.items) lines.items }
    ensures numbers { IfOk result (λ v. lines_of (length p.now.costs.items) v.items
        ≡ lines_of (length p.now.costs.items) lines.items ++ map (map whole_ℚ) (bound_rows 0 p.now.costs.items r.now.lower.items r.now.upper.items)) }
    ensures sound { IfOk result (λ v. AreLines (length p.now.costs.items) v.items) }
{
    for j in 0..p.costs.len() {
        lines.push(bound_line(alloc, p, j, width_at(p, r, j))?)?;
    }
    Ok(lines)
}

// The entries of the objective's row.
fn objective_entries(alloc: Global, p: &Program) -> Result<Vec<Entry>, AllocError>
    requires { IsFit p.now }
    ensures numbers { IfOk result (λ v. numbers_from 0 (length p.now.costs.items) v.items ≡ map whole_ℚ (map (λ c. c *ℤ direction c) p.now.costs.items)) }
    ensures sound { IfOk result (λ v. AreEntries (length p.now.costs.items) v.items) }
{
    let mut entries = Vec::new(alloc);
    for j in 0..p.costs.len() {
        let cost = p.costs[j];
        if cost != 0 {
            entries.push(Entry {
                place: j as u32,
                number: Frac::whole(directed(cost, cost)),
            })?;
        }
    }
    Ok(entries)
}

// The row of the objective.
fn objective_line(alloc: Global, p: &Program, start: &[i128]) -> Result<Line, AllocError>
    requires fit { IsFit p.now }
    requires start { IsStart p.now start.now }
    ensures numbers { IfOk result (λ l. line_of (length p.now.costs.items) l ≡ map whole_ℚ (objective_row p.now.costs.items start.now)) }
    ensures sound { IfOk result (λ l. AreEntries (length p.now.costs.items) l.entries.items) }
{
    let constant = Frac::whole(objective_at(p, start));
    match objective_entries(alloc, p) {
        Ok(entries) => Ok(Line { constant, entries }),
        Err(fault) => Err(fault),
    }
}

/// The first dictionary of a program over a region.
pub(crate) fn first_sparse(alloc: Global, p: &Program, r: &Region) -> Result<Sparse, AllocError>
    requires fit { IsFit p.now }
    requires in_box { IsInBox p.now (bounds_of r.now) }
    ensures table { IfOk result (λ t. table_of t ≡ first_table p.now (bounds_of r.now)) }
    ensures sound { IfOk result (λ t. IsSparse t) }
{
    let start = corner(alloc, p, r)?;
    let slacks = slack_lines(alloc, p, &start)?;
    let mut lines = with_bound_lines(alloc, p, r, slacks)?;
    lines.push(objective_line(alloc, p, &start)?)?;
    let columns = p.costs.len();
    let nonbasic = numbers_from(alloc, 0, columns)?;
    let basic = numbers_from(alloc, columns, p.rows.len() + columns)?;
    Ok(Sparse {
        nonbasic,
        basic,
        lines,
        scratch: Vec::new(alloc),
    })
}
