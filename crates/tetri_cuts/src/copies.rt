//! Copies of programs, and rows that are added to them.

ghost use Rattle.std.specs.Prelude.{◌≡◌, IfOk, OnOk};
ghost use Rattle.tetri_ip.specs.SamePrograms.{SameRows, SaysSame};
ghost use Rattle.tetri_cuts.specs.Tightening.{HasRowLast};

use std::alloc::{AllocError, Global};
use tetri_ip::{Program, Row};

// A row that says the same.
fn copy_row(alloc: Global, row: &Row) -> Result<Row, AllocError>
    ensures terms { IfOk result (λ r. r.terms.items ≡ row.now.terms.items) }
    ensures right { IfOk result (λ r. r.right ≡ row.now.right) }
{
    let terms = Vec::from_slice(alloc, &row.terms)?;
    Ok(Row {
        terms,
        right: row.right,
    })
}

fn copy_rows(alloc: Global, p: &Program) -> Result<Vec<Row>, AllocError>
    ensures { IfOk result (λ v. SameRows p.now.rows.items v.items) }
{
    let mut copies = Vec::new(alloc);
    for i in 0..p.rows.len() {
        let copy = copy_row(alloc, &p.rows[i])?;
        copies.push(copy)?;
    }
    Ok(copies)
}

/// A program that says the same.
pub(crate) fn copy_program(alloc: Global, p: &Program) -> Result<Program, AllocError>
    ensures { IfOk result (SaysSame p.now) }
{
    let costs = Vec::from_slice(alloc, &p.costs)?;
    let lower = Vec::from_slice(alloc, &p.lower)?;
    let upper = Vec::from_slice(alloc, &p.upper)?;
    let rows = copy_rows(alloc, p)?;
    Ok(Program {
        costs,
        lower,
        upper,
        rows,
    })
}

/// Adds a row that says the same last to a program.
pub(crate) fn push_row(alloc: Global, p: &mut Program, row: &Row) -> Result<(), AllocError>
    ensures { OnOk result (HasRowLast p.old row.now p.new) }
{
    let copy = copy_row(alloc, row)?;
    p.rows.push(copy)?;
    Ok(())
}
