// The rows of an account as text.
ghost use Rattle.tetri_trace.specs.Scenario.{scenario};
ghost use Rattle.tetri_trace.specs.Sound.{IsSound};

use crate::cells::{NOTHING, maybe_cell, number_cell, text_cell};
use crate::format::{Format, csv_of, table_of};
use std::alloc::{AllocError, Global};
use std::fmt::Write;
use tetri_accounts::{
    Row, arrival_of, job_name, json_lines, node_name, outcome_word, top_at, wait_of, worth_of,
};
use tetri_state::Piece;
use tetri_trace::Trace;

// The names of the columns.
const COLUMNS: [&str; 10] = [
    "job", "arrival", "outcome", "start", "wait", "end", "leaf", "worth", "top", "nodes",
];

// The numbers of the leaves of pieces, with this between them.
fn leaves_cell(alloc: Global, pieces: &[Piece], between: &str) -> Result<String, AllocError> {
    let mut out = String::new(alloc);
    for piece in pieces {
        let leaf = piece.leaf;
        if !out.is_empty() {
            out.push_str(between)?;
        }
        write!(out, "{leaf}")?;
    }
    Ok(out)
}

// Adds the names of nodes, with this between them.
fn add_nodes(
    out: &mut String,
    trace: &Trace,
    nodes: &[u32],
    between: &str,
) -> Result<(), AllocError> {
    for node in nodes {
        if !out.is_empty() {
            out.push_str(between)?;
        }
        out.push_str(node_name(trace, *node))?;
    }
    Ok(())
}

// The nodes of pieces, with this between them.
fn nodes_cell(
    alloc: Global,
    trace: &Trace,
    pieces: &[Piece],
    between: &str,
) -> Result<String, AllocError> {
    let mut out = String::new(alloc);
    for piece in pieces {
        add_nodes(&mut out, trace, piece.nodes.as_slice(), between)?;
    }
    Ok(out)
}

// The cell, or what stands for an empty one.
fn filled(alloc: Global, cell: String, none: &str) -> Result<String, AllocError> {
    if cell.is_empty() {
        text_cell(alloc, none)
    } else {
        Ok(cell)
    }
}

// The cells of a row, with this between names and this where there is nothing.
fn cells_of(
    alloc: Global,
    trace: &Trace,
    row: &Row,
    between: &str,
    none: &str,
) -> Result<Vec<String>, AllocError>
    requires { IsSound (scenario trace.now) }
{
    let pieces = row.pieces.as_slice();
    let mut cells = Vec::new(alloc);
    cells.push(text_cell(alloc, job_name(trace, row.job))?)?;
    cells.push(number_cell(alloc, u128::from(arrival_of(trace, row.job)))?)?;
    cells.push(text_cell(alloc, outcome_word(row.outcome))?)?;
    cells.push(maybe_cell(alloc, row.start.map(u64::from), none)?)?;
    cells.push(number_cell(alloc, u128::from(wait_of(trace, row)))?)?;
    cells.push(maybe_cell(alloc, row.end.map(u64::from), none)?)?;
    add_work(alloc, trace, row, between, none, &mut cells)?;
    Ok(cells)
}

// Adds the cells of what a row's launch ran.
fn add_work(
    alloc: Global,
    trace: &Trace,
    row: &Row,
    between: &str,
    none: &str,
    cells: &mut Vec<String>,
) -> Result<(), AllocError>
    requires { IsSound (scenario trace.now) }
{
    let pieces = row.pieces.as_slice();
    let leaves = leaves_cell(alloc, pieces, between)?;
    cells.push(filled(alloc, leaves, none)?)?;
    cells.push(maybe_cell(alloc, worth_of(row), none)?)?;
    cells.push(number_cell(alloc, u128::from(top_at(alloc, trace, row.job)?))?)?;
    let nodes = nodes_cell(alloc, trace, pieces, between)?;
    cells.push(filled(alloc, nodes, none)?)?;
    Ok(())
}

// The names of the columns, and the cells of the rows.
fn lines_of(
    alloc: Global,
    trace: &Trace,
    rows: &[Row],
    between: &str,
    none: &str,
) -> Result<Vec<Vec<String>>, AllocError>
    requires { IsSound (scenario trace.now) }
{
    let mut names = Vec::new(alloc);
    for name in &COLUMNS {
        names.push(text_cell(alloc, name)?)?;
    }
    let mut lines = Vec::new(alloc);
    lines.push(names)?;
    for row in rows {
        lines.push(cells_of(alloc, trace, row, between, none)?)?;
    }
    Ok(lines)
}

/// The rows of an account of a run of the trace. Its only error is want of memory.
pub fn jobs_text(
    alloc: Global,
    trace: &Trace,
    rows: &[Row],
    format: Format,
) -> Result<Vec<u8>, AllocError>
    requires { IsSound (scenario trace.now) }
{
    match format {
        Format::Table => {
            let lines = lines_of(alloc, trace, rows, ",", NOTHING)?;
            Ok(table_of(alloc, &lines, true)?.into_bytes())
        }
        Format::Csv => {
            let lines = lines_of(alloc, trace, rows, " ", "")?;
            csv_of(alloc, &lines)
        }
        Format::Lines => Ok(json_lines(alloc, trace, rows)?.into_bytes()),
    }
}
