// Rows as lines of JSON.
ghost use Rattle.std.specs.Prelude.{◌≡◌, ◌++◌, IfOk, OnOk, flat_map, map, string_bytes};
ghost use Rattle.tetri_accounts.specs.Text.{leaves_text, named_text, node_text, nodes_text, number_text, outcome_text, quoted, ran_text, row_line, rows_text, times_text, top_at, topped_text, waited_text, worked_text};
ghost use Rattle.tetri_report.specs.Text.{job_name, joined};
ghost use Rattle.tetri_trace.specs.Scenario.{scenario, submission_of};
ghost use Rattle.tetri_trace.specs.Sound.{IsSound};

use crate::columns::{arrival_of, job_name, node_name, outcome_word, top_at, wait_of, worth_of};
use crate::row::Row;
use std::alloc::{AllocError, Global};
use std::fmt::Write;
use tetri_state::Piece;
use tetri_trace::Trace;

fn add_u32(out: &mut String, number: Option<u32>) -> Result<(), AllocError>
    ensures { OnOk result (string_bytes out.new ≡ string_bytes out.old ++ number_text number) }
{
    match number {
        Some(number) => write!(out, "{number}"),
        None => out.push_str("null"),
    }
}

fn add_u64(out: &mut String, number: Option<u64>) -> Result<(), AllocError>
    ensures { OnOk result (string_bytes out.new ≡ string_bytes out.old ++ number_text number) }
{
    match number {
        Some(number) => write!(out, "{number}"),
        None => out.push_str("null"),
    }
}

#[tactic(auto, unfolding(crate::specs::Text::named_text))]
fn add_named(out: &mut String, name: &str, arrival: u32, outcome: &str) -> Result<(), AllocError>
    ensures { OnOk result (string_bytes out.new ≡ string_bytes out.old ++ named_text name.now arrival outcome.now) }
{
    write!(
        out,
        "{{\"job\":\"{name}\",\"arrival\":{arrival},\"outcome\":\"{outcome}\",\"start\":"
    )
}

#[tactic(auto, unfolding(crate::specs::Text::waited_text))]
fn add_waited(out: &mut String, wait: u32) -> Result<(), AllocError>
    ensures { OnOk result (string_bytes out.new ≡ string_bytes out.old ++ waited_text wait) }
{
    write!(out, ",\"wait\":{wait},\"end\":")
}

#[tactic(auto, unfolding(crate::specs::Text::topped_text))]
fn add_topped(out: &mut String, top: u64) -> Result<(), AllocError>
    ensures { OnOk result (string_bytes out.new ≡ string_bytes out.old ++ topped_text top) }
{
    write!(out, ",\"top\":{top},\"nodes\":[")
}

// Adds the numbers of the leaves of pieces, with commas between.
fn add_leaves(out: &mut String, pieces: &[Piece]) -> Result<(), AllocError>
    ensures { OnOk result (string_bytes out.new ≡ string_bytes out.old ++ leaves_text pieces.now) }
{
    let Some((first, others)) = pieces.split_first() else {
        return Ok(());
    };
    let leaf = first.leaf;
    write!(out, "{leaf}")?;
    for piece in others {
        let leaf = piece.leaf;
        write!(out, ",{leaf}")?;
    }
    Ok(())
}

// Adds numbers.
fn add_all(numbers: &mut Vec<u32>, more: &[u32]) -> Result<(), AllocError>
    ensures { OnOk result (numbers.new.items ≡ numbers.old.items ++ more.now) }
{
    for number in more {
        numbers.push(*number)?;
    }
    Ok(())
}

// The nodes of pieces, in their order.
fn nodes_of(alloc: Global, pieces: &[Piece]) -> Result<Vec<u32>, AllocError>
    ensures { IfOk result (λ v. v.items ≡ flat_map (λ p. p.nodes) pieces.now) }
{
    let mut nodes = Vec::new(alloc);
    for piece in pieces {
        add_all(&mut nodes, piece.nodes.as_slice())?;
    }
    Ok(nodes)
}

#[tactic(auto, unfolding(crate::specs::Text::quoted))]
fn add_quoted(out: &mut String, text: &str) -> Result<(), AllocError>
    ensures { OnOk result (string_bytes out.new ≡ string_bytes out.old ++ quoted text.now) }
{
    write!(out, "\"{text}\"")
}

// Adds the names of nodes, with commas between.
fn add_nodes(out: &mut String, trace: &Trace, nodes: &[u32]) -> Result<(), AllocError>
    ensures { OnOk result (string_bytes out.new ≡ string_bytes out.old ++ joined (map (node_text (scenario trace.entry.now)) nodes.now)) }
{
    let Some((first, others)) = nodes.split_first() else {
        return Ok(());
    };
    add_quoted(out, node_name(trace, *first))?;
    for node in others {
        out.push_str(",")?;
        add_quoted(out, node_name(trace, *node))?;
    }
    Ok(())
}

// Adds which leaves a row's launch ran, and what they were worth.
fn add_worked(out: &mut String, row: &Row) -> Result<(), AllocError>
    ensures { OnOk result (string_bytes out.new ≡ string_bytes out.old ++ worked_text row.entry.now) }
{
    out.push_str(",\"leaf\":[")?;
    add_leaves(out, row.pieces.as_slice())?;
    out.push_str("],\"worth\":")?;
    add_u64(out, worth_of(row))
}

// Adds which job a row is of, and what became of it.
fn add_head(out: &mut String, trace: &Trace, row: &Row) -> Result<(), AllocError>
    ensures { OnOk result (string_bytes out.new ≡ string_bytes out.old ++ named_text (job_name (scenario trace.entry.now) row.entry.now.job)
        (submission_of (scenario trace.entry.now) row.entry.now.job).arrival (outcome_text row.entry.now.outcome)) }
{
    let name = job_name(trace, row.job);
    let arrival = arrival_of(trace, row.job);
    add_named(out, name, arrival, outcome_word(row.outcome))
}

// Adds when a row's launch or job came, started and ended.
#[tactic(auto, unfolding(crate::specs::Text::times_text))]
fn add_times(out: &mut String, trace: &Trace, row: &Row) -> Result<(), AllocError>
    ensures { OnOk result (string_bytes out.new ≡ string_bytes out.old ++ times_text (scenario trace.entry.now) row.entry.now) }
{
    add_head(out, trace, row)?;
    add_u32(out, row.start)?;
    add_waited(out, wait_of(trace, row))?;
    add_u32(out, row.end)
}

// Adds the most that a row's job could earn.
fn add_top(alloc: Global, out: &mut String, trace: &Trace, job: u32) -> Result<(), AllocError>
    requires { IsSound (scenario trace.now) }
    ensures { OnOk result (string_bytes out.new ≡ string_bytes out.old ++ topped_text (top_at (scenario trace.entry.now) job)) }
{
    let top = top_at(alloc, trace, job)?;
    add_topped(out, top)
}

// Adds the nodes that pieces ran on.
fn add_nodes_of(
    alloc: Global,
    out: &mut String,
    trace: &Trace,
    pieces: &[Piece],
) -> Result<(), AllocError>
    ensures { OnOk result (string_bytes out.new ≡ string_bytes out.old ++ nodes_text (scenario trace.entry.now) pieces.now) }
{
    let nodes = nodes_of(alloc, pieces)?;
    add_nodes(out, trace, nodes.as_slice())
}

// Adds what a row's launch ran, and what it was worth.
#[tactic(auto, unfolding(crate::specs::Text::ran_text))]
fn add_ran(alloc: Global, out: &mut String, trace: &Trace, row: &Row) -> Result<(), AllocError>
    requires { IsSound (scenario trace.now) }
    ensures { OnOk result (string_bytes out.new ≡ string_bytes out.old ++ ran_text (scenario trace.entry.now) row.entry.now) }
{
    add_worked(out, row)?;
    add_top(alloc, out, trace, row.job)?;
    add_nodes_of(alloc, out, trace, row.pieces.as_slice())?;
    out.push_str("]}\n")
}

// Adds a row as a line of JSON.
fn add_row(alloc: Global, out: &mut String, trace: &Trace, row: &Row) -> Result<(), AllocError>
    requires { IsSound (scenario trace.now) }
    ensures { OnOk result (string_bytes out.new ≡ string_bytes out.old ++ row_line (scenario trace.entry.now) row.entry.now) }
{
    add_times(out, trace, row)?;
    add_ran(alloc, out, trace, row)
}

// Adds rows as lines of JSON.
fn add_rows(alloc: Global, out: &mut String, trace: &Trace, rows: &[Row]) -> Result<(), AllocError>
    requires { IsSound (scenario trace.now) }
    ensures { OnOk result (string_bytes out.new ≡ string_bytes out.old ++ rows_text (scenario trace.entry.now) rows.entry.now) }
{
    for row in rows {
        add_row(alloc, out, trace, row)?;
    }
    Ok(())
}

/// Rows of the trace as lines of JSON. Its only error is want of memory.
pub fn json_lines(alloc: Global, trace: &Trace, rows: &[Row]) -> Result<String, AllocError>
    requires { IsSound (scenario trace.now) }
    ensures { IfOk result (λ s. string_bytes s ≡ rows_text (scenario trace.entry.now) rows.entry.now) }
{
    let mut out = String::new(alloc);
    add_rows(alloc, &mut out, trace, rows)?;
    Ok(out)
}
