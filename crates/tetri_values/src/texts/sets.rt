// Texts of sets.
use crate::texts::clusters::cluster_of;
use crate::texts::parsed::fault_told;
use std::alloc::{AllocError, Global};
use tetri_cluster::Sets;
use tetri_parse::{ClusterReader, read_expr, read_set};
use tetri_tables::{Given, Tally, expand, expand_text, halves};

// The number and the nodes of what a text says.
fn told(alloc: Global, reader: &mut ClusterReader, text: &[u8]) -> Result<String, AllocError> {
    match reader.read_set(alloc, text) {
        Ok(set) => format!(in alloc; "{set} {:?}", reader.sets().nodes_of(set).as_slice()),
        Err(fault) => fault_told(alloc, fault),
    }
}

// Reads the set of one node.
fn fill_one(alloc: Global, reader: &mut ClusterReader, node: u32) -> Result<(), AllocError> {
    let text = format!(in alloc; "{{n{node}}}")?;
    let _ = reader.read_set(alloc, text.as_bytes());
    Ok(())
}

// So many sets of one node each, and how many sets there are then.
fn filled(alloc: Global, reader: &mut ClusterReader, count: u32) -> Result<String, AllocError> {
    for node in 0..count {
        fill_one(alloc, reader, node)?;
    }
    format!(in alloc; "{}", reader.sets().len())
}

// How many sets there are behind an expression.
fn expression_told(
    alloc: Global,
    reader: &mut ClusterReader,
    text: &[u8],
) -> Result<String, AllocError> {
    match reader.read_expr(alloc, text, 1, 0) {
        Ok(_) => format!(in alloc; "{}", reader.sets().len()),
        Err(fault) => fault_told(alloc, fault),
    }
}

// The number and the nodes of what a text says where there are no other sets.
fn lone_set_told(alloc: Global, reader: &ClusterReader, text: &[u8]) -> Result<String, AllocError> {
    let mut sets = Sets::new(alloc);
    match read_set(alloc, text, reader.cluster(), &mut sets) {
        Ok(set) => format!(in alloc; "{set} {:?}", sets.nodes_of(set).as_slice()),
        Err(fault) => fault_told(alloc, fault),
    }
}

// How many sets an expression names where there are no others.
fn lone_expression_told(
    alloc: Global,
    reader: &ClusterReader,
    text: &[u8],
) -> Result<String, AllocError> {
    let mut sets = Sets::new(alloc);
    match read_expr(alloc, text, 1, 0, reader.cluster(), &mut sets) {
        Ok(_) => format!(in alloc; "{}", sets.len()),
        Err(fault) => fault_told(alloc, fault),
    }
}

fn row_told(alloc: Global, reader: &mut ClusterReader, row: &str) -> Result<String, AllocError> {
    let (word, text) = row.split_once(": ").unwrap_or(("", row));
    let bytes = expand(alloc, text)?;
    match word {
        "set" => told(alloc, reader, &bytes),
        "fill" => filled(alloc, reader, text.parse::<u32>().unwrap_or(0)),
        "expression" => expression_told(alloc, reader, &bytes),
        "lone set" => lone_set_told(alloc, reader, &bytes),
        "lone expression" => lone_expression_told(alloc, reader, &bytes),
        _ => String::from_str(alloc, "no such word"),
    }
}

fn expect_row(
    alloc: Global,
    tally: &mut Tally,
    reader: &mut ClusterReader,
    row: &str,
) -> Result<(), AllocError> {
    let (what, wanted) = halves(row);
    let found = row_told(alloc, reader, what)?;
    let wanted = expand_text(alloc, wanted)?;
    tally.expect(row, found.as_str(), wanted.as_str())
}

fn expect_rows(
    alloc: Global,
    tally: &mut Tally,
    reader: &mut ClusterReader,
    body: &str,
) -> Result<(), AllocError> {
    for row in body.lines() {
        expect_row(alloc, tally, reader, row)?;
    }
    Ok(())
}

/// Rows over the nodes of the trace, one behind the other over the same sets: `set: TEXT => NUMBER [NODES]`,
/// `fill: COUNT => NUMBER OF SETS` with the sets `{n0}`, `{n1}` and so on, `expression: TEXT => NUMBER OF SETS`, and `lone set` and `lone expression`,
/// which are read with no other sets.
pub fn sets(alloc: Global, given: &Given, tally: &mut Tally, body: &str) -> Result<(), AllocError> {
    let Some(cluster) = cluster_of(alloc, given, tally)? else {
        return Ok(());
    };
    let mut reader = ClusterReader::new(alloc, cluster);
    expect_rows(alloc, tally, &mut reader, body)
}
