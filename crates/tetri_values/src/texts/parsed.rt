// Texts by their first faults, and expressions that are printed and read back.
ghost use Rattle.std.specs.Prelude.{◌≤◌};

use crate::texts::clusters::cluster_of;
use std::alloc::{AllocError, Global};
use tetri_cluster::Cluster;
use tetri_parse::{ClusterReader, ParseFault, print_expr};
use tetri_strl::Expr;
use tetri_tables::{Given, Tally, expand, expand_text, expr_told, halves};

/// The words of a fault: how many bytes stand before it, and its cause.
pub fn fault_told(alloc: Global, fault: ParseFault) -> Result<String, AllocError> {
    match fault {
        ParseFault::At { offset, fault } => format!(in alloc; "{offset} {}", fault.words()),
        ParseFault::NoMemory => String::from_str(alloc, "no memory"),
    }
}

// The unit and the arrival under which texts are read.
#[derive(Clone, Copy)]
struct Limits {
    unit: u64,
    arrival: u32,
}

impl Limits {
    // Those of a text as `1 0`, which also stand where it is empty.
    fn of(text: &str) -> Limits {
        let (unit, arrival) = text.split_once(' ').unwrap_or(("1", "0"));
        Limits {
            unit: unit.parse::<u64>().unwrap_or(0),
            arrival: arrival.parse::<u32>().unwrap_or(0),
        }
    }

    // What is read of a text, where there are such a unit and such an arrival.
    fn read(
        self,
        alloc: Global,
        reader: &mut ClusterReader,
        text: &[u8],
    ) -> Option<Result<Expr, ParseFault>> {
        if self.unit == 0 || 1_000_000 < self.unit || 10_000 < self.arrival {
            return None;
        }
        Some(reader.read_expr(alloc, text, self.unit, self.arrival))
    }
}

// What is read of a text, or its fault.
fn told(
    alloc: Global,
    reader: &mut ClusterReader,
    limits: Limits,
    text: &[u8],
) -> Result<String, AllocError> {
    match limits.read(alloc, reader, text) {
        Some(Ok(e)) => expr_told(alloc, &e),
        Some(Err(fault)) => fault_told(alloc, fault),
        None => String::from_str(alloc, "no such unit or arrival"),
    }
}

// What is read of a text over these nodes, which are given back.
fn text_told(
    alloc: Global,
    cluster: Cluster,
    limits: Limits,
    text: &[u8],
) -> Result<(String, Cluster), AllocError> {
    let mut reader = ClusterReader::new(alloc, cluster);
    let found = told(alloc, &mut reader, limits, text);
    let (cluster, _) = reader.into_parts();
    Ok((found?, cluster))
}

fn expect_found(
    alloc: Global,
    tally: &mut Tally,
    row: &str,
    found: &str,
    wanted: &str,
) -> Result<(), AllocError> {
    if wanted == "read" && found.contains("nCk(") {
        return tally.expect(row, "read", wanted);
    }
    let wanted = expand_text(alloc, wanted)?;
    tally.expect(row, found, wanted.as_str())
}

fn expect_text(
    alloc: Global,
    tally: &mut Tally,
    cluster: Cluster,
    limits: Limits,
    row: &str,
) -> Result<Cluster, AllocError> {
    let (text, wanted) = halves(row);
    let text = expand(alloc, text)?;
    let (found, cluster) = text_told(alloc, cluster, limits, &text)?;
    expect_found(alloc, tally, row, found.as_str(), wanted)?;
    Ok(cluster)
}

/// Rows `TEXT => TOLD`: what a text says over the nodes of the trace, or its fault; `read` is any expression. Behind the
/// kind stand the unit and the arrival, 1 and 0 if none do.
pub fn texts(
    alloc: Global,
    given: &Given,
    tally: &mut Tally,
    limits: &str,
    body: &str,
) -> Result<(), AllocError> {
    let Some(mut cluster) = cluster_of(alloc, given, tally)? else {
        return Ok(());
    };
    let limits = Limits::of(limits);
    for row in body.lines() {
        cluster = expect_text(alloc, tally, cluster, limits, row)?;
    }
    Ok(())
}

// The text of what a text says, for a job of this arrival, and the nodes back.
fn printed(
    alloc: Global,
    text: &[u8],
    arrival: u32,
    cluster: Cluster,
) -> Result<(Vec<u8>, Cluster), AllocError>
    requires { arrival ≤ 10000 }
{
    let mut reader = ClusterReader::new(alloc, cluster);
    let text = match reader.read_expr(alloc, text, 1, arrival) {
        Ok(e) => print_expr(alloc, &e, arrival, reader.cluster(), reader.sets()),
        Err(_) => Vec::from_slice(alloc, b"not read"),
    };
    let (cluster, _) = reader.into_parts();
    Ok((text?, cluster))
}

// Notes how a text is printed.
fn expect_printed(
    alloc: Global,
    tally: &mut Tally,
    row: &str,
    text: &[u8],
) -> Result<(), AllocError> {
    let wanted = expand_text(alloc, halves(row).1)?;
    tally.expect(row, str::from_utf8(text).unwrap_or(""), wanted.as_str())
}

// The same of a text that is printed, and gives what is printed, with the nodes.
fn expect_print(
    alloc: Global,
    tally: &mut Tally,
    cluster: Cluster,
    row: &str,
    text: &[u8],
    arrival: u32,
) -> Result<(Vec<u8>, Cluster), AllocError>
    requires { arrival ≤ 10000 }
{
    let (text, cluster) = printed(alloc, text, arrival, cluster)?;
    expect_printed(alloc, tally, row, &text)?;
    Ok((text, cluster))
}

fn expect_prints(
    alloc: Global,
    tally: &mut Tally,
    cluster: Cluster,
    row: &str,
    arrival: u32,
) -> Result<Cluster, AllocError>
    requires { arrival ≤ 10000 }
{
    let text = expand(alloc, halves(row).0)?;
    let (once, cluster) = expect_print(alloc, tally, cluster, row, &text, arrival)?;
    let (_twice, cluster) = expect_print(alloc, tally, cluster, row, &once, arrival)?;
    Ok(cluster)
}

/// Rows `TEXT => PRINTED`: how what a text says is printed, over the nodes of the trace, whatever the arrival. The printed
/// text is printed so, too.
pub fn printed_texts(
    alloc: Global,
    given: &Given,
    tally: &mut Tally,
    body: &str,
) -> Result<(), AllocError> {
    let Some(mut cluster) = cluster_of(alloc, given, tally)? else {
        return Ok(());
    };
    for row in body.lines() {
        cluster = expect_prints(alloc, tally, cluster, row, 0)?;
        cluster = expect_prints(alloc, tally, cluster, row, 7)?;
        cluster = expect_prints(alloc, tally, cluster, row, 10_000)?;
    }
    Ok(())
}
