// Logs that are imported.
mod asked;
mod orders;

use asked::options_of;
pub use orders::take_in_order;
use std::alloc::{AllocError, Global};
use tetri_cluster::NodeText;
use tetri_hosts::{HostsFault, read_nodes};
use tetri_logs::Format;
use tetri_tables::{Given, Tally};
use tetri_workload::{Imported, add_partition, counts_text, fault_text, import, rejects_text};

// What is wanted of an import.
#[derive(Clone, Copy)]
enum Wanted {
    Trace,
    Counts,
    Rejects,
}

// What was left out.
fn rejects_of(alloc: Global, imported: &Imported, log: &[u8]) -> Result<String, AllocError> {
    let rejects = rejects_text(alloc, log, imported.left.as_slice())?;
    String::from_str(alloc, str::from_utf8(&rejects).unwrap_or("no text\n"))
}

// The trace with the counts behind it.
fn trace_of(alloc: Global, imported: &Imported) -> Result<String, AllocError> {
    let counts = counts_text(alloc, imported)?;
    format!(in alloc; "{}{counts}", imported.trace)
}

// The trace with the counts behind it, the counts alone, or what was left out.
fn made(
    alloc: Global,
    imported: &Imported,
    log: &[u8],
    wanted: Wanted,
) -> Result<String, AllocError> {
    match wanted {
        Wanted::Trace => trace_of(alloc, imported),
        Wanted::Counts => counts_text(alloc, imported),
        Wanted::Rejects => rejects_of(alloc, imported, log),
    }
}

// Adds a line of sinfo.
fn add_node(lines: &mut Vec<u8>, line: &str) -> Result<(), AllocError> {
    lines.extend_from_slice(line.as_bytes())?;
    lines.push(b'\n')?;
    Ok(())
}

// Adds the lines of a partition, as `batch=n[1-8]`.
fn add_hosts(alloc: Global, lines: &mut Vec<u8>, given: &str) -> Result<(), AllocError> {
    let (name, hosts) = given.split_once('=').unwrap_or((given, ""));
    match add_partition(alloc, lines, name.as_bytes(), hosts.as_bytes()) {
        Ok(()) => Ok(()),
        Err(HostsFault::NoMemory) => Err(AllocError),
        Err(HostsFault::NotHosts | HostsFault::TooMany) => lines.extend_from_slice(b"no hosts\n"),
    }
}

// The nodes that words tell of: `node=n1|idle|batch|gpu` as a line of sinfo, `partition=batch=n[1-8]` by the hosts of a partition.
fn nodes_of(alloc: Global, words: &str) -> Result<Vec<NodeText>, AllocError> {
    let mut lines = Vec::new(alloc);
    for word in words.split_whitespace() {
        match word.split_once('=') {
            Some(("node", line)) => add_node(&mut lines, line)?,
            Some(("partition", given)) => add_hosts(alloc, &mut lines, given)?,
            _ => {}
        }
    }
    Ok(read_nodes(alloc, &lines)?.nodes)
}

// What an import makes of a log, or why it makes nothing.
fn told(
    alloc: Global,
    format: Format,
    words: &str,
    log: &[u8],
    wanted: Wanted,
) -> Result<String, AllocError> {
    let nodes = nodes_of(alloc, words)?;
    match import(alloc, format, &options_of(words), &nodes, log) {
        Ok(imported) => made(alloc, &imported, log, wanted),
        Err(fault) => {
            let mut text = fault_text(alloc, fault)?;
            text.push_str("\n")?;
            Ok(text)
        }
    }
}

fn wanted_by(word: &str) -> Option<(Format, Wanted)> {
    match word {
        "swf" => Some((Format::Swf, Wanted::Trace)),
        "sacct" => Some((Format::Sacct, Wanted::Trace)),
        "swf counts" => Some((Format::Swf, Wanted::Counts)),
        "sacct counts" => Some((Format::Sacct, Wanted::Counts)),
        "swf rejects" => Some((Format::Swf, Wanted::Rejects)),
        "sacct rejects" => Some((Format::Sacct, Wanted::Rejects)),
        _ => None,
    }
}

/// What is wanted of the last log with these options: the trace with the counts behind it, the counts alone, or the lines left out.
pub fn judge(
    alloc: Global,
    given: &Given,
    tally: &mut Tally,
    word: &str,
    options: &str,
    body: &str,
) -> Result<(), AllocError> {
    let Some((format, wanted)) = wanted_by(word) else {
        return tally.expect("a section", word, "a known kind");
    };
    let found = told(alloc, format, options, &given.log, wanted)?;
    let body = format!(in alloc; "{body}\n")?;
    tally.expect(word, found.as_str(), body.as_str())
}
