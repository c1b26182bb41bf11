// `tetri_ctl import FORMAT LOG`
use crate::asked::{Asked, asked_of, import_command};
use crate::builders::Built;
use crate::said::{
    NO_MEMORY, READ_FAULT, REFUSED, USAGE, WRITE_FAULT, complain, unread, write_output,
};
use clap::ArgMatches;
use std::alloc::{AllocError, Global};
use std::fs;
use tetri_cluster::NodeText;
use tetri_hosts::{HostsFault, NodeFate, read_nodes};
use tetri_logs::{Cause, Reject};
use tetri_pipes::{Unread, read_whole};
use tetri_workload::{
    ImportFault, Imported, add_partition, counts_text, fault_text, import, reason_text,
    rejects_text,
};

/// The words of the command.
pub fn command<'a>(alloc: Global) -> Built<'a> {
    import_command(alloc)
}

// All that a log has.
fn log_of(rt: &HostRuntime, name: &str) -> Result<Vec<u8>, Unread> {
    if name == "-" {
        return read_whole(rt.alloc(), rt.reader(), u64::MAX);
    }
    read_whole(rt.alloc(), fs::open(rt, name)?, u64::MAX)
}

// Writes the trace.
fn write_trace(rt: &HostRuntime, imported: &Imported) -> u8 {
    match write_output(rt, imported.trace.as_bytes()) {
        Ok(()) => 0,
        Err(number) => number,
    }
}

// Writes each line that is left out into a file.
fn write_rejects(
    rt: &HostRuntime,
    name: &str,
    log: &[u8],
    imported: &Imported,
) -> Result<u8, AllocError> {
    let text = rejects_text(rt.alloc(), log, imported.left.as_slice())?;
    match fs::write(rt, name, text.as_slice()) {
        Ok(()) => Ok(0),
        Err(error) => {
            let _said = eprintln!(rt; "tetri_ctl: {name}: {error}");
            Ok(WRITE_FAULT)
        }
    }
}

// The first line that is none of its format.
fn first_unreadable(left: &[Reject]) -> Option<Reject> {
    for reject in left {
        if let Cause::Unreadable(_) = reject.cause {
            return Some(*reject);
        }
    }
    None
}

// Says that nothing is taken, and at which column the first line stops being one that could not be read.
fn refuse_all(rt: &HostRuntime, name: &str, imported: &Imported) -> Result<u8, AllocError> {
    complain(rt, name, "no line of the log is a job that is taken");
    if let Some(reject) = first_unreadable(&imported.left) {
        let reason = reason_text(rt.alloc(), reject)?;
        let text = format!(in rt.alloc(); "line {reason}")?;
        complain(rt, name, text.as_str());
    }
    Ok(REFUSED)
}

// Writes what is left out, the trace and then the counts. A trace without a job is none: then the counts say why.
fn write_out(
    rt: &HostRuntime,
    asked: &Asked,
    log: &[u8],
    imported: &Imported,
) -> Result<u8, AllocError> {
    let counts = counts_text(rt.alloc(), imported)?;
    if let Some(name) = asked.rejects {
        let status = write_rejects(rt, name, log, imported)?;
        if status != 0 {
            return Ok(status);
        }
    }
    if imported.jobs == 0 {
        let _told = rt.eprint(counts.as_str());
        return refuse_all(rt, asked.log, imported);
    }
    let status = write_trace(rt, imported);
    if status == 0 {
        let _told = rt.eprint(counts.as_str());
        if !imported.mixed {
            complain(rt, asked.log, "all nodes are taken as alike");
        }
    }
    Ok(status)
}

// Says why there is no trace, and gives the exit number.
fn refuse(rt: &HostRuntime, name: &str, fault: ImportFault) -> u8 {
    match fault_text(rt.alloc(), fault) {
        Ok(text) => complain(rt, name, text.as_str()),
        Err(AllocError) => complain(rt, name, "out of memory"),
    }
    match fault {
        ImportFault::Options(_) | ImportFault::Apart(_) => USAGE,
        ImportFault::Unlike => REFUSED,
        ImportFault::NoMemory => NO_MEMORY,
    }
}

// The first line that tells of no node, counted from 1.
fn first_unread(fates: &[NodeFate]) -> Option<usize> {
    for (place, fate) in fates.iter().enumerate() {
        if *fate == NodeFate::Unread {
            return Some(place.saturating_add(1));
        }
    }
    None
}

// The nodes that lines tell of. Where they tell of none, or a line is no such line, that is said, and the error is the exit number.
fn nodes_in(rt: &HostRuntime, name: &str, lines: &[u8]) -> Result<Vec<NodeText>, u8> {
    let Ok(read) = read_nodes(rt.alloc(), lines) else {
        return Err(refuse(rt, name, ImportFault::NoMemory));
    };
    if let Some(line) = first_unread(&read.fates) {
        let _said = eprintln!(rt; "tetri_ctl: {name}: line {line} tells of no node");
        return Err(USAGE);
    }
    if read.nodes.is_empty() {
        complain(rt, name, "there are 1 to 4096 nodes");
        return Err(USAGE);
    }
    Ok(read.nodes)
}

// The nodes of a file. Where it cannot be read, that is said, and the error is the exit number.
fn nodes_of_file(rt: &HostRuntime, name: &str) -> Result<Vec<NodeText>, u8> {
    match log_of(rt, name) {
        Ok(lines) => nodes_in(rt, name, &lines),
        Err(why) => Err(unread(rt, name, &why, READ_FAULT)),
    }
}

// Adds the lines of a partition's nodes. Where it is none, that is said, and the error is the exit number.
fn add_given(rt: &HostRuntime, lines: &mut Vec<u8>, given: &str) -> Result<(), u8> {
    let (name, hosts) = given.split_once('=').unwrap_or((given, ""));
    match add_partition(rt.alloc(), lines, name.as_bytes(), hosts.as_bytes()) {
        Ok(()) => Ok(()),
        Err(HostsFault::NoMemory) => Err(refuse(rt, given, ImportFault::NoMemory)),
        Err(HostsFault::NotHosts | HostsFault::TooMany) => {
            complain(
                rt,
                given,
                "a partition is NAME=HOSTS, as batch=n[1-8], with 4096 hosts at most",
            );
            Err(USAGE)
        }
    }
}

// The nodes of partitions.
fn nodes_of_partitions(rt: &HostRuntime, partitions: &[&str]) -> Result<Vec<NodeText>, u8> {
    let mut lines = Vec::new(rt.alloc());
    for given in partitions {
        add_given(rt, &mut lines, given)?;
    }
    nodes_in(rt, "--partition", &lines)
}

// The nodes that are given, none where all are alike. Where they cannot be had, that is said, and the error is the exit number.
fn nodes_of(rt: &HostRuntime, asked: &Asked, partitions: &[&str]) -> Result<Vec<NodeText>, u8> {
    let counted = asked.options.nodes.is_some();
    let listed = asked.nodes_file.is_some();
    let parted = !partitions.is_empty();
    if (counted && (listed || parted)) || (listed && parted) {
        complain(
            rt,
            "import",
            "give one of --nodes, --nodes-file and --partition",
        );
        return Err(USAGE);
    }
    match asked.nodes_file {
        Some("-") if asked.log == "-" => {
            complain(rt, "import", "one of two files can be -");
            Err(USAGE)
        }
        Some(name) => nodes_of_file(rt, name),
        None if partitions.is_empty() => Ok(Vec::new(rt.alloc())),
        None => nodes_of_partitions(rt, partitions),
    }
}

// Imports what is asked for, and gives the exit number.
fn run_asked(rt: &HostRuntime, asked: &Asked, partitions: &[&str]) -> u8 {
    match nodes_of(rt, asked, partitions) {
        Ok(nodes) => run_on(rt, asked, &nodes),
        Err(status) => status,
    }
}

// The same on these nodes, or on nodes that are alike where none is given.
fn run_on(rt: &HostRuntime, asked: &Asked, nodes: &[NodeText]) -> u8 {
    let log = match log_of(rt, asked.log) {
        Ok(log) => log,
        Err(why) => return unread(rt, asked.log, &why, READ_FAULT),
    };
    match import(rt.alloc(), asked.format, &asked.options, nodes, &log) {
        Ok(imported) => match write_out(rt, asked, &log, &imported) {
            Ok(status) => status,
            Err(AllocError) => refuse(rt, asked.log, ImportFault::NoMemory),
        },
        Err(fault) => refuse(rt, asked.log, fault),
    }
}

/// Imports what the words name, and gives the exit number.
pub fn run(rt: &HostRuntime, words: &ArgMatches<'_>) -> u8 {
    match asked_of(words) {
        Some(asked) => {
            let partitions = words.get_strs("partition").unwrap_or(&[]);
            run_asked(rt, &asked, partitions)
        }
        None => {
            let what = "a time is a number of seconds, or as 2024-05-01T12:34:56";
            complain(rt, "import", what);
            USAGE
        }
    }
}
