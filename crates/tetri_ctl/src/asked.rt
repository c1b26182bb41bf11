// The words of an import.
use crate::builders::{Built, choice, flag, number, titled, valued, with_word};
use clap::{Arg, ArgAction, ArgMatches};
use std::alloc::Global;
use tetri_logs::{Format, Options, Worth, seconds_in};
use tetri_request::Class;

/// What is asked for: a log with its format, and how it becomes a trace.
#[derive(Drop)]
pub struct Asked<'a> {
    pub format: Format,
    pub log: &'a str,
    pub options: Options,
    /// The file for the lines that are left out.
    pub rejects: Option<&'a str>,
    /// The file with a line for each node.
    pub nodes_file: Option<&'a str>,
}

// The word that names a format.
fn format_word<'a>(alloc: Global) -> Arg<'a> {
    Arg::new(alloc, "FORMAT")
        .required(true)
        .value_parser(["swf", "sacct"].as_slice())
}

// The word that names a log.
fn log_word<'a>(alloc: Global) -> Arg<'a> {
    Arg::new(alloc, "LOG")
        .required(true)
        .help("the log, a file or -")
}

// The command on a log.
fn on_log<'a>(alloc: Global) -> Built<'a> {
    let command = titled(
        alloc,
        "import",
        "Writes the trace of an accounting log",
        "Example: tetri_ctl import swf cluster.swf --slack 12 > cluster.jsonl",
    );
    let command = with_word(command, format_word(alloc));
    with_word(command, log_word(alloc))
}

// With what is asked of the slots and of the nodes.
fn with_slots<'a>(alloc: Global, command: Built<'a>) -> Built<'a> {
    let command = with_word(
        command,
        number(alloc, "slot", "N", "seconds of a slot [default: 300]"),
    );
    let command = with_word(
        command,
        number(
            alloc,
            "processors",
            "N",
            "processors of a node [default: what the log says, or 1]",
        ),
    );
    with_word(
        command,
        number(
            alloc,
            "nodes",
            "N",
            "number of nodes [default: what the log says of them]",
        ),
    )
}

// With what is asked of the cycles.
fn with_cycles<'a>(alloc: Global, command: Built<'a>) -> Built<'a> {
    let command = with_word(
        command,
        number(
            alloc,
            "window",
            "N",
            "slots in which leaves may start [default: 16]",
        ),
    );
    with_word(
        command,
        number(
            alloc,
            "budget",
            "N",
            "nodes of a search tree [default: 200]",
        ),
    )
}

// The option that names a file of nodes.
fn nodes_file_word<'a>(alloc: Global) -> Arg<'a> {
    valued(
        alloc,
        "nodes-file",
        "FILE",
        "the nodes with their partitions and features: what sinfo -a -h -N -o '%N\\t%T\\t%P\\t%f' prints",
    )
}

// The option that names the nodes of a partition.
fn partition_word<'a>(alloc: Global) -> Arg<'a> {
    valued(
        alloc,
        "partition",
        "NAME=HOSTS",
        "the nodes of a partition, as batch=n[1-8]; once for each",
    )
    .action(ArgAction::Append)
}

// With the nodes where they differ.
fn with_nodes<'a>(alloc: Global, command: Built<'a>) -> Built<'a> {
    let command = with_word(command, nodes_file_word(alloc));
    with_word(command, partition_word(alloc))
}

// With how many jobs are taken, and how long they may wait.
fn with_jobs<'a>(alloc: Global, command: Built<'a>) -> Built<'a> {
    let command = with_word(
        command,
        number(
            alloc,
            "unit",
            "N",
            "what each worth is multiplied by [default: 1]",
        ),
    );
    let command = with_word(
        command,
        number(alloc, "jobs", "N", "how many jobs are taken at most"),
    );
    with_word(
        command,
        number(
            alloc,
            "slack",
            "N",
            "slots that a job may wait [default: 288]",
        ),
    )
}

// With which jobs are taken, and what they are worth.
fn with_worth<'a>(alloc: Global, command: Built<'a>) -> Built<'a> {
    let command = with_word(
        command,
        valued(
            alloc,
            "from",
            "TIME",
            "jobs that are submitted at this time or later",
        ),
    );
    let command = with_word(
        command,
        valued(
            alloc,
            "to",
            "TIME",
            "jobs that are submitted before this time",
        ),
    );
    let command = with_word(
        command,
        choice(
            alloc,
            "worth",
            &["node-slots", "job"],
            "what a job is worth",
        ),
    );
    with_word(
        command,
        choice(
            alloc,
            "class",
            &["steady", "decay"],
            "whether waiting costs",
        ),
    )
}

// With what is asked of jobs that share nodes, and of lines that are left out.
fn with_rejects<'a>(alloc: Global, command: Built<'a>) -> Built<'a> {
    let command = with_word(
        command,
        flag(
            alloc,
            "whole-nodes-only",
            "leave out jobs with fewer processors than a node has",
        ),
    );
    with_word(
        command,
        valued(
            alloc,
            "rejects",
            "FILE",
            "write each line that is left out, with its number and its cause",
        ),
    )
}

/// The words of the command.
pub fn import_command<'a>(alloc: Global) -> Built<'a> {
    let command = with_slots(alloc, on_log(alloc));
    let command = with_nodes(alloc, with_cycles(alloc, command));
    with_rejects(alloc, with_worth(alloc, with_jobs(alloc, command)))
}

fn number_of(matches: &ArgMatches, name: &str) -> Option<u32> {
    matches.get_one::<u32>(name)
}

fn number_or(matches: &ArgMatches, name: &str, default: u32) -> u32 {
    number_of(matches, name).unwrap_or(default)
}

// The second since 1970 that a text says: a number of seconds, or as `2024-05-01T12:34:56`.
fn second_in(text: &str) -> Option<u32> {
    match seconds_in(text.as_bytes()) {
        Some(second) => Some(second),
        None => text.parse::<u32>().ok(),
    }
}

// The time that an option holds, if it is given; `None` where it is no time.
fn time_of(matches: &ArgMatches, name: &str) -> Option<Option<u32>> {
    match matches.get_str(name) {
        Some(text) => second_in(text).map(Some),
        None => Some(None),
    }
}

fn format_of(matches: &ArgMatches) -> Format {
    match matches.get_str("FORMAT") {
        Some("sacct") => Format::Sacct,
        _ => Format::Swf,
    }
}

fn worth_of(matches: &ArgMatches) -> Worth {
    match matches.get_str("worth") {
        Some("job") => Worth::Job,
        _ => Worth::NodeSlots,
    }
}

fn class_of(matches: &ArgMatches) -> Class {
    match matches.get_str("class") {
        Some("decay") => Class::Decay,
        _ => Class::Steady,
    }
}

// How the log becomes a trace. `None` where a time is no time.
fn options_of(matches: &ArgMatches) -> Option<Options> {
    let from = time_of(matches, "from")?;
    let to = time_of(matches, "to")?;
    Some(Options {
        slot: number_or(matches, "slot", 300),
        processors: number_of(matches, "processors"),
        nodes: number_of(matches, "nodes"),
        window: number_or(matches, "window", 16),
        budget: number_or(matches, "budget", 200),
        unit: number_or(matches, "unit", 1),
        from,
        to,
        jobs: number_of(matches, "jobs"),
        worth: worth_of(matches),
        slack: number_or(matches, "slack", 288),
        class: class_of(matches),
        whole_nodes_only: matches.get_flag("whole-nodes-only"),
    })
}

/// What the words ask for. `None` where a time is no time.
pub fn asked_of<'a>(matches: &ArgMatches<'a>) -> Option<Asked<'a>> {
    let options = options_of(matches)?;
    Some(Asked {
        format: format_of(matches),
        log: matches.get_str("LOG").unwrap_or(""),
        options,
        rejects: matches.get_str("rejects"),
        nodes_file: matches.get_str("nodes-file"),
    })
}
