// `tetri_ctl queue --jobs FILE --nodes FILE`
use crate::builders::{Built, choice, flag, number, titled, valued, with_word};
use crate::said::{
    BAD_INPUT, NO_MEMORY, READ_FAULT, REFUSED, USAGE, WRITE_FAULT, complain, unread, write_output,
};
use clap::{Arg, ArgMatches};
use std::alloc::{AllocError, Global};
use std::fs;
use tetri_io::parts_at;
use tetri_logs::seconds_in;
use tetri_pipes::{Unread, read_whole};
use tetri_queue::{
    Asked, Fate, Queue, QueueFault, QueueTexts, QueueWorth, counts_text, fate_word, fault_text,
    queue_trace,
};
use tetri_request::Class;

// What the files hold.
#[derive(Drop)]
struct Files {
    jobs: Vec<u8>,
    arrays: Vec<u8>,
    nodes: Vec<u8>,
    reservations: Vec<u8>,
}

// An option that names a file.
fn file<'a>(alloc: Global, name: &'a str, help: &'a str) -> Arg<'a> {
    valued(alloc, name, "FILE", help)
}

// With the files of jobs and of nodes.
fn with_files<'a>(alloc: Global, command: Built<'a>) -> Built<'a> {
    let command = with_word(
        command,
        file(alloc, "jobs", "the lines of squeue, a file or -").required(true),
    );
    let command = with_word(
        command,
        file(
            alloc,
            "arrays",
            "the pending arrays, as 6_[0-3%2], which squeue prints without -r, a file or -",
        ),
    );
    with_word(
        command,
        file(alloc, "nodes", "the lines of sinfo, a file or -").required(true),
    )
}

// With the files of reservations, and of lines that are not taken.
fn with_more_files<'a>(alloc: Global, command: Built<'a>) -> Built<'a> {
    let command = with_word(
        command,
        file(
            alloc,
            "reservations",
            "the lines of scontrol show reservation --oneliner, a file or -",
        ),
    );
    with_word(
        command,
        file(
            alloc,
            "rejects",
            "write there each line of the jobs that is not taken, behind what becomes of it",
        ),
    )
}

// With what is asked of the cycle.
fn with_cycle<'a>(alloc: Global, command: Built<'a>) -> Built<'a> {
    let command = with_word(
        command,
        valued(
            alloc,
            "now",
            "TIME",
            "when slot 0 begins, by the manager's clock",
        ),
    );
    let command = with_word(
        command,
        number(alloc, "slot", "N", "seconds of a slot [default: 60]"),
    );
    let command = with_word(
        command,
        number(
            alloc,
            "window",
            "N",
            "slots in which leaves may start [default: 16]",
        ),
    );
    with_word(
        command,
        number(
            alloc,
            "budget",
            "N",
            "nodes of a search tree [default: 200]",
        ),
    )
}

// With what a job is worth.
fn with_worth<'a>(alloc: Global, command: Built<'a>) -> Built<'a> {
    let command = with_word(
        command,
        choice(
            alloc,
            "worth",
            &["node-slots", "priority"],
            "what a job is worth [default: node-slots]",
        ),
    );
    with_word(
        command,
        number(
            alloc,
            "ageing",
            "SLOTS",
            "for so many slots of waiting a job is worth as much again [default: none]",
        ),
    )
}

// With how a job may wait, and what it is given.
fn with_waits<'a>(alloc: Global, command: Built<'a>) -> Built<'a> {
    let command = with_word(
        command,
        number(
            alloc,
            "slack",
            "N",
            "slots that a job may wait [default: 288]",
        ),
    );
    let command = with_word(
        command,
        choice(
            alloc,
            "class",
            &["decay", "steady"],
            "whether waiting costs [default: decay]",
        ),
    );
    with_word(
        command,
        flag(
            alloc,
            "whole",
            "each job is given whole nodes, whatever its line says of sharing",
        ),
    )
}

/// The words of the command.
pub fn command<'a>(alloc: Global) -> Built<'a> {
    let command = titled(
        alloc,
        "queue",
        "Writes the trace of one cycle of a resource manager's queue",
        "Example: tetri_ctl queue --jobs jobs.txt --nodes nodes.txt --slot 60 > cycle.jsonl",
    );
    let command = with_more_files(alloc, with_files(alloc, command));
    with_waits(alloc, with_worth(alloc, with_cycle(alloc, command)))
}

// All that a file has.
fn text_of(rt: &HostRuntime, name: &str) -> Result<Vec<u8>, Unread> {
    if name == "-" {
        return read_whole(rt.alloc(), rt.reader(), u64::MAX);
    }
    read_whole(rt.alloc(), fs::open(rt, name)?, u64::MAX)
}

// The same, or nothing where no file is named. Where it cannot be read, that is said, and the error is the exit number.
fn read(rt: &HostRuntime, name: Option<&str>) -> Result<Vec<u8>, u8> {
    match name {
        Some(name) => match text_of(rt, name) {
            Ok(text) => Ok(text),
            Err(why) => Err(unread(rt, name, &why, READ_FAULT)),
        },
        None => Ok(Vec::new(rt.alloc())),
    }
}

fn number_of(words: &ArgMatches<'_>, name: &str, default: u32) -> u32 {
    words.get_one::<u32>(name).unwrap_or(default)
}

// The second since 1970 that a text says: a number of seconds, or as `2024-05-01T12:34:56`.
fn second_in(text: &str) -> Option<u32> {
    match seconds_in(text.as_bytes()) {
        Some(second) => Some(second),
        None => text.parse::<u32>().ok(),
    }
}

// The time that is given, if one is; `None` where it is no time.
fn now_of(words: &ArgMatches<'_>) -> Option<Option<u32>> {
    match words.get_str("now") {
        Some(text) => second_in(text).map(Some),
        None => Some(None),
    }
}

fn worth_of(words: &ArgMatches<'_>) -> QueueWorth {
    match words.get_str("worth") {
        Some("priority") => QueueWorth::Priority,
        _ => QueueWorth::NodeSlots,
    }
}

fn class_of(words: &ArgMatches<'_>) -> Class {
    match words.get_str("class") {
        Some("steady") => Class::Steady,
        _ => Class::Decay,
    }
}

// What the words ask for. `None` where the time is no time.
fn asked_of(words: &ArgMatches<'_>) -> Option<Asked> {
    let now = now_of(words)?;
    Some(Asked {
        slot: number_of(words, "slot", 60),
        window: number_of(words, "window", 16),
        budget: number_of(words, "budget", 200),
        slack: number_of(words, "slack", 288),
        ageing: words.get_one::<u32>("ageing"),
        worth: worth_of(words),
        class: class_of(words),
        whole: words.get_flag("whole"),
        now,
    })
}

// Adds a line behind the word of what becomes of it.
fn add_reject(text: &mut Vec<u8>, line: &[u8], fate: Fate) -> Result<(), AllocError> {
    text.extend_from_slice(fate_word(fate).as_bytes())?;
    text.push(b'\t')?;
    text.extend_from_slice(line)?;
    text.push(b'\n')?;
    Ok(())
}

// The lines of the jobs that are not taken, each behind the word of what becomes of it.
fn rejects_text(rt: &HostRuntime, jobs: &[u8], queue: &Queue) -> Result<Vec<u8>, AllocError> {
    let mut text = Vec::new(rt.alloc());
    let lines = parts_at(rt.alloc(), b'\n', jobs)?;
    for (line, fate) in lines.iter().zip(queue.fates.iter()) {
        if *fate != Fate::Taken && *fate != Fate::Blank {
            add_reject(&mut text, line, *fate)?;
        }
    }
    Ok(text)
}

// Writes each line of the jobs that is not taken into a file, and gives the exit number.
fn write_rejects(
    rt: &HostRuntime,
    name: &str,
    jobs: &[u8],
    queue: &Queue,
) -> Result<u8, AllocError> {
    let text = rejects_text(rt, jobs, queue)?;
    match fs::write(rt, name, text.as_slice()) {
        Ok(()) => Ok(0),
        Err(error) => {
            let _said = eprintln!(rt; "tetri_ctl: {name}: {error}");
            Ok(WRITE_FAULT)
        }
    }
}

// Writes the trace, and says what became of the lines.
fn write_out(
    rt: &HostRuntime,
    jobs: &[u8],
    rejects: Option<&str>,
    queue: &Queue,
) -> Result<u8, AllocError> {
    let counts = counts_text(rt.alloc(), queue)?;
    if let Some(name) = rejects {
        let number = write_rejects(rt, name, jobs, queue)?;
        if number != 0 {
            return Ok(number);
        }
    }
    if let Err(number) = write_output(rt, queue.trace.as_bytes()) {
        return Ok(number);
    }
    let _told = rt.eprint(counts.as_str());
    Ok(0)
}

// Says why there is no trace, and gives the exit number.
fn refuse(rt: &HostRuntime, fault: QueueFault) -> u8 {
    complain(rt, "queue", fault_text(fault));
    match fault {
        QueueFault::Asked(_) => USAGE,
        QueueFault::Nodes => BAD_INPUT,
        QueueFault::Unlike => REFUSED,
        QueueFault::NoMemory => NO_MEMORY,
    }
}

// The files that the words name.
fn files_of(rt: &HostRuntime, words: &ArgMatches<'_>) -> Result<Files, u8> {
    Ok(Files {
        jobs: read(rt, words.get_str("jobs"))?,
        arrays: read(rt, words.get_str("arrays"))?,
        nodes: read(rt, words.get_str("nodes"))?,
        reservations: read(rt, words.get_str("reservations"))?,
    })
}

// The trace of what files hold.
fn trace_of(rt: &HostRuntime, asked: &Asked, files: &Files) -> Result<Queue, QueueFault> {
    let texts = QueueTexts {
        jobs: &files.jobs,
        arrays: &files.arrays,
        nodes: &files.nodes,
        reservations: &files.reservations,
    };
    queue_trace(rt.alloc(), asked, texts)
}

// Writes the trace of what the words name, and gives the exit number.
fn run_asked(rt: &HostRuntime, asked: &Asked, words: &ArgMatches<'_>) -> Result<u8, u8> {
    let files = files_of(rt, words)?;
    match trace_of(rt, asked, &files) {
        Ok(queue) => match write_out(rt, &files.jobs, words.get_str("rejects"), &queue) {
            Ok(number) => Ok(number),
            Err(AllocError) => Err(refuse(rt, QueueFault::NoMemory)),
        },
        Err(fault) => Err(refuse(rt, fault)),
    }
}

/// Writes the trace of what the words name, and gives the exit number.
pub fn run(rt: &HostRuntime, words: &ArgMatches<'_>) -> u8 {
    match asked_of(words) {
        Some(asked) => match run_asked(rt, &asked, words) {
            Ok(number) | Err(number) => number,
        },
        None => {
            complain(
                rt,
                "queue",
                "a time is a number of seconds, or as 2024-05-01T12:34:56",
            );
            USAGE
        }
    }
}
