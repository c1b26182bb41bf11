// What is told of a queue.
use crate::asked::AskedFault;
use crate::cause::{Cause, Fate, ReservationFate};
use crate::queueing::{Queue, QueueFault};
use std::alloc::{AllocError, Global};
use tetri_hosts::NodeFate;

/// The word of what becomes of a line.
pub fn fate_word(fate: Fate) -> &'static str {
    match fate {
        Fate::Taken => "taken",
        Fate::Running => "running",
        Fate::Released => "released",
        Fate::Blank => "blank",
        Fate::Left(cause) => cause_word(cause),
    }
}

fn cause_word(cause: Cause) -> &'static str {
    match cause {
        Cause::Unreadable => "unreadable",
        Cause::Finished => "finished",
        Cause::NotHeld => "not-held",
        Cause::HeldOtherwise => "held-otherwise",
        Cause::Dependent => "dependent",
        Cause::Reservation => "reservation",
        Cause::Shared => "shared",
        Cause::Component => "component",
        Cause::Constraint => "constraint",
        Cause::NoNodes => "no-nodes",
        Cause::TooLarge => "too-large",
        Cause::Throttled => "throttled",
        Cause::Repeated => "repeated",
        Cause::Beyond => "beyond",
    }
}

// All that may become of a line but that it is blank, in the order in which they are told.
const FATES: [Fate; 17] = [
    Fate::Taken,
    Fate::Running,
    Fate::Released,
    Fate::Left(Cause::Unreadable),
    Fate::Left(Cause::Finished),
    Fate::Left(Cause::NotHeld),
    Fate::Left(Cause::HeldOtherwise),
    Fate::Left(Cause::Dependent),
    Fate::Left(Cause::Reservation),
    Fate::Left(Cause::Shared),
    Fate::Left(Cause::Component),
    Fate::Left(Cause::Constraint),
    Fate::Left(Cause::NoNodes),
    Fate::Left(Cause::TooLarge),
    Fate::Left(Cause::Throttled),
    Fate::Left(Cause::Repeated),
    Fate::Left(Cause::Beyond),
];

/// How many lines of the queue became what, a line for each; and how many lines of the others were not read. Its only error is want of
/// memory.
pub fn counts_text(alloc: Global, queue: &Queue) -> Result<String, AllocError> {
    let mut text = String::new(alloc);
    for fate in &FATES {
        let word = fate_word(*fate);
        let count = queue.fates.iter().filter(|other| **other == *fate).count();
        writeln!(text, "{word} {count}")?;
    }
    let nodes = queue
        .nodes
        .iter()
        .filter(|fate| **fate == NodeFate::Unread)
        .count();
    let reservations = queue
        .reservations
        .iter()
        .filter(|fate| **fate == ReservationFate::Unread)
        .count();
    let crowded = queue.crowded;
    writeln!(text, "unreadable-nodes {nodes}")?;
    writeln!(text, "unreadable-reservations {reservations}")?;
    writeln!(text, "drained-for-closures {crowded}")?;
    Ok(text)
}

fn asked_text(fault: AskedFault) -> &'static str {
    match fault {
        AskedFault::Slot => "a slot has 1 to 1000000 seconds",
        AskedFault::Window => "the window is 1 to 64",
        AskedFault::Budget => "the budget is 1 to 10000",
        AskedFault::Slack => "the slack is 0 to 10000",
        AskedFault::Ageing => "ageing takes 1 to 10000 slots",
        AskedFault::Now => "give --now with --reservations",
    }
}

/// Why there is no trace, in words.
pub fn fault_text(fault: QueueFault) -> &'static str {
    match fault {
        QueueFault::Asked(fault) => asked_text(fault),
        QueueFault::Nodes => "there are 1 to 4096 nodes",
        QueueFault::Unlike => "the trace that was made is not read as it should be",
        QueueFault::NoMemory => "out of memory",
    }
}
