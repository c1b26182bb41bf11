// Lists of hosts, queues and orders.
use std::alloc::{AllocError, Global};
use tetri_hosts::{HostsFault, expand};
use tetri_io::MemShelf;
use tetri_queue::{
    Asked, Launches, OrderForm, Queue, QueueTexts, QueueWorth, counts_text, fault_text,
    orders_text, queue_trace,
};
use tetri_request::Class;
use tetri_run::check_seen;
use tetri_tables::{Given, Tally, expand as bytes_of, sections_of};

// The texts that sections give to those behind them.
#[derive(Drop)]
struct Texts {
    jobs: Vec<u8>,
    arrays: Vec<u8>,
    nodes: Vec<u8>,
    reservations: Vec<u8>,
    given: Given,
}

// What is asked for where nothing is said.
const PLAIN: Asked = Asked {
    slot: 60,
    window: 16,
    budget: 200,
    slack: 288,
    ageing: None,
    worth: QueueWorth::NodeSlots,
    class: Class::Decay,
    whole: false,
    now: None,
};

// With one word more, as `slot=60`.
fn with_word(asked: Asked, word: &str) -> Asked {
    let (key, value) = word.split_once('=').unwrap_or((word, ""));
    let number = value.parse::<u32>().unwrap_or(0);
    let mut asked = asked;
    match key {
        "slot" => asked.slot = number,
        "window" => asked.window = number,
        "budget" => asked.budget = number,
        "slack" => asked.slack = number,
        "ageing" => asked.ageing = Some(number),
        "now" => asked.now = Some(number),
        "priority" => asked.worth = QueueWorth::Priority,
        "steady" => asked.class = Class::Steady,
        "whole" => asked.whole = true,
        _ => {}
    }
    asked
}

fn asked_of(words: &str) -> Asked {
    let mut asked = PLAIN;
    for word in words.split_whitespace() {
        asked = with_word(asked, word);
    }
    asked
}

// The trace of a queue with the counts behind it.
fn told_of(alloc: Global, queue: &Queue) -> Result<String, AllocError> {
    let mut text = String::from_str(alloc, queue.trace.as_str())?;
    let counts = counts_text(alloc, queue)?;
    text.push_str(counts.as_str())?;
    Ok(text)
}

// The same, or why there is none.
fn told(alloc: Global, texts: &Texts, words: &str) -> Result<String, AllocError> {
    let asked = asked_of(words);
    let lines = QueueTexts {
        jobs: &texts.jobs,
        arrays: &texts.arrays,
        nodes: &texts.nodes,
        reservations: &texts.reservations,
    };
    match queue_trace(alloc, &asked, lines) {
        Ok(queue) => told_of(alloc, &queue),
        Err(fault) => format!(in alloc; "{}\n", fault_text(fault)),
    }
}

// The hosts of a list, with spaces between, or why it is none.
fn hosts(alloc: Global, text: &str, most: u32) -> Result<String, AllocError> {
    let bytes = bytes_of(alloc, text)?;
    let names = match expand(alloc, &bytes, most as usize) {
        Ok(names) => names,
        Err(HostsFault::NotHosts) => return String::from_str(alloc, "not-hosts"),
        Err(HostsFault::TooMany) => return String::from_str(alloc, "too-many"),
        Err(HostsFault::NoMemory) => return Err(AllocError),
    };
    let mut told = String::new(alloc);
    for name in names.as_slice() {
        if !told.is_empty() {
            told.push_str(" ")?;
        }
        told.push_str(name.text())?;
    }
    Ok(told)
}

// Rows of lists of hosts and of what they stand for.
fn hosts_rows(alloc: Global, tally: &mut Tally, most: &str, body: &str) -> Result<(), AllocError> {
    let most = most.parse::<u32>().unwrap_or(0);
    for row in body.split('\n') {
        let (list, wanted) = tetri_tables::halves(row);
        let found = hosts(alloc, list, most)?;
        tally.expect(row, found.as_str(), wanted)?;
    }
    Ok(())
}

fn shelf_of(alloc: Global, given: &Given) -> Result<MemShelf, AllocError> {
    let mut shelf = MemShelf::new(alloc, 4096, &[])?;
    shelf.put("trace", given.trace.as_bytes())?;
    shelf.put("report", given.report.as_bytes())?;
    Ok(shelf)
}

// The orders of the last trace and report.
fn orders(alloc: Global, texts: &Texts, form: OrderForm) -> Result<String, AllocError> {
    let mut shelf = shelf_of(alloc, &texts.given)?;
    let mut launches = Launches::new(alloc);
    match check_seen(alloc, "trace", "report", &mut shelf, &mut launches) {
        Ok(trace) => match orders_text(alloc, form, &trace, &launches) {
            Ok(text) => Ok(text),
            Err(_) => String::from_str(alloc, "no orders\n"),
        },
        Err(_) => String::from_str(alloc, "refused\n"),
    }
}

fn judge_section(
    alloc: Global,
    texts: &mut Texts,
    tally: &mut Tally,
    kind: &str,
    body: &str,
) -> Result<(), AllocError> {
    let (word, more) = kind.split_once(": ").unwrap_or((kind, ""));
    match word {
        "jobs" => texts.jobs = bytes_of(alloc, body)?,
        "arrays" => texts.arrays = bytes_of(alloc, body)?,
        "nodes" => texts.nodes = bytes_of(alloc, body)?,
        "reservations" => texts.reservations = bytes_of(alloc, body)?,
        "hosts" => hosts_rows(alloc, tally, more, body)?,
        "queue" => {
            let found = told(alloc, texts, more)?;
            tally.expect(kind, found.trim_end_matches('\n'), body)?;
        }
        "orders" => {
            let form = if more == "slurm" {
                OrderForm::Slurm
            } else {
                OrderForm::Json
            };
            let found = orders(alloc, texts, form)?;
            tally.expect(kind, found.trim_end_matches('\n'), body)?;
        }
        _ => {
            if !texts.given.take(alloc, kind, body)? {
                tally.expect("a section", kind, "a known kind")?;
            }
        }
    }
    Ok(())
}

/// What differs from what the sections of a table want.
pub fn judge(alloc: Global, table: &str) -> Result<Tally, AllocError> {
    let mut tally = Tally::new(alloc);
    let mut texts = Texts {
        jobs: Vec::new(alloc),
        arrays: Vec::new(alloc),
        nodes: Vec::new(alloc),
        reservations: Vec::new(alloc),
        given: Given::new(alloc),
    };
    for (kind, body) in sections_of(alloc, table)? {
        judge_section(alloc, &mut texts, &mut tally, kind, body)?;
    }
    Ok(tally)
}
