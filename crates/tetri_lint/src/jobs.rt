// What is suspicious in the lines of a trace that is not refused.
ghost use Rattle.std.specs.Prelude.{◌≡◌};

use crate::finding::{Finding, Kind, Linted};
use crate::header_notes::add_header_findings;
use crate::keys::{Place, known_keys};
use crate::near::nearest_of;
use crate::rules::{durs_past_deadline, is_more_than_set, rounds_to_zero};
use crate::scan::{Key, keys_of, last_key, piece};
use crate::shown::shown;
use std::alloc::{AllocError, Global};
use tetri_io::is_blank;
use tetri_request::{Ask, Prefer};
use tetri_strl::{Expr, Leaf};
use tetri_trace::{Happening, Job, Trace, Work};

// How many look-ups in closures are made for a trace.
const LOOKS_MOST: u64 = 50_000_000;

/// A line with its number and its keys.
#[derive(Clone, Copy, Debug)]
pub(crate) struct Seen<'l> {
    pub(crate) number: u64,
    pub(crate) line: &'l [u8],
    pub(crate) keys: &'l [Key],
}

// The column of an offset of a line.
fn column_of(offset: usize) -> u64 {
    (offset as u64).saturating_add(1)
}

impl<'l> Seen<'l> {
    /// The column of what a key of a place holds.
    pub(crate) fn column(&self, place: Place, name: &str) -> Option<u64> {
        let key = last_key(self.line, self.keys, place, name)?;
        Some(column_of(key.value))
    }
}

// A key that nobody knows.
fn add_unknown(
    alloc: Global,
    seen: &Seen<'_>,
    key: Key,
    linted: &mut Linted,
) -> Result<(), AllocError>
    ensures { linted.new.refusal ≡ linted.old.refusal }
{
    let name = shown(alloc, piece(seen.line, key.from, key.to))?;
    let near = nearest_of(alloc, name.as_str(), known_keys(key.place))?;
    linted.add(Finding {
        line: seen.number,
        column: Some(column_of(key.from)),
        kind: Kind::UnknownKey,
        name,
        near,
    })
}

fn add_repeated(
    alloc: Global,
    seen: &Seen<'_>,
    key: Key,
    linted: &mut Linted,
) -> Result<(), AllocError>
    ensures { linted.new.refusal ≡ linted.old.refusal }
{
    linted.add(Finding {
        line: seen.number,
        column: Some(column_of(key.from)),
        kind: Kind::RepeatedKey,
        name: shown(alloc, piece(seen.line, key.from, key.to))?,
        near: Vec::new(alloc),
    })
}

// What is suspicious in the keys of a line.
fn add_keys(alloc: Global, seen: &Seen<'_>, linted: &mut Linted) -> Result<(), AllocError>
    ensures { linted.new.refusal ≡ linted.old.refusal }
{
    for key in seen.keys {
        let is_plain = !piece(seen.line, key.from, key.to).contains(&b'\\');
        if key.place != Place::Other && !key.is_known && is_plain {
            add_unknown(alloc, seen, *key, linted)?;
        }
        if key.is_repeated {
            add_repeated(alloc, seen, *key, linted)?;
        }
    }
    Ok(())
}

// Says something of a job.
fn add_of_job(
    alloc: Global,
    seen: &Seen<'_>,
    job: &Job,
    kind: Kind,
    column: Option<u64>,
    linted: &mut Linted,
) -> Result<(), AllocError>
    ensures { linted.new.refusal ≡ linted.old.refusal }
{
    linted.add(Finding {
        line: seen.number,
        column,
        kind,
        name: String::from_str(alloc, job.name.text())?,
        near: Vec::new(alloc),
    })
}

// How many nodes a set has, where more are wanted.
fn fewer_than(trace: &Trace, set: u32, k: u32) -> Option<u32> {
    if set < trace.sets.len() && is_more_than_set(&trace.sets, set, k) {
        Some((trace.sets.nodes_of(set).as_slice().len() as u64).min(u64::from(k)) as u32)
    } else {
        None
    }
}

// What is suspicious in an ask by itself.
fn add_ask(
    alloc: Global,
    trace: &Trace,
    seen: &Seen<'_>,
    job: &Job,
    ask: &Ask,
    linted: &mut Linted,
) -> Result<(), AllocError>
    ensures { linted.new.refusal ≡ linted.old.refusal }
{
    let wanted = ask.k;
    if let Some(there) = fewer_than(trace, ask.set, wanted) {
        let kind = Kind::MoreThanSet { wanted, there };
        add_of_job(alloc, seen, job, kind, seen.column(Place::Ask, "k"), linted)?;
    }
    if let Some(prefer) = ask.prefer
        && let Some(there) = fewer_than(trace, prefer.set, wanted)
    {
        let kind = Kind::MoreThanSet { wanted, there };
        add_of_job(
            alloc,
            seen,
            job,
            kind,
            seen.column(Place::Prefer, "set"),
            linted,
        )?;
    }
    if let Some(dur) = durs_past_deadline(ask) {
        let deadline = ask.deadline;
        let kind = Kind::PastDeadline { dur, deadline };
        add_of_job(
            alloc,
            seen,
            job,
            kind,
            seen.column(Place::Ask, "deadline"),
            linted,
        )?;
    }
    if 1 <= ask.deadline && 1 <= ask.k && rounds_to_zero(ask) {
        let kind = Kind::RoundsToZero { value: ask.value };
        add_of_job(
            alloc,
            seen,
            job,
            kind,
            seen.column(Place::Ask, "value"),
            linted,
        )?;
    }
    Ok(())
}

// Puts the leaves of an expression behind others.
#[cycle(push_leaves)]
fn push_leaves(expr: &Expr, leaves: &mut Vec<Leaf>) -> Result<(), AllocError> {
    match expr {
        Expr::One(leaf) => {
            leaves.push(*leaf)?;
            Ok(())
        }
        Expr::Max(parts) => push_parts(parts, leaves),
        Expr::Min(parts) => push_parts(parts, leaves),
        Expr::Sum(parts) => push_parts(parts, leaves),
        Expr::Scale(part, _) => push_leaves(part, leaves),
        Expr::Barrier(part, _) => push_leaves(part, leaves),
    }
}

#[cycle(push_leaves)]
fn push_parts(parts: &[Expr], leaves: &mut Vec<Leaf>) -> Result<(), AllocError> {
    for part in parts {
        push_leaves(part, leaves)?;
    }
    Ok(())
}

// What is suspicious in the leaves of an expression by themselves.
fn add_leaves(
    alloc: Global,
    trace: &Trace,
    seen: &Seen<'_>,
    job: &Job,
    leaves: &[Leaf],
    linted: &mut Linted,
) -> Result<(), AllocError>
    ensures { linted.new.refusal ≡ linted.old.refusal }
{
    let column = seen.column(Place::Event, "strl");
    for leaf in leaves {
        if let Some(there) = fewer_than(trace, leaf.set, leaf.k) {
            let kind = Kind::MoreThanSet {
                wanted: leaf.k,
                there,
            };
            add_of_job(alloc, seen, job, kind, column, linted)?;
        }
    }
    Ok(())
}

// Whether a set has enough nodes that are open for a whole run. `looks` counts the look-ups down; where none is left the answer is yes.
fn has_open(trace: &Trace, leaf: &Leaf, needed: u32, looks: &mut u64) -> bool {
    if leaf.set >= trace.sets.len() {
        return true;
    }
    let mut open = 0u32;
    for node in trace.sets.nodes_of(leaf.set).as_slice() {
        if open >= needed || *looks == 0 {
            return true;
        }
        *looks -= 1;
        if !trace.closures.is_closed_within(*node, leaf.start, leaf.dur) {
            open = open.saturating_add(1);
        }
    }
    open >= needed
}

// How many nodes a leaf needs to earn anything.
fn needed(leaf: &Leaf) -> u32 {
    if leaf.linear { 1 } else { leaf.k }
}

// Whether a leaf could be served if nothing were closed.
fn has_nodes(trace: &Trace, leaf: &Leaf) -> bool {
    leaf.set < trace.sets.len() && !is_more_than_set(&trace.sets, leaf.set, needed(leaf))
}

// Whether closures alone keep each of these leaves from being served.
fn are_closed(trace: &Trace, leaves: &[Leaf], looks: &mut u64) -> bool {
    let mut is_kept = false;
    for leaf in leaves {
        if has_nodes(trace, leaf) {
            if has_open(trace, leaf, needed(leaf), looks) {
                return false;
            }
            is_kept = true;
        }
    }
    is_kept
}

// The leaf of an ask with this start.
fn leaf_at(ask: &Ask, place: Prefer, start: u32) -> Leaf {
    Leaf {
        num: 0,
        set: place.set,
        k: ask.k,
        start,
        dur: place.dur,
        v: ask.value,
        linear: ask.elastic,
    }
}

// Whether closures keep an ask from being served on one of its sets, whenever it starts.
fn is_closed_on(trace: &Trace, job: &Job, ask: &Ask, place: Prefer, looks: &mut u64) -> bool {
    let first = leaf_at(ask, place, job.arrival);
    if !has_nodes(trace, &first) {
        return true;
    }
    let waits = ask.deadline.saturating_sub(place.dur).saturating_add(1);
    let end = job.arrival.saturating_add(waits).min(trace.header.until);
    if ask.deadline < place.dur {
        return true;
    }
    for start in job.arrival..end {
        if has_open(trace, &leaf_at(ask, place, start), needed(&first), looks) {
            return false;
        }
    }
    true
}

// Whether a set of an ask has enough nodes, and its run there is short enough.
fn is_possible(trace: &Trace, job: &Job, ask: &Ask, place: Prefer) -> bool {
    place.dur <= ask.deadline && has_nodes(trace, &leaf_at(ask, place, job.arrival))
}

// Whether closures alone keep an ask from ever being served.
fn is_ask_closed(trace: &Trace, job: &Job, ask: &Ask, looks: &mut u64) -> bool {
    let own = Prefer {
        set: ask.set,
        dur: ask.dur,
    };
    let preferred = ask.prefer.unwrap_or(own);
    (is_possible(trace, job, ask, own) || is_possible(trace, job, ask, preferred))
        && is_closed_on(trace, job, ask, own, looks)
        && is_closed_on(trace, job, ask, preferred, looks)
}

// What is suspicious in a job.
fn add_job(
    alloc: Global,
    trace: &Trace,
    seen: &Seen<'_>,
    job: &Job,
    looks: &mut u64,
    linted: &mut Linted,
) -> Result<(), AllocError>
    ensures { linted.new.refusal ≡ linted.old.refusal }
{
    let has_closures = !trace.closures.as_slice().is_empty();
    let is_closed = match &job.work {
        Work::Asked(ask) => {
            add_ask(alloc, trace, seen, job, ask, linted)?;
            has_closures && is_ask_closed(trace, job, ask, looks)
        }
        Work::Strl(expr) => {
            let mut leaves = Vec::new(alloc);
            push_leaves(expr, &mut leaves)?;
            add_leaves(alloc, trace, seen, job, &leaves, linted)?;
            has_closures && are_closed(trace, &leaves, looks)
        }
    };
    if is_closed {
        let column = seen.column(Place::Event, "arrive");
        add_of_job(alloc, seen, job, Kind::NeverStarts, column, linted)?;
    }
    Ok(())
}

// The job that an event brings.
fn arriving(trace: &Trace, event: usize) -> Option<&Job> {
    let event = trace.events.get(event)?;
    match event.what {
        Happening::Arrive(job) => trace.jobs.as_slice().get(job as usize),
        _ => None,
    }
}

// What is suspicious in a line, behind so many lines that are not blank.
fn add_line(
    alloc: Global,
    trace: &Trace,
    number: u64,
    line: &[u8],
    before: usize,
    looks: &mut u64,
    linted: &mut Linted,
) -> Result<(), AllocError>
    ensures { linted.new.refusal ≡ linted.old.refusal }
{
    let place = if before == 0 {
        Place::Header
    } else {
        Place::Event
    };
    let keys = keys_of(alloc, line, place)?;
    let seen = Seen {
        number,
        line,
        keys: &keys,
    };
    add_keys(alloc, &seen, linted)?;
    if before == 0 {
        return add_header_findings(alloc, trace, &seen, linted);
    }
    match arriving(trace, before - 1) {
        Some(job) => add_job(alloc, trace, &seen, job, looks, linted),
        None => Ok(()),
    }
}

/// What is suspicious in a trace with this text.
pub(crate) fn findings_in(
    alloc: Global,
    trace: &Trace,
    text: &[u8],
    linted: &mut Linted,
) -> Result<(), AllocError>
    ensures { linted.new.refusal ≡ linted.old.refusal }
{
    let mut before = 0usize;
    let mut number = 0u64;
    let mut looks = LOOKS_MOST;
    for line in text.split(|b| *b == b'\n') {
        number = number.saturating_add(1);
        if !line.iter().all(|b| is_blank(*b)) {
            add_line(alloc, trace, number, line, before, &mut looks, linted)?;
            before = before.saturating_add(1);
        }
    }
    Ok(())
}
