// What is suspicious in a header, seen beside the jobs.
ghost use Rattle.std.specs.Prelude.{◌≡◌};

use crate::finding::{Finding, Kind, Linted};
use crate::jobs::Seen;
use crate::keys::Place;
use std::alloc::{AllocError, Global};
use tetri_request::Ask;
use tetri_trace::{Job, Trace, Work};

// Marks the nodes that some set has.
fn named_nodes(alloc: Global, trace: &Trace) -> Result<Vec<bool>, AllocError> {
    let count = trace.cluster.count() as usize;
    let mut named = vec![in alloc; false; count]?;
    for set in 0..trace.sets.len() {
        for node in trace.sets.nodes_of(set).as_slice() {
            let node = *node as usize;
            if node < named.len() {
                named[node] = true;
            }
        }
    }
    Ok(named)
}

// Says that nodes are in no set, where there are jobs.
fn add_unnamed(
    alloc: Global,
    trace: &Trace,
    seen: &Seen<'_>,
    linted: &mut Linted,
) -> Result<(), AllocError>
    ensures { linted.new.refusal ≡ linted.old.refusal }
{
    if trace.jobs.len() == 0 {
        return Ok(());
    }
    let named = named_nodes(alloc, trace)?;
    let mut count = 0u32;
    let mut first = None;
    for (node, is_named) in named.iter().enumerate() {
        if !*is_named {
            count = count.saturating_add(1);
            if first.is_none() {
                first = Some(node);
            }
        }
    }
    match first {
        Some(node) if node < trace.cluster.count() as usize => linted.add(Finding {
            line: seen.number,
            column: seen.column(Place::Header, "nodes"),
            kind: Kind::UnnamedNodes { count },
            name: String::from_str(alloc, trace.cluster.name_of(node as u32).text())?,
            near: Vec::new(alloc),
        }),
        _ => Ok(()),
    }
}

// How long a start of an ask may wait.
fn wait_of(ask: &Ask) -> u32 {
    let dur = match ask.prefer {
        Some(prefer) => ask.dur.min(prefer.dur),
        None => ask.dur,
    };
    ask.deadline.saturating_sub(dur)
}

// How long a start of a job may wait for its ask.
fn wait_of_job(job: &Job) -> u32 {
    match &job.work {
        Work::Asked(ask) => wait_of(ask),
        Work::Strl(_) => 0,
    }
}

// The longest wait of a job, and the job.
fn longest(trace: &Trace) -> Option<(u32, usize)> {
    let mut most = 0u32;
    let mut place = None;
    for (i, job) in trace.jobs.as_slice().iter().enumerate() {
        let wait = wait_of_job(job);
        if wait > most {
            most = wait;
            place = Some(i);
        }
    }
    Some((most, place?))
}

// Says that the window is short.
fn add_short(
    alloc: Global,
    trace: &Trace,
    seen: &Seen<'_>,
    linted: &mut Linted,
) -> Result<(), AllocError>
    ensures { linted.new.refusal ≡ linted.old.refusal }
{
    let window = trace.header.window;
    let Some((wait, place)) = longest(trace) else {
        return Ok(());
    };
    match trace.jobs.as_slice().get(place) {
        Some(job) if wait >= window => linted.add(Finding {
            line: seen.number,
            column: seen.column(Place::Header, "window"),
            kind: Kind::ShortWindow { window, wait },
            name: String::from_str(alloc, job.name.text())?,
            near: Vec::new(alloc),
        }),
        _ => Ok(()),
    }
}

/// Says what is suspicious in a header.
pub(crate) fn add_header_findings(
    alloc: Global,
    trace: &Trace,
    seen: &Seen<'_>,
    linted: &mut Linted,
) -> Result<(), AllocError>
    ensures { linted.new.refusal ≡ linted.old.refusal }
{
    add_unnamed(alloc, trace, seen, linted)?;
    add_short(alloc, trace, seen, linted)
}
