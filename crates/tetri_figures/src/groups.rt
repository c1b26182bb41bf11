// Groups of rows.
ghost use Rattle.tetri_trace.specs.Scenario.{scenario};
ghost use Rattle.tetri_trace.specs.Sound.{IsSound};

use crate::clock::ten_minutes;
use crate::figures::{Known, Picked, figures_of, last_end};
use crate::sums::is_picked;
use crate::wide::wide_among;
use std::alloc::{AllocError, Global};
use tetri_accounts::{Account, Row, top_at};
use tetri_request::Class;
use tetri_state::Piece;
use tetri_trace::{Trace, Work};

/// A group: by place which rows are in it, and by number which jobs and which nodes. Without nodes all nodes are.
#[derive(Drop)]
pub(crate) struct Group {
    pub(crate) rows: Vec<bool>,
    pub(crate) jobs: Vec<bool>,
    pub(crate) nodes: Option<Vec<bool>>,
}

/// What figures take of a trace besides its run.
#[derive(Drop)]
pub(crate) struct Facts {
    /// By job, the most that it could earn as it arrived.
    pub(crate) tops: Vec<u64>,
    /// How many slots ten minutes take.
    pub(crate) ten_minutes: u32,
}

/// The name of a job's class. An expression has none of an ask's.
pub(crate) fn class_of(trace: &Trace, job: u32) -> &'static str {
    match trace.jobs.as_slice().get(job as usize) {
        Some(job) => match &job.work {
            Work::Strl(_) => "expression",
            Work::Asked(ask) => match ask.class {
                Class::Steady => "steady",
                Class::Decay => "decay",
            },
        },
        None => "",
    }
}

/// All rows, jobs and nodes.
pub(crate) fn group_of_all(
    alloc: Global,
    trace: &Trace,
    rows: &[Row],
) -> Result<Group, AllocError> {
    Ok(Group {
        rows: vec![in alloc; true; rows.len()]?,
        jobs: vec![in alloc; true; trace.jobs.len()]?,
        nodes: None,
    })
}

// Puts the job among those that are picked.
fn pick(jobs: &mut Vec<bool>, job: u32) {
    if let Some(picked) = jobs.get_mut(job as usize) {
        *picked = true;
    }
}

/// The rows of the jobs of a class.
pub(crate) fn group_of_class(
    alloc: Global,
    trace: &Trace,
    rows: &[Row],
    class: &str,
) -> Result<Group, AllocError> {
    let mut picked = Vec::new(alloc);
    let mut jobs = vec![in alloc; false; trace.jobs.len()]?;
    for row in rows {
        let is = class_of(trace, row.job) == class;
        if is {
            pick(&mut jobs, row.job);
        }
        picked.push(is)?;
    }
    Ok(Group {
        rows: picked,
        jobs,
        nodes: None,
    })
}

// By node, whether it has a tag.
fn nodes_with(alloc: Global, trace: &Trace, tag: &str) -> Result<Vec<bool>, AllocError> {
    let mut nodes = Vec::new(alloc);
    for node in 0..trace.cluster.count() {
        nodes.push(trace.cluster.has_tag(node, tag.as_bytes()))?;
    }
    Ok(nodes)
}

// Whether all nodes of the pieces are picked, of which there is one.
fn run_within(pieces: &[Piece], nodes: &[bool]) -> bool {
    !pieces.is_empty()
        && pieces.iter().all(|p| p
            .nodes
            .as_slice()
            .iter()
            .all(|n| is_picked(nodes, *n as usize)))
}

/// The launches that ran on nodes with a tag alone.
pub(crate) fn group_of_tag(
    alloc: Global,
    trace: &Trace,
    rows: &[Row],
    tag: &str,
) -> Result<Group, AllocError> {
    let nodes = nodes_with(alloc, trace, tag)?;
    let mut picked = Vec::new(alloc);
    let mut jobs = vec![in alloc; false; trace.jobs.len()]?;
    for row in rows {
        let is = run_within(row.pieces.as_slice(), &nodes);
        if is {
            pick(&mut jobs, row.job);
        }
        picked.push(is)?;
    }
    Ok(Group {
        rows: picked,
        jobs,
        nodes: Some(nodes),
    })
}

// By job, the most that it could earn as it arrived.
fn tops_of(alloc: Global, trace: &Trace) -> Result<Vec<u64>, AllocError>
    requires { IsSound (scenario trace.now) }
{
    let mut tops = Vec::new(alloc);
    for job in 0..trace.jobs.len() as u32 {
        tops.push(top_at(alloc, trace, job)?)?;
    }
    Ok(tops)
}

/// What figures take of a trace besides its run, with slots of so many seconds, if that is known.
pub(crate) fn facts_of(
    alloc: Global,
    trace: &Trace,
    slot_seconds: Option<u64>,
) -> Result<Facts, AllocError>
    requires { IsSound (scenario trace.now) }
{
    Ok(Facts {
        tops: tops_of(alloc, trace)?,
        ten_minutes: ten_minutes(slot_seconds),
    })
}

/// The figures of a group.
pub(crate) fn figures_in(
    alloc: Global,
    trace: &Trace,
    account: &Account,
    group: &Group,
    facts: &Facts,
) -> Result<Vec<String>, AllocError> {
    let rows = account.rows.as_slice();
    let known = Known {
        tops: facts.tops.as_slice(),
        last: last_end(trace, rows),
        ten_minutes: facts.ten_minutes,
    };
    let wide = wide_among(alloc, trace, rows, group.rows.as_slice())?;
    let picked = Picked {
        rows: group.rows.as_slice(),
        wide: wide.as_slice(),
        jobs: group.jobs.as_slice(),
        nodes: match &group.nodes {
            Some(nodes) => Some(nodes.as_slice()),
            None => None,
        },
    };
    figures_of(alloc, trace, account, picked, known)
}
