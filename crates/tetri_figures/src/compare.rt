// Runs of one trace beside one another.
ghost use Rattle.tetri_trace.specs.Scenario.{scenario};
ghost use Rattle.tetri_trace.specs.Sound.{IsSound};

use crate::bounds::Bounds;
use crate::cells::{maybe_cell, number_cell, text_cell};
use crate::columns::{Column, columns_text};
use crate::format::Format;
use crate::groups::facts_of;
use crate::stats::{are_priced, names_of, whole_column};
use std::alloc::{AllocError, Global};
use tetri_accounts::{Account, job_name};
use tetri_trace::Trace;

// How many jobs are told whose start moved.
const MOVED_MOST: usize = 10;

/// A run with its name, and what is known of the bounds of its cycles.
#[derive(Drop)]
pub struct Compared {
    pub name: String,
    pub account: Account,
    pub bounds: Bounds,
}

// A job, and by how much its start moves among the runs.
#[derive(Clone, Copy, Debug, PartialEq, Eq)]
struct Moved {
    job: u32,
    by: u32,
}

// By job, the slot of its first launch, if there is one.
fn first_starts(
    alloc: Global,
    trace: &Trace,
    account: &Account,
) -> Result<Vec<Option<u32>>, AllocError> {
    let mut starts = vec![in alloc; None; trace.jobs.len()]?;
    for row in account.rows.as_slice() {
        if let Some(start) = starts.get_mut(row.job as usize) {
            if start.is_none() {
                *start = row.start;
            }
        }
    }
    Ok(starts)
}

// By how much a job's start moves. One that never starts is taken to start as the run ends.
fn moved_by(trace: &Trace, starts: &[Vec<Option<u32>>], job: u32) -> u32 {
    let mut least = u32::MAX;
    let mut most = 0;
    for run in starts {
        let start = run.get(job as usize).copied().unwrap_or(None);
        let start = start.unwrap_or(trace.header.until);
        least = start.min(least);
        most = start.max(most);
    }
    most.saturating_sub(least)
}

// The jobs whose start moves, the one that moves most first, and of those that move as far the one with the least number.
fn moved_jobs(
    alloc: Global,
    trace: &Trace,
    starts: &[Vec<Option<u32>>],
) -> Result<Vec<Moved>, AllocError> {
    let mut moved = Vec::new(alloc);
    for job in 0..trace.jobs.len() as u32 {
        let by = moved_by(trace, starts, job);
        if by > 0 {
            moved.push(Moved { job, by })?;
        }
    }
    moved.sort_by_key(|m| u32::MAX - m.by)?;
    moved.truncate(MOVED_MOST);
    Ok(moved)
}

// The column of the starts of jobs in a run.
fn start_column(
    alloc: Global,
    name: &str,
    starts: &[Option<u32>],
    moved: &[Moved],
) -> Result<Column, AllocError> {
    let mut cells = Vec::new(alloc);
    for job in moved {
        let start = starts.get(job.job as usize).copied().unwrap_or(None);
        cells.push(maybe_cell(alloc, start.map(u64::from), "")?)?;
    }
    Ok(Column {
        name: text_cell(alloc, name)?,
        cells,
    })
}

// The names of the jobs.
fn names_in(alloc: Global, trace: &Trace, moved: &[Moved]) -> Result<Vec<String>, AllocError> {
    let mut names = Vec::new(alloc);
    for job in moved {
        names.push(text_cell(alloc, job_name(trace, job.job))?)?;
    }
    Ok(names)
}

// The column of how far jobs moved.
fn moved_column(alloc: Global, moved: &[Moved]) -> Result<Column, AllocError> {
    let mut cells = Vec::new(alloc);
    for job in moved {
        cells.push(number_cell(alloc, u128::from(job.by))?)?;
    }
    Ok(Column {
        name: text_cell(alloc, "moved")?,
        cells,
    })
}

// The starts of the jobs that moved most.
fn moved_text(
    alloc: Global,
    trace: &Trace,
    runs: &[Compared],
    format: Format,
) -> Result<Vec<u8>, AllocError> {
    let mut starts = Vec::new(alloc);
    for run in runs {
        starts.push(first_starts(alloc, trace, &run.account)?)?;
    }
    let moved = moved_jobs(alloc, trace, &starts)?;
    let mut columns = Vec::new(alloc);
    for (run, starts) in runs.iter().zip(starts.iter()) {
        let name = run.name.as_str();
        columns.push(start_column(alloc, name, starts.as_slice(), &moved)?)?;
    }
    columns.push(moved_column(alloc, &moved)?)?;
    let names = names_in(alloc, trace, &moved)?;
    columns_text(alloc, "start of", &names, &columns, format)
}

/// Runs of one trace, whose slots have so many seconds, if that is known, beside one another: their figures, and the starts of the jobs that
/// moved most. Its only error is want of memory.
pub fn compare_text(
    alloc: Global,
    trace: &Trace,
    slot_seconds: Option<u64>,
    runs: &[Compared],
    format: Format,
) -> Result<Vec<u8>, AllocError>
    requires { IsSound (scenario trace.now) }
{
    let facts = facts_of(alloc, trace, slot_seconds)?;
    let priced = runs.iter().any(|run| are_priced(run.bounds));
    let names = names_of(alloc, priced)?;
    let mut columns = Vec::new(alloc);
    for run in runs {
        let name = run.name.as_str();
        let column = whole_column(alloc, trace, &run.account, run.bounds, &facts, name)?;
        columns.push(column)?;
    }
    let mut text = columns_text(alloc, "figure", &names, &columns, format)?;
    if format != Format::Lines {
        text.push(b'\n')?;
    }
    let mut moved = moved_text(alloc, trace, runs, format)?;
    text.append(&mut moved)?;
    Ok(text)
}
