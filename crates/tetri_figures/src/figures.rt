// Figures of rows of an account.
ghost use Rattle.std.specs.Prelude.{option_map};
ghost use Rattle.tetri_figures.specs.Figures.{AreCounts};
ghost use Rattle.tetri_trace.specs.Scenario.{scenario};

use crate::cells::{NOTHING, mean_cell, number_cell, quotient, text_cell, thousandths_cell};
use crate::sums::{Part, greatest_wait, is_picked, node_slots, offered, part_of, sum_over};
use std::alloc::{AllocError, Global};
use tetri_accounts::{Account, Outcome, Row, wait_of};
use tetri_trace::Trace;

/// The names of the figures of rows.
pub(crate) const FIGURES: [&str; 25] = [
    "jobs",
    "launches",
    "ran",
    "overran",
    "failed",
    "cancelled",
    "expired",
    "waiting",
    "running",
    "wait mean",
    "wait median",
    "wait 90th",
    "wait greatest",
    "all jobs wait mean",
    "all jobs wait median",
    "all jobs wait 90th",
    "all jobs wait greatest",
    "wide jobs wait mean",
    "slowdown mean",
    "bounded slowdown mean",
    "node slots",
    "use",
    "worth launched",
    "worth kept",
    "worth offered",
];

/// Which rows, which of these as those of wide jobs, which jobs and which nodes are counted: rows by place, jobs and nodes by number. Without
/// nodes all are.
#[derive(Clone, Copy)]
pub(crate) struct Picked<'a> {
    pub(crate) rows: &'a [bool],
    pub(crate) wide: &'a [bool],
    pub(crate) jobs: &'a [bool],
    pub(crate) nodes: Option<&'a [bool]>,
}

/// What is known of an account besides its rows: the tops of the jobs as they arrived, the slot in which the last launch ended, and how many
/// slots ten minutes are.
#[derive(Clone, Copy)]
pub(crate) struct Known<'a> {
    pub(crate) tops: &'a [u64],
    pub(crate) last: u32,
    pub(crate) ten_minutes: u32,
}

/// What is counted of rows.
#[derive(Clone, Copy, Debug, PartialEq, Eq)]
pub(crate) struct Counts {
    /// The rows of each outcome, in the order of the figures.
    pub(crate) outcomes: [u128; 7],
    /// The launches.
    pub(crate) launches: u128,
    /// The slots that they waited.
    pub(crate) waited: u128,
    /// The greatest wait.
    pub(crate) greatest: u64,
    /// The launches, and the jobs without one that were not cancelled.
    pub(crate) waiters: u128,
    /// The slots that they waited.
    pub(crate) waited_whole: u128,
    /// The greatest of these waits.
    pub(crate) greatest_whole: u64,
    /// Those of wide jobs.
    pub(crate) wide: u128,
    /// The slots that these waited.
    pub(crate) waited_wide: u128,
    /// The launches that ended by themselves.
    pub(crate) ended: u128,
    /// Their slowdowns, in thousandths.
    pub(crate) slowdowns: u128,
    /// The slowdowns of all launches, in thousandths, bounded at ten minutes.
    pub(crate) bounded: u128,
    /// The node slots that pieces took.
    pub(crate) used: u128,
    /// What launches were worth.
    pub(crate) launched: u128,
    /// The same, but for those that failed or were cancelled.
    pub(crate) kept: u128,
    /// The tops of the jobs.
    pub(crate) offered: u128,
}

// The counts of the rows that are picked.
fn counts_of(trace: &Trace, rows: &[Row], picked: Picked<'_>, known: Known<'_>) -> Counts
    ensures { AreCounts (scenario trace.entry.now) picked.entry.rows.now picked.entry.wide.now picked.entry.jobs.now
        (option_map (λ m. m.now) picked.entry.nodes) rows.entry.now known.entry.tops.now known.entry.ten_minutes result }
{
    let marks = picked.rows;
    let wide = picked.wide;
    Counts {
        outcomes: [
            sum_over(trace, rows, marks, Part::With(Outcome::Ran)),
            sum_over(trace, rows, marks, Part::With(Outcome::Overran)),
            sum_over(trace, rows, marks, Part::With(Outcome::Failed)),
            sum_over(trace, rows, marks, Part::With(Outcome::Cancelled)),
            sum_over(trace, rows, marks, Part::With(Outcome::Expired)),
            sum_over(trace, rows, marks, Part::With(Outcome::Waiting)),
            sum_over(trace, rows, marks, Part::With(Outcome::Running)),
        ],
        launches: sum_over(trace, rows, marks, Part::Launches),
        waited: sum_over(trace, rows, marks, Part::Waits),
        greatest: greatest_wait(trace, rows, marks, Part::Waits),
        waiters: sum_over(trace, rows, marks, Part::Waiters),
        waited_whole: sum_over(trace, rows, marks, Part::WholeWaits),
        greatest_whole: greatest_wait(trace, rows, marks, Part::WholeWaits),
        wide: sum_over(trace, rows, wide, Part::Waiters),
        waited_wide: sum_over(trace, rows, wide, Part::WholeWaits),
        ended: sum_over(trace, rows, marks, Part::Ended),
        slowdowns: sum_over(trace, rows, marks, Part::Slowdowns),
        bounded: sum_over(trace, rows, marks, Part::Bounded(known.ten_minutes)),
        used: node_slots(trace, rows, marks, picked.nodes),
        launched: sum_over(trace, rows, marks, Part::Worth),
        kept: sum_over(trace, rows, marks, Part::Kept),
        offered: offered(picked.jobs, known.tops),
    }
}

// The waits of the rows that are picked and that this part counts, ascending.
fn waits_of(
    alloc: Global,
    trace: &Trace,
    rows: &[Row],
    marks: &[bool],
    who: Part,
) -> Result<Vec<u32>, AllocError> {
    let mut waits = Vec::new(alloc);
    for (place, row) in rows.iter().enumerate() {
        if is_picked(marks, place) && part_of(trace, who, row) > 0 {
            waits.push(wait_of(trace, row))?;
        }
    }
    waits.sort()?;
    Ok(waits)
}

// The least of the ascending numbers that so many percent of them do not exceed.
fn ranked(ascending: &[u32], percent: usize) -> Option<u32> {
    let rank = percent.saturating_mul(ascending.len()).div_ceil(100);
    if rank == 0 {
        None
    } else {
        ascending.get(rank - 1).copied()
    }
}

fn ranked_cell(alloc: Global, ascending: &[u32], percent: usize) -> Result<String, AllocError> {
    match ranked(ascending, percent) {
        Some(number) => number_cell(alloc, u128::from(number)),
        None => text_cell(alloc, NOTHING),
    }
}

// Adds the figures of waits, which ascend: of how many they are, the waits added up, and the greatest.
fn add_waits(
    alloc: Global,
    count: u128,
    waited: u128,
    greatest: u64,
    waits: &[u32],
    cells: &mut Vec<String>,
) -> Result<(), AllocError> {
    cells.push(mean_cell(alloc, waited, count)?)?;
    cells.push(ranked_cell(alloc, waits, 50)?)?;
    cells.push(ranked_cell(alloc, waits, 90)?)?;
    let greatest = if count == 0 {
        text_cell(alloc, NOTHING)?
    } else {
        number_cell(alloc, u128::from(greatest))?
    };
    cells.push(greatest)?;
    Ok(())
}

// Adds the figures of the waits of launches, of all jobs, and of wide ones.
fn add_all_waits(
    alloc: Global,
    trace: &Trace,
    rows: &[Row],
    marks: &[bool],
    counts: &Counts,
    cells: &mut Vec<String>,
) -> Result<(), AllocError> {
    let (count, waited, greatest) = (counts.launches, counts.waited, counts.greatest);
    let waits = waits_of(alloc, trace, rows, marks, Part::Launches)?;
    add_waits(alloc, count, waited, greatest, &waits, cells)?;
    let (count, waited, greatest) = (counts.waiters, counts.waited_whole, counts.greatest_whole);
    let waits = waits_of(alloc, trace, rows, marks, Part::Waiters)?;
    add_waits(alloc, count, waited, greatest, &waits, cells)?;
    cells.push(mean_cell(alloc, counts.waited_wide, counts.wide)?)?;
    Ok(())
}

// How many are picked.
fn number_picked(picked: &[bool]) -> u128 {
    picked.iter().filter(|p| **p).count() as u128
}

// A mean of thousandths, rounded down; nothing where there is nothing to be counted.
fn thousandths_mean(alloc: Global, total: u128, count: u128) -> Result<String, AllocError> {
    if count == 0 {
        text_cell(alloc, NOTHING)
    } else {
        thousandths_cell(alloc, quotient(total, count))
    }
}

// Adds the figures of how launches fared.
fn add_fared(
    alloc: Global,
    trace: &Trace,
    counts: &Counts,
    picked: Picked<'_>,
    last: u32,
    cells: &mut Vec<String>,
) -> Result<(), AllocError> {
    cells.push(thousandths_mean(alloc, counts.slowdowns, counts.ended)?)?;
    cells.push(thousandths_mean(alloc, counts.bounded, counts.launches)?)?;
    let nodes = match picked.nodes {
        Some(nodes) => number_picked(nodes),
        None => u128::from(trace.cluster.count()),
    };
    let room = nodes.saturating_mul(u128::from(last));
    cells.push(number_cell(alloc, counts.used)?)?;
    cells.push(mean_cell(alloc, counts.used, room)?)?;
    cells.push(number_cell(alloc, counts.launched)?)?;
    cells.push(number_cell(alloc, counts.kept)?)?;
    cells.push(number_cell(alloc, counts.offered)?)?;
    Ok(())
}

/// The figures of the rows that are picked, in the order of their names.
pub(crate) fn figures_of(
    alloc: Global,
    trace: &Trace,
    account: &Account,
    picked: Picked<'_>,
    known: Known<'_>,
) -> Result<Vec<String>, AllocError> {
    let rows = account.rows.as_slice();
    let counts = counts_of(trace, rows, picked, known);
    let mut cells = Vec::new(alloc);
    cells.push(number_cell(alloc, number_picked(picked.jobs))?)?;
    cells.push(number_cell(alloc, counts.launches)?)?;
    for count in &counts.outcomes {
        cells.push(number_cell(alloc, *count)?)?;
    }
    add_all_waits(alloc, trace, rows, picked.rows, &counts, &mut cells)?;
    add_fared(alloc, trace, &counts, picked, known.last, &mut cells)?;
    Ok(cells)
}

/// The slot in which the last launch ended, or the end of the run where one runs on; 0 where there was none.
pub(crate) fn last_end(trace: &Trace, rows: &[Row]) -> u32 {
    let mut last = 0;
    for row in rows {
        if row.start.is_some() {
            last = row.end.unwrap_or(trace.header.until).max(last);
        }
    }
    last
}
