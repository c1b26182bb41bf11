// The figures of a run.
ghost use Rattle.tetri_trace.specs.Scenario.{scenario};
ghost use Rattle.tetri_trace.specs.Sound.{IsSound};

use crate::bounds::Bounds;
use crate::cells::{NOTHING, number_cell, text_cell};
use crate::columns::{Column, columns_text};
use crate::figures::{FIGURES, last_end};
use crate::format::Format;
use crate::groups::{
    Facts, Group, facts_of, figures_in, group_of_all, group_of_class, group_of_tag,
};
use crate::sums::{gaps, is_picked};
use std::alloc::{AllocError, Global};
use tetri_accounts::{Account, CycleNote};
use tetri_cert::PlanMark;
use tetri_trace::Trace;

/// By what the rows of a run are grouped.
#[derive(Clone, Copy, Debug, PartialEq, Eq)]
pub enum By {
    /// Not at all.
    Nothing,
    /// By the tags of the nodes that they ran on.
    Tag,
    /// By the classes of their jobs.
    Class,
}

// The names of the figures of cycles.
const CYCLE_FIGURES: [&str; 8] = [
    "last end",
    "cycles",
    "without jobs",
    "searched to the optimum",
    "optimal by tops",
    "cut short",
    "wide",
    "gaps",
];

// The names of the figures of bounds that prices make.
const PRICED_FIGURES: [&str; 2] = ["priced bounds", "priced gaps"];

// The classes, in the order of their columns.
const CLASSES: [&str; 3] = ["steady", "decay", "expression"];

// Adds names.
fn add_names(
    alloc: Global,
    more: &[&'static str],
    names: &mut Vec<String>,
) -> Result<(), AllocError> {
    for name in more {
        names.push(text_cell(alloc, name)?)?;
    }
    Ok(())
}

/// The names of all figures, with those of bounds that prices make where these are told.
pub(crate) fn names_of(alloc: Global, priced: bool) -> Result<Vec<String>, AllocError> {
    let mut names = Vec::new(alloc);
    add_names(alloc, FIGURES.as_slice(), &mut names)?;
    add_names(alloc, CYCLE_FIGURES.as_slice(), &mut names)?;
    if priced {
        add_names(alloc, PRICED_FIGURES.as_slice(), &mut names)?;
    }
    Ok(names)
}

/// Whether bounds that prices make are known.
pub(crate) fn are_priced(bounds: Bounds) -> bool {
    match bounds {
        Bounds::Absent | Bounds::Printed => false,
        Bounds::Priced(_) => true,
    }
}

// How many cycles are so.
fn count_of<F: Fn(&CycleNote) -> bool>(cycles: &[CycleNote], is: F) -> u128
    requires { F.IsAlwaysCallable is }
{
    let mut count: u128 = 0;
    for cycle in cycles {
        if is(cycle) {
            count = count.saturating_add(1);
        }
    }
    count
}

fn count_cell<F: Fn(&CycleNote) -> bool>(
    alloc: Global,
    cycles: &[CycleNote],
    is: F,
) -> Result<String, AllocError>
    requires { F.IsAlwaysCallable is }
{
    number_cell(alloc, count_of(cycles, is))
}

// A number that bounds give, or what stands for none where a run has none.
fn bound_cell(alloc: Global, bounds: Bounds, number: u128) -> Result<String, AllocError> {
    match bounds {
        Bounds::Absent => text_cell(alloc, NOTHING),
        Bounds::Printed | Bounds::Priced(_) => number_cell(alloc, number),
    }
}

// Adds the figures of bounds that prices make, where these are known.
fn add_priced(alloc: Global, bounds: Bounds, cells: &mut Vec<String>) -> Result<(), AllocError> {
    if let Bounds::Priced(sums) = bounds {
        cells.push(number_cell(alloc, sums.bound)?)?;
        cells.push(number_cell(alloc, sums.gap)?)?;
    }
    Ok(())
}

/// Adds the figures of the cycles of an account.
pub(crate) fn add_cycle_figures(
    alloc: Global,
    trace: &Trace,
    account: &Account,
    bounds: Bounds,
    cells: &mut Vec<String>,
) -> Result<(), AllocError> {
    let cycles = account.cycles.as_slice();
    let last = last_end(trace, account.rows.as_slice());
    cells.push(number_cell(alloc, u128::from(last))?)?;
    cells.push(number_cell(alloc, cycles.len() as u128)?)?;
    cells.push(count_cell(alloc, cycles, |c| c.jobs == 0)?)?;
    cells.push(count_cell(alloc, cycles, |c| {
        c.jobs > 0 && c.mark == PlanMark::Optimal && c.nodes > 0
    })?)?;
    cells.push(count_cell(alloc, cycles, |c| {
        c.jobs > 0 && c.mark == PlanMark::Optimal && c.nodes == 0
    })?)?;
    cells.push(count_cell(alloc, cycles, |c| c.mark == PlanMark::Spent)?)?;
    let wide = count_of(cycles, |c| c.mark == PlanMark::Wide);
    cells.push(bound_cell(alloc, bounds, wide)?)?;
    cells.push(bound_cell(alloc, bounds, gaps(cycles))?)?;
    add_priced(alloc, bounds, cells)
}

/// The column of a whole run.
pub(crate) fn whole_column(
    alloc: Global,
    trace: &Trace,
    account: &Account,
    bounds: Bounds,
    facts: &Facts,
    name: &str,
) -> Result<Column, AllocError> {
    let group = group_of_all(alloc, trace, account.rows.as_slice())?;
    let mut cells = figures_in(alloc, trace, account, &group, facts)?;
    add_cycle_figures(alloc, trace, account, bounds, &mut cells)?;
    Ok(Column {
        name: text_cell(alloc, name)?,
        cells,
    })
}

// The column of a group.
fn group_column(
    alloc: Global,
    trace: &Trace,
    account: &Account,
    facts: &Facts,
    group: &Group,
    name: &str,
) -> Result<Column, AllocError> {
    Ok(Column {
        name: text_cell(alloc, name)?,
        cells: figures_in(alloc, trace, account, group, facts)?,
    })
}

// Adds a column for each tag.
fn add_tags(
    alloc: Global,
    trace: &Trace,
    account: &Account,
    facts: &Facts,
    tags: &[String],
    columns: &mut Vec<Column>,
) -> Result<(), AllocError> {
    for tag in tags {
        let name = tag.as_str();
        let group = group_of_tag(alloc, trace, account.rows.as_slice(), name)?;
        columns.push(group_column(alloc, trace, account, facts, &group, name)?)?;
    }
    Ok(())
}

// Whether one is picked.
fn some_picked(picked: &[bool]) -> bool {
    (0..picked.len()).any(|place| is_picked(picked, place))
}

// Adds a column for each class that a job has.
fn add_classes(
    alloc: Global,
    trace: &Trace,
    account: &Account,
    facts: &Facts,
    columns: &mut Vec<Column>,
) -> Result<(), AllocError> {
    for name in &CLASSES {
        let group = group_of_class(alloc, trace, account.rows.as_slice(), name)?;
        if some_picked(group.rows.as_slice()) {
            columns.push(group_column(alloc, trace, account, facts, &group, name)?)?;
        }
    }
    Ok(())
}

/// The figures of a run of the trace, whose slots have so many seconds, if that is known: of all of it, and of each group. Its only error is
/// want of memory.
pub fn stats_text(
    alloc: Global,
    trace: &Trace,
    slot_seconds: Option<u64>,
    account: &Account,
    bounds: Bounds,
    by: By,
    tags: &[String],
    format: Format,
) -> Result<Vec<u8>, AllocError>
    requires { IsSound (scenario trace.now) }
{
    let facts = facts_of(alloc, trace, slot_seconds)?;
    let names = names_of(alloc, are_priced(bounds))?;
    let mut columns = Vec::new(alloc);
    columns.push(whole_column(alloc, trace, account, bounds, &facts, "all")?)?;
    match by {
        By::Nothing => {}
        By::Tag => add_tags(alloc, trace, account, &facts, tags, &mut columns)?,
        By::Class => add_classes(alloc, trace, account, &facts, &mut columns)?,
    }
    columns_text(alloc, "figure", &names, &columns, format)
}
