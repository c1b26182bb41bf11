// A line of what `sacct` prints with `--parsable2` or `--parsable`.
ghost use Rattle.std.specs.Prelude.{◌≡◌, IfOk, None, OnOk, map};
ghost use Rattle.tetri_logs.specs.Times.{IsDay, seconds_in};
ghost use Rattle.tetri_logs.specs.Sacct.{cell, elapsed, exact_count, is_cancelled, is_row, is_step, is_unknown, moment_in, needed_moment, nodes_in, pointed, processors_in, row_of, sacct_account, told_cell, without_return};

use crate::account::{Account, Columns, account_of, positive};
use crate::entry::Cause;
use crate::header::Header;
use crate::limits::limit_in;
use crate::tasks::before_bracket;
use crate::times::{Day, seconds_by};
use crate::words::{count_in, has_byte, is_text, parts_of, word_at};
use std::alloc::{AllocError, Global};
use tetri_io::digits_below;

/// The line without the carriage return at its end.
pub(crate) fn without_return(line: &[u8]) -> &[u8]
    ensures { result.now ≡ without_return line.now }
{
    match line.split_last() {
        Some((b'\r', rest)) => rest,
        _ => line,
    }
}

/// Puts what stands in a line between its bars in the place of another row. Its only error is want of memory.
#[inline(always)]
pub(crate) fn row_of<'a>(row: &mut Vec<&'a [u8]>, line: &'a [u8]) -> Result<(), AllocError>
    ensures { OnOk result (map (λ x. x.now) row.new.items ≡ row_of line.now) }
{
    parts_of(row, b'|', without_return(line))
}

/// What stands in a column, counted from 1.
#[inline(always)]
pub(crate) fn cell<'a>(row: &[&'a [u8]], column: usize) -> &'a [u8]
    ensures { result.now ≡ cell (map (λ w. w.now) row.now) column }
{
    word_at(row, column.saturating_sub(1))
}

/// What stands in a column, where it is told.
#[inline(always)]
pub(crate) fn told_cell<'a>(row: &[&'a [u8]], column: Option<usize>) -> &'a [u8]
    ensures { result.now ≡ told_cell (map (λ w. w.now) row.now) column }
{
    match column {
        Some(column) => cell(row, column),
        None => b"",
    }
}

// As many columns as the header names; a bar at the line's end may be there.
#[inline(always)]
fn is_row(header: &Header, row: &[&[u8]]) -> bool
    ensures { result ≡ is_row header.now (map (λ w. w.now) row.now) }
{
    row.len() == header.count
        || (row.len().saturating_sub(1) == header.count && word_at(row, header.count).is_empty())
}

// Whether an identifier is that of a step of a job.
#[inline(always)]
fn is_step(id: &[u8]) -> bool
    ensures { result ≡ is_step id.now }
{
    has_byte(id, b'.') && before_bracket(id).is_none()
}

// A point in the place of a plus.
fn pointed(b: u8) -> u8
    ensures { result ≡ pointed b }
{
    if b == b'+' { b'.' } else { b }
}

/// The name that an identifier gives, where it has a plus in it. Its only error is want of memory.
pub(crate) fn pointed_id(alloc: Global, id: &[u8]) -> Result<Vec<u8>, AllocError>
    ensures { IfOk result (λ v. v.items ≡ map pointed id.now) }
{
    id.iter().map(|b| pointed(*b)).collect(alloc)
}

// Whether a moment is not known.
#[inline(always)]
fn is_unknown(text: &[u8]) -> bool
    ensures { result ≡ is_unknown text.now }
{
    is_text(text, "Unknown") || is_text(text, "None") || text.is_empty()
}

// The moment that has to be there, in a column.
#[inline(always)]
fn needed_moment<'a>(last: &mut Day<'a>, column: usize, text: &'a [u8]) -> Result<u32, Cause>
    requires { IsDay last.old }
    ensures value { result ≡ needed_moment column text.now }
    ensures last { IsDay last.new }
{
    match seconds_by(last, text) {
        Some(seconds) => Ok(seconds),
        None => Err(Cause::Unreadable(column)),
    }
}

// What a text in a column is that is no moment.
#[inline(never)]
fn no_moment(column: usize, text: &[u8]) -> Result<Option<u32>, Cause>
    requires { seconds_in text.now ≡ None }
    ensures { result ≡ moment_in column text.now }
{
    if is_unknown(text) {
        Ok(None)
    } else {
        Err(Cause::Unreadable(column))
    }
}

// A moment in a column, where it is known. What stands for none is no moment, so that it is looked at last.
#[inline(always)]
#[tactic(auto, using(crate::proofs::DayLemmas::known_moment))]
fn moment_in<'a>(last: &mut Day<'a>, column: usize, text: &'a [u8]) -> Result<Option<u32>, Cause>
    requires { IsDay last.old }
    ensures value { result ≡ moment_in column text.now }
    ensures last { IsDay last.new }
{
    match seconds_by(last, text) {
        Some(seconds) => Ok(Some(seconds)),
        None => no_moment(column, text),
    }
}

// A number, which may be printed as `4K` for 4096.
#[inline(always)]
fn exact_count(text: &[u8]) -> Option<u32>
    ensures { result ≡ exact_count text.now }
{
    match text.split_last() {
        Some((b'K', rest)) => match digits_below(4_194_304, rest) {
            Some(number) => Some((number * 1024) as u32),
            None => None,
        },
        _ => count_in(text),
    }
}

// How many nodes a job has, one at least.
#[inline(always)]
fn nodes_in(column: usize, text: &[u8]) -> Result<u32, Cause>
    ensures { result ≡ nodes_in column text.now }
{
    if text.is_empty() {
        return Err(Cause::NoNodes);
    }
    match exact_count(text) {
        Some(0) => Err(Cause::NoNodes),
        Some(nodes) => Ok(nodes),
        None => Err(Cause::Unreadable(column)),
    }
}

// How many processors a job asked for, where it is known.
#[inline(always)]
fn processors_in(column: Option<usize>, row: &[&[u8]]) -> Option<u32>
    ensures { result ≡ processors_in column (map (λ w. w.now) row.now) }
{
    match column {
        Some(column) => positive(exact_count(cell(row, column))),
        None => None,
    }
}

// The seconds from one moment to another, where both are known.
fn elapsed(from: Option<u32>, to: Option<u32>) -> Result<Option<u32>, Cause>
    ensures { result ≡ elapsed from to }
{
    match (from, to) {
        (Some(from), Some(to)) if to < from => Err(Cause::Backwards),
        (Some(from), Some(to)) => Ok(Some(to - from)),
        _ => Ok(None),
    }
}

// A reason may stand behind the state.
#[inline(always)]
fn is_cancelled(state: &[u8]) -> bool
    ensures { result ≡ is_cancelled state.now }
{
    match state {
        [b'C', b'A', ..] => state.starts_with(b"CANCELLED"),
        _ => false,
    }
}

/// What the columns of a line say of a job, or why it is left out.
#[inline(always)]
#[tactic(auto, unfolding(crate::specs::Sacct::sacct_account))]
pub(crate) fn sacct_account<'a>(
    last: &mut Day<'a>,
    header: &Header,
    row: &[&'a [u8]],
) -> Result<Account, Cause>
    requires { IsDay last.old }
    ensures value { result ≡ sacct_account header.now (map (λ w. w.now) row.now) }
    ensures last { IsDay last.new }
{
    if !is_row(header, row) {
        return Err(Cause::Unreadable(row.len().min(header.count) + 1));
    }
    if is_step(cell(row, header.id)) {
        return Err(Cause::Step);
    }
    let submit = needed_moment(last, header.submit, cell(row, header.submit))?;
    let start = moment_in(last, header.start, cell(row, header.start))?;
    let end = moment_in(last, header.end, cell(row, header.end))?;
    let limit = limit_in(header.in_minutes, header.limit, cell(row, header.limit))?;
    let nodes = nodes_in(header.nodes, cell(row, header.nodes))?;
    let ran = elapsed(start, end)?;
    let wait = elapsed(Some(submit), end)?;
    Ok(account_of(Columns {
        submit,
        nodes: Some(nodes),
        processors: processors_in(header.processors, row),
        limit,
        ran,
        wait,
        cancelled: is_cancelled(cell(row, header.state)),
    }))
}
