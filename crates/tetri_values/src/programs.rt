// Programs of instances: what they say, their points, their trees and their dual runs.
ghost use Rattle.std.specs.Prelude.{◌≡◌, length};
ghost use Rattle.tetri_compile.specs.Counting.{AreCountsOf};
ghost use Rattle.tetri_compile.specs.Flat.{IsCompiled};
ghost use Rattle.tetri_ip.specs.Points.{IsBetween, IsFit, IsInBox, IsPoint, bounds_of, box_of};
ghost use Rattle.tetri_space.specs.Partitions.{ArePartitionsOf, parts_of};
ghost use Rattle.tetri_space.specs.Sound.{IsSound};
ghost use Rattle.tetri_space.specs.Space.{space};

use std::alloc::{AllocError, Global};
use tetri_assign::assign;
use tetri_base::Items;
use tetri_cert::{Mark, TreeFault, Walk, bound, objective_at, read_mark};
use tetri_compile::{Compiled, Taken, compile, counts_of, size};
use tetri_ip::{Program, Region, Row, Weight, holds_point};
use tetri_num::{Frac, Past, Place};
use tetri_simplex::{Full, Outcome, Sparse, Whole, dual_run, run_on};
use tetri_space::{Instance, Partitions, find_partitions};
use tetri_strl::Allotment;
use tetri_tables::{add_debug, debug_text, grants_told};

fn weights_told(out: &mut String, weights: &[Weight]) -> Result<(), AllocError> {
    for weight in weights {
        write!(out, " {}:{}", weight.row, weight.by)?;
    }
    Ok(())
}

// Adds a point, with its multiplier and its weights by row.
fn add_best(
    out: &mut String,
    point: &[Frac],
    q: i128,
    weights: &[Weight],
) -> Result<(), AllocError> {
    out.push_str("best")?;
    for x in point {
        write!(out, " {}/{}", x.num, x.den)?;
    }
    write!(out, " by {q} of")?;
    weights_told(out, weights)
}

fn add_cut(out: &mut String, q: i128, weights: &[Weight]) -> Result<(), AllocError> {
    write!(out, "cut by {q} of")?;
    weights_told(out, weights)
}

fn add_empty(out: &mut String, weights: &[Weight]) -> Result<(), AllocError> {
    out.push_str("empty of")?;
    weights_told(out, weights)
}

fn add_past(out: &mut String, place: &Place) -> Result<(), AllocError> {
    out.push_str("past ")?;
    add_debug(out, &place.kind)?;
    write!(out, " {} {} {}", place.step, place.row, place.column)
}

fn add_outcome(out: &mut String, outcome: &Outcome) -> Result<(), AllocError> {
    match outcome {
        Outcome::Best { point, q, weights } => add_best(out, point, *q, weights),
        Outcome::Cut { q, weights } => add_cut(out, *q, weights),
        Outcome::Empty { weights } => add_empty(out, weights),
        Outcome::Past(place) => add_past(out, place),
        Outcome::Long => out.push_str("long"),
    }
}

/// The text of how a dual run ends: a best point, or that it is cut, each with its multiplier and its weights by row, that the
/// region is empty, with weights, or where a number left the range.
pub fn outcome_told(alloc: Global, outcome: &Outcome) -> Result<String, AllocError> {
    let mut out = String::new(alloc);
    add_outcome(&mut out, outcome)?;
    Ok(out)
}

// What a point earns, where no number leaves the range.
fn earned(p: &Program, point: &[Frac]) -> Result<Frac, Past> {
    let mut sum = Frac::whole(0);
    for (cost, x) in p.costs.iter().zip(point) {
        if -i128::MAX <= *cost {
            sum = sum.add(Frac::whole(*cost).mul(*x)?)?;
        }
    }
    Ok(sum)
}

fn earned_told(alloc: Global, p: &Program, point: &[Frac]) -> Result<String, AllocError> {
    match earned(p, point) {
        Ok(worth) => format!(in alloc; "best {}/{}", worth.num, worth.den),
        Err(_) => String::from_str(alloc, "past"),
    }
}

// What the best point of a dual run earns.
fn best_told(alloc: Global, p: &Program, outcome: &Outcome) -> Result<String, AllocError> {
    match outcome {
        Outcome::Best { point, .. } => earned_told(alloc, p, point),
        _ => outcome_told(alloc, outcome),
    }
}

fn run_of_itself(alloc: Global, p: &Program, r: &Region, best: u64) -> Result<String, AllocError>
    requires fit { IsFit p.now }
    requires in_box { IsInBox p.now (bounds_of r.now) }
{
    let outcome = dual_run(alloc, p, r, best)?;
    outcome_told(alloc, &outcome)
}

fn run_on_full(alloc: Global, p: &Program, r: &Region, best: u64) -> Result<String, AllocError>
    requires fit { IsFit p.now }
    requires in_box { IsInBox p.now (bounds_of r.now) }
{
    let outcome = run_on::<Full>(alloc, p, r, best)?;
    outcome_told(alloc, &outcome)
}

fn run_on_sparse(alloc: Global, p: &Program, r: &Region, best: u64) -> Result<String, AllocError>
    requires fit { IsFit p.now }
    requires in_box { IsInBox p.now (bounds_of r.now) }
{
    let outcome = run_on::<Sparse>(alloc, p, r, best)?;
    outcome_told(alloc, &outcome)
}

fn run_on_whole(alloc: Global, p: &Program, r: &Region, best: u64) -> Result<String, AllocError>
    requires fit { IsFit p.now }
    requires in_box { IsInBox p.now (bounds_of r.now) }
{
    let outcome = run_on::<Whole>(alloc, p, r, best)?;
    outcome_told(alloc, &outcome)
}

/// How a dual run over a region ends, whatever holds its dictionaries: the four runs where they differ.
pub fn run_told(alloc: Global, p: &Program, r: &Region, best: u64) -> Result<String, AllocError>
    requires fit { IsFit p.now }
    requires in_box { IsInBox p.now (bounds_of r.now) }
{
    let run = run_of_itself(alloc, p, r, best)?;
    let full = run_on_full(alloc, p, r, best)?;
    let sparse = run_on_sparse(alloc, p, r, best)?;
    let whole = run_on_whole(alloc, p, r, best)?;
    let same = run.as_str() == full.as_str() && run.as_str() == sparse.as_str();
    if same && run.as_str() == whole.as_str() {
        return Ok(run);
    }
    format!(in alloc; "{run}, full {full}, sparse {sparse}, whole {whole}")
}

fn add_row(out: &mut String, row: &Row) -> Result<(), AllocError> {
    for term in &row.terms {
        write!(out, "{}:{} ", term.column, term.by)?;
    }
    write!(out, "at most {}", row.right)
}

fn row_told(alloc: Global, p: &Program, row: usize) -> Result<String, AllocError> {
    let Some(row) = p.rows.get(row) else {
        return String::from_str(alloc, "none");
    };
    let mut out = String::new(alloc);
    add_row(&mut out, row)?;
    Ok(out)
}

fn counts_told(alloc: Global, c: &Compiled) -> Result<String, AllocError> {
    let mut out = String::new(alloc);
    for count in &c.counts {
        let (column, job, leaf, part) = (count.column, count.job, count.leaf, count.part);
        write!(out, "{column}: {job} {leaf} {part}; ")?;
    }
    Ok(out)
}

fn point_in(alloc: Global, text: &str) -> Result<Vec<i128>, AllocError> {
    let mut point = Vec::new(alloc);
    for value in text.split(' ') {
        point.push(value.parse::<i128>().unwrap_or(-1))?;
    }
    Ok(point)
}

fn add_taken(out: &mut String, counts: &[Taken]) -> Result<(), AllocError> {
    for taken in counts {
        let (job, leaf, part, nodes) = (taken.job, taken.leaf, taken.part, taken.nodes);
        write!(out, "{job} {leaf} takes {nodes} of {part}; ")?;
    }
    Ok(())
}

fn values_told(
    alloc: Global,
    taken: &[Taken],
    earned: i128,
    a: &Allotment,
) -> Result<String, AllocError> {
    let mut out = String::new(alloc);
    add_taken(&mut out, taken)?;
    let grants = grants_told(alloc, a.as_slice())?;
    write!(out, "earns {earned}; {grants}")?;
    Ok(out)
}

// What a point takes, what it earns, and what is assigned to it.
fn taken_told(
    alloc: Global,
    inst: &Instance,
    parts: &Partitions,
    c: &Compiled,
    point: &[i128],
) -> Result<String, AllocError>
    requires sound { IsSound (space inst.now) }
    requires partitions { ArePartitionsOf (space inst.now) (parts_of parts.now) }
    requires compiled { IsCompiled (space inst.now) c.now }
    requires fit { IsFit c.now.program }
    requires counts { AreCountsOf c.now.program c.now.counts.items }
    requires count { length point.now ≡ length c.now.program.costs.items }
    requires inside { IsBetween (length c.now.program.costs.items) c.now.program.lower.items point.now c.now.program.upper.items }
    requires point { IsPoint c.now.program (box_of c.now.program) point.now }
{
    let taken = counts_of(alloc, c, point)?;
    let earned = objective_at(&c.program, point);
    let a = assign(alloc, inst, parts, c, point)?;
    values_told(alloc, &taken, earned, &a)
}

// The same where the numbers of a text are a point.
fn point_told(alloc: Global, inst: &Instance, text: &str) -> Result<String, AllocError>
    requires { IsSound (space inst.now) }
{
    let parts = find_partitions(alloc, inst)?;
    let (columns, rows) = size(inst, &parts);
    if 2000 < columns || 2000 < rows {
        return String::from_str(alloc, "too large");
    }
    let c = compile(alloc, inst, &parts)?;
    let whole = Region::whole(alloc, &c.program)?;
    let point = point_in(alloc, text)?;
    if point.len() != c.program.costs.len() || !holds_point(&c.program, &whole, &point) {
        return String::from_str(alloc, "no point");
    }
    taken_told(alloc, inst, &parts, &c, &point)
}

fn mark_in(alloc: Global, line: &str) -> Option<Mark> {
    read_mark(alloc, line.as_bytes()).ok()
}

fn marks_in(alloc: Global, text: &str) -> Result<Items<Mark>, AllocError> {
    let mut marks = Items::new(alloc);
    for line in text.split('|') {
        if let Some(mark) = mark_in(alloc, line) {
            marks.push(mark)?;
        }
    }
    Ok(marks)
}

// The bound of marks that come one by one, unless there are too many.
fn walked(
    alloc: Global,
    p: &Program,
    marks: &[Mark],
) -> Result<Option<Result<u64, TreeFault>>, AllocError>
    requires { IsFit p.now }
{
    let mut walk = Walk::new(alloc, p)?;
    let mut count = 0u64;
    for mark in marks {
        if count == 1000 {
            return Ok(None);
        }
        count += 1;
        walk.feed(alloc, p, mark)?;
    }
    Ok(Some(walk.end()))
}

// Both bounds where they differ.
fn bounds_told(
    alloc: Global,
    whole: Result<u64, TreeFault>,
    walked: Result<u64, TreeFault>,
) -> Result<String, AllocError> {
    if whole == walked {
        return debug_text(alloc, &whole);
    }
    let mut out = debug_text(alloc, &whole)?;
    out.push_str(" ")?;
    add_debug(&mut out, &walked)?;
    Ok(out)
}

// The bound of marks, once as a whole and once as they come one by one.
fn bound_told(alloc: Global, p: &Program, text: &str) -> Result<String, AllocError>
    requires { IsFit p.now }
{
    let marks = marks_in(alloc, text)?;
    let whole = bound(alloc, p, marks.as_slice());
    match walked(alloc, p, marks.as_slice())? {
        Some(walked) => bounds_told(alloc, whole, walked),
        None => String::from_str(alloc, "too many marks"),
    }
}

fn dual_told(alloc: Global, p: &Program, best: &str) -> Result<String, AllocError>
    requires { IsFit p.now }
{
    let whole = Region::whole(alloc, p)?;
    run_told(alloc, p, &whole, best.parse::<u64>().unwrap_or(0))
}

fn relaxed_told(alloc: Global, p: &Program) -> Result<String, AllocError>
    requires { IsFit p.now }
{
    let whole = Region::whole(alloc, p)?;
    let outcome = dual_run(alloc, p, &whole, 0)?;
    best_told(alloc, p, &outcome)
}

// What is told of a program that is searched.
fn searched_told(alloc: Global, p: &Program, word: &str, rest: &str) -> Result<String, AllocError>
    requires { IsFit p.now }
{
    match word {
        "bound" => bound_told(alloc, p, rest),
        "dual" => dual_told(alloc, p, rest),
        "relaxed" => relaxed_told(alloc, p),
        _ => String::from_str(alloc, "no such word"),
    }
}

fn of_program(alloc: Global, c: &Compiled, word: &str, rest: &str) -> Result<String, AllocError>
    requires { IsFit c.now.program }
{
    match word {
        "costs" => format!(in alloc; "{:?}", c.program.costs),
        "lower" => format!(in alloc; "{:?}", c.program.lower),
        "upper" => format!(in alloc; "{:?}", c.program.upper),
        "rows" => format!(in alloc; "{}", c.program.rows.len()),
        "row" => row_told(alloc, &c.program, rest.parse::<usize>().unwrap_or(0)),
        "counts" => counts_told(alloc, c),
        _ => searched_told(alloc, &c.program, word, rest),
    }
}

/// What is told of the program of an instance: its numbers, a `row NUMBER`, its count columns, the `bound MARKS` with `|`
/// between the marks' lines, the `dual BEST` run, what the best point of a dual run earns (`relaxed`), or a `point VALUES`; or
/// that it is too large.
pub fn told(alloc: Global, inst: &Instance, word: &str, rest: &str) -> Result<String, AllocError>
    requires { IsSound (space inst.now) }
{
    if word == "point" {
        return point_told(alloc, inst, rest);
    }
    let parts = find_partitions(alloc, inst)?;
    let (columns, rows) = size(inst, &parts);
    if word == "size" {
        return format!(in alloc; "{columns} {rows}");
    }
    if 2000 < columns || 2000 < rows {
        return String::from_str(alloc, "too large");
    }
    let c = compile(alloc, inst, &parts)?;
    of_program(alloc, &c, word, rest)
}
