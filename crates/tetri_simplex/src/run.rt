//! The run of the method: the dual simplex method (Lemke, 1954) over bounded columns, by
//! dictionaries of exact fractions (Chvátal, Linear Programming, 1983).

ghost use Rattle.std.specs.Prelude.{◌≡◌, ◌+◌, ◌-◌, ◌<◌, length, Ok, MatchResult, IfOk, IfSome, IfNone};
ghost use Rattle.tetri_ip.specs.Points.{IsFit, IsInBox, bounds_of};
ghost use Rattle.tetri_simplex.specs.Certificates.{Certifies};
ghost use Rattle.tetri_simplex.specs.Ends.{End, is_cut};
ghost use Rattle.tetri_dictionary.specs.Faults.{IsFault};
ghost use Rattle.tetri_simplex.specs.Faults.{EndsPast};
ghost use Rattle.tetri_simplex.specs.Machine.{ends, turn, next, at_step, run, machine};
ghost use Rattle.tetri_simplex.specs.Outcomes.{end_of};
ghost use Rattle.tetri_simplex.specs.Turns.{turn_of, HasPlaces, LeavesWithin, GoesOn};

use crate::ends::{best_end, cut_end, empty_end};
use crate::outcome::Outcome;
use std::alloc::{AllocError, Global};
use tetri_dictionary::{Dictionary, Mirrored, PivotFault};
use tetri_ip::{Program, Region};
use tetri_num::Place;

// The most pivots of a run.
const MOST_PIVOTS: u32 = 10_000;

// What a table comes to.
#[derive(Drop)]
enum Decision {
    Ends(Outcome),
    // the basic place that leaves
    Leaves(u32),
}

// A table's end.
fn ended(outcome: Result<Outcome, PivotFault>) -> Result<Decision, AllocError>
    ensures formed { (e : End) → MatchResult outcome (λ o. end_of o ≡ e) (λ f. EndsPast f e) →
        IfOk result (λ u. turn_of u ≡ ends e) }
    ensures leaves { IfOk result (λ u. LeavesWithin 0 u) }
{
    match outcome {
        Ok(end) => Ok(Decision::Ends(end)),
        Err(PivotFault::Past(place)) => Ok(Decision::Ends(Outcome::Past(place))),
        Err(PivotFault::NoMemory) => Err(AllocError),
    }
}

// Whether the floor of the objective's constant is at most the best objective known.
fn is_cut<D: Dictionary>(p: &Program, known: u64, d: &D) -> bool
    requires fit { IsFit p.now }
    requires sound { D.is_sound d.now }
    requires places { HasPlaces p.now (D.table d.now) }
    ensures { result ≡ is_cut (D.table d.now) known }
{
    let columns = p.costs.len();
    let objective = d.at((p.rows.len() + columns) as u32, columns as u32);
    objective.floor() <= known as i128
}

fn turn<D: Dictionary>(
    alloc: Global,
    p: &Program,
    r: &Region,
    factors: &mut [i128],
    known: u64,
    d: &D,
) -> Result<Decision, AllocError>
    requires fit { IsFit p.now }
    requires in_box { IsInBox p.now (bounds_of r.now) }
    requires length { length factors.old ≡ length p.now.costs.items }
    requires sound { D.is_sound d.now }
    requires places { HasPlaces p.now (D.table d.now) }
    ensures formed { IfOk result (λ u. turn_of u ≡ turn p.now (bounds_of r.now) known (D.table d.now)) }
    ensures leaves { IfOk result (λ u. LeavesWithin (length (D.table d.now).basic) u) }
{
    if is_cut(p, known, d) {
        return ended(cut_end(alloc, p, r, factors, d));
    }
    let Some(i) = d.leaving() else {
        return ended(best_end(alloc, p, r, factors, d));
    };
    if d.rises(i) {
        Ok(Decision::Leaves(i))
    } else {
        ended(empty_end(alloc, p, r, factors, d, i))
    }
}

// The pivot on the leaving place i.
fn pivot_out<D: Dictionary>(alloc: Global, d: &mut D, i: u32) -> Result<(), PivotFault>
    requires sound { D.is_sound d.old }
    requires row { i < length (D.table d.old).basic }
    ensures formed { let next = next (D.table d.old) i in
        MatchResult result (λ _. next ≡ Ok (D.table d.new)) (λ e. IsFault e next) }
    ensures sound { IfOk result (λ _. D.is_sound d.new) }
{
    match d.entering(i) {
        Ok(Some(found)) => d.pivot(alloc, i, found.place),
        Ok(None) => Ok(()),
        Err(place) => Err(PivotFault::Past(place)),
    }
}

// The outcome of a table at a step.
fn at_step(outcome: Outcome, step: u32) -> Outcome
    ensures { end_of result ≡ at_step step (end_of outcome) }
{
    match outcome {
        Outcome::Past(place) => Outcome::Past(Place {
            kind: place.kind,
            step,
            row: place.row,
            column: place.column,
        }),
        other => other,
    }
}

// One step of a run: how it ends, or the next table.
fn advance<D: Dictionary>(
    alloc: Global,
    p: &Program,
    r: &Region,
    factors: &mut [i128],
    known: u64,
    step: u32,
    d: &mut D,
) -> Result<Option<Outcome>, AllocError>
    requires fit { IsFit p.now }
    requires in_box { IsInBox p.now (bounds_of r.now) }
    requires length { length factors.old ≡ length p.now.costs.items }
    requires sound { D.is_sound d.old }
    requires places { HasPlaces p.now (D.table d.old) }
    requires step { step < 10001 }
    ensures ended { IfOk result (λ o. IfSome o (λ x. end_of x ≡ run p.now (bounds_of r.now) known (10000 - step) step (D.table d.old))) }
    ensures goes_on { IfOk result (λ o. IfNone o (GoesOn p.now (bounds_of r.now) known step (D.table d.old) (D.table d.new))) }
    ensures sound { IfOk result (λ o. IfNone o (D.is_sound d.new)) }
{
    let i = match turn(alloc, p, r, factors, known, d) {
        Ok(Decision::Ends(outcome)) => return Ok(Some(at_step(outcome, step))),
        Ok(Decision::Leaves(i)) => i,
        Err(_) => return Err(AllocError),
    };
    if step == MOST_PIVOTS {
        return Ok(Some(Outcome::Long));
    }
    match pivot_out(alloc, d, i) {
        Ok(()) => Ok(None),
        Err(PivotFault::Past(place)) => Ok(Some(at_step(Outcome::Past(place), step))),
        Err(PivotFault::NoMemory) => Err(AllocError),
    }
}

// The run over dictionaries of one kind, and a list with a number for each column.
fn run_over<D: Dictionary>(
    alloc: Global,
    p: &Program,
    r: &Region,
    factors: &mut [i128],
    best: u64,
) -> Result<Outcome, AllocError>
    requires fit { IsFit p.now }
    requires in_box { IsInBox p.now (bounds_of r.now) }
    requires length { length factors.old ≡ length p.now.costs.items }
    ensures ends { IfOk result (λ o. end_of o ≡ machine p.now (bounds_of r.now) best) }
    ensures certified { IfOk result (λ o. Certifies p.now (bounds_of r.now) best (end_of o)) }
{
    let mut dictionary = D::start(alloc, p, r)?;
    let mut step = 0;
    loop {
        match advance(alloc, p, r, factors, best, step, &mut dictionary) {
            Ok(Some(outcome)) => return Ok(outcome),
            Ok(None) => step += 1,
            Err(_) => return Err(AllocError),
        }
    }
}

/// [`dual_run`] over dictionaries of one kind.
pub fn run_on<D: Dictionary>(
    alloc: Global,
    p: &Program,
    r: &Region,
    best: u64,
) -> Result<Outcome, AllocError>
    requires fit { IsFit p.now }
    requires in_box { IsInBox p.now (bounds_of r.now) }
    ensures ends { IfOk result (λ o. end_of o ≡ machine p.now (bounds_of r.now) best) }
    ensures certified { IfOk result (λ o. Certifies p.now (bounds_of r.now) best (end_of o)) }
{
    let mut factors = vec![in alloc; 0i128; p.costs.len()]?;
    run_over::<D>(alloc, p, r, &mut factors, best)
}

/// [`dual_run`] over a list with a number for each column, which a caller of many runs makes once.
/// What the list holds before and after does not matter.
pub fn dual_run_over(
    alloc: Global,
    p: &Program,
    r: &Region,
    factors: &mut [i128],
    best: u64,
) -> Result<Outcome, AllocError>
    requires fit { IsFit p.now }
    requires in_box { IsInBox p.now (bounds_of r.now) }
    requires length { length factors.old ≡ length p.now.costs.items }
    ensures ends { IfOk result (λ o. end_of o ≡ machine p.now (bounds_of r.now) best) }
    ensures certified { IfOk result (λ o. Certifies p.now (bounds_of r.now) best (end_of o)) }
{
    run_over::<Mirrored>(alloc, p, r, factors, best)
}

/// Runs the dual simplex method over the program's region, with the best objective known, and
/// says how it ends: the least variable leaves and enters, and at most 10,000 pivots are made.
/// Its dictionaries have rows of whole numbers where these are short, and one row for the two variables of a column while all are.
/// The end's weights certify what it says of the region ([`ends_certify`](crate::ends_certify)).
pub fn dual_run(alloc: Global, p: &Program, r: &Region, best: u64) -> Result<Outcome, AllocError>
    requires fit { IsFit p.now }
    requires in_box { IsInBox p.now (bounds_of r.now) }
    ensures ends { IfOk result (λ o. end_of o ≡ machine p.now (bounds_of r.now) best) }
    ensures certified { IfOk result (λ o. Certifies p.now (bounds_of r.now) best (end_of o)) }
{
    run_on::<Mirrored>(alloc, p, r, best)
}
