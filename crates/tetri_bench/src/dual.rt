// The dual run over each kind of dictionary.
ghost use Rattle.tetri_ip.specs.Points.{IsFit, IsInBox, bounds_of};

use std::alloc::{AllocError, Global};
use std::io;
use std::time::CpuClock;
use tetri_ip::{Program, Region, Weight};
use tetri_simplex::{Full, Mirrored, Outcome, Sparse, Whole, run_on};

/// The dictionaries of a run: full tables, rows of entries, rows of whole numbers, and one such row for the two variables of a column.
pub const KINDS: [&str; 4] = ["full", "sparse", "whole", "mirrored"];

fn outcome_of(alloc: Global, p: &Program, r: &Region, kind: &str) -> Result<Outcome, AllocError>
    requires fit { IsFit p.now }
    requires in_box { IsInBox p.now (bounds_of r.now) }
{
    match kind {
        "full" => run_on::<Full>(alloc, p, r, 0),
        "sparse" => run_on::<Sparse>(alloc, p, r, 0),
        "whole" => run_on::<Whole>(alloc, p, r, 0),
        _ => run_on::<Mirrored>(alloc, p, r, 0),
    }
}

fn sum(weights: &[Weight]) -> i128 {
    let mut sum: i128 = 0;
    for weight in weights {
        sum = sum.wrapping_add(weight.by);
    }
    sum
}

fn tell(rt: &impl Print, outcome: &Outcome) -> io::Result<()> {
    match outcome {
        Outcome::Best { q, weights, .. } => println!(rt; "best {q} {}", sum(weights)),
        Outcome::Cut { .. } => println!(rt; "cut"),
        Outcome::Empty { .. } => println!(rt; "empty"),
        Outcome::Past(_) => println!(rt; "past"),
        Outcome::Long => println!(rt; "long"),
    }
}

// Runs a program over a region, and writes how that ends.
fn run_in(
    rt: &(impl CpuClock + Print + Eprint),
    alloc: Global,
    p: &Program,
    r: &Region,
    kind: &str,
    timed: bool,
) -> io::Result<()>
    requires fit { IsFit p.now }
    requires in_box { IsInBox p.now (bounds_of r.now) }
{
    let start = rt.thread_cpu_time()?;
    let outcome = outcome_of(alloc, p, r, kind)?;
    let end = rt.thread_cpu_time()?;
    tell(rt, &outcome)?;
    if timed {
        eprintln!(rt; "{}", end.saturating_sub(start).as_nanos())?;
    }
    Ok(())
}

/// Runs a program over dictionaries of a kind. It writes the multiplier and the sum of the weights of the best point to standard output,
/// and, where it is timed, the nanoseconds of the run to standard error.
pub fn run_one(
    rt: &(impl CpuClock + Print + Eprint),
    alloc: Global,
    p: &Program,
    kind: &str,
    timed: bool,
) -> io::Result<()>
    requires { IsFit p.now }
{
    let whole = Region::whole(alloc, p)?;
    run_in(rt, alloc, p, &whole, kind, timed)
}
