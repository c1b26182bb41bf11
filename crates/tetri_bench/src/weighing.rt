// Weighing column by column, and row by row over a list of the columns' factors.
ghost use Rattle.std.specs.Prelude.{◌≡◌, length};
ghost use Rattle.tetri_ip.specs.Points.{IsFit, IsInBox, bounds_of};
ghost use Rattle.tetri_ip.specs.Weighed.{AreOfRows};

use std::alloc::{AllocError, Global};
use std::io;
use std::time::{CpuClock, Duration};
use tetri_ip::{Program, Region, WeighFault, Weight, weigh, weigh_over};
use tetri_tables::are_weights;

// Weights of 1 for so many of the rows, spread evenly.
fn even_weights(alloc: Global, rows: u32, count: u32) -> Result<Vec<Weight>, AllocError> {
    let gap = rows / count.max(1);
    let mut weights = Vec::new(alloc);
    for place in 0..count {
        let row = place.saturating_mul(gap);
        weights.push(Weight { row, by: 1 })?;
    }
    Ok(weights)
}

fn added(sum: i128, weighed: Result<i128, WeighFault>) -> i128 {
    match weighed {
        Ok(z) => sum.wrapping_add(z),
        Err(_) => sum,
    }
}

// The sum of the weighed numbers for `q` from 1 on.
#[inline(never)]
fn sum(p: &Program, r: &Region, weights: &[Weight], rounds: u32) -> i128
    requires fit { IsFit p.now }
    requires in_box { IsInBox p.now (bounds_of r.now) }
    requires rows { AreOfRows p.now weights.now }
{
    let mut sum = 0;
    for q in 0..rounds {
        sum = added(sum, weigh(p, r, i128::from(q) + 1, weights));
    }
    sum
}

// The same, over a list of the columns' factors.
#[inline(never)]
fn sum_over(p: &Program, r: &Region, weights: &[Weight], factors: &mut [i128], rounds: u32) -> i128
    requires fit { IsFit p.now }
    requires in_box { IsInBox p.now (bounds_of r.now) }
    requires rows { AreOfRows p.now weights.now }
    requires length { length factors.old ≡ length p.now.costs.items }
{
    let mut sum = 0;
    for q in 0..rounds {
        sum = added(sum, weigh_over(p, r, i128::from(q) + 1, weights, factors));
    }
    sum
}

// Weighs by these weights in both ways.
fn weigh_by(
    rt: &(impl CpuClock + Print + Eprint),
    alloc: Global,
    p: &Program,
    weights: &[Weight],
    rounds: u32,
    timed: bool,
) -> io::Result<()>
    requires fit { IsFit p.now }
    requires rows { AreOfRows p.now weights.now }
{
    let whole = Region::whole(alloc, p)?;
    let mut factors = vec![in alloc; 0i128; p.costs.len()]?;
    weigh_in(rt, p, &whole, weights, &mut factors, rounds, timed)
}

// The same in a region, with room for the columns' factors.
fn weigh_in(
    rt: &(impl CpuClock + Print + Eprint),
    p: &Program,
    r: &Region,
    weights: &[Weight],
    factors: &mut [i128],
    rounds: u32,
    timed: bool,
) -> io::Result<()>
    requires fit { IsFit p.now }
    requires in_box { IsInBox p.now (bounds_of r.now) }
    requires rows { AreOfRows p.now weights.now }
    requires length { length factors.old ≡ length p.now.costs.items }
{
    let start = rt.thread_cpu_time()?;
    let plain = sum(p, r, weights, rounds);
    let between = rt.thread_cpu_time()?;
    let over = sum_over(p, r, weights, factors, rounds);
    let end = rt.thread_cpu_time()?;
    println!(rt; "{plain} {over}")?;
    if !timed {
        return Ok(());
    }
    let (first, second) = (between.saturating_sub(start), end.saturating_sub(between));
    tell_times(rt, first, second, rounds)
}

// Writes the nanoseconds of a call of each way.
fn tell_times(rt: &impl Eprint, plain: Duration, over: Duration, rounds: u32) -> io::Result<()> {
    let rounds = u128::from(rounds.max(1));
    eprintln!(rt;
        "{} {}",
        plain.as_nanos() / rounds,
        over.as_nanos() / rounds
    )
}

/// Weighs a program by so many weights so often, in both ways. It writes the sums of what the calls answer to standard output, and, where
/// it is timed, the nanoseconds of a call of each to standard error.
pub fn weigh_both(
    rt: &(impl CpuClock + Print + Eprint),
    alloc: Global,
    p: &Program,
    count: u32,
    rounds: u32,
    timed: bool,
) -> io::Result<()>
    requires { IsFit p.now }
{
    let rows = u32::try_from(p.rows.len()).unwrap_or(0);
    let weights = even_weights(alloc, rows, count)?;
    if !are_weights(p, &weights) {
        return eprintln!(rt; "{count} weights: too many");
    }
    weigh_by(rt, alloc, p, &weights, rounds, timed)
}
