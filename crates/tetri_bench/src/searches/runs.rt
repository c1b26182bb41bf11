// The dual runs of a tree's nodes, alone.

ghost use Rattle.std.specs.Prelude.{◌≡◌, ◌≤◌, ◌<◌, All, length, true};
ghost use Rattle.tetri_cert.specs.NodeBounds.{HasSides};
ghost use Rattle.tetri_ip.specs.Points.{IsBelow, IsFit, IsInBox, bounds_of};

use std::alloc::Global;
use std::io;
use std::time::{CpuClock, Duration};
use tetri_cert::{Mark, Turn, turn_on};
use tetri_ip::{Program, Region};
use tetri_simplex::dual_run_over;

/// How long dual runs took, and how many they were.
#[derive(Clone, Copy)]
pub struct Runs {
    pub time: Duration,
    pub count: usize,
}

// Whether each number of the first list is at most that of the second.
fn is_below(columns: usize, lower: &[i128], upper: &[i128]) -> bool
    requires lower { columns ≤ length lower.now }
    requires upper { columns ≤ length upper.now }
    ensures { result ≡ true → IsBelow columns lower.now upper.now }
{
    for j in 0..columns {
        if upper[j] < lower[j] {
            return false;
        }
    }
    true
}

fn is_in_box(p: &Program, r: &Region) -> bool
    requires { IsFit p.now }
    ensures { result ≡ true → IsInBox p.now (bounds_of r.now) }
{
    let columns = p.costs.len();
    r.lower.len() == columns
        && r.upper.len() == columns
        && is_below(columns, &p.lower, &r.lower)
        && is_below(columns, &r.lower, &r.upper)
        && is_below(columns, &r.upper, &p.upper)
}

// Whether a split leaves whole numbers on both sides.
fn has_sides(r: &Region, mark: &Mark) -> bool
    requires { length r.now.upper.items ≡ length r.now.lower.items }
    ensures { result ≡ true → HasSides (bounds_of r.now) mark.now }
{
    match mark {
        Mark::Split { column, at, .. } => {
            let j = *column as usize;
            j < r.lower.len() && r.lower[j] <= *at && *at < r.upper[j]
        }
        Mark::Close { .. } | Mark::Whole { .. } | Mark::Rest { .. } => true,
    }
}

// Whether a region has more than one point of whole numbers.
fn is_wide(r: &Region) -> bool {
    r.lower != r.upper
}

fn is_rest(mark: &Mark) -> bool {
    matches!(mark, Mark::Rest { .. })
}

fn better(best: u64, mark: &Mark) -> u64 {
    match mark {
        Mark::Whole { worth, .. } => best.max(u64::try_from(*worth).unwrap_or(best)),
        Mark::Split { .. } | Mark::Close { .. } | Mark::Rest { .. } => best,
    }
}

// Makes the run of a region anew, and counts it and its time.
fn run_again(
    rt: &impl CpuClock,
    alloc: Global,
    p: &Program,
    r: &Region,
    best: u64,
    runs: Runs,
) -> io::Result<Runs>
    requires fit { IsFit p.now }
    requires in_box { IsInBox p.now (bounds_of r.now) }
{
    let mut factors = vec![in alloc; 0i128; p.costs.len()]?;
    let start = rt.thread_cpu_time()?;
    let _outcome = dual_run_over(alloc, p, r, &mut factors, best)?;
    let end = rt.thread_cpu_time()?;
    Ok(Runs {
        time: runs.time.saturating_add(end.saturating_sub(start)),
        count: runs.count.saturating_add(1),
    })
}

/// The dual runs of a tree's nodes, made anew one after another: each node's region is reached side by side as in the search, and
/// its run begins with the same best objective. A rest and a region of one point have none.
pub fn all_runs(
    rt: &impl CpuClock,
    alloc: Global,
    p: &Program,
    low: u64,
    marks: &[Mark],
) -> io::Result<Runs>
    requires { IsFit p.now }
{
    let mut region = Region::whole(alloc, p)?;
    let mut trail: Vec<Turn> = Vec::new(alloc);
    let mut best = low;
    let mut runs = Runs {
        time: Duration::ZERO,
        count: 0,
    };
    for mark in marks {
        if !is_rest(mark) && is_wide(&region) && is_in_box(p, &region) {
            runs = run_again(rt, alloc, p, &region, best, runs)?;
        }
        best = better(best, mark);
        if !has_sides(&region, mark) {
            return Ok(runs);
        }
        turn_on(&mut region, &mut trail, mark)?;
    }
    Ok(runs)
}
