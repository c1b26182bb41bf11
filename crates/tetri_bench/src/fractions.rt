// Sums and products of fractions.
mod operands;
mod work;

use operands::{Kind, pairs};
use std::alloc::Global;
use std::io;
use std::time::{CpuClock, Duration};
use tetri_num::Frac;
use work::{Tally, products, sums};

// Pairs of operands of a kind; each round takes each pair once.
const PAIRS: u64 = 1000;

/// Adds two fractions.
pub fn add_two(rt: &impl Print) -> io::Result<()> {
    match Frac::new(1, 3).add(Frac::new(1, 6)) {
        Ok(sum) => println!(rt; "1/3 + 1/6 = {}/{}", sum.num, sum.den),
        Err(past) => println!(rt; "1/3 + 1/6 leaves the range: {past:?}"),
    }
}

// Makes so many sums and products of a kind of operands.
fn measure_kind(
    rt: &(impl CpuClock + Print + Eprint),
    alloc: Global,
    kind: Kind,
    size: u64,
) -> io::Result<()> {
    let (left, right) = pairs(alloc, kind, PAIRS)?;
    let rounds = size / PAIRS;
    let start = rt.thread_cpu_time()?;
    let added = sums(&left, &right, rounds);
    let between = rt.thread_cpu_time()?;
    let multiplied = products(&left, &right, rounds);
    let end = rt.thread_cpu_time()?;
    report(rt, kind, "sums", size, added, between.saturating_sub(start))?;
    report(
        rt,
        kind,
        "products",
        size,
        multiplied,
        end.saturating_sub(between),
    )
}

/// Makes so many sums and products of each kind of operands. It writes how many of them left the range and a checksum of the others to
/// standard output, and the nanoseconds of all to standard error.
pub fn measure(rt: &(impl CpuClock + Print + Eprint), alloc: Global, size: u64) -> io::Result<()> {
    for kind in [Kind::Whole, Kind::Small, Kind::Word, Kind::Wide] {
        measure_kind(rt, alloc, kind, size)?;
    }
    Ok(())
}

fn report(
    rt: &(impl Print + Eprint),
    kind: Kind,
    what: &str,
    size: u64,
    tally: Tally,
    time: Duration,
) -> io::Result<()> {
    let name = kind.name();
    println!(rt;
        "{name} {what} {size}: {} past, checksum {:016x}",
        tally.past, tally.checksum
    )?;
    eprintln!(rt; "{name} {what} {}", time.as_nanos())
}
