// Searches, shown and timed.
ghost use Rattle.std.specs.Prelude.{◌≡◌, ◌<◌, ◌^◌, All, IfOk, IfSome, pos};
ghost use Rattle.tetri_compile.specs.Gain.{most_gain};
ghost use Rattle.tetri_ip.specs.Points.{IsFit};
ghost use Rattle.tetri_space.specs.Sound.{IsSound as IsSoundSpace};
ghost use Rattle.tetri_space.specs.Space.{space};
ghost use Rattle.tetri_state.specs.Reached as moment;
ghost use Rattle.tetri_state.specs.Reached.{IsReached};
ghost use Rattle.tetri_trace.specs.Scenario.{scenario};
ghost use Rattle.tetri_trace.specs.Sound.{IsSound};

mod runs;

use runs::all_runs;
use std::alloc::{AllocError, Global};
use std::io;
use std::rt::Files;
use std::time::{CpuClock, Duration};
use tetri_cert::print_mark;
use tetri_compile::{Compiled, compile, size};
use tetri_io::FileShelf;
use tetri_ip::Program;
use tetri_search::{Found, search};
use tetri_space::{Instance, find_partitions};
use tetri_state::State;
use tetri_trace::{Trace, read_trace};

// The instance of the slot in which a run stands, if it is one of the trace.
fn instance_of(
    alloc: Global,
    trace: &Trace,
    state: &mut State,
) -> Result<Option<Instance>, AllocError>
    requires sound { IsSound (scenario trace.now) }
    requires reached { IsReached (scenario trace.now) moment.between state.old }
    ensures { IfOk result (λ o. IfSome o (λ i. IsSoundSpace (space i))) }
{
    if trace.header.until <= state.now() {
        return Ok(None);
    }
    let _happened = state.begin_cycle(alloc, trace)?;
    Ok(Some(state.instance(alloc, trace)?))
}

// The instance of a trace at slot 0.
fn first_instance(alloc: Global, trace: &Trace) -> Result<Option<Instance>, AllocError>
    requires { IsSound (scenario trace.now) }
    ensures { IfOk result (λ o. IfSome o (λ i. IsSoundSpace (space i))) }
{
    let mut state = State::open(alloc, trace)?;
    instance_of(alloc, trace, &mut state)
}

fn tree_lines(alloc: Global, found: &Found) -> Result<String, AllocError> {
    let mut lines = String::new(alloc);
    for mark in found.marks.as_slice() {
        print_mark(&mut lines, mark)?;
    }
    Ok(lines)
}

// Searches a program of a size, and writes what is found.
fn search_program(
    rt: &(impl CpuClock + Print + Eprint),
    alloc: Global,
    c: &Compiled,
    size: (u64, u64),
    budget: u32,
    timed: bool,
) -> io::Result<()>
    requires fit { IsFit c.now.program }
    requires lower { All (λ z. z ≡ pos 0) c.now.program.lower.items }
    requires bounded { most_gain c.now.program < 2 ^ 64 }
{
    let start = rt.thread_cpu_time()?;
    let found = search(alloc, c, 0, budget)?;
    let end = rt.thread_cpu_time()?;
    let time = end.saturating_sub(start);
    tell_search(rt, alloc, &c.program, size, &found, time, timed)
}

// Writes what is found, and the tree's lines or, where it is timed, the time with that of the dual runs.
fn tell_search(
    rt: &(impl CpuClock + Print + Eprint),
    alloc: Global,
    p: &Program,
    size: (u64, u64),
    found: &Found,
    time: Duration,
    timed: bool,
) -> io::Result<()>
    requires { IsFit p.now }
{
    tell_found(rt, size, found)?;
    if timed {
        return time_runs(rt, alloc, p, found, time.as_nanos());
    }
    let lines = tree_lines(alloc, found)?;
    print!(rt; "{lines}")
}

fn tell_found(rt: &impl Print, size: (u64, u64), found: &Found) -> io::Result<()> {
    let (columns, rows) = size;
    println!(rt;
        "{columns} columns, {rows} rows: best {}, bound {}, nodes {}",
        found.best, found.bound, found.nodes
    )
}

// Makes the dual runs of what was found anew, and writes their time behind that of the whole.
fn time_runs(
    rt: &(impl CpuClock + Eprint),
    alloc: Global,
    p: &Program,
    found: &Found,
    whole: u128,
) -> io::Result<()>
    requires { IsFit p.now }
{
    let runs = all_runs(rt, alloc, p, 0, found.marks.as_slice())?;
    eprintln!(rt; "{whole} {} {}", runs.time.as_nanos(), runs.count)
}

fn measure(
    rt: &(impl CpuClock + Print + Eprint),
    alloc: Global,
    inst: &Instance,
    budget: u32,
    timed: bool,
) -> io::Result<()>
    requires { IsSoundSpace (space inst.now) }
{
    let parts = find_partitions(alloc, inst)?;
    let (columns, rows) = size(inst, &parts);
    if 2000 < columns || 2000 < rows {
        return println!(rt; "{columns} columns, {rows} rows: too large");
    }
    let c = compile(alloc, inst, &parts)?;
    search_program(rt, alloc, &c, (columns, rows), budget, timed)
}

// Searches the program of the instance that a trace has at slot 0.
fn search_first(
    rt: &(impl CpuClock + Print + Eprint),
    alloc: Global,
    trace: &Trace,
    timed: bool,
) -> io::Result<()>
    requires { IsSound (scenario trace.now) }
{
    match first_instance(alloc, trace)? {
        Some(inst) => measure(rt, alloc, &inst, trace.header.budget, timed),
        None => Ok(()),
    }
}

/// Searches the program of the instance that the trace in a file has at slot 0, within the trace's budget. It writes the program's
/// columns and rows, the best objective, the bound and the nodes, and then the tree's lines; where it is timed no lines, but three
/// numbers to standard error: the nanoseconds of the search, those of the dual runs of its nodes alone, made anew, and how many
/// runs these are.
pub fn show(
    rt: &(impl CpuClock + Print + Eprint + Files),
    alloc: Global,
    name: &str,
    timed: bool,
) -> io::Result<()> {
    let mut shelf = FileShelf::new(rt);
    match read_trace(alloc, &mut shelf, name) {
        Ok(trace) => search_first(rt, alloc, &trace, timed),
        Err(_) => eprintln!(rt; "{name}: not a trace"),
    }
}
