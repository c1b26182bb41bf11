// Sums over rows and cycles of an account.
ghost use Rattle.std.specs.Prelude.{◌≡◌, ◌+◌, ◌-◌, ◌*◌, ◌≤◌, ◌<◌, ◌^◌, ◌==◌, false, if◌then◌else◌, length, max, min, option_map, slice_index_or, unwrap_or};
ghost use Rattle.tetri_accounts.specs.Text.{wait_of};
ghost use Rattle.tetri_base.specs.Lists.{bit, count, sum_of};
ghost use Rattle.tetri_figures.specs.Figures.{gaps, greatest_of, is_cancelled, is_done, is_kept, most, nodes_counted, of_launch, of_waiter, offered, outcome_place, part_of, picked, piece_slots, ran_of, row_slots, slowdown_by};
ghost use Rattle.tetri_trace.specs.Scenario.{scenario};

use tetri_accounts::{CycleNote, Outcome, Row, wait_of};
use tetri_state::Piece;
use tetri_trace::Trace;

/// What is added up over rows.
#[derive(Clone, Copy, Debug, PartialEq, Eq)]
pub(crate) enum Part {
    /// The rows with an outcome.
    With(Outcome),
    /// The launches.
    Launches,
    /// How many slots they waited.
    Waits,
    /// The launches, and the jobs without one that were not cancelled: they expired, or wait as the run ends.
    Waiters,
    /// How many slots they waited.
    WholeWaits,
    /// What they were worth.
    Worth,
    /// The same, but for those that failed or were cancelled.
    Kept,
    /// The launches that ended by themselves.
    Ended,
    /// Their slowdowns, in thousandths.
    Slowdowns,
    /// The slowdowns of all launches, in thousandths, each as if it had run for this many slots at least.
    Bounded(u32),
}

// A launch is as long as this many slots at least, where its slowdown is told.
const SLOWDOWN_BOUND: u32 = 10;

fn bit(is: bool) -> u64
    ensures { result ≡ bit is }
{
    if is { 1 } else { 0 }
}

// The place of an outcome among the figures.
fn outcome_place(outcome: Outcome) -> usize
    ensures { result ≡ outcome_place outcome }
{
    match outcome {
        Outcome::Ran => 0,
        Outcome::Overran => 1,
        Outcome::Failed => 2,
        Outcome::Cancelled => 3,
        Outcome::Expired => 4,
        Outcome::Waiting => 5,
        Outcome::Running => 6,
    }
}

// Whether all pieces of a launch ended.
fn is_done(outcome: Outcome) -> bool
    ensures { result ≡ is_done outcome }
{
    match outcome {
        Outcome::Ran | Outcome::Overran => true,
        Outcome::Failed
        | Outcome::Cancelled
        | Outcome::Expired
        | Outcome::Waiting
        | Outcome::Running => false,
    }
}

// Whether a launch was neither failed nor cancelled.
fn is_kept(outcome: Outcome) -> bool
    ensures { result ≡ is_kept outcome }
{
    match outcome {
        Outcome::Ran | Outcome::Overran | Outcome::Running => true,
        Outcome::Failed | Outcome::Cancelled | Outcome::Expired | Outcome::Waiting => false,
    }
}

// A number of a launch, and nothing of a job without one.
fn of_launch(start: Option<u32>, number: u64) -> u64
    ensures { result ≡ of_launch start number }
{
    match start {
        Some(_) => number,
        None => 0,
    }
}

// Whether a job was cancelled.
fn is_cancelled(outcome: Outcome) -> bool
    ensures { result ≡ is_cancelled outcome }
{
    match outcome {
        Outcome::Cancelled => true,
        Outcome::Ran
        | Outcome::Overran
        | Outcome::Failed
        | Outcome::Expired
        | Outcome::Waiting
        | Outcome::Running => false,
    }
}

// A number of a launch, or of a job without one that was not cancelled.
fn of_waiter(start: Option<u32>, outcome: Outcome, number: u64) -> u64
    ensures { result ≡ of_waiter start outcome number }
{
    match start {
        Some(_) => number,
        None => if is_cancelled(outcome) { 0 } else { number },
    }
}

// How many slots a launch ran, up to the end of the run where it runs on.
fn ran_of(trace: &Trace, row: &Row) -> u32
    ensures { result ≡ ran_of (scenario trace.entry.now) row.entry.now }
{
    let end = row.end.unwrap_or(trace.header.until);
    end.saturating_sub(row.start.unwrap_or(0))
}

// How many times as long as it ran a launch took from its arrival to its end, in thousandths, rounded down: at least once, and as if it
// had run for this many slots at least, and for one.
fn slowdown_by(bound: u32, wait: u32, ran: u32) -> u64
    ensures { result ≡ slowdown_by bound wait ran }
{
    let took = (u64::from(wait) + u64::from(ran)) * 1000;
    (took / u64::from(ran.max(bound.max(1)))).max(1000)
}

/// The number of a row that is added up.
pub(crate) fn part_of(trace: &Trace, part: Part, row: &Row) -> u64
    ensures { result ≡ part_of (scenario trace.entry.now) part row.entry.now }
{
    match part {
        Part::With(outcome) => bit(outcome_place(row.outcome) == outcome_place(outcome)),
        Part::Launches => of_launch(row.start, 1),
        Part::Waits => of_launch(row.start, u64::from(wait_of(trace, row))),
        Part::Waiters => of_waiter(row.start, row.outcome, 1),
        Part::WholeWaits => of_waiter(row.start, row.outcome, u64::from(wait_of(trace, row))),
        Part::Worth => of_launch(row.start, row.worth),
        Part::Kept => {
            let kept = if is_kept(row.outcome) { row.worth } else { 0 };
            of_launch(row.start, kept)
        }
        Part::Ended => of_launch(row.start, bit(is_done(row.outcome))),
        Part::Slowdowns => {
            let slowdown = if is_done(row.outcome) {
                slowdown_by(SLOWDOWN_BOUND, wait_of(trace, row), ran_of(trace, row))
            } else {
                0
            };
            of_launch(row.start, slowdown)
        }
        Part::Bounded(bound) => {
            let slowdown = slowdown_by(bound, wait_of(trace, row), ran_of(trace, row));
            of_launch(row.start, slowdown)
        }
    }
}

/// Whether what stands at a place is picked.
pub(crate) fn is_picked(picked: &[bool], place: usize) -> bool
    ensures { result ≡ slice_index_or picked.entry.now place false }
{
    picked.get(place).copied().unwrap_or(false)
}

// A number where it is picked, else 0.
fn if_picked(is: bool, number: u64) -> u64
    ensures { result ≡ (if is then number else 0) }
{
    if is { number } else { 0 }
}

// The number of a row that is added up, where the row is picked.
fn picked_part(trace: &Trace, part: Part, row: &Row, is: bool) -> u64
    ensures { result ≡ (if is then part_of (scenario trace.entry.now) part row.entry.now else 0) }
{
    if is { part_of(trace, part, row) } else { 0 }
}

// A sum with one number more.
pub(crate) fn plus(sum: u128, more: u64) -> u128
    requires { sum ≤ 2 ^ 128 - 2 ^ 64 }
    ensures value { result ≡ sum + more }
    ensures small { result < sum + 2 ^ 64 }
{
    sum + u128::from(more)
}

/// What is added up over the rows that are picked.
pub(crate) fn sum_over(trace: &Trace, rows: &[Row], marks: &[bool], part: Part) -> u128
    ensures { result ≡ sum_of (part_of (scenario trace.entry.now) part) (picked marks.entry.now rows.entry.now) }
{
    let mut sum = 0;
    for place in 0..rows.len() {
        sum = plus(
            sum,
            picked_part(trace, part, &rows[place], is_picked(marks, place)),
        );
    }
    sum
}

/// The greatest wait of the rows that are picked, by what is added up of waits, 0 where there is none.
pub(crate) fn greatest_wait(trace: &Trace, rows: &[Row], marks: &[bool], part: Part) -> u64
    ensures { result ≡ greatest_of (part_of (scenario trace.entry.now) part) (picked marks.entry.now rows.entry.now) }
{
    let mut greatest: u64 = 0;
    for place in 0..rows.len() {
        let wait = picked_part(trace, part, &rows[place], is_picked(marks, place));
        greatest = greatest.max(wait);
    }
    greatest
}

/// The tops of the jobs that are picked, together.
pub(crate) fn offered(jobs: &[bool], tops: &[u64]) -> u128
    ensures { result ≡ offered jobs.entry.now tops.entry.now }
{
    let mut sum = 0;
    for place in 0..tops.len() {
        sum = plus(sum, if_picked(is_picked(jobs, place), tops[place]));
    }
    sum
}

// By how much the value of a cycle falls short of its bound.
fn gap_of(cycle: &CycleNote) -> u64
    ensures { result ≡ cycle.now.bound - cycle.now.value }
{
    cycle.bound.saturating_sub(cycle.value)
}

/// By how much the values of the cycles fall short of their bounds, together.
pub(crate) fn gaps(cycles: &[CycleNote]) -> u128
    ensures { result ≡ gaps cycles.entry.now }
{
    let mut sum = 0;
    for cycle in cycles {
        sum = plus(sum, gap_of(cycle));
    }
    sum
}

// How many of the nodes are marked.
fn nodes_marked(marks: &[bool], nodes: &[u32]) -> u64
    ensures { result ≡ count (λ n. slice_index_or marks.entry.now n false) nodes.entry.now }
{
    let mut marked: u64 = 0;
    for place in 0..nodes.len() {
        marked += bit(is_picked(marks, nodes[place] as usize));
    }
    marked
}

// How many of the nodes are counted.
fn nodes_counted(counted: Option<&[bool]>, nodes: &[u32]) -> u64
    ensures { result ≡ nodes_counted (option_map (λ m. m.now) counted.entry) nodes.entry.now }
{
    match counted {
        None => nodes.len() as u64,
        Some(marks) => nodes_marked(marks, nodes),
    }
}

// The slots that a piece took on nodes that are counted, up to this slot.
fn piece_slots(counted: Option<&[bool]>, end: u32, piece: &Piece) -> u128
    ensures { result ≡ piece_slots (option_map (λ m. m.now) counted.entry) end piece.entry.now }
{
    let slots = piece.real.min(end).saturating_sub(piece.started);
    let nodes = nodes_counted(counted, piece.nodes.as_slice());
    u128::from(nodes) * u128::from(slots)
}

// A sum with one number more, up to the most.
fn plus_capped(sum: u128, more: u128) -> u128
    ensures value { result ≡ min (sum + more) most }
    ensures few { result ≤ most }
{
    sum.saturating_add(more)
}

// The slots that a row's pieces took on nodes that are counted.
fn row_slots(trace: &Trace, counted: Option<&[bool]>, row: &Row) -> u128
    ensures { result ≡ min (row_slots (scenario trace.entry.now) (option_map (λ m. m.now) counted.entry) row.entry.now) most }
{
    let end = row.end.unwrap_or(trace.header.until);
    let mut sum: u128 = 0;
    for piece in row.pieces.as_slice() {
        sum = plus_capped(sum, piece_slots(counted, end, piece));
    }
    sum
}

// The same, where the row is picked.
fn picked_slots(trace: &Trace, counted: Option<&[bool]>, row: &Row, is: bool) -> u128
    ensures { result ≡ (if is then min (row_slots (scenario trace.entry.now) (option_map (λ m. m.now) counted.entry) row.entry.now) most else 0) }
{
    if is {
        row_slots(trace, counted, row)
    } else {
        0
    }
}

/// The node slots of the rows that are picked, on nodes that are counted.
pub(crate) fn node_slots(
    trace: &Trace,
    rows: &[Row],
    marks: &[bool],
    counted: Option<&[bool]>,
) -> u128
    ensures { result ≡ min (sum_of (row_slots (scenario trace.entry.now) (option_map (λ m. m.now) counted.entry))
        (picked marks.entry.now rows.entry.now)) most }
{
    let mut sum: u128 = 0;
    for place in 0..rows.len() {
        let more = picked_slots(trace, counted, &rows[place], is_picked(marks, place));
        sum = plus_capped(sum, more);
    }
    sum
}
