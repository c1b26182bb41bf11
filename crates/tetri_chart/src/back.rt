// What stands in a picture behind the bars: waiting grants and the numbers of cycles.
ghost use Rattle.std.specs.Prelude.{◌≡◌, ◌++◌, ◌<◌, OnOk, string_bytes};
ghost use Rattle.tetri_cert.specs.Text.{mark_text};
ghost use Rattle.tetri_chart.specs.Ends.{back_text, cycles_text, mark_text_at, most_of, most_waiting, slot_text, slots_text, wait_bar, wait_bars, waits_text};
ghost use Rattle.tetri_trace.specs.Scenario.{scenario};

use crate::colours::{add_keys, by_text};
use crate::names::{job_name, node_name};
use crate::picture::{Chart, CycleMark, Wait};
use crate::view::Colours;
use std::alloc::AllocError;
use tetri_cert::PlanMark;
use tetri_svg::{
    Frame, add_asked, add_cycle, add_legend, add_queue, add_scale, add_strips_scale, add_use,
    add_wait,
};
use tetri_trace::Trace;

// Adds a waiting grant on a node.
fn add_wait_bar(
    out: &mut String,
    trace: &Trace,
    frame: &Frame,
    wait: &Wait,
    node: u32,
) -> Result<(), AllocError>
    ensures { OnOk result (string_bytes out.new ≡ string_bytes out.old ++ wait_bar (scenario trace.entry.now) frame.now wait.entry.now node) }
{
    let job = job_name(trace, wait.job);
    let name = node_name(trace, node);
    add_wait(out, frame, job, name, node, wait.from, wait.until)
}

// Adds a waiting grant on each of its nodes.
fn add_wait_bars(
    out: &mut String,
    trace: &Trace,
    frame: &Frame,
    wait: &Wait,
) -> Result<(), AllocError>
    ensures { OnOk result (string_bytes out.new ≡ string_bytes out.old ++ wait_bars (scenario trace.entry.now) frame.now wait.entry.now) }
{
    for node in wait.nodes.as_slice() {
        add_wait_bar(out, trace, frame, wait, *node)?;
    }
    Ok(())
}

// Adds the line at which the cycle begins whose waiting grants are shown, and these.
fn add_waits(
    out: &mut String,
    trace: &Trace,
    frame: &Frame,
    asked: Option<u32>,
    waits: &[Wait],
) -> Result<(), AllocError>
    ensures { OnOk result (string_bytes out.new ≡ string_bytes out.old ++ waits_text (scenario trace.entry.now) frame.now asked waits.entry.now) }
{
    let Some(cycle) = asked else {
        return Ok(());
    };
    add_asked(out, frame, cycle)?;
    for wait in waits {
        add_wait_bars(out, trace, frame, wait)?;
    }
    Ok(())
}

// The number that stands at the top: the greatest value, or the greatest bound where this is more, but not more than four times as
// much; and at least 1.
fn most_of(cycles: &[CycleMark]) -> u64
    ensures value { result ≡ most_of cycles.now }
    ensures some { 0 < result }
{
    let mut value = 0;
    let mut bound = 0;
    for cycle in cycles {
        value = cycle.value.max(value);
        bound = cycle.bound.max(bound);
    }
    value.saturating_mul(4).min(bound).max(value).max(1)
}

// The greatest number of jobs that wait, and at least 1.
fn most_waiting(cycles: &[CycleMark]) -> u64
    ensures value { result ≡ most_waiting cycles.now }
    ensures some { 0 < result }
{
    let mut most = 1;
    for cycle in cycles {
        most = (cycle.waiting as u64).max(most);
    }
    most
}

// The word of a mark.
fn mark_word(mark: PlanMark) -> &'static str
    ensures { result.now ≡ mark_text mark }
{
    match mark {
        PlanMark::Optimal => "optimal",
        PlanMark::Spent => "spent",
        PlanMark::Wide => "wide",
    }
}

// Adds the numbers of a cycle: its value and its bound, the jobs that wait behind it, and the nodes in use in its slot.
fn add_mark(
    out: &mut String,
    frame: &Frame,
    most: u64,
    longest: u64,
    slot: u32,
    cycle: CycleMark,
) -> Result<(), AllocError>
    requires { 0 < most × 0 < longest }
    ensures { OnOk result (string_bytes out.new ≡ string_bytes out.old ++ mark_text_at frame.now most longest slot cycle) }
{
    let mark = mark_word(cycle.mark);
    add_cycle(out, frame, most, slot, cycle.value, cycle.bound, mark)?;
    add_queue(out, frame, longest, slot, cycle.waiting as u64)?;
    add_use(out, frame, slot, cycle.used)
}

// Adds the numbers of the cycle of a slot that is shown, if it has one.
fn add_slot(
    out: &mut String,
    frame: &Frame,
    most: u64,
    longest: u64,
    cycles: &[CycleMark],
    slot: u32,
) -> Result<(), AllocError>
    requires { 0 < most × 0 < longest }
    ensures { OnOk result (string_bytes out.new ≡ string_bytes out.old ++ slot_text frame.now most longest cycles.now slot) }
{
    if !frame.has_slot(slot) {
        return Ok(());
    }
    match cycles.get(slot as usize) {
        Some(cycle) => add_mark(out, frame, most, longest, slot, *cycle),
        None => Ok(()),
    }
}

// Adds the numbers of the cycles, where a value that stands at the top is this much, and a queue so long.
fn add_slots(
    out: &mut String,
    frame: &Frame,
    most: u64,
    longest: u64,
    cycles: &[CycleMark],
) -> Result<(), AllocError>
    requires { 0 < most × 0 < longest }
    ensures { OnOk result (string_bytes out.new ≡ string_bytes out.old ++ slots_text frame.now most longest cycles.now) }
{
    for slot in 0..frame.until() {
        add_slot(out, frame, most, longest, cycles, slot)?;
    }
    Ok(())
}

// Adds the numbers of the cycles, and those of their axes.
fn add_cycles(out: &mut String, frame: &Frame, cycles: &[CycleMark]) -> Result<(), AllocError>
    ensures { OnOk result (string_bytes out.new ≡ string_bytes out.old ++ cycles_text frame.now cycles.now) }
{
    let (most, longest) = (most_of(cycles), most_waiting(cycles));
    add_slots(out, frame, most, longest, cycles)?;
    add_scale(out, frame, most)?;
    add_strips_scale(out, frame, longest)
}

/// Adds all that stands behind the bars.
pub(crate) fn add_back(
    out: &mut String,
    trace: &Trace,
    frame: &Frame,
    colours: &Colours,
    chart: &Chart,
) -> Result<(), AllocError>
    ensures { OnOk result (string_bytes out.new ≡ string_bytes out.old
        ++ back_text (scenario trace.entry.now) frame.now colours.entry.now chart.entry.now) }
{
    add_waits(out, trace, frame, chart.asked, &chart.waits)?;
    add_cycles(out, frame, &chart.cycles)?;
    add_legend(out, frame, by_text(colours))?;
    add_keys(out, frame, colours)?;
    out.push_str("</svg>\n")
}
