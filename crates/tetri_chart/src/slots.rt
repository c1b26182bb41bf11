// Which slots of a run a picture shows.
ghost use Rattle.std.specs.Prelude.{◌≡◌, ◌≤◌, ◌+◌};
ghost use Rattle.tetri_chart.specs.Pair.{shared_view};
ghost use Rattle.tetri_chart.specs.Slots.{asked_end, end_of, first_of, has_slots, is_ordered, is_within, last_end, last_wait, wanted_end};
ghost use Rattle.tetri_trace.specs.Scenario.{scenario};
ghost use Rattle.tetri_trace.specs.Sound.{IsSound};

use crate::picture::{Chart, Span, Wait};
use crate::view::View;
use tetri_svg::last_of;
use tetri_trace::Trace;

// Whether a run of so many slots has this slot, where one is named.
fn is_within(slots: u32, slot: Option<u32>) -> bool
    ensures { result ≡ is_within slots slot }
{
    match slot {
        Some(slot) => slot < slots,
        None => true,
    }
}

// The first slot that is shown.
fn first_of(view: &View) -> u32
    ensures { result ≡ first_of view.now }
{
    view.from.unwrap_or(0)
}

// Whether the last slot that is named is not before the first, where one is named.
fn is_ordered(first: u32, to: Option<u32>) -> bool
    ensures { result ≡ is_ordered first to }
{
    match to {
        Some(to) => first <= to,
        None => true,
    }
}

/// Whether the run has the cycle and the slots that are asked for.
pub(crate) fn has_slots(trace: &Trace, asked: Option<u32>, view: &View) -> bool
    ensures { result ≡ has_slots (scenario trace.now) asked view.now }
{
    let slots = trace.header.until;
    is_within(slots, asked)
        && is_within(slots, view.from)
        && is_within(slots, view.to)
        && is_ordered(first_of(view), view.to)
}

// The first slot in which no piece runs any more.
fn last_end(spans: &[Span]) -> u32
    ensures { result ≡ last_end spans.now }
{
    let mut end = 0;
    for span in spans {
        end = span.until.max(end);
    }
    end
}

// The first slot for which no waiting grant is planned any more.
fn last_wait(waits: &[Wait]) -> u32
    ensures { result ≡ last_wait waits.now }
{
    let mut end = 0;
    for wait in waits {
        end = wait.until.max(end);
    }
    end
}

// The first slot behind the cycle that is asked for and what it planned, if one is.
fn asked_end(chart: &Chart) -> u64
    ensures { result ≡ asked_end chart.now.asked chart.now.waits }
{
    match chart.asked {
        Some(cycle) => (u64::from(cycle) + 1).max(u64::from(last_wait(&chart.waits))),
        None => 0,
    }
}

// The first slot behind the last one that is named, or else behind those in which a piece runs or a waiting grant stands.
fn wanted_end(chart: &Chart, to: Option<u32>) -> u64
    ensures { result ≡ wanted_end to chart.now }
{
    match to {
        Some(to) => u64::from(to) + 1,
        None => u64::from(last_end(&chart.spans)).max(asked_end(chart)),
    }
}

/// The first slot that is shown, and the first behind those that are.
pub(crate) fn shown(trace: &Trace, chart: &Chart, view: &View) -> (u32, u32)
    requires { IsSound (scenario trace.now) }
    ensures first { result.0 ≡ first_of view.now }
    ensures end { result.1 ≡ end_of (scenario trace.entry.now) view.now chart.now }
    ensures most { result.1 ≤ 20000 }
{
    let first = first_of(view);
    let wanted = wanted_end(chart, view.to).max(u64::from(first) + 1);
    let most = trace.header.until + trace.header.window;
    (first, wanted.min(u64::from(most)) as u32)
}

/// How the pictures of two runs are shown over the same slots: up to the later of their ends.
pub(crate) fn shared_view(trace: &Trace, first: &Chart, second: &Chart, view: View) -> View
    requires { IsSound (scenario trace.now) }
    ensures { result ≡ shared_view (scenario trace.entry.now) view first.now second.now }
{
    let (_, one) = shown(trace, first, &view);
    let (_, other) = shown(trace, second, &view);
    View {
        from: view.from,
        to: Some(last_of(one.max(other))),
        clock: view.clock,
        colours: view.colours,
    }
}
