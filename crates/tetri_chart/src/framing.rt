// The frame of the picture of a run.
ghost use Rattle.std.specs.Prelude.{◌≡◌, ◌≤◌};
ghost use Rattle.tetri_chart.specs.Framing.{framed, longest};
ghost use Rattle.tetri_trace.specs.Scenario.{scenario};
ghost use Rattle.tetri_trace.specs.Sound.{IsSound};

use crate::colours::lines_of;
use crate::picture::Chart;
use crate::slots::shown;
use crate::view::View;
use tetri_svg::Frame;
use tetri_trace::Trace;

// How many letters the longest name of a node has.
fn longest_name(trace: &Trace) -> u32
    ensures value { result ≡ longest (scenario trace.entry.now).nodes }
    ensures most { result ≤ 64 }
{
    let mut longest = 0u32;
    for node in 0..trace.cluster.count() {
        longest = longest.max(trace.cluster.name_of(node).bytes().len() as u32);
    }
    longest
}

/// The frame of the picture of a run of the trace.
pub(crate) fn framed(trace: &Trace, chart: &Chart, view: &View) -> Frame
    requires { IsSound (scenario trace.now) }
    ensures { result ≡ framed (scenario trace.entry.now) view.now chart.now }
{
    let (first, until) = shown(trace, chart, view);
    let lines = lines_of(&view.colours);
    Frame::of(
        first,
        until,
        trace.cluster.count(),
        longest_name(trace),
        lines,
    )
}
