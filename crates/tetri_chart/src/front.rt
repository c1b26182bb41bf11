// What stands in a picture before the bars.
ghost use Rattle.std.specs.Prelude.{◌≡◌, ◌<◌, ◌++◌, OnOk, string_bytes};
ghost use Rattle.tetri_chart.specs.Ends.{front_text, name_by, names_by};
ghost use Rattle.tetri_trace.specs.Scenario.{scenario};
ghost use Rattle.tetri_trace.specs.Sound.{IsSound};

use crate::colours::add_further;
use crate::names::node_name;
use crate::shades::add_shades;
use crate::view::View;
use std::alloc::{AllocError, Global};
use tetri_svg::{Frame, add_axis, add_heading, add_name, add_opening, add_style, stride_for};
use tetri_trace::Trace;

// Adds the name of a node, where it is a multiple of the stride.
fn add_name_at(
    out: &mut String,
    trace: &Trace,
    frame: &Frame,
    stride: u32,
    node: u32,
) -> Result<(), AllocError>
    requires { 0 < stride }
    ensures { OnOk result (string_bytes out.new ≡ string_bytes out.old ++ name_by (scenario trace.entry.now) frame.now stride node) }
{
    if node % stride == 0 {
        add_name(out, frame, node, node_name(trace, node))?;
    }
    Ok(())
}

// Adds the names of nodes, at each multiple of the stride.
fn add_names(out: &mut String, trace: &Trace, frame: &Frame, stride: u32) -> Result<(), AllocError>
    requires { 0 < stride }
    ensures { OnOk result (string_bytes out.new ≡ string_bytes out.old ++ names_by (scenario trace.entry.now) frame.now stride) }
{
    for node in 0..frame.nodes() {
        add_name_at(out, trace, frame, stride, node)?;
    }
    Ok(())
}

/// Adds all that stands before the bars.
pub(crate) fn add_front(
    alloc: Global,
    out: &mut String,
    trace: &Trace,
    frame: &Frame,
    view: &View,
    pieces: usize,
) -> Result<(), AllocError>
    requires { IsSound (scenario trace.now) }
    ensures { OnOk result (string_bytes out.new ≡ string_bytes out.old ++ front_text (scenario trace.entry.now) frame.now view.entry.now pieces) }
{
    add_opening(out, frame)?;
    add_style(out, frame)?;
    add_further(out, &view.colours)?;
    add_heading(out, frame, pieces, trace.header.until)?;
    add_names(out, trace, frame, stride_for(frame.row(), 14))?;
    add_shades(alloc, out, trace, frame)?;
    add_axis(out, frame, view.clock)
}
