// The bars of a picture.
ghost use Rattle.std.specs.Prelude.{◌≡◌, ◌++◌, OnOk, string_bytes};
ghost use Rattle.tetri_chart.specs.Text.{bar_of, meets, meeting, node_text, nodes_text, span_text};
ghost use Rattle.tetri_trace.specs.Scenario.{scenario};

use crate::colours::{Paint, colour_of};
use crate::names::{job_name, node_name};
use crate::picture::Span;
use std::alloc::AllocError;
use tetri_svg::{Bar, Frame, add_bar};
use tetri_trace::Trace;

// The bar of a piece on a node, in this colour.
fn bar_of(colour: u32, span: &Span, node: u32) -> Bar
    ensures { result ≡ bar_of colour span.now node }
{
    Bar {
        colour,
        node,
        from: span.from,
        expected: span.expected,
        until: span.until,
        fate: span.fate,
    }
}

// Adds the bar of a piece on a node.
fn add_node(
    out: &mut String,
    trace: &Trace,
    frame: &Frame,
    paint: &Paint,
    span: &Span,
    node: u32,
) -> Result<(), AllocError>
    ensures { OnOk result (string_bytes out.new ≡ string_bytes out.old
        ++ node_text (scenario trace.entry.now) frame.now paint.entry.now span.entry.now node) }
{
    let job = job_name(trace, span.job);
    let name = node_name(trace, node);
    let colour = colour_of(trace, paint, span, node);
    add_bar(out, frame, bar_of(colour, span, node), job, name)
}

// Whether a piece runs in a slot that the picture shows.
fn meets(frame: &Frame, span: &Span) -> bool
    ensures { result ≡ meets frame.now span.now }
{
    frame.shows(span.from, span.until)
}

/// How many pieces do.
pub(crate) fn meeting(frame: &Frame, spans: &[Span]) -> usize
    ensures { result ≡ meeting frame.now spans.now }
{
    spans.iter().filter(|span| meets(frame, span)).count()
}

// Adds a piece on each of its nodes.
fn add_nodes(
    out: &mut String,
    trace: &Trace,
    frame: &Frame,
    paint: &Paint,
    span: &Span,
) -> Result<(), AllocError>
    ensures { OnOk result (string_bytes out.new ≡ string_bytes out.old
        ++ nodes_text (scenario trace.entry.now) frame.now paint.entry.now span.entry.now) }
{
    for node in span.nodes.as_slice() {
        add_node(out, trace, frame, paint, span, *node)?;
    }
    Ok(())
}

/// Adds a piece: a bar on each of its nodes, where it runs in a slot that the picture shows.
pub(crate) fn add_span(
    out: &mut String,
    trace: &Trace,
    frame: &Frame,
    paint: &Paint,
    span: &Span,
) -> Result<(), AllocError>
    ensures { OnOk result (string_bytes out.new ≡ string_bytes out.old
        ++ span_text (scenario trace.entry.now) frame.now paint.entry.now span.entry.now) }
{
    if !meets(frame, span) {
        return Ok(());
    }
    add_nodes(out, trace, frame, paint, span)
}
