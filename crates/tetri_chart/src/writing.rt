// The picture, written piece by piece.
ghost use Rattle.std.specs.Prelude.{◌≡◌, ◌≤◌, IsErrOf, OnOk};
ghost use Rattle.std.specs.Io.KnownBytes.{append_known};
ghost use Rattle.tetri_algebra.specs.Counts.{Rose};
ghost use Rattle.tetri_chart.specs.Svg.{AppendsFront, bars_text, svg_text};
ghost use Rattle.tetri_chart.specs.Ends.{back_text, front_text};
ghost use Rattle.tetri_chart.specs.Text.{span_text};
ghost use Rattle.tetri_io.specs.Sink.{AppendsPart};
ghost use Rattle.tetri_trace.specs.Scenario.{scenario};
ghost use Rattle.tetri_trace.specs.Sound.{IsSound};

use crate::back::add_back;
use crate::bars::{add_span, meeting};
use crate::colours::{Paint, paint_of};
use crate::framing::framed;
use crate::front::add_front;
use crate::picture::{Chart, Span};
use crate::view::{Colours, View};
use std::alloc::Global;
use tetri_io::{Sink, send_all};
use tetri_report::SendFault;
use tetri_svg::Frame;
use tetri_trace::Trace;

// Writes what stands before the bars, by one send.
fn send_front<K: Sink>(
    alloc: Global,
    trace: &Trace,
    frame: &Frame,
    view: &View,
    pieces: usize,
    sink: &mut K,
) -> Result<(), SendFault>
    requires { IsSound (scenario trace.now) }
    ensures ok { OnOk result (K.written sink.new ≡ append_known (K.written sink.old) (front_text (scenario trace.entry.now) frame.now view.entry.now pieces)) }
    ensures failed { IsErrOf result SendFault.Failed
        → AppendsPart (K.written sink.old) (K.written sink.new) (front_text (scenario trace.entry.now) frame.now view.entry.now pieces) }
    ensures memory { IsErrOf result SendFault.NoMemory → K.written sink.new ≡ K.written sink.old }
    ensures write { IsErrOf result SendFault.Failed → Rose (K.faults sink.old) (K.faults sink.new) }
    ensures later { K.faults sink.old ≤ K.faults sink.new }
{
    let mut out = String::new(alloc);
    add_front(alloc, &mut out, trace, frame, view, pieces)?;
    send_all(sink, out.as_bytes())?;
    Ok(())
}

// Writes the bars of a piece, by one send.
fn send_span<K: Sink>(
    alloc: Global,
    trace: &Trace,
    frame: &Frame,
    paint: &Paint,
    span: &Span,
    sink: &mut K,
) -> Result<(), SendFault>
    ensures ok { OnOk result (K.written sink.new ≡ append_known (K.written sink.old) (span_text (scenario trace.entry.now) frame.now paint.entry.now span.entry.now)) }
    ensures failed { IsErrOf result SendFault.Failed
        → AppendsPart (K.written sink.old) (K.written sink.new) (span_text (scenario trace.entry.now) frame.now paint.entry.now span.entry.now) }
    ensures memory { IsErrOf result SendFault.NoMemory → K.written sink.new ≡ K.written sink.old }
    ensures write { IsErrOf result SendFault.Failed → Rose (K.faults sink.old) (K.faults sink.new) }
    ensures later { K.faults sink.old ≤ K.faults sink.new }
{
    let mut out = String::new(alloc);
    add_span(&mut out, trace, frame, paint, span)?;
    send_all(sink, out.as_bytes())?;
    Ok(())
}

// Writes the bars of the pieces.
fn send_spans<K: Sink>(
    alloc: Global,
    trace: &Trace,
    frame: &Frame,
    paint: &Paint,
    spans: &[Span],
    sink: &mut K,
) -> Result<(), SendFault>
    ensures ok { OnOk result (K.written sink.new ≡ append_known (K.written sink.old) (bars_text (scenario trace.entry.now) frame.now paint.entry.now spans.entry.now)) }
    ensures failed { IsErrOf result SendFault.Failed
        → AppendsPart (K.written sink.old) (K.written sink.new) (bars_text (scenario trace.entry.now) frame.now paint.entry.now spans.entry.now) }
    ensures memory { IsErrOf result SendFault.NoMemory
        → AppendsFront (K.written sink.old) (K.written sink.new) (bars_text (scenario trace.entry.now) frame.now paint.entry.now spans.entry.now) }
    ensures write { IsErrOf result SendFault.Failed → Rose (K.faults sink.old) (K.faults sink.new) }
    ensures later { K.faults sink.old ≤ K.faults sink.new }
{
    for span in spans {
        match send_span(alloc, trace, frame, paint, span, sink) {
            Ok(()) => {}
            Err(stop) => return Err(stop),
        }
    }
    Ok(())
}

// Writes what stands behind the bars, by one send.
fn send_back<K: Sink>(
    alloc: Global,
    trace: &Trace,
    frame: &Frame,
    colours: &Colours,
    chart: &Chart,
    sink: &mut K,
) -> Result<(), SendFault>
    ensures ok { OnOk result (K.written sink.new ≡ append_known (K.written sink.old) (back_text (scenario trace.entry.now) frame.now colours.entry.now chart.entry.now)) }
    ensures failed { IsErrOf result SendFault.Failed
        → AppendsPart (K.written sink.old) (K.written sink.new) (back_text (scenario trace.entry.now) frame.now colours.entry.now chart.entry.now) }
    ensures memory { IsErrOf result SendFault.NoMemory → K.written sink.new ≡ K.written sink.old }
    ensures write { IsErrOf result SendFault.Failed → Rose (K.faults sink.old) (K.faults sink.new) }
    ensures later { K.faults sink.old ≤ K.faults sink.new }
{
    let mut out = String::new(alloc);
    add_back(&mut out, trace, frame, colours, chart)?;
    send_all(sink, out.as_bytes())?;
    Ok(())
}

/// Writes the picture of these slots: what stands before the bars by one send, the bars of each piece by one more, and what stands behind them by one
/// more. A fault leaves a proper front of the picture, and want of memory a front of it.
pub fn draw<K: Sink>(
    alloc: Global,
    trace: &Trace,
    chart: &Chart,
    view: &View,
    sink: &mut K,
) -> Result<(), SendFault>
    requires { IsSound (scenario trace.now) }
    ensures ok { OnOk result (K.written sink.new ≡ append_known (K.written sink.old) (svg_text (scenario trace.entry.now) view.entry.now chart.entry.now)) }
    ensures failed { IsErrOf result SendFault.Failed
        → AppendsPart (K.written sink.old) (K.written sink.new) (svg_text (scenario trace.entry.now) view.entry.now chart.entry.now) }
    ensures memory { IsErrOf result SendFault.NoMemory
        → AppendsFront (K.written sink.old) (K.written sink.new) (svg_text (scenario trace.entry.now) view.entry.now chart.entry.now) }
    ensures write { IsErrOf result SendFault.Failed → Rose (K.faults sink.old) (K.faults sink.new) }
    ensures later { K.faults sink.old ≤ K.faults sink.new }
{
    let paint = paint_of(alloc, trace, &view.colours)?;
    let frame = framed(trace, chart, view);
    let pieces = meeting(&frame, &chart.spans);
    match send_front(alloc, trace, &frame, view, pieces, sink) {
        Ok(()) => {}
        Err(stop) => return Err(stop),
    }
    match send_spans(alloc, trace, &frame, &paint, &chart.spans, sink) {
        Ok(()) => {}
        Err(stop) => return Err(stop),
    }
    match send_back(alloc, trace, &frame, &view.colours, chart, sink) {
        Ok(()) => Ok(()),
        Err(stop) => Err(stop),
    }
}
