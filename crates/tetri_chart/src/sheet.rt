// Two pictures on a sheet, written piece by piece.
ghost use Rattle.std.specs.Prelude.{◌≡◌, ◌≤◌, IsErrOf, OnOk};
ghost use Rattle.std.specs.Io.KnownBytes.{append_known};
ghost use Rattle.tetri_algebra.specs.Counts.{Rose};
ghost use Rattle.tetri_chart.specs.Pair.{pair_text};
ghost use Rattle.tetri_chart.specs.Svg.{AppendsFront};
ghost use Rattle.tetri_io.specs.Sink.{AppendsPart};
ghost use Rattle.tetri_svg.specs.Sheet.{below_text, end_text, sheet_text};
ghost use Rattle.tetri_svg.specs.Sizes.{height_of};
ghost use Rattle.tetri_trace.specs.Scenario.{scenario};
ghost use Rattle.tetri_trace.specs.Sound.{IsSound};

use crate::framing::framed;
use crate::picture::Chart;
use crate::slots::shared_view;
use crate::view::View;
use crate::writing::draw;
use std::alloc::Global;
use tetri_io::{Sink, send_all};
use tetri_report::SendFault;
use tetri_svg::{Frame, add_below, add_end, add_sheet};
use tetri_trace::Trace;

// Writes what stands before the first picture, by one send.
fn send_sheet<K: Sink>(alloc: Global, frame: &Frame, sink: &mut K) -> Result<(), SendFault>
    ensures ok { OnOk result (K.written sink.new ≡ append_known (K.written sink.old) (sheet_text frame.now)) }
    ensures failed { IsErrOf result SendFault.Failed
        → AppendsPart (K.written sink.old) (K.written sink.new) (sheet_text frame.now) }
    ensures memory { IsErrOf result SendFault.NoMemory → K.written sink.new ≡ K.written sink.old }
    ensures write { IsErrOf result SendFault.Failed → Rose (K.faults sink.old) (K.faults sink.new) }
    ensures later { K.faults sink.old ≤ K.faults sink.new }
{
    let mut out = String::new(alloc);
    add_sheet(&mut out, frame)?;
    send_all(sink, out.as_bytes())?;
    Ok(())
}

// Writes what stands between the two pictures, by one send.
fn send_below<K: Sink>(alloc: Global, frame: &Frame, sink: &mut K) -> Result<(), SendFault>
    ensures ok { OnOk result (K.written sink.new ≡ append_known (K.written sink.old) (below_text (height_of frame.now))) }
    ensures failed { IsErrOf result SendFault.Failed
        → AppendsPart (K.written sink.old) (K.written sink.new) (below_text (height_of frame.now)) }
    ensures memory { IsErrOf result SendFault.NoMemory → K.written sink.new ≡ K.written sink.old }
    ensures write { IsErrOf result SendFault.Failed → Rose (K.faults sink.old) (K.faults sink.new) }
    ensures later { K.faults sink.old ≤ K.faults sink.new }
{
    let mut out = String::new(alloc);
    add_below(&mut out, frame)?;
    send_all(sink, out.as_bytes())?;
    Ok(())
}

// Writes what stands behind the second picture, by one send.
fn send_end<K: Sink>(alloc: Global, sink: &mut K) -> Result<(), SendFault>
    ensures ok { OnOk result (K.written sink.new ≡ append_known (K.written sink.old) (end_text)) }
    ensures failed { IsErrOf result SendFault.Failed
        → AppendsPart (K.written sink.old) (K.written sink.new) (end_text) }
    ensures memory { IsErrOf result SendFault.NoMemory → K.written sink.new ≡ K.written sink.old }
    ensures write { IsErrOf result SendFault.Failed → Rose (K.faults sink.old) (K.faults sink.new) }
    ensures later { K.faults sink.old ≤ K.faults sink.new }
{
    let mut out = String::new(alloc);
    add_end(&mut out)?;
    send_all(sink, out.as_bytes())?;
    Ok(())
}

/// Writes the pictures of two runs of the trace, one below the other, up to the later of their ends: each as `draw` writes it, and what stands
/// before, between and behind them by one send each. A fault leaves a proper front of both, and want of memory a front of them.
pub fn draw_pair<K: Sink>(
    alloc: Global,
    trace: &Trace,
    first: &Chart,
    second: &Chart,
    view: View,
    sink: &mut K,
) -> Result<(), SendFault>
    requires { IsSound (scenario trace.now) }
    ensures ok { OnOk result (K.written sink.new ≡ append_known (K.written sink.old) (pair_text (scenario trace.entry.now) view first.entry.now second.entry.now)) }
    ensures failed { IsErrOf result SendFault.Failed
        → AppendsPart (K.written sink.old) (K.written sink.new) (pair_text (scenario trace.entry.now) view first.entry.now second.entry.now) }
    ensures memory { IsErrOf result SendFault.NoMemory
        → AppendsFront (K.written sink.old) (K.written sink.new) (pair_text (scenario trace.entry.now) view first.entry.now second.entry.now) }
    ensures write { IsErrOf result SendFault.Failed → Rose (K.faults sink.old) (K.faults sink.new) }
    ensures later { K.faults sink.old ≤ K.faults sink.new }
{
    let shared = shared_view(trace, first, second, view);
    let frame = framed(trace, first, &shared);
    match send_sheet(alloc, &frame, sink) {
        Ok(()) => {}
        Err(stop) => return Err(stop),
    }
    match draw(alloc, trace, first, &shared, sink) {
        Ok(()) => {}
        Err(stop) => return Err(stop),
    }
    match send_below(alloc, &frame, sink) {
        Ok(()) => {}
        Err(stop) => return Err(stop),
    }
    match draw(alloc, trace, second, &shared, sink) {
        Ok(()) => {}
        Err(stop) => return Err(stop),
    }
    match send_end(alloc, sink) {
        Ok(()) => Ok(()),
        Err(stop) => Err(stop),
    }
}
