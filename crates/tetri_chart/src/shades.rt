// The slots in which nodes take no work: drained, failed or closed.
ghost use Rattle.std.specs.Prelude.{◌≡◌, ◌++◌, All, List, IfOk, OnOk, flat_map, string_bytes};
ghost use Rattle.tetri_chart.specs.Shades.{closure_text, end_of, ends_of, node_of, outage_text, outages_text, shades_text};
ghost use Rattle.tetri_state.specs.Begin.{IsOfNodeBelow};
ghost use Rattle.tetri_trace.specs.Scenario.{scenario};
ghost use Rattle.tetri_trace.specs.Sound.{IsSound};
ghost use Rattle.tetri_trace.specs.declared.trace.Event.{Event};

use crate::names::node_name;
use std::alloc::{AllocError, Global};
use tetri_space::Closure;
use tetri_svg::{Frame, add_shade};
use tetri_trace::{Event, Happening, Trace};

// The node that an event drains, brings back or lets fail, if it is of one.
fn node_of(what: Happening) -> Option<u32>
    ensures { result ≡ node_of what }
{
    match what {
        Happening::Drain(node) | Happening::Undrain(node) | Happening::Fail(node) => Some(node),
        Happening::Arrive(_) | Happening::Cancel(_) => None,
    }
}

// By event, the slot up to which it shades: that of the next event of its node, or this slot where there is none. It goes once through
// the events, from the last one on.
fn find_ends(
    alloc: Global,
    events: &[Event],
    nodes: u32,
    until: u32,
) -> Result<Vec<u32>, AllocError>
    requires { All (λ e. IsOfNodeBelow nodes e.what) events.now }
    ensures { IfOk result (λ v. v.items ≡ ends_of until events.entry.now) }
{
    let mut next = vec![in alloc; until; nodes as usize]?;
    let mut ends = vec![in alloc; 0; events.len()]?;
    let mut left = events.len();
    while left > 0 {
        left -= 1;
        let event = events[left];
        match node_of(event.what) {
            Some(node) => {
                ends[left] = next[node as usize];
                next[node as usize] = event.at;
            }
            None => ends[left] = until,
        }
    }
    Ok(ends)
}

// Adds what an event shades: its node from its slot on, up to this slot.
fn add_outage(
    out: &mut String,
    trace: &Trace,
    frame: &Frame,
    event: Event,
    end: u32,
) -> Result<(), AllocError>
    ensures { (later : List Event) → end ≡ end_of (scenario trace.entry.now).header.until (node_of event.what) later
        → OnOk result (string_bytes out.new ≡ string_bytes out.old
        ++ outage_text (scenario trace.entry.now) frame.now event later) }
{
    match event.what {
        Happening::Drain(node) => {
            let name = node_name(trace, node);
            add_shade(out, frame, "drained", "drained", name, node, event.at, end)
        }
        Happening::Fail(node) => {
            let name = node_name(trace, node);
            add_shade(out, frame, "broken", "failed", name, node, event.at, end)
        }
        Happening::Undrain(_) | Happening::Arrive(_) | Happening::Cancel(_) => Ok(()),
    }
}

// Adds what the events shade.
fn add_outages(
    alloc: Global,
    out: &mut String,
    trace: &Trace,
    frame: &Frame,
) -> Result<(), AllocError>
    requires { IsSound (scenario trace.now) }
    ensures { OnOk result (string_bytes out.new ≡ string_bytes out.old
        ++ outages_text (scenario trace.entry.now) frame.now (scenario trace.entry.now).events) }
{
    let nodes = trace.cluster.count();
    let ends = find_ends(alloc, &trace.events, nodes, trace.header.until)?;
    for (place, event) in trace.events.iter().enumerate() {
        add_outage(out, trace, frame, *event, ends[place])?;
    }
    Ok(())
}

// Adds what a closure shades, as far as the run goes.
fn add_closure(
    out: &mut String,
    trace: &Trace,
    frame: &Frame,
    closure: Closure,
) -> Result<(), AllocError>
    ensures { OnOk result (string_bytes out.new ≡ string_bytes out.old ++ closure_text (scenario trace.entry.now) frame.now closure) }
{
    let end = closure.to.saturating_add(1).min(trace.header.until);
    let name = node_name(trace, closure.node);
    add_shade(
        out,
        frame,
        "closed",
        "closed",
        name,
        closure.node,
        closure.from,
        end,
    )
}

// Adds what the closures shade.
fn add_closures(out: &mut String, trace: &Trace, frame: &Frame) -> Result<(), AllocError>
    ensures { OnOk result (string_bytes out.new ≡ string_bytes out.old
        ++ flat_map (closure_text (scenario trace.entry.now) frame.now) (scenario trace.entry.now).closures) }
{
    for closure in trace.closures.as_slice() {
        add_closure(out, trace, frame, *closure)?;
    }
    Ok(())
}

/// Adds the shades of nodes that are drained, failed or closed.
pub(crate) fn add_shades(
    alloc: Global,
    out: &mut String,
    trace: &Trace,
    frame: &Frame,
) -> Result<(), AllocError>
    requires { IsSound (scenario trace.now) }
    ensures { OnOk result (string_bytes out.new ≡ string_bytes out.old
        ++ shades_text (scenario trace.entry.now) frame.now) }
{
    add_outages(alloc, out, trace, frame)?;
    add_closures(out, trace, frame)
}
