// What stands in a picture behind the bars: waiting grants and the numbers of cycles.
ghost use Rattle.std.specs.Prelude.{◌≡◌, ◌++◌, ◌<◌, ◌≤◌, OnOk, string_bytes};
ghost use Rattle.tetri_svg.specs.Back.{asked_text, bound_area, cycle_text, cycle_title, height_in, scale_text, value_area, wait_text};

use crate::area::{Area, add_area};
use crate::frame::Frame;
use crate::labels::add_name_over;
use crate::plain::{
    add_awaited, add_bounded, add_close, add_cycle_line, add_cycle_name, add_number, add_rect,
    add_slots, add_valued,
};
use crate::sizes::last_of;
use std::alloc::AllocError;

/// Adds what waits on a node for these slots, if the picture shows some of them.
pub fn add_wait(
    out: &mut String,
    frame: &Frame,
    job: &str,
    name: &str,
    node: u32,
    from: u32,
    until: u32,
) -> Result<(), AllocError>
    ensures { OnOk result (string_bytes out.new ≡ string_bytes out.old ++ wait_text frame.now job.now name.now node from until) }
{
    if !frame.shows(from, until) {
        return Ok(());
    }
    add_rect(out, "waits")?;
    add_area(out, frame.bar(node, from, until))?;
    add_awaited(out, job, name)?;
    add_slots(out, from, last_of(until))?;
    add_close(out)?;
    add_name_over(out, frame, 0, job, node, from, until)
}

/// Adds the line at which a cycle begins, if the picture shows its slot.
pub fn add_asked(out: &mut String, frame: &Frame, cycle: u32) -> Result<(), AllocError>
    ensures { OnOk result (string_bytes out.new ≡ string_bytes out.old ++ asked_text frame.now cycle) }
{
    if !frame.has_slot(cycle) {
        return Ok(());
    }
    add_cycle_line(out, frame.x(cycle), frame.bottom())?;
    add_cycle_name(out, cycle)
}

// How high a number stands, where 72 pixels are this much.
fn height_in(most: u64, number: u64) -> u64
    requires { 0 < most }
    ensures value { result ≡ height_in most number }
    ensures most { result ≤ 72 }
{
    (u128::from(number.min(most)) * 72 / u128::from(most)) as u64
}

// Adds the title of the numbers of a cycle.
fn add_cycle_title(
    out: &mut String,
    slot: u32,
    value: u64,
    bound: u64,
    mark: &str,
) -> Result<(), AllocError>
    ensures { OnOk result (string_bytes out.new ≡ string_bytes out.old ++ cycle_title slot value bound mark.now) }
{
    add_valued(out, slot, value)?;
    add_bounded(out, bound, mark)?;
    add_close(out)
}

// Where the value of a cycle stands.
fn value_area(frame: &Frame, most: u64, slot: u32, value: u64) -> Area
    requires { 0 < most }
    ensures { result ≡ value_area frame.now most slot value }
{
    let height = height_in(most, value);
    Area {
        x: frame.x(slot),
        y: frame.base() - height,
        width: u64::from(frame.column),
        height,
    }
}

// Where the bound of a cycle stands.
fn bound_area(frame: &Frame, most: u64, slot: u32, bound: u64) -> Area
    requires { 0 < most }
    ensures { result ≡ bound_area frame.now most slot bound }
{
    Area {
        x: frame.x(slot),
        y: frame.base() - height_in(most, bound) - 1,
        width: u64::from(frame.column),
        height: 2,
    }
}

/// Adds the value and the bound of a cycle.
pub fn add_cycle(
    out: &mut String,
    frame: &Frame,
    most: u64,
    slot: u32,
    value: u64,
    bound: u64,
    mark: &str,
) -> Result<(), AllocError>
    requires { 0 < most }
    ensures { OnOk result (string_bytes out.new ≡ string_bytes out.old ++ cycle_text frame.now most slot value bound mark.now) }
{
    add_rect(out, "value")?;
    add_area(out, value_area(frame, most, slot, value))?;
    add_cycle_title(out, slot, value, bound, mark)?;
    add_rect(out, "bound")?;
    add_area(out, bound_area(frame, most, slot, bound))?;
    add_cycle_title(out, slot, value, bound, mark)
}

/// Adds the numbers at the axis of values.
pub fn add_scale(out: &mut String, frame: &Frame, most: u64) -> Result<(), AllocError>
    ensures { OnOk result (string_bytes out.new ≡ string_bytes out.old ++ scale_text frame.now most) }
{
    let (x, base) = (u64::from(frame.left - 6), frame.base());
    add_number(out, x, base - 68, most)?;
    add_number(out, x, base + 4, 0)
}
