// The strips below the values: the queue, and the nodes in use.
ghost use Rattle.std.specs.Prelude.{◌≡◌, ◌++◌, ◌<◌, ◌≤◌, OnOk, string_bytes};
ghost use Rattle.tetri_svg.specs.Strips.{column_area, queue_text, rise_in, strips_scale, use_text, whole_of};

use crate::area::{Area, add_area};
use crate::frame::Frame;
use crate::plain::{add_close, add_number, add_rect, add_used, add_waiting};
use std::alloc::AllocError;

// How high a number stands, where 48 pixels are this much.
fn rise_in(most: u64, number: u64) -> u64
    requires { 0 < most }
    ensures value { result ≡ rise_in most number }
    ensures most { result ≤ 48 }
{
    (u128::from(number.min(most)) * 48 / u128::from(most)) as u64
}

// Where a number of a slot stands above a base line.
fn column_area(frame: &Frame, base: u64, most: u64, slot: u32, number: u64) -> Area
    requires some { 0 < most }
    requires low { 96 ≤ base }
    ensures { result ≡ column_area frame.now base most slot number }
{
    let height = rise_in(most, number);
    Area {
        x: frame.x(slot),
        y: base - height,
        width: u64::from(frame.column),
        height,
    }
}

/// Adds the jobs that wait behind the cycle of a slot, where this many stand at the top.
pub fn add_queue(
    out: &mut String,
    frame: &Frame,
    most: u64,
    slot: u32,
    jobs: u64,
) -> Result<(), AllocError>
    requires { 0 < most }
    ensures { OnOk result (string_bytes out.new ≡ string_bytes out.old ++ queue_text frame.now most slot jobs) }
{
    add_rect(out, "queue")?;
    add_area(
        out,
        column_area(frame, frame.queue_base(), most, slot, jobs),
    )?;
    add_waiting(out, slot, jobs)?;
    add_close(out)
}

// How many nodes stand at the top.
fn whole_of(frame: &Frame) -> u64
    ensures value { result ≡ whole_of frame.now }
    ensures some { 0 < result }
{
    u64::from(frame.nodes).max(1)
}

/// Adds the nodes in use in a slot.
pub fn add_use(out: &mut String, frame: &Frame, slot: u32, used: u32) -> Result<(), AllocError>
    ensures { OnOk result (string_bytes out.new ≡ string_bytes out.old ++ use_text frame.now slot used) }
{
    let whole = whole_of(frame);
    add_rect(out, "used")?;
    add_area(
        out,
        column_area(frame, frame.use_base(), whole, slot, u64::from(used)),
    )?;
    add_used(out, slot, used, frame.nodes)?;
    add_close(out)
}

/// Adds the numbers at the axes of both.
pub fn add_strips_scale(out: &mut String, frame: &Frame, most: u64) -> Result<(), AllocError>
    ensures { OnOk result (string_bytes out.new ≡ string_bytes out.old ++ strips_scale frame.now most) }
{
    let x = u64::from(frame.left - 6);
    let (queue, used) = (frame.queue_base(), frame.use_base());
    add_number(out, x, queue - 44, most)?;
    add_number(out, x, queue + 4, 0)?;
    add_number(out, x, used - 44, whole_of(frame))?;
    add_number(out, x, used + 4, 0)
}
