// What stands in a picture before the bars: its size, the heading, the names of nodes and the axis.
ghost use Rattle.std.specs.Prelude.{◌≡◌, ◌<◌, ◌++◌, OnOk, string_bytes};
ghost use Rattle.tetri_svg.specs.Front.{axis_text, clock_text, heading_text, is_dated, is_whole, lines_text, name_text, opening_text, sized_text, stride_of, tick_at, tick_text, ticks_text, words_at, words_text};

use crate::clock::{Clock, date_of, day_of, minute_of, time_of};
use crate::frame::Frame;
use crate::plain::{
    add_axis_at, add_counts, add_date, add_font, add_level, add_named, add_of, add_part, add_size,
    add_slot, add_slots, add_svg, add_time, add_upright, add_view,
};
use crate::sizes::{last_of, stride_for};
use std::alloc::AllocError;

/// Adds the first element of a picture of this size, whose end is the end of the picture.
pub(crate) fn add_sized(out: &mut String, width: u64, height: u64) -> Result<(), AllocError>
    ensures { OnOk result (string_bytes out.new ≡ string_bytes out.old ++ sized_text width height) }
{
    add_svg(out)?;
    add_size(out, width, height)?;
    add_view(out, width, height)?;
    add_font(out)
}

/// Adds the first element, whose end is the end of the picture.
pub fn add_opening(out: &mut String, frame: &Frame) -> Result<(), AllocError>
    ensures { OnOk result (string_bytes out.new ≡ string_bytes out.old ++ opening_text frame.now) }
{
    add_sized(out, frame.width(), frame.height())
}

// Whether the picture shows all of so many slots.
fn is_whole(frame: &Frame, slots: u32) -> bool
    ensures { result ≡ is_whole frame.now slots }
{
    frame.first == 0 && slots <= frame.until
}

// Adds how many pieces the picture has, on how many nodes, in so many slots, or in which of them.
fn add_words(out: &mut String, frame: &Frame, pieces: usize, slots: u32) -> Result<(), AllocError>
    ensures { OnOk result (string_bytes out.new ≡ string_bytes out.old ++ words_text frame.now pieces slots) }
{
    if is_whole(frame, slots) {
        return add_counts(out, pieces, frame.nodes, slots);
    }
    add_part(out, pieces, frame.nodes)?;
    add_slots(out, frame.first, last_of(frame.until.min(slots)))?;
    add_of(out, slots)
}

/// Adds what the picture of a run of so many slots is of, as a title and as a heading.
pub fn add_heading(
    out: &mut String,
    frame: &Frame,
    pieces: usize,
    slots: u32,
) -> Result<(), AllocError>
    ensures { OnOk result (string_bytes out.new ≡ string_bytes out.old ++ heading_text frame.now pieces slots) }
{
    out.push_str("<title>")?;
    add_words(out, frame, pieces, slots)?;
    out.push_str("</title>\n<text x=\"24\" y=\"16\" font-size=\"13\">")?;
    add_words(out, frame, pieces, slots)?;
    out.push_str("</text>\n")
}

/// Adds the name of a node at its row.
pub fn add_name(out: &mut String, frame: &Frame, node: u32, name: &str) -> Result<(), AllocError>
    ensures { OnOk result (string_bytes out.new ≡ string_bytes out.old ++ name_text frame.now node name.now) }
{
    add_named(out, u64::from(frame.left - 6), frame.text_y(node), name)
}

// Whether a time stands at the axis with its date: where the slot is the first of these, which are so far apart, or the day is another one
// than at the one before it.
fn is_dated(frame: &Frame, clock: Clock, stride: u32, slot: u32) -> bool
    ensures { result ≡ is_dated frame.now clock stride slot }
{
    let before = day_of(time_of(clock, slot.saturating_sub(stride)));
    u64::from(slot) < u64::from(frame.first) + u64::from(stride)
        || day_of(time_of(clock, slot)) != before
}

// Adds the clock time of a slot, in UTC.
fn add_clock(
    out: &mut String,
    frame: &Frame,
    clock: Clock,
    stride: u32,
    slot: u32,
) -> Result<(), AllocError>
    ensures { OnOk result (string_bytes out.new ≡ string_bytes out.old ++ clock_text frame.now clock stride slot) }
{
    let time = time_of(clock, slot);
    let minute = minute_of(time);
    add_axis_at(out, frame.x(slot))?;
    if is_dated(frame, clock, stride, slot) {
        add_date(out, date_of(day_of(time)))?;
    }
    add_time(out, minute / 60, minute % 60)
}

// Adds the words at the axis where a slot begins: its number, or its clock time.
fn add_words_at(
    out: &mut String,
    frame: &Frame,
    clock: Option<Clock>,
    stride: u32,
    slot: u32,
) -> Result<(), AllocError>
    ensures { OnOk result (string_bytes out.new ≡ string_bytes out.old ++ words_at frame.now clock stride slot) }
{
    match clock {
        Some(clock) => add_clock(out, frame, clock, stride, slot),
        None => add_slot(out, frame.x(slot), slot),
    }
}

// Adds a line of the grid, and the words where its slot begins.
fn add_tick(
    out: &mut String,
    frame: &Frame,
    clock: Option<Clock>,
    stride: u32,
    slot: u32,
) -> Result<(), AllocError>
    ensures { OnOk result (string_bytes out.new ≡ string_bytes out.old ++ tick_text frame.now clock stride slot) }
{
    add_upright(out, frame.x(slot), frame.use_base())?;
    add_words_at(out, frame, clock, stride, slot)
}

// Adds the same where the picture shows the slot, and it is a multiple of the stride.
fn add_tick_at(
    out: &mut String,
    frame: &Frame,
    clock: Option<Clock>,
    stride: u32,
    slot: u32,
) -> Result<(), AllocError>
    requires { 0 < stride }
    ensures { OnOk result (string_bytes out.new ≡ string_bytes out.old ++ tick_at frame.now clock stride slot) }
{
    if frame.first <= slot && slot % stride == 0 {
        add_tick(out, frame, clock, stride, slot)
    } else {
        Ok(())
    }
}

// Adds the upright lines of the grid with the words at them, at each multiple of the stride.
fn add_ticks(
    out: &mut String,
    frame: &Frame,
    clock: Option<Clock>,
    stride: u32,
) -> Result<(), AllocError>
    requires { 0 < stride }
    ensures { OnOk result (string_bytes out.new ≡ string_bytes out.old ++ ticks_text frame.now clock stride) }
{
    for slot in 0..frame.until {
        add_tick_at(out, frame, clock, stride, slot)?;
    }
    Ok(())
}

// Adds the lines above and below the rows, and below the numbers of cycles, the queue and the nodes in use.
fn add_lines(out: &mut String, frame: &Frame) -> Result<(), AllocError>
    ensures { OnOk result (string_bytes out.new ≡ string_bytes out.old ++ lines_text frame.now) }
{
    let (left, right) = (u64::from(frame.left), frame.right());
    add_level(out, left, 44, right)?;
    add_level(out, left, frame.bottom(), right)?;
    add_level(out, left, frame.base(), right)?;
    add_level(out, left, frame.queue_base(), right)?;
    add_level(out, left, frame.use_base(), right)
}

// How many slots are from one line of the grid to the next: more where dates have to stand between.
fn stride_of(frame: &Frame, clock: Option<Clock>) -> u32
    ensures value { result ≡ stride_of frame.now clock }
    ensures some { 0 < result }
{
    match clock {
        Some(_) => stride_for(frame.column, 50) * 2,
        None => stride_for(frame.column, 40),
    }
}

/// Adds the grid with the numbers of slots, or with clock times.
pub fn add_axis(out: &mut String, frame: &Frame, clock: Option<Clock>) -> Result<(), AllocError>
    ensures { OnOk result (string_bytes out.new ≡ string_bytes out.old ++ axis_text frame.now clock) }
{
    add_ticks(out, frame, clock, stride_of(frame, clock))?;
    add_lines(out, frame)
}
