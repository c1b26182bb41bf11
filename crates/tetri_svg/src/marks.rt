// The marks on bars.
ghost use Rattle.std.specs.Prelude.{◌≡◌, ◌++◌, OnOk, string_bytes};
ghost use Rattle.tetri_svg.specs.Bars.{bare_end, end_text, mark_text, over_text};

use crate::area::add_area;
use crate::fate::Fate;
use crate::frame::Frame;
use crate::plain::add_marked;
use crate::sizes::last_of;
use std::alloc::AllocError;

// Adds a mark over these slots of a bar, of this class.
fn add_mark(
    out: &mut String,
    frame: &Frame,
    class: &str,
    node: u32,
    from: u32,
    until: u32,
) -> Result<(), AllocError>
    ensures { OnOk result (string_bytes out.new ≡ string_bytes out.old ++ mark_text frame.now class.now node from until) }
{
    add_marked(out, class)?;
    add_area(out, frame.bar(node, from, until))?;
    out.push_str("/>\n")
}

/// Adds the mark of the part beyond the end that was expected, if the picture shows some of it.
pub(crate) fn add_over(
    out: &mut String,
    frame: &Frame,
    node: u32,
    expected: u32,
    until: u32,
) -> Result<(), AllocError>
    ensures { OnOk result (string_bytes out.new ≡ string_bytes out.old ++ over_text frame.now node expected until) }
{
    if !frame.shows(expected, until) {
        return Ok(());
    }
    add_mark(out, frame, "over", node, expected, until)
}

/// Adds the mark on the last slot before the end of what was cancelled or failed, if the picture shows that slot.
pub(crate) fn add_end(
    out: &mut String,
    frame: &Frame,
    node: u32,
    until: u32,
    fate: Fate,
) -> Result<(), AllocError>
    ensures { OnOk result (string_bytes out.new ≡ string_bytes out.old ++ end_text frame.now node until fate) }
{
    if !frame.has_slot(last_of(until)) {
        return Ok(());
    }
    match fate {
        Fate::Cancelled => add_mark(out, frame, "cancelled", node, last_of(until), until),
        Fate::Failed => add_mark(out, frame, "failed", node, last_of(until), until),
        Fate::Ended | Fate::RunsOn => Ok(()),
    }
}

/// The slot before which a bar has no mark of its end.
pub(crate) fn bare_end(fate: Fate, until: u32) -> u32
    ensures { result ≡ bare_end fate until }
{
    match fate {
        Fate::Cancelled | Fate::Failed => last_of(until),
        Fate::Ended | Fate::RunsOn => until,
    }
}
