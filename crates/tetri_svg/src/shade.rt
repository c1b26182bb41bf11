// Shades of rows.
ghost use Rattle.std.specs.Prelude.{◌≡◌, ◌++◌, OnOk, string_bytes};
ghost use Rattle.tetri_svg.specs.Shade.{shade_text};

use crate::area::add_area;
use crate::frame::Frame;
use crate::plain::{add_close, add_out, add_rect};
use crate::sizes::last_of;
use std::alloc::AllocError;

/// Adds the shade of those of these slots of a node's row that the picture shows, if it shows some, of this class and with these words.
pub fn add_shade(
    out: &mut String,
    frame: &Frame,
    class: &str,
    words: &str,
    name: &str,
    node: u32,
    from: u32,
    until: u32,
) -> Result<(), AllocError>
    ensures { OnOk result (string_bytes out.new ≡ string_bytes out.old ++ shade_text frame.now class.now words.now name.now node from until) }
{
    if !frame.shows(from, until) {
        return Ok(());
    }
    add_rect(out, class)?;
    add_area(out, frame.area(node, from, until))?;
    add_out(out, name, words, from, last_of(until))?;
    add_close(out)
}
