// The names on bars.
ghost use Rattle.std.specs.Prelude.{◌≡◌, ◌++◌, OnOk, string_bytes};
ghost use Rattle.tetri_svg.specs.Bars.{name_over};

use crate::frame::Frame;
use crate::plain::add_label;
use std::alloc::AllocError;

/// Adds a name over these slots of a node, in this colour, where there is room.
pub(crate) fn add_name_over(
    out: &mut String,
    frame: &Frame,
    colour: u32,
    name: &str,
    node: u32,
    from: u32,
    until: u32,
) -> Result<(), AllocError>
    ensures { OnOk result (string_bytes out.new ≡ string_bytes out.old ++ name_over frame.now colour name.now node from until) }
{
    if !frame.has_room(name.len(), from, until) {
        return Ok(());
    }
    add_label(out, colour, frame.x(from) + 4, frame.text_y(node), name)
}
