// Rectangles.
ghost use Rattle.std.specs.Prelude.{◌≡◌, ◌++◌, OnOk, string_bytes};
ghost use Rattle.tetri_svg.specs.Areas.{area_text};

use std::alloc::AllocError;
use std::fmt::Write;

/// A rectangle, in pixels.
#[derive(Clone, Copy, Debug, PartialEq, Eq)]
pub struct Area {
    pub x: u64,
    pub y: u64,
    pub width: u64,
    pub height: u64,
}

/// Adds the attributes of a rectangle.
#[tactic(auto, unfolding(crate::specs::Areas::area_text))]
pub fn add_area(out: &mut String, area: Area) -> Result<(), AllocError>
    ensures { OnOk result (string_bytes out.new ≡ string_bytes out.old ++ area_text area) }
{
    write!(
        out,
        " x=\"{}\" y=\"{}\" width=\"{}\" height=\"{}\"",
        area.x, area.y, area.width, area.height
    )
}
