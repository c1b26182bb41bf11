// A sheet that holds two pictures, one below the other.
ghost use Rattle.std.specs.Prelude.{◌≡◌, ◌++◌, OnOk, string_bytes};
ghost use Rattle.tetri_svg.specs.Sheet.{below_text, end_text, sheet_text};
ghost use Rattle.tetri_svg.specs.Sizes.{height_of};

use crate::frame::Frame;
use crate::front::add_sized;
use std::alloc::AllocError;
use std::fmt::Write;

/// Adds the opening of a sheet with room for two pictures of this frame.
pub fn add_sheet(out: &mut String, frame: &Frame) -> Result<(), AllocError>
    ensures { OnOk result (string_bytes out.new ≡ string_bytes out.old ++ sheet_text frame.now) }
{
    add_sized(out, frame.width(), frame.height() * 2)
}

// Adds the opening of what stands on a sheet from this height on.
#[tactic(auto, unfolding(crate::specs::Sheet::below_text))]
fn add_below_at(out: &mut String, y: u64) -> Result<(), AllocError>
    ensures { OnOk result (string_bytes out.new ≡ string_bytes out.old ++ below_text y) }
{
    write!(out, "<g transform=\"translate(0 {y})\">\n")
}

/// Adds the opening of what stands on a sheet below a picture of this frame.
pub fn add_below(out: &mut String, frame: &Frame) -> Result<(), AllocError>
    ensures { OnOk result (string_bytes out.new ≡ string_bytes out.old ++ below_text (height_of frame.now)) }
{
    add_below_at(out, frame.height())
}

/// Adds the end of what stands there, and of the sheet.
#[tactic(auto, unfolding(crate::specs::Sheet::end_text))]
pub fn add_end(out: &mut String) -> Result<(), AllocError>
    ensures { OnOk result (string_bytes out.new ≡ string_bytes out.old ++ end_text) }
{
    out.push_str("</g>\n</svg>\n")
}
