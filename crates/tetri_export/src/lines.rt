// Lines of free MPS, of given names and numbers.
ghost use Rattle.std.specs.Prelude.{◌≡◌, ◌++◌, OnOk, string_bytes};
ghost use Rattle.tetri_export.specs.Lines.{entry_line, gain_line, limit_line, loss_line, lower_line, right_line, upper_line};

use std::alloc::AllocError;
use std::fmt::Write;

/// Adds the name of a row that is at most its right side.
#[tactic(auto, unfolding(crate::specs::Lines::limit_line))]
pub(crate) fn add_limit(out: &mut String, name: &str) -> Result<(), AllocError>
    ensures { OnOk result (string_bytes out.new ≡ string_bytes out.old ++ limit_line name.now) }
{
    write!(out, " L {name}\n")
}

/// Adds what a column costs.
#[tactic(auto, unfolding(crate::specs::Lines::loss_line))]
pub(crate) fn add_loss(out: &mut String, name: &str, by: u128) -> Result<(), AllocError>
    ensures { OnOk result (string_bytes out.new ≡ string_bytes out.old ++ loss_line name.now by) }
{
    write!(out, " {name} value {by}\n")
}

/// Adds what a column earns, which is a cost below 0.
#[tactic(auto, unfolding(crate::specs::Lines::gain_line))]
pub(crate) fn add_gain(out: &mut String, name: &str, by: u128) -> Result<(), AllocError>
    ensures { OnOk result (string_bytes out.new ≡ string_bytes out.old ++ gain_line name.now by) }
{
    write!(out, " {name} value -{by}\n")
}

/// Adds how many times a column stands in a row.
#[tactic(auto, unfolding(crate::specs::Lines::entry_line))]
pub(crate) fn add_entry(out: &mut String, name: &str, row: &str, by: i128) -> Result<(), AllocError>
    ensures { OnOk result (string_bytes out.new ≡ string_bytes out.old ++ entry_line name.now row.now by) }
{
    write!(out, " {name} {row} {by}\n")
}

/// Adds the right side of a row.
#[tactic(auto, unfolding(crate::specs::Lines::right_line))]
pub(crate) fn add_right(out: &mut String, row: &str, right: i128) -> Result<(), AllocError>
    ensures { OnOk result (string_bytes out.new ≡ string_bytes out.old ++ right_line row.now right) }
{
    write!(out, " RIGHT {row} {right}\n")
}

/// Adds from where a column goes.
#[tactic(auto, unfolding(crate::specs::Lines::lower_line))]
pub(crate) fn add_lower(out: &mut String, name: &str, lower: i128) -> Result<(), AllocError>
    ensures { OnOk result (string_bytes out.new ≡ string_bytes out.old ++ lower_line name.now lower) }
{
    write!(out, " LO BOUND {name} {lower}\n")
}

/// Adds where to a column goes.
#[tactic(auto, unfolding(crate::specs::Lines::upper_line))]
pub(crate) fn add_upper(out: &mut String, name: &str, upper: i128) -> Result<(), AllocError>
    ensures { OnOk result (string_bytes out.new ≡ string_bytes out.old ++ upper_line name.now upper) }
{
    write!(out, " UP BOUND {name} {upper}\n")
}
