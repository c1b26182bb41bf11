// Texts of given names and numbers.
ghost use Rattle.std.specs.Prelude.{◌≡◌, ◌++◌, OnOk, string_bytes};
ghost use Rattle.tetri_export.specs.Plain.{added_text, box_text, empty_row_text, name_text, right_text, row_name_text, taken_text};

use std::alloc::AllocError;
use std::fmt::Write;

/// Adds how many times a column is added.
#[tactic(auto, unfolding(crate::specs::Plain::added_text))]
pub(crate) fn add_added(out: &mut String, by: u128, name: &str) -> Result<(), AllocError>
    ensures { OnOk result (string_bytes out.new ≡ string_bytes out.old ++ added_text by name.now) }
{
    write!(out, " + {by} {name}\n")
}

/// Adds how many times a column is taken away.
#[tactic(auto, unfolding(crate::specs::Plain::taken_text))]
pub(crate) fn add_taken(out: &mut String, by: u128, name: &str) -> Result<(), AllocError>
    ensures { OnOk result (string_bytes out.new ≡ string_bytes out.old ++ taken_text by name.now) }
{
    write!(out, " - {by} {name}\n")
}

/// Adds the name of a row before its terms.
#[tactic(auto, unfolding(crate::specs::Plain::row_name_text))]
pub(crate) fn add_row_name(out: &mut String, name: &str) -> Result<(), AllocError>
    ensures { OnOk result (string_bytes out.new ≡ string_bytes out.old ++ row_name_text name.now) }
{
    write!(out, " {name}:\n")
}

/// Adds the name of a row without terms.
#[tactic(auto, unfolding(crate::specs::Plain::empty_row_text))]
pub(crate) fn add_empty_row(out: &mut String, name: &str) -> Result<(), AllocError>
    ensures { OnOk result (string_bytes out.new ≡ string_bytes out.old ++ empty_row_text name.now) }
{
    write!(out, " {name}: 0 nothing\n")
}

/// Adds the right side of a row.
#[tactic(auto, unfolding(crate::specs::Plain::right_text))]
pub(crate) fn add_right(out: &mut String, right: i128) -> Result<(), AllocError>
    ensures { OnOk result (string_bytes out.new ≡ string_bytes out.old ++ right_text right) }
{
    write!(out, " <= {right}\n")
}

/// Adds from where to where a column goes.
#[tactic(auto, unfolding(crate::specs::Plain::box_text))]
pub(crate) fn add_box(
    out: &mut String,
    lower: i128,
    name: &str,
    upper: i128,
) -> Result<(), AllocError>
    ensures { OnOk result (string_bytes out.new ≡ string_bytes out.old
        ++ box_text lower name.now upper) }
{
    write!(out, " {lower} <= {name} <= {upper}\n")
}

/// Adds a name by itself.
#[tactic(auto, unfolding(crate::specs::Plain::name_text))]
pub(crate) fn add_name(out: &mut String, name: &str) -> Result<(), AllocError>
    ensures { OnOk result (string_bytes out.new ≡ string_bytes out.old ++ name_text name.now) }
{
    write!(out, " {name}\n")
}
