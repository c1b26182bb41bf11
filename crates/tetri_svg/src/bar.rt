// Bars.
ghost use Rattle.std.specs.Prelude.{◌≡◌, ◌++◌, OnOk, string_bytes};
ghost use Rattle.tetri_svg.specs.Bars.{bar_text, drawn_bar, fate_words, titled_text};

use crate::area::add_area;
use crate::fate::Fate;
use crate::frame::Frame;
use crate::labels::add_name_over;
use crate::marks::{add_end, add_over, bare_end};
use crate::plain::{add_close, add_coloured, add_fared, add_ran};
use crate::sizes::last_of;
use std::alloc::AllocError;

/// A piece of a job on a node.
#[derive(Clone, Copy, Debug, PartialEq, Eq)]
pub struct Bar {
    /// Its colour, by the number of a class of the style: 0 to 6, or 7 beside `add_grey`.
    pub colour: u32,
    /// The number of the node.
    pub node: u32,
    /// The slot in which it started.
    pub from: u32,
    /// The first slot in which it was expected to run no more.
    pub expected: u32,
    /// The first slot in which it ran no more.
    pub until: u32,
    /// What became of it.
    pub fate: Fate,
}

// What is said of what became of a piece.
fn fate_words(fate: Fate) -> &'static str
    ensures { result.now ≡ fate_words fate }
{
    match fate {
        Fate::Ended => "ended",
        Fate::Cancelled => "cancelled",
        Fate::Failed => "failed",
        Fate::RunsOn => "runs on",
    }
}

// Adds what is said of a bar, of these names.
fn add_title(out: &mut String, bar: Bar, job: &str, node: &str) -> Result<(), AllocError>
    ensures { OnOk result (string_bytes out.new ≡ string_bytes out.old ++ titled_text bar job.now node.now) }
{
    add_ran(out, job, node, bar.from, last_of(bar.until))?;
    add_fared(out, last_of(bar.expected), fate_words(bar.fate))?;
    add_close(out)
}

// Adds the rectangle of a bar, as far as the picture shows it, with its title.
fn add_rectangle(
    out: &mut String,
    frame: &Frame,
    bar: Bar,
    job: &str,
    node: &str,
) -> Result<(), AllocError>
    ensures { OnOk result (string_bytes out.new ≡ string_bytes out.old ++ bar_text frame.now bar job.now node.now) }
{
    add_coloured(out, bar.colour)?;
    add_area(out, frame.bar(bar.node, bar.from, bar.until))?;
    add_title(out, bar, job, node)
}

/// Adds a bar from its start to its end in its node's row, with its title, and the marks and the name on it.
pub fn add_bar(
    out: &mut String,
    frame: &Frame,
    bar: Bar,
    job: &str,
    node: &str,
) -> Result<(), AllocError>
    ensures { OnOk result (string_bytes out.new ≡ string_bytes out.old ++ drawn_bar frame.now bar job.now node.now) }
{
    add_rectangle(out, frame, bar, job, node)?;
    add_over(out, frame, bar.node, bar.expected, bar.until)?;
    add_end(out, frame, bar.node, bar.until, bar.fate)?;
    let end = bare_end(bar.fate, bar.until).min(bar.expected);
    add_name_over(out, frame, bar.colour, job, bar.node, bar.from, end)
}
