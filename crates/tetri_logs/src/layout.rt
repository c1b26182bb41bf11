// How a log is laid out.
ghost use Rattle.std.specs.Prelude.{◌≡◌, ◌↔◌, IsTrue};
ghost use Rattle.tetri_logs.specs.Layout.{first_layout};

use crate::entry::Format;
use crate::header::{Header, USUAL};

/// How a line is laid out.
#[derive(Clone, Copy, PartialEq, Eq)]
pub enum Layout {
    /// Words between blanks.
    Words,
    /// Columns between bars.
    Table(Header),
}

/// The layout with which a log begins.
pub fn first_layout(format: Format) -> Layout
    ensures { result ≡ first_layout format }
{
    match format {
        Format::Swf => Layout::Words,
        Format::Sacct => Layout::Table(USUAL),
    }
}

/// Whether two layouts are the same.
pub(crate) fn is_same_layout(one: &Layout, other: &Layout) -> bool
    ensures { IsTrue result ↔ (one.now ≡ other.now) }
{
    one == other
}
