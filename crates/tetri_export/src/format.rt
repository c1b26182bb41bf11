// The formats of text.
ghost use Rattle.std.specs.Prelude.{◌≡◌, ◌++◌, length, map, OnOk, string_bytes};
ghost use Rattle.tetri_compile.specs.Flat.{plain};
ghost use Rattle.tetri_export.specs.Format.{text_in};

use crate::lp::add_lp;
use crate::mps::add_mps;
use std::alloc::{AllocError, Global};
use tetri_ip::Program;

/// A format in which other solvers read programs.
#[derive(Clone, Copy, Debug, PartialEq, Eq)]
pub enum Format {
    /// LP format.
    Lp,
    /// Free MPS.
    Mps,
}

/// Adds a program in a format to a text, by the names of its columns and of its rows, as `add_lp` and `add_mps` do.
pub fn add_program(
    alloc: Global,
    out: &mut String,
    format: Format,
    columns: &[String],
    names: &[String],
    program: &Program,
) -> Result<(), AllocError>
    requires { length program.now.upper.items ≡ length program.now.lower.items }
    ensures { OnOk result (string_bytes out.new ≡ string_bytes out.old
        ++ text_in format (map string_bytes columns.now) (map string_bytes names.now) (plain program.now)) }
{
    match format {
        Format::Lp => add_lp(out, columns, names, program),
        Format::Mps => add_mps(alloc, out, columns, names, program),
    }
}
