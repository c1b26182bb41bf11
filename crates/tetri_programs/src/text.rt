// The text of a cycle's program.
ghost use Rattle.std.specs.Prelude.{◌<◌, ◌^◌, IfOk, string_bytes};
ghost use Rattle.tetri_compile.specs.Flat.{column_count};
ghost use Rattle.tetri_programs.specs.Text.{TellsProgram};
ghost use Rattle.tetri_space.specs.Partitions.{ArePartitionsOf, parts_of};
ghost use Rattle.tetri_space.specs.Sound.{IsSound};
ghost use Rattle.tetri_space.specs.Space.{space};

use crate::head::head_of;
use crate::names::names_of;
use std::alloc::{AllocError, Global};
use tetri_cluster::Cluster;
use tetri_export::{Format, add_program};
use tetri_space::{Instance, Partitions};
use tetri_wide::program_of;

/// The program of an instance in a format, behind a head of comments, which has the nodes of each partition by the names of the
/// cluster. It is the program as it is defined, of any number of rows and of up to 2^31 - 1 columns. Its only error is want of memory.
pub fn program_text(
    alloc: Global,
    inst: &Instance,
    parts: &Partitions,
    cluster: &Cluster,
    format: Format,
) -> Result<String, AllocError>
    requires sound { IsSound (space inst.now) }
    requires partitions { ArePartitionsOf (space inst.now) (parts_of parts.now) }
    requires columns { column_count (space inst.now) < 2 ^ 31 }
    ensures { IfOk result (λ text. TellsProgram format cluster.entry.now (space inst.entry.now) (string_bytes text)) }
{
    let program = program_of(alloc, inst, parts)?;
    let names = names_of(alloc, inst, parts)?;
    let mut out = head_of(alloc, inst, parts, cluster, format)?;
    add_program(
        alloc,
        &mut out,
        format,
        &names.columns,
        &names.rows,
        &program,
    )?;
    Ok(out)
}
