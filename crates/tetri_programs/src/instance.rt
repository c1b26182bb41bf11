// The program of an instance, if its columns have numbers.
ghost use Rattle.std.specs.Prelude.{IfOk};
ghost use Rattle.tetri_programs.specs.Exported.{IsExportOf};
ghost use Rattle.tetri_space.specs.Sound.{IsSound};
ghost use Rattle.tetri_space.specs.Space.{space};

use crate::text::program_text;
use std::alloc::{AllocError, Global};
use tetri_cluster::Cluster;
use tetri_compile::size;
use tetri_export::Format;
use tetri_space::{Instance, find_partitions};

/// What comes of an export.
#[derive(Drop)]
pub enum Exported {
    /// The program as text.
    Text(String),
    /// The program has 2^31 columns or more, which is more than numbers of columns can tell.
    Wide {
        /// How many columns it would have.
        columns: u64,
        /// How many rows.
        rows: u64,
    },
    /// The run has no such cycle.
    NoCycle,
}

// How many columns a program may have, and one more.
const MOST: u64 = 2_147_483_648;

/// What is exported of an instance over the nodes of a cluster. Its only error is want of memory.
pub fn export_instance(
    alloc: Global,
    inst: &Instance,
    cluster: &Cluster,
    format: Format,
) -> Result<Exported, AllocError>
    requires { IsSound (space inst.now) }
    ensures { IfOk result (IsExportOf format cluster.entry.now (space inst.entry.now)) }
{
    let parts = find_partitions(alloc, inst)?;
    let (columns, rows) = size(inst, &parts);
    if columns >= MOST {
        return Ok(Exported::Wide { columns, rows });
    }
    let text = program_text(alloc, inst, &parts, cluster, format)?;
    Ok(Exported::Text(text))
}
