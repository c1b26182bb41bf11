// Which kind of certificate an instance has.
ghost use Rattle.std.specs.Prelude.{◌≡◌, ◌↔◌, IsTrue};
ghost use Rattle.tetri_claims.specs.Certified.{MayHaveTree};
ghost use Rattle.tetri_compile.specs.Flat.{column_count, row_count};
ghost use Rattle.tetri_space.specs.Space.{space};

use tetri_space::Instance;

// A tree stands with a plan where the program has at most so many columns and rows.
const MOST_COLUMNS: u64 = 2000;

const MOST_ROWS: u64 = 2000;

/// Whether a tree stands with the plans of an instance whose program has so many columns and rows: where a job is pending and
/// neither number is above 2,000. Elsewhere tops stand, beside these two numbers.
pub fn may_have_tree(inst: &Instance, columns: u64, rows: u64) -> bool
    requires columns { columns ≡ column_count (space inst.now) }
    requires rows { rows ≡ row_count (space inst.now) }
    ensures { IsTrue result ↔ MayHaveTree (space inst.entry.now) }
{
    !inst.jobs.is_empty() && columns <= MOST_COLUMNS && rows <= MOST_ROWS
}
