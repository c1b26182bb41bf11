// The terms of rows by column.
ghost use Rattle.std.specs.Prelude.{◌≡◌, ◌<◌, ◌++◌, ℕ, [], length, map, replicate, IfOk, OnOk};
ghost use Rattle.tetri_base.specs.Lists.{list_at};
ghost use Rattle.tetri_compile.specs.Flat.{plain_row};
ghost use Rattle.tetri_export.specs.Mps.{entries_at, entries_from, row_entries};

use std::alloc::{AllocError, Global};
use tetri_ip::{Row, Term};

/// How many times a column stands in a row.
#[derive(Clone, Copy)]
pub struct Entry {
    pub row: usize,
    pub column: u32,
    pub by: i128,
}

// Adds the terms of a row.
fn add_entries(out: &mut Vec<Entry>, row: usize, terms: &[Term]) -> Result<(), AllocError>
    ensures { OnOk result (out.new.items ≡ out.old.items ++ row_entries row terms.now) }
{
    for term in terms {
        out.push(Entry {
            row,
            column: term.column,
            by: term.by,
        })?;
    }
    Ok(())
}

/// The terms of rows, row by row.
pub(crate) fn entries_of(alloc: Global, rows: &[Row]) -> Result<Vec<Entry>, AllocError>
    ensures { IfOk result (λ v. v.items ≡ entries_from 0 (map plain_row rows.now)) }
{
    let mut entries = Vec::new(alloc);
    for row in 0..rows.len() {
        add_entries(&mut entries, row, &rows[row].terms)?;
    }
    Ok(entries)
}

fn empty_lists(alloc: Global, count: usize) -> Result<Vec<Vec<Entry>>, AllocError>
    ensures { IfOk result (λ v. map (λ x. x.items) v.items ≡ replicate count []) }
{
    let mut lists = Vec::with_capacity(alloc, count)?;
    for _ in 0..count {
        lists.push(Vec::new(alloc))?;
    }
    Ok(lists)
}

/// The entries of each of so many columns, in their order.
pub(crate) fn by_column(
    alloc: Global,
    count: usize,
    entries: &[Entry],
) -> Result<Vec<Vec<Entry>>, AllocError>
    ensures count { IfOk result (λ v. length v.items ≡ count) }
    ensures columns { IfOk result (λ v. (j : ℕ) → j < count → list_at v.items j ≡ entries_at entries.now j) }
{
    let mut lists = empty_lists(alloc, count)?;
    for entry in entries {
        let column = entry.column as usize;
        if column < count {
            lists[column].push(*entry)?;
        }
    }
    Ok(lists)
}
