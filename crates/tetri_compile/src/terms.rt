// The terms of a row, without a scan of the columns.
ghost use Rattle.std.specs.Prelude.{◌≡◌, ◌<◌, ◌^◌, ◌++◌, ℕ, map, IfOk, OnOk};
ghost use Rattle.std.specs.List.{range_with_len};
ghost use Rattle.tetri_base.specs.Lists.{Each, sum_of};
ghost use Rattle.tetri_compile.specs.steps.Entries.{AreEntriesOf, on_left, on_right, term_of};
ghost use Rattle.tetri_compile.specs.Flat.{terms_at};
ghost use Rattle.tetri_compile.specs.Forms.{Form};

use crate::outline::Share;
use std::alloc::{AllocError, Global};
use tetri_ip::Term;

// How many times a column stands on the two sides of a row.
#[derive(Clone, Copy)]
struct Entry {
    column: u32,
    plus: u64,
    minus: u64,
}

// An entry for each share of the side that is at most the other.
fn left_entries(alloc: Global, most: &[Share]) -> Result<Vec<Entry>, AllocError>
    ensures { IfOk result (λ v. v.items ≡ map on_left most.now) }
{
    most.iter()
        .map(|share| Entry {
            column: share.column,
            plus: share.by,
            minus: 0,
        })
        .collect(alloc)
}

// An entry for each share of the two forms.
fn entries_in(alloc: Global, most: &[Share], under: &[Share]) -> Result<Vec<Entry>, AllocError>
    ensures { IfOk result (λ v. v.items ≡ map on_left most.now ++ map on_right under.now) }
{
    let mut entries = left_entries(alloc, most)?;
    for share in under {
        entries.push(Entry {
            column: share.column,
            plus: 0,
            minus: share.by,
        })?;
    }
    Ok(entries)
}

// The same, ascending by column.
fn entries_of(alloc: Global, most: &[Share], under: &[Share]) -> Result<Vec<Entry>, AllocError>
    ensures entries { IfOk result (λ v. AreEntriesOf most.now under.now v.items) }
    ensures columns { IfOk result (λ v. (n : ℕ) → Each (λ s. s.column < n) most.now → Each (λ s. s.column < n) under.now
        → Each (λ e. e.column < n) v.items) }
    ensures plus { IfOk result (λ v. sum_of (λ e. e.plus) v.items ≡ sum_of (λ s. s.by) most.now) }
    ensures minus { IfOk result (λ v. sum_of (λ e. e.minus) v.items ≡ sum_of (λ s. s.by) under.now) }
{
    let mut entries = entries_in(alloc, most, under)?;
    entries.sort_by_key(|entry| entry.column)?;
    Ok(entries)
}

// Adds the term of an entry, if it has one.
fn add_term(entry: &Entry, terms: &mut Vec<Term>) -> Result<(), AllocError>
    requires plus { entry.now.plus < 2 ^ 61 }
    requires minus { entry.now.minus < 2 ^ 61 }
    ensures { OnOk result (terms.new.items ≡ terms.old.items ++ term_of entry.now) }
{
    if entry.plus != entry.minus {
        terms.push(Term {
            column: entry.column,
            by: i128::from(entry.plus) - i128::from(entry.minus),
        })?;
    }
    Ok(())
}

// The terms of ascending entries: those of one column are added.
fn terms_of(alloc: Global, entries: &[Entry]) -> Result<Vec<Term>, AllocError>
    requires plus { sum_of (λ e. e.plus) entries.now < 2 ^ 61 }
    requires minus { sum_of (λ e. e.minus) entries.now < 2 ^ 61 }
    ensures { IfOk result (λ ts. (most under : Form) (n : ℕ) → AreEntriesOf most under entries.now → Each (λ e. e.column < n) entries.now
        → ts.items ≡ terms_at most under (range_with_len 0 n)) }
{
    let mut terms = Vec::new(alloc);
    let mut last = Entry {
        column: 0,
        plus: 0,
        minus: 0,
    };
    for entry in entries {
        if entry.column == last.column {
            last.plus += entry.plus;
            last.minus += entry.minus;
        } else {
            add_term(&last, &mut terms)?;
            last = *entry;
        }
    }
    add_term(&last, &mut terms)?;
    Ok(terms)
}

/// The one form less the other, at each column where they differ: sorts their shares.
pub fn terms_between(
    alloc: Global,
    most: &[Share],
    under: &[Share],
) -> Result<Vec<Term>, AllocError>
    requires most { sum_of (λ s. s.by) most.now < 2 ^ 61 }
    requires under { sum_of (λ s. s.by) under.now < 2 ^ 61 }
    ensures { IfOk result (λ ts. (n : ℕ) → Each (λ s. s.column < n) most.now → Each (λ s. s.column < n) under.now
        → ts.items ≡ terms_at most.now under.now (range_with_len 0 n)) }
{
    let entries = entries_of(alloc, most, under)?;
    let terms = terms_of(alloc, &entries)?;
    Ok(terms)
}
