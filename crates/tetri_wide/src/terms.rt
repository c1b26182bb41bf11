// The terms of a row, without a scan of the columns.
ghost use Rattle.std.specs.Prelude.{◌≡◌, ◌<◌, ◌^◌, ◌++◌, ℕ, map, pos, IfOk, OnOk};
ghost use Rattle.std.specs.List.{range_with_len};
ghost use Rattle.tetri_base.specs.Lists.{Each, sum_of};
ghost use Rattle.tetri_compile.specs.Flat.{terms_at};
ghost use Rattle.tetri_compile.specs.Forms.{Form};
ghost use Rattle.tetri_wide.specs.Entries.{AreEntriesOf, on_left, on_right, term_of};
ghost use Rattle.tetri_wide.specs.Sketch.{form_of};

use crate::outline::Multiple;
use std::alloc::{AllocError, Global};
use tetri_ip::Term;

// How many times a column stands on the two sides of a row.
#[derive(Clone, Copy)]
struct Sides {
    column: u32,
    plus: u128,
    minus: u128,
}

// An entry for each share of the side that is at most the other.
fn left_entries(alloc: Global, most: &[Multiple]) -> Result<Vec<Sides>, AllocError>
    ensures { IfOk result (λ v. v.items ≡ map on_left (form_of most.now)) }
{
    let mut entries = Vec::with_capacity(alloc, most.len())?;
    for one in most {
        entries.push(Sides {
            column: one.column,
            plus: u128::from(one.by),
            minus: 0,
        })?;
    }
    Ok(entries)
}

// An entry for each share of the two forms.
fn entries_in(
    alloc: Global,
    most: &[Multiple],
    under: &[Multiple],
) -> Result<Vec<Sides>, AllocError>
    ensures { IfOk result (λ v. v.items
        ≡ map on_left (form_of most.now) ++ map on_right (form_of under.now)) }
{
    let mut entries = left_entries(alloc, most)?;
    for one in under {
        entries.push(Sides {
            column: one.column,
            plus: 0,
            minus: u128::from(one.by),
        })?;
    }
    Ok(entries)
}

// The same, ascending by column.
fn entries_of(
    alloc: Global,
    most: &[Multiple],
    under: &[Multiple],
) -> Result<Vec<Sides>, AllocError>
    ensures entries { IfOk result (λ v. AreEntriesOf (form_of most.now) (form_of under.now) v.items) }
    ensures columns { IfOk result (λ v. (n : ℕ) → Each (λ s. s.column < n) (form_of most.now)
        → Each (λ s. s.column < n) (form_of under.now) → Each (λ e. e.column < n) v.items) }
    ensures plus { IfOk result (λ v. sum_of (λ e. e.plus) v.items ≡ sum_of (λ s. s.by) (form_of most.now)) }
    ensures minus { IfOk result (λ v. sum_of (λ e. e.minus) v.items ≡ sum_of (λ s. s.by) (form_of under.now)) }
{
    let mut entries = entries_in(alloc, most, under)?;
    entries.sort_by_key(|entry| entry.column)?;
    Ok(entries)
}

/// A number that may be taken from another.
pub fn whole(number: u128) -> i128
    requires { number < 2 ^ 100 }
    ensures { result ≡ pos number }
{
    number as i128
}

// Adds the term of an entry, if it has one.
fn add_term(entry: &Sides, terms: &mut Vec<Term>) -> Result<(), AllocError>
    requires plus { entry.now.plus < 2 ^ 100 }
    requires minus { entry.now.minus < 2 ^ 100 }
    ensures { OnOk result (terms.new.items ≡ terms.old.items ++ term_of entry.now) }
{
    if entry.plus != entry.minus {
        terms.push(Term {
            column: entry.column,
            by: whole(entry.plus) - whole(entry.minus),
        })?;
    }
    Ok(())
}

// The terms of ascending entries: those of one column are added.
fn terms_of(alloc: Global, entries: &[Sides]) -> Result<Vec<Term>, AllocError>
    requires plus { sum_of (λ e. e.plus) entries.now < 2 ^ 100 }
    requires minus { sum_of (λ e. e.minus) entries.now < 2 ^ 100 }
    ensures { IfOk result (λ ts. (most under : Form) (n : ℕ) → AreEntriesOf most under entries.now
        → Each (λ e. e.column < n) entries.now → ts.items ≡ terms_at most under (range_with_len 0 n)) }
{
    let mut terms = Vec::new(alloc);
    let mut last = Sides {
        column: 0,
        plus: 0,
        minus: 0,
    };
    for entry in entries {
        if entry.column == last.column {
            last.plus += entry.plus;
            last.minus += entry.minus;
        } else {
            add_term(&last, &mut terms)?;
            last = *entry;
        }
    }
    add_term(&last, &mut terms)?;
    Ok(terms)
}

/// The one form less the other, at each column where they differ: sorts their shares.
pub fn terms_between(
    alloc: Global,
    most: &[Multiple],
    under: &[Multiple],
) -> Result<Vec<Term>, AllocError>
    requires most { sum_of (λ s. s.by) (form_of most.now) < 2 ^ 100 }
    requires under { sum_of (λ s. s.by) (form_of under.now) < 2 ^ 100 }
    ensures { IfOk result (λ ts. (n : ℕ) → Each (λ s. s.column < n) (form_of most.now)
        → Each (λ s. s.column < n) (form_of under.now)
        → ts.items ≡ terms_at (form_of most.now) (form_of under.now) (range_with_len 0 n)) }
{
    let entries = entries_of(alloc, most, under)?;
    let terms = terms_of(alloc, &entries)?;
    Ok(terms)
}
