//! The first dictionary that keeps one row for the two variables of a column.

ghost use Rattle.std.specs.Prelude.{◌≡◌, ◌≢◌, ℕ, ◌+◌, ◌-◌, ◌<◌, ◌≤◌, ◌≤ℤ◌, ◌^◌, ◌∷◌, ◌++◌, [], All, length, get_or, map, take, pos, None, IfOk, IfSome, IsTrue};
ghost use Rattle.tetri_algebra.specs.Rational.{whole_ℚ};
ghost use Rattle.tetri_algebra.specs.Range.{IsWithin};
ghost use Rattle.tetri_ip.specs.Points.{IsFit, IsInBox, bounds_of};
ghost use Rattle.tetri_dictionary.specs.declared.origins.Origin.TheVariants.{Kept};
ghost use Rattle.tetri_dictionary.specs.Drafts.{draft_rows, IsDraft};
ghost use Rattle.tetri_dictionary.specs.Holders.{AreHolders};
ghost use Rattle.tetri_dictionary.specs.Mirrors.{mirror, variable_row, IsMirrorWithin};
ghost use Rattle.tetri_dictionary.specs.Mixed.{mixed_row, mixed_rows, AreMixedRows, IsMixedRow};
ghost use Rattle.tetri_dictionary.specs.Pairs.{table_of, origin_at, IsPairs, IsWholeRow};
ghost use Rattle.tetri_dictionary.specs.Start.{IsStart, bound_rows, first_table, minus_one_at, slack_row};

use crate::first_rows::{bound, objective, slack};
use crate::holders::first_holders;
use crate::mixed::{MixedRow, below_of, is_negative_at};
use crate::origins::Origin;
use crate::pairs::Pairs;
use crate::start::{corner, numbers_from, width_at};
use std::alloc::{AllocError, Global};
use tetri_ip::{Program, Region};
use tetri_rows::Terms;

// Where a mirror's width ends.
const WIDE: i128 = 1024;

/// The first dictionary, place by place.
#[derive(Drop)]
pub(crate) struct Draft {
    // the rows that are kept, and the place of each
    rows: Vec<MixedRow>,
    homes: Vec<usize>,
    // for each place where its row comes from, and whether its constant is below 0
    origins: Vec<Origin>,
    below: Vec<bool>,
    // for each nonbasic place that whose row is a width less its variable
    columns: Vec<Option<usize>>,
}

// No place yet.
fn no_places(alloc: Global, columns: u32) -> Result<Draft, AllocError>
    ensures draft { IfOk result (λ d. IsDraft columns d) }
    ensures rows { IfOk result (λ d. draft_rows columns d ≡ []) }
    ensures kept { IfOk result (λ d. d.rows.items ≡ []) }
    ensures free { IfOk result (λ d. (p : ℕ) → get_or d.columns.items p None ≡ None) }
{
    Ok(Draft {
        rows: Vec::new(alloc),
        homes: Vec::new(alloc),
        origins: Vec::new(alloc),
        below: Vec::new(alloc),
        columns: vec![in alloc; None; columns as usize]?,
    })
}

// Keeps the row of the next place.
fn keep(columns: u32, draft: &mut Draft, row: MixedRow) -> Result<(), AllocError>
    requires draft { IsDraft columns draft.old }
    requires row { IsMixedRow columns row }
    ensures draft { IfOk result (λ _. IsDraft columns draft.new) }
    ensures rows { IfOk result (λ _.
        draft_rows columns draft.new ≡ draft_rows columns draft.old ++ (mixed_row row ∷ [])) }
    ensures kept { IfOk result (λ _. draft.new.rows.items ≡ draft.old.rows.items ++ (row ∷ [])) }
    ensures last { IfOk result (λ _. origin_at draft.new.origins.items (length draft.old.origins.items)
        ≡ Kept (length draft.new.rows.items - 1)) }
    ensures some { IfOk result (λ _. 0 < length draft.new.rows.items) }
    ensures columns { IfOk result (λ _. draft.new.columns.items ≡ draft.old.columns.items) }
{
    draft.below.push(is_negative_at(columns, &row, 0))?;
    draft.homes.push(draft.origins.len())?;
    draft.origins.push(Origin::Kept(draft.rows.len()))?;
    draft.rows.push(row)?;
    Ok(())
}

// The row of the next place is the width less the variable of a nonbasic place, which has no such place yet.
fn mirror_column(
    columns: u32,
    draft: &mut Draft,
    place: usize,
    width: i64,
) -> Result<(), AllocError>
    requires draft { IsDraft columns draft.old }
    requires within { IsMirrorWithin columns place width }
    requires free { get_or draft.old.columns.items place None ≡ None }
    ensures draft { IfOk result (λ _. IsDraft columns draft.new) }
    ensures rows { IfOk result (λ _. draft_rows columns draft.new
        ≡ draft_rows columns draft.old ++ (mirror width (variable_row columns place) ∷ [])) }
    ensures kept { IfOk result (λ _. draft.new.rows.items ≡ draft.old.rows.items) }
    ensures others { IfOk result (λ _. (q : ℕ) → q ≢ place →
        get_or draft.new.columns.items q None ≡ get_or draft.old.columns.items q None) }
{
    draft.columns[place] = Some(draft.origins.len());
    draft.below.push(false)?;
    draft.origins.push(Origin::Column { place, width })?;
    Ok(())
}

// The slacks of the program's rows.
fn add_slacks(
    alloc: Global,
    p: &Program,
    start: &[i128],
    draft: &mut Draft,
) -> Result<(), AllocError>
    requires fit { IsFit p.now }
    requires start { IsStart p.now start.now }
    requires draft { IsDraft (length p.now.costs.items) draft.old }
    ensures draft { IfOk result (λ _. IsDraft (length p.now.costs.items) draft.new) }
    ensures rows { IfOk result (λ _. draft_rows (length p.now.costs.items) draft.new
        ≡ draft_rows (length p.now.costs.items) draft.old
        ++ map (map whole_ℚ) (map (slack_row p.now.costs.items start.now) p.now.rows.items)) }
    ensures kept { IfOk result (λ _. mixed_rows draft.new.rows.items ≡ mixed_rows draft.old.rows.items
        ++ map (map whole_ℚ) (map (slack_row p.now.costs.items start.now) p.now.rows.items)) }
    ensures columns { IfOk result (λ _. draft.new.columns.items ≡ draft.old.columns.items) }
{
    let columns = p.costs.len() as u32;
    for i in 0..p.rows.len() {
        keep(columns, draft, slack(alloc, p, &p.rows[i], start)?)?;
    }
    Ok(())
}

// The slack of the bounds of column j, with this width.
fn add_bound(
    alloc: Global,
    p: &Program,
    j: usize,
    width: i128,
    draft: &mut Draft,
) -> Result<(), AllocError>
    requires fit { IsFit p.now }
    requires column { j < length p.now.costs.items }
    requires width { IsWithin width }
    requires sign { pos 0 ≤ℤ width }
    requires draft { IsDraft (length p.now.costs.items) draft.old }
    requires free { get_or draft.old.columns.items j None ≡ None }
    ensures draft { IfOk result (λ _. IsDraft (length p.now.costs.items) draft.new) }
    ensures rows { IfOk result (λ _. draft_rows (length p.now.costs.items) draft.new
        ≡ draft_rows (length p.now.costs.items) draft.old
        ++ (map whole_ℚ (width ∷ minus_one_at j 0 p.now.costs.items) ∷ [])) }
    ensures kept { IfOk result (λ _. take (length draft.old.rows.items) draft.new.rows.items ≡ draft.old.rows.items) }
    ensures others { IfOk result (λ _. (q : ℕ) → q ≢ j →
        get_or draft.new.columns.items q None ≡ get_or draft.old.columns.items q None) }
{
    let columns = p.costs.len() as u32;
    if width < WIDE {
        mirror_column(columns, draft, j, width as i64)
    } else {
        keep(columns, draft, bound(alloc, p, j, width)?)
    }
}

// The slacks of the columns' bounds.
fn add_bounds(alloc: Global, p: &Program, r: &Region, draft: &mut Draft) -> Result<(), AllocError>
    requires fit { IsFit p.now }
    requires in_box { IsInBox p.now (bounds_of r.now) }
    requires draft { IsDraft (length p.now.costs.items) draft.old }
    requires free { (q : ℕ) → get_or draft.old.columns.items q None ≡ None }
    ensures draft { IfOk result (λ _. IsDraft (length p.now.costs.items) draft.new) }
    ensures rows { IfOk result (λ _. draft_rows (length p.now.costs.items) draft.new
        ≡ draft_rows (length p.now.costs.items) draft.old
        ++ map (map whole_ℚ) (bound_rows 0 p.now.costs.items r.now.lower.items r.now.upper.items)) }
    ensures kept { IfOk result (λ _. take (length draft.old.rows.items) draft.new.rows.items ≡ draft.old.rows.items) }
{
    for j in 0..p.costs.len() {
        add_bound(alloc, p, j, width_at(p, r, j), draft)?;
    }
    Ok(())
}

// Whether a row is of short whole numbers.
fn is_whole(columns: u32, row: &MixedRow) -> bool
    requires { IsMixedRow columns row.now }
    ensures { IsTrue result → IsWholeRow columns row.now }
{
    match row {
        MixedRow::Whole { den: _, numbers: _ } => true,
        MixedRow::Fractions(_) => false,
    }
}

// Whether all rows are of short whole numbers.
fn are_whole(columns: u32, rows: &[MixedRow]) -> bool
    requires { AreMixedRows columns rows.now }
    ensures { IsTrue result → All (IsWholeRow columns) rows.now }
{
    for k in 0..rows.len() {
        if !is_whole(columns, &rows[k]) {
            return false;
        }
    }
    true
}

// The dictionary of a draft, whose last place is the objective's. None where a kept row is not of short whole numbers.
fn pairs_of(
    alloc: Global,
    nonbasic: Vec<usize>,
    basic: Vec<usize>,
    draft: Draft,
    holders: Vec<Vec<u64>>,
) -> Result<Option<Pairs>, AllocError>
    requires draft { IsDraft (length nonbasic.items) draft }
    requires holders { AreHolders (length nonbasic.items) holders.items (mixed_rows draft.rows.items) }
    requires some { 0 < length draft.rows.items }
    requires objective { origin_at draft.origins.items (length basic.items) ≡ Kept (length draft.rows.items - 1) }
    requires count { length draft.origins.items ≡ length basic.items + 1 }
    requires few_rows { length draft.origins.items < 2 ^ 32 }
    requires few_columns { length nonbasic.items < 2 ^ 31 }
    ensures table { IfOk result (λ o. IfSome o (λ t. table_of t
        ≡ record { nonbasic = nonbasic.items; basic = basic.items; rows = draft_rows (length nonbasic.items) draft })) }
    ensures sound { IfOk result (λ o. IfSome o (λ t. IsPairs t)) }
{
    let columns = nonbasic.len() as u32;
    if !are_whole(columns, &draft.rows) {
        return Ok(None);
    }
    let row_below = below_of(alloc, columns, &draft.rows)?;
    let mirrors = vec![in alloc; None; draft.rows.len()]?;
    Ok(Some(Pairs {
        nonbasic,
        basic,
        origins: draft.origins,
        below: draft.below,
        rows: draft.rows,
        row_below,
        homes: draft.homes,
        mirrors,
        columns: draft.columns,
        holders,
        terms: Terms::new(alloc),
    }))
}

/// The first dictionary of a program over a region. None where a row that it would keep is not of short whole
/// numbers.
pub(crate) fn first_pairs(
    alloc: Global,
    p: &Program,
    r: &Region,
) -> Result<Option<Pairs>, AllocError>
    requires fit { IsFit p.now }
    requires in_box { IsInBox p.now (bounds_of r.now) }
    ensures table { IfOk result (λ o. IfSome o (λ t. table_of t ≡ first_table p.now (bounds_of r.now))) }
    ensures sound { IfOk result (λ o. IfSome o (λ t. IsPairs t)) }
{
    let columns = p.costs.len();
    let start = corner(alloc, p, r)?;
    let mut draft = no_places(alloc, columns as u32)?;
    add_slacks(alloc, p, &start, &mut draft)?;
    add_bounds(alloc, p, r, &mut draft)?;
    keep(columns as u32, &mut draft, objective(alloc, p, &start)?)?;
    let nonbasic = numbers_from(alloc, 0, columns)?;
    let basic = numbers_from(alloc, columns, p.rows.len() + columns)?;
    let holders = first_holders(alloc, p, columns as u32, &draft.rows)?;
    pairs_of(alloc, nonbasic, basic, draft, holders)
}
