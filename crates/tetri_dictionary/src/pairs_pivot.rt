//! The pivot of dictionaries that keep one row for the two variables of a column.

ghost use Rattle.std.specs.Prelude.{◌≡◌, ◌≢◌, ℕ, ◌+◌, ◌/◌, ◌<◌, ◌≤◌, ◌^◌, [], List, All, length, get_or, set, map, suc, pos, Some, None, Ok, true, false, IsTrue, IfOk, IfSome, MatchOption};
ghost use Rattle.tetri_algebra.specs.RationalRing.{zero_ℚ};
ghost use Rattle.tetri_rows.specs.Rows.{meaning};
ghost use Rattle.tetri_rows.specs.Small.{IsShort, IsDenominator};
ghost use Rattle.tetri_dictionary.specs.declared.origins.Origin.TheVariants.{Kept, Mirror, Column};
ghost use Rattle.tetri_dictionary.specs.Below.{below_of};
ghost use Rattle.tetri_dictionary.specs.Holders.{bit};
ghost use Rattle.tetri_dictionary.specs.Mirrors.{mirror, rows_from, IsBounded, IsWidth};
ghost use Rattle.tetri_dictionary.specs.Mixed.{mixed_row, mixed_rows, IsMixedRow, AreMixedRows};
ghost use Rattle.tetri_dictionary.specs.Pairs.{AreOrigins, IsPaired, IsPairs, IsWholeRow, denominator_of, origin_at, table_of};
ghost use Rattle.tetri_dictionary.specs.PairPivots.{exchanged, width_of, AreHomes, AreTold, IsExchanged};
ghost use Rattle.tetri_dictionary.specs.Pivots.{pivoted};
ghost use Rattle.tetri_dictionary.specs.Tables.{constant_of, is_negative, row_at};

use crate::fault::PivotFault;
use crate::holders::{next_set, pivot_held};
use crate::mixed::MixedRow;
use crate::origins::Origin;
use crate::pairs::Pairs;
use std::alloc::{AllocError, Global};
use std::mem;
use tetri_rows::negate;

// From here on a number is not short.
const SHORT: i64 = 1 << 31;

// The width that a row is taken from.
#[inline(always)]
fn width_of(origin: Origin) -> i64
    ensures { result ≡ width_of origin }
{
    match origin {
        Origin::Kept(_) => 0,
        Origin::Mirror { row: _, width } => width,
        Origin::Column { place: _, width } => width,
    }
}

// Makes the row of a place, if there is one, the width less the variable of nonbasic place j.
fn make_column(origins: &mut [Origin], place: Option<usize>, j: usize)
    requires { IfSome place (λ k. k < length origins.old) }
    ensures { MatchOption place (origins.new ≡ origins.old) (λ k. origins.new ≡ set origins.old k (Column j (width_of (origin_at origins.old k)))) }
{
    if let Some(k) = place {
        let width = width_of(origins[k]);
        origins[k] = Origin::Column { place: j, width };
    }
}

// Makes the row of a place, if there is one, the width less kept row r.
fn make_mirror(origins: &mut [Origin], place: Option<usize>, r: usize)
    requires { IfSome place (λ k. k < length origins.old) }
    ensures { MatchOption place (origins.new ≡ origins.old) (λ k. origins.new ≡ set origins.old k (Mirror r (width_of (origin_at origins.old k)))) }
{
    if let Some(k) = place {
        let width = width_of(origins[k]);
        origins[k] = Origin::Mirror { row: r, width };
    }
}

// Makes the mirror of kept row r the width less the variable of nonbasic place j, and the row of the other
// variable of that place's column a mirror of row r, where there are such.
fn exchange_origins(
    origins: &mut [Origin],
    mirrors: &mut [Option<usize>],
    columns: &mut [Option<usize>],
    r: usize,
    j: usize,
)
    requires row { r < length mirrors.old }
    requires place { j < length columns.old }
    requires mirror { IfSome (get_or mirrors.old r None) (λ k. k < length origins.old) }
    requires column { IfSome (get_or columns.old j None) (λ k. k < length origins.old) }
    ensures origins { (n m c : ℕ) (homes : List ℕ) → AreOrigins n m c origins.old homes mirrors.old columns.old → r < m → j < n → origins.new ≡ map (exchanged r j) origins.old }
    ensures mirrors { mirrors.new ≡ set mirrors.old r (get_or columns.old j None) }
    ensures columns { columns.new ≡ set columns.old j (get_or mirrors.old r None) }
{
    make_column(origins, mirrors[r], j);
    make_mirror(origins, columns[j], r);
    mem::swap(&mut mirrors[r], &mut columns[j]);
}

// The width less short whole numbers over a denominator. Answers whether the new constant is short; else
// nothing has changed.
fn turn_numbers(den: i64, numbers: &mut [i64], width: i64) -> bool
    requires den { IsDenominator den }
    requires numbers { All IsShort numbers.old }
    requires some { 0 < length numbers.old }
    requires width { IsWidth width }
    ensures turned { IsTrue result → meaning den numbers.new ≡ mirror width (meaning den numbers.old) }
    ensures kept { result ≡ false → numbers.new ≡ numbers.old }
    ensures short { All IsShort numbers.new }
{
    let constant = width * den - numbers[0];
    if constant <= -SHORT || constant >= SHORT {
        return false;
    }
    negate(numbers);
    numbers[0] = constant;
    true
}

// The denominator of a row of whole numbers.
#[inline(always)]
fn denominator(row: &MixedRow) -> i64
    ensures { result ≡ denominator_of row.now }
{
    match row {
        MixedRow::Whole { den, numbers: _ } => *den,
        MixedRow::Fractions(_) => 1,
    }
}

// The width less a row of short whole numbers. Answers whether its numbers are short; else nothing has
// changed.
fn turn_row(columns: u32, row: &mut MixedRow, width: i64) -> bool
    requires row { IsWholeRow columns row.old }
    requires width { IsWidth width }
    ensures turned { IsTrue result → mixed_row row.new ≡ mirror width (mixed_row row.old) }
    ensures kept { result ≡ false → mixed_row row.new ≡ mixed_row row.old }
    ensures whole { IsWholeRow columns row.new }
{
    let den = denominator(row);
    match row {
        MixedRow::Whole { den: _, numbers } => turn_numbers(den, numbers, width),
        MixedRow::Fractions(_) => false,
    }
}

// Whether the constant of the width less a row is below 0.
#[inline(always)]
fn is_past_width(width: i64, den: i64, numbers: &[i64]) -> bool
    requires width { IsWidth width }
    requires den { IsDenominator den }
    requires numbers { All IsShort numbers.now }
    requires some { 0 < length numbers.now }
    ensures { result ≡ is_negative (constant_of (mirror width (meaning den numbers.now))) }
{
    width * den < numbers[0]
}

// Makes kept row `row` stand at the place of its mirror, and its mirror at the place of the row.
fn change_places(
    origins: &mut [Origin],
    homes: &mut [usize],
    mirrors: &mut [Option<usize>],
    place: usize,
    row: usize,
    width: i64,
)
    requires place { place < length origins.old }
    requires homes { row < length homes.old }
    requires mirrors { row < length mirrors.old }
    requires home { get_or homes.old row 0 < length origins.old }
    ensures origins { origins.new ≡ set (set origins.old (get_or homes.old row 0) (Mirror row width)) place (Kept row) }
    ensures homes { homes.new ≡ set homes.old row place }
    ensures mirrors { mirrors.new ≡ set mirrors.old row (Some (get_or homes.old row 0)) }
{
    let home = homes[row];
    origins[home] = Origin::Mirror { row, width };
    origins[place] = Origin::Kept(row);
    homes[row] = place;
    mirrors[row] = Some(home);
}

// Keeps the mirror of a kept row, which is that of basic place i, in place of the row, where its numbers are
// short. Answers whether they are; else nothing has changed.
fn keep_mirror(t: &mut Pairs, i: u32, row: usize, width: i64) -> bool
    requires sound { IsPairs t.old }
    requires place { i < length t.old.origins.items }
    requires origin { origin_at t.old.origins.items i ≡ Mirror row width }
    ensures table { table_of t.new ≡ table_of t.old }
    ensures sound { IsPairs t.new }
    ensures kept { IsTrue result → (row < length t.new.rows.items) × (origin_at t.new.origins.items i ≡ Kept row) }
{
    let columns = t.nonbasic.len() as u32;
    if !turn_row(columns, &mut t.rows[row], width) {
        return false;
    }
    let place = i as usize;
    t.row_below[row] = t.below[place];
    change_places(
        &mut t.origins,
        &mut t.homes,
        &mut t.mirrors,
        place,
        row,
        width,
    );
    true
}

/// Keeps the row of basic place i itself, where that is not the distance from a nonbasic variable and its
/// numbers are short. Answers its row; with None nothing has changed.
pub(crate) fn keep_row(t: &mut Pairs, i: u32) -> Option<usize>
    requires sound { IsPairs t.old }
    requires place { i < length t.old.basic.items }
    ensures table { table_of t.new ≡ table_of t.old }
    ensures sound { IsPairs t.new }
    ensures row { IfSome result (λ r. r < length t.new.rows.items) }
    ensures kept { IfSome result (λ r. origin_at t.new.origins.items i ≡ Kept r) }
{
    match t.origins[i as usize] {
        Origin::Kept(row) => Some(row),
        Origin::Mirror { row, width } => {
            if keep_mirror(t, i, row, width) {
                Some(row)
            } else {
                None
            }
        }
        Origin::Column { place: _, width: _ } => None,
    }
}

// Writes that the constant of a place, if there is one, is not below 0.
fn clear_sign(below: &mut [bool], place: Option<usize>)
    requires { IfSome place (λ k. k < length below.old) }
    ensures { MatchOption place (below.new ≡ below.old) (λ k. below.new ≡ set below.old k false) }
{
    if let Some(k) = place {
        below[k] = false;
    }
}

// Writes whether the constants of a row of whole numbers, and of its mirror if there is one, are below 0.
// Answers whether the row is one.
fn tell_row(
    columns: u32,
    row: &MixedRow,
    negative: bool,
    home: usize,
    place: Option<usize>,
    origins: &[Origin],
    below: &mut [bool],
) -> bool
    requires row { IsMixedRow columns row.now }
    requires home { home < length below.old }
    requires count { length below.old ≡ length origins.now }
    requires place { IfSome place (λ k. k < length origins.now) }
    requires width { IfSome place (λ k. IsWidth (width_of (origin_at origins.now k))) }
    ensures whole { IsTrue result → IsWholeRow columns row.now }
    ensures told { IsTrue result → MatchOption place (below.new ≡ set below.old home negative)
        (λ k. below.new ≡ set (set below.old home negative) k (is_negative (constant_of (mirror (width_of (origin_at origins.now k)) (mixed_row row.now))))) }
{
    match row {
        MixedRow::Whole { den, numbers } => {
            below[home] = negative;
            if let Some(k) = place {
                below[k] = is_past_width(width_of(origins[k]), *den, numbers);
            }
            true
        }
        MixedRow::Fractions(_) => false,
    }
}

// Writes the signs of the kept rows whose bit is set, and of their mirrors. Answers whether all rows are of
// short whole numbers; else what is written does not matter.
fn tell_signs(
    columns: u32,
    rows: &[MixedRow],
    row_below: &[bool],
    homes: &[usize],
    mirrors: &[Option<usize>],
    origins: &[Origin],
    own: &[u64],
    below: &mut [bool],
) -> bool
    requires rows { AreMixedRows columns rows.now }
    requires few { length rows.now < 2 ^ 32 }
    requires row_below { row_below.now ≡ below_of (mixed_rows rows.now) }
    requires homes { AreHomes columns (length rows.now) origins.now homes.now mirrors.now }
    requires wide { length own.now ≡ length rows.now / 64 + 1 }
    requires count { length below.old ≡ length origins.now }
    requires whole { (q : ℕ) (r : MixedRow) → q < length rows.now → bit own.now q ≡ 0 → IsWholeRow columns (get_or rows.now q r) }
    requires told { AreTold columns (mixed_rows rows.now) origins.now own.now 0 below.old }
    ensures whole { IsTrue result → All (IsWholeRow columns) rows.now }
    ensures told { IsTrue result → below.new ≡ below_of (rows_from columns (mixed_rows rows.now) origins.now) }
{
    let mut from = 0;
    for _ in 0..rows.len() {
        let k = next_set(own, from, rows.len());
        if k == rows.len() {
            return true;
        }
        if !tell_row(
            columns,
            &rows[k],
            row_below[k],
            homes[k],
            mirrors[k],
            origins,
            below,
        ) {
            return false;
        }
        from = k + 1;
    }
    true
}

// Exchanges basic place i, whose row r is kept, and nonbasic place j in all but the signs of the places.
fn exchange_kept(alloc: Global, t: &mut Pairs, i: u32, r: usize, j: u32) -> Result<(), AllocError>
    requires sound { IsPairs t.old }
    requires row { i < length t.old.basic.items }
    requires kept { origin_at t.old.origins.items i ≡ Kept r }
    requires place { j < length t.old.nonbasic.items }
    requires pivot { (get_or (row_at (table_of t.old) i) (suc j) zero_ℚ).num ≢ pos 0 }
    ensures { IfOk result (λ _. IsExchanged t.old t.new i r j) }
{
    let columns = t.nonbasic.len() as u32;
    let rows = &mut t.rows;
    let below = &mut t.row_below;
    let holders = &mut t.holders;
    match pivot_held(
        alloc,
        columns,
        rows,
        below,
        holders,
        &mut t.terms,
        r as u32,
        j,
    ) {
        Ok(()) => {
            clear_sign(&mut t.below, t.mirrors[r]);
            exchange_origins(
                &mut t.origins,
                &mut t.mirrors,
                &mut t.columns,
                r,
                j as usize,
            );
            mem::swap(&mut t.nonbasic[j as usize], &mut t.basic[i as usize]);
            Ok(())
        }
        Err(PivotFault::NoMemory) => Err(AllocError),
        Err(PivotFault::Past(_)) => unreachable!(),
    }
}

/// Exchanges basic place i, whose row r is kept, and nonbasic place j. Answers whether all rows are of short
/// whole numbers then; else the signs of the places are not known.
pub(crate) fn pivot_kept(
    alloc: Global,
    t: &mut Pairs,
    i: u32,
    r: usize,
    j: u32,
) -> Result<bool, AllocError>
    requires sound { IsPairs t.old }
    requires row { i < length t.old.basic.items }
    requires kept { origin_at t.old.origins.items i ≡ Kept r }
    requires place { j < length t.old.nonbasic.items }
    requires pivot { (get_or (row_at (table_of t.old) i) (suc j) zero_ℚ).num ≢ pos 0 }
    ensures formed { IfOk result (λ _. pivoted (table_of t.old) i j ≡ Ok (table_of t.new)) }
    ensures paired { IfOk result (λ _. IsPaired t.new) }
    ensures bounded { IfOk result (λ _. All (λ row. All IsBounded row) (mixed_rows t.new.rows.items)) }
    ensures sound { IfOk result (λ b. IsTrue b → IsPairs t.new) }
{
    let columns = t.nonbasic.len() as u32;
    exchange_kept(alloc, t, i, r, j)?;
    let own = &t.holders[j as usize];
    let below = &mut t.below;
    Ok(tell_signs(
        columns,
        &t.rows,
        &t.row_below,
        &t.homes,
        &t.mirrors,
        &t.origins,
        own,
        below,
    ))
}
