//! Which rows hold which variable: for each nonbasic place a bit for each row. A row whose bit is not set has
//! 0 there; a row whose bit is set may have 0 too.

ghost use Rattle.std.specs.Prelude.{◌≡◌, ◌≢◌, ◌⊎◌, ℕ, ◌+◌, ◌/◌, ◌<◌, ◌≤◌, ◌^◌, [], All, length, get_or, suc, pos, Ok, IfOk, MatchResult};
ghost use Rattle.tetri_algebra.specs.RationalRing.{zero_ℚ};
ghost use Rattle.tetri_ip.specs.Points.{IsFit, coefficient, column_at, terms_of};
ghost use Rattle.tetri_rows.specs.Terms.{ArePlaces};
ghost use Rattle.tetri_dictionary.specs.Below.{below_of};
ghost use Rattle.tetri_dictionary.specs.Faults.{IsFault};
ghost use Rattle.tetri_dictionary.specs.Holders.{bit, number_in, words_at, IsHolder, AreHolders};
ghost use Rattle.tetri_dictionary.specs.Mixed.{mixed_row, mixed_rows, IsMixedRow, AreMixedRows, AreTermsOfRow};
ghost use Rattle.tetri_dictionary.specs.Pivots.{pivoted_rows};

use crate::fault::PivotFault;
use crate::mixed::{MixedRow, is_zero_at, pivot_mixed};
use std::alloc::{AllocError, Global};
use tetri_ip::{Program, Term};
use tetri_rows::Terms;

/// The first row from `from` on whose bit is set, or `end` where none before it is.
#[inline(always)]
pub(crate) fn next_set(words: &[u64], from: usize, end: usize) -> usize
    requires order { from ≤ end }
    requires few { end < 2 ^ 32 }
    requires wide { length words.now ≡ end / 64 + 1 }
    ensures most { result ≤ end }
    ensures least { from ≤ result }
    ensures between { (q : ℕ) → from ≤ q → q < result → bit words.now q ≡ 0 }
{
    let first = from / 64;
    let rest = words[first] >> (from % 64);
    if rest != 0 {
        return end.min(from + rest.trailing_zeros() as usize);
    }
    for place in first + 1..words.len() {
        if words[place] != 0 {
            return end.min(place * 64 + words[place].trailing_zeros() as usize);
        }
    }
    end
}

// Sets a row's bit.
#[inline(always)]
fn set_bit(words: &mut [u64], row: usize)
    requires { row / 64 < length words.old }
    ensures own { bit words.new row ≡ 0 → ⊥ }
    ensures more { (q : ℕ) → bit words.new q ≡ 0 → bit words.old q ≡ 0 }
{
    words[row / 64] |= 1 << (row % 64);
}

/// Clears a row's bit, if there is one.
#[inline(always)]
pub(crate) fn clear_bit(words: &mut [u64], row: usize)
    ensures { (q : ℕ) → q ≢ row → bit words.new q ≡ 0 → bit words.old q ≡ 0 }
{
    let place = row / 64;
    if place < words.len() {
        words[place] &= !(1 << (row % 64));
    }
}

// Sets the bits that are set in others.
fn unite(words: &mut [u64], others: &[u64])
    requires { length others.now ≡ length words.old }
    ensures own { (q : ℕ) → bit words.new q ≡ 0 → bit words.old q ≡ 0 }
    ensures others { (q : ℕ) → bit words.new q ≡ 0 → bit others.now q ≡ 0 }
{
    for k in 0..words.len() {
        words[k] |= others[k];
    }
}

// Sets a column's bits in each column in which a row is not 0.
fn spread_each(columns: u32, holders: &mut [Vec<u64>], own: &[u64], row: &MixedRow)
    requires row { IsMixedRow columns row.now }
    requires columns { length holders.old ≡ columns }
    requires words { All (λ v. length v.items ≡ length own.now) holders.old }
    ensures words { All (λ v. length v.items ≡ length own.now) holders.new }
    ensures before { (p q : ℕ) → p < columns → bit (words_at holders.new p) q ≡ 0 → bit (words_at holders.old p) q ≡ 0 }
    ensures own { (p q : ℕ) → p < columns → bit (words_at holders.new p) q ≡ 0 → (get_or (mixed_row row.now) (suc p) zero_ℚ ≡ zero_ℚ) ⊎ (bit own.now q ≡ 0) }
{
    for p in 0..holders.len() {
        if !is_zero_at(columns, row, p + 1) {
            unite(&mut holders[p], own);
        }
    }
}

// Sets a column's bits in each column of which a row has a term. The constant's place is 0.
fn spread_terms(holders: &mut [Vec<u64>], own: &[u64], places: &[usize])
    requires places { ArePlaces places.now (length holders.old + 1) }
    requires words { All (λ v. length v.items ≡ length own.now) holders.old }
    ensures words { All (λ v. length v.items ≡ length own.now) holders.new }
    ensures before { (p q : ℕ) → bit (words_at holders.new p) q ≡ 0 → bit (words_at holders.old p) q ≡ 0 }
    ensures own { (p q : ℕ) → bit (words_at holders.new p) q ≡ 0 → ((t : ℕ) → t < length places.now → get_or places.now t 0 ≢ suc p) ⊎ (bit own.now q ≡ 0) }
{
    for t in 0..places.len() {
        let place = places[t];
        if place != 0 {
            unite(&mut holders[place - 1], own);
        }
    }
}

/// Sets a column's bits in each column in which a row is not 0. The terms are those of the row, where it is
/// whole.
pub(crate) fn spread(
    columns: u32,
    holders: &mut [Vec<u64>],
    own: &[u64],
    row: &MixedRow,
    terms: &Terms,
)
    requires row { IsMixedRow columns row.now }
    requires terms { AreTermsOfRow row.now terms.now }
    requires columns { length holders.old ≡ columns }
    requires words { All (λ v. length v.items ≡ length own.now) holders.old }
    ensures words { All (λ v. length v.items ≡ length own.now) holders.new }
    ensures before { (p q : ℕ) → p < columns → bit (words_at holders.new p) q ≡ 0 → bit (words_at holders.old p) q ≡ 0 }
    ensures own { (p q : ℕ) → p < columns → bit (words_at holders.new p) q ≡ 0 → (get_or (mixed_row row.now) (suc p) zero_ℚ ≡ zero_ℚ) ⊎ (bit own.now q ≡ 0) }
{
    match row {
        MixedRow::Whole { den: _, numbers: _ } => spread_terms(holders, own, &terms.places),
        MixedRow::Fractions(_) => spread_each(columns, holders, own, row),
    }
}

// Sets a row's bit in each column in which the row is not 0.
fn hold_row(columns: u32, holders: &mut [Vec<u64>], words: usize, row: &MixedRow, k: usize)
    requires row { IsMixedRow columns row.now }
    requires columns { length holders.old ≡ columns }
    requires words { All (λ v. length v.items ≡ words) holders.old }
    requires within { k / 64 < words }
    ensures words { All (λ v. length v.items ≡ words) holders.new }
    ensures before { (p q : ℕ) → bit (words_at holders.new p) q ≡ 0 → bit (words_at holders.old p) q ≡ 0 }
    ensures own { (p : ℕ) → p < columns → bit (words_at holders.new p) k ≡ 0 → get_or (mixed_row row.now) (suc p) zero_ℚ ≡ zero_ℚ }
{
    for p in 0..holders.len() {
        if !is_zero_at(columns, row, p + 1) {
            set_bit(&mut holders[p], k);
        }
    }
}

// No bits, for each nonbasic place.
fn none(alloc: Global, columns: u32, words: usize) -> Result<Vec<Vec<u64>>, AllocError>
    ensures columns { IfOk result (λ h. length h.items ≡ columns) }
    ensures words { IfOk result (λ h. All (λ v. length v.items ≡ words) h.items) }
{
    let mut holders = Vec::new(alloc);
    for _ in 0..columns {
        holders.push(vec![in alloc; 0u64; words]?)?;
    }
    Ok(holders)
}

// Sets the bits of the rows from `first` on.
fn hold_rows(columns: u32, holders: &mut [Vec<u64>], words: usize, rows: &[MixedRow], first: usize)
    requires rows { AreMixedRows columns rows.now }
    requires columns { length holders.old ≡ columns }
    requires words { All (λ v. length v.items ≡ words) holders.old }
    requires wide { words ≡ length rows.now / 64 + 1 }
    ensures words { All (λ v. length v.items ≡ words) holders.new }
    ensures before { (p q : ℕ) → bit (words_at holders.new p) q ≡ 0 → bit (words_at holders.old p) q ≡ 0 }
    ensures own { (p q : ℕ) → p < columns → first ≤ q → bit (words_at holders.new p) q ≡ 0 → number_in (mixed_rows rows.now) q p ≡ zero_ℚ }
{
    for k in first..rows.len() {
        hold_row(columns, holders, words, &rows[k], k);
    }
}

/// The bits of a dictionary's rows.
pub(crate) fn holders_of(
    alloc: Global,
    columns: u32,
    rows: &[MixedRow],
) -> Result<Vec<Vec<u64>>, AllocError>
    requires { AreMixedRows columns rows.now }
    ensures { IfOk result (λ h. AreHolders columns h.items (mixed_rows rows.now)) }
{
    let words = rows.len() / 64 + 1;
    let mut holders = none(alloc, columns, words)?;
    hold_rows(columns, &mut holders, words, rows, 0);
    Ok(holders)
}

// Sets a row's bit in each column of which the row has a term.
fn hold_terms(holders: &mut [Vec<u64>], words: usize, terms: &[Term], k: usize)
    requires columns { (t : ℕ) → t < length terms.now → column_at terms.now t < length holders.old }
    requires words { All (λ v. length v.items ≡ words) holders.old }
    requires within { k / 64 < words }
    ensures words { All (λ v. length v.items ≡ words) holders.new }
    ensures before { (p q : ℕ) → bit (words_at holders.new p) q ≡ 0 → bit (words_at holders.old p) q ≡ 0 }
    ensures own { (p t : ℕ) → bit (words_at holders.new p) k ≡ 0 → t < length terms.now → column_at terms.now t ≢ p }
{
    for t in 0..terms.len() {
        set_bit(&mut holders[terms[t].column as usize], k);
    }
}

// Sets the bits of the program's rows in the columns of their terms.
fn hold_program(holders: &mut [Vec<u64>], words: usize, p: &Program)
    requires fit { IsFit p.now }
    requires columns { length holders.old ≡ length p.now.costs.items }
    requires words { All (λ v. length v.items ≡ words) holders.old }
    requires wide { length p.now.rows.items / 64 < words }
    ensures words { All (λ v. length v.items ≡ words) holders.new }
    ensures own { (j k : ℕ) → k < length p.now.rows.items → bit (words_at holders.new j) k ≡ 0 → coefficient (terms_of p.now.rows.items k) j ≡ pos 0 }
{
    for k in 0..p.rows.len() {
        hold_terms(holders, words, &p.rows[k].terms, k);
    }
}

/// The bits of a dictionary's rows, of which the first are those of a program, each with 0 where the program's
/// has no term.
pub(crate) fn first_holders(
    alloc: Global,
    p: &Program,
    columns: u32,
    rows: &[MixedRow],
) -> Result<Vec<Vec<u64>>, AllocError>
    requires fit { IsFit p.now }
    requires columns { length p.now.costs.items ≡ columns }
    requires rows { AreMixedRows columns rows.now }
    requires count { length p.now.rows.items ≤ length rows.now }
    requires numbers { (j k : ℕ) → k < length p.now.rows.items → coefficient (terms_of p.now.rows.items k) j ≡ pos 0 → number_in (mixed_rows rows.now) k j ≡ zero_ℚ }
    ensures { IfOk result (λ h. AreHolders columns h.items (mixed_rows rows.now)) }
{
    let words = rows.len() / 64 + 1;
    let mut holders = none(alloc, columns, words)?;
    hold_program(&mut holders, words, p);
    hold_rows(columns, &mut holders, words, rows, p.rows.len());
    Ok(holders)
}

// A copy of words.
fn copied_words(alloc: Global, words: &[u64]) -> Result<Vec<u64>, AllocError>
    ensures { IfOk result (λ v. v.items ≡ words.now) }
{
    let mut copy = Vec::new(alloc);
    copy.extend_from_slice(words)?;
    Ok(copy)
}

/// Exchanges the basic place i and the nonbasic place j in the rows of a dictionary. Only the rows that
/// may hold the variable are visited; their bits stand at place j in the end, and a row without one stays as
/// it was.
pub(crate) fn pivot_held(
    alloc: Global,
    columns: u32,
    rows: &mut [MixedRow],
    below: &mut [bool],
    holders: &mut [Vec<u64>],
    terms: &mut Terms,
    i: u32,
    j: u32,
) -> Result<(), PivotFault>
    requires rows { AreMixedRows columns rows.old }
    requires few { length rows.old < 2 ^ 32 }
    requires row { i < length rows.old }
    requires place { j < columns }
    requires below { below.old ≡ below_of (mixed_rows rows.old) }
    requires holders { AreHolders columns holders.old (mixed_rows rows.old) }
    requires pivot { (get_or (get_or (mixed_rows rows.old) i []) (suc j) zero_ℚ).num ≢ pos 0 }
    ensures formed { let next = pivoted_rows columns i j (mixed_rows rows.old) in
        MatchResult result (λ _. next ≡ Ok (mixed_rows rows.new)) (λ e. IsFault e next) }
    ensures sound { IfOk result (λ _. AreMixedRows columns rows.new) }
    ensures below { IfOk result (λ _. below.new ≡ below_of (mixed_rows rows.new)) }
    ensures holders { IfOk result (λ _. AreHolders columns holders.new (mixed_rows rows.new)) }
    ensures holder { IfOk result (λ _. IsHolder (words_at holders.new j) (mixed_rows rows.old) j) }
    ensures untouched { IfOk result (λ _. (q : ℕ) (r : MixedRow) → bit (words_at holders.new j) q ≡ 0 → get_or rows.new q r ≡ get_or rows.old q r) }
{
    let mut own = copied_words(alloc, &holders[j as usize])?;
    match pivot_mixed(alloc, columns, rows, below, &mut own, terms, i, j) {
        Ok(()) => {
            spread(columns, holders, &own, &rows[i as usize], terms);
            holders[j as usize] = own;
            Ok(())
        }
        Err(fault) => Err(fault),
    }
}
