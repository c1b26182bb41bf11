// Comma lists of weights and of cells.
ghost use Rattle.std.specs.Prelude.{◌≡◌, ◌++◌, ◌∷◌, [], ◌<◌, IfOk, IfSome, OnOk, length, option_map, string_bytes};
ghost use Rattle.tetri_io.specs.Words.{parts_at};
ghost use Rattle.tetri_cert.specs.Lists.{entries_from, list_text, parts_left};
ghost use Rattle.tetri_cert.specs.Pairs.{
  cell_in,
  cell_key,
  cell_text,
  frac_cell_in,
  frac_cell_key,
  frac_cell_of_halves,
  frac_cell_text,
  pair_in,
  pair_of_halves,
  weight_in,
  weight_key,
  weight_text,
};
ghost use Rattle.tetri_cert.specs.NodeText.{cells_in, frac_cells_in, weights_in};

use crate::words::{frac_in, small_number, whole_number};
use crate::{Cell, FracCell};
use std::alloc::{AllocError, Global};
use std::fmt::Write;
use tetri_base::Items;
use tetri_io::halves_at;
use tetri_ip::Weight;

// ---- printing
fn add_weight(out: &mut String, weight: &Weight) -> Result<(), AllocError>
    ensures { OnOk result (string_bytes out.new ≡ string_bytes out.old ++ weight_text weight.now) }
{
    let row = weight.row;
    let by = weight.by;
    write!(out, "{row}:{by}")
}

fn add_cell(out: &mut String, cell: &Cell) -> Result<(), AllocError>
    ensures { OnOk result (string_bytes out.new ≡ string_bytes out.old ++ cell_text cell.now) }
{
    let column = cell.column;
    let value = cell.value;
    write!(out, "{column}:{value}")
}

fn add_frac_cell(out: &mut String, cell: &FracCell) -> Result<(), AllocError>
    ensures { OnOk result (string_bytes out.new ≡ string_bytes out.old ++ frac_cell_text cell.now) }
{
    let column = cell.column;
    let num = cell.value.num;
    let den = cell.value.den;
    write!(out, "{column}:{num}/{den}")
}

/// Adds weights to a text: each row and its weight with a colon between, with commas between the weights; a dash for none. After
/// want of memory a front of it may stand there.
pub fn print_weights(out: &mut String, weights: &[Weight]) -> Result<(), AllocError>
    ensures { OnOk result (string_bytes out.new ≡ string_bytes out.old ++ list_text weight_text weights.now) }
{
    let Some((first, others)) = weights.split_first() else {
        return out.push_str("-");
    };
    add_weight(out, first)?;
    for weight in others {
        out.push_str(",")?;
        add_weight(out, weight)?;
    }
    Ok(())
}

pub(crate) fn add_cells(out: &mut String, cells: &[Cell]) -> Result<(), AllocError>
    ensures { OnOk result (string_bytes out.new ≡ string_bytes out.old ++ list_text cell_text cells.now) }
{
    let Some((first, others)) = cells.split_first() else {
        return out.push_str("-");
    };
    add_cell(out, first)?;
    for cell in others {
        out.push_str(",")?;
        add_cell(out, cell)?;
    }
    Ok(())
}

pub(crate) fn add_frac_cells(out: &mut String, cells: &[FracCell]) -> Result<(), AllocError>
    ensures { OnOk result (string_bytes out.new ≡ string_bytes out.old ++ list_text frac_cell_text cells.now) }
{
    let Some((first, others)) = cells.split_first() else {
        return out.push_str("-");
    };
    add_frac_cell(out, first)?;
    for cell in others {
        out.push_str(",")?;
        add_frac_cell(out, cell)?;
    }
    Ok(())
}

// ---- reading
fn pair_of_halves(key: &[u8], by: &[u8]) -> Option<(u32, i128)>
    ensures { result ≡ pair_of_halves (key.now, by.now) }
{
    let key = small_number(key)?;
    let by = whole_number(by)?;
    if by == 0 {
        return None;
    }
    Some((key, by))
}

fn pair_in(word: &[u8]) -> Option<(u32, i128)>
    ensures { result ≡ pair_in word.now }
{
    let (key, by) = halves_at(b':', word)?;
    pair_of_halves(key, by)
}

fn frac_cell_of_halves(column: &[u8], value: &[u8]) -> Option<FracCell>
    ensures { result ≡ frac_cell_of_halves (column.now, value.now) }
{
    let column = small_number(column)?;
    let value = frac_in(value)?;
    if value.num == 0 {
        return None;
    }
    Some(FracCell { column, value })
}

fn frac_cell_in(word: &[u8]) -> Option<FracCell>
    ensures { result ≡ frac_cell_in word.now }
{
    let (column, value) = halves_at(b':', word)?;
    frac_cell_of_halves(column, value)
}

// The first entry of a list, and what stands behind the comma that ends it.
fn next_part(rest: &[u8]) -> (&[u8], Option<&[u8]>)
    ensures parts { parts_at 44 rest.now ≡ result.0.now ∷ parts_left (option_map (λ behind. behind.now) result.1) }
    ensures shorter { IfSome result.1 (λ behind. length behind.now < length rest.now) }
{
    match halves_at(b',', rest) {
        Some((part, behind)) => (part, Some(behind)),
        None => (rest, None),
    }
}

fn weights_from(alloc: Global, word: &[u8]) -> Result<Option<Items<Weight>>, AllocError>
    ensures { IfOk result (λ o. o ≡ entries_from weight_in weight_key 0 (parts_at 44 word.now)) }
{
    let mut read = Items::new(alloc);
    let mut least: u64 = 0;
    let mut left = Some(word);
    while let Some(rest) = left {
        let (part, behind) = next_part(rest);
        let Some((row, by)) = pair_in(part) else {
            return Ok(None);
        };
        if u64::from(row) < least {
            return Ok(None);
        }
        least = u64::from(row) + 1;
        read.push(Weight { row, by })?;
        left = behind;
    }
    Ok(Some(read))
}

fn cells_from(alloc: Global, word: &[u8]) -> Result<Option<Items<Cell>>, AllocError>
    ensures { IfOk result (λ o. o ≡ entries_from cell_in cell_key 0 (parts_at 44 word.now)) }
{
    let mut read = Items::new(alloc);
    let mut least: u64 = 0;
    let mut left = Some(word);
    while let Some(rest) = left {
        let (part, behind) = next_part(rest);
        let Some((column, value)) = pair_in(part) else {
            return Ok(None);
        };
        if u64::from(column) < least {
            return Ok(None);
        }
        least = u64::from(column) + 1;
        read.push(Cell { column, value })?;
        left = behind;
    }
    Ok(Some(read))
}

fn frac_cells_from(alloc: Global, word: &[u8]) -> Result<Option<Items<FracCell>>, AllocError>
    ensures { IfOk result (λ o. o ≡ entries_from frac_cell_in frac_cell_key 0 (parts_at 44 word.now)) }
{
    let mut read = Items::new(alloc);
    let mut least: u64 = 0;
    let mut left = Some(word);
    while let Some(rest) = left {
        let (part, behind) = next_part(rest);
        let Some(cell) = frac_cell_in(part) else {
            return Ok(None);
        };
        if u64::from(cell.column) < least {
            return Ok(None);
        }
        least = u64::from(cell.column) + 1;
        read.push(cell)?;
        left = behind;
    }
    Ok(Some(read))
}

#[tactic(auto, unfolding(crate::specs::Lists::list_in))]
pub(crate) fn weights_in(alloc: Global, word: &[u8]) -> Result<Option<Items<Weight>>, AllocError>
    ensures { IfOk result (λ o. o ≡ weights_in word.now) }
{
    if word == b"-".as_slice() {
        return Ok(Some(Items::new(alloc)));
    }
    weights_from(alloc, word)
}

#[tactic(auto, unfolding(crate::specs::Lists::list_in))]
pub(crate) fn cells_in(alloc: Global, word: &[u8]) -> Result<Option<Items<Cell>>, AllocError>
    ensures { IfOk result (λ o. o ≡ cells_in word.now) }
{
    if word == b"-".as_slice() {
        return Ok(Some(Items::new(alloc)));
    }
    cells_from(alloc, word)
}

#[tactic(auto, unfolding(crate::specs::Lists::list_in))]
pub(crate) fn frac_cells_in(
    alloc: Global,
    word: &[u8],
) -> Result<Option<Items<FracCell>>, AllocError>
    ensures { IfOk result (λ o. o ≡ frac_cells_in word.now) }
{
    if word == b"-".as_slice() {
        return Ok(Some(Items::new(alloc)));
    }
    frac_cells_from(alloc, word)
}
