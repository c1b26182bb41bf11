// The bounds that prices give.
ghost use Rattle.tetri_space.specs.Partitions.{ArePartitionsOf, parts_of};
ghost use Rattle.tetri_space.specs.Sound.{IsSound};
ghost use Rattle.tetri_space.specs.Space.{space};

use std::alloc::{AllocError, Global};
use tetri_prices::{
    Prices, are_prices, capacities_of, priced_bound, prices_bound_every_lawful_total,
    zero_prices_bound_within_tops,
};
use tetri_space::{Instance, Partitions, find_partitions};

// The greatest unit that a bound takes.
const UNIT_MOST: u64 = 1_048_576;

// Numbers with blanks between them.
fn row_in(alloc: Global, text: &str) -> Result<Vec<u64>, AllocError> {
    let mut row = Vec::new(alloc);
    for word in text.split(' ') {
        row.push(word.parse::<u64>().unwrap_or(0))?;
    }
    Ok(row)
}

// So many times the same price.
fn even_row(alloc: Global, count: u32, price: u64) -> Result<Vec<u64>, AllocError> {
    let mut row = Vec::new(alloc);
    for _ in 0..count {
        row.push(price)?;
    }
    Ok(row)
}

// So many such rows.
fn even_rows(
    alloc: Global,
    rows: u32,
    count: u32,
    price: u64,
) -> Result<Vec<Vec<u64>>, AllocError> {
    let mut all = Vec::new(alloc);
    for _ in 0..rows {
        all.push(even_row(alloc, count, price)?)?;
    }
    Ok(all)
}

// Prices by partition and slot: `even PRICE`, or rows with ` | ` between them.
fn rows_in(
    alloc: Global,
    inst: &Instance,
    parts: &Partitions,
    text: &str,
) -> Result<Vec<Vec<u64>>, AllocError> {
    if let Some(price) = text.strip_prefix("even ") {
        let price = price.parse::<u64>().unwrap_or(0);
        return even_rows(alloc, parts.count(), inst.window, price);
    }
    let mut rows = Vec::new(alloc);
    for row in text.split(" | ") {
        rows.push(row_in(alloc, row)?)?;
    }
    Ok(rows)
}

// What the bound of prices is, if these are within their limits.
fn bound_told(
    alloc: Global,
    inst: &Instance,
    parts: &Partitions,
    rows: Vec<Vec<u64>>,
    unit: u64,
) -> Result<String, AllocError>
    requires sound { IsSound (space inst.now) }
    requires partitions { ArePartitionsOf (space inst.now) (parts_of parts.now) }
{
    if unit == 0 || UNIT_MOST < unit || !are_prices(inst, parts, &rows) {
        return String::from_str(alloc, "no prices");
    }
    let capacities = capacities_of(alloc, inst, parts)?;
    let prices = Prices::of(alloc, inst, rows)?;
    let bound = priced_bound(alloc, inst, parts, &capacities, &prices, unit)?;
    format!(in alloc; "{bound}")
}

/// The bound that prices in parts of a unit give: `UNIT PRICES`; `no prices` where these are not within their limits.
pub fn told(alloc: Global, inst: &Instance, text: &str) -> Result<String, AllocError>
    requires { IsSound (space inst.now) }
{
    prices_bound_every_lawful_total(inst);
    zero_prices_bound_within_tops(inst);
    let (unit, text) = text.split_once(' ').unwrap_or((text, ""));
    let unit = unit.parse::<u64>().unwrap_or(0);
    let parts = find_partitions(alloc, inst)?;
    let rows = rows_in(alloc, inst, &parts, text)?;
    bound_told(alloc, inst, &parts, rows, unit)
}
