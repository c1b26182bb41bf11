// Prices above 0, as fractions in lowest terms.
ghost use Rattle.std.specs.Prelude.{◌≡◌, ◌<◌, ◌^◌, ◌+◌, ◌-◌, ◌/◌, ◌++◌, flat_map, length, slice_index, slice_index_or, [], IfOk, OnOk};
ghost use Rattle.std.specs.List.{range_with_len};
ghost use Rattle.tetri_algebra.specs.Gcd.{gcd_of};
ghost use Rattle.tetri_priced.specs.Lowest.{above_zero, in_lowest_terms, prices_above_zero};
ghost use Rattle.tetri_priced.specs.Quotes.{IsQuoteOf};
ghost use Rattle.tetri_prices.specs.Prices.{rows_of};
ghost use Rattle.tetri_space.specs.Partitions.{ArePartitionsOf, part_at, parts_of};
ghost use Rattle.tetri_space.specs.Sound.{IsSound};
ghost use Rattle.tetri_space.specs.Space.{space};

use crate::pricer::Quote;
use std::alloc::{AllocError, Global};
use tetri_num::gcd;
use tetri_prices::Prices;
use tetri_space::{Instance, Partitions};

/// What a node of a partition costs in a slot: `price / unit` worths, a fraction in lowest terms above 0.
#[derive(Clone, Copy, Debug, PartialEq, Eq)]
pub struct NodePrice {
    /// The least node of the partition.
    pub node: u32,
    /// The slot, counted from the first one of the trace.
    pub slot: u32,
    /// The numerator.
    pub price: u64,
    /// The denominator.
    pub unit: u64,
}

// The greatest common divisor.
fn common(a: u64, b: u64) -> u128
    ensures { result ≡ gcd_of a b }
{
    gcd(i128::from(a), i128::from(b)).unsigned_abs()
}

// It as a word, where one number is above 0.
fn divisor_of(a: u64, b: u64) -> u64
    requires { 0 < b }
    ensures value { result ≡ gcd_of a b }
    ensures some { 0 < result }
{
    common(a, b) as u64
}

// So many parts of a unit in lowest terms.
fn in_lowest_terms(node: u32, slot: u32, parts: u64, unit: u64) -> NodePrice
    requires { 0 < unit }
    ensures { result ≡ in_lowest_terms node slot parts unit }
{
    let divisor = divisor_of(parts, unit);
    NodePrice {
        node,
        slot,
        price: parts / divisor,
        unit: unit / divisor,
    }
}

// Adds a price, where it is above 0.
fn add_price(
    told: &mut Vec<NodePrice>,
    node: u32,
    unit: u64,
    slot: u32,
    parts: u64,
) -> Result<(), AllocError>
    requires { 0 < unit }
    ensures { OnOk result (told.new.items ≡ told.old.items ++ above_zero node unit slot parts) }
{
    if parts == 0 {
        return Ok(());
    }
    told.push(in_lowest_terms(node, slot, parts, unit))?;
    Ok(())
}

// Adds the prices of a partition with this least node that are above 0, from this slot on.
fn add_prices(
    told: &mut Vec<NodePrice>,
    node: u32,
    unit: u64,
    now: u32,
    prices: &[u64],
) -> Result<(), AllocError>
    requires some { 0 < unit }
    requires few { now + length prices.now < 2 ^ 32 }
    ensures { OnOk result (told.new.items ≡ told.old.items
        ++ flat_map (λ t. above_zero node unit t (slice_index prices.entry.now (t - now))) (range_with_len now (length prices.entry.now))) }
{
    for (place, parts) in prices.iter().enumerate() {
        add_price(told, node, unit, now + place as u32, *parts)?;
    }
    Ok(())
}

// The least node of a partition.
fn least_node(parts: &Partitions, part: u32) -> u32
    requires { part < length (parts_of parts.now).groups }
    ensures { result ≡ slice_index (part_at (parts_of parts.now).groups part) 0 }
{
    match parts.nodes_of(part).as_slice().first() {
        Some(node) => *node,
        None => 0,
    }
}

// The prices of a partition, by slot of the window.
fn row(prices: &Prices, part: u32) -> &[u64]
    requires { part < length (rows_of prices.now) }
    ensures { result.now ≡ slice_index_or (rows_of prices.now) part [] }
{
    prices.rows()[part as usize].as_slice()
}

/// The prices above 0, by partition and then by slot. The only error is want of memory.
pub(crate) fn prices_above_zero(
    alloc: Global,
    inst: &Instance,
    parts: &Partitions,
    quote: &Quote,
) -> Result<Vec<NodePrice>, AllocError>
    requires sound { IsSound (space inst.now) }
    requires partitions { ArePartitionsOf (space inst.now) (parts_of parts.now) }
    requires quote { IsQuoteOf (space inst.now) quote.now }
    ensures { IfOk result (λ v. v.items
        ≡ prices_above_zero (space inst.entry.now) quote.entry.now.unit (rows_of quote.entry.now.prices)) }
{
    let mut told = Vec::new(alloc);
    for part in 0..parts.count() {
        let node = least_node(parts, part);
        let prices = row(&quote.prices, part);
        add_prices(&mut told, node, quote.unit, inst.now, prices)?;
    }
    Ok(told)
}
