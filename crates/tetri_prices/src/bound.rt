// The bound that prices give.
ghost use Rattle.std.specs.Prelude.{◌≡◌, ◌+◌, ◌-◌, ◌<◌, ◌*◌, ◌≤◌, ◌^◌, length, List, IfOk, slice_index};
ghost use Rattle.std.specs.List.{range_with_len};
ghost use Rattle.tetri_base.specs.Lists.{list_at, sum_of};
ghost use Rattle.tetri_prices.specs.Capacities.{AreCapacitiesOf};
ghost use Rattle.tetri_prices.specs.Priced.{listed, priced_bound, supply_cost, window_slots};
ghost use Rattle.tetri_prices.specs.Prices.{ArePrices, rows_of};
ghost use Rattle.tetri_space.specs.Lawful.{IsLawful};
ghost use Rattle.tetri_space.specs.Partitions.{ArePartitionsOf, available, parts_of, partitions};
ghost use Rattle.tetri_space.specs.Sound.{IsSound};
ghost use Rattle.tetri_space.specs.Space.{space};
ghost use Rattle.tetri_space.specs.Total.{total_in};
ghost use Rattle.tetri_strl.specs.declared.grants.Grant.{Grant};

use crate::capacities::{Capacities, free_at};
use crate::prices::Prices;
use crate::walking::value_of;
use std::alloc::{AllocError, Global};
use tetri_space::{Instance, Partitions};

// What so many nodes cost at a price.
fn cost_at(price: u64, count: u32) -> u128
    ensures cost { result ≡ price * count }
    ensures small { result ≤ 2 ^ 96 }
{
    u128::from(price) * u128::from(count)
}

// What the free nodes of a partition cost in all slots of the window at these prices.
fn part_supply(inst: &Instance, capacities: &Capacities, prices: &[u64], part: u32) -> u128
    requires sound { IsSound (space inst.now) }
    requires capacities { AreCapacitiesOf (space inst.now) capacities.now }
    requires there { part < length (partitions (space inst.now)) }
    requires long { length prices.now ≡ (space inst.now).window }
    ensures cost { result ≡ sum_of (λ t. slice_index prices.now (t - (space inst.entry.now).now)
        * available (space inst.entry.now) (partitions (space inst.entry.now)) part t)
        (window_slots (space inst.entry.now)) }
    ensures small { result ≤ 2 ^ 102 }
{
    let mut cost: u128 = 0;
    for (place, price) in prices.iter().enumerate() {
        cost += cost_at(*price, free_at(inst, capacities, part, place as u32));
    }
    cost
}

// What all free nodes cost in all slots of the window.
fn supply_of(inst: &Instance, parts: &Partitions, capacities: &Capacities, prices: &Prices) -> u128
    requires sound { IsSound (space inst.now) }
    requires partitions { ArePartitionsOf (space inst.now) (parts_of parts.now) }
    requires capacities { AreCapacitiesOf (space inst.now) capacities.now }
    requires prices { ArePrices (space inst.now) prices.now }
    ensures cost { result ≡ supply_cost (space inst.entry.now) (partitions (space inst.entry.now))
        (listed (space inst.entry.now).now (rows_of prices.entry.now)) }
    ensures small { result ≤ 2 ^ 114 }
{
    let mut cost: u128 = 0;
    for part in 0..parts.count() {
        cost += part_supply(inst, capacities, prices.row(part), part);
    }
    cost
}

/// The Lagrangian bound of prices in parts of `unit`: no lawful allotment of the instance is worth
/// more. Linear in the leaves and their partitions, but for sorting the partitions of each leaf by
/// price and a binary search in their closures. Held and Karp 1971; Fisher 1981. Its only error is
/// want of memory.
pub fn priced_bound(
    alloc: Global,
    inst: &Instance,
    parts: &Partitions,
    capacities: &Capacities,
    prices: &Prices,
    unit: u64,
) -> Result<u128, AllocError>
    requires sound { IsSound (space inst.now) }
    requires partitions { ArePartitionsOf (space inst.now) (parts_of parts.now) }
    requires capacities { AreCapacitiesOf (space inst.now) capacities.now }
    requires prices { ArePrices (space inst.now) prices.now }
    requires some { 1 ≤ unit }
    requires few { unit ≤ 2 ^ 20 }
    ensures value { IfOk result (λ n. n ≡ priced_bound (space inst.entry.now) unit
        (listed (space inst.entry.now).now (rows_of prices.entry.now))) }
    ensures bounds { IfOk result (λ n. (a : List Grant) → IsLawful (space inst.entry.now) a
        → total_in (space inst.entry.now) a ≤ n) }
{
    let mut gains: u128 = 0;
    for offer in parts.offers() {
        let times = u128::from(unit);
        let value = value_of(alloc, inst, parts, capacities, prices, &offer.expr, times)?;
        gains += value.gain;
    }
    Ok((gains + supply_of(inst, parts, capacities, prices)) / u128::from(unit))
}
