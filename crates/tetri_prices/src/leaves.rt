// What a leaf gains and costs.
ghost use Rattle.std.specs.Prelude.{◌≡◌, ◌<◌, ◌≤◌, ◌*◌, ◌^◌, All, length, map, IfOk};
ghost use Rattle.tetri_compile.specs.steps.Walked.{IsReady};
ghost use Rattle.tetri_prices.specs.Capacities.{AreCapacitiesOf};
ghost use Rattle.tetri_prices.specs.Filling.{by_cost};
ghost use Rattle.tetri_prices.specs.Prices.{ArePrices, rows_of};
ghost use Rattle.tetri_prices.specs.steps.Places.{places_for, sorted_cost, sorted_gain};
ghost use Rattle.tetri_prices.specs.steps.Values.{IsValue};
ghost use Rattle.tetri_space.specs.Partitions.{ArePartitionsOf, parts_of, partitions};
ghost use Rattle.tetri_space.specs.Sound.{IsSound};
ghost use Rattle.tetri_space.specs.Space.{space};
ghost use Rattle.tetri_strl.specs.Tree.{one};
ghost use Rattle.tetri_strl.specs.WellMade.{IsGoodLeaf};

use crate::capacities::{Capacities, capacity_of};
use crate::filling::{Place, capacity_in, fill, order, pick};
use crate::prices::Prices;
use crate::values::Value;
use std::alloc::{AllocError, Global};
use tetri_space::{Instance, Partitions};
use tetri_strl::Leaf;

// The places of a leaf, by partition.
fn places_of(
    alloc: Global,
    inst: &Instance,
    parts: &Partitions,
    capacities: &Capacities,
    prices: &Prices,
    leaf: &Leaf,
) -> Result<Vec<Place>, AllocError>
    requires sound { IsSound (space inst.now) }
    requires partitions { ArePartitionsOf (space inst.now) (parts_of parts.now) }
    requires capacities { AreCapacitiesOf (space inst.now) capacities.now }
    requires prices { ArePrices (space inst.now) prices.now }
    requires ready { IsReady (space inst.now) (parts_of parts.now) leaf.now }
    requires good { IsGoodLeaf leaf.now }
    ensures places { IfOk result (λ v. v.items
        ≡ places_for (space inst.entry.now) (rows_of prices.now) leaf.now) }
    ensures small { IfOk result (λ v. All (λ p. p.cost ≤ 2 ^ 70) v.items) }
{
    let mut places = Vec::new(alloc);
    for part in parts.parts_in(leaf.set) {
        let cost = prices.cost_of(inst, *part, leaf);
        let capacity = capacity_of(inst, parts, capacities, *part, leaf);
        places.push(Place { cost, capacity })?;
    }
    Ok(places)
}

// The places of a leaf from the cheapest on.
fn cheapest_first(
    alloc: Global,
    inst: &Instance,
    parts: &Partitions,
    capacities: &Capacities,
    prices: &Prices,
    leaf: &Leaf,
) -> Result<Vec<Place>, AllocError>
    requires sound { IsSound (space inst.now) }
    requires partitions { ArePartitionsOf (space inst.now) (parts_of parts.now) }
    requires capacities { AreCapacitiesOf (space inst.now) capacities.now }
    requires prices { ArePrices (space inst.now) prices.now }
    requires ready { IsReady (space inst.now) (parts_of parts.now) leaf.now }
    requires good { IsGoodLeaf leaf.now }
    ensures places { IfOk result (λ v. v.items ≡ by_cost (λ p. p.cost) (λ p. p.capacity)
        (places_for (space inst.entry.now) (rows_of prices.now) leaf.now)) }
    ensures small { IfOk result (λ v. All (λ p. p.cost ≤ 2 ^ 70) v.items) }
{
    let mut places = places_of(alloc, inst, parts, capacities, prices, leaf)?;
    order(&mut places)?;
    Ok(places)
}

// What a leaf over these places gains whose worth counts so many times.
fn gain_over(leaf: &Leaf, times: u128, places: &[Place]) -> u128
    requires good { IsGoodLeaf leaf.now }
    requires few { times * leaf.now.v ≤ 2 ^ 80 }
    requires small { All (λ p. p.cost ≤ 2 ^ 70) places.now }
    ensures { result ≡ sorted_gain leaf.now places.now times }
{
    let count = u64::from(leaf.k);
    if leaf.linear {
        let each = times * u128::from(leaf.v / count);
        return pick(each, count, places);
    }
    if capacity_in(places) < u128::from(count) {
        return 0;
    }
    let spent = fill(count, places);
    (times * u128::from(leaf.v)).saturating_sub(spent)
}

// What a leaf over these places costs at least where it is worth more than 0.
fn cost_over(leaf: &Leaf, places: &[Place]) -> u128
    requires good { IsGoodLeaf leaf.now }
    requires small { All (λ p. p.cost ≤ 2 ^ 70) places.now }
    ensures cost { result ≡ sorted_cost leaf.now places.now }
    ensures small { result ≤ 2 ^ 82 }
{
    if leaf.linear {
        return fill(1, places);
    }
    fill(u64::from(leaf.k), places)
}

// The value of a leaf whose worth counts so many times.
pub fn leaf_value(
    alloc: Global,
    inst: &Instance,
    parts: &Partitions,
    capacities: &Capacities,
    prices: &Prices,
    leaf: &Leaf,
    times: u128,
) -> Result<Value, AllocError>
    requires sound { IsSound (space inst.now) }
    requires partitions { ArePartitionsOf (space inst.now) (parts_of parts.now) }
    requires capacities { AreCapacitiesOf (space inst.now) capacities.now }
    requires prices { ArePrices (space inst.now) prices.now }
    requires ready { IsReady (space inst.now) (parts_of parts.now) leaf.now }
    requires good { IsGoodLeaf leaf.now }
    requires few { times * leaf.now.v ≤ 2 ^ 80 }
    ensures value { IfOk result (IsValue (space inst.entry.now) (rows_of prices.now)
        (one leaf.now) times) }
    ensures small { IfOk result (λ v. v.cost ≤ 2 ^ 82) }
{
    let places = cheapest_first(alloc, inst, parts, capacities, prices, leaf)?;
    Ok(Value {
        top: leaf.v,
        gain: gain_over(leaf, times, &places),
        cost: cost_over(leaf, &places),
    })
}
