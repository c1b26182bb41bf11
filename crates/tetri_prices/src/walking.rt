// What an expression gains and costs.
ghost use Rattle.std.specs.Prelude.{◌≡◌, ◌<◌, ◌≤◌, ◌*◌, ◌^◌, ℕ, length, IfOk};
ghost use Rattle.tetri_compile.specs.steps.Walked.{IsReady};
ghost use Rattle.tetri_prices.specs.Capacities.{AreCapacitiesOf};
ghost use Rattle.tetri_prices.specs.Prices.{ArePrices, rows_of};
ghost use Rattle.tetri_prices.specs.steps.Values.{AreValues, costs, IsValue};
ghost use Rattle.tetri_space.specs.Partitions.{ArePartitionsOf, parts_of};
ghost use Rattle.tetri_space.specs.Sound.{IsSound as IsSoundSpace};
ghost use Rattle.tetri_space.specs.Space.{space};
ghost use Rattle.tetri_strl.specs.Aligned.{EachLeaf, EachLeafOf};
ghost use Rattle.tetri_strl.specs.Tree.{added, join, leaves, leaves_of, tree, trees};
ghost use Rattle.tetri_strl.specs.WellMade.{AreSound, IsSound, peak, peaks};
ghost use Rattle.tetri_strl.specs.Worth.{added_of, greatest_of};

use crate::capacities::Capacities;
use crate::leaves::leaf_value;
use crate::prices::Prices;
use crate::values::{Value, added, barred, greatest, lowest};
use std::alloc::{AllocError, Global};
use tetri_space::{Instance, Partitions};
use tetri_strl::Expr;

// The factor of a scaled part. Where it is too large for a number, the part is worth nothing.
fn factor(times: u128, by: u64) -> u128
    ensures whole { times * by < 2 ^ 128 → result ≡ times * by }
    ensures past { 2 ^ 128 ≤ times * by → result ≡ 0 }
    ensures fits { (p : ℕ) → times * (by * p) ≤ 2 ^ 80 → result * p ≤ 2 ^ 80 }
{
    match times.checked_mul(u128::from(by)) {
        Some(product) => product,
        None => 0,
    }
}

// The values of parts whose worths count so many times, in order.
#[cycle(value)]
fn values_of(
    alloc: Global,
    inst: &Instance,
    parts: &Partitions,
    capacities: &Capacities,
    prices: &Prices,
    kids: &[Expr],
    times: u128,
) -> Result<Vec<Value>, AllocError>
    requires sound { IsSoundSpace (space inst.now) }
    requires partitions { ArePartitionsOf (space inst.now) (parts_of parts.now) }
    requires capacities { AreCapacitiesOf (space inst.now) capacities.now }
    requires prices { ArePrices (space inst.now) prices.now }
    requires kids_sound { AreSound (trees kids.now) }
    requires ready { EachLeafOf (IsReady (space inst.now) (parts_of parts.now)) (trees kids.now) }
    requires few { times * greatest_of (peaks (trees kids.now)) ≤ 2 ^ 80 }
    requires few_leaves { length (leaves_of (trees kids.now)) ≤ 128 }
    ensures values { IfOk result (λ v. AreValues (space inst.entry.now) (rows_of prices.entry.now)
        (trees kids.entry.now) times v.items) }
    ensures small { IfOk result (λ v. added_of (costs v.items)
        ≤ length (leaves_of (trees kids.entry.now)) * 2 ^ 82) }
{
    let mut values = Vec::new(alloc);
    for kid in kids {
        let value = value_of(alloc, inst, parts, capacities, prices, kid, times)?;
        values.push(value)?;
    }
    Ok(values)
}

// The value of a sum of parts whose worths count so many times.
#[cycle(value)]
fn sum_value(
    alloc: Global,
    inst: &Instance,
    parts: &Partitions,
    capacities: &Capacities,
    prices: &Prices,
    kids: &[Expr],
    times: u128,
) -> Result<Value, AllocError>
    requires sound { IsSoundSpace (space inst.now) }
    requires partitions { ArePartitionsOf (space inst.now) (parts_of parts.now) }
    requires capacities { AreCapacitiesOf (space inst.now) capacities.now }
    requires prices { ArePrices (space inst.now) prices.now }
    requires sum_sound { IsSound (join added (trees kids.now)) }
    requires ready { EachLeafOf (IsReady (space inst.now) (parts_of parts.now)) (trees kids.now) }
    requires few { times * peak (join added (trees kids.now)) ≤ 2 ^ 80 }
    requires few_leaves { length (leaves_of (trees kids.now)) ≤ 128 }
    ensures value { IfOk result (IsValue (space inst.entry.now) (rows_of prices.entry.now)
        (join added (trees kids.entry.now)) times) }
    ensures small { IfOk result (λ v. v.cost
        ≤ length (leaves_of (trees kids.entry.now)) * 2 ^ 82) }
{
    let values = values_of(alloc, inst, parts, capacities, prices, kids, times)?;
    Ok(added(&values))
}

// The value of an expression whose worth counts so many times.
#[cycle(value)]
pub fn value_of(
    alloc: Global,
    inst: &Instance,
    parts: &Partitions,
    capacities: &Capacities,
    prices: &Prices,
    e: &Expr,
    times: u128,
) -> Result<Value, AllocError>
    requires sound { IsSoundSpace (space inst.now) }
    requires partitions { ArePartitionsOf (space inst.now) (parts_of parts.now) }
    requires capacities { AreCapacitiesOf (space inst.now) capacities.now }
    requires prices { ArePrices (space inst.now) prices.now }
    requires tree_sound { IsSound (tree e.now) }
    requires ready { EachLeaf (IsReady (space inst.now) (parts_of parts.now)) (tree e.now) }
    requires few { times * peak (tree e.now) ≤ 2 ^ 80 }
    requires few_leaves { length (leaves (tree e.now)) ≤ 128 }
    ensures value { IfOk result (IsValue (space inst.entry.now) (rows_of prices.entry.now)
        (tree e.entry.now) times) }
    ensures small { IfOk result (λ v. v.cost ≤ length (leaves (tree e.entry.now)) * 2 ^ 82) }
{
    match e {
        Expr::One(leaf) => {
            let value = leaf_value(alloc, inst, parts, capacities, prices, leaf, times)?;
            Ok(value)
        }
        Expr::Max(kids) => {
            let values = values_of(alloc, inst, parts, capacities, prices, kids, times)?;
            Ok(greatest(&values))
        }
        Expr::Min(kids) => {
            let values = values_of(alloc, inst, parts, capacities, prices, kids, times)?;
            Ok(lowest(&values))
        }
        Expr::Sum(kids) => {
            let value = sum_value(alloc, inst, parts, capacities, prices, kids, times)?;
            Ok(value)
        }
        Expr::Scale(kid, by) => {
            let more = factor(times, *by);
            let value = value_of(alloc, inst, parts, capacities, prices, kid, more)?;
            Ok(Value {
                top: by * value.top,
                ..value
            })
        }
        Expr::Barrier(kid, least) => {
            let value = value_of(alloc, inst, parts, capacities, prices, kid, times)?;
            Ok(barred(value, *least, times))
        }
    }
}
