// Prices that bound well, and a plan.
ghost use Rattle.std.specs.Prelude.{◌≡◌, IfOk, length, map};
ghost use Rattle.tetri_prices.specs.Priced.{ArePricesOf};
ghost use Rattle.tetri_prices.specs.Prices.{ArePrices};
ghost use Rattle.tetri_space.specs.Partitions.{ArePartitionsOf, parts_of};
ghost use Rattle.tetri_space.specs.Sound.{IsSound};
ghost use Rattle.tetri_space.specs.Space.{space};

use crate::ascent::Ascent;
use crate::counting::allot;
use crate::greedy::{Desk, make_plan};
use crate::laying::lay_out;
use crate::lists::at;
use crate::market::Market;
use crate::plans::Plan;
use crate::repairing::repair;
use crate::turns::Turn;
use std::alloc::{AllocError, Global};
use tetri_prices::Prices;
use tetri_space::{Instance, Partitions};
use tetri_strl::Allotment;

/// Prices are in parts of a unit: so many of them are one of the worths that jobs are given.
pub const UNIT: u64 = 4096;

/// Where there are more pairs of a leaf and a partition in its set, no prices are sought.
pub const MOST_PAIRS: u64 = 4_194_304;

// No price is higher: no worth is above 10^12.
const HIGHEST: u64 = 4_096_000_000_000_000;

// So many nodes, pairs and prices are looked at in all turns together, about.
const TURN_WORK: u64 = 60_000_000;

// So many nodes are looked at in all rounds of repair together, about.
const REPAIR_WORK: u64 = 100_000_000;

/// Prices in parts of `UNIT`, and a plan.
#[derive(Drop)]
pub struct Found {
    /// Prices that bound the instance well, if the ascent went well.
    pub prices: Prices,
    /// Grants ascending by job and leaf, their nodes ascending.
    pub plan: Allotment,
}

// The prices of a row for each slot of the window, each at most the highest; what is not there is
// 0.
fn row_of(alloc: Global, prices: &[u64], first: usize, window: u32) -> Result<Vec<u64>, AllocError>
    ensures { IfOk result (λ v. length v.items ≡ window) }
{
    let mut row = Vec::with_capacity(alloc, window as usize)?;
    for slot in 0..window {
        row.push(at(prices, first.saturating_add(slot as usize)))?;
    }
    Ok(row)
}

// Prices by partition and slot, from a list of all.
fn rows_from(
    alloc: Global,
    inst: &Instance,
    parts: &Partitions,
    prices: &[u64],
) -> Result<Vec<Vec<u64>>, AllocError>
    requires partitions { ArePartitionsOf (space inst.now) (parts_of parts.now) }
    ensures { IfOk result (λ v. ArePricesOf (space inst.entry.now) (map (λ r. r.items) v.items)) }
{
    let mut rows = Vec::new(alloc);
    for part in 0..parts.count() {
        let first = (part as usize).saturating_mul(inst.window as usize);
        rows.push(row_of(alloc, prices, first, inst.window)?)?;
    }
    Ok(rows)
}

// A list of all prices, by partition and slot, from rows that may be too short; what is not there
// is 0.
fn list_from(alloc: Global, market: &Market, rows: &[Vec<u64>]) -> Result<Vec<u64>, AllocError> {
    let mut prices = Vec::with_capacity(alloc, market.cells())?;
    for part in 0..market.parts {
        for slot in 0..market.window {
            let price = match rows.get(part) {
                Some(row) => at(row, slot).min(HIGHEST),
                None => 0,
            };
            prices.push(price)?;
        }
    }
    Ok(prices)
}

// How often a work is done that costs so much, at least so often and at most so often.
fn times(work: u64, cost: u64, least: u64, most: u64) -> u64 {
    (work / cost.max(1)).max(least).min(most)
}

// What looking once at all leaves, their partitions and the prices costs.
fn size_of(market: &Market) -> u64 {
    let nodes = market.nodes.len() as u64;
    nodes
        .saturating_add(market.pairs)
        .saturating_add(market.cells() as u64)
}

// Whether a plan is made in a turn, and whether by gain a node-slot.
fn plans_in(turn: u64) -> bool {
    turn < 8 || turn < 64 && turn % 4 == 0 || turn % 16 == 0
}

// What each job gains where all prices are 0.
fn tops_of(alloc: Global, market: &Market, turn: &mut Turn) -> Result<Vec<u64>, AllocError> {
    let free = vec![in alloc; 0u64; market.cells()]?;
    turn.run(market, &free)?;
    let mut tops = Vec::with_capacity(alloc, market.jobs.len())?;
    for job in &market.jobs {
        tops.push(turn.gain(job))?;
    }
    Ok(tops)
}

// Raises the bound's prices turn by turn, and keeps the best plan of those made on the way.
fn ascend(
    alloc: Global,
    market: &Market,
    turn: &mut Turn,
    tops: &[u64],
    known: u64,
    ascent: &mut Ascent,
    best: &mut Plan,
) -> Result<(), AllocError> {
    let mut desk = Desk::new(alloc, market)?;
    let mut plan = Plan::new(alloc, market)?;
    for number in 0..times(TURN_WORK, size_of(market), 60, 1500) {
        let bound = turn.run(market, &ascent.prices)?;
        ascent.note(bound)?;
        if plans_in(number) {
            make_plan(market, turn, tops, number % 8 != 0, &mut desk, &mut plan)?;
            if plan.total > best.total {
                std::mem::swap(&mut plan, best);
            }
        }
        let value = best.total.max(known);
        if is_met(ascent.bound, value) {
            break;
        }
        if !ascent.advance(market, &turn.usage, bound, u128::from(value))? {
            break;
        }
    }
    Ok(())
}

// Whether a plan of this value, in parts of the unit, is worth as much as the bound says.
fn is_met(bound: u128, value: u64) -> bool {
    bound / u128::from(UNIT) <= u128::from(value / UNIT)
}

// The plan by counts, and the prices of the best bound.
fn seek(
    alloc: Global,
    market: &Market,
    start: Vec<u64>,
    known: u64,
    best: &mut Plan,
) -> Result<Vec<u64>, AllocError> {
    let mut turn = Turn::new(alloc, market)?;
    let tops = tops_of(alloc, market, &mut turn)?;
    let mut ascent = Ascent::new(alloc, start, HIGHEST)?;
    ascend(alloc, market, &mut turn, &tops, known, &mut ascent, best)?;
    if !is_met(ascent.bound, best.total.max(known)) {
        turn.run(market, &ascent.best)?;
        let rounds = times(REPAIR_WORK, market.nodes.len() as u64, 100, 10_000);
        let rounds = rounds.saturating_mul(by_gap(ascent.bound, best.total.max(known)));
        let limit = u64::try_from(ascent.bound / u128::from(UNIT)).unwrap_or(u64::MAX);
        repair(
            alloc,
            market,
            &turn,
            &tops,
            rounds,
            limit.saturating_mul(UNIT),
            best,
        )?;
    }
    Ok(ascent.best)
}

// How many times as many rounds of repair there are, by the gap between bound and value: once below 1.6 parts in 100, and four times at
// most.
fn by_gap(bound: u128, value: u64) -> u64 {
    let gap = bound.saturating_sub(u128::from(value));
    let share = u64::try_from(gap / (bound / 1024).max(1)).unwrap_or(u64::MAX);
    (share / 8).max(1).min(4)
}

/// Seeks prices whose bound is low and a plan whose worth is high, by subgradient ascent (Held,
/// Wolfe and Crowder 1974; step by Polyak 1969; deflected direction by Camerini, Fratta and
/// Maffioli 1975), greedy plans under the prices, and ruin and recreate (Schrimpf and others 2000;
/// Shaw 1998). `start` has prices to begin with, in parts of `UNIT` by partition and slot, or as
/// many of them as there are; `known` is the worth of a plan that is known. The prices are such
/// that `priced_bound` may be called on them with `UNIT`; that the bound is low, the plan lawful or
/// its worth high no clause says: recompute the one and test the other. Where there are more than
/// `MOST_PAIRS` pairs of a leaf and a partition, the prices are those of the start and the plan is
/// empty. The same instance has the same answer. Its only error is want of memory.
pub fn search(
    alloc: Global,
    inst: &Instance,
    parts: &Partitions,
    start: &[Vec<u64>],
    known: u64,
) -> Result<Found, AllocError>
    requires sound { IsSound (space inst.now) }
    requires partitions { ArePartitionsOf (space inst.now) (parts_of parts.now) }
    ensures { IfOk result (λ f. ArePrices (space inst.entry.now) f.prices) }
{
    let market = lay_out(alloc, inst, parts, UNIT)?;
    let mut plan = Plan::new(alloc, &market)?;
    let mut prices = list_from(alloc, &market, start)?;
    if market.pairs <= MOST_PAIRS {
        prices = seek(
            alloc,
            &market,
            prices,
            known.saturating_mul(UNIT),
            &mut plan,
        )?;
    }
    let rows = rows_from(alloc, inst, parts, &prices)?;
    Ok(Found {
        prices: Prices::of(alloc, inst, rows)?,
        plan: allot(alloc, inst, parts, &market, &plan)?,
    })
}
