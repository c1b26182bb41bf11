// What prices make of the bound of a cycle.
ghost use Rattle.std.specs.Prelude.{◌≡◌, IfOk, IfSome, min, option_map};
ghost use Rattle.tetri_claims.specs.Good.{BoundsEveryLawful};
ghost use Rattle.tetri_priced.specs.Cycle.{IsPricedBy, given};
ghost use Rattle.tetri_priced.specs.Quotes.{IsQuoteOf};
ghost use Rattle.tetri_priced.specs.Run.{IsPricedAs};
ghost use Rattle.tetri_prices.specs.Capacities.{AreCapacitiesOf};
ghost use Rattle.tetri_prices.specs.Priced.{listed, priced_bound};
ghost use Rattle.tetri_prices.specs.Prices.{rows_of};
ghost use Rattle.tetri_space.specs.Partitions.{ArePartitionsOf, parts_of};
ghost use Rattle.tetri_space.specs.Sound.{IsSound};
ghost use Rattle.tetri_space.specs.Space.{space};

use crate::lowest::{NodePrice, prices_above_zero};
use crate::pricer::{Pricer, Quote};
use std::alloc::{AllocError, Global};
use tetri_prices::{Capacities, capacities_of, priced_bound};
use tetri_space::{Instance, Partitions, find_partitions};

/// A cycle with what prices make of its bound.
#[derive(Drop)]
pub struct PricedCycle {
    /// Its number.
    pub number: u32,
    /// What its plan is worth.
    pub value: u64,
    /// Its printed bound.
    pub bound: u64,
    /// The lesser of that and the bound of the prices, where some were given.
    pub priced: u64,
    /// These prices, as far as they are above 0, by partition and then by slot.
    pub prices: Vec<NodePrice>,
}

/// The number, the value and the printed bound of a cycle.
#[derive(Clone, Copy, Debug)]
pub struct Printed {
    pub number: u32,
    pub value: u64,
    pub bound: u64,
}

// What a quote makes of a bound: the lesser one.
fn lesser_bound(
    alloc: Global,
    inst: &Instance,
    parts: &Partitions,
    capacities: &Capacities,
    bound: u64,
    quote: &Quote,
) -> Result<u64, AllocError>
    requires sound { IsSound (space inst.now) }
    requires partitions { ArePartitionsOf (space inst.now) (parts_of parts.now) }
    requires capacities { AreCapacitiesOf (space inst.now) capacities.now }
    requires quote { IsQuoteOf (space inst.now) quote.now }
    ensures value { IfOk result (λ n. n ≡ min bound (priced_bound (space inst.entry.now) quote.entry.now.unit
        (listed (space inst.entry.now).now (rows_of quote.entry.now.prices)))) }
    ensures bounds { IfOk result (λ n. BoundsEveryLawful (space inst.entry.now) bound
        → BoundsEveryLawful (space inst.entry.now) n) }
{
    let priced = priced_bound(alloc, inst, parts, capacities, &quote.prices, quote.unit)?;
    Ok(priced.min(u128::from(bound)) as u64)
}

// What a quote makes of a cycle.
fn quoted(
    alloc: Global,
    inst: &Instance,
    parts: &Partitions,
    capacities: &Capacities,
    printed: Printed,
    quote: &Quote,
) -> Result<PricedCycle, AllocError>
    requires sound { IsSound (space inst.now) }
    requires partitions { ArePartitionsOf (space inst.now) (parts_of parts.now) }
    requires capacities { AreCapacitiesOf (space inst.now) capacities.now }
    requires quote { IsQuoteOf (space inst.now) quote.now }
    ensures told { IfOk result (IsPricedBy (space inst.entry.now) (Some (given quote.entry.now)) printed) }
    ensures bounds { IfOk result (λ c. BoundsEveryLawful (space inst.entry.now) printed.bound
        → BoundsEveryLawful (space inst.entry.now) c.priced) }
{
    let priced = lesser_bound(alloc, inst, parts, capacities, printed.bound, quote)?;
    let prices = prices_above_zero(alloc, inst, parts, quote)?;
    Ok(PricedCycle {
        number: printed.number,
        value: printed.value,
        bound: printed.bound,
        priced,
        prices,
    })
}

/// What a quote, if there is one, makes of a cycle of this instance with this number, value and printed bound. The only
/// error is want of memory.
pub fn priced_by(
    alloc: Global,
    inst: &Instance,
    parts: &Partitions,
    capacities: &Capacities,
    printed: Printed,
    quote: &Option<Quote>,
) -> Result<PricedCycle, AllocError>
    requires sound { IsSound (space inst.now) }
    requires partitions { ArePartitionsOf (space inst.now) (parts_of parts.now) }
    requires capacities { AreCapacitiesOf (space inst.now) capacities.now }
    requires quote { IfSome quote.now (IsQuoteOf (space inst.now)) }
    ensures told { IfOk result (IsPricedBy (space inst.entry.now) (option_map given quote.entry.now) printed) }
    ensures bounds { IfOk result (λ c. BoundsEveryLawful (space inst.entry.now) printed.bound
        → BoundsEveryLawful (space inst.entry.now) c.priced) }
{
    match quote {
        Some(quote) => quoted(alloc, inst, parts, capacities, printed, quote),
        None => Ok(PricedCycle {
            number: printed.number,
            value: printed.value,
            bound: printed.bound,
            priced: printed.bound,
            prices: Vec::new(alloc),
        }),
    }
}

/// What the answer of a pricer makes of a cycle of this instance with this number, value and printed bound: where that
/// bound holds, no lawful allotment is worth more than the lesser one. The only error is want of memory.
pub fn price_cycle<P: Pricer>(
    alloc: Global,
    inst: &Instance,
    printed: Printed,
    pricer: &mut P,
) -> Result<PricedCycle, AllocError>
    requires { IsSound (space inst.now) }
    ensures { IfOk result (λ c. IsPricedAs P.gives pricer.old (space inst.entry.now) printed c pricer.new) }
{
    let parts = find_partitions(alloc, inst)?;
    let capacities = capacities_of(alloc, inst, &parts)?;
    let quote = pricer.quote(
        alloc,
        inst,
        &parts,
        &capacities,
        printed.value,
        printed.bound,
    )?;
    priced_by(alloc, inst, &parts, &capacities, printed, &quote)
}
