// Who gives prices.
ghost use Rattle.std.specs.Prelude.{ℕ, IfOk, IfSome, Option, option_map};
ghost use Rattle.tetri_priced.specs.Cycle.{Given, given};
ghost use Rattle.tetri_priced.specs.Quotes.{IsQuoteOf};
ghost use Rattle.tetri_prices.specs.Capacities.{AreCapacitiesOf};
ghost use Rattle.tetri_space.specs.Partitions.{ArePartitionsOf, parts_of};
ghost use Rattle.tetri_space.specs.Sound.{IsSound};
ghost use Rattle.tetri_space.specs.Space.{Space, space};

use std::alloc::{AllocError, Global};
use tetri_prices::{Capacities, Prices};
use tetri_space::{Instance, Partitions};

/// Prices of the nodes of a cycle, by partition and slot of the window, in parts of a unit.
#[derive(Drop)]
pub struct Quote {
    /// The prices, one for each partition and slot.
    pub prices: Prices,
    /// How many parts make a worth of 1: from 1 to 2^20.
    pub unit: u64,
}

/// Who gives prices for cycles, one after another. Nothing is asked of a quote but its limits: whatever the prices,
/// the bound that they give holds.
pub trait Pricer {
    /// What it may answer: of the pricer as it stood before, the instance, the value and the bound of its plan, the prices
    /// or none, and the pricer as it stands behind.
    ghost gives: { Self → Space → ℕ → ℕ → Option Given → Self → Type 0 };

    /// Prices for the cycle of this instance, whose plan has this value and bound, or none. The partitions and what is
    /// free of them are those of the instance. The only error is want of memory.
    fn quote(
        &mut self,
        alloc: Global,
        inst: &Instance,
        parts: &Partitions,
        capacities: &Capacities,
        value: u64,
        bound: u64,
    ) -> Result<Option<Quote>, AllocError>
        requires sound { IsSound (space inst.now) }
        requires partitions { ArePartitionsOf (space inst.now) (parts_of parts.now) }
        requires capacities { AreCapacitiesOf (space inst.now) capacities.now }
        ensures limits { IfOk result (λ q. IfSome q (IsQuoteOf (space inst.entry.now))) }
        ensures gave { IfOk result (λ q. gives self.old (space inst.entry.now) value bound (option_map given q) self.new) };
}

/// A pricer that gives no prices: each cycle keeps its printed bound.
#[derive(Clone, Copy, Debug)]
pub struct Unpriced;

impl Pricer for Unpriced {
    ghost use Rattle.std.specs.Prelude.{◌≡◌, None};

    ghost gives = { λ _ _ _ _ prices _. prices ≡ None };

    fn quote(
        &mut self,
        _alloc: Global,
        _inst: &Instance,
        _parts: &Partitions,
        _capacities: &Capacities,
        _value: u64,
        _bound: u64,
    ) -> Result<Option<Quote>, AllocError> {
        Ok(None)
    }
}
