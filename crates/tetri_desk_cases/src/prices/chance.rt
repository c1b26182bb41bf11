// Prices by chance.
use std::alloc::{AllocError, Global};
use tetri_priced::{Pricer, Quote};
use tetri_prices::{Capacities, Prices, are_prices};
use tetri_space::{Instance, Partitions};

// The greatest unit of a quote.
const UNIT_MOST: u64 = 1_048_576;

/// Gives no prices one time in eight; else each partition has for each slot a price of 0, or one below `most` parts of the unit. Which, a
/// linear congruential generator says (Knuth).
#[derive(Drop)]
pub struct Chance {
    pub seed: u64,
    pub unit: u64,
    pub most: u64,
}

impl Chance {
    fn drawn(&mut self) -> u64 {
        self.seed = self
            .seed
            .wrapping_mul(6_364_136_223_846_793_005)
            .wrapping_add(1_442_695_040_888_963_407);
        self.seed >> 33
    }

    fn price(&mut self) -> u64 {
        let drawn = self.drawn();
        if drawn % 3 == 0 || self.most == 0 {
            return 0;
        }
        drawn / 3 % self.most
    }

    fn row(&mut self, alloc: Global, window: u32) -> Result<Vec<u64>, AllocError> {
        let mut row = Vec::new(alloc);
        for _ in 0..window {
            row.push(self.price())?;
        }
        Ok(row)
    }

    fn rows(
        &mut self,
        alloc: Global,
        inst: &Instance,
        parts: &Partitions,
    ) -> Result<Vec<Vec<u64>>, AllocError> {
        let mut rows = Vec::new(alloc);
        for _ in 0..parts.count() {
            rows.push(self.row(alloc, inst.window)?)?;
        }
        Ok(rows)
    }
}

impl Pricer for Chance {
    ghost gives = { λ _ _ _ _ _ _. Unit {0} };

    fn quote(
        &mut self,
        alloc: Global,
        inst: &Instance,
        parts: &Partitions,
        _capacities: &Capacities,
        _value: u64,
        _bound: u64,
    ) -> Result<Option<Quote>, AllocError> {
        if self.drawn() % 8 == 0 {
            return Ok(None);
        }
        let rows = self.rows(alloc, inst, parts)?;
        let unit = self.unit;
        if unit == 0 || UNIT_MOST < unit || !are_prices(inst, parts, &rows) {
            return Ok(None);
        }
        let prices = Prices::of(alloc, inst, rows)?;
        Ok(Some(Quote { prices, unit }))
    }
}
