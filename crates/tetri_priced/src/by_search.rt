// Prices by search.
use crate::pricer::{Pricer, Quote};
use std::alloc::{AllocError, Global};
use tetri_lagrange::{Found, UNIT, search};
use tetri_prices::Capacities;
use tetri_space::{Instance, Partitions};

/// A pricer that searches: it gives each cycle the prices that `search` of tetri_lagrange finds for it, where the plan
/// that is known is worth the cycle's value. How low the bound is that they give no clause says.
#[derive(Clone, Copy, Debug)]
pub struct BySearch;

impl Pricer for BySearch {
    ghost use Rattle.std.specs.Prelude.{IsSome};

    ghost gives = { λ _ _ _ _ prices _. IsSome prices };

    fn quote(
        &mut self,
        alloc: Global,
        inst: &Instance,
        parts: &Partitions,
        _capacities: &Capacities,
        value: u64,
        _bound: u64,
    ) -> Result<Option<Quote>, AllocError> {
        let Found { prices, .. } = search(alloc, inst, parts, &[], value)?;
        Ok(Some(Quote { prices, unit: UNIT }))
    }
}
