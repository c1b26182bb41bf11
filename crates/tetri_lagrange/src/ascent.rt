// Subgradient ascent of the Lagrangian value.
use crate::lists::at;
use crate::market::Market;
use std::alloc::{AllocError, Global};

// Usage above or below what is free counts so many times in a direction.
const FINENESS: i64 = 16;

// A step is this share of the gap at first, in 1/1024.
const WHOLE_STEP: u64 = 1024;

// No step is a smaller share of the gap.
const LEAST_STEP: u64 = 8;

// So many turns without gain shorten the steps.
const PATIENCE: u32 = 30;

// After so many turns without a gain of more than 1/4096 the ascent is over.
const SETTLED: u32 = 400;

// Steps are computed in parts of 2^32.
const PARTS: u128 = 4_294_967_296;

/// The present prices, the best ones, and what the next step is made from.
#[derive(Drop)]
pub struct Ascent {
    /// The present prices, by partition and slot.
    pub prices: Vec<u64>,
    /// The prices of the best bound.
    pub best: Vec<u64>,
    /// The best bound, in parts of the unit.
    pub bound: u128,
    direction: Vec<i64>,
    step: u64,
    stale: u32,
    settled: u32,
    highest: u64,
}

// How far usage is above what is free, or below it.
fn excess(used: u64, free: u64) -> i64 {
    let over = i64::try_from(used).unwrap_or(i64::MAX);
    let under = i64::try_from(free).unwrap_or(i64::MAX);
    over.saturating_sub(under).saturating_mul(FINENESS)
}

// A price after a step.
fn stepped(price: u64, direction: i64, factor: u128, highest: u64) -> u64 {
    let product = u128::from(direction.unsigned_abs()).saturating_mul(factor);
    let change = u64::try_from(product / PARTS).unwrap_or(u64::MAX);
    if direction < 0 {
        price.saturating_sub(change)
    } else {
        price.saturating_add(change).min(highest)
    }
}

impl Ascent {
    /// Starts from these prices, of which none goes above the highest.
    pub fn new(alloc: Global, prices: Vec<u64>, highest: u64) -> Result<Ascent, AllocError> {
        Ok(Ascent {
            best: prices.clone()?,
            bound: u128::MAX,
            direction: vec![in alloc; 0i64; prices.len()]?,
            prices,
            step: WHOLE_STEP,
            stale: 0,
            settled: 0,
            highest,
        })
    }

    /// These prices have this bound.
    pub fn note(&mut self, bound: u128) -> Result<(), AllocError> {
        self.settled = self.settled.saturating_add(1);
        if bound >= self.bound {
            self.stale = self.stale.saturating_add(1);
            return Ok(());
        }
        let gain = self.bound.saturating_sub(bound);
        if gain > self.bound / 8192 {
            self.stale = 0;
        }
        if gain > self.bound / 4096 {
            self.settled = 0;
        }
        self.bound = bound;
        self.best.clear();
        self.best.extend_from_slice(&self.prices)?;
        Ok(())
    }

    // Goes back to the best prices, for shorter steps.
    fn shorten(&mut self) -> Result<(), AllocError> {
        self.stale = 0;
        self.step = self.step.saturating_mul(4) / 5;
        self.prices.clear();
        self.prices.extend_from_slice(&self.best)?;
        for direction in self.direction.iter_mut() {
            *direction = 0;
        }
        Ok(())
    }

    // Turns the direction towards usage above what is free, and answers its squared length. It
    // keeps seven tenths of what it was.
    fn deflect(&mut self, market: &Market, usage: &[u64]) -> u128 {
        let mut length: u128 = 0;
        for place in 0..self.direction.len() {
            let over = excess(at(usage, place), at(&market.free, place));
            let last = self.direction[place].saturating_mul(7) / 10;
            let mut direction = over.saturating_add(last);
            if direction < 0 && at(&self.prices, place) == 0 {
                direction = 0;
            }
            self.direction[place] = direction;
            let size = u128::from(direction.unsigned_abs());
            length = length.saturating_add(size.saturating_mul(size));
        }
        length
    }

    // Changes the prices by a factor of the direction, in parts of 2^32; answers whether one is another.
    fn change(&mut self, factor: u128) -> bool {
        let mut is_other = false;
        for (place, price) in self.prices.iter_mut().enumerate() {
            if place < self.direction.len() {
                let next = stepped(*price, self.direction[place], factor, self.highest);
                is_other = is_other || next != *price;
                *price = next;
            }
        }
        is_other
    }

    // Changes each price by one part in its direction: where many jobs compete for few nodes, a step may be less than that.
    fn nudge(&mut self) {
        for (place, price) in self.prices.iter_mut().enumerate() {
            if place < self.direction.len() {
                let sign = self.direction[place].max(-1).min(1);
                *price = stepped(*price, sign, PARTS, self.highest);
            }
        }
    }

    /// The next prices, by what is used at the present ones, their bound and the best known value,
    /// both in parts of the unit. Answers whether there is anything left to try.
    pub fn advance(
        &mut self,
        market: &Market,
        usage: &[u64],
        bound: u128,
        value: u128,
    ) -> Result<bool, AllocError> {
        if self.settled > SETTLED {
            return Ok(false);
        }
        if self.stale > PATIENCE {
            self.shorten()?;
            return Ok(self.step >= LEAST_STEP);
        }
        let length = self.deflect(market, usage);
        if length == 0 {
            return Ok(false);
        }
        let gap = bound.saturating_sub(value).max(2048);
        let share = gap.saturating_mul(u128::from(self.step)) / u128::from(WHOLE_STEP);
        let whole = share.saturating_mul(16).saturating_mul(PARTS);
        if !self.change(whole / length.max(1)) {
            self.nudge();
        }
        Ok(true)
    }
}
