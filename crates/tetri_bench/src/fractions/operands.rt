// Operands from a generator of pseudorandom numbers.

ghost use Rattle.std.specs.Prelude.{pos, ◌<◌, ◌^◌, ◌<ℤ◌, unsigned_abs};

use std::alloc::{AllocError, Global};
use tetri_num::Frac;

/// What the operands are like.
#[derive(Clone, Copy)]
pub enum Kind {
    /// whole numbers up to 1,000
    Whole,
    /// denominators up to 60
    Small,
    /// numbers of 30 and 40 bits
    Word,
    /// numbers of 63 and 65 bits, whose results leave the range at times
    Wide,
}

impl Kind {
    pub fn name(self) -> &'static str {
        match self {
            Kind::Whole => "whole",
            Kind::Small => "small",
            Kind::Word => "word",
            Kind::Wide => "wide",
        }
    }
}

// The next state of a linear congruential generator (Knuth's MMIX).
fn next(state: u64) -> u64 {
    state
        .wrapping_mul(6364136223846793005)
        .wrapping_add(1442695040888963407)
}

// The state with its low bits, whose period is short, mixed with the high ones.
fn mixed(state: u64) -> u64 {
    state ^ (state >> 32)
}

// A numerator below the limit in size.
fn numerator(word: u64, limit: u64) -> i128
    requires { 0 < limit }
    ensures { unsigned_abs result < 2 ^ 65 }
{
    let size = (word / 2 % limit) as i128;
    if word % 2 == 0 { size } else { -size }
}

// A denominator from 1 to the limit.
fn denominator(word: u64, limit: u64) -> i128
    requires { 0 < limit }
    ensures positive { pos 0 <ℤ result }
    ensures small { unsigned_abs result < 2 ^ 65 }
{
    (word % limit) as i128 + 1
}

fn operand(kind: Kind, upper: u64, lower: u64) -> Frac {
    match kind {
        Kind::Whole => Frac::whole(numerator(upper, 1_001)),
        Kind::Small => Frac::new(numerator(upper, 1_001), denominator(lower, 60)),
        Kind::Word => Frac::new(numerator(upper, 1 << 40), denominator(lower, 1 << 30)),
        Kind::Wide => Frac::new(
            numerator(upper, 1 << 62) * 8 + 1,
            denominator(lower, 1 << 62) * 2,
        ),
    }
}

/// Two lists of `count` operands.
pub fn pairs(alloc: Global, kind: Kind, count: u64) -> Result<(Vec<Frac>, Vec<Frac>), AllocError> {
    let mut left = Vec::new(alloc);
    let mut right = Vec::new(alloc);
    let mut state = 2026;
    for _ in 0..count {
        let first = next(state);
        let second = next(first);
        let third = next(second);
        state = next(third);
        left.push(operand(kind, mixed(first), mixed(second)))?;
        right.push(operand(kind, mixed(third), mixed(state)))?;
    }
    Ok((left, right))
}
