//! Euclid's algorithm (Knuth, The Art of Computer Programming, volume 2, 4.5.2).

ghost use Rattle.std.specs.Prelude.{◌≡◌, ◌<◌, ◌≤◌, ◌^◌, ◌%◌, ◌*◌, ◌↔◌, max};
ghost use Rattle.std.specs.Prelude.{pos, ◌<ℤ◌, unsigned_abs, IsSome, IfSome};
ghost use Rattle.std.specs.Int.{IsGcd, trailing_zeros, w64};
ghost use Rattle.tetri_algebra.specs.Gcd.{gcd_of, lcm_of, IsLcm};
ghost use Rattle.tetri_algebra.specs.Range.{IsWithin};
ghost use Rattle.tetri_num.specs.Forms.{common};

use crate::range::{product, quotient};

// The greatest number of one word.
const WORD: u128 = 0xffff_ffff_ffff_ffff;

// The number without its factors 2.
fn odd_part(n: u64) -> u64
    requires { 0 < n }
    ensures odd { result % 2 ≡ 1 }
    ensures part { result * 2 ^ trailing_zeros w64 n ≡ n }
{
    n >> n.trailing_zeros()
}

// The greatest common divisor of two odd numbers, by differences.
fn gcd_odd(a: u64, b: u64) -> u64
    requires left { a % 2 ≡ 1 }
    requires right { b % 2 ≡ 1 }
    ensures { result ≡ gcd_of a b }
{
    let mut x = a;
    let mut y = b;
    while x != y {
        let least = x.min(y);
        x = odd_part(x.max(y) - least);
        y = least;
    }
    x
}

// The greatest common divisor of two words, by the binary algorithm (Stein; Knuth's algorithm B).
fn gcd_word(a: u64, b: u64) -> u64
    ensures { result ≡ gcd_of a b }
{
    if a == 0 {
        return b;
    }
    if b == 0 {
        return a;
    }
    let twos = a.trailing_zeros().min(b.trailing_zeros());
    gcd_odd(odd_part(a), odd_part(b)) << twos
}

// The greatest common divisor, by words as soon as both numbers are such.
fn gcd_unsigned(a: u128, b: u128) -> u128
    ensures greatest { result ≡ gcd_of a b }
    ensures bound { result ≤ max a b }
{
    let mut x = a;
    let mut y = b;
    while y != 0 {
        if x <= WORD && y <= WORD {
            return gcd_word(x as u64, y as u64) as u128;
        }
        let r = x % y;
        x = y;
        y = r;
    }
    x
}

/// The greatest common divisor, which is not negative; 0 for two zeros.
pub fn gcd(a: i128, b: i128) -> i128
    requires left { IsWithin a }
    requires right { IsWithin b }
    ensures value { result ≡ common a b }
    ensures greatest { IsGcd (unsigned_abs a) (unsigned_abs b) (unsigned_abs result) }
{
    if a == 1 || b == 1 {
        return 1;
    }
    gcd_unsigned(a.unsigned_abs(), b.unsigned_abs()) as i128
}

/// The least common multiple, if it is at most 2^127 - 1.
pub fn lcm(a: i128, b: i128) -> Option<i128>
    requires left { pos 0 <ℤ a }
    requires right { pos 0 <ℤ b }
    ensures fits { IsSome result ↔ (lcm_of (unsigned_abs a) (unsigned_abs b) < 2 ^ 127) }
    ensures value { IfSome result (λ m. m ≡ pos (lcm_of (unsigned_abs a) (unsigned_abs b))) }
    ensures least { IfSome result (λ m. IsLcm (unsigned_abs a) (unsigned_abs b) (unsigned_abs m)) }
{
    product(quotient(a, gcd(a, b)), b)
}
