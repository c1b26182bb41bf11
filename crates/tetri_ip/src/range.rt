//! Whole numbers from -(2^127 - 1) to 2^127 - 1.

ghost use Rattle.std.specs.Prelude.{◌≡◌, ◌≤◌, ◌^◌, ◌+ℤ◌, ◌-ℤ◌, ◌*ℤ◌, IsTrue, unsigned_abs};
ghost use Rattle.tetri_ip.specs.Forming.{within, add_product, subtract_product};

const WORD: i128 = 1 << 63;

// Whether the number is one of 64 bits.
#[inline]
fn is_word(n: i128) -> bool
    ensures { IsTrue result → unsigned_abs n ≤ 2 ^ 63 }
{
    -WORD <= n && n < WORD
}

/// The product, if it is from -(2^127 - 1) to 2^127 - 1. Numbers of 64 bits take a short way.
#[inline]
pub fn product(a: i128, b: i128) -> Option<i128>
    ensures { result ≡ within (a *ℤ b) }
{
    if is_word(a) && is_word(b) {
        return Some(a * b);
    }
    match a.checked_mul(b) {
        Some(x) if x != i128::MIN => Some(x),
        _ => None,
    }
}

#[inline]
fn total(a: i128, b: i128) -> Option<i128>
    ensures { result ≡ within (a +ℤ b) }
{
    match a.checked_add(b) {
        Some(x) if x != i128::MIN => Some(x),
        _ => None,
    }
}

#[inline]
fn difference(a: i128, b: i128) -> Option<i128>
    ensures { result ≡ within (a -ℤ b) }
{
    match a.checked_sub(b) {
        Some(x) if x != i128::MIN => Some(x),
        _ => None,
    }
}

/// The sum with a product, if that and the product are from -(2^127 - 1) to 2^127 - 1.
#[inline]
pub fn add_product(sum: i128, a: i128, b: i128) -> Option<i128>
    ensures { result ≡ add_product sum a b }
{
    match product(a, b) {
        Some(part) => total(sum, part),
        None => None,
    }
}

/// The difference from a product, if that and the product are in the range.
#[inline]
pub(crate) fn subtract_product(rest: i128, a: i128, b: i128) -> Option<i128>
    ensures { result ≡ subtract_product rest a b }
{
    match product(a, b) {
        Some(part) => difference(rest, part),
        None => None,
    }
}
