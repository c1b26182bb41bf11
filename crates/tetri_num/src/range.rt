//! Operations on whole numbers that stay in the range, with short ways for numbers of one word.

ghost use Rattle.std.specs.Prelude.{◌≡◌, ◌↔◌, ◌<◌, ◌≤◌, ◌^◌, IsTrue};
ghost use Rattle.std.specs.Prelude.{pos, ◌<ℤ◌, ◌*ℤ◌, ◌+ℤ◌, int_div, unsigned_abs};
ghost use Rattle.std.specs.Int.{int_div_euclid};
ghost use Rattle.std.specs.Option.{SomeIff};
ghost use Rattle.tetri_algebra.specs.Range.{IsWithin};

const WORD: i128 = 1 << 63;

const QUARTER: i128 = 1 << 125;

/// Whether the number is below 2^63 in size.
pub(crate) fn is_word(n: i128) -> bool
    ensures { IsTrue result ↔ (unsigned_abs n < 2 ^ 63) }
{
    -WORD < n && n < WORD
}

// Whether the number is in the middle quarter of its type. The test reads the upper word alone.
fn is_quarter(n: i128) -> bool
    ensures { IsTrue result → unsigned_abs n ≤ 2 ^ 125 }
{
    -QUARTER <= n && n < QUARTER
}

/// The product, if it is in the range.
pub(crate) fn product(a: i128, b: i128) -> Option<i128>
    ensures { SomeIff result (IsWithin (a *ℤ b)) (a *ℤ b) }
{
    if is_word(a) && is_word(b) {
        return Some(a * b);
    }
    match a.checked_mul(b) {
        Some(x) if x != i128::MIN => Some(x),
        _ => None,
    }
}

/// The sum, if it is in the range.
pub(crate) fn total(a: i128, b: i128) -> Option<i128>
    ensures { SomeIff result (IsWithin (a +ℤ b)) (a +ℤ b) }
{
    if is_quarter(a) && is_quarter(b) {
        return Some(a + b);
    }
    match a.checked_add(b) {
        Some(sum) if sum != i128::MIN => Some(sum),
        _ => None,
    }
}

/// The quotient, rounded toward 0.
pub(crate) fn quotient(a: i128, by: i128) -> i128
    requires positive { pos 0 <ℤ by }
    requires within { IsWithin a }
    ensures value { result ≡ int_div a by }
    ensures within { IsWithin result }
{
    if by == 1 {
        return a;
    }
    if is_word(a) && is_word(by) {
        return (a as i64 / by as i64) as i128;
    }
    a / by
}

/// The quotient, rounded down.
pub(crate) fn quotient_down(a: i128, by: i128) -> i128
    requires { pos 0 <ℤ by }
    ensures { result ≡ int_div_euclid a by }
{
    if by == 1 {
        return a;
    }
    if is_word(a) && is_word(by) {
        return (a as i64).div_euclid(by as i64) as i128;
    }
    a.div_euclid(by)
}
