//! Fractions in lowest terms (Knuth, The Art of Computer Programming, volume 2, 4.5.1).

ghost use Rattle.std.specs.Prelude.{◌≡◌, ◌≢◌, ◌↔◌, pos, ◌<ℤ◌, ◌≤ℤ◌, ◌*ℤ◌, ◌+ℤ◌, unsigned_abs};
ghost use Rattle.std.specs.Prelude.{IfOk, IfErr, IsOk, IsSome, IfSome, MatchResult, Some, None};
ghost use Rattle.std.specs.Ordering.{int_cmp, MatchOrdering};
ghost use lib.IntN.{neg_ℤ};
ghost use Rattle.tetri_algebra.specs.Rational.{fraction, whole_ℚ};
ghost use Rattle.tetri_algebra.specs.RationalRing.{◌+ℚ◌, ◌-ℚ◌, ◌*ℚ◌};
ghost use Rattle.tetri_algebra.specs.RationalReciprocal.{◌/ℚ◌};
ghost use Rattle.tetri_algebra.specs.RationalOrder.{◌<ℚ◌, floor_ℚ};
ghost use Rattle.tetri_algebra.specs.Range.{IsWithin, AreWithin};
ghost use Rattle.tetri_num.specs.Lowest.{IsLowest};
ghost use Rattle.tetri_num.specs.Forms.{sum_numbers, sum_num, sum_den};
ghost use Rattle.tetri_num.specs.Forms.{product_numbers, product_num, product_den};
ghost use Rattle.tetri_num.specs.Forms.{recip_num, recip_den};

use crate::divisors::gcd;
use crate::range::{is_word, product, quotient, quotient_down, total};
use std::cmp::Ordering;

/// An operation on two fractions.
#[derive(Clone, Copy, PartialEq, Eq, Debug)]
pub enum Op {
    Add,
    Sub,
    Mul,
    Div,
}

/// A fraction in lowest terms, its denominator above 0, both numbers from -(2^127 - 1) to
/// 2^127 - 1.
#[derive(Clone, Copy, PartialEq, Eq, Debug)]
pub struct Frac {
    pub num: i128,
    pub den: i128,
    ghost lowest: { IsLowest num den },
}

/// An operation that left the range, with its operands as they were given.
#[derive(Clone, Copy, PartialEq, Eq, Debug)]
pub struct Past {
    pub left: Frac,
    pub right: Frac,
    // Last, so that a fraction lies at the same place in an `Ok` and in an `Err`.
    pub op: Op,
}

// The sum. Whole numbers and 0 take a short way.
#[inline(always)]
fn sum_of(x: Frac, y: Frac) -> Option<Frac>
    ensures some { IsSome result ↔ AreWithin (sum_numbers x.num x.den y.num y.den) }
    ensures num { IfSome result (λ r. r.num ≡ sum_num x.num x.den y.num y.den) }
    ensures den { IfSome result (λ r. r.den ≡ sum_den x.num x.den y.num y.den) }
{
    if x.den == 1 && y.den == 1 {
        let num = total(x.num, y.num)?;
        return Some(Frac { num, den: 1 });
    }
    if x.num == 0 {
        return Some(y);
    }
    if y.num == 0 {
        return Some(x);
    }
    sum_by_parts(x, y)
}

// The sum, over the least common denominator.
#[inline(never)]
fn sum_by_parts(x: Frac, y: Frac) -> Option<Frac>
    ensures some { IsSome result ↔ AreWithin (sum_numbers x.num x.den y.num y.den) }
    ensures num { IfSome result (λ r. r.num ≡ sum_num x.num x.den y.num y.den) }
    ensures den { IfSome result (λ r. r.den ≡ sum_den x.num x.den y.num y.den) }
{
    let g = gcd(x.den, y.den);
    let part = quotient(x.den, g);
    let left = product(x.num, quotient(y.den, g))?;
    let right = product(y.num, part)?;
    let sum = total(left, right)?;
    let h = gcd(sum, g);
    let den = product(part, quotient(y.den, h))?;
    Some(Frac {
        num: quotient(sum, h),
        den,
    })
}

// The product. Whole numbers and 0 take a short way.
#[inline(always)]
fn product_of(x: Frac, y: Frac) -> Option<Frac>
    ensures some { IsSome result ↔ AreWithin (product_numbers x.num x.den y.num y.den) }
    ensures num { IfSome result (λ r. r.num ≡ product_num x.num x.den y.num y.den) }
    ensures den { IfSome result (λ r. r.den ≡ product_den x.num x.den y.num y.den) }
{
    if x.den == 1 && y.den == 1 {
        let num = product(x.num, y.num)?;
        return Some(Frac { num, den: 1 });
    }
    if x.num == 0 {
        return Some(x);
    }
    if y.num == 0 {
        return Some(y);
    }
    product_by_parts(x, y)
}

// The product, after crosswise cancelling.
#[inline(never)]
fn product_by_parts(x: Frac, y: Frac) -> Option<Frac>
    ensures some { IsSome result ↔ AreWithin (product_numbers x.num x.den y.num y.den) }
    ensures num { IfSome result (λ r. r.num ≡ product_num x.num x.den y.num y.den) }
    ensures den { IfSome result (λ r. r.den ≡ product_den x.num x.den y.num y.den) }
{
    let g = gcd(x.num, y.den);
    let h = gcd(y.num, x.den);
    let num = product(quotient(x.num, g), quotient(y.num, h))?;
    let den = product(quotient(x.den, h), quotient(y.den, g))?;
    Some(Frac { num, den })
}

// Compares a / b with c / d: by the cross products where all are words, else by the floors, and
// where these are equal by the reciprocals of what is left, in the other order.
fn compare_parts(a: i128, b: i128, c: i128, d: i128) -> Ordering
    requires left { pos 0 <ℤ b }
    requires right { pos 0 <ℤ d }
    ensures { result ≡ int_cmp (a *ℤ d) (c *ℤ b) }
{
    if is_word(a) && is_word(b) && is_word(c) && is_word(d) {
        return (a * d).cmp(&(c * b));
    }
    let q = a.div_euclid(b);
    let p = c.div_euclid(d);
    if q != p {
        return q.cmp(&p);
    }
    let r = a.rem_euclid(b);
    let s = c.rem_euclid(d);
    if r == 0 || s == 0 {
        return r.cmp(&s);
    }
    compare_parts(d, s, b, r)
}

impl Frac {
    ghost use Rattle.tetri_num.specs.Frac.{value, IsSum, IsDifference, IsProduct, IsQuotient};
    ghost use Rattle.tetri_num.specs.Checked.{
      checked_sum,
      checked_difference,
      checked_product,
      checked_quotient,
    };

    /// The fraction in lowest terms.
    pub fn new(num: i128, den: i128) -> Frac
        requires num_within { IsWithin num }
        requires den_within { IsWithin den }
        requires positive { pos 0 <ℤ den }
        ensures rational { value result ≡ fraction num (unsigned_abs den) }
        ensures cross { result.num *ℤ den ≡ num *ℤ result.den }
    {
        let g = gcd(num, den);
        Frac {
            num: quotient(num, g),
            den: quotient(den, g),
        }
    }

    /// The whole number.
    pub fn whole(n: i128) -> Frac
        requires { IsWithin n }
        ensures rational { value result ≡ whole_ℚ n }
        ensures num { result.num ≡ n }
        ensures den { result.den ≡ pos 1 }
    {
        Frac { num: n, den: 1 }
    }

    // The fraction with the other sign.
    fn negated(self) -> Frac
        ensures num { result.num ≡ neg_ℤ self.num }
        ensures den { result.den ≡ self.den }
    {
        Frac {
            num: -self.num,
            den: self.den,
        }
    }

    // One over the fraction.
    fn reciprocal(self) -> Frac
        requires { self.num ≢ pos 0 }
        ensures num { result.num ≡ recip_num self.num self.den }
        ensures den { result.den ≡ recip_den self.num }
    {
        if self.num > 0 {
            Frac {
                num: self.den,
                den: self.num,
            }
        } else {
            Frac {
                num: -self.den,
                den: -self.num,
            }
        }
    }

    /// The sum, or [`Past`] where a number that is formed on the way leaves the range.
    #[inline(always)]
    pub fn add(self, other: Frac) -> Result<Frac, Past>
        ensures rational { IfOk result (λ r. value r ≡ value self +ℚ value other) }
        ensures cross { IfOk result (λ r. IsSum r self other) }
        ensures past { IsOk result ↔ AreWithin (sum_numbers self.num self.den other.num other.den) }
        ensures which { IfErr result (λ e. e ≡ record { op = Op.Add; left = self; right = other }) }

        // the same of rational numbers alone
        ensures checked { let sum = checked_sum (value self) (value other) in
            MatchResult result (λ r. sum ≡ Some (value r)) (λ _. sum ≡ None) }
    {
        match sum_of(self, other) {
            Some(sum) => Ok(sum),
            None => Err(Past {
                op: Op::Add,
                left: self,
                right: other,
            }),
        }
    }

    /// The difference, formed as the sum with the negated right side.
    #[inline(always)]
    pub fn sub(self, other: Frac) -> Result<Frac, Past>
        ensures rational { IfOk result (λ r. value r ≡ value self -ℚ value other) }
        ensures cross { IfOk result (λ r. IsDifference r self other) }
        ensures past { IsOk result ↔ AreWithin (sum_numbers self.num self.den (neg_ℤ other.num) other.den) }
        ensures which { IfErr result (λ e. e ≡ record { op = Op.Sub; left = self; right = other }) }

        // the same of rational numbers alone
        ensures checked { let difference = checked_difference (value self) (value other) in
            MatchResult result (λ r. difference ≡ Some (value r)) (λ _. difference ≡ None) }
    {
        match sum_of(self, other.negated()) {
            Some(difference) => Ok(difference),
            None => Err(Past {
                op: Op::Sub,
                left: self,
                right: other,
            }),
        }
    }

    /// The product, or [`Past`] where one of its two products leaves the range.
    #[inline(always)]
    pub fn mul(self, other: Frac) -> Result<Frac, Past>
        ensures rational { IfOk result (λ r. value r ≡ value self *ℚ value other) }
        ensures cross { IfOk result (λ r. IsProduct r self other) }
        ensures past { IsOk result ↔
            AreWithin (product_numbers self.num self.den other.num other.den) }
        ensures which { IfErr result (λ e. e ≡ record { op = Op.Mul; left = self; right = other }) }

        // the same of rational numbers alone
        ensures checked { let product = checked_product (value self) (value other) in
            MatchResult result (λ r. product ≡ Some (value r)) (λ _. product ≡ None) }
    {
        match product_of(self, other) {
            Some(product) => Ok(product),
            None => Err(Past {
                op: Op::Mul,
                left: self,
                right: other,
            }),
        }
    }

    /// The quotient, formed as the product with the reciprocal. The divisor is not 0.
    #[inline(always)]
    pub fn div(self, other: Frac) -> Result<Frac, Past>
        requires { other.num ≢ pos 0 }
        ensures rational { IfOk result (λ r. value r ≡ value self /ℚ value other) }
        ensures cross { IfOk result (λ r. IsQuotient r self other) }
        ensures past { let num = recip_num other.num other.den in
            IsOk result ↔ AreWithin (product_numbers self.num self.den num (recip_den other.num)) }
        ensures which { IfErr result (λ e. e ≡ record { op = Op.Div; left = self; right = other }) }

        // the same of rational numbers alone
        ensures checked { let quotient = checked_quotient (value self) (value other) in
            MatchResult result (λ r. quotient ≡ Some (value r)) (λ _. quotient ≡ None) }
    {
        match product_of(self, other.reciprocal()) {
            Some(quotient) => Ok(quotient),
            None => Err(Past {
                op: Op::Div,
                left: self,
                right: other,
            }),
        }
    }

    /// The order of the two numbers, by continued division, so that nothing leaves the range.
    #[inline]
    pub fn compare(self, other: Frac) -> Ordering
        ensures rational { let x = value self in
            let y = value other in
            MatchOrdering result (x <ℚ y) (x ≡ y) (y <ℚ x) }
        ensures cross { result ≡ int_cmp (self.num *ℤ other.den) (other.num *ℤ self.den) }
    {
        if self.den == other.den {
            return self.num.cmp(&other.num);
        }
        compare_parts(self.num, self.den, other.num, other.den)
    }

    /// The greatest whole number that is not above the fraction.
    pub fn floor(self) -> i128
        ensures rational { result ≡ floor_ℚ (value self) }
        ensures below { (result *ℤ self.den) ≤ℤ self.num }
        ensures above { self.num <ℤ ((result +ℤ pos 1) *ℤ self.den) }
    {
        quotient_down(self.num, self.den)
    }
}
