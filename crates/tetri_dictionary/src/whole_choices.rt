//! The variable that enters over rows of whole numbers, or where a width less such a row leaves. Ratios are compared by
//! cross products, and none leaves the range.

ghost use Rattle.std.specs.Prelude.{◌≡◌, ℕ, ◌+◌, ◌<◌, ◌^◌, All, length, get_or, pos, Ok, None, IfSome};
ghost use lib.IntN.{ℤ};
ghost use Rattle.tetri_rows.specs.Rows.{meaning};
ghost use Rattle.tetri_rows.specs.Small.{IsShort, IsDenominator};
ghost use Rattle.tetri_dictionary.specs.Candidates.{candidate_of, IsCandidate};
ghost use Rattle.tetri_dictionary.specs.Choices.{lesser_ratio, entering_from};
ghost use Rattle.tetri_dictionary.specs.Mirrors.{mirror};
ghost use Rattle.tetri_dictionary.specs.Mixed.{AreWholeNumbers};
ghost use Rattle.tetri_dictionary.specs.SignedNumbers.{signed_numbers};
ghost use Rattle.tetri_dictionary.specs.Tables.{coefficients_of, is_less};
ghost use Rattle.tetri_dictionary.specs.WholeRatios.{ratio_at, ratio_candidate, IsAbove};

use crate::choices::{Candidate, lesser_place};
use tetri_rows::{is_lesser_ratio, minus_ratio};

// The number at place k, or with the other sign.
#[inline(always)]
fn signed_at(other: bool, numbers: &[i64], k: usize) -> i64
    requires numbers { All IsShort numbers.now }
    requires within { k < length numbers.now }
    ensures { result ≡ get_or (signed_numbers other numbers.now) k (pos 0) }
{
    if other { -numbers[k] } else { numbers[k] }
}

// Whether the ratio of place k is less than that of place b.
#[inline(always)]
fn is_lesser_at(other: bool, numbers: &[i64], objective: &[i64], k: u32, b: u32) -> bool
    requires numbers { All IsShort numbers.now }
    requires objective { All IsShort objective.now }
    requires wide { length objective.now ≡ length numbers.now }
    requires place { IsAbove (signed_numbers other numbers.now) k }
    requires other { IsAbove (signed_numbers other numbers.now) b }
    ensures { (d e : ℤ) → IsDenominator d → IsDenominator e → let ns = signed_numbers other numbers.now in
        result ≡ is_less (ratio_at d e ns objective.now k) (ratio_at d e ns objective.now b) }
{
    let i = k as usize + 1;
    let j = b as usize + 1;
    is_lesser_ratio(
        objective[i],
        signed_at(other, numbers, i),
        objective[j],
        signed_at(other, numbers, j),
    )
}

// The place with the lesser ratio, at a tie with the lesser variable, of the best so far and one
// more.
#[inline(always)]
fn lesser_whole(
    other: bool,
    nonbasic: &[usize],
    numbers: &[i64],
    objective: &[i64],
    best: Option<u32>,
    k: u32,
) -> Option<u32>
    requires numbers { All IsShort numbers.now }
    requires objective { All IsShort objective.now }
    requires wide { length numbers.now ≡ length nonbasic.now + 1 }
    requires wide_too { length objective.now ≡ length nonbasic.now + 1 }
    requires place { IsAbove (signed_numbers other numbers.now) k }
    requires best { IfSome best (IsAbove (signed_numbers other numbers.now)) }
    ensures value { (d e : ℤ) → IsDenominator d → IsDenominator e → let ns = signed_numbers other numbers.now in
        ratio_candidate d e ns objective.now result
        ≡ lesser_ratio nonbasic.now (ratio_candidate d e ns objective.now best) k (ratio_at d e ns objective.now k) }
    ensures above { IfSome result (IsAbove (signed_numbers other numbers.now)) }
{
    let Some(b) = best else {
        return Some(k);
    };
    if is_lesser_at(other, numbers, objective, k, b) {
        return Some(k);
    }
    if is_lesser_at(other, numbers, objective, b, k) {
        return Some(b);
    }
    lesser_place(nonbasic, best, k)
}

// The nonbasic place that enters for a leaving row, whose numbers are these or with the other sign: of those with a coefficient
// above 0 there the one with the least ratio of minus the objective's coefficient to it.
#[inline(always)]
fn least_whole(other: bool, nonbasic: &[usize], numbers: &[i64], objective: &[i64]) -> Option<u32>
    requires few { length nonbasic.now < 2 ^ 31 }
    requires numbers { All IsShort numbers.now }
    requires objective { All IsShort objective.now }
    requires wide { length numbers.now ≡ length nonbasic.now + 1 }
    requires wide_too { length objective.now ≡ length nonbasic.now + 1 }
    ensures formed { (d e : ℤ) (i : ℕ) → IsDenominator d → IsDenominator e → let ns = signed_numbers other numbers.now in
        entering_from nonbasic.now i 0 (coefficients_of (meaning d ns)) (coefficients_of (meaning e objective.now)) None ≡ Ok (ratio_candidate d e ns objective.now result) }
    ensures above { IfSome result (IsAbove (signed_numbers other numbers.now)) }
{
    let mut best = None;
    for j in 0..nonbasic.len() {
        if signed_at(other, numbers, j + 1) > 0 {
            best = lesser_whole(other, nonbasic, numbers, objective, best, j as u32);
        }
    }
    best
}

// The same with its ratio, where the rows have these denominators.
#[inline(always)]
fn entering_signed(
    other: bool,
    nonbasic: &[usize],
    den: i64,
    numbers: &[i64],
    objective_den: i64,
    objective: &[i64],
) -> Option<Candidate>
    requires few { length nonbasic.now < 2 ^ 31 }
    requires row { AreWholeNumbers (length nonbasic.now) den numbers.now }
    requires objective { AreWholeNumbers (length nonbasic.now) objective_den objective.now }
    ensures formed { (i : ℕ) → let ns = signed_numbers other numbers.now in
        entering_from nonbasic.now i 0 (coefficients_of (meaning den ns)) (coefficients_of (meaning objective_den objective.now)) None ≡ Ok (candidate_of result) }
    ensures positive { IfSome result (λ b. IsCandidate nonbasic.now (meaning den (signed_numbers other numbers.now)) b) }
{
    let Some(place) = least_whole(other, nonbasic, numbers, objective) else {
        return None;
    };
    let k = place as usize + 1;
    let ratio = minus_ratio(
        den,
        objective_den,
        objective[k],
        signed_at(other, numbers, k),
    );
    Some(Candidate { place, ratio })
}

/// The nonbasic place that enters for a leaving row, with its ratio: of those with a coefficient above 0 there the one
/// with the least ratio of minus the objective's coefficient to it.
pub(crate) fn entering_whole(
    nonbasic: &[usize],
    den: i64,
    numbers: &[i64],
    objective_den: i64,
    objective: &[i64],
) -> Option<Candidate>
    requires few { length nonbasic.now < 2 ^ 31 }
    requires row { AreWholeNumbers (length nonbasic.now) den numbers.now }
    requires objective { AreWholeNumbers (length nonbasic.now) objective_den objective.now }
    ensures formed { (i : ℕ) →
        entering_from nonbasic.now i 0 (coefficients_of (meaning den numbers.now)) (coefficients_of (meaning objective_den objective.now)) None ≡ Ok (candidate_of result) }
    ensures positive { IfSome result (λ b. IsCandidate nonbasic.now (meaning den numbers.now) b) }
{
    entering_signed(false, nonbasic, den, numbers, objective_den, objective)
}

/// The same where the width less the row leaves.
pub(crate) fn entering_mirror(
    nonbasic: &[usize],
    den: i64,
    numbers: &[i64],
    objective_den: i64,
    objective: &[i64],
) -> Option<Candidate>
    requires few { length nonbasic.now < 2 ^ 31 }
    requires row { AreWholeNumbers (length nonbasic.now) den numbers.now }
    requires objective { AreWholeNumbers (length nonbasic.now) objective_den objective.now }
    ensures formed { (w : ℤ) (i : ℕ) →
        entering_from nonbasic.now i 0 (coefficients_of (mirror w (meaning den numbers.now))) (coefficients_of (meaning objective_den objective.now)) None ≡ Ok (candidate_of result) }
    ensures positive { (w : ℤ) → IfSome result (λ b. IsCandidate nonbasic.now (mirror w (meaning den numbers.now)) b) }
{
    entering_signed(true, nonbasic, den, numbers, objective_den, objective)
}
