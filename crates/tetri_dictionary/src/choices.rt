//! Which variables leave and enter, by Bland's rule (Bland, New finite pivoting rules for the
//! simplex method, 1977).

ghost use Rattle.std.specs.Prelude.{◌≡◌, ℕ, ◌+◌, ◌<◌, ◌^◌, ◌⊎◌, length, Ok, Err, Some, None, IfSome, IfOk, MatchResult};
ghost use Rattle.tetri_num.specs.Frac.{value};
ghost use Rattle.tetri_dictionary.specs.Fractions.{values, rows_of, AreWide};
ghost use Rattle.tetri_dictionary.specs.Tables.{coefficients_of};
ghost use Rattle.tetri_dictionary.specs.Choices.{lesser_place, leaving_from, lesser_ratio, entering_from, has_positive};
ghost use Rattle.tetri_dictionary.specs.Candidates.{candidate_of, IsCandidate};

use crate::fractions::{is_less, is_negative, is_positive, negated};
use tetri_num::{Frac, Kind, Place};

/// A nonbasic place that may enter, with its ratio.
#[derive(Clone, Copy)]
pub struct Candidate {
    pub place: u32,
    pub ratio: Frac,
}

// The place with the lesser variable, of the best so far and one more.
pub(crate) fn lesser_place(variables: &[usize], best: Option<u32>, k: u32) -> Option<u32>
    requires place { k < length variables.now }
    requires best { IfSome best (λ b. b < length variables.now) }
    ensures value { result ≡ lesser_place variables.now best k }
    ensures within { IfSome result (λ b. b < length variables.now) }
{
    match best {
        None => Some(k),
        Some(b) => {
            if variables[k as usize] < variables[b as usize] {
                Some(k)
            } else {
                Some(b)
            }
        }
    }
}

/// The basic place that leaves: of those with a constant below 0 the one with the least variable.
pub(crate) fn leaving_place(columns: u32, basic: &[usize], rows: &[Vec<Frac>]) -> Option<u32>
    requires wide { AreWide columns rows.now }
    requires few { length rows.now < 2 ^ 32 }
    requires enough { length basic.now < length rows.now }
    ensures place { result ≡ leaving_from basic.now 0 basic.now (rows_of rows.now) None }
    ensures within { IfSome result (λ i. i < length basic.now) }
{
    let mut best = None;
    for k in 0..basic.len() {
        if is_negative(rows[k][0]) {
            best = lesser_place(basic, best, k as u32);
        }
    }
    best
}

/// Whether a coefficient of the row is above 0.
pub(crate) fn has_positive(row: &[Frac]) -> bool
    requires { 0 < length row.now }
    ensures { result ≡ has_positive (coefficients_of (values row.now)) }
{
    for k in 1..row.len() {
        if is_positive(row[k]) {
            return true;
        }
    }
    false
}

// The candidate with the lesser ratio, at a tie with the lesser variable, of the best so far and
// one more.
#[inline]
pub(crate) fn lesser_ratio(
    variables: &[usize],
    best: Option<Candidate>,
    k: u32,
    ratio: Frac,
) -> Option<Candidate>
    requires place { k < length variables.now }
    requires best { IfSome best (λ b. b.place < length variables.now) }
    ensures value { candidate_of result ≡ lesser_ratio variables.now (candidate_of best) k (value ratio) }
    ensures from { IfSome result (λ c. (c.place ≡ k) ⊎ (best ≡ Some c)) }
{
    let candidate = Candidate { place: k, ratio };
    let Some(b) = best else {
        return Some(candidate);
    };
    if is_less(ratio, b.ratio) {
        return Some(candidate);
    }
    if !is_less(b.ratio, ratio) && variables[k as usize] < variables[b.place as usize] {
        return Some(candidate);
    }
    Some(b)
}

/// The nonbasic place that enters for the leaving row at place i: of those with a coefficient
/// above 0 there the one with the least ratio of minus the objective's coefficient to it.
pub(crate) fn entering_place(
    nonbasic: &[usize],
    row: &[Frac],
    objective: &[Frac],
    i: u32,
) -> Result<Option<Candidate>, Place>
    requires few { length nonbasic.now < 2 ^ 32 }
    requires row { length row.now ≡ length nonbasic.now + 1 }
    requires objective { length objective.now ≡ length nonbasic.now + 1 }
    ensures formed { let found = entering_from nonbasic.now i 0 (coefficients_of (values row.now)) (coefficients_of (values objective.now)) None in
        MatchResult result (λ o. found ≡ Ok (candidate_of o)) (λ e. found ≡ Err e) }
    ensures positive { IfOk result (λ o. IfSome o (λ b. IsCandidate nonbasic.now (values row.now) b)) }
{
    let mut best = None;
    for j in 0..nonbasic.len() {
        let coefficient = row[j + 1];
        if is_positive(coefficient) {
            let Ok(ratio) = negated(objective[j + 1]).div(coefficient) else {
                return Err(Place {
                    kind: Kind::Ratio,
                    step: 0,
                    row: i,
                    column: j as u32,
                });
            };
            best = lesser_ratio(nonbasic, best, j as u32, ratio);
        }
    }
    Ok(best)
}
