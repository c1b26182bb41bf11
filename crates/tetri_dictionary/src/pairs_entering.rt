//! The variable that enters in dictionaries that keep one row for the two variables of a column.

ghost use Rattle.std.specs.Prelude.{◌≡◌, ℕ, ◌<◌, ◌^◌, length, Ok, Err, None, IfOk, IfSome, MatchResult};
ghost use lib.IntN.{ℤ};
ghost use Rattle.tetri_dictionary.specs.Candidates.{candidate_of, IsCandidate};
ghost use Rattle.tetri_dictionary.specs.Choices.{entering, entering_from};
ghost use Rattle.tetri_dictionary.specs.Mirrors.{mirror};
ghost use Rattle.tetri_dictionary.specs.Mixed.{mixed_row};
ghost use Rattle.tetri_dictionary.specs.Pairs.{table_of, IsPairs, IsWholeRow};
ghost use Rattle.tetri_dictionary.specs.Tables.{coefficients_of, row_at};

use crate::choices::Candidate;
use crate::mixed::{MixedRow, entering_row};
use crate::origins::Origin;
use crate::pairs::Pairs;
use crate::whole_choices::entering_mirror;
use tetri_num::Place;

// The nonbasic place that enters where the width less a row leaves.
fn entering_less(nonbasic: &[usize], row: &MixedRow, objective: &MixedRow) -> Option<Candidate>
    requires few { length nonbasic.now < 2 ^ 31 }
    requires row { IsWholeRow (length nonbasic.now) row.now }
    requires objective { IsWholeRow (length nonbasic.now) objective.now }
    ensures formed { (w : ℤ) (i : ℕ) →
        entering_from nonbasic.now i 0 (coefficients_of (mirror w (mixed_row row.now))) (coefficients_of (mixed_row objective.now)) None ≡ Ok (candidate_of result) }
    ensures positive { (w : ℤ) → IfSome result (λ c. IsCandidate nonbasic.now (mirror w (mixed_row row.now)) c) }
{
    match row {
        MixedRow::Whole { den, numbers } => match objective {
            MixedRow::Whole {
                den: other_den,
                numbers: others,
            } => entering_mirror(nonbasic, *den, numbers, *other_den, others),
            MixedRow::Fractions(_) => unreachable!(),
        },
        MixedRow::Fractions(_) => unreachable!(),
    }
}

/// The nonbasic place that enters where a basic place leaves.
pub(crate) fn place_enters(t: &Pairs, i: u32) -> Result<Option<Candidate>, Place>
    requires sound { IsPairs t.now }
    requires place { i < length t.now.basic.items }
    ensures formed { let found = entering (table_of t.now) i in
        MatchResult result (λ o. found ≡ Ok (candidate_of o)) (λ e. found ≡ Err e) }
    ensures positive { IfOk result (λ o. IfSome o (λ c. IsCandidate t.now.nonbasic.items (row_at (table_of t.now) i) c)) }
{
    let objective = &t.rows[t.rows.len() - 1];
    match t.origins[i as usize] {
        Origin::Kept(row) => entering_row(&t.nonbasic, &t.rows[row], objective, i),
        Origin::Mirror { row, width: _ } => Ok(entering_less(&t.nonbasic, &t.rows[row], objective)),
        Origin::Column { .. } => Ok(None),
    }
}
