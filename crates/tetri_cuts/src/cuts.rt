//! The cut of weights and a divisor: the weighted sum of the rows over the divisor, rounded down.

ghost use Rattle.std.specs.Prelude.{◌≡◌, ◌<◌, ◌^◌, ◌≤ℤ◌, None, length, pos, IfOk, IfErr, OnOk};
ghost use Rattle.std.specs.Int.{int_div_euclid};
ghost use Rattle.tetri_ip.specs.Points.{IsFit};
ghost use Rattle.tetri_ip.specs.Weighed.{AreNotNegative, AreOfRows, WeightsAscend};
ghost use Rattle.tetri_cuts.specs.Cuts.{HasNoNegativeBound, IsCut, IsCutFault, IsMetByPoints, past_column, quotients};

use crate::fault::CutFault;
use crate::sums::{Sums, weighted_sums};
use std::alloc::{AllocError, Global};
use tetri_ip::{Program, Row, Term, Weight};

/// The sums over the divisor, rounded down, without those that are 0.
pub(crate) fn divided(alloc: Global, sums: &Sums, q: i128) -> Result<Row, AllocError>
    requires few { length sums.now.columns.items < 2 ^ 31 }
    requires divisor { pos 1 ≤ℤ q }
    ensures terms { IfOk result (λ r. r.terms.items ≡ quotients q 0 sums.now.columns.items) }
    ensures right { IfOk result (λ r. r.right ≡ int_div_euclid sums.now.right q) }
{
    let mut terms = Vec::new(alloc);
    for j in 0..sums.columns.len() {
        let by = sums.columns[j].div_euclid(q);
        if by != 0 {
            terms.push(Term {
                column: j as u32,
                by,
            })?;
        }
    }
    let right = sums.right.div_euclid(q);
    Ok(Row { terms, right })
}

/// The cut of the weights and the divisor `q`. Its coefficients are the weighted sums of the program's
/// coefficients over `q`, rounded down, without those that are 0, ascending by column; its right side
/// is that of the right sides. Each point of the program meets it.
pub fn cut(alloc: Global, p: &Program, q: i128, weights: &[Weight]) -> Result<Row, CutFault>
    requires fit { IsFit p.now }
    requires lower { HasNoNegativeBound p.now }
    requires divisor { pos 1 ≤ℤ q }
    requires rows { AreOfRows p.now weights.now }
    requires ascending { WeightsAscend weights.now }
    requires weights { AreNotNegative weights.now }
    ensures row { IfOk result (IsCut p.now q weights.now) }
    ensures formed { OnOk result (past_column p.now weights.now ≡ None) }
    ensures fault { IfErr result (λ e. IsCutFault e (past_column p.now weights.now)) }
    ensures met { IfOk result (IsMetByPoints p.now) }
{
    let sums = weighted_sums(alloc, p, weights)?;
    let row = divided(alloc, &sums, q)?;
    Ok(row)
}
