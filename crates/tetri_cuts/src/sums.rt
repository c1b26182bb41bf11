//! The weighted sums of a program's rows, which all divisors share.

ghost use Rattle.std.specs.Prelude.{◌≡◌, ◌<◌, None, All, pos, IfOk, IfErr, OnOk};
ghost use Rattle.tetri_ip.specs.Points.{IsFit};
ghost use Rattle.tetri_algebra.specs.Range.{IsWithin};
ghost use Rattle.tetri_ip.specs.Weighed.{AreOfRows};
ghost use Rattle.tetri_ip.specs.Forming.{coefficients, form_sum};
ghost use Rattle.tetri_cuts.specs.Cuts.{IsCutFault, past_column, past_from, sums_from};
ghost use Rattle.tetri_cuts.specs.Sums.{AreSums};

use crate::fault::CutFault;
use std::alloc::Global;
use tetri_ip::{Program, Weight, add_product, coefficient_of, right_sum};

/// The weighted sums of the coefficients of each column, and of the right sides.
#[derive(Drop)]
pub(crate) struct Sums {
    pub(crate) columns: Vec<i128>,
    pub(crate) right: i128,
}

// The sum of the weights' products with their rows' coefficients at a column.
fn column_sum(p: &Program, weights: &[Weight], column: u32) -> Option<i128>
    requires fit { IsFit p.now }
    requires rows { AreOfRows p.now weights.now }
    ensures { result ≡ form_sum (coefficients p.now.rows.items column) weights.now (pos 0) }
{
    let mut sum = 0;
    for w in weights {
        let by = coefficient_of(&p.rows[w.row as usize], column);
        let Some(next) = add_product(sum, w.by, by) else {
            return None;
        };
        sum = next;
    }
    Some(sum)
}

// The sum of each column.
fn column_sums(alloc: Global, p: &Program, weights: &[Weight]) -> Result<Vec<i128>, CutFault>
    requires fit { IsFit p.now }
    requires rows { AreOfRows p.now weights.now }
    ensures sums { IfOk result (λ v. v.items ≡ sums_from p.now.rows.items weights.now 0 p.now.costs.items) }
    ensures within { IfOk result (λ v. All IsWithin v.items) }
    ensures formed { OnOk result (past_from p.now.rows.items weights.now 0 p.now.costs.items ≡ None) }
    ensures fault { IfErr result (λ e. IsCutFault e (past_from p.now.rows.items weights.now 0 p.now.costs.items)) }
{
    let mut sums = Vec::new(alloc);
    for j in 0..p.costs.len() {
        let Some(sum) = column_sum(p, weights, j as u32) else {
            return Err(CutFault::Past(j as u32));
        };
        sums.push(sum)?;
    }
    Ok(sums)
}

/// The sums of some weights.
pub(crate) fn weighted_sums(
    alloc: Global,
    p: &Program,
    weights: &[Weight],
) -> Result<Sums, CutFault>
    requires fit { IsFit p.now }
    requires rows { AreOfRows p.now weights.now }
    ensures sums { IfOk result (AreSums p.now weights.now) }
    ensures fault { IfErr result (λ e. IsCutFault e (past_column p.now weights.now)) }
{
    let Some(right) = right_sum(p, weights) else {
        return Err(CutFault::Past(0));
    };
    let columns = column_sums(alloc, p, weights)?;
    Ok(Sums { columns, right })
}
