// Regions that are weighed and dual runs, of programs that no trace gives.
ghost use Rattle.std.specs.Prelude.{◌≡◌, length, IfOk};
ghost use Rattle.tetri_ip.specs.Points.{IsFit, IsInBox, bounds_of};
ghost use Rattle.tetri_ip.specs.Weighed.{AreOfRows};

use crate::programs::run_told;
use std::alloc::{AllocError, Global};
use tetri_ip::{Program, Region, Row, Term, Weight, holds_point, weigh, weigh_over};
use tetri_tables::{Tally, add_debug};

const TOP: i128 = i128::MAX;

// Twice the second column, of 0 to 3, which is at most 3 and at most four times the first, of 0 to 1; and the region where the
// first is 0.
fn linked(alloc: Global) -> Result<(Program, Region), AllocError>
    ensures fit { IfOk result (λ x. IsFit x.0) }
    ensures in_box { IfOk result (λ x. IsInBox x.0 (bounds_of x.1)) }
    ensures columns { IfOk result (λ x. length x.0.costs.items ≡ 2) }
    ensures rows { IfOk result (λ x. length x.0.rows.items ≡ 2) }
{
    let costs = Vec::from_slice(alloc, &[0, 2])?;
    let lower = Vec::from_slice(alloc, &[0, 0])?;
    let upper = Vec::from_slice(alloc, &[1, 3])?;
    let linked = Vec::from_slice(
        alloc,
        &[Term { column: 0, by: -4 }, Term { column: 1, by: 1 }],
    )?;
    let supply = Vec::from_slice(alloc, &[Term { column: 1, by: 1 }])?;
    let mut rows = Vec::new(alloc);
    rows.push(Row {
        terms: linked,
        right: 0,
    })?;
    rows.push(Row {
        terms: supply,
        right: 3,
    })?;
    let low_side = Region {
        lower: Vec::from_slice(alloc, &[0, 0])?,
        upper: Vec::from_slice(alloc, &[0, 3])?,
    };
    let program = Program {
        costs,
        lower,
        upper,
        rows,
    };
    Ok((program, low_side))
}

// 2^126 times the first column and once the second, with 3 and 5 times them at most 1.
fn steep(alloc: Global) -> Result<Program, AllocError>
    ensures { IfOk result (λ p. IsFit p) }
{
    let costs = Vec::from_slice(alloc, &[1 << 126, 1])?;
    let lower = Vec::from_slice(alloc, &[0, 0])?;
    let upper = Vec::from_slice(alloc, &[1, 1])?;
    let terms = Vec::from_slice(
        alloc,
        &[Term { column: 0, by: 3 }, Term { column: 1, by: 5 }],
    )?;
    let mut rows = Vec::new(alloc);
    rows.push(Row { terms, right: 1 })?;
    Ok(Program {
        costs,
        lower,
        upper,
        rows,
    })
}

// Once the second column, where the first is at most -1, both of 0 to 1.
fn impossible(alloc: Global) -> Result<Program, AllocError>
    ensures { IfOk result (λ p. IsFit p) }
{
    let costs = Vec::from_slice(alloc, &[0, 1])?;
    let lower = Vec::from_slice(alloc, &[0, 0])?;
    let upper = Vec::from_slice(alloc, &[1, 1])?;
    let terms = Vec::from_slice(alloc, &[Term { column: 0, by: 1 }])?;
    let mut rows = Vec::new(alloc);
    rows.push(Row { terms, right: -1 })?;
    Ok(Program {
        costs,
        lower,
        upper,
        rows,
    })
}

fn add_weighed(
    out: &mut String,
    p: &Program,
    r: &Region,
    q: i128,
    weights: &[Weight],
) -> Result<(), AllocError>
    requires fit { IsFit p.now }
    requires in_box { IsInBox p.now (bounds_of r.now) }
    requires rows { AreOfRows p.now weights.now }
{
    out.push_str(" ")?;
    add_debug(out, &weigh(p, r, q, weights))
}

fn add_all_weighed(out: &mut String, p: &Program, r: &Region) -> Result<(), AllocError>
    requires fit { IsFit p.now }
    requires in_box { IsInBox p.now (bounds_of r.now) }
    requires rows { length p.now.rows.items ≡ 2 }
{
    add_weighed(out, p, r, 1, &[])?;
    add_weighed(out, p, r, 1, &[Weight { row: 0, by: 1 }])?;
    add_weighed(out, p, r, 1, &[Weight { row: 1, by: 2 }])?;
    add_weighed(out, p, r, 1, &[Weight { row: 1, by: -1 }])?;
    add_weighed(out, p, r, 0, &[Weight { row: 0, by: TOP }])?;
    add_weighed(out, p, r, TOP, &[])
}

fn weighed_told(alloc: Global) -> Result<String, AllocError> {
    let (p, _low_side) = linked(alloc)?;
    let whole = Region::whole(alloc, &p)?;
    let mut out = format!(in alloc; "{:?} {:?}", whole.lower, whole.upper)?;
    add_all_weighed(&mut out, &p, &whole)?;
    Ok(out)
}

fn add_weighed_over(
    out: &mut String,
    p: &Program,
    r: &Region,
    q: i128,
    weights: &[Weight],
    factors: &mut [i128],
) -> Result<(), AllocError>
    requires fit { IsFit p.now }
    requires in_box { IsInBox p.now (bounds_of r.now) }
    requires rows { AreOfRows p.now weights.now }
    requires length { length factors.old ≡ length p.now.costs.items }
{
    out.push_str(" ")?;
    add_debug(out, &weigh_over(p, r, q, weights, factors))
}

fn add_all_weighed_over(
    out: &mut String,
    p: &Program,
    r: &Region,
    factors: &mut [i128],
) -> Result<(), AllocError>
    requires fit { IsFit p.now }
    requires in_box { IsInBox p.now (bounds_of r.now) }
    requires rows { length p.now.rows.items ≡ 2 }
    requires length { length factors.old ≡ length p.now.costs.items }
{
    add_weighed_over(out, p, r, 1, &[], factors)?;
    add_weighed_over(out, p, r, 1, &[Weight { row: 0, by: 1 }], factors)?;
    add_weighed_over(out, p, r, 1, &[Weight { row: 1, by: 2 }], factors)?;
    let both = [Weight { row: 0, by: 1 }, Weight { row: 1, by: 1 }];
    add_weighed_over(out, p, r, 1, &both, factors)?;
    add_weighed_over(out, p, r, 1, &[Weight { row: 1, by: -1 }], factors)?;
    add_weighed_over(out, p, r, 0, &[Weight { row: 0, by: TOP }], factors)?;
    add_weighed_over(out, p, r, TOP, &[], factors)
}

fn weighed_over_told(alloc: Global) -> Result<String, AllocError> {
    let (p, _low_side) = linked(alloc)?;
    let whole = Region::whole(alloc, &p)?;
    let mut factors = vec![in alloc; 0i128; p.costs.len()]?;
    let mut out = String::from_str(alloc, "by rows")?;
    add_all_weighed_over(&mut out, &p, &whole, factors.as_mut_slice())?;
    Ok(out)
}

fn points_told(alloc: Global) -> Result<String, AllocError> {
    let (p, _low_side) = linked(alloc)?;
    let whole = Region::whole(alloc, &p)?;
    let both = holds_point(&p, &whole, &[1, 3]);
    let unlinked = holds_point(&p, &whole, &[0, 3]);
    let outside = holds_point(&p, &whole, &[1, 4]);
    format!(in alloc; "{both} {unlinked} {outside}")
}

/// Weighed numbers, the first of the whole box, and points.
pub fn weighed(alloc: Global, tally: &mut Tally) -> Result<(), AllocError> {
    let found = weighed_told(alloc)?;
    let wanted = "[0, 0] [1, 3] Ok(6) Ok(7) Ok(6) Err(Negative(1)) Err(Past(0)) Err(Past(1))";
    tally.expect("weighed", found.as_str(), wanted)?;
    let found = weighed_over_told(alloc)?;
    let wanted = "by rows Ok(6) Ok(7) Ok(6) Ok(7) Err(Negative(1)) Err(Past(0)) Err(Past(1))";
    tally.expect("weighed", found.as_str(), wanted)?;
    let found = points_told(alloc)?;
    tally.expect("points", found.as_str(), "true false false")
}

fn linked_told(alloc: Global) -> Result<String, AllocError> {
    let (p, low_side) = linked(alloc)?;
    let whole = Region::whole(alloc, &p)?;
    let mut out = run_told(alloc, &p, &whole, 0)?;
    let low = run_told(alloc, &p, &low_side, 6)?;
    write!(out, "; {low}")?;
    Ok(out)
}

fn steep_told(alloc: Global) -> Result<String, AllocError> {
    let p = steep(alloc)?;
    let whole = Region::whole(alloc, &p)?;
    run_told(alloc, &p, &whole, 0)
}

fn impossible_told(alloc: Global) -> Result<String, AllocError> {
    let p = impossible(alloc)?;
    let whole = Region::whole(alloc, &p)?;
    run_told(alloc, &p, &whole, 0)
}

/// Dual runs that end with a best point, cut, at a number that leaves the range, and at a row that nothing meets.
pub fn dual_runs(alloc: Global, tally: &mut Tally) -> Result<(), AllocError> {
    let found = linked_told(alloc)?;
    tally.expect(
        "linked",
        found.as_str(),
        "best 3/4 3/1 by 1 of; cut by 1 of",
    )?;
    let found = steep_told(alloc)?;
    tally.expect("steep", found.as_str(), "past Entry 0 3 2")?;
    let found = impossible_told(alloc)?;
    tally.expect("impossible", found.as_str(), "empty of 0:1")
}
