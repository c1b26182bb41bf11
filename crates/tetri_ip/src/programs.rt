//! Integer programs, their regions and the weights of their rows.

ghost use Rattle.std.specs.Prelude.{◌≡◌, IfOk};
ghost use Rattle.tetri_ip.specs.Points.{IsFit, IsInBox, bounds_of, box_of};

use std::alloc::{AllocError, Global};

/// A whole number of times a column.
#[derive(Clone, Copy, Debug, PartialEq, Eq)]
pub struct Term {
    pub column: u32,
    pub by: i128,
}

/// The sum of the terms is at most the right side. The terms ascend by column.
#[derive(Drop)]
pub struct Row {
    pub terms: Vec<Term>,
    pub right: i128,
}

/// The costs and the least and greatest numbers of the columns, one each for
/// each column, and the rows that each point meets.
#[derive(Drop)]
pub struct Program {
    pub costs: Vec<i128>,
    pub lower: Vec<i128>,
    pub upper: Vec<i128>,
    pub rows: Vec<Row>,
}

/// A part of a program's box: the least and the greatest number of each column.
#[derive(Drop)]
pub struct Region {
    pub lower: Vec<i128>,
    pub upper: Vec<i128>,
}

/// How often a row is taken.
#[derive(Clone, Copy, Debug, PartialEq, Eq)]
pub struct Weight {
    pub row: u32,
    pub by: i128,
}

/// Why there is no weighed number: the row of the first weight below 0, or the
/// column at which the first number out of range came up.
#[derive(Clone, Copy, Debug, PartialEq, Eq)]
pub enum WeighFault {
    Negative(u32),
    Past(u32),
}

impl Region {
    /// The whole box of a program.
    pub fn whole(alloc: Global, p: &Program) -> Result<Region, AllocError>
        ensures bounds { IfOk result (λ r. bounds_of r ≡ box_of p.now) }
        ensures in_box { IsFit p.now → IfOk result (λ r. IsInBox p.now (bounds_of r)) }
    {
        let lower = Vec::from_slice(alloc, &p.lower)?;
        let upper = Vec::from_slice(alloc, &p.upper)?;
        Ok(Region { lower, upper })
    }
}
