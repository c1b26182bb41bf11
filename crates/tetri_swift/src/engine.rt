// What proposes the marks of a search.

ghost use Rattle.tetri_ip.specs.Points.{IsFit, IsInBox, bounds_of};

use std::alloc::{AllocError, Global};
use tetri_cert::Mark;
use tetri_ip::{Program, Region, Weight};
use tetri_num::Frac;

/// What an engine says of a region. `q` is how often the objective is taken beside the weights of
/// rows.
#[derive(Drop)]
pub enum Proposal {
    /// The weights bound the region by the best objective known, or for `q` 0 show that it has no
    /// point.
    Close {
        q: i128,
        weights: Vec<Weight>,
    },
    /// A point of the region, one number for each column, whose objective the weights give as a
    /// bound.
    Whole {
        q: i128,
        weights: Vec<Weight>,
        point: Vec<i128>,
    },
    /// A column to be split, the greatest number of its low side, the point that is not whole, one
    /// fraction for each column, and weights that bound the region.
    Split {
        q: i128,
        weights: Vec<Weight>,
        column: u32,
        at: i128,
        point: Vec<Frac>,
    },
}

/// What proposes the marks of a search. Nothing of it is trusted: a proposal is tested, and where
/// that fails another mark is written.
pub trait Engine {
    /// What it says of the next open region, or None. Its only error is want of memory.
    fn propose(
        &mut self,
        alloc: Global,
        p: &Program,
        r: &Region,
        best: u64,
    ) -> Result<Option<Proposal>, AllocError>
        requires fit { IsFit p.now }
        requires in_box { IsInBox p.now (bounds_of r.now) };

    /// Tells it the mark that was written at that region. Its only error is want of memory.
    fn follow(
        &mut self,
        alloc: Global,
        p: &Program,
        r: &Region,
        mark: &Mark,
    ) -> Result<(), AllocError>
        requires fit { IsFit p.now }
        requires in_box { IsInBox p.now (bounds_of r.now) };
}

/// The engine that proposes nothing, so that each node is a run of the dual simplex method from
/// nothing.
#[derive(Drop)]
pub struct Anew;

impl Engine for Anew {
    fn propose(
        &mut self,
        _alloc: Global,
        _p: &Program,
        _r: &Region,
        _best: u64,
    ) -> Result<Option<Proposal>, AllocError> {
        Ok(None)
    }

    fn follow(
        &mut self,
        _alloc: Global,
        _p: &Program,
        _r: &Region,
        _mark: &Mark,
    ) -> Result<(), AllocError> {
        Ok(())
    }
}
