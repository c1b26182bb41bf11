// The engine that goes on from the dictionary of the node above.

ghost use Rattle.tetri_ip.specs.Points.{IsFit, IsInBox, bounds_of};

use crate::dictionary::{Dictionary, bytes, copy, is_mirrored, shift, start};
use crate::engine::{Engine, Proposal};
use crate::numbers::wide_at;
use crate::proposing::of_end;
use crate::repair::{End, repair};
use std::alloc::{AllocError, Global};
use tetri_cert::Mark;
use tetri_ip::{Program, Region};

/// Goes on at each node from the dictionary of the one above, which a split changes by one bound,
/// so that some pivots of the dual simplex method repair it. The low side of a split keeps a copy
/// while all copies take no more than a number of bytes; a node without one starts from nothing.
#[derive(Drop)]
pub struct Swift {
    // the next open region's, and those of the others, the last one next
    current: Option<Dictionary>,
    kept: Vec<Option<Dictionary>>,
    left: usize,
}

impl Swift {
    /// The engine before the first node, with so many bytes for copies of dictionaries.
    pub fn new(alloc: Global, keep_bytes: usize) -> Swift {
        Swift {
            current: None,
            kept: Vec::new(alloc),
            left: keep_bytes,
        }
    }

    // The dictionary of the low side of a split, where it is to be kept.
    fn low_side(
        &self,
        alloc: Global,
        column: usize,
        down: i128,
    ) -> Result<Option<Dictionary>, AllocError> {
        match &self.current {
            Some(d) if bytes(d) <= self.left => Ok(moved(copy(alloc, d)?, column, true, down)),
            _ => Ok(None),
        }
    }

    // Keeps the low side of a split, and goes on to the high one.
    fn go_high(
        &mut self,
        alloc: Global,
        r: &Region,
        column: usize,
        at: i128,
    ) -> Result<(), AllocError> {
        let up = at
            .saturating_add(1)
            .saturating_sub(wide_at(&r.lower, column));
        let down = wide_at(&r.upper, column).saturating_sub(at);
        let low = self.low_side(alloc, column, down)?;
        self.left = self.left.saturating_sub(bytes_of(&low));
        self.kept.push(low)?;
        self.current = match self.current.take() {
            Some(d) => moved(d, column, false, up),
            None => None,
        };
        Ok(())
    }

    // Goes back to the next open region.
    fn go_back(&mut self) {
        self.current = match self.kept.pop() {
            Some(kept) => kept,
            None => None,
        };
        self.left = self.left.saturating_add(bytes_of(&self.current));
    }
}

fn bytes_of(kept: &Option<Dictionary>) -> usize {
    match kept {
        Some(d) => bytes(d),
        None => 0,
    }
}

// The dictionary with one bound of a column moved in, the upper or the lower one. None where a
// number is too long.
fn moved(d: Dictionary, column: usize, upper: bool, by: i128) -> Option<Dictionary> {
    let mut d = d;
    if is_mirrored(&d.mirrored, column) == upper {
        shift(&mut d, column, by)?;
    }
    Some(d)
}

impl Engine for Swift {
    fn propose(
        &mut self,
        alloc: Global,
        p: &Program,
        r: &Region,
        best: u64,
    ) -> Result<Option<Proposal>, AllocError> {
        let begun = match self.current.take() {
            Some(d) => Some(d),
            None => start(alloc, p, r)?,
        };
        let Some(mut d) = begun else {
            return Ok(None);
        };
        let end = repair(alloc, &mut d, r, best)?;
        let proposal = of_end(alloc, p, r, &d, end, best)?;
        if end != End::Spent {
            self.current = Some(d);
        }
        Ok(proposal)
    }

    fn follow(
        &mut self,
        alloc: Global,
        _p: &Program,
        r: &Region,
        mark: &Mark,
    ) -> Result<(), AllocError> {
        match mark {
            Mark::Split { column, at, .. } => self.go_high(alloc, r, *column as usize, *at),
            Mark::Close { .. } | Mark::Whole { .. } | Mark::Rest { .. } => {
                self.go_back();
                Ok(())
            }
        }
    }
}
