// An engine whose proposals make no sense.
use std::alloc::{AllocError, Global};
use tetri_cert::Mark;
use tetri_ip::{Program, Region, Weight};
use tetri_num::Frac;
use tetri_swift::{Engine, Proposal};

/// Proposes in turn what closes nothing, rows that are not there, a point outside, a split that parts
/// nothing and nothing.
#[derive(Drop)]
pub struct Wild {
    turn: u32,
}

impl Wild {
    pub fn new() -> Wild {
        Wild { turn: 0 }
    }
}

fn weights_of(alloc: Global, row: u32, by: i128) -> Result<Vec<Weight>, AllocError> {
    let mut weights = Vec::new(alloc);
    weights.push(Weight { row, by })?;
    Ok(weights)
}

fn zeros(alloc: Global, count: usize) -> Result<Vec<Frac>, AllocError> {
    let mut point = Vec::new(alloc);
    for _ in 0..count {
        point.push(Frac::new(0, 1))?;
    }
    Ok(point)
}

impl Engine for Wild {
    fn propose(
        &mut self,
        alloc: Global,
        p: &Program,
        _r: &Region,
        _best: u64,
    ) -> Result<Option<Proposal>, AllocError> {
        self.turn = self.turn.wrapping_add(1);
        match self.turn % 6 {
            0 => Ok(Some(Proposal::Close {
                q: 0,
                weights: Vec::new(alloc),
            })),
            1 => Ok(Some(Proposal::Close {
                q: i128::MAX,
                weights: weights_of(alloc, u32::MAX, i128::MIN)?,
            })),
            2 => Ok(Some(Proposal::Whole {
                q: 1,
                weights: Vec::new(alloc),
                point: vec![in alloc; i128::MAX; p.costs.len()]?,
            })),
            3 => Ok(Some(Proposal::Split {
                q: 0,
                weights: weights_of(alloc, 0, -1)?,
                column: u32::MAX,
                at: i128::MIN,
                point: Vec::new(alloc),
            })),
            4 => Ok(Some(Proposal::Split {
                q: -1,
                weights: Vec::new(alloc),
                column: 0,
                at: 0,
                point: zeros(alloc, p.costs.len())?,
            })),
            _ => Ok(None),
        }
    }

    fn follow(
        &mut self,
        _alloc: Global,
        _p: &Program,
        _r: &Region,
        _mark: &Mark,
    ) -> Result<(), AllocError> {
        Ok(())
    }
}
