// Greedy plans under prices.
use crate::lists::at;
use crate::market::{Job, Market};
use crate::placing::{Head, NO_HEAD, Stand, place_job};
use crate::plans::{Plan, Share};
use crate::turns::Turn;
use std::alloc::{AllocError, Global};

/// A job with what it comes by: a lesser key comes first, then a lesser place.
#[derive(Clone, Copy, Debug, PartialEq, Eq, PartialOrd, Ord)]
pub struct Rank {
    /// The greatest number less its gain, or its gain a node-slot.
    pub key: u64,
    /// The place of the job.
    pub job: usize,
}

/// What greedy plans are made with.
#[derive(Drop)]
pub struct Desk {
    /// How many nodes are left, by partition and slot.
    pub left: Vec<u64>,
    /// The order of the jobs.
    pub ranks: Vec<Rank>,
    /// By node.
    pub heads: Vec<Head>,
}

impl Desk {
    /// A desk on which nothing is taken.
    pub fn new(alloc: Global, market: &Market) -> Result<Desk, AllocError> {
        Ok(Desk {
            left: Vec::from_slice(alloc, &market.free)?,
            ranks: Vec::new(alloc),
            heads: vec![in alloc; NO_HEAD; market.nodes.len()]?,
        })
    }

    /// Gives all back.
    pub fn reset(&mut self, market: &Market) -> Result<(), AllocError> {
        self.left.clear();
        self.left.extend_from_slice(&market.free)?;
        Ok(())
    }

    // Puts the jobs that could have something in the order of their gains, or of these by
    // node-slot.
    fn rank(
        &mut self,
        market: &Market,
        turn: &Turn,
        tops: &[u64],
        by_size: bool,
    ) -> Result<(), AllocError> {
        self.ranks.clear();
        for (place, job) in market.jobs.iter().enumerate() {
            if at(tops, place) > 0 {
                let key = u64::MAX.saturating_sub(gain_by(turn, job, by_size));
                self.ranks.push(Rank { key, job: place })?;
            }
        }
        self.ranks.sort_unstable();
        Ok(())
    }
}

// What a job gains, or gains a node-slot.
fn gain_by(turn: &Turn, job: &Job, by_size: bool) -> u64 {
    if by_size {
        return turn.gain(job) / job.size.max(1);
    }
    turn.gain(job)
}

/// Places the jobs that have nothing, one after the other.
pub fn fill(
    stand: &Stand,
    ranks: &[Rank],
    left: &mut [u64],
    heads: &mut [Head],
    plan: &mut Plan,
) -> Result<(), AllocError> {
    for rank in ranks {
        if plan.share(rank.job).worth == 0 {
            if let Some(job) = stand.market.jobs.get(rank.job) {
                fill_job(stand, rank.job, job, left, heads, plan)?;
            }
        }
    }
    Ok(())
}

// Places one job, where it gains something.
fn fill_job(
    stand: &Stand,
    place: usize,
    job: &Job,
    left: &mut [u64],
    heads: &mut [Head],
    plan: &mut Plan,
) -> Result<(), AllocError> {
    if stand.priced && at(stand.gains, job.first) == 0 {
        return Ok(());
    }
    let from = plan.uses.len();
    let worth = place_job(stand, job, left, &mut plan.uses, heads)?;
    if worth > 0 {
        let to = plan.uses.len();
        plan.put(place, Share { from, to, worth });
    }
    Ok(())
}

/// A plan under the prices of a turn: jobs by gain, or by gain a node-slot, first where they gain
/// most and then, those that have nothing, where they are worth most.
pub fn make_plan(
    market: &Market,
    turn: &Turn,
    tops: &[u64],
    by_size: bool,
    desk: &mut Desk,
    plan: &mut Plan,
) -> Result<(), AllocError> {
    desk.reset(market)?;
    desk.rank(market, turn, tops, by_size)?;
    plan.clear();
    let stand = Stand {
        market,
        places: &turn.places,
        gains: &turn.gains,
        priced: true,
        salt: 0,
    };
    fill(&stand, &desk.ranks, &mut desk.left, &mut desk.heads, plan)?;
    let stand = Stand {
        priced: false,
        ..stand
    };
    fill(&stand, &desk.ranks, &mut desk.left, &mut desk.heads, plan)?;
    Ok(())
}
