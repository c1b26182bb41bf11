// Plans by counts: how many nodes of which partition each leaf has.
use crate::lists::between;
use crate::market::Market;
use std::alloc::{AllocError, Global};

/// Nodes of one partition for one leaf.
#[derive(Clone, Copy, Debug)]
pub struct Use {
    /// The place of the leaf's node.
    pub node: usize,
    /// The place of the leaf's span.
    pub span: usize,
    /// The number of the partition.
    pub part: usize,
    /// How many nodes.
    pub nodes: u64,
}

/// What a job has: a piece of the plan's list of uses, and what it is worth.
#[derive(Clone, Copy, Debug)]
pub struct Share {
    /// Where its uses begin.
    pub from: usize,
    /// Where they end.
    pub to: usize,
    /// What it is worth, in parts of the unit.
    pub worth: u64,
}

/// It has nothing.
pub const NOTHING: Share = Share {
    from: 0,
    to: 0,
    worth: 0,
};

/// What all jobs have.
#[derive(Drop)]
pub struct Plan {
    /// The uses of all jobs, among others that were given up.
    pub uses: Vec<Use>,
    /// By job.
    pub shares: Vec<Share>,
    /// What they are worth together.
    pub total: u64,
}

/// What stands behind a place.
#[inline]
pub fn behind(uses: &[Use], from: usize) -> &[Use] {
    between(uses, from, uses.len())
}

/// Takes the uses' nodes from what is left, or gives them back.
#[inline]
pub fn take(market: &Market, uses: &[Use], left: &mut [u64]) {
    for used in uses {
        let span = market.span(used.span);
        let base = used.part.saturating_mul(market.window);
        let from = base.saturating_add(span.from);
        let to = base.saturating_add(span.to);
        if from <= to && to <= left.len() {
            for nodes in left[from..to].iter_mut() {
                *nodes = nodes.saturating_sub(used.nodes);
            }
        }
    }
}

/// Gives the uses' nodes back.
#[inline]
pub fn give(market: &Market, uses: &[Use], left: &mut [u64]) {
    for used in uses {
        let span = market.span(used.span);
        let base = used.part.saturating_mul(market.window);
        let from = base.saturating_add(span.from);
        let to = base.saturating_add(span.to);
        if from <= to && to <= left.len() {
            for nodes in left[from..to].iter_mut() {
                *nodes = nodes.saturating_add(used.nodes);
            }
        }
    }
}

impl Plan {
    /// No job has anything.
    pub fn new(alloc: Global, market: &Market) -> Result<Plan, AllocError> {
        Ok(Plan {
            uses: Vec::new(alloc),
            shares: vec![in alloc; NOTHING; market.jobs.len()]?,
            total: 0,
        })
    }

    /// Takes all from all jobs.
    pub fn clear(&mut self) {
        self.uses.clear();
        for share in self.shares.iter_mut() {
            *share = NOTHING;
        }
        self.total = 0;
    }

    /// What a job has.
    #[inline]
    pub fn share(&self, job: usize) -> Share {
        match self.shares.get(job) {
            Some(share) => *share,
            None => NOTHING,
        }
    }

    /// The uses of a job.
    #[inline]
    pub fn uses_of(&self, job: usize) -> &[Use] {
        let share = self.share(job);
        between(&self.uses, share.from, share.to)
    }

    /// The job has this from now on.
    pub fn put(&mut self, job: usize, share: Share) {
        if job < self.shares.len() {
            let last = self.shares[job].worth;
            self.shares[job] = share;
            self.total = self.total.saturating_sub(last).saturating_add(share.worth);
        }
    }

    /// Becomes the same plan as another, without what was given up there.
    pub fn copy(&mut self, other: &Plan) -> Result<(), AllocError> {
        self.clear();
        for job in 0..other.shares.len() {
            let from = self.uses.len();
            self.uses.extend_from_slice(other.uses_of(job))?;
            let share = Share {
                from,
                to: self.uses.len(),
                worth: other.share(job).worth,
            };
            self.put(job, share);
        }
        Ok(())
    }
}
