// Jobs in the order of a creed.
ghost use Rattle.std.specs.Prelude.{◌≡◌, ◌<◌, ◌^◌, ◌≤◌, ◌+◌, IfOk};
ghost use Rattle.tetri_greedy.specs.Order.{AreInOrder, AreRanked, past_last_start, rank_of};
ghost use Rattle.tetri_space.specs.Sound.{IsSound, IsSoundBid};
ghost use Rattle.tetri_space.specs.Space.{bid, space};
ghost use Rattle.tetri_advice.specs.Creeds.{window_top};
ghost use Rattle.tetri_strl.specs.Tree.{leaves, tree};

use std::alloc::{AllocError, Global};
use tetri_advice::Creed;
use tetri_space::{Instance, Offer};
use tetri_strl::{Expr, top_in};

/// A pending job by its place in the instance, with a number that says when it is served.
#[derive(Drop)]
pub(crate) struct Ranked {
    pub(crate) rank: u64,
    pub(crate) place: u32,
}

// One more than the greatest start of the leaves that start from `from` to `to - 1`, and 0 where none does.
fn past_last_start(e: &Expr, from: u32, to: u32) -> u32
    ensures { result ≡ past_last_start from to (leaves (tree e.now)) }
{
    match e {
        Expr::One(leaf) => if from <= leaf.start && leaf.start < to {
            leaf.start + 1
        } else {
            0
        },
        Expr::Max(parts) | Expr::Min(parts) | Expr::Sum(parts) => {
            let mut last = 0;
            for part in parts {
                last = past_last_start(part, from, to).max(last);
            }
            last
        }
        Expr::Scale(part, _) | Expr::Barrier(part, _) => past_last_start(part, from, to),
    }
}

// The rank of a job: its deadline, or how much its top falls short of the greatest number.
fn rank_of(inst: &Instance, offer: &Offer, creed: Creed) -> u64
    requires sound { IsSound (space inst.now) }
    requires good { IsSoundBid (space inst.now) (bid offer.now) }
    ensures rank { result ≡ rank_of creed (space inst.entry.now) (bid offer.entry.now) }
    ensures small { window_top (space inst.entry.now) (bid offer.entry.now) < 2 ^ 64 }
{
    let end = inst.now + inst.window;
    let top = top_in(&offer.expr, inst.now, end);
    match creed {
        Creed::Deadline => {
            let past = past_last_start(&offer.expr, inst.now, end);
            if past == 0 {
                u64::from(end)
            } else {
                u64::from(past - 1)
            }
        }
        Creed::Worth => u64::MAX - top,
    }
}

// Each job with its rank, in the order of the instance.
fn rank_jobs(alloc: Global, inst: &Instance, creed: Creed) -> Result<Vec<Ranked>, AllocError>
    requires { IsSound (space inst.now) }
    ensures { IfOk result (λ rs. AreRanked creed (space inst.entry.now) rs.items) }
{
    let mut made = Vec::with_capacity(alloc, inst.jobs.len())?;
    for (place, offer) in inst.jobs.iter().enumerate() {
        made.push(Ranked {
            rank: rank_of(inst, offer, creed),
            place: place as u32,
        })?;
    }
    Ok(made)
}

/// The pending jobs in the order of a creed. Its only error is want of memory.
pub(crate) fn creed_order(
    alloc: Global,
    inst: &Instance,
    creed: Creed,
) -> Result<Vec<Ranked>, AllocError>
    requires { IsSound (space inst.now) }
    ensures { IfOk result (λ rs. AreInOrder creed (space inst.entry.now) rs.items) }
{
    let mut jobs = rank_jobs(alloc, inst, creed)?;
    jobs.sort_by_key(|job| job.rank)?;
    Ok(jobs)
}
