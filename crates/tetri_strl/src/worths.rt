// What an allotment is worth to an expression.
ghost use Rattle.std.specs.Prelude.{◌≡◌, ◌-◌, ◌^◌, min};
ghost use Rattle.tetri_strl.specs.Tree.{tree};
ghost use Rattle.tetri_strl.specs.Worth.{granted, leaf_worth, worth_of};
ghost use Rattle.tetri_strl.specs.WellMade.{IsGoodLeaf, IsSound};

use crate::expr::{Expr, Leaf};
use crate::grants::{Allotment, Grant};

// As many as fit the type: a leaf asks for fewer.
fn count_granted(job: u32, leaf: u32, grants: &[Grant]) -> u64
    ensures { result ≡ min (2 ^ 64 - 1) (granted grants.now job leaf) }
{
    let mut count: u64 = 0;
    for grant in grants {
        if grant.job == job && grant.leaf == leaf {
            count = count.saturating_add(grant.nodes.as_slice().len() as u64);
        }
    }
    count
}

fn worth_of_leaf(leaf: &Leaf, job: u32, grants: &[Grant]) -> u64
    requires { IsGoodLeaf leaf.now }
    ensures { result ≡ leaf_worth grants.now job leaf.now }
{
    let count = count_granted(job, leaf.num, grants);
    let k = u64::from(leaf.k);
    if leaf.linear {
        leaf.v / k * k.min(count)
    } else if count == k {
        leaf.v
    } else {
        0
    }
}

/// What the allotment is worth to the job with this expression, by the numbers of nodes that it
/// grants to the job's leaves. Each leaf is weighed against every grant.
pub fn worth(e: &Expr, job: u32, a: &Allotment) -> u64
    requires { IsSound (tree e.now) }
    ensures { result ≡ worth_of a.now job (tree e.now) }
{
    worth_among(e, job, a.as_slice())
}

/// `worth` where the grants are given as a slice, such as the job's own run in an allotment that
/// ascends by job.
pub fn worth_among(e: &Expr, job: u32, grants: &[Grant]) -> u64
    requires { IsSound (tree e.now) }
    ensures { result ≡ worth_of grants.now job (tree e.now) }
{
    match e {
        Expr::One(leaf) => worth_of_leaf(leaf, job, grants),
        Expr::Max(parts) => {
            let mut best = 0;
            for part in parts {
                best = worth_among(part, job, grants).max(best);
            }
            best
        }
        Expr::Min(parts) => {
            let mut low = u64::MAX;
            for part in parts {
                low = worth_among(part, job, grants).min(low);
            }
            low
        }
        Expr::Sum(parts) => {
            let mut sum = 0;
            for part in parts {
                sum += worth_among(part, job, grants);
            }
            sum
        }
        Expr::Scale(part, by) => worth_among(part, job, grants) * by,
        Expr::Barrier(part, least) => {
            if worth_among(part, job, grants) >= *least {
                *least
            } else {
                0
            }
        }
    }
}
