// The leaves that pending jobs offer.
ghost use Rattle.std.specs.Prelude.{◌≡◌, ◌==◌, ◌↔◌, None, Some, IsTrue, MatchOption, find};
ghost use Rattle.tetri_strl.specs.Tree.{leaves, tree};
ghost use Rattle.tetri_space.specs.Sound.{IsSound};
ghost use Rattle.tetri_space.specs.Space.{IsLive, leaf_in, space};

use crate::Instance;
use tetri_strl::{Expr, Leaf};

// What a pending job asks for, found by binary search.
pub fn expr_of(inst: &Instance, job: u32) -> Option<&Expr>
    requires { IsSound (space inst.now) }
    ensures { MatchOption result
        (find (λ b. b.job == job) (space inst.entry.now).bids ≡ None)
        (λ e. find (λ b. b.job == job) (space inst.entry.now).bids
        ≡ Some (record { job = job; expr = tree e.now })) }
{
    match inst.jobs.binary_search_by_key(&job, |offer| offer.job) {
        Ok(at) => Some(&inst.jobs[at].expr),
        Err(_) => None,
    }
}

// The leaf of this number in an expression.
pub fn leaf_numbered(e: &Expr, num: u32) -> Option<Leaf>
    ensures { result ≡ find (λ l. l.num == num) (leaves (tree e.now)) }
{
    match e {
        Expr::One(leaf) => if leaf.num == num { Some(*leaf) } else { None },
        Expr::Max(parts) | Expr::Min(parts) | Expr::Sum(parts) => {
            for part in parts {
                if let Some(leaf) = leaf_numbered(part, num) {
                    return Some(leaf);
                }
            }
            None
        }
        Expr::Scale(part, _) | Expr::Barrier(part, _) => leaf_numbered(part, num),
    }
}

/// The leaf that a pending job offers under this number: a binary search and a walk over its
/// expression.
pub fn leaf_of(inst: &Instance, job: u32, num: u32) -> Option<Leaf>
    requires { IsSound (space inst.now) }
    ensures { result ≡ leaf_in (space inst.entry.now).bids job num }
{
    match expr_of(inst, job) {
        Some(expr) => leaf_numbered(expr, num),
        None => None,
    }
}

// Whether the leaf starts in the window.
pub fn is_live(inst: &Instance, leaf: &Leaf) -> bool
    requires { IsSound (space inst.now) }
    ensures { IsTrue result ↔ IsLive (space inst.entry.now) leaf.now }
{
    inst.now <= leaf.start && leaf.start < inst.now + inst.window
}
