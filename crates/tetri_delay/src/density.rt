// What a node is worth for one slot to the jobs that wait.
ghost use Rattle.std.specs.Prelude.{◌*◌, ◌≤◌};
ghost use Rattle.tetri_strl.specs.WellMade.{PEAK};

use crate::charge::{Density, factor};
use tetri_space::Instance;
use tetri_strl::{Expr, Leaf};

/// No sum of worths is counted above it: a job each of the 100,000 at the greatest worth.
pub(crate) const MOST_WORTH: u64 = 100_000_000_000_000_000;

// What a leaf is worth, and how many node-slots it uses for that.
#[derive(Clone, Copy, Debug, PartialEq, Eq)]
struct Use {
    worth: u64,
    node_slots: u64,
}

// Whether the leaf starts in the window.
fn is_live(inst: &Instance, leaf: &Leaf) -> bool {
    inst.now <= leaf.start && leaf.start - inst.now < inst.window
}

// What the leaf is worth below factors whose product is `by`, and what it uses.
fn use_of(leaf: &Leaf, by: u64) -> Use {
    Use {
        worth: leaf.v.saturating_mul(by),
        node_slots: u64::from(leaf.k) * u64::from(leaf.dur),
    }
}

// The first of the worthiest live leaves of an expression below factors whose product is `by`, where
// it is worth more than the best so far.
fn best_use(inst: &Instance, e: &Expr, by: u64, best: Use) -> Use {
    match e {
        Expr::One(leaf) => {
            let found = use_of(leaf, by);
            if is_live(inst, leaf) && best.worth < found.worth {
                found
            } else {
                best
            }
        }
        Expr::Max(parts) | Expr::Min(parts) | Expr::Sum(parts) => {
            let mut best = best;
            for part in parts {
                best = best_use(inst, part, by, best);
            }
            best
        }
        Expr::Scale(part, next) => best_use(inst, part, factor(by, *next), best),
        Expr::Barrier(part, _) => best_use(inst, part, by, best),
    }
}

/// Half of what a node-slot earns on the average in the worthiest live leaf of each pending job. With
/// no live leaf it is nothing.
pub fn density_of(inst: &Instance) -> Density
    ensures { result.worth ≤ 100000 * PEAK }
{
    let mut worth: u64 = 0;
    let mut node_slots: u64 = 0;
    for offer in &inst.jobs {
        let nothing = Use {
            worth: 0,
            node_slots: 0,
        };
        let best = best_use(inst, &offer.expr, 1, nothing);
        worth = worth.saturating_add(best.worth);
        node_slots = node_slots.saturating_add(best.node_slots);
    }
    Density {
        worth: worth.min(MOST_WORTH),
        node_slots: node_slots.saturating_mul(2),
    }
}
