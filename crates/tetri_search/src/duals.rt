//! Weights of the rows, and how often the objective is taken beside them.

ghost use Rattle.std.specs.Prelude.{◌≡◌, ◌≤◌, ◌+◌, true, IfOk, OnOk, vec_len};
ghost use Rattle.tetri_search.specs.Follow.{dual_or};
ghost use Rattle.tetri_search.specs.Laws.{is_rest};
ghost use Rattle.tetri_search.specs.Views.{dual_of_rc, duals_before, duals_of};

use std::alloc::{AllocError, Global};
use std::rc::Rc;
use tetri_base::Items;
use tetri_cert::Mark;
use tetri_ip::Weight;

// The weights of a run that ended at a best point.
#[derive(Drop)]
pub struct Dual {
    pub q: i128,
    pub weights: Items<Weight>,
}

// The weights below a node: its own, else those above it.
fn dual_below(
    alloc: Global,
    own: Option<Dual>,
    above: Option<Rc<Dual>>,
) -> Result<Option<Rc<Dual>>, AllocError>
    ensures { IfOk result (λ d. dual_of_rc d ≡ dual_or own (dual_of_rc above)) }
{
    match own {
        Some(dual) => Ok(Some(Rc::new(alloc, dual)?)),
        None => Ok(above),
    }
}

fn share(dual: &Option<Rc<Dual>>) -> Result<Option<Rc<Dual>>, AllocError>
    ensures { IfOk result (λ d. dual_of_rc d ≡ dual_of_rc dual.now) }
{
    match dual {
        Some(dual) => Ok(Some(Rc::clone(dual)?)),
        None => Ok(None),
    }
}

// Keeps the weights above the two sides of a split, which share them.
pub(crate) fn push_duals(
    alloc: Global,
    duals: &mut Vec<Option<Rc<Dual>>>,
    own: Option<Dual>,
    above: Option<Rc<Dual>>,
    mark: &Mark,
) -> Result<(), AllocError>
    ensures duals { OnOk result (duals_of duals.new.items ≡ duals_before (dual_or own (dual_of_rc above)) mark.now (duals_of duals.old.items)) }
    ensures room { OnOk result (vec_len duals.new ≤ vec_len duals.old + 2) }
    ensures still { is_rest mark.now ≡ true → OnOk result (vec_len duals.new ≡ vec_len duals.old) }
{
    match mark {
        Mark::Split { .. } => {
            let dual = dual_below(alloc, own, above)?;
            let shared = share(&dual)?;
            duals.push(shared)?;
            duals.push(dual)?;
            Ok(())
        }
        Mark::Close { .. } | Mark::Whole { .. } | Mark::Rest { .. } => Ok(()),
    }
}
