// An expression without the leaves that start outside a range.
ghost use Rattle.std.specs.Prelude.{◌≡◌, ℕ, List, map, IfOk};
ghost use Rattle.std.specs.Option.{option_map};
ghost use Rattle.tetri_strl.specs.Prune.{GrantsOnlyIn, join_kept, kept, pruned, pruned_of, worth_kept};
ghost use Rattle.tetri_strl.specs.declared.grants.Grant.{Grant};
ghost use Rattle.tetri_strl.specs.WellMade.{IsSound};
ghost use Rattle.tetri_strl.specs.Worth.{leaf_worth, worth_of};
ghost use Rattle.tetri_strl.specs.Tree.{greatest, least, added, tree, trees};

use crate::expr::Expr;
use std::alloc::{AllocError, Global};

/// What is left of the expression without the leaves that start outside the slots from `from` to
/// `to - 1`: a `max` or a sum keeps its other parts, a `min` is lost with one of its parts, a
/// factor or
/// a barrier with its part. None where all is lost. An allotment that grants nothing to the leaves
/// taken away is worth the same. Its only error is want of memory.
pub fn prune(alloc: Global, e: &Expr, from: u32, to: u32) -> Result<Option<Expr>, AllocError>
    requires { IsSound (tree e.now) }
    ensures expression { IfOk result (λ made. option_map tree made ≡ pruned from to (tree e.now)) }
    ensures worth { (a : List Grant) (job : ℕ) → GrantsOnlyIn from to a job (tree e.now)
        → worth_kept (leaf_worth a job) (pruned from to (tree e.now))
        ≡ worth_of a job (tree e.now) }
{
    keep(alloc, e, from, to)
}

#[cycle(keep)]
fn keep(alloc: Global, e: &Expr, from: u32, to: u32) -> Result<Option<Expr>, AllocError>
    ensures { IfOk result (λ made. option_map tree made ≡ pruned from to (tree e.now)) }
{
    match e {
        Expr::One(leaf) => {
            if from <= leaf.start && leaf.start < to {
                Ok(Some(Expr::One(*leaf)))
            } else {
                Ok(None)
            }
        }
        Expr::Max(parts) => Ok(some_max(keep_parts(alloc, parts, from, to)?)),
        Expr::Min(parts) => {
            let left = keep_parts(alloc, parts, from, to)?;
            if left.len() < parts.len() {
                Ok(None)
            } else {
                Ok(some_min(left))
            }
        }
        Expr::Sum(parts) => Ok(some_sum(keep_parts(alloc, parts, from, to)?)),
        Expr::Scale(part, by) => match keep(alloc, part, from, to)? {
            None => Ok(None),
            Some(left) => Ok(Some(Expr::Scale(Box::new(alloc, left)?, *by))),
        },
        Expr::Barrier(part, least) => match keep(alloc, part, from, to)? {
            None => Ok(None),
            Some(left) => Ok(Some(Expr::Barrier(Box::new(alloc, left)?, *least))),
        },
    }
}

#[cycle(keep)]
fn keep_parts(alloc: Global, parts: &[Expr], from: u32, to: u32) -> Result<Vec<Expr>, AllocError>
    ensures { IfOk result (λ made. map tree made.items
        ≡ kept (pruned_of from to (trees parts.now))) }
{
    let mut left = Vec::new(alloc);
    for part in parts {
        if let Some(kept) = keep(alloc, part, from, to)? {
            left.push(kept)?;
        }
    }
    Ok(left)
}

fn some_max(left: Vec<Expr>) -> Option<Expr>
    ensures { option_map tree result ≡ join_kept greatest (map tree left.items) }
{
    if left.is_empty() {
        None
    } else {
        Some(Expr::Max(left))
    }
}

fn some_min(left: Vec<Expr>) -> Option<Expr>
    ensures { option_map tree result ≡ join_kept least (map tree left.items) }
{
    if left.is_empty() {
        None
    } else {
        Some(Expr::Min(left))
    }
}

fn some_sum(left: Vec<Expr>) -> Option<Expr>
    ensures { option_map tree result ≡ join_kept added (map tree left.items) }
{
    if left.is_empty() {
        None
    } else {
        Some(Expr::Sum(left))
    }
}
