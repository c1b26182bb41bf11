// The first grant that earns nothing, found without memory.
ghost use Rattle.std.specs.Prelude.{◌≡◌, ◌==◌, ◌↔◌, None};
ghost use Rattle.std.specs.List.{list_any};
ghost use Rattle.tetri_strl.specs.Thrifty.{IsThriftyFor};
ghost use Rattle.tetri_strl.specs.Tree.{numbers, tree, trees};
ghost use Rattle.tetri_strl.specs.Trim.{first_waste, idle, idle_but_first, wastes};
ghost use Rattle.tetri_strl.specs.WellMade.{AreSound, IsSound};
ghost use Rattle.tetri_strl.specs.Worth.{leaf_worth};

use crate::expr::Expr;
use crate::grants::{Allotment, Grant};
use crate::worths::worth_among;

/// The place, counted from 0, of the job's first grant that earns nothing: that stands below a part
/// worth 0, or below a part of a `max` other than its first part of greatest worth. None exactly
/// where the allotment is thrifty for the job. Takes no memory: each grant of the job is asked for
/// by itself, against the worths of the parts above its leaf.
pub fn waste(e: &Expr, job: u32, a: &Allotment) -> Option<u64>
    requires { IsSound (tree e.now) }
    ensures place { result ≡ first_waste a.now job (tree e.now) }
    ensures thrifty { result ≡ None ↔ IsThriftyFor a.now job (tree e.now) }
{
    waste_among(e, job, a.as_slice())
}

/// As `waste`, over these grants.
pub fn waste_among(e: &Expr, job: u32, grants: &[Grant]) -> Option<u64>
    requires { IsSound (tree e.now) }
    ensures place { result ≡ first_waste grants.now job (tree e.now) }
    ensures thrifty { result ≡ None ↔ IsThriftyFor grants.now job (tree e.now) }
{
    find_waste(e, job, grants)
}

fn find_waste(e: &Expr, job: u32, grants: &[Grant]) -> Option<u64>
    requires { IsSound (tree e.now) }
    ensures { result ≡ first_waste grants.now job (tree e.now) }
{
    for (place, grant) in grants.iter().enumerate() {
        if is_waste(grant, e, job, grants) {
            return Some(place as u64);
        }
    }
    None
}

fn is_waste(grant: &Grant, e: &Expr, job: u32, grants: &[Grant]) -> bool
    requires { IsSound (tree e.now) }
    ensures { result ≡ wastes job (idle (leaf_worth grants.now job) (tree e.now)) grant.now }
{
    grant.job == job && is_idle(e, job, grants, grant.leaf)
}

#[cycle(is_idle)]
#[tactic(auto, using(crate::proofs::WasteLemmas::steps))]
fn is_idle(e: &Expr, job: u32, grants: &[Grant], leaf: u32) -> bool
    requires { IsSound (tree e.now) }
    ensures { result ≡ list_any (λ n. n == leaf) (idle (leaf_worth grants.now job) (tree e.now)) }
{
    let best = worth_among(e, job, grants);
    if best == 0 {
        return has_leaf(e, leaf);
    }
    match e {
        Expr::One(_) => false,
        Expr::Max(parts) => is_idle_but_first(parts, best, job, grants, leaf),
        Expr::Min(parts) | Expr::Sum(parts) => {
            for part in parts {
                if is_idle(part, job, grants, leaf) {
                    return true;
                }
            }
            false
        }
        Expr::Scale(part, _) | Expr::Barrier(part, _) => is_idle(part, job, grants, leaf),
    }
}

// Idle in the first part that is worth `best`, or a leaf of another one.
#[cycle(is_idle)]
#[tactic(auto, using(crate::proofs::WasteLemmas::steps))]
fn is_idle_but_first(parts: &[Expr], best: u64, job: u32, grants: &[Grant], leaf: u32) -> bool
    requires { AreSound (trees parts.now) }
    ensures { result
        ≡ list_any (λ n. n == leaf)
        (idle_but_first (leaf_worth grants.now job) best (trees parts.now)) }
{
    let mut found = false;
    for part in parts {
        if !found && worth_among(part, job, grants) == best {
            found = true;
            if is_idle(part, job, grants, leaf) {
                return true;
            }
        } else if has_leaf(part, leaf) {
            return true;
        }
    }
    false
}

#[tactic(auto, using(crate::proofs::WasteLemmas::steps))]
fn has_leaf(e: &Expr, leaf: u32) -> bool
    ensures { result ≡ list_any (λ n. n == leaf) (numbers (tree e.now)) }
{
    match e {
        Expr::One(own) => own.num == leaf,
        Expr::Max(parts) | Expr::Min(parts) | Expr::Sum(parts) => {
            for part in parts {
                if has_leaf(part, leaf) {
                    return true;
                }
            }
            false
        }
        Expr::Scale(part, _) | Expr::Barrier(part, _) => has_leaf(part, leaf),
    }
}
