// What a delay costs, and expressions whose worths are lessened by it.
ghost use Rattle.std.specs.Prelude.{◌≡◌, IfOk, map};
ghost use Rattle.tetri_delay.specs.Charge.{IsInRange, charged, charged_leaf, charged_worth, cost, factor, free};
ghost use Rattle.tetri_strl.specs.Tree.{tree, trees};
ghost use Rattle.tetri_strl.specs.WellMade.{AreSound, IsGoodLeaf, IsSound};

use std::alloc::{AllocError, Global};
use tetri_strl::{Expr, Leaf, copy_expr};

// No worth is above it.
const PEAK: u64 = 1_000_000_000_000;

/// What a node is worth for one slot, as a fraction: so much worth for so many node-slots. With no
/// node-slots it is nothing.
#[derive(Clone, Copy, Debug, PartialEq, Eq)]
pub struct Density {
    /// At most 10^17.
    pub worth: u64,
    pub node_slots: u64,
}

/// How the worths of a job are charged in a cycle.
#[derive(Clone, Copy, Debug, PartialEq, Eq)]
pub struct Charge {
    /// The slot of the cycle.
    pub now: u32,
    /// Each worth is multiplied by it first; at most 10^12.
    pub times: u64,
    /// What a node costs for each slot between the cycle and a start.
    pub density: Density,
}

// What the leaf's delay costs, below factors whose product is `by`.
fn cost(charge: Charge, by: u64, leaf: &Leaf) -> u128
    requires range { IsInRange charge }
    requires leaf { IsGoodLeaf leaf.now }
    ensures { result ≡ cost charge by leaf.now }
{
    let node_slots = u128::from(charge.density.node_slots) * u128::from(by);
    if node_slots == 0 {
        return 0;
    }
    let wait = leaf.start.saturating_sub(charge.now);
    let density = u128::from(charge.times) * u128::from(charge.density.worth);
    density * (u128::from(leaf.k) * u128::from(wait)) / node_slots
}

// What the leaf is worth with all its nodes once its delay is paid for.
fn charged_worth(charge: Charge, by: u64, leaf: &Leaf) -> u64
    requires range { IsInRange charge }
    requires leaf { IsGoodLeaf leaf.now }
    ensures { result ≡ charged_worth charge by leaf.now }
{
    let whole = charge.times.saturating_mul(leaf.v).min(PEAK);
    let left = u128::from(whole).saturating_sub(cost(charge, by, leaf)) as u64;
    if leaf.linear {
        let k = u64::from(leaf.k);
        left / k * k
    } else {
        left
    }
}

fn charged_leaf(charge: Charge, by: u64, leaf: &Leaf) -> Leaf
    requires range { IsInRange charge }
    requires leaf { IsGoodLeaf leaf.now }
    ensures { result ≡ charged_leaf charge by leaf.now }
{
    Leaf {
        num: leaf.num,
        set: leaf.set,
        k: leaf.k,
        start: leaf.start,
        dur: leaf.dur,
        v: charged_worth(charge, by, leaf),
        linear: leaf.linear,
    }
}

/// The product of factors, as far as a worth can reach.
pub(crate) fn factor(by: u64, next: u64) -> u64
    ensures { result ≡ factor by next }
{
    by.saturating_mul(next).min(PEAK)
}

// The same charge for leaves whose delay costs nothing.
fn free(charge: Charge) -> Charge
    ensures { result ≡ free charge }
{
    Charge {
        now: charge.now,
        times: charge.times,
        density: Density {
            worth: 0,
            node_slots: 0,
        },
    }
}

/// The expression with the worths of its leaves multiplied and lessened by what their delay costs,
/// below factors whose product is `by`. Below a barrier a delay costs nothing, so that the worth
/// which the barrier asks for can still be reached; a part whose factor is 0 stays as it is. Its
/// only error is want of memory.
#[cycle(charged_expr)]
pub fn charged_expr(alloc: Global, e: &Expr, charge: Charge, by: u64) -> Result<Expr, AllocError>
    requires sound { IsSound (tree e.now) }
    requires range { IsInRange charge }
    ensures { IfOk result (λ made. tree made ≡ charged charge by (tree e.now)) }
{
    match e {
        Expr::One(leaf) => Ok(Expr::One(charged_leaf(charge, by, leaf))),
        Expr::Max(parts) => Ok(Expr::Max(charged_parts(alloc, parts, charge, by)?)),
        Expr::Min(parts) => Ok(Expr::Min(charged_parts(alloc, parts, charge, by)?)),
        Expr::Sum(parts) => Ok(Expr::Sum(charged_parts(alloc, parts, charge, by)?)),
        Expr::Scale(part, next) => {
            if *next == 0 {
                return copy_expr(alloc, e);
            }
            let made = charged_expr(alloc, part, charge, factor(by, *next))?;
            Ok(Expr::Scale(Box::new(alloc, made)?, *next))
        }
        Expr::Barrier(part, least) => {
            let made = charged_expr(alloc, part, free(charge), by)?;
            let least = charge.times.saturating_mul(*least).min(PEAK);
            Ok(Expr::Barrier(Box::new(alloc, made)?, least))
        }
    }
}

#[cycle(charged_expr)]
fn charged_parts(
    alloc: Global,
    parts: &[Expr],
    charge: Charge,
    by: u64,
) -> Result<Vec<Expr>, AllocError>
    requires sound { AreSound (trees parts.now) }
    requires range { IsInRange charge }
    ensures { IfOk result (λ made. map tree made.items
        ≡ map (λ e. charged charge by (tree e)) parts.now) }
{
    let mut made = Vec::new(alloc);
    for part in parts {
        made.push(charged_expr(alloc, part, charge, by)?)?;
    }
    Ok(made)
}
