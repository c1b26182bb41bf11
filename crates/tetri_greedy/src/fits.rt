// The fit of an expression.
ghost use Rattle.std.specs.Prelude.{◌≡◌, ◌<◌, ◌∷◌, [], ℕ, List, IfOk, OnOk, true, false, length, slice_index_or, take};
ghost use Rattle.std.specs.List.Sorted.{IsStrictlyIncreasing};
ghost use Rattle.tetri_advice.specs.Fit.{Placement, all_fit, best_fit, enough, fit_beside, fit_worth, fits, is_available, is_held, is_live, lowest};
ghost use Rattle.tetri_greedy.specs.Fitted.{grown, with_fit};
ghost use Rattle.tetri_space.specs.Slots.{is_marked};
ghost use Rattle.tetri_space.specs.Free.{is_free_throughout};
ghost use Rattle.tetri_space.specs.Sound.{HasKnownSet, IsSound};
ghost use Rattle.tetri_space.specs.Space.{set_of, space};
ghost use Rattle.tetri_strl.specs.Aligned.{EachLeaf, EachLeafOf};
ghost use Rattle.tetri_strl.specs.Tree.{one, tree, trees};
ghost use Rattle.tetri_strl.specs.WellMade as made;

use crate::fitted::Placements;
use crate::held::HeldSlots;
use std::alloc::{AllocError, Global};
use tetri_space::{Instance, free_throughout};
use tetri_strl::{Expr, Leaf, NodeList};

// Whether the leaf starts in the window.
fn is_live(inst: &Instance, leaf: &Leaf) -> bool
    requires { IsSound (space inst.now) }
    ensures { result ≡ is_live (space inst.entry.now) leaf.now }
{
    inst.now <= leaf.start && leaf.start < inst.now + inst.window
}

// Whether so many nodes are enough for the leaf.
fn is_enough(leaf: &Leaf, count: usize) -> bool
    ensures { result ≡ enough leaf.now count }
{
    if leaf.linear {
        1 <= count
    } else {
        count == leaf.k as usize
    }
}

// How many nodes the leaf needs to get any.
fn least_nodes(leaf: &Leaf) -> u32
    ensures { (n : ℕ) → n < result → enough leaf.now n ≡ false }
{
    if leaf.linear { 1 } else { leaf.k }
}

// Whether the node is free in every slot of the leaf.
fn is_free(inst: &Instance, leaf: &Leaf, node: u32) -> bool
    requires sound { IsSound (space inst.now) }
    requires good { made.IsGoodLeaf leaf.now }
    ensures { result ≡ is_free_throughout (space inst.entry.now) leaf.now node }
{
    free_throughout(inst, leaf, node)
}

fn is_taken(taken: &[bool], node: u32) -> bool
    ensures { result ≡ slice_index_or taken.now node false }
{
    taken.get(node as usize).copied().unwrap_or(false)
}

// Whether the node is free, and neither held nor taken, in every slot of the live leaf. Closures, whose look-up
// costs most, come last.
fn is_open(inst: &Instance, held: &HeldSlots, taken: &[bool], leaf: &Leaf, node: u32) -> bool
    requires sound { IsSound (space inst.now) }
    requires good { made.IsGoodLeaf leaf.now }
    requires live { is_live (space inst.now) leaf.now ≡ true }
    requires as_many { length held.now ≡ (space inst.now).nodes }
    requires there { node < (space inst.now).nodes }
    ensures { (own : List Placement) → slice_index_or taken.now node false ≡ is_held own leaf.now node
        → result ≡ is_available (space inst.entry.now)
        (is_marked held.now (space inst.entry.now).now) own leaf.now node }
{
    !held.holds(inst.now, leaf, node) && !is_taken(taken, node) && is_free(inst, leaf, node)
}

// The lowest nodes of the leaf's set that are open to the live leaf, at most `k`.
fn lowest(
    alloc: Global,
    inst: &Instance,
    held: &HeldSlots,
    own: &Placements,
    leaf: &Leaf,
    set: &[u32],
) -> Result<NodeList, AllocError>
    requires sound { IsSound (space inst.now) }
    requires good { made.IsGoodLeaf leaf.now }
    requires known { HasKnownSet (space inst.now) leaf.now }
    requires live { is_live (space inst.now) leaf.now ≡ true }
    requires as_many { length held.now ≡ (space inst.now).nodes }
    requires set { set.now ≡ set_of (space inst.now) leaf.now }
    ensures { IfOk result (λ nodes. nodes
        ≡ lowest (space inst.entry.now) (is_marked held.now (space inst.entry.now).now) own.now.placements leaf.now) }
{
    let taken = own.taken(alloc, leaf)?;
    let mut nodes = NodeList::new(alloc);
    let mut left = leaf.k;
    for node in set {
        if left == 0 {
            return Ok(nodes);
        }
        if is_open(inst, held, &taken, leaf, *node) {
            nodes.push(*node)?;
            left -= 1;
        }
    }
    Ok(nodes)
}

fn fit_leaf(
    alloc: Global,
    inst: &Instance,
    held: &HeldSlots,
    leaf: &Leaf,
    own: &mut Placements,
) -> Result<(), AllocError>
    requires sound { IsSound (space inst.now) }
    requires good { made.IsGoodLeaf leaf.now }
    requires known { HasKnownSet (space inst.now) leaf.now }
    requires as_many { length held.now ≡ (space inst.now).nodes }
    ensures { OnOk result (own.new ≡ with_fit (space inst.entry.now) held.now own.old (one leaf.now)) }
{
    if !is_live(inst, leaf) {
        return Ok(());
    }
    let set = inst.sets.nodes_of(leaf.set).as_slice();
    if !held.may_have(inst.now, leaf, least_nodes(leaf)) {
        return Ok(());
    }
    let nodes = lowest(alloc, inst, held, own, leaf, set)?;
    if is_enough(leaf, nodes.as_slice().len()) {
        own.push(*leaf, nodes)?;
    }
    Ok(())
}

/// Puts the fit of the expression behind the job's own placements: each leaf gets the lowest nodes of
/// its set that are free, and not held, in all its slots. A leaf for which some slot has too few nodes
/// is passed over without a look at them. Of the parts of a `max` the first that is
/// worth most gets its fit, a `min` gets nothing where one of its parts is worth nothing, and a
/// barrier nothing below its worth. `held` has one entry per node of the instance. Its only error is
/// want of memory.
#[cycle(fit)]
pub fn fit(
    alloc: Global,
    inst: &Instance,
    held: &HeldSlots,
    e: &Expr,
    own: &mut Placements,
) -> Result<(), AllocError>
    requires sound { IsSound (space inst.now) }
    requires good { made.IsSound (tree e.now) }
    requires known { EachLeaf (HasKnownSet (space inst.now)) (tree e.now) }
    requires as_many { length held.now ≡ (space inst.now).nodes }
    ensures { OnOk result (own.new ≡ with_fit (space inst.entry.now) held.now own.old (tree e.now)) }
{
    match e {
        Expr::One(leaf) => fit_leaf(alloc, inst, held, leaf, own),
        Expr::Max(parts) => fit_best(alloc, inst, held, parts, own),
        Expr::Min(parts) => {
            let before = own.len();
            if !fit_all(alloc, inst, held, parts, own)? {
                own.truncate(before);
            }
            Ok(())
        }
        Expr::Sum(parts) => {
            for part in parts {
                fit(alloc, inst, held, part, own)?;
            }
            Ok(())
        }
        Expr::Scale(part, _) => fit(alloc, inst, held, part, own),
        Expr::Barrier(part, least) => {
            let before = own.len();
            if fit_and_weigh(alloc, inst, held, part, own)? < *least {
                own.truncate(before);
            }
            Ok(())
        }
    }
}

// Puts the fit of the expression behind the job's own placements, and gives what it is worth.
#[cycle(fit)]
fn fit_and_weigh(
    alloc: Global,
    inst: &Instance,
    held: &HeldSlots,
    e: &Expr,
    own: &mut Placements,
) -> Result<u64, AllocError>
    requires sound { IsSound (space inst.now) }
    requires good { made.IsSound (tree e.now) }
    requires known { EachLeaf (HasKnownSet (space inst.now)) (tree e.now) }
    requires as_many { length held.now ≡ (space inst.now).nodes }
    ensures fit { OnOk result (own.new ≡ with_fit (space inst.entry.now) held.now own.old (tree e.now)) }
    ensures worth { IfOk result (λ worth. worth ≡ fit_worth own.old.job (tree e.now)
        (fit_beside (space inst.entry.now) own.old.job (is_marked held.now (space inst.entry.now).now) own.old.placements (tree e.now))) }
{
    let before = own.len();
    fit(alloc, inst, held, e, own)?;
    Ok(own.worth_from(before, e))
}

// The first fit of a part that is worth most.
#[cycle(fit)]
fn fit_best(
    alloc: Global,
    inst: &Instance,
    held: &HeldSlots,
    parts: &[Expr],
    own: &mut Placements,
) -> Result<(), AllocError>
    requires sound { IsSound (space inst.now) }
    requires good { made.AreSound (trees parts.now) }
    requires known { EachLeafOf (HasKnownSet (space inst.now)) (trees parts.now) }
    requires as_many { length held.now ≡ (space inst.now).nodes }
    ensures { OnOk result (own.new ≡ grown own.old
        (best_fit (space inst.entry.now) own.old.job (is_marked held.now (space inst.entry.now).now) own.old.placements
        (trees parts.now) (0, [])).1) }
{
    let before = own.len();
    let mut best = Placements::new(alloc, own.job());
    let mut most = 0;
    for part in parts {
        let worth = fit_and_weigh(alloc, inst, held, part, own)?;
        if worth > most {
            most = worth;
            best = own.split_off(before)?;
        } else {
            own.truncate(before);
        }
    }
    own.append(best)
}

// The fits of the parts in order, as long as each is worth something, and whether all are.
#[cycle(fit)]
fn fit_all(
    alloc: Global,
    inst: &Instance,
    held: &HeldSlots,
    parts: &[Expr],
    own: &mut Placements,
) -> Result<bool, AllocError>
    requires sound { IsSound (space inst.now) }
    requires good { made.AreSound (trees parts.now) }
    requires known { EachLeafOf (HasKnownSet (space inst.now)) (trees parts.now) }
    requires as_many { length held.now ≡ (space inst.now).nodes }
    ensures all { IfOk result (λ all. all
        ≡ all_fit (space inst.entry.now) own.old.job (is_marked held.now (space inst.entry.now).now) own.old.placements (trees parts.now)) }
    ensures fits { IfOk result (λ all. all ≡ true → own.new ≡ grown own.old
        (fits (space inst.entry.now) own.old.job (is_marked held.now (space inst.entry.now).now) own.old.placements (trees parts.now))) }
    ensures job { OnOk result (own.new.job ≡ own.old.job) }
    ensures front { OnOk result (take (length own.old.placements) own.new.placements ≡ own.old.placements) }
{
    for part in parts {
        if fit_and_weigh(alloc, inst, held, part, own)? == 0 {
            return Ok(false);
        }
    }
    Ok(true)
}
