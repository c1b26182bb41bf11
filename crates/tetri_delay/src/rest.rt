// What is left to plan beside grants that are held.
ghost use Rattle.std.specs.Prelude.{IfOk, IfSome, OnOk};
ghost use Rattle.tetri_space.specs.Closed.{AreSoundClosures, IsSoundClosure};
ghost use Rattle.tetri_space.specs.Lawful.{IsLawful};
ghost use Rattle.tetri_space.specs.Sound.{IsSound};
ghost use Rattle.tetri_space.specs.Space.{space};
ghost use Rattle.tetri_space.specs.Trimmed.{IsThriftyForAll};

use std::alloc::{AllocError, Global};
use std::rc::Rc;
use tetri_space::{Closure, Closures, Instance, lawful, leaf_of, order_grants, slots_of, trim_all};
use tetri_strl::{Allotment, Grant, Leaf, copy_grant};

// So many closures an instance may have.
const MOST_CLOSURES: usize = 4096;

// The last slot in which an instance may close a node.
const LAST_SLOT: u32 = 30_000;

// The closure of a node for the slots of a leaf, where an instance of so many nodes may have it.
fn closure_of(nodes: u32, leaf: &Leaf, node: u32) -> Option<Closure>
    ensures { IfSome result (IsSoundClosure nodes) }
{
    let to = leaf.start.saturating_add(leaf.dur).saturating_sub(1);
    if node < nodes && leaf.start <= to && to <= LAST_SLOT {
        Some(Closure {
            node,
            from: leaf.start,
            to,
        })
    } else {
        None
    }
}

// Adds closures of the grant's nodes in the slots of its leaf, as far as an instance may have them.
fn close_nodes(
    inst: &Instance,
    grant: &Grant,
    leaf: &Leaf,
    closures: &mut Vec<Closure>,
) -> Result<(), AllocError>
    requires { AreSoundClosures inst.now.nodes closures.old.items }
    ensures { OnOk result (AreSoundClosures inst.entry.now.nodes closures.new.items) }
{
    for node in grant.nodes.as_slice() {
        if closures.len() < MOST_CLOSURES {
            if let Some(closure) = closure_of(inst.nodes, leaf, *node) {
                closures.push(closure)?;
            }
        }
    }
    Ok(())
}

// The closures of an instance, and those of the nodes of these grants in the slots of their leaves.
fn closures_with(alloc: Global, inst: &Instance, held: &[Grant]) -> Result<Closures, AllocError>
    requires { IsSound (space inst.now) }
    ensures { IfOk result (AreSoundClosures inst.entry.now.nodes) }
{
    let mut closures = Vec::from_slice(alloc, inst.closures.as_slice())?;
    for grant in held {
        if let Some(leaf) = leaf_of(inst, grant.job, grant.leaf) {
            close_nodes(inst, grant, &leaf, &mut closures)?;
        }
    }
    Closures::of(alloc, closures)
}

/// Closes the nodes of these grants in the slots of their leaves, as far as an instance may have
/// closures. Its only error is want of memory.
pub(crate) fn closed(alloc: Global, inst: Instance, held: &[Grant]) -> Result<Instance, AllocError>
    requires { IsSound (space inst) }
    ensures { IfOk result (λ i. IsSound (space i)) }
{
    let closures = closures_with(alloc, &inst, held)?;
    Ok(Instance {
        now: inst.now,
        window: inst.window,
        nodes: inst.nodes,
        sets: inst.sets,
        busy_until: inst.busy_until,
        drained: inst.drained,
        closures: Rc::new(alloc, closures)?,
        jobs: inst.jobs,
    })
}

/// By job, whether it has one of these grants. Its only error is want of memory.
pub(crate) fn holders(alloc: Global, held: &[Grant]) -> Result<Vec<bool>, AllocError> {
    let mut has = Vec::new(alloc);
    for grant in held {
        let place = grant.job as usize;
        if has.len() <= place {
            has.resize(place + 1, false)?;
        }
        has[place] = true;
    }
    Ok(has)
}

// Whether a job is one of these.
fn is_holder(has: &[bool], job: u32) -> bool {
    match has.get(job as usize) {
        Some(is_held) => *is_held,
        None => false,
    }
}

// The allotment where it is lawful, and else no grant.
fn lawful_or_none(alloc: Global, inst: &Instance, a: Allotment) -> Allotment
    requires { IsSound (space inst.now) }
    ensures { IsLawful (space inst.entry.now) result }
{
    match lawful(inst, &a) {
        Ok(()) => a,
        Err(_) => Allotment::new(alloc),
    }
}

/// Of an allotment, the grants to jobs that are none of these, where they are lawful in an instance
/// and earn something there. Its only error is want of memory.
pub(crate) fn others(
    alloc: Global,
    inst: &Instance,
    a: &Allotment,
    has: &[bool],
) -> Result<Allotment, AllocError>
    requires { IsSound (space inst.now) }
    ensures lawful { IfOk result (IsLawful (space inst.entry.now)) }
    ensures thrifty { IfOk result (IsThriftyForAll (space inst.entry.now)) }
{
    let mut kept = Allotment::new(alloc);
    for grant in a.as_slice() {
        if !is_holder(has, grant.job) {
            kept.push(copy_grant(alloc, grant)?)?;
        }
    }
    let lawful = lawful_or_none(alloc, inst, kept);
    let trimmed = trim_all(alloc, inst, &lawful)?;
    Ok(trimmed)
}

// The slots of the window that the grant's leaf uses, none where it is unknown.
fn slots_in(inst: &Instance, grant: &Grant) -> u64
    requires { IsSound (space inst.now) }
{
    match leaf_of(inst, grant.job, grant.leaf) {
        Some(leaf) => {
            let is_live = inst.now <= leaf.start && leaf.start < inst.now + inst.window;
            if is_live && leaf.dur <= 10_000 {
                slots_of(inst.now, &leaf)
            } else {
                0
            }
        }
        None => 0,
    }
}

// Whether each of the nodes has none of these slots, where each node has a mask of slots.
fn are_clear(masks: &[u64], slots: u64, nodes: &[u32]) -> bool {
    for node in nodes {
        match masks.get(*node as usize) {
            Some(mask) => {
                if *mask & slots != 0 {
                    return false;
                }
            }
            None => return false,
        }
    }
    true
}

// Gives the nodes away in these slots.
fn give(masks: &mut [u64], slots: u64, nodes: &[u32]) {
    for node in nodes {
        let place = *node as usize;
        if place < masks.len() {
            masks[place] |= slots;
        }
    }
}

/// The held grants, and those of the others that use none of their nodes in the same slot, by job
/// and leaf. Its only error is want of memory.
pub(crate) fn beside(
    alloc: Global,
    inst: &Instance,
    held: &[Grant],
    others: &[Grant],
) -> Result<Allotment, AllocError>
    requires { IsSound (space inst.now) }
{
    let mut masks = vec![in alloc; 0u64; inst.nodes as usize]?;
    let mut all = Allotment::new(alloc);
    for grant in held {
        give(&mut masks, slots_in(inst, grant), grant.nodes.as_slice());
        all.push(copy_grant(alloc, grant)?)?;
    }
    for grant in others {
        if are_clear(&masks, slots_in(inst, grant), grant.nodes.as_slice()) {
            all.push(copy_grant(alloc, grant)?)?;
        }
    }
    order_grants(all)
}
