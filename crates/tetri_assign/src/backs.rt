// The slot from which each node may be used again, and what is taken in the order of the wants.
ghost use Rattle.std.specs.Prelude.{◌≡◌, ◌<◌, ◌≤◌, ◌++◌, ◌==◌, if◌then◌else◌, length, map, replicate, take, All, IfOk, OnOk};
ghost use Rattle.std.specs.List.{filter};
ghost use Rattle.std.specs.List.Sorted.{IsNonDecreasingBy};
ghost use Rattle.tetri_assign.specs.steps.Taking.{IsMark, back_at, backs, held_by, hold, may_use, ready, taken_from};
ghost use Rattle.tetri_space.specs.Partitions.{ArePartitionsOf, partitions, parts_of};
ghost use Rattle.tetri_space.specs.Sound.{IsSound};
ghost use Rattle.tetri_space.specs.Space.{space};

use crate::held::Held;
use crate::wants::Want;
use std::alloc::{AllocError, Global};
use tetri_space::{Instance, Partitions};

// The place in a partition before which no node may be used in the slot.
#[derive(Clone, Copy)]
pub struct Mark {
    pub slot: u32,
    pub place: usize,
}

// Nodes that may be used, and how many nodes were looked at to find them.
#[derive(Drop)]
struct Found {
    nodes: Vec<u32>,
    seen: usize,
}

// The slot from which the node may be used.
fn back_at(inst: &Instance, node: usize) -> u32
    requires sound { IsSound (space inst.now) }
    requires there { node < (space inst.now).nodes }
    ensures { result ≡ back_at (space inst.entry.now) node }
{
    if inst.drained[node] {
        u32::MAX
    } else {
        inst.busy_until[node]
    }
}

// The same by node.
fn backs(alloc: Global, inst: &Instance) -> Result<Vec<u32>, AllocError>
    requires { IsSound (space inst.now) }
    ensures { IfOk result (λ v. v.items ≡ backs (space inst.entry.now)) }
{
    let mut slots = Vec::new(alloc);
    for node in 0..inst.nodes as usize {
        slots.push(back_at(inst, node))?;
    }
    Ok(slots)
}

// The first of these nodes that may be used in the slot, and how many of all were looked at.
fn ready(
    alloc: Global,
    back: &[u32],
    slot: u32,
    many: u32,
    nodes: &[u32],
) -> Result<Found, AllocError>
    requires { All (λ n. n < length back.now) nodes.now }
    ensures nodes { IfOk result (λ r. r.nodes.items ≡ ready back.now slot many nodes.now) }
    ensures within { IfOk result (λ r. r.seen ≤ length nodes.now) }
    ensures seen { IfOk result (λ r. filter (may_use back.now slot) (take r.seen nodes.now) ≡ r.nodes.items) }
{
    let mut first = Vec::new(alloc);
    let mut left = many;
    let mut seen = 0;
    while seen < nodes.len() && left > 0 {
        let node = nodes[seen];
        if back[node as usize] <= slot {
            first.push(node)?;
            left -= 1;
        }
        seen += 1;
    }
    Ok(Found { nodes: first, seen })
}

// These nodes may be used again from the slot on.
fn hold(back: &mut Vec<u32>, slot: u32, nodes: &[u32])
    requires { All (λ n. n < length back.old.items) nodes.now }
    ensures { back.new.items ≡ hold back.old.items slot nodes.now }
{
    for node in nodes {
        back[*node as usize] = slot;
    }
}

// The leaf of the want got these nodes.
fn add_held(held: &mut Vec<Held>, want: &Want, nodes: &[u32]) -> Result<(), AllocError>
    ensures { OnOk result (held.new.items ≡ held.old.items ++ map (held_by want.now) nodes.now) }
{
    for node in nodes {
        held.push(Held {
            job: want.job,
            leaf: want.leaf,
            node: *node,
        })?;
    }
    Ok(())
}

// Where to look for nodes of the partition in the slot.
fn place_in(mark: &Mark, slot: u32) -> usize
    ensures { result ≡ (if mark.now.slot == slot then mark.now.place else 0) }
{
    if mark.slot == slot { mark.place } else { 0 }
}

// What one want takes of its partition.
fn take_part(
    alloc: Global,
    part: &[u32],
    want: &Want,
    back: &mut Vec<u32>,
    mark: &mut Mark,
    held: &mut Vec<Held>,
) -> Result<(), AllocError>
    requires there { All (λ n. n < length back.old.items) part.now }
    requires mark { IsMark back.old.items part.now mark.old }
    requires some_slots { want.now.start < want.now.end }
    ensures held { OnOk result (held.new.items
        ≡ held.old.items ++ map (held_by want.now) (ready back.old.items want.now.start want.now.nodes part.now)) }
    ensures back { OnOk result (back.new.items
        ≡ hold back.old.items want.now.end (ready back.old.items want.now.start want.now.nodes part.now)) }
    ensures mark { OnOk result (IsMark back.new.items part.now mark.new) }
    ensures slot { OnOk result (mark.new.slot ≡ want.now.start) }
{
    let from = place_in(mark, want.start);
    let found = ready(alloc, back, want.start, want.nodes, &part[from..])?;
    hold(back, want.end, &found.nodes);
    add_held(held, want, &found.nodes)?;
    *mark = Mark {
        slot: want.start,
        place: from + found.seen,
    };
    Ok(())
}

// No node was looked at.
fn no_marks(alloc: Global, count: usize) -> Result<Vec<Mark>, AllocError>
    ensures { IfOk result (λ v. v.items ≡ replicate count (record { slot = 0; place = 0 })) }
{
    vec![in alloc; Mark { slot: 0, place: 0 }; count]
}

// What the wants take, one after the other. In each slot a partition is looked at once.
pub fn take_nodes(
    alloc: Global,
    inst: &Instance,
    parts: &Partitions,
    wants: &[Want],
) -> Result<Vec<Held>, AllocError>
    requires sound { IsSound (space inst.now) }
    requires partitions { ArePartitionsOf (space inst.now) (parts_of parts.now) }
    requires there { All (λ w. w.part < length (parts_of parts.now).groups) wants.now }
    requires some_slots { All (λ w. w.start < w.end) wants.now }
    requires in_turn { IsNonDecreasingBy (λ w. w.start) wants.now }
    ensures { IfOk result (λ v. v.items
        ≡ taken_from (partitions (space inst.entry.now)) (backs (space inst.entry.now)) wants.now) }
{
    let mut back = backs(alloc, inst)?;
    let mut marks = no_marks(alloc, parts.count() as usize)?;
    let mut held = Vec::new(alloc);
    for want in wants {
        let part = parts.nodes_of(want.part).as_slice();
        let mut mark = marks[want.part as usize];
        take_part(alloc, part, want, &mut back, &mut mark, &mut held)?;
        marks[want.part as usize] = mark;
    }
    Ok(held)
}
