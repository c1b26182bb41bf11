// The spans of leaves, and what is free for them.
ghost use Rattle.std.specs.Prelude.{◌<◌, length};
ghost use Rattle.tetri_space.specs.Partitions.{ArePartitionsOf, parts_of};
ghost use Rattle.tetri_space.specs.Sound.{IsSound};
ghost use Rattle.tetri_space.specs.Space.{space};

use crate::lists::at;
use crate::market::{Node, Span};
use crate::places::Place;
use std::alloc::{AllocError, Global};
use tetri_space::{Instance, Partitions, available};
use tetri_strl::Leaf;

/// A leaf that waits for its span.
#[derive(Clone, Copy, Debug)]
pub struct Wait {
    /// What it asks for.
    pub leaf: Leaf,
    /// The place of its node.
    pub node: usize,
}

/// The spans and their places.
#[derive(Drop)]
pub struct Spans {
    /// The spans, by set, start and duration.
    pub spans: Vec<Span>,
    /// The places of each.
    pub places: Vec<Place>,
    /// How many pairs of a leaf and a place of its span there are.
    pub pairs: u64,
}

/// How many nodes are free, by partition and slot of the window.
pub fn free_nodes(
    alloc: Global,
    inst: &Instance,
    parts: &Partitions,
) -> Result<Vec<u64>, AllocError>
    requires sound { IsSound (space inst.now) }
    requires partitions { ArePartitionsOf (space inst.now) (parts_of parts.now) }
{
    let mut free = Vec::new(alloc);
    for part in 0..parts.count() {
        for place in 0..inst.window {
            free.push(u64::from(available(inst, parts, part, inst.now + place)))?;
        }
    }
    Ok(free)
}

// Whether the nodes of a partition are all in a set.
fn is_inside(inst: &Instance, parts: &Partitions, part: u32, set: u32) -> bool
    requires there { part < length (parts_of parts.now).groups }
{
    let Some(node) = parts.nodes_of(part).as_slice().first() else {
        return false;
    };
    set < inst.sets.len() && inst.sets.holds(set, *node)
}

// The partitions in a set, ascending.
fn parts_inside(
    alloc: Global,
    inst: &Instance,
    parts: &Partitions,
    set: u32,
) -> Result<Vec<u32>, AllocError> {
    let mut inside = Vec::new(alloc);
    for part in 0..parts.count() {
        if is_inside(inst, parts, part, set) {
            inside.push(part)?;
        }
    }
    Ok(inside)
}

// Whether a partition is closed in one of the leaf's slots.
fn is_closed(inst: &Instance, parts: &Partitions, part: u32, leaf: &Leaf) -> bool
    requires sound { IsSound (space inst.now) }
    requires partitions { ArePartitionsOf (space inst.now) (parts_of parts.now) }
{
    part >= parts.count() || leaf.start < inst.now || parts.closed_within(inst, part, leaf)
}

// Adds the places of a leaf's span.
fn add_places(
    inst: &Instance,
    parts: &Partitions,
    inside: &[u32],
    free: &[u64],
    leaf: &Leaf,
    places: &mut Vec<Place>,
) -> Result<(), AllocError>
    requires sound { IsSound (space inst.now) }
    requires partitions { ArePartitionsOf (space inst.now) (parts_of parts.now) }
{
    let window = inst.window as usize;
    let from = leaf.start.saturating_sub(inst.now) as usize;
    for part in inside {
        let place = (*part as usize).saturating_mul(window).saturating_add(from);
        let capacity = at(free, place);
        if capacity > 0 && !is_closed(inst, parts, *part, leaf) {
            places.push(Place {
                cost: 0,
                part: *part as usize,
                capacity,
            })?;
        }
    }
    Ok(())
}

// The span of a leaf whose places stand between these.
fn span_of(inst: &Instance, leaf: &Leaf, first: usize, end: usize) -> Span {
    let from = leaf.start.saturating_sub(inst.now);
    Span {
        from: from.min(inst.window) as usize,
        to: from.saturating_add(leaf.dur).min(inst.window) as usize,
        first,
        end,
        start: leaf.start,
        ends: leaf.start.saturating_add(leaf.dur),
    }
}

// Whether two leaves share a span.
fn is_like(leaf: &Leaf, other: &Leaf) -> bool {
    leaf.set == other.set && leaf.start == other.start && leaf.dur == other.dur
}

// The node's leaf has the last span.
fn settle(nodes: &mut Vec<Node>, place: usize, spans: &mut Spans) {
    let last = spans.spans.len().saturating_sub(1);
    if let Some(span) = spans.spans.last() {
        let pairs = span.end.saturating_sub(span.first);
        spans.pairs = spans.pairs.saturating_add(pairs as u64);
    }
    if place < nodes.len() {
        let node = &mut nodes[place];
        node.span = last;
    }
}

/// Gives each waiting leaf its span.
pub fn make_spans(
    alloc: Global,
    inst: &Instance,
    parts: &Partitions,
    free: &[u64],
    waits: &mut Vec<Wait>,
    nodes: &mut Vec<Node>,
) -> Result<Spans, AllocError>
    requires sound { IsSound (space inst.now) }
    requires partitions { ArePartitionsOf (space inst.now) (parts_of parts.now) }
{
    let mut made = Spans {
        spans: Vec::new(alloc),
        places: Vec::new(alloc),
        pairs: 0,
    };
    waits.sort_unstable_by_key(|wait| (wait.leaf.set, wait.leaf.start, wait.leaf.dur));
    let mut inside: Vec<u32> = Vec::new(alloc);
    let mut last: Option<Leaf> = None;
    for wait in waits.as_slice() {
        let leaf = wait.leaf;
        let (same_set, same) = match last {
            Some(other) => (other.set == leaf.set, is_like(&other, &leaf)),
            None => (false, false),
        };
        if !same_set {
            inside = parts_inside(alloc, inst, parts, leaf.set)?;
        }
        if !same {
            let first = made.places.len();
            add_places(inst, parts, &inside, free, &leaf, &mut made.places)?;
            let end = made.places.len();
            made.spans.push(span_of(inst, &leaf, first, end))?;
        }
        settle(nodes, wait.node, &mut made);
        last = Some(leaf);
    }
    Ok(made)
}
