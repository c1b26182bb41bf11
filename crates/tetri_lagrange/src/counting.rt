// From counts to nodes, as a point of the program gets its nodes: by start, job, leaf and
// partition, each the lowest-numbered that are free.
use crate::lists::between;
use crate::market::Market;
use crate::plans::Plan;
use std::alloc::{AllocError, Global};
use tetri_space::{Instance, Partitions};
use tetri_strl::{Allotment, Grant, NodeList};

// Nodes of a partition that a leaf of a job wants, in the order of their turns.
#[derive(Clone, Copy, Debug, PartialEq, Eq, PartialOrd, Ord)]
struct Want {
    start: u32,
    job: u32,
    leaf: u32,
    part: u32,
    nodes: u64,
    end: u32,
}

// A node that a leaf of a job got.
#[derive(Clone, Copy, Debug, PartialEq, Eq, PartialOrd, Ord)]
struct Held {
    job: u32,
    leaf: u32,
    node: u32,
}

// The place in a partition before which no node may be used in the slot.
#[derive(Clone, Copy, Debug)]
struct Mark {
    slot: u32,
    place: usize,
}

// What a job of the plan wants.
fn add_wants(
    market: &Market,
    plan: &Plan,
    place: usize,
    wants: &mut Vec<Want>,
) -> Result<(), AllocError> {
    let Some(job) = market.jobs.get(place) else {
        return Ok(());
    };
    for used in plan.uses_of(place) {
        let span = market.span(used.span);
        wants.push(Want {
            start: span.start,
            job: job.job,
            leaf: market.node(used.node).leaf,
            part: u32::try_from(used.part).unwrap_or(u32::MAX),
            nodes: used.nodes,
            end: span.ends,
        })?;
    }
    Ok(())
}

// By node, the slot from which it may be used.
fn backs(alloc: Global, inst: &Instance) -> Result<Vec<u32>, AllocError> {
    let mut back = Vec::with_capacity(alloc, inst.busy_until.len())?;
    for (node, slot) in inst.busy_until.iter().enumerate() {
        let drained = match inst.drained.get(node) {
            Some(drained) => *drained,
            None => true,
        };
        back.push(if drained { u32::MAX } else { *slot })?;
    }
    Ok(back)
}

// Whether the node may be used from the slot on; if so it is held until the end.
fn hold(back: &mut Vec<u32>, node: u32, slot: u32, end: u32) -> bool {
    let place = node as usize;
    if place < back.len() && back[place] <= slot {
        back[place] = end;
        return true;
    }
    false
}

// What a want takes of the nodes of its partition from a place on; answers how many it looked at.
fn take_nodes(
    nodes: &[u32],
    from: usize,
    want: &Want,
    back: &mut Vec<u32>,
    held: &mut Vec<Held>,
) -> Result<usize, AllocError> {
    let mut left = want.nodes;
    let mut seen = from;
    for node in between(nodes, from, nodes.len()) {
        if left == 0 {
            break;
        }
        seen = seen.saturating_add(1);
        if hold(back, *node, want.start, want.end) {
            left = left.saturating_sub(1);
            held.push(Held {
                job: want.job,
                leaf: want.leaf,
                node: *node,
            })?;
        }
    }
    Ok(seen)
}

// What the wants take, one after the other. In each slot a partition is looked at once.
fn take_all(
    alloc: Global,
    inst: &Instance,
    parts: &Partitions,
    wants: &[Want],
) -> Result<Vec<Held>, AllocError> {
    let mut back = backs(alloc, inst)?;
    let mut marks = vec![in alloc; Mark { slot: 0, place: 0 }; parts.count() as usize]?;
    let mut held = Vec::new(alloc);
    for want in wants {
        if want.part < parts.count() {
            let nodes = parts.nodes_of(want.part).as_slice();
            let place = want.part as usize;
            let from = match marks.get(place) {
                Some(mark) => if mark.slot == want.start {
                    mark.place
                } else {
                    0
                },
                None => 0,
            };
            let seen = take_nodes(nodes, from, want, &mut back, &mut held)?;
            if place < marks.len() {
                marks[place] = Mark {
                    slot: want.start,
                    place: seen,
                };
            }
        }
    }
    Ok(held)
}

// Whether a node of another leaf follows, or none.
fn is_last(held: &[Held], place: usize) -> bool {
    match (held.get(place), held.get(place.saturating_add(1))) {
        (Some(here), Some(next)) => here.job != next.job || here.leaf != next.leaf,
        _ => true,
    }
}

// One grant for each leaf in a row.
fn gather(alloc: Global, held: &[Held]) -> Result<Allotment, AllocError> {
    let mut grants = Allotment::new(alloc);
    let mut nodes = NodeList::new(alloc);
    for (place, here) in held.iter().enumerate() {
        nodes.push(here.node)?;
        if is_last(held, place) {
            let full = std::mem::replace(&mut nodes, NodeList::new(alloc));
            grants.push(Grant {
                job: here.job,
                leaf: here.leaf,
                nodes: full,
            })?;
        }
    }
    Ok(grants)
}

/// The allotment of a plan's counts: grants ascending by job and leaf, nodes ascending.
pub fn allot(
    alloc: Global,
    inst: &Instance,
    parts: &Partitions,
    market: &Market,
    plan: &Plan,
) -> Result<Allotment, AllocError> {
    let mut wants = Vec::new(alloc);
    for place in 0..market.jobs.len() {
        add_wants(market, plan, place, &mut wants)?;
    }
    wants.sort_unstable();
    let mut held = take_all(alloc, inst, parts, &wants)?;
    held.sort_unstable();
    gather(alloc, &held)
}
