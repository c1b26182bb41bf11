// Laying an instance out flat.
ghost use Rattle.tetri_space.specs.Partitions.{ArePartitionsOf, parts_of};
ghost use Rattle.tetri_space.specs.Sound.{IsSound};
ghost use Rattle.tetri_space.specs.Space.{space};

use crate::market::{Job, Kind, Market, Node};
use crate::spans::{Wait, free_nodes, make_spans};
use std::alloc::{AllocError, Global};
use tetri_space::{Instance, Offer, Partitions};
use tetri_strl::{Expr, Leaf};

// What is laid out so far.
#[derive(Drop)]
struct Layout {
    nodes: Vec<Node>,
    waits: Vec<Wait>,
    size: u64,
}

// The greatest worths of parts, joined in each way.
#[derive(Clone, Copy, Debug)]
struct Tops {
    greatest: u64,
    least: u64,
    sum: u64,
}

// What a node is a part of, and how many times its worth counts.
#[derive(Clone, Copy, Debug)]
struct Seat {
    under: Kind,
    parent: usize,
    times: u64,
}

impl Layout {
    // Adds a node that joins parts, and answers the seat of its parts.
    fn join(&mut self, seat: Seat, kind: Kind, worth: u64) -> Result<Seat, AllocError> {
        let parent = self.nodes.len();
        self.nodes.push(Node {
            kind,
            under: seat.under,
            parent: seat.parent,
            leaf: 0,
            span: 0,
            count: 1,
            linear: false,
            worth,
        })?;
        Ok(Seat {
            under: kind,
            parent,
            times: seat.times,
        })
    }

    // Adds a leaf.
    fn leaf(&mut self, seat: Seat, leaf: &Leaf) -> Result<(), AllocError> {
        let node = self.nodes.len();
        self.waits.push(Wait { leaf: *leaf, node })?;
        let slots = u64::from(leaf.k).saturating_mul(u64::from(leaf.dur));
        self.size = self.size.min(slots);
        self.nodes.push(Node {
            kind: Kind::Leaf,
            under: seat.under,
            parent: seat.parent,
            leaf: leaf.num,
            span: 0,
            count: u64::from(leaf.k),
            linear: leaf.linear,
            worth: seat.times.saturating_mul(leaf.v),
        })?;
        Ok(())
    }

    // No part of the barrier can reach it.
    fn shut(&mut self, place: usize) {
        if place < self.nodes.len() {
            let node = &mut self.nodes[place];
            node.count = 0;
        }
    }
}

// Lays parts out, and answers their tops.
#[cycle(lay)]
fn lay_parts(out: &mut Layout, seat: Seat, kids: &[Expr]) -> Result<Tops, AllocError> {
    let mut tops = Tops {
        greatest: 0,
        least: u64::MAX,
        sum: 0,
    };
    for kid in kids {
        let top = lay(out, seat, kid)?;
        tops = Tops {
            greatest: tops.greatest.max(top),
            least: tops.least.min(top),
            sum: tops.sum.saturating_add(top),
        };
    }
    Ok(tops)
}

// Lays an expression out, and answers its greatest worth.
#[cycle(lay)]
fn lay(out: &mut Layout, seat: Seat, e: &Expr) -> Result<u64, AllocError> {
    match e {
        Expr::One(leaf) => {
            out.leaf(seat, leaf)?;
            Ok(leaf.v)
        }
        Expr::Max(kids) => {
            let inner = out.join(seat, Kind::Max, 0)?;
            let tops = lay_parts(out, inner, kids)?;
            Ok(tops.greatest)
        }
        Expr::Min(kids) => {
            let inner = out.join(seat, Kind::Min, 0)?;
            let tops = lay_parts(out, inner, kids)?;
            Ok(tops.least)
        }
        Expr::Sum(kids) => {
            let inner = out.join(seat, Kind::Sum, 0)?;
            let tops = lay_parts(out, inner, kids)?;
            Ok(tops.sum)
        }
        Expr::Scale(kid, by) => {
            let times = seat.times.saturating_mul(*by);
            let top = lay(out, Seat { times, ..seat }, kid)?;
            Ok(top.saturating_mul(*by))
        }
        Expr::Barrier(kid, least) => {
            let inner = out.join(seat, Kind::Barrier, seat.times.saturating_mul(*least))?;
            let top = lay(out, inner, kid)?;
            if top < *least {
                out.shut(inner.parent);
                return Ok(0);
            }
            Ok(*least)
        }
    }
}

// Lays a job's expression out.
fn lay_job(out: &mut Layout, offer: &Offer, unit: u64) -> Result<Job, AllocError> {
    let first = out.nodes.len();
    out.size = u64::MAX;
    let seat = Seat {
        under: Kind::Sum,
        parent: first,
        times: unit,
    };
    lay(out, seat, &offer.expr)?;
    Ok(Job {
        job: offer.job,
        first,
        end: out.nodes.len(),
        size: out.size.max(1),
    })
}

/// An instance laid out flat, with worths in parts of a unit.
pub fn lay_out(
    alloc: Global,
    inst: &Instance,
    parts: &Partitions,
    unit: u64,
) -> Result<Market, AllocError>
    requires sound { IsSound (space inst.now) }
    requires partitions { ArePartitionsOf (space inst.now) (parts_of parts.now) }
{
    let mut out = Layout {
        nodes: Vec::new(alloc),
        waits: Vec::new(alloc),
        size: 0,
    };
    let mut jobs = Vec::new(alloc);
    for offer in parts.offers() {
        jobs.push(lay_job(&mut out, offer, unit)?)?;
    }
    let free = free_nodes(alloc, inst, parts)?;
    let Layout {
        mut nodes,
        mut waits,
        size: _,
    } = out;
    let made = make_spans(alloc, inst, parts, &free, &mut waits, &mut nodes)?;
    Ok(Market {
        window: inst.window as usize,
        parts: parts.count() as usize,
        free,
        spans: made.spans,
        places: made.places,
        nodes,
        jobs,
        pairs: made.pairs,
    })
}
