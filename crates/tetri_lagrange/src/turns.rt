// One turn: what each job gains under prices, and what all of them use.
use crate::lists::{at, between, clear, put};
use crate::market::{Job, Kind, Market, Node};
use crate::places::Place;
use crate::pricing::{price_places, sum_up};
use std::alloc::{AllocError, Global};

// What the parts of a node gain and cost, as far as they are known.
#[derive(Clone, Copy, Debug)]
struct Tally {
    gain: u64,
    cost: u64,
    best: usize,
    chosen: bool,
}

// What a leaf or a join gains, and what it costs at least.
#[derive(Clone, Copy, Debug)]
struct Value {
    gain: u64,
    cost: u64,
}

/// What changes from turn to turn.
#[derive(Drop)]
pub struct Turn {
    /// The places of the spans, each span's in order of cost.
    pub places: Vec<Place>,
    /// What each node gains.
    pub gains: Vec<u64>,
    /// How many nodes all jobs use, by partition and slot.
    pub usage: Vec<u64>,
    sums: Vec<u64>,
    tallies: Vec<Tally>,
    begun: Vec<u64>,
    ended: Vec<u64>,
}

// Nothing is known of the parts.
fn no_parts(kind: Kind) -> Tally {
    let (gain, cost) = match kind {
        Kind::Min => (u64::MAX, 0),
        Kind::Max | Kind::Sum => (0, u64::MAX),
        Kind::Leaf | Kind::Barrier => (0, 0),
    };
    Tally {
        gain,
        cost,
        best: 0,
        chosen: false,
    }
}

// Nothing is known of the parts in this turn, but the best of the last.
fn renewed(kind: Kind, best: usize) -> Tally {
    Tally {
        best,
        ..no_parts(kind)
    }
}

// The places of a span in order of cost.
#[inline]
fn places_of<'a>(market: &Market, places: &'a [Place], span: usize) -> &'a [Place] {
    let span = market.span(span);
    between(places, span.first, span.end)
}

// What one node of a linear leaf is worth.
#[inline]
pub fn share(node: &Node) -> u64 {
    node.worth / node.count.max(1)
}

// The value of a leaf of which each node is worth the same.
fn linear_value(node: &Node, places: &[Place]) -> Value {
    let each = share(node);
    let mut left = node.count;
    let mut gain: u64 = 0;
    for place in places {
        if left == 0 || place.cost >= each {
            break;
        }
        let taken = left.min(place.capacity);
        gain = gain.saturating_add(taken.saturating_mul(each.saturating_sub(place.cost)));
        left = left.saturating_sub(taken);
    }
    let cost = match places.first() {
        Some(place) => place.cost,
        None => 0,
    };
    Value { gain, cost }
}

// The value of a leaf that needs all its nodes.
fn whole_value(node: &Node, places: &[Place]) -> Value {
    let mut left = node.count;
    let mut cost: u64 = 0;
    for place in places {
        let taken = left.min(place.capacity);
        cost = cost.saturating_add(taken.saturating_mul(place.cost));
        left = left.saturating_sub(taken);
        if left == 0 {
            break;
        }
    }
    let worth = if left == 0 { node.worth } else { 0 };
    Value {
        gain: worth.saturating_sub(cost),
        cost,
    }
}

// The value of a node whose parts have this tally.
#[inline]
fn value_of(market: &Market, places: &[Place], node: &Node, tally: &Tally) -> Value {
    let cost = tally.cost;
    let gain = match node.kind {
        Kind::Leaf => {
            let own = places_of(market, places, node.span);
            if node.linear {
                return linear_value(node, own);
            }
            return whole_value(node, own);
        }
        Kind::Max | Kind::Sum => tally.gain,
        Kind::Min => tally.gain.saturating_sub(cost),
        Kind::Barrier => if node.count == 0 {
            0
        } else {
            tally.gain.min(node.worth.saturating_sub(cost))
        },
    };
    Value { gain, cost }
}

// The tally with one more part.
#[inline]
fn with_part(tally: Tally, kind: Kind, place: usize, part: Value) -> Tally {
    match kind {
        Kind::Max => Tally {
            gain: tally.gain.max(part.gain),
            cost: tally.cost.min(part.cost),
            best: if part.gain > tally.gain {
                place
            } else {
                tally.best
            },
            ..tally
        },
        Kind::Sum => Tally {
            gain: tally.gain.saturating_add(part.gain),
            cost: tally.cost.min(part.cost),
            ..tally
        },
        Kind::Min => Tally {
            gain: tally.gain.min(part.gain.saturating_add(part.cost)),
            cost: tally.cost.saturating_add(part.cost),
            ..tally
        },
        Kind::Leaf | Kind::Barrier => Tally {
            gain: part.gain,
            cost: part.cost,
            ..tally
        },
    }
}

// Adds what a leaf takes to what is used.
fn use_leaf(market: &Market, node: &Node, places: &[Place], begun: &mut [u64], ended: &mut [u64]) {
    let span = market.span(node.span);
    let each = if node.linear { share(node) } else { u64::MAX };
    let width = market.window.saturating_add(1);
    let mut left = node.count;
    for place in between(places, span.first, span.end) {
        if left == 0 || place.cost >= each {
            break;
        }
        let taken = left.min(place.capacity);
        left = left.saturating_sub(taken);
        let from = place.part.saturating_mul(width).saturating_add(span.from);
        let to = place.part.saturating_mul(width).saturating_add(span.to);
        put(begun, from, at(begun, from).saturating_add(taken));
        put(ended, to, at(ended, to).saturating_add(taken));
    }
}

impl Turn {
    /// Nothing gained, nothing used.
    pub fn new(alloc: Global, market: &Market) -> Result<Turn, AllocError> {
        let mut tallies = Vec::with_capacity(alloc, market.nodes.len())?;
        for node in &market.nodes {
            tallies.push(no_parts(node.kind))?;
        }
        let wide = market.cells().saturating_add(market.parts);
        Ok(Turn {
            places: Vec::from_slice(alloc, &market.places)?,
            gains: vec![in alloc; 0u64; market.nodes.len()]?,
            usage: vec![in alloc; 0u64; market.cells()]?,
            sums: Vec::new(alloc),
            tallies,
            begun: vec![in alloc; 0u64; wide]?,
            ended: vec![in alloc; 0u64; wide]?,
        })
    }

    // The value of the node at a place is known: its whole is told.
    #[inline]
    fn settle(&mut self, market: &Market, place: usize) {
        let node = market.node(place);
        let tally = match self.tallies.get(place) {
            Some(tally) => *tally,
            None => no_parts(node.kind),
        };
        let value = value_of(market, &self.places, &node, &tally);
        put(&mut self.gains, place, value.gain);
        if place < self.tallies.len() {
            self.tallies[place] = renewed(node.kind, tally.best);
        }
        if node.parent < place && node.parent < self.tallies.len() {
            let whole = self.tallies[node.parent];
            self.tallies[node.parent] = with_part(whole, node.under, place, value);
        }
    }

    /// What a job gains.
    #[inline]
    pub fn gain(&self, job: &Job) -> u64 {
        at(&self.gains, job.first)
    }

    // Whether the node at a place is a part of what gains most, where that is known of its whole.
    fn is_chosen(&self, node: &Node, place: usize) -> bool {
        if node.parent >= place {
            return true;
        }
        let Some(whole) = self.tallies.get(node.parent) else {
            return false;
        };
        let wanted = match node.under {
            Kind::Max => whole.best == place,
            Kind::Sum => at(&self.gains, place) > 0,
            Kind::Leaf | Kind::Min | Kind::Barrier => true,
        };
        whole.chosen && wanted
    }

    // Adds what the job takes that gains most.
    fn use_job(&mut self, market: &Market, job: &Job) {
        for place in job.first..job.end {
            let node = market.node(place);
            let chosen = self.is_chosen(&node, place);
            if place < self.tallies.len() {
                let tally = &mut self.tallies[place];
                tally.chosen = chosen;
            }
            if chosen && node.kind == Kind::Leaf {
                use_leaf(
                    market,
                    &node,
                    &self.places,
                    &mut self.begun,
                    &mut self.ended,
                );
            }
        }
    }

    // From what begins and ends in each slot to what is used in it.
    fn count_usage(&mut self, market: &Market) {
        let width = market.window.saturating_add(1);
        for part in 0..market.parts {
            let mut used: u64 = 0;
            for slot in 0..market.window {
                let place = part.saturating_mul(width).saturating_add(slot);
                used = used.saturating_add(at(&self.begun, place));
                used = used.saturating_sub(at(&self.ended, place));
                let cell = part.saturating_mul(market.window).saturating_add(slot);
                put(&mut self.usage, cell, used);
            }
        }
    }

    /// What each job gains under these prices, and what all of them use; answers the Lagrangian
    /// value of the prices in parts of the unit. Linear in the leaves and the partitions of their
    /// spans, but for sorting these by cost.
    pub fn run(&mut self, market: &Market, prices: &[u64]) -> Result<u128, AllocError> {
        sum_up(market, prices, &mut self.sums)?;
        price_places(market, &self.sums, &mut self.places);
        clear(&mut self.begun);
        clear(&mut self.ended);
        let mut total: u128 = 0;
        for job in &market.jobs {
            for place in (job.first..job.end).rev() {
                self.settle(market, place);
            }
            let gain = self.gain(job);
            if gain > 0 {
                self.use_job(market, job);
            }
            total = total.saturating_add(u128::from(gain));
        }
        self.count_usage(market);
        Ok(total.saturating_add(supply(prices, &market.free)))
    }
}

// What all free nodes cost.
fn supply(prices: &[u64], free: &[u64]) -> u128 {
    let mut cost: u128 = 0;
    for (place, price) in prices.iter().enumerate() {
        let nodes = u128::from(at(free, place));
        cost = cost.saturating_add(nodes.saturating_mul(u128::from(*price)));
    }
    cost
}
