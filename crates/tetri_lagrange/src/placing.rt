// Placing one job beside what is taken.
use crate::lists::{at, between};
use crate::market::{Job, Kind, Market, Node, Span};
use crate::places::Place;
use crate::plans::{Use, behind, give, take};
use crate::turns::share;
use std::alloc::AllocError;

/// What a node is worth that was placed, and what its nodes cost, in parts of the unit.
#[derive(Clone, Copy, Debug)]
pub struct Offer {
    /// What it is worth.
    pub worth: u64,
    /// What its nodes cost.
    pub cost: u64,
}

const NO_OFFER: Offer = Offer { worth: 0, cost: 0 };

/// What is known of a node while its parts are placed: their worth and cost together, the key of
/// the best of them, and where their uses begin.
#[derive(Clone, Copy, Debug)]
pub struct Head {
    offer: Offer,
    key: u64,
    mark: usize,
}

// No part was placed yet.
const UNMARKED: usize = usize::MAX;

/// Nothing is known of a node.
pub const NO_HEAD: Head = Head {
    offer: NO_OFFER,
    key: 0,
    mark: UNMARKED,
};

/// Under which prices jobs are placed, and whether they pay them or go by worth alone.
#[derive(Clone, Copy)]
pub struct Stand<'a> {
    /// The instance.
    pub market: &'a Market,
    /// The places of the spans, each span's in order of cost.
    pub places: &'a [Place],
    /// What each node gains at most under the prices.
    pub gains: &'a [u64],
    /// Whether jobs pay the prices.
    pub priced: bool,
    /// Where this is not 0, one leaf in sixteen is passed over, another one for another number.
    pub salt: u64,
}

// Whether a leaf at this place is passed over. Christiaens and Vanden Berghe 2020.
#[inline]
fn is_passed(salt: u64, place: usize) -> bool {
    salt > 0 && (place as u64 ^ salt).wrapping_mul(11_400_714_819_323_198_485) >> 60 == 0
}

// How many nodes of a partition are left through a span, up to `most`.
#[inline]
fn least_left(left: &[u64], base: usize, span: &Span, most: u64) -> u64 {
    let mut least = most;
    for nodes in between(
        left,
        base.saturating_add(span.from),
        base.saturating_add(span.to),
    ) {
        least = least.min(*nodes);
        if least == 0 {
            break;
        }
    }
    least
}

// What a leaf brings that has so many of its nodes.
fn leaf_offer(node: &Node, missing: u64, cost: u64) -> Offer {
    if missing >= node.count || missing > 0 && !node.linear {
        return NO_OFFER;
    }
    let worth = if node.linear {
        share(node).saturating_mul(node.count.saturating_sub(missing))
    } else {
        node.worth
    };
    Offer { worth, cost }
}

// Places a leaf that has to bring more than `bar`. What it takes is put behind the uses.
fn fill_leaf(
    stand: &Stand,
    place: usize,
    node: &Node,
    bar: u64,
    left: &[u64],
    uses: &mut Vec<Use>,
) -> Result<Offer, AllocError> {
    let span = stand.market.span(node.span);
    let each = if node.linear { share(node) } else { u64::MAX };
    let mut missing = node.count;
    let mut cost: u64 = 0;
    for offer in between(stand.places, span.first, span.end) {
        if missing == 0 || stand.priced && offer.cost >= each {
            break;
        }
        let base = offer.part.saturating_mul(stand.market.window);
        let nodes = least_left(left, base, &span, missing.min(offer.capacity));
        if nodes > 0 {
            missing = missing.saturating_sub(nodes);
            cost = cost.saturating_add(nodes.saturating_mul(offer.cost));
            uses.push(Use {
                node: place,
                span: node.span,
                part: offer.part,
                nodes,
            })?;
            if stand.priced && !node.linear && node.worth.saturating_sub(cost) <= bar {
                break;
            }
        }
    }
    Ok(leaf_offer(node, missing, cost))
}

// The key by which the parts of a `max` are held against one another; 0 where one is no use.
#[inline]
fn key_of(stand: &Stand, offer: Offer) -> u64 {
    if stand.priced {
        return offer.worth.saturating_sub(offer.cost);
    }
    if offer.worth == 0 {
        return 0;
    }
    offer
        .worth
        .saturating_mul(1024)
        .saturating_sub(offer.cost)
        .max(1)
}

// What a leaf's key is at most.
#[inline]
fn most_key(stand: &Stand, place: usize, node: &Node) -> u64 {
    if stand.priced {
        return at(stand.gains, place);
    }
    node.worth.saturating_mul(1024)
}

// What a part's key has to exceed.
#[inline]
fn bar_of(node: &Node, heads: &[Head]) -> u64 {
    if node.under != Kind::Max {
        return 0;
    }
    match heads.get(node.parent) {
        Some(head) => head.key,
        None => 0,
    }
}

// Whether a part of what it stands under may be left out.
#[inline]
fn is_free(node: &Node) -> bool {
    match node.under {
        Kind::Max | Kind::Sum => true,
        Kind::Leaf | Kind::Min | Kind::Barrier => false,
    }
}

// Places a leaf beside what is taken.
fn place_leaf(
    stand: &Stand,
    place: usize,
    node: &Node,
    heads: &[Head],
    left: &[u64],
    uses: &mut Vec<Use>,
) -> Result<Offer, AllocError> {
    let bar = bar_of(node, heads);
    if is_free(node) && most_key(stand, place, node) <= bar || is_passed(stand.salt, place) {
        return Ok(NO_OFFER);
    }
    let mark = uses.len();
    let offer = fill_leaf(stand, place, node, bar, left, uses)?;
    let useless = is_free(node) && stand.priced && offer.worth <= offer.cost;
    if offer.worth == 0 || useless {
        uses.truncate(mark);
        return Ok(NO_OFFER);
    }
    Ok(offer)
}

// What a join is worth whose parts were placed, by what is known of it.
#[inline]
fn joined(node: &Node, head: &Head) -> Offer {
    match node.kind {
        Kind::Barrier => if head.offer.worth < node.worth || node.count == 0 {
            NO_OFFER
        } else {
            Offer {
                worth: node.worth,
                cost: head.offer.cost,
            }
        },
        Kind::Leaf | Kind::Max | Kind::Min | Kind::Sum => head.offer,
    }
}

// Takes or gives back what stands behind the mark, so that it is taken unless the node is a part of
// a `max`, whose best part is taken once it is known.
fn hold(market: &Market, node: &Node, mark: usize, left: &mut [u64], uses: &[Use]) {
    let held = match node.kind {
        Kind::Leaf | Kind::Max => false,
        Kind::Min | Kind::Sum | Kind::Barrier => true,
    };
    let wanted = node.under != Kind::Max;
    if wanted && !held {
        take(market, behind(uses, mark), left);
    } else if held && !wanted {
        give(market, behind(uses, mark), left);
    }
}

// Gives up what a join of parts took that is worth nothing.
fn give_up(market: &Market, node: &Node, mark: usize, left: &mut [u64], uses: &mut Vec<Use>) {
    match node.kind {
        Kind::Leaf | Kind::Max => {}
        Kind::Min | Kind::Sum | Kind::Barrier => give(market, behind(uses, mark), left),
    }
    uses.truncate(mark);
}

// Puts what stands from one place on at an earlier one, over what stood there.
fn shift(uses: &mut Vec<Use>, to: usize, from: usize) {
    let count = uses.len().saturating_sub(from);
    for step in 0..count {
        let source = from.saturating_add(step);
        let target = to.saturating_add(step);
        if source < uses.len() && target < uses.len() {
            uses[target] = uses[source];
        }
    }
    uses.truncate(to.saturating_add(count));
}

// The head of a `max` with one more part, of which the uses of the better one are kept.
fn with_choice(head: Head, key: u64, offer: Offer, mark: usize, uses: &mut Vec<Use>) -> Head {
    if key <= head.key {
        uses.truncate(mark);
        return head;
    }
    shift(uses, head.mark, mark);
    Head {
        offer,
        key,
        mark: head.mark,
    }
}

// The head with one more part.
#[inline]
fn with_offer(head: Head, kind: Kind, first: bool, offer: Offer) -> Head {
    let worth = match kind {
        Kind::Min => if first {
            offer.worth
        } else {
            head.offer.worth.min(offer.worth)
        },
        Kind::Leaf | Kind::Max | Kind::Sum | Kind::Barrier => {
            head.offer.worth.saturating_add(offer.worth)
        }
    };
    let cost = head.offer.cost.saturating_add(offer.cost);
    Head {
        offer: Offer { worth, cost },
        ..head
    }
}

// Tells the whole what its part is worth.
fn tell(
    stand: &Stand,
    node: &Node,
    offer: Offer,
    mark: usize,
    heads: &mut [Head],
    uses: &mut Vec<Use>,
) {
    if node.parent < heads.len() {
        let mut head = heads[node.parent];
        let first = head.mark == UNMARKED;
        if first {
            head.mark = mark;
        }
        heads[node.parent] = match node.under {
            Kind::Max => with_choice(head, key_of(stand, offer), offer, mark, uses),
            kind => with_offer(head, kind, first, offer),
        };
    }
}

// Places the node at this place, whose parts were placed, and tells its whole.
fn place_node(
    stand: &Stand,
    place: usize,
    left: &mut [u64],
    uses: &mut Vec<Use>,
    heads: &mut [Head],
) -> Result<Offer, AllocError> {
    let node = stand.market.node(place);
    let head = match heads.get(place) {
        Some(head) => *head,
        None => NO_HEAD,
    };
    if place < heads.len() {
        heads[place] = NO_HEAD;
    }
    let mark = head.mark.min(uses.len());
    let offer = if node.kind == Kind::Leaf {
        place_leaf(stand, place, &node, heads, left, uses)?
    } else {
        joined(&node, &head)
    };
    if offer.worth == 0 {
        give_up(stand.market, &node, mark, left, uses);
    } else {
        hold(stand.market, &node, mark, left, uses);
    }
    if node.parent < place {
        tell(stand, &node, offer, mark, heads, uses);
    }
    Ok(offer)
}

/// Places a job beside what is taken: its worth, 0 where there is nothing for it. What it takes is
/// put behind the uses, and taken from what is left. `heads` has one for each node, and they are as
/// new before and after.
pub fn place_job(
    stand: &Stand,
    job: &Job,
    left: &mut [u64],
    uses: &mut Vec<Use>,
    heads: &mut [Head],
) -> Result<u64, AllocError> {
    let mark = uses.len();
    let mut offer = NO_OFFER;
    for place in (job.first..job.end).rev() {
        offer = place_node(stand, place, left, uses, heads)?;
    }
    if offer.worth == 0 || stand.priced && offer.worth <= offer.cost {
        give(stand.market, behind(uses, mark), left);
        uses.truncate(mark);
        return Ok(0);
    }
    Ok(offer.worth)
}
