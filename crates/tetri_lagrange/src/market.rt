// An instance laid out flat, once a cycle.
use crate::places::Place;

/// How a node makes its worth.
#[derive(Clone, Copy, Debug, PartialEq, Eq)]
pub enum Kind {
    /// By the nodes that it gets.
    Leaf,
    /// As much as its worthiest part.
    Max,
    /// As much as its least worthy part.
    Min,
    /// As much as its parts together.
    Sum,
    /// A fixed worth where its part is worth as much.
    Barrier,
}

/// A leaf, or what joins parts of an expression. Scales are multiplied out.
#[derive(Clone, Copy, Debug)]
pub struct Node {
    /// How it makes its worth.
    pub kind: Kind,
    /// The kind of what it is a part of; of a whole expression `Sum`.
    pub under: Kind,
    /// The place of what it is a part of; of a whole expression its own.
    pub parent: usize,
    /// The number of the leaf.
    pub leaf: u32,
    /// The place of the leaf's span.
    pub span: usize,
    /// How many nodes the leaf asks for; of a barrier 0 where its part cannot reach it.
    pub count: u64,
    /// Whether each node of the leaf is worth the same share.
    pub linear: bool,
    /// What the leaf with all its nodes, or the barrier, is worth in parts of the unit.
    pub worth: u64,
}

/// Where a job's expression lies: each node before its parts.
#[derive(Clone, Copy, Debug)]
pub struct Job {
    /// The number of the job.
    pub job: u32,
    /// The place of the whole expression.
    pub first: usize,
    /// The place behind its last node.
    pub end: usize,
    /// The least node-slots that one of its leaves takes, at least 1.
    pub size: u64,
}

/// The slots and partitions that leaves with one set, start and duration share.
#[derive(Clone, Copy, Debug)]
pub struct Span {
    /// Its first slot, counted from the window's first.
    pub from: usize,
    /// The slot behind its last, at most the window.
    pub to: usize,
    /// Where its partitions begin in the list of places.
    pub first: usize,
    /// Where they end.
    pub end: usize,
    /// The slot in which its leaves start, counted from the start of the trace.
    pub start: u32,
    /// The slot in which its leaves have ended.
    pub ends: u32,
}

/// What stays the same from turn to turn.
#[derive(Drop)]
pub struct Market {
    /// How many slots the window has.
    pub window: usize,
    /// How many partitions there are.
    pub parts: usize,
    /// How many nodes are free, by partition and slot.
    pub free: Vec<u64>,
    /// The spans of the leaves.
    pub spans: Vec<Span>,
    /// The partitions of each span, with what is free of them at its start.
    pub places: Vec<Place>,
    /// The nodes of all expressions, job by job.
    pub nodes: Vec<Node>,
    /// The jobs, ascending.
    pub jobs: Vec<Job>,
    /// How many pairs of a leaf and a partition there are.
    pub pairs: u64,
}

impl Market {
    /// The span of a leaf, or an empty one.
    #[inline]
    pub fn span(&self, place: usize) -> Span {
        match self.spans.get(place) {
            Some(span) => *span,
            None => NO_SPAN,
        }
    }

    /// The node at this place, or one that is worth nothing.
    #[inline]
    pub fn node(&self, place: usize) -> Node {
        match self.nodes.get(place) {
            Some(node) => *node,
            None => NO_NODE,
        }
    }

    /// How many prices there are.
    pub fn cells(&self) -> usize {
        self.free.len()
    }
}

const NO_SPAN: Span = Span {
    from: 0,
    to: 0,
    first: 0,
    end: 0,
    start: 0,
    ends: 0,
};

const NO_NODE: Node = Node {
    kind: Kind::Leaf,
    under: Kind::Sum,
    parent: 0,
    leaf: 0,
    span: 0,
    count: 0,
    linear: false,
    worth: 0,
};
