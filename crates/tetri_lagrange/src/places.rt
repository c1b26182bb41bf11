// Nodes of one partition that cost a span's leaves the same.

/// A partition of a span.
#[derive(Clone, Copy, Debug)]
pub struct Place {
    /// What one of its nodes costs, in parts of the unit.
    pub cost: u64,
    /// The number of the partition.
    pub part: usize,
    /// How many of its nodes are free at the span's start.
    pub capacity: u64,
}
