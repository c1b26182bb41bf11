// What happened at the beginning of a cycle.

/// A running piece of a job, by the number of its leaf.
#[derive(Clone, Copy, Debug, PartialEq, Eq, PartialOrd, Ord)]
pub struct PieceId {
    pub job: u32,
    pub leaf: u32,
}

/// What happened at the beginning of a cycle: the pieces that ended and those that ran over, by job and then
/// leaf, the jobs that were cancelled and those that failed, each in the order of their lines, and those that expired, by
/// job. A job that failed lost its pieces with a node and waits again.
#[derive(Drop)]
pub struct Happened {
    pub ended: Vec<PieceId>,
    pub cancelled: Vec<u32>,
    pub failed: Vec<u32>,
    pub over: Vec<PieceId>,
    pub expired: Vec<u32>,
}
