// What a user asks for who writes no expression.

/// How the worth of an ask falls with the slot in which it ends.
#[derive(Clone, Copy, Debug, PartialEq, Eq)]
pub enum Class {
    /// It does not fall.
    Steady,
    /// By the same share for each slot up to the deadline.
    Decay,
}

/// Where an ask would rather run, and how long it then runs.
#[derive(Clone, Copy, Debug, PartialEq, Eq)]
pub struct Prefer {
    /// The number of the set whose nodes it prefers.
    pub set: u32,
    /// How many slots it runs on them.
    pub dur: u32,
}

/// A job whose requests the scheduler makes itself.
#[derive(Clone, Copy, Debug, PartialEq, Eq)]
pub struct Ask {
    /// How many nodes it wants.
    pub k: u32,
    /// The number of the set whose nodes it may use.
    pub set: u32,
    /// How many slots it runs on them.
    pub dur: u32,
    /// What it is worth, already times the unit.
    pub value: u64,
    /// The number of slots from its arrival by which it must have ended.
    pub deadline: u32,
    /// Where it would rather run.
    pub prefer: Option<Prefer>,
    /// How its worth falls with the slot in which it ends.
    pub class: Class,
    /// Whether each node up to `k` is worth the same share; if not, only exactly `k` nodes are worth
    /// anything.
    pub elastic: bool,
}
