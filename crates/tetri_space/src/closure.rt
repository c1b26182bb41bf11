// Slots in which a node is closed.

/// A node is closed in the slots from `from` to `to`, and both count: no leaf may use it there. A
/// closure whose `to` is less than its `from` closes nothing.
#[derive(Clone, Copy, Debug, PartialEq, Eq)]
pub struct Closure {
    /// The number of the node.
    pub node: u32,
    /// The first slot in which it is closed.
    pub from: u32,
    /// The last slot in which it is closed.
    pub to: u32,
}
