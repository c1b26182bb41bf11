// Nodes that leaves got.

// A node that a leaf of a job got.
#[derive(Clone, Copy, Debug, PartialEq, Eq, PartialOrd, Ord)]
pub struct Held {
    pub job: u32,
    pub leaf: u32,
    pub node: u32,
}
