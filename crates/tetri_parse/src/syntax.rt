// An expression as its text says it.

/// Which of its parts make up the worth of a join.
#[derive(Clone, Copy, Debug, PartialEq, Eq)]
pub(crate) enum Join {
    Max,
    Min,
    Sum,
}

/// A leaf as written, and how many bytes of the text were left at its word, its set and its value.
#[derive(Drop)]
pub(crate) struct LeafText<'t> {
    pub num: u32,
    pub linear: bool,
    /// The text of its set.
    pub set: &'t [u8],
    pub k: u32,
    pub start: u32,
    pub dur: u32,
    pub v: u64,
    pub left: usize,
    pub set_left: usize,
    pub value_left: usize,
}

/// An expression, and how many bytes of the text were left at each word.
#[derive(Drop)]
pub(crate) enum Syntax<'t> {
    Leaf(LeafText<'t>),
    Join(Join, usize, Vec<Syntax<'t>>),
    Scale(usize, Box<Syntax<'t>>, u64),
    Barrier(usize, Box<Syntax<'t>>, u64),
}
