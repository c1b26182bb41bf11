/// What was formed when a number left the range, in a run of the dual simplex method.
#[derive(Clone, Copy, PartialEq, Eq, Debug)]
pub enum Kind {
    /// the ratio of a candidate to enter
    Ratio,
    /// a number of the new row of the entering variable
    Row,
    /// a number of another row
    Entry,
    /// a coordinate of the point
    Point,
    /// the common denominator, or a weight that is brought to it
    Lcm,
    /// the weighed number
    Weigh,
}

/// Where a number left the range: what was formed, how many pivots were made before, and the
/// row and the column of the table.
#[derive(Clone, Copy, PartialEq, Eq, Debug)]
pub struct Place {
    pub kind: Kind,
    pub step: u32,
    pub row: u32,
    pub column: u32,
}
