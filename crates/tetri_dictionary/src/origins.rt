//! Where the row of a basic place comes from, where one row is kept for the two variables of a column.

/// Where the row of a basic place comes from.
#[derive(Clone, Copy)]
pub(crate) enum Origin {
    /// a row that is kept
    Kept(usize),
    /// the width less a row that is kept
    Mirror { row: usize, width: i64 },
    /// the width less the variable of a nonbasic place
    Column { place: usize, width: i64 },
}
