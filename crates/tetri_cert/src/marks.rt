// The marks of a certificate tree.
use tetri_base::Items;
use tetri_ip::Weight;
use tetri_num::{Frac, Place};

/// The value of a column in a point of whole numbers.
#[derive(Clone, Copy, Debug, PartialEq, Eq)]
pub struct Cell {
    pub column: u32,
    pub value: i128,
}

/// The value of a column in a point of fractions.
#[derive(Clone, Copy, Debug, PartialEq, Eq)]
pub struct FracCell {
    pub column: u32,
    pub value: Frac,
}

/// The reason that a split gives, which no test looks at: the region's best point, which is not whole; the place of the first
/// number that left the range; or that the run was too long. In a plain mark the cells of a point ascend by column, and none
/// is 0.
#[derive(Drop)]
pub enum Licence {
    Point(Items<FracCell>),
    Past(Place),
    Long,
}

/// A node of a tree in preorder. A split gives a region with `column` at `at + 1` or more, and then one with `column` at
/// `at` or less. The others end a region: closed by its weighed number over `q`, with a whole point of this worth, or left as
/// it is. `q` is how often the
/// objective is taken. In a plain mark weights ascend by row and cells by column, and none is 0.
#[derive(Drop)]
pub enum Mark {
    Split {
        column: u32,
        at: i128,
        licence: Licence,
    },
    Close {
        q: i128,
        weights: Items<Weight>,
    },
    Whole {
        q: i128,
        weights: Items<Weight>,
        worth: i128,
        point: Items<Cell>,
    },
    Rest {
        q: i128,
        weights: Items<Weight>,
    },
}
