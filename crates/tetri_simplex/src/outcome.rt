//! How a run ends.

use tetri_ip::Weight;
use tetri_num::{Frac, Place};

/// How a run of the dual simplex method ends.
#[derive(Drop)]
pub enum Outcome {
    /// The optimum of the region without the demand for whole numbers: one coordinate a column,
    /// and the rows' weights, ascending by row and without zeros, to the common multiplier `q`.
    Best {
        point: Vec<Frac>,
        q: i128,
        weights: Vec<Weight>,
    },
    /// No point of the region is better than the best objective known, by weights like those
    /// of `Best`.
    Cut {
        q: i128,
        weights: Vec<Weight>,
    },
    /// The region has no point, by weights to the multiplier 0.
    Empty {
        weights: Vec<Weight>,
    },
    /// A number left the range.
    Past(Place),
    /// The most pivots were made.
    Long,
}
