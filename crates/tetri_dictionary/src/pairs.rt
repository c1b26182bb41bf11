//! Dictionaries that keep one row for the two variables of a column, while all rows are of short whole numbers.

use crate::mixed::MixedRow;
use crate::origins::Origin;
use tetri_rows::Terms;

/// Rows of whole numbers, one for the two variables of a column where both are basic, and none where one of them is.
#[derive(Drop)]
pub(crate) struct Pairs {
    pub(crate) nonbasic: Vec<usize>,
    pub(crate) basic: Vec<usize>,
    // for each basic place and the objective where its row comes from, and whether its constant is below 0
    pub(crate) origins: Vec<Origin>,
    pub(crate) below: Vec<bool>,
    // the rows that are kept, and last the objective's; for each whether its constant is below 0, its place, and that of its mirror
    pub(crate) rows: Vec<MixedRow>,
    pub(crate) row_below: Vec<bool>,
    pub(crate) homes: Vec<usize>,
    pub(crate) mirrors: Vec<Option<usize>>,
    // for each nonbasic place the place of the other variable of its column, where that is basic and has no row
    pub(crate) columns: Vec<Option<usize>>,
    // for each nonbasic place, which kept rows may have its variable
    pub(crate) holders: Vec<Vec<u64>>,
    // where a pivot lists the terms of the entering variable's row
    pub(crate) terms: Terms,
}
