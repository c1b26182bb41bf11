//! The coefficients of a row by column.

ghost use Rattle.std.specs.Prelude.{◌≡◌, ℕ, ◌<◌, length};
ghost use Rattle.tetri_ip.specs.Points.{coefficient, column_at};

use crate::programs::Row;

/// A row's coefficient at a column, found by binary search.
pub fn coefficient_of(row: &Row, column: u32) -> i128
    requires { (k m : ℕ) → k < m → m < length row.now.terms.items →
        column_at row.now.terms.items k < column_at row.now.terms.items m }
    ensures { result ≡ coefficient row.now.terms.items column }
{
    let mut low = 0;
    let mut high = row.terms.len();
    while low < high {
        let middle = low + (high - low) / 2;
        let term = row.terms[middle];
        if term.column == column {
            return term.by;
        }
        if term.column < column {
            low = middle + 1;
        } else {
            high = middle;
        }
    }
    0
}
