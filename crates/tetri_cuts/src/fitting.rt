//! Whether a program stays fit with a row.

ghost use Rattle.std.specs.Prelude.{◌≡◌, ◌↔◌, ◌+◌, ◌<◌, ◌^◌, ℕ, length, unsigned_abs, IsTrue};
ghost use Rattle.tetri_ip.specs.Points.{IsFit, column_at, reach, size_at};

use tetri_ip::{Program, Row};

// The greatest size of a column's number in the box.
fn size_at(p: &Program, column: u32) -> u128
    requires fit { IsFit p.now }
    requires inside { column < length p.now.costs.items }
    ensures { result ≡ size_at p.now column }
{
    let lower = p.lower[column as usize].unsigned_abs();
    let upper = p.upper[column as usize].unsigned_abs();
    if lower < upper { upper } else { lower }
}

/// Whether the sums of a row are in range at each point of the program's box.
pub(crate) fn is_in_range(p: &Program, row: &Row) -> bool
    requires fit { IsFit p.now }
    requires columns { (k : ℕ) → k < length row.now.terms.items → column_at row.now.terms.items k < length p.now.costs.items }
    ensures { IsTrue result ↔ (reach p.now row.now.terms.items + unsigned_abs row.now.right < 2 ^ 127) }
{
    let mut sum = row.right.unsigned_abs();
    for term in &row.terms {
        let size = size_at(p, term.column);
        let Some(part) = term.by.unsigned_abs().checked_mul(size) else {
            return false;
        };
        let Some(next) = sum.checked_add(part) else {
            return false;
        };
        sum = next;
    }
    sum < 1 << 127
}
