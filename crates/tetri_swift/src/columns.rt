// The column at which a point that is not whole is split.

use crate::single::Branch;
use tetri_ip::Program;
use tetri_num::Frac;

const MOST: i128 = 1 << 60;

const PARTS: i128 = 1 << 20;

// How far a number is from the nearest whole one, in parts of `PARTS`.
fn distance(x: Frac) -> i128 {
    let above = x.num.rem_euclid(x.den);
    let near = above.min(x.den - above);
    if x.den < MOST {
        return near * PARTS / x.den;
    }
    near / (x.den / PARTS)
}

// What a unit of a column's distance counts: one more than its cost, and 100 times that where the
// column is 0 or 1 in the program's box.
fn factor(p: &Program, j: usize) -> i128 {
    let cost = number(&p.costs, j).max(0).min(MOST);
    if number(&p.lower, j) == 0 && number(&p.upper, j) == 1 {
        return 100 * (1 + cost);
    }
    1 + cost
}

fn number(numbers: &[i128], j: usize) -> i128 {
    match numbers.get(j) {
        Some(number) => *number,
        None => 0,
    }
}

/// What a column's number counts: its factor times its distance from a whole number.
pub(crate) fn urgency(p: &Program, j: usize, x: Frac) -> i128 {
    factor(p, j).saturating_mul(distance(x))
}

/// Of the columns that are not whole the one with the greatest factor times distance, the least
/// such one, and the floor of its number; none where the point is whole.
pub(crate) fn choose(p: &Program, point: &[Frac]) -> Option<Branch> {
    let mut best = -1;
    let mut found = None;
    for (j, x) in point.iter().enumerate() {
        if x.den == 1 {
            continue;
        }
        let score = urgency(p, j, *x);
        if best < score {
            best = score;
            found = Some(Branch {
                column: u32::try_from(j).unwrap_or(0),
                at: x.floor(),
            });
        }
    }
    found
}
