// The column at which a node is split: what each side of a split loses of the objective at least counts beside how far the column is
// from a whole number.

use crate::columns::urgency;
use crate::dictionary::{Dictionary, is_mirrored};
use crate::goal::part;
use crate::lines::Line;
use crate::numbers::{name_at, wide_at};
use crate::proposing::number_of;
use crate::single::Branch;
use tetri_ip::{Program, Region};

// A loss is counted in so many parts of what the objective is above the best one known.
const PARTS: i128 = 1 << 20;

// What counts for a column one of whose sides may lose nothing.
const LEAST: i128 = 20 << 10;

// In a program of more columns a side that closes at once counts before all else.
const WIDE: usize = 1000;

// What counts for a column: the first number, and where that is the same the second.
#[derive(Clone, Copy)]
struct Rank {
    greater: i128,
    score: i128,
}

fn is_above(one: Rank, other: Rank) -> bool {
    other.greater < one.greater || (other.greater == one.greater && other.score < one.score)
}

// What the objective loses at least, over its denominator and up to a most, where the line's variable
// moves by this much over the line's denominator to the next whole number, up or down. A nonbasic
// variable moves it, and all variables are whole, so that it grows by 1 at least (Tomlin 1971).
fn loss(d: &Dictionary, line: &Line, by: i128, up: bool, most: i128) -> i128 {
    let mut least = most;
    for (place, number) in line.numbers.iter().enumerate() {
        if *number == 0 || (*number > 0) != up {
            continue;
        }
        let each = wide_at(&d.goal.numbers, place).wrapping_neg();
        if each < least {
            let size = number.unsigned_abs() as i128;
            least = least.min(part(each.saturating_mul(by), size).max(each));
        }
    }
    least
}

// How far a line's variable is above a whole number, over the line's denominator.
fn above(line: &Line) -> i128 {
    if line.over <= 0 {
        return 0;
    }
    (line.constant as i128).rem_euclid(line.over as i128)
}

// The part of a gap that a loss is.
fn share(loss: i128, gap: i128) -> i128 {
    if gap <= 0 {
        return 0;
    }
    loss.saturating_mul(PARTS) / gap
}

// The rank of a line's column, whose number counts so much by itself, where the objective is so far
// above the best one known.
fn rank_of(d: &Dictionary, line: &Line, gap: i128, urgency: i128) -> Rank {
    let above = above(line);
    let below = (line.over as i128).saturating_sub(above);
    let down = share(loss(d, line, above, false, gap), gap);
    let up = share(loss(d, line, below, true, gap), gap);
    let greater = if WIDE < d.mirrored.len() {
        down.max(up)
    } else {
        0
    };
    let score = down.min(up).saturating_add(LEAST).saturating_mul(urgency);
    Rank { greater, score }
}

/// Of the columns that are not whole the first one of the highest rank, and the floor of its number;
/// none where no column is such.
pub(crate) fn choose_by_loss(p: &Program, r: &Region, d: &Dictionary, best: u64) -> Option<Branch> {
    let least = d.goal.over.saturating_mul(best as i128);
    let gap = d.goal.constant.saturating_sub(least);
    let mut most = Rank {
        greater: 0,
        score: 0,
    };
    let mut found = None;
    for (row, line) in d.lines.iter().enumerate() {
        let column = name_at(&d.basic, row);
        if p.costs.len() <= column || above(line) == 0 {
            continue;
        }
        let mirrored = is_mirrored(&d.mirrored, column);
        let Some(x) = number_of(r, mirrored, column, line.constant, line.over) else {
            continue;
        };
        let one = rank_of(d, line, gap, urgency(p, column, x));
        if found.is_none() || is_above(one, most) {
            most = one;
            found = Some(Branch {
                column: u32::try_from(column).unwrap_or(0),
                at: x.floor(),
            });
        }
    }
    found
}
