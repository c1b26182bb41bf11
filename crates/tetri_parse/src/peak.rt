// The greatest worth that what is spelled may have, and where it starts.
ghost use Rattle.std.specs.Prelude.{◌≡◌, ◌-◌, ◌^◌, [], min};
ghost use Rattle.tetri_parse.specs.Phrase.{phrase, phrases, line_up};
ghost use Rattle.tetri_parse.specs.Settling.{first_start, first_start_of, peak_of};

use crate::syntax::{Join, Syntax};

/// The peak, or the last number of its type where that is less.
pub(crate) fn peak(unit: u64, syntax: &Syntax<'_>) -> u64
    ensures { result ≡ min (2 ^ 64 - 1) (peak_of unit (phrase [] syntax.now)) }
{
    match syntax {
        Syntax::Leaf(leaf) => leaf.v.saturating_mul(unit),
        Syntax::Join(Join::Sum, _, parts) => {
            let mut sum: u64 = 0;
            for part in parts {
                sum = sum.saturating_add(peak(unit, part));
            }
            sum
        }
        Syntax::Join(_, _, parts) => {
            let mut best: u64 = 0;
            for part in parts {
                best = best.max(peak(unit, part));
            }
            best
        }
        Syntax::Scale(_, part, by) => by.saturating_mul(peak(unit, part)),
        Syntax::Barrier(_, part, least) => least.saturating_mul(unit).max(peak(unit, part)),
    }
}

#[cycle(first_start)]
fn first_start(syntax: &Syntax<'_>) -> u32
    ensures { result ≡ first_start (phrase [] syntax.now) }
{
    match syntax {
        Syntax::Leaf(leaf) => leaf.start,
        Syntax::Join(_, _, parts) => first_start_of(parts),
        Syntax::Scale(_, part, _) => first_start(part),
        Syntax::Barrier(_, part, _) => first_start(part),
    }
}

/// The written start of the first leaf below these parts.
#[cycle(first_start)]
pub(crate) fn first_start_of(parts: &[Syntax<'_>]) -> u32
    ensures { result ≡ first_start_of (line_up (phrases [] parts.now)) }
{
    match parts {
        [first, ..] => first_start(first),
        [] => 0,
    }
}
