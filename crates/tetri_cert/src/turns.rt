// The way back from a region to those that are still open.

ghost use Rattle.std.specs.Prelude.{◌≡◌, ℕ, ◌∷◌, [], ◌<◌, length, reverse, cond, All, IfOk, OnOk, OnErr, ◌<ℤ◌};
ghost use Rattle.tetri_ip.specs.Points.{bounds_of, number_at};
ghost use Rattle.tetri_cert.specs.NodeBounds.{HasSides, high_side, low_side, sides_before};
ghost use Rattle.tetri_cert.specs.Turns.{pending};

use crate::marks::Mark;
use std::alloc::AllocError;
use tetri_ip::Region;

/// A column's bounds to be put back on the way to the next open region, and whether that region is then reached.
#[derive(Drop)]
pub struct Turn {
    column: u32,
    lower: i128,
    upper: i128,
    stops: bool,
}

// Goes to the next open region, if there is one.
fn turn_back(region: &mut Region, trail: &mut Vec<Turn>) -> bool
    requires lower { All (λ t. t.column < length region.old.lower.items) trail.old.items }
    requires upper { length region.old.upper.items ≡ length region.old.lower.items }
    ensures next { cond result (bounds_of region.new ∷ pending (bounds_of region.new) (reverse trail.new.items)) [] ≡ pending (bounds_of region.old) (reverse trail.old.items) }
    ensures columns { All (λ t. t.column < length region.new.lower.items) trail.new.items }
    ensures lower { length region.new.lower.items ≡ length region.old.lower.items }
    ensures upper { length region.new.upper.items ≡ length region.old.upper.items }
{
    while let Some(turn) = trail.pop() {
        let column = turn.column as usize;
        region.lower[column] = turn.lower;
        region.upper[column] = turn.upper;
        if turn.stops {
            return true;
        }
    }
    false
}

// Goes to the high side of a split, and keeps the way back.
fn turn_high(
    region: &mut Region,
    trail: &mut Vec<Turn>,
    column: u32,
    at: i128,
) -> Result<(), AllocError>
    requires trail { All (λ t. t.column < length region.old.lower.items) trail.old.items }
    requires upper { length region.old.upper.items ≡ length region.old.lower.items }
    requires column { column < length region.old.lower.items }
    requires below { at <ℤ number_at region.old.upper.items column }
    ensures high { OnOk result (bounds_of region.new ≡ high_side (bounds_of region.old) column at) }
    ensures behind { OnOk result (pending (bounds_of region.new) (reverse trail.new.items) ≡ low_side (bounds_of region.old) column at ∷ pending (bounds_of region.old) (reverse trail.old.items)) }
    ensures columns { All (λ t. t.column < length region.new.lower.items) trail.new.items }
    ensures lower { length region.new.lower.items ≡ length region.old.lower.items }
    ensures upper { length region.new.upper.items ≡ length region.old.upper.items }
    ensures err { OnErr result ((bounds_of region.new ≡ bounds_of region.old) × (trail.new.items ≡ trail.old.items)) }
{
    let place = column as usize;
    let lower = region.lower[place];
    let upper = region.upper[place];
    trail.push(Turn {
        column,
        lower,
        upper,
        stops: false,
    })?;
    let low = Turn {
        column,
        lower,
        upper: at,
        stops: true,
    };
    if trail.push(low).is_err() {
        let _back = trail.pop();
        return Err(AllocError);
    }
    region.lower[place] = at + 1;
    Ok(())
}

/// Goes to the next open region after a node, if there is one: to the high side of a split, else back. The trail leads back
/// from the region to the others that are open, and is empty at the root. Its only error is want of memory, and then both are
/// as before.
pub fn turn_on(region: &mut Region, trail: &mut Vec<Turn>, mark: &Mark) -> Result<bool, AllocError>
    requires trail { All (λ t. t.column < length region.old.lower.items) trail.old.items }
    requires upper { length region.old.upper.items ≡ length region.old.lower.items }
    requires sides { HasSides (bounds_of region.old) mark.now }
    ensures next { IfOk result (λ live. cond live (bounds_of region.new ∷ pending (bounds_of region.new) (reverse trail.new.items)) []
        ≡ sides_before (bounds_of region.old) mark.now (pending (bounds_of region.old) (reverse trail.old.items))) }
    ensures columns { All (λ t. t.column < length region.new.lower.items) trail.new.items }
    ensures lower { length region.new.lower.items ≡ length region.old.lower.items }
    ensures upper { length region.new.upper.items ≡ length region.old.upper.items }
    ensures err { OnErr result ((bounds_of region.new ≡ bounds_of region.old) × (trail.new.items ≡ trail.old.items)) }
{
    match mark {
        Mark::Split { column, at, .. } => {
            turn_high(region, trail, *column, *at)?;
            Ok(true)
        }
        Mark::Close { .. } | Mark::Whole { .. } | Mark::Rest { .. } => Ok(turn_back(region, trail)),
    }
}
