// What an ask offers in a cycle.
ghost use Rattle.std.specs.Prelude.{◌≡◌, ◌++◌, ◌≤◌, map, option_to_list, IfOk, IfSome, OnOk};
ghost use Rattle.std.specs.List.Sorted.{IsStrictlyIncreasing};
ghost use Rattle.std.specs.Option.{option_map};
ghost use Rattle.tetri_strl.specs.Aligned.{EachLeaf};
ghost use Rattle.tetri_strl.specs.Tree.{numbers, one, tree};
ghost use Rattle.tetri_strl.specs.WellMade.{IsWellMade};
ghost use Rattle.tetri_request.specs.Options.{IsSetOf, IsSoundAsk, offer, one_of};

use crate::ask::Ask;
use crate::choices::{general_option, preferred_option};
use std::alloc::{AllocError, Global};
use tetri_strl::{Expr, Leaf};

/// What the ask offers in the cycle of slot `now`: for each start in the window an option on the
/// preferred set and one on its own, where they end by the deadline. One option is a leaf by itself, and
/// several are parts of one `max`. None exactly where there is no option. A leaf's number is twice the
/// slots from the arrival to its start, and one more on the ask's own set, so it keeps its number from
/// cycle to cycle. Its only error is want of memory.
pub fn options(
    alloc: Global,
    ask: &Ask,
    arrival: u32,
    now: u32,
    window: u32,
) -> Result<Option<Expr>, AllocError>
    requires sound { IsSoundAsk ask.now }
    requires arrived { arrival ≤ now }
    requires early { now ≤ 10000 }
    requires window { window ≤ 64 }
    ensures offer { IfOk result (λ o. option_map tree o ≡ offer ask.now arrival now window) }
    ensures well_made { IfOk result (λ o. IfSome o (λ e. IsWellMade (tree e))) }
    ensures sets { IfOk result (λ o. IfSome o (λ e. EachLeaf (λ l. IsSetOf ask.now l.set) (tree e))) }
    ensures ascending { IfOk result (λ o. IfSome o (λ e. IsStrictlyIncreasing (numbers (tree e)))) }
{
    let mut parts = Vec::new(alloc);
    for start in now..now + window {
        let num = 2 * (start - arrival);
        add(preferred_option(ask, arrival, start, num), &mut parts)?;
        add(general_option(ask, arrival, start, num + 1), &mut parts)?;
    }
    Ok(one_or_max(parts))
}

fn add(leaf: Option<Leaf>, parts: &mut Vec<Expr>) -> Result<(), AllocError>
    ensures { OnOk result (map tree parts.new.items ≡ map tree parts.old.items ++ map one (option_to_list leaf)) }
{
    if let Some(leaf) = leaf {
        parts.push(Expr::One(leaf))?;
    }
    Ok(())
}

fn one_or_max(mut parts: Vec<Expr>) -> Option<Expr>
    ensures { option_map tree result ≡ one_of (map tree parts.items) }
{
    if parts.len() > 1 {
        Some(Expr::Max(parts))
    } else {
        parts.pop()
    }
}
