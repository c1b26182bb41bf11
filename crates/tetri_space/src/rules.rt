// The rules of lawful allotments.
ghost use Rattle.std.specs.Prelude.{◌≡◌, ◌↔◌, All, Err, IfErr, IfOk, IsOk, List, OnOk, Some};
ghost use Rattle.std.specs.List.Sorted.{IsStrictlyIncreasing};
ghost use Rattle.tetri_space.specs.Broken.{IsFirstBroken, IsFirstRule};
ghost use Rattle.tetri_space.specs.Lawful.{AreApart, IsLawful, IsLawfulGrant};
ghost use Rattle.tetri_space.specs.Sound.{IsSound};
ghost use Rattle.tetri_space.specs.Space.{IsLive, leaf_in, space};
ghost use Rattle.tetri_strl.specs.declared.grants.Grant.{Grant};

use crate::Instance;
use crate::clashes::{first_clash, first_double};
use crate::front::lawful_front;
use crate::leaves::{expr_of, is_live, leaf_numbered};
use crate::nodes::{first_not_free, first_outside, some_ascend};
use tetri_strl::{Allotment, Grant, Leaf};

/// A rule that a grant breaks, in the order in which the rules are tested.
#[derive(Clone, Copy, Debug, PartialEq, Eq)]
pub enum Rule {
    /// The job is not pending.
    NotPending,
    /// The job has no leaf of this number that starts in the window.
    NotLive,
    /// The grant at this earlier place, the first such, names the same leaf.
    Doubled(u64),
    /// There are no nodes, or they do not ascend.
    BadNodes,
    /// There are more nodes than the leaf asks for.
    TooMany,
    /// This node, the least such, is not in the leaf's set.
    Outside(u32),
    /// This node, the least such, is not free in some slot of the leaf.
    NotFree(u32),
    /// The grant at this earlier place, the first such, holds this node, the least such, in a slot
    /// of both leaves.
    Clash(u64, u32),
}

/// Why an allotment is not lawful.
#[derive(Clone, Copy, Debug, PartialEq, Eq)]
pub struct Unlawful {
    /// The place of the first grant that breaks a rule.
    pub grant: u64,
    /// The first rule that it breaks.
    pub rule: Rule,
}

// The leaf that the grant names, where it starts in the window.
fn live_leaf(inst: &Instance, grant: &Grant) -> Result<Leaf, Rule>
    requires { IsSound (space inst.now) }
    ensures leaf { IfOk result
        (λ l. leaf_in (space inst.entry.now).bids grant.now.job grant.now.leaf ≡ Some l) }
    ensures live { IfOk result (IsLive (space inst.entry.now)) }
    ensures first { IfErr result (λ r. (earlier : List Grant)
        → IsFirstRule (space inst.entry.now) earlier grant.now r) }
{
    let Some(expr) = expr_of(inst, grant.job) else {
        return Err(Rule::NotPending);
    };
    let Some(leaf) = leaf_numbered(expr, grant.leaf) else {
        return Err(Rule::NotLive);
    };
    if is_live(inst, &leaf) {
        Ok(leaf)
    } else {
        Err(Rule::NotLive)
    }
}

// Whether a grant keeps all rules beside the earlier ones.
pub fn check_grant(inst: &Instance, earlier: &[Grant], grant: &Grant) -> Result<(), Rule>
    requires sound { IsSound (space inst.now) }
    requires ascending { All (λ g. IsStrictlyIncreasing g.nodes) earlier.now }
    ensures lawful { OnOk result (IsLawfulGrant (space inst.entry.now) grant.now) }
    ensures apart { OnOk result
        (All (λ g. AreApart (space inst.entry.now) g grant.now) earlier.now) }
    ensures first { IfErr result (IsFirstRule (space inst.entry.now) earlier.now grant.now) }
{
    let leaf = live_leaf(inst, grant)?;
    if let Some(place) = first_double(earlier, grant) {
        return Err(Rule::Doubled(place));
    }
    let nodes = grant.nodes.as_slice();
    if !some_ascend(nodes) {
        return Err(Rule::BadNodes);
    }
    if nodes.len() > leaf.k as usize {
        return Err(Rule::TooMany);
    }
    if let Some(node) = first_outside(inst, &leaf, nodes) {
        return Err(Rule::Outside(node));
    }
    if let Some(node) = first_not_free(inst, &leaf, nodes) {
        return Err(Rule::NotFree(node));
    }
    match first_clash(inst, &leaf, nodes, earlier) {
        Some((place, node)) => Err(Rule::Clash(place, node)),
        None => Ok(()),
    }
}

/// Whether the allotment is lawful, and if not, the first grant that breaks a rule with the first
/// rule that it breaks. Takes no memory. A job is found by binary search, its leaf by a walk over
/// its expression, and a node in a set and its closures by binary search. Lawful grants that ascend
/// by job and leaf are gone through once, with a mask of slots for each node. From the first on
/// that is not so, each grant is held against every earlier one by a merge of their nodes, which
/// ends at the first that both hold, and only then is the earlier leaf looked up.
pub fn lawful(inst: &Instance, a: &Allotment) -> Result<(), Unlawful>
    requires { IsSound (space inst.now) }
    ensures ok { IsOk result ↔ IsLawful (space inst.entry.now) a.now }
    ensures exact { (u : Unlawful)
        → (result ≡ Err u) ↔ IsFirstBroken (space inst.entry.now) a.now u }
{
    let grants = a.as_slice();
    for place in lawful_front(inst, grants)..grants.len() {
        if let Err(rule) = check_grant(inst, &grants[..place], &grants[place]) {
            return Err(Unlawful {
                grant: place as u64,
                rule,
            });
        }
    }
    Ok(())
}
