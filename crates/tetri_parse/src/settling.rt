// The second pass: the faults of what a text spells, and the expression that it makes.
ghost use Rattle.std.specs.Prelude.{◌≡◌, ◌≤◌, length, map, nat_lt, take, IfOk, IfErr};
ghost use Rattle.tetri_strl.specs.Tree.{tree, join, scale, barrier, row};
ghost use Rattle.tetri_strl.specs.WellMade.{PEAK};
ghost use Rattle.tetri_parse.specs.Answers.{Gives};
ghost use Rattle.tetri_parse.specs.Phrase.{leaf_text, phrase, phrases, line_up, operator};
ghost use Rattle.tetri_parse.specs.Reader.{IsTrueIndex};
ghost use Rattle.tetri_parse.specs.Settling.{wanted_below, first_start_of, peak_of, settled_leaf, settled, settled_all};
ghost use Rattle.tetri_parse.specs.Written.{IsWrittenLeaf, IsWritten, AreWritten};

use crate::fault::{Fault, Miss, Stop};
use crate::naming::{NotedTexts, set_named};
use crate::peak::{first_start_of, peak};
use crate::syntax::{Join, LeafText, Syntax};
use std::alloc::Global;
use tetri_cluster::{Cluster, Sets};
use tetri_strl::{Expr, Leaf};

const MAX_PEAK: u64 = 1_000_000_000_000;

/// How written numbers are meant: each value is multiplied by the unit, and slots are counted from
/// the arrival on.
#[derive(Clone, Copy)]
pub(crate) struct Terms {
    pub unit: u64,
    pub arrival: u32,
}

fn fault_at(fault: Fault, left: usize) -> Stop
    ensures { result ≡ Stop.Missed (record { fault = fault; left = left }) }
{
    Stop::Missed(Miss { fault, left })
}

#[tactic(auto, unfolding(crate::specs::Settling::settled_leaf))]
fn settle_leaf(
    alloc: Global,
    terms: Terms,
    wanted: Option<u32>,
    leaf: &LeafText<'_>,
    cluster: &Cluster,
    sets: &mut Sets,
    noted: &mut NotedTexts,
) -> Result<Leaf, Stop>
    requires terms { (terms.unit ≤ 1000000) × (terms.arrival ≤ 10000) }
    requires written { IsWrittenLeaf (leaf_text cluster.now leaf.now) }
    requires noted { IsTrueIndex cluster.now sets.old noted.old.entries }
    ensures value { Gives (λ l. (l, sets.new)) result (settled_leaf terms.unit terms.arrival wanted (leaf_text cluster.entry.now leaf.entry.now) sets.old) }
    ensures kept { take (length sets.old) sets.new ≡ sets.old }
    ensures noted { IsTrueIndex cluster.entry.now sets.new noted.new.entries }
{
    if let Some(start) = wanted {
        if start != leaf.start {
            return Err(fault_at(Fault::Mixed, leaf.left));
        }
    }
    let v = leaf.v * terms.unit;
    if v > MAX_PEAK {
        return Err(fault_at(Fault::TooRich, leaf.left));
    }
    let set = set_named(alloc, leaf.set_left, leaf.set, cluster, sets, noted)?;
    if leaf.linear && v % u64::from(leaf.k) != 0 {
        return Err(fault_at(Fault::Uneven, leaf.value_left));
    }
    Ok(Leaf {
        num: leaf.num,
        set,
        k: leaf.k,
        start: terms.arrival + leaf.start,
        dur: leaf.dur,
        v,
        linear: leaf.linear,
    })
}

// Whether what is spelled may be worth too much, whatever nodes the cluster has.
fn is_rich(cluster: &Cluster, unit: u64, syntax: &Syntax<'_>) -> bool
    ensures { result ≡ nat_lt PEAK (peak_of unit (phrase cluster.now syntax.now)) }
{
    peak(unit, syntax) > MAX_PEAK
}

// The written start of the first leaf below these parts, whatever nodes the cluster has.
fn first_start_below(cluster: &Cluster, parts: &[Syntax<'_>]) -> u32
    ensures { result ≡ first_start_of (line_up (phrases cluster.now parts.now)) }
{
    first_start_of(parts)
}

// The start that the leaves below a join must have.
fn wanted_below(
    cluster: &Cluster,
    kind: Join,
    wanted: Option<u32>,
    parts: &[Syntax<'_>],
) -> Option<u32>
    ensures { result ≡ wanted_below (operator kind) wanted
        (first_start_of (line_up (phrases cluster.now parts.now))) }
{
    match (kind, wanted) {
        (Join::Max, _) => wanted,
        (_, Some(start)) => Some(start),
        (_, None) => Some(first_start_below(cluster, parts)),
    }
}

fn joined(kind: Join, parts: Vec<Expr>) -> Expr
    ensures { tree result ≡ join (operator kind) (row (map tree parts.items)) }
{
    match kind {
        Join::Max => Expr::Max(parts),
        Join::Min => Expr::Min(parts),
        Join::Sum => Expr::Sum(parts),
    }
}

fn scaled(alloc: Global, part: Expr, by: u64) -> Result<Expr, Stop>
    ensures value { IfOk result (λ e. tree e ≡ scale (tree part) by) }
    ensures memory { IfErr result (λ e. e ≡ Stop.NoMemory) }
{
    Ok(Expr::Scale(Box::new(alloc, part)?, by))
}

fn barred(alloc: Global, part: Expr, least: u64) -> Result<Expr, Stop>
    ensures value { IfOk result (λ e. tree e ≡ barrier (tree part) least) }
    ensures memory { IfErr result (λ e. e ≡ Stop.NoMemory) }
{
    Ok(Expr::Barrier(Box::new(alloc, part)?, least))
}

/// The expression that is spelled. The sets that were there keep their numbers.
#[cycle(settling)]
pub(crate) fn settle(
    alloc: Global,
    terms: Terms,
    wanted: Option<u32>,
    syntax: &Syntax<'_>,
    cluster: &Cluster,
    sets: &mut Sets,
    noted: &mut NotedTexts,
) -> Result<Expr, Stop>
    requires terms { (terms.unit ≤ 1000000) × (terms.arrival ≤ 10000) }
    requires written { IsWritten (phrase cluster.now syntax.now) }
    requires noted { IsTrueIndex cluster.now sets.old noted.old.entries }
    ensures value { Gives (λ e. (tree e, sets.new)) result (settled terms.unit terms.arrival wanted (phrase cluster.entry.now syntax.entry.now) sets.old) }
    ensures kept { take (length sets.old) sets.new ≡ sets.old }
    ensures noted { IsTrueIndex cluster.entry.now sets.new noted.new.entries }
{
    match syntax {
        Syntax::Leaf(leaf) => Ok(Expr::One(settle_leaf(
            alloc, terms, wanted, leaf, cluster, sets, noted,
        )?)),
        Syntax::Join(kind, left, parts) => {
            if is_rich(cluster, terms.unit, syntax) {
                return Err(fault_at(Fault::TooRich, *left));
            }
            let wanted = wanted_below(cluster, *kind, wanted, parts);
            Ok(joined(
                *kind,
                settle_parts(alloc, terms, wanted, parts, cluster, sets, noted)?,
            ))
        }
        Syntax::Scale(left, part, by) => {
            if is_rich(cluster, terms.unit, syntax) {
                return Err(fault_at(Fault::TooRich, *left));
            }
            let part = settle(alloc, terms, wanted, part, cluster, sets, noted)?;
            scaled(alloc, part, *by)
        }
        Syntax::Barrier(left, part, least) => {
            if is_rich(cluster, terms.unit, syntax) {
                return Err(fault_at(Fault::TooRich, *left));
            }
            let part = settle(alloc, terms, wanted, part, cluster, sets, noted)?;
            barred(alloc, part, *least * terms.unit)
        }
    }
}

#[cycle(settling)]
fn settle_parts(
    alloc: Global,
    terms: Terms,
    wanted: Option<u32>,
    parts: &[Syntax<'_>],
    cluster: &Cluster,
    sets: &mut Sets,
    noted: &mut NotedTexts,
) -> Result<Vec<Expr>, Stop>
    requires terms { (terms.unit ≤ 1000000) × (terms.arrival ≤ 10000) }
    requires written { AreWritten (line_up (phrases cluster.now parts.now)) }
    requires noted { IsTrueIndex cluster.now sets.old noted.old.entries }
    ensures value { Gives (λ es. (map tree es.items, sets.new)) result (settled_all terms.unit terms.arrival wanted (line_up (phrases cluster.entry.now parts.entry.now)) sets.old) }
    ensures kept { take (length sets.old) sets.new ≡ sets.old }
    ensures noted { IsTrueIndex cluster.entry.now sets.new noted.new.entries }
{
    let mut made = Vec::new(alloc);
    for part in parts {
        made.push(settle(alloc, terms, wanted, part, cluster, sets, noted)?)?;
    }
    Ok(made)
}
