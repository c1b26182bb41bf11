// The text of a set.
ghost use Rattle.std.specs.Prelude.{◌≡◌, map, length, IfOk, IfSome};
ghost use Rattle.tetri_parse.specs.Answers.{Gives};
ghost use Rattle.tetri_parse.specs.Rows.{row_at};
ghost use Rattle.tetri_parse.specs.SetText.{part_of, part_at, listed_first, and_at, set_at, set_end, nodes_in, IsNodeSet};
ghost use Rattle.tetri_parse.specs.Tokens.{name_at, goes_on_at};

use crate::fault::{Fault, Miss, Stop};
use crate::nodes::{all_nodes, narrow};
use crate::token::{goes_on, missing, name, skip_blanks};
use std::alloc::Global;
use tetri_cluster::{Cluster, NameTable, NodeSet};

/// A part of a set.
#[derive(Drop)]
pub(crate) enum Part<'t> {
    /// All nodes.
    Every,
    /// The nodes with this tag.
    Tagged(&'t [u8]),
    /// The nodes with these names.
    Listed(Vec<&'t [u8]>),
}

// Names with commas between, up to the closing brace.
fn names<'t>(alloc: Global, text: &'t [u8]) -> Result<(Vec<&'t [u8]>, &'t [u8]), Stop>
    ensures { Gives (λ x. (map (λ n. n.now) x.0.items, x.1.now)) result (row_at name_at (goes_on_at 125) (length text.now) text.now) }
{
    let mut names = Vec::new(alloc);
    let mut rest = text;
    for _ in 0..text.len() {
        let (name, after) = name(rest)?;
        names.push(name)?;
        let (more, after) = goes_on(b'}', after)?;
        rest = after;
        if !more {
            return Ok((names, rest));
        }
    }
    Err(Stop::Missed(Miss {
        fault: Fault::Ended,
        left: 0,
    }))
}

#[tactic(auto, unfolding(crate::specs::SetText::part_at))]
fn first_part<'t>(alloc: Global, text: &'t [u8]) -> Result<(Part<'t>, &'t [u8]), Stop>
    ensures { Gives (λ x. (part_of x.0, x.1.now)) result (part_at text.now) }
{
    let text = skip_blanks(text);
    match text {
        [b'*', rest @ ..] => Ok((Part::Every, rest)),
        [b'{', rest @ ..] => listed(alloc, skip_blanks(rest)),
        _ => {
            let (tag, rest) = name(text)?;
            Ok((Part::Tagged(tag), rest))
        }
    }
}

// What stands behind an opening brace.
fn listed<'t>(alloc: Global, text: &'t [u8]) -> Result<(Part<'t>, &'t [u8]), Stop>
    ensures { Gives (λ x. (part_of x.0, x.1.now)) result (listed_first text.now) }
{
    match text {
        [] => Err(missing(text)),
        [b'}', rest @ ..] => Ok((Part::Listed(Vec::new(alloc)), rest)),
        _ => {
            let (names, rest) = names(alloc, text)?;
            Ok((Part::Listed(names), rest))
        }
    }
}

// Whether another part follows, and the bytes behind its mark.
fn and_more(text: &[u8]) -> (bool, &[u8])
    ensures value { (result.0, result.1.now) ≡ and_at text.now }
{
    match skip_blanks(text) {
        [b'&', rest @ ..] => (true, rest),
        _ => (false, text),
    }
}

/// The nodes of the set that stands first, none where it names what the cluster has not; and what
/// stands behind it.
#[tactic(auto, unfolding(crate::specs::SetText::set_at))]
pub(crate) fn set_nodes<'t>(
    alloc: Global,
    cluster: &Cluster,
    text: &'t [u8],
) -> Result<(Option<NodeSet>, &'t [u8]), Stop>
    ensures value { Gives (λ x. (x.0, x.1.now)) result (set_at cluster.now text.now) }
    ensures good { IfOk result (λ x. IfSome x.0 (IsNodeSet (length cluster.now))) }
{
    let mut held = Some(all_nodes(alloc, cluster.count())?);
    let mut seen = NameTable::new(alloc);
    let mut rest = text;
    for _ in 0..text.len() {
        let (part, after) = first_part(alloc, rest)?;
        held = narrow(alloc, cluster, &part, held, &mut seen)?;
        let (more, after) = and_more(after);
        rest = after;
        if !more {
            return Ok((held, rest));
        }
    }
    Err(Stop::Missed(Miss {
        fault: Fault::Ended,
        left: 0,
    }))
}

// What stands behind the set that stands first.
fn set_end<'t>(alloc: Global, text: &'t [u8]) -> Result<&'t [u8], Stop>
    ensures { Gives (λ rest. rest.now) result (set_end text.now) }
{
    let mut rest = text;
    for _ in 0..text.len() {
        let part = first_part(alloc, rest)?;
        let (more, after) = and_more(part.1);
        rest = after;
        if !more {
            return Ok(rest);
        }
    }
    Err(Stop::Missed(Miss {
        fault: Fault::Ended,
        left: 0,
    }))
}

/// The text of the set that stands first, and what stands behind it. The set is not looked up.
pub(crate) fn set_front<'t>(
    alloc: Global,
    cluster: &Cluster,
    text: &'t [u8],
) -> Result<(&'t [u8], &'t [u8]), Stop>
    ensures value { Gives (λ x. (nodes_in cluster.now x.0.now, x.1.now)) result (set_at cluster.now text.now) }
    ensures good { IfOk result (λ x. IfSome (nodes_in cluster.now x.0.now) (IsNodeSet (length cluster.now))) }
{
    let rest = set_end(alloc, text)?;
    let (set, _) = text.split_at(text.len().saturating_sub(rest.len()));
    Ok((set, rest))
}
