// The nodes that the parts of a set mean.
ghost use Rattle.std.specs.Prelude.{◌≡◌, ℕ, List, map, length, filter, nat_eq, option_map, IfOk, IfSome, Some};
ghost use Rattle.std.specs.List.{list_any, range_with_len};
ghost use Rattle.std.specs.List.Sorted.{IsNonDecreasing};
ghost use Rattle.tetri_parse.specs.SetText.{part_of, tagged, listed, numbers_of, narrowed, IsNodeSet};
ghost use Rattle.tetri_parse.specs.Tagged.{HaveTags};

use crate::set_text::Part;
use std::alloc::{AllocError, Global};
use tetri_cluster::{Cluster, NameTable, NodeSet};

/// All nodes of a cluster of this many.
pub(crate) fn all_nodes(alloc: Global, count: u32) -> Result<NodeSet, AllocError>
    ensures value { IfOk result (λ s. s ≡ range_with_len 0 count) }
    ensures good { IfOk result (IsNodeSet count) }
{
    let mut nodes = NodeSet::new(alloc);
    for node in 0..count {
        nodes.push(node)?;
    }
    Ok(nodes)
}

// The numbers of the nodes with these names, none where one is no node's name.
fn numbers(
    alloc: Global,
    cluster: &Cluster,
    names: &[&[u8]],
) -> Result<Option<Vec<u32>>, AllocError>
    ensures { IfOk result (λ o. option_map (λ v. v.items) o
        ≡ numbers_of cluster.now (map (λ n. n.now) names.now)) }
{
    let mut numbers = Vec::new(alloc);
    for name in names {
        let Some(number) = cluster.node(name) else {
            return Ok(None);
        };
        numbers.push(number)?;
    }
    Ok(Some(numbers))
}

// Whether numbers, which ascend, have a number.
fn holds(numbers: &[u32], number: u32) -> bool
    requires { IsNonDecreasing numbers.now }
    ensures { result ≡ list_any (nat_eq number) numbers.now }
{
    numbers.binary_search(&number).is_ok()
}

// Those of the nodes that are among the numbers, which ascend. It looks at each of the nodes once.
fn among(alloc: Global, numbers: &[u32], nodes: &[u32]) -> Result<NodeSet, AllocError>
    requires { IsNonDecreasing numbers.now }
    ensures { IfOk result (λ s. s ≡ filter (λ n. list_any (nat_eq n) numbers.now) nodes.now) }
{
    let mut found = NodeSet::new(alloc);
    for node in nodes {
        if holds(numbers, *node) {
            found.push(*node)?;
        }
    }
    Ok(found)
}

// What is left of nodes in a tag, none where no node has it. Nodes that have the tags that were seen are left as
// they are by such a tag.
fn narrow_to_tag(
    alloc: Global,
    cluster: &Cluster,
    tag: &[u8],
    nodes: NodeSet,
    seen: &mut NameTable,
) -> Result<Option<NodeSet>, AllocError>
    requires good { IsNodeSet (length cluster.now) nodes }
    requires seen { HaveTags cluster.now nodes seen.old }
    ensures value { IfOk result (λ o. o ≡ narrowed cluster.now (Some nodes) (tagged tag.now)) }
    ensures good { IfOk result (λ o. IfSome o (IsNodeSet (length cluster.now))) }
    ensures seen { IfOk result (λ o. IfSome o (λ left. HaveTags cluster.now left seen.new)) }
{
    if seen.number(tag).is_some() {
        return Ok(Some(nodes));
    }
    let tagged = cluster.nodes_with(tag);
    if tagged.is_empty() {
        return Ok(None);
    }
    let left = among(alloc, tagged, nodes.as_slice())?;
    let _is_new = seen.add(tag)?;
    Ok(Some(left))
}

// What is left of nodes in those with these names, none where one is no node's name.
fn narrow_to_names(
    alloc: Global,
    cluster: &Cluster,
    names: &[&[u8]],
    nodes: &NodeSet,
) -> Result<Option<NodeSet>, AllocError>
    requires { IsNodeSet (length cluster.now) nodes.now }
    ensures value { IfOk result (λ o. o
        ≡ narrowed cluster.now (Some nodes.now) (listed (map (λ n. n.now) names.now))) }
    ensures good { IfOk result (λ o. IfSome o (IsNodeSet (length cluster.now))) }
    ensures fewer { IfOk result (λ o. IfSome o (λ left. (tags : List (List ℕ))
        → HaveTags cluster.now nodes.now tags → HaveTags cluster.now left tags)) }
{
    let Some(mut numbers) = numbers(alloc, cluster, names)? else {
        return Ok(None);
    };
    numbers.sort_unstable();
    Ok(Some(among(alloc, &numbers, nodes.as_slice())?))
}

/// What is left of nodes in a part, none where it names what the cluster has not. The nodes have the tags that were
/// seen, and so a tag is looked at once.
pub(crate) fn narrow(
    alloc: Global,
    cluster: &Cluster,
    part: &Part<'_>,
    held: Option<NodeSet>,
    seen: &mut NameTable,
) -> Result<Option<NodeSet>, AllocError>
    requires good { IfSome held (IsNodeSet (length cluster.now)) }
    requires seen { IfSome held (λ nodes. HaveTags cluster.now nodes seen.old) }
    ensures value { IfOk result (λ o. o ≡ narrowed cluster.now held (part_of part.now)) }
    ensures good { IfOk result (λ o. IfSome o (IsNodeSet (length cluster.now))) }
    ensures seen { IfOk result (λ o. IfSome o (λ nodes. HaveTags cluster.now nodes seen.new)) }
{
    let Some(nodes) = held else {
        return Ok(None);
    };
    match part {
        Part::Every => Ok(Some(nodes)),
        Part::Tagged(tag) => narrow_to_tag(alloc, cluster, tag, nodes, seen),
        Part::Listed(names) => narrow_to_names(alloc, cluster, names, &nodes),
    }
}
