// The nodes, and sets of them.
ghost use Rattle.std.specs.Prelude.{◌≡◌, ◌<◌, ◌≤◌, ◌++◌, [], decimal, length, map, true, IfOk};
ghost use Rattle.std.specs.List.{range_with_len};
ghost use Rattle.tetri_cluster.specs.Names.{is_name};
ghost use Rattle.tetri_cluster.specs.Sets.{AreSets, with_set, number_in};
ghost use Rattle.tetri_make.specs.Generated.{node_at, spaced};

use std::alloc::{AllocError, Global};
use tetri_cluster::{Cluster, Name, NameList, NodeSet, NodeText, Sets};

const NODES: u32 = 8;

// The name with these bytes, which are one. Its only error is want of memory.
fn named(alloc: Global, bytes: &[u8]) -> Result<Name, AllocError>
    ensures value { IfOk result (λ n. n ≡ bytes.now) }
    ensures name { IfOk result (λ _. is_name bytes.now ≡ true) }
{
    match Name::read(alloc, bytes) {
        Ok(name) => Ok(name),
        Err(_) => Err(AllocError),
    }
}

/// The name that is a letter with a number behind it. Its only error is want of memory.
pub(crate) fn numbered(alloc: Global, letter: &str, number: u32) -> Result<Name, AllocError>
    ensures value { IfOk result (λ n. n ≡ letter.now ++ decimal number) }
    ensures name { IfOk result (λ n. is_name n ≡ true) }
{
    named(alloc, format!(in alloc; "{letter}{number}")?.as_bytes())
}

/// The nodes `n0` to `n7`: four with the tag `gpu`, and each with `r0` or `r1`.
pub(crate) fn cluster(alloc: Global) -> Result<Cluster, AllocError>
    ensures { IfOk result (λ c. c ≡ map node_at (range_with_len 0 8)) }
{
    let mut nodes = Vec::new(alloc);
    for number in 0..NODES {
        nodes.push(node(alloc, number)?)?;
    }
    match Cluster::build(alloc, nodes) {
        Ok(cluster) => Ok(cluster),
        Err(_) => Err(AllocError),
    }
}

// The node of a number.
fn node(alloc: Global, number: u32) -> Result<NodeText, AllocError>
    ensures { IfOk result (λ n. n ≡ node_at number) }
{
    let name = numbered(alloc, "n", number)?;
    let mut tags = NameList::new(alloc);
    add_tags(alloc, number, &mut tags)?;
    Ok(NodeText { name, tags })
}

// Adds the tags of the node of a number to none.
fn add_tags(alloc: Global, number: u32, tags: &mut NameList) -> Result<(), AllocError>
    requires { tags.old ≡ [] }
    ensures { IfOk result (λ _. tags.new ≡ (node_at number).tags) }
{
    if number < 4 {
        tags.push(named(alloc, b"gpu")?)?;
    }
    tags.push(numbered(alloc, "r", number % 2)?)
}

/// Nodes that are evenly spaced, as a set of nodes.
#[derive(Clone, Copy)]
pub(crate) struct Spacing {
    pub(crate) first: u32,
    pub(crate) step: u32,
    pub(crate) count: u32,
}

/// All nodes.
pub(crate) const EVERY: Spacing = Spacing {
    first: 0,
    step: 1,
    count: 8,
};

/// The nodes with the tag `gpu`.
pub(crate) const GPU: Spacing = Spacing {
    first: 0,
    step: 1,
    count: 4,
};

/// The nodes of even number.
pub(crate) const EVEN: Spacing = Spacing {
    first: 0,
    step: 2,
    count: 4,
};

/// The nodes of odd number.
pub(crate) const ODD: Spacing = Spacing {
    first: 1,
    step: 2,
    count: 4,
};

/// The number of a set, which is added where it is new. Its only error is want of memory.
pub(crate) fn number_of(alloc: Global, sets: &mut Sets, nodes: Spacing) -> Result<u32, AllocError>
    requires first { nodes.first ≤ 8 }
    requires step { (1 ≤ nodes.step) × (nodes.step ≤ 8) }
    requires count { nodes.count ≤ 8 }
    ensures number { IfOk result (λ set. set ≡ number_in sets.old (spaced nodes.first nodes.step nodes.count)) }
    ensures sets { IfOk result (λ _. sets.new ≡ with_set sets.old (spaced nodes.first nodes.step nodes.count)) }
    ensures are_sets { IfOk result (λ _. AreSets sets.new × (length sets.new ≤ 4096)) }
{
    let mut set = NodeSet::new(alloc);
    for place in 0..nodes.count {
        set.push(nodes.first + place * nodes.step)?;
    }
    match sets.find_or_add(set) {
        Ok(number) => Ok(number),
        Err(_) => Err(AllocError),
    }
}
