// The nodes of each tag.
ghost use Rattle.std.specs.Prelude.{◌≡◌, ◌≤◌, false, ◌++◌, ◌∷◌, [], List, ℕ, length, map, filter, bytes_eq, if◌then◌else◌, IfOk, OnOk};
ghost use Rattle.tetri_cluster.specs.Names.{is_among};
ghost use Rattle.tetri_cluster.specs.Tags.{tag_list, tagged_from};

use crate::{NameList, NameTable, NodeSet, NodeText};
use std::alloc::{AllocError, Global};

// Puts a node in the list of a tag that is new.
fn put_first(
    alloc: Global,
    tags: &mut NameTable,
    lists: &mut Vec<NodeSet>,
    tag: &[u8],
    node: u32,
) -> Result<(), AllocError>
    requires { is_among tag.now tags.old ≡ false }
    ensures tags { OnOk result (tags.new ≡ tags.old ++ tag.now ∷ []) }
    ensures lists { OnOk result (lists.new.items ≡ lists.old.items ++ (node ∷ []) ∷ []) }
{
    let mut list = NodeSet::new(alloc);
    list.push(node)?;
    let _new = tags.add(tag)?;
    lists.push(list)?;
    Ok(())
}

// Puts a node last in the list of a tag, which is a new one where the tag has none.
fn put(
    alloc: Global,
    tags: &mut NameTable,
    lists: &mut Vec<NodeSet>,
    tag: &[u8],
    node: u32,
) -> Result<(), AllocError>
    requires { length lists.old.items ≡ length tags.old }
    ensures as_many { OnOk result (length lists.new.items ≡ length tags.new) }
    ensures put { OnOk result ((q : List ℕ) → tag_list tags.new lists.new.items q
        ≡ tag_list tags.old lists.old.items q ++ (if bytes_eq q tag.now then node ∷ [] else [])) }
{
    match tags.number(tag) {
        Some(number) => lists[number].push(node),
        None => put_first(alloc, tags, lists, tag, node),
    }
}

// Puts a node last in the list of each of these tags.
fn put_each(
    alloc: Global,
    tags: &mut NameTable,
    lists: &mut Vec<NodeSet>,
    names: &NameList,
    node: u32,
) -> Result<(), AllocError>
    requires { length lists.old.items ≡ length tags.old }
    ensures as_many { OnOk result (length lists.new.items ≡ length tags.new) }
    ensures put { OnOk result ((q : List ℕ) → tag_list tags.new lists.new.items q
        ≡ tag_list tags.old lists.old.items q ++ map (λ _. node) (filter (bytes_eq q) names.now)) }
{
    for name in names.as_slice() {
        put(alloc, tags, lists, name.bytes(), node)?;
    }
    Ok(())
}

/// All tags, and by their numbers the nodes that have them.
pub(crate) fn tag_lists(
    alloc: Global,
    nodes: &[NodeText],
) -> Result<(NameTable, Vec<NodeSet>), AllocError>
    requires { length nodes.now ≤ 4096 }
    ensures as_many { IfOk result (λ t. length t.1.items ≡ length t.0) }
    ensures lists { IfOk result (λ t. (q : List ℕ) → tag_list t.0 t.1.items q ≡ tagged_from 0 q nodes.now) }
{
    let mut tags = NameTable::new(alloc);
    let mut lists = Vec::new(alloc);
    for (place, node) in nodes.iter().enumerate() {
        put_each(alloc, &mut tags, &mut lists, &node.tags, place as u32)?;
    }
    Ok((tags, lists))
}
