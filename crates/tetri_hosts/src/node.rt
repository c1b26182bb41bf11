// A line that tells of a node: its name, its state, a partition that it is in, its features.
ghost use Rattle.std.specs.Prelude.{◌≡◌, IfOk, OnOk, map};
ghost use Rattle.tetri_cluster.specs.Names.{is_among};
ghost use Rattle.tetri_hosts.specs.Columns.{columns_of, is_feature, name_of, node_line_of, partition_name, partition_tag, separator_of, tags_of, told_of, with_feature, with_new_tag};

use crate::state::{NodeState, state_of};
use std::alloc::{AllocError, Global};
use tetri_base::Items;
use tetri_cluster::{Name, NameFault, NameList, is_name};
use tetri_io::parts_at;

/// What a line tells of a node.
#[derive(Drop)]
pub struct NodeLine {
    pub name: Name,
    pub state: NodeState,
    /// The tag of its partition, and its features that are names, each once.
    pub tags: NameList,
}

const PARTITION: &str = "partition:";

// What parts the columns of a line: a tab, where it has one, or else a bar.
fn separator_of(line: &[u8]) -> u8
    ensures { result ≡ separator_of line.now }
{
    if line.contains(&b'\t') { b'\t' } else { b'|' }
}

/// The columns of a line, which tabs part, or bars where it has no tab. Its only error is want of memory.
pub fn columns_of(alloc: Global, line: &[u8]) -> Result<Vec<&[u8]>, AllocError>
    ensures { IfOk result (λ v. map (λ x. x.now) v.items ≡ columns_of line.now) }
{
    parts_at(alloc, separator_of(line), line)
}

// A name, if these bytes are one.
fn name_of(alloc: Global, bytes: &[u8]) -> Result<Option<Name>, AllocError>
    ensures { IfOk result (λ name. name ≡ name_of bytes.now) }
{
    match Name::read(alloc, bytes) {
        Ok(name) => Ok(Some(name)),
        Err(NameFault::NotName) => Ok(None),
        Err(NameFault::NoMemory) => Err(AllocError),
    }
}

/// The tag of the nodes that are in a partition, if the two together are a name. Its only error is want of memory.
pub fn partition_tag(alloc: Global, partition: &[u8]) -> Result<Option<Name>, AllocError>
    ensures { IfOk result (λ tag. tag ≡ partition_tag partition.now) }
{
    let mut bytes = Vec::from_slice(alloc, PARTITION.as_bytes())?;
    bytes.extend_from_slice(partition)?;
    name_of(alloc, &bytes)
}

/// The partition that a column names: the default one has a `*` behind it.
pub fn partition_name(column: &[u8]) -> &[u8]
    ensures { result.now ≡ partition_name column.now }
{
    match column.split_last() {
        Some((b'*', partition)) => partition,
        _ => column,
    }
}

/// Whether these bytes are a tag that stands for a feature of nodes: a name, but not the tag of a partition.
pub fn is_feature(bytes: &[u8]) -> bool
    ensures { result ≡ is_feature bytes.now }
{
    is_name(bytes) && !bytes.starts_with(PARTITION.as_bytes())
}

// Whether a tag is among these.
fn holds(tags: &NameList, tag: &[u8]) -> bool
    ensures { result ≡ is_among tag.now tags.now }
{
    tags.as_slice().iter().any(|name| tag == name.bytes())
}

/// Puts a tag behind the others, unless it is there.
pub(crate) fn add_tag(alloc: Global, tags: &mut NameList, tag: &[u8]) -> Result<(), AllocError>
    ensures { OnOk result (tags.new ≡ with_new_tag tags.old tag.now) }
{
    if holds(tags, tag) {
        return Ok(());
    }
    if let Some(name) = name_of(alloc, tag)? {
        tags.push(name)?;
    }
    Ok(())
}

// Puts a feature behind the other tags, if it is one.
fn add_feature(alloc: Global, tags: &mut NameList, feature: &[u8]) -> Result<(), AllocError>
    ensures { OnOk result (tags.new ≡ with_feature tags.old feature.now) }
{
    if is_feature(feature) {
        add_tag(alloc, tags, feature)?;
    }
    Ok(())
}

// The tags of a node in this partition with these features.
fn tags_of(alloc: Global, partition: Name, features: &[u8]) -> Result<NameList, AllocError>
    ensures { IfOk result (λ tags. tags ≡ tags_of partition features.now) }
{
    let mut tags = Items::new(alloc);
    tags.push(partition)?;
    let features = parts_at(alloc, b',', features)?;
    for feature in &features {
        add_feature(alloc, &mut tags, feature)?;
    }
    Ok(tags)
}

// What columns tell of a node, if they do.
fn told_of(
    alloc: Global,
    name: &[u8],
    state: &[u8],
    partition: &[u8],
    features: &[u8],
) -> Result<Option<NodeLine>, AllocError>
    ensures { IfOk result (λ told. told ≡ told_of name.now state.now partition.now features.now) }
{
    let Some(name) = name_of(alloc, name)? else {
        return Ok(None);
    };
    let Some(partition) = partition_tag(alloc, partition_name(partition))? else {
        return Ok(None);
    };
    let tags = tags_of(alloc, partition, features)?;
    Ok(Some(NodeLine {
        name,
        state: state_of(state),
        tags,
    }))
}

/// What a line tells of a node, as `n1|idle|batch*|gpu,rack0`; `None` exactly where it is no such line. Its only error is want of memory.
pub fn read_node_line(alloc: Global, line: &[u8]) -> Result<Option<NodeLine>, AllocError>
    ensures { IfOk result (λ told. told ≡ node_line_of line.now) }
{
    let columns = columns_of(alloc, line)?;
    match columns.as_slice() {
        [name, state, partition, features] => told_of(alloc, name, state, partition, features),
        _ => Ok(None),
    }
}
