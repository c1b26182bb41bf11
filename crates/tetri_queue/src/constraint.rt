// Which nodes a job may use.
ghost use Rattle.std.specs.Prelude.{◌<◌, length};

use crate::cause::Cause;
use crate::line::{Kind, before};
use crate::span::is_nothing;
use std::alloc::{AllocError, Global};
use tetri_cluster::{Cluster, Name, NodeSet};
use tetri_hosts::{HostsFault, expand, is_feature, partition_name, partition_tag};
use tetri_io::parts_at;

// How many hosts a list has at most.
const MOST_HOSTS: usize = 4096;

/// A kind of nodes: the text of their set, and which they are.
#[derive(Drop)]
pub(crate) struct Shape {
    pub(crate) text: String,
    pub(crate) nodes: NodeSet,
}

impl Shape {
    /// The same once more.
    pub(crate) fn copied(&self, alloc: Global) -> Result<Shape, AllocError> {
        let nodes = NodeSet::of_slice(alloc, self.nodes.as_slice())?;
        let text = String::from_str(alloc, self.text.as_str())?;
        Ok(Shape { text, nodes })
    }
}

/// Features of which a node has to have all, or one.
#[derive(Drop)]
struct Features<'a> {
    tags: Vec<&'a [u8]>,
    all: bool,
}

// Whether each of these is a feature.
fn are_features(tags: &[&[u8]]) -> bool {
    for tag in tags {
        if !is_feature(tag) {
            return false;
        }
    }
    true
}

// The features that an expression asks for, if it is `a&b`, `a|b` or one alone.
fn features_in<'a>(alloc: Global, text: &'a [u8]) -> Result<Option<Features<'a>>, AllocError> {
    if is_nothing(text) {
        return Ok(Some(Features {
            tags: Vec::new(alloc),
            all: true,
        }));
    }
    let all = !text.contains(&b'|');
    let tags = parts_at(alloc, if all { b'&' } else { b'|' }, text)?;
    if are_features(&tags) {
        Ok(Some(Features { tags, all }))
    } else {
        Ok(None)
    }
}

// Whether a node has these features.
fn has_features(cluster: &Cluster, node: u32, features: &Features<'_>) -> bool
    requires { node < length cluster.now }
{
    for tag in &features.tags {
        if cluster.has_tag(node, tag) != features.all {
            return !features.all;
        }
    }
    features.all
}

/// Marks the nodes of a list of hosts. False where it is none.
pub(crate) fn mark_hosts(
    alloc: Global,
    cluster: &Cluster,
    hosts: &[u8],
    marked: &mut [bool],
) -> Result<bool, AllocError> {
    let names = match expand(alloc, hosts, MOST_HOSTS) {
        Ok(names) => names,
        Err(HostsFault::NoMemory) => return Err(AllocError),
        Err(HostsFault::NotHosts | HostsFault::TooMany) => return Ok(false),
    };
    for name in names.as_slice() {
        if let Some(node) = cluster.node(name.bytes())
            && (node as usize) < marked.len()
        {
            marked[node as usize] = true;
        }
    }
    Ok(true)
}

// For each node whether a job may use it by the hosts that it names and bars. None where these are no lists of hosts.
fn by_hosts(
    alloc: Global,
    cluster: &Cluster,
    kind: Kind<'_>,
) -> Result<Option<Vec<bool>>, AllocError> {
    let count = cluster.count() as usize;
    let mut open = vec![in alloc; is_nothing(kind.wanted); count]?;
    if !is_nothing(kind.wanted) && !mark_hosts(alloc, cluster, kind.wanted, &mut open)? {
        return Ok(None);
    }
    if is_nothing(kind.barred) {
        return Ok(Some(open));
    }
    let mut barred = vec![in alloc; false; count]?;
    if !mark_hosts(alloc, cluster, kind.barred, &mut barred)? {
        return Ok(None);
    }
    for place in 0..open.len() {
        if place < barred.len() && barred[place] {
            open[place] = false;
        }
    }
    Ok(Some(open))
}

// The nodes with this tag and these features that are open.
fn nodes_of(
    alloc: Global,
    cluster: &Cluster,
    tag: &Name,
    features: &Features<'_>,
    open: &[bool],
) -> Result<NodeSet, AllocError> {
    let mut nodes = NodeSet::new(alloc);
    for node in 0..cluster.count() {
        let place = node as usize;
        if place < open.len()
            && open[place]
            && cluster.has_tag(node, tag.bytes())
            && has_features(cluster, node, features)
        {
            nodes.push(node)?;
        }
    }
    Ok(nodes)
}

// The text of a set of these nodes by name.
fn names_text(alloc: Global, cluster: &Cluster, nodes: &NodeSet) -> Result<String, AllocError> {
    let mut text = String::from_str(alloc, "{")?;
    for (place, node) in nodes.as_slice().iter().enumerate() {
        if *node < cluster.count() {
            if place != 0 {
                text.push_str(",")?;
            }
            text.push_str(cluster.name_of(*node).text())?;
        }
    }
    text.push_str("}")?;
    Ok(text)
}

// The text of a set by tags.
fn tags_text(alloc: Global, tag: &Name, features: &Features<'_>) -> Result<String, AllocError> {
    let mut text = String::from_str(alloc, tag.text())?;
    for feature in &features.tags {
        if let Ok(feature) = str::from_utf8(feature) {
            text.push_str("&")?;
            text.push_str(feature)?;
        }
    }
    Ok(text)
}

/// The nodes of a kind, or why a job that asks for them is left out.
pub(crate) fn shape_of(
    alloc: Global,
    cluster: &Cluster,
    kind: Kind<'_>,
) -> Result<Result<Shape, Cause>, AllocError> {
    let Some(tag) = partition_tag(alloc, partition_name(kind.partition))? else {
        return Ok(Err(Cause::NoNodes));
    };
    let Some(features) = features_in(alloc, kind.features)? else {
        return Ok(Err(Cause::Constraint));
    };
    let Some(open) = by_hosts(alloc, cluster, kind)? else {
        return Ok(Err(Cause::Unreadable));
    };
    let nodes = nodes_of(alloc, cluster, &tag, &features, &open)?;
    if nodes.as_slice().is_empty() {
        return Ok(Err(Cause::NoNodes));
    }
    let by_tags = features.all && is_nothing(kind.wanted) && is_nothing(kind.barred);
    let text = if by_tags {
        tags_text(alloc, &tag, &features)?
    } else {
        names_text(alloc, cluster, &nodes)?
    };
    Ok(Ok(Shape { text, nodes }))
}

/// What tells two kinds apart, as one text.
pub(crate) fn key_of(alloc: Global, kind: Kind<'_>) -> Result<Vec<u8>, AllocError> {
    let mut key = Vec::from_slice(alloc, before(b',', kind.partition))?;
    key.push(b'\t')?;
    key.extend_from_slice(kind.features)?;
    key.push(b'\t')?;
    key.extend_from_slice(kind.wanted)?;
    key.push(b'\t')?;
    key.extend_from_slice(kind.barred)?;
    Ok(key)
}
