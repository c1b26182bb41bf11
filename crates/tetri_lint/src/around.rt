// A refused line and what stands before it.
use crate::keys::Place;
use crate::near::Nearest;
use crate::scan::{Key, keys_of};
use serde_json::Value;
use std::alloc::{AllocError, Global};
use tetri_cluster::{Cluster, ClusterFault, NodeText};
use tetri_io::is_blank;
use tetri_notice::{HeaderText, Stop, header_in, object_in};

/// A line, and the lines before it that are not blank.
#[derive(Drop)]
pub(crate) struct Around<'t> {
    pub(crate) line: &'t [u8],
    pub(crate) header: Option<&'t [u8]>,
    pub(crate) last: Option<&'t [u8]>,
    pub(crate) keys: Vec<Key>,
    pub(crate) object: Option<Value>,
}

fn is_blank_line(line: &[u8]) -> bool {
    line.iter().all(|b| is_blank(*b))
}

/// The object of a line, if it is one.
pub(crate) fn object_of(alloc: Global, line: &[u8]) -> Result<Option<Value>, AllocError> {
    match object_in(alloc, line) {
        Ok(object) => Ok(Some(object)),
        Err(Stop::NoMemory) => Err(AllocError),
        Err(Stop::Because(_)) => Ok(None),
    }
}

// The line of a number, counted from 1, none behind the last.
fn line_at(text: &[u8], number: u64) -> &[u8] {
    let mut count = 0u64;
    for line in text.split(|b| *b == b'\n') {
        count = count.saturating_add(1);
        if count == number {
            return line;
        }
    }
    &[]
}

// The first line before this one that is not blank.
fn first_before(text: &[u8], number: u64) -> Option<&[u8]> {
    let mut count = 0u64;
    for line in text.split(|b| *b == b'\n') {
        count = count.saturating_add(1);
        if count >= number {
            return None;
        }
        if !is_blank_line(line) {
            return Some(line);
        }
    }
    None
}

// The last line before this one that is not blank.
fn last_before(text: &[u8], number: u64) -> Option<&[u8]> {
    let mut count = 0u64;
    let mut last = None;
    for line in text.split(|b| *b == b'\n') {
        count = count.saturating_add(1);
        if count >= number {
            return last;
        }
        if !is_blank_line(line) {
            last = Some(line);
        }
    }
    last
}

/// A line of a text with what stands before it.
pub(crate) fn around_line(
    alloc: Global,
    text: &[u8],
    number: u64,
) -> Result<Around<'_>, AllocError> {
    let line = line_at(text, number);
    let header = first_before(text, number);
    let place = if header.is_none() {
        Place::Header
    } else {
        Place::Event
    };
    Ok(Around {
        line,
        header,
        last: last_before(text, number),
        keys: keys_of(alloc, line, place)?,
        object: object_of(alloc, line)?,
    })
}

/// The header that a line is, if it is one.
pub(crate) fn header_of(alloc: Global, line: &[u8]) -> Result<Option<HeaderText>, AllocError> {
    let Some(object) = object_of(alloc, line)? else {
        return Ok(None);
    };
    match header_in(alloc, &object) {
        Ok(header) => Ok(Some(header)),
        Err(Stop::NoMemory) => Err(AllocError),
        Err(Stop::Because(_)) => Ok(None),
    }
}

// The nodes of a header, if they make a cluster.
fn cluster_of(alloc: Global, header: HeaderText) -> Result<Option<Cluster>, AllocError> {
    match Cluster::build(alloc, header.nodes) {
        Ok(cluster) => Ok(Some(cluster)),
        Err(ClusterFault::NoMemory) => Err(AllocError),
        Err(_) => Ok(None),
    }
}

/// The cluster of the header that a line is, if it is one and its nodes make one.
pub(crate) fn cluster_in(alloc: Global, line: &[u8]) -> Result<Option<Cluster>, AllocError> {
    match header_of(alloc, line)? {
        Some(header) => cluster_of(alloc, header),
        None => Ok(None),
    }
}

// Offers the names of nodes.
fn offer_nodes(
    alloc: Global,
    nodes: &[NodeText],
    nearest: &mut Nearest<'_>,
) -> Result<(), AllocError> {
    for node in nodes {
        nearest.offer(alloc, node.name.text())?;
    }
    Ok(())
}

// Offers the tags of nodes.
fn offer_tags(
    alloc: Global,
    nodes: &[NodeText],
    nearest: &mut Nearest<'_>,
) -> Result<(), AllocError> {
    for node in nodes {
        for tag in node.tags.as_slice() {
            nearest.offer(alloc, tag.text())?;
        }
    }
    Ok(())
}

/// The nodes of a header that are nearest to a name.
pub(crate) fn near_nodes(
    alloc: Global,
    header: &[u8],
    name: &str,
) -> Result<Vec<String>, AllocError> {
    let mut nearest = Nearest::new(alloc, name);
    if let Some(header) = header_of(alloc, header)? {
        offer_nodes(alloc, &header.nodes, &mut nearest)?;
    }
    nearest.into_names(alloc)
}

/// The tags of a header that are nearest to a name.
pub(crate) fn near_tags(
    alloc: Global,
    header: &[u8],
    name: &str,
) -> Result<Vec<String>, AllocError> {
    let mut nearest = Nearest::new(alloc, name);
    if let Some(header) = header_of(alloc, header)? {
        offer_tags(alloc, &header.nodes, &mut nearest)?;
    }
    nearest.into_names(alloc)
}

/// What a key of an object holds, if it is text.
pub(crate) fn text_at<'v>(object: &'v Value, key: &str) -> Option<&'v str> {
    let value = object.get(key)?;
    value.as_str()
}
