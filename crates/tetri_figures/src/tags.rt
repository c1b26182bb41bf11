// The tags of the nodes of a trace.
use crate::header::header_object;
use std::alloc::{AllocError, Global};
use tetri_cluster::NodeText;
use tetri_io::Shelf;
use tetri_notice::{Stop, header_in};

// Whether a tag is one of these.
fn is_among(tags: &[String], tag: &str) -> bool {
    tags.iter().any(|t| t.as_str() == tag)
}

// The tags of nodes, each once, in the order in which they come.
fn tags_in(alloc: Global, nodes: &[NodeText]) -> Result<Vec<String>, AllocError> {
    let mut tags = Vec::new(alloc);
    for node in nodes {
        for tag in node.tags.as_slice() {
            let text = tag.text();
            if !is_among(&tags, text) {
                tags.push(String::from_str(alloc, text)?)?;
            }
        }
    }
    Ok(tags)
}

/// The tags of the nodes of a trace that a name holds and that was read before, each once, in the order in which its header brings them.
/// None where it cannot be read again. Its only error is want of memory.
pub fn tags_of<S: Shelf>(
    alloc: Global,
    shelf: &mut S,
    trace: &str,
) -> Result<Vec<String>, AllocError> {
    let Some(object) = header_object(alloc, shelf, trace)? else {
        return Ok(Vec::new(alloc));
    };
    match header_in(alloc, &object) {
        Ok(header) => tags_in(alloc, header.nodes.as_slice()),
        Err(Stop::NoMemory) => Err(AllocError),
        Err(Stop::Because(_)) => Ok(Vec::new(alloc)),
    }
}
