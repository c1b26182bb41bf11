// Grants as texts: `JOB LEAF NODES`, with `; ` between them, where NODES is `0,1,2` or `-`.
use std::alloc::{AllocError, Global};
use tetri_strl::{Allotment, Grant, NodeList};

fn number(text: &str) -> u32 {
    text.parse::<u32>().unwrap_or(0)
}

// Nodes with commas between them.
fn nodes_in(alloc: Global, text: &str) -> Result<NodeList, AllocError> {
    let mut nodes = NodeList::new(alloc);
    if text != "-" {
        for node in text.split(',') {
            nodes.push(number(node))?;
        }
    }
    Ok(nodes)
}

/// The grants that a text says; none where it is empty.
pub fn grants_in(alloc: Global, text: &str) -> Result<Allotment, AllocError> {
    let mut grants = Allotment::new(alloc);
    if text.is_empty() {
        return Ok(grants);
    }
    for grant in text.split("; ") {
        let (job, rest) = grant.split_once(' ').unwrap_or((grant, ""));
        let (leaf, nodes) = rest.split_once(' ').unwrap_or((rest, "-"));
        grants.push(Grant {
            job: number(job),
            leaf: number(leaf),
            nodes: nodes_in(alloc, nodes)?,
        })?;
    }
    Ok(grants)
}

/// The text of grants.
pub fn grants_told(alloc: Global, grants: &[Grant]) -> Result<String, AllocError> {
    let mut out = String::new(alloc);
    for (place, grant) in grants.iter().enumerate() {
        if place > 0 {
            out.push_str("; ")?;
        }
        write!(out, "{} {} ", grant.job, grant.leaf)?;
        nodes_told(&mut out, grant.nodes.as_slice())?;
    }
    Ok(out)
}

/// Adds nodes with commas between them.
pub fn nodes_told(out: &mut String, nodes: &[u32]) -> Result<(), AllocError> {
    for (place, node) in nodes.iter().enumerate() {
        if place > 0 {
            out.push_str(",")?;
        }
        write!(out, "{node}")?;
    }
    Ok(())
}
