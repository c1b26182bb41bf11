// Names, tables of names, and nodes.
use crate::texts::clusters::cluster_of;
use std::alloc::{AllocError, Global};
use tetri_cluster::{Cluster, Name, NameFault, NameList, NameTable, NodeText, is_name};
use tetri_tables::{Given, Tally, debug_text, expand, expand_text, halves};

// What is read of bytes that are said to be a name, or not to be one.
fn read_told(alloc: Global, word: &str, bytes: &[u8]) -> Result<String, AllocError> {
    match Name::read(alloc, bytes) {
        Ok(name) => name_told(alloc, word, &name, bytes),
        Err(NameFault::NotName) => format!(in alloc; "{word} refused"),
        Err(_) => String::from_str(alloc, "no memory"),
    }
}

fn name_told(alloc: Global, word: &str, name: &Name, bytes: &[u8]) -> Result<String, AllocError> {
    if name.bytes() != bytes {
        return String::from_str(alloc, "another name");
    }
    format!(in alloc; "{word} {}", name.text())
}

// Whether bytes are a name, and what is read of them.
fn told(alloc: Global, bytes: &[u8]) -> Result<String, AllocError> {
    let word = if is_name(bytes) { "name" } else { "none" };
    read_told(alloc, word, bytes)
}

/// Rows `TEXT => TOLD`: whether a text is a name, and the name that is read of it.
pub fn names(alloc: Global, tally: &mut Tally, body: &str) -> Result<(), AllocError> {
    for row in body.lines() {
        let (text, wanted) = halves(row);
        let bytes = expand(alloc, text)?;
        let found = told(alloc, &bytes)?;
        tally.expect(row, found.as_str(), wanted)?;
    }
    Ok(())
}

fn added_told(alloc: Global, names: &mut NameTable, name: &str) -> Result<String, AllocError> {
    let is_new = names.add(name.as_bytes())?;
    format!(in alloc; "{is_new}")
}

fn number_told(alloc: Global, names: &NameTable, name: &str) -> Result<String, AllocError> {
    let number = names.number(name.as_bytes());
    format!(in alloc; "{number:?}")
}

// The name of a number.
fn named_told(alloc: Global, names: &NameTable, number: &str) -> Result<String, AllocError> {
    let name = names.name(number.parse::<usize>().unwrap_or(0));
    let text = str::from_utf8(name.unwrap_or(b"none")).unwrap_or("not text");
    String::from_str(alloc, text)
}

fn row_told(alloc: Global, names: &mut NameTable, row: &str) -> Result<String, AllocError> {
    let (word, text) = row.split_once(' ').unwrap_or((row, ""));
    match word {
        "add" => added_told(alloc, names, text),
        "number" => number_told(alloc, names, text),
        "name" => named_told(alloc, names, text),
        "len" => format!(in alloc; "{}", names.len()),
        _ => String::from_str(alloc, "no such word"),
    }
}

/// Rows over one table of names: `add NAME => IS NEW`, `number NAME => NUMBER`, `name NUMBER => NAME` and `len => COUNT`.
pub fn numbered_names(alloc: Global, tally: &mut Tally, body: &str) -> Result<(), AllocError> {
    let mut names = NameTable::new(alloc);
    for row in body.lines() {
        let (what, wanted) = halves(row);
        let found = row_told(alloc, &mut names, what)?;
        tally.expect(row, found.as_str(), wanted)?;
    }
    Ok(())
}

// What is told of the node of a number.
fn node_told(
    alloc: Global,
    cluster: &Cluster,
    word: &str,
    text: &str,
) -> Result<String, AllocError> {
    let (number, tag) = text.split_once(' ').unwrap_or((text, ""));
    let number = number.parse::<u32>().unwrap_or(0);
    if cluster.count() <= number {
        return String::from_str(alloc, "no such node");
    }
    match word {
        "name" => String::from_str(alloc, cluster.name_of(number).text()),
        "has" => format!(in alloc; "{}", cluster.has_tag(number, tag.as_bytes())),
        _ => String::from_str(alloc, "no such word"),
    }
}

fn cluster_told(alloc: Global, cluster: &Cluster, row: &str) -> Result<String, AllocError> {
    let (word, text) = row.split_once(' ').unwrap_or((row, ""));
    match word {
        "count" => format!(in alloc; "{}", cluster.count()),
        "node" => format!(in alloc; "{:?}", cluster.node(text.as_bytes())),
        "tag" => format!(in alloc; "{}", cluster.knows_tag(text.as_bytes())),
        _ => node_told(alloc, cluster, word, text),
    }
}

fn expect_nodes(
    alloc: Global,
    tally: &mut Tally,
    cluster: &Cluster,
    body: &str,
) -> Result<(), AllocError> {
    for row in body.lines() {
        let (what, wanted) = halves(row);
        let found = cluster_told(alloc, cluster, what)?;
        tally.expect(row, found.as_str(), wanted)?;
    }
    Ok(())
}

/// Rows over the nodes of the trace: `count`, `node NAME`, `tag TAG`, `name NUMBER` and `has NUMBER TAG`, each with what it
/// answers.
pub fn nodes(
    alloc: Global,
    given: &Given,
    tally: &mut Tally,
    body: &str,
) -> Result<(), AllocError> {
    match cluster_of(alloc, given, tally)? {
        Some(cluster) => expect_nodes(alloc, tally, &cluster, body),
        None => Ok(()),
    }
}

// A node of this name without tags, where it is a name.
fn node_in(alloc: Global, name: &[u8]) -> Option<NodeText> {
    match Name::read(alloc, name) {
        Ok(name) => Some(NodeText {
            name,
            tags: NameList::new(alloc),
        }),
        Err(_) => None,
    }
}

fn nodes_in(alloc: Global, names: &str) -> Result<Vec<NodeText>, AllocError> {
    let mut nodes = Vec::new(alloc);
    for name in names.split(' ') {
        if let Some(node) = node_in(alloc, name.as_bytes()) {
            nodes.push(node)?;
        }
    }
    Ok(nodes)
}

fn built_told(alloc: Global, nodes: Vec<NodeText>) -> Result<String, AllocError> {
    match Cluster::build(alloc, nodes) {
        Ok(cluster) => format!(in alloc; "{}", cluster.count()),
        Err(fault) => debug_text(alloc, &fault),
    }
}

/// Rows `NAMES => FAULT`: what building a cluster of nodes with these names answers.
pub fn refused_nodes(alloc: Global, tally: &mut Tally, body: &str) -> Result<(), AllocError> {
    for row in body.lines() {
        let (names, wanted) = halves(row);
        let names = expand_text(alloc, names)?;
        let found = built_told(alloc, nodes_in(alloc, names.as_str())?)?;
        tally.expect(row, found.as_str(), wanted)?;
    }
    Ok(())
}
