// All nodes that lines tell of.
ghost use Rattle.std.specs.Prelude.{◌≡◌, ◌<◌, IfOk, OnOk, length};
ghost use Rattle.std.specs.Prelude.{false};
ghost use Rattle.tetri_cluster.specs.Cluster.{names_of};
ghost use Rattle.tetri_cluster.specs.Names.{is_among};
ghost use Rattle.tetri_io.specs.Words.{parts_at};
ghost use Rattle.tetri_hosts.specs.Nodes.{no_nodes, nodes_in, told, with_fate, with_line, with_merged, with_new, with_tags, with_told};

use crate::node::{NodeLine, add_tag, read_node_line};
use crate::state::{NodeState, stricter};
use std::alloc::{AllocError, Global};
use std::marker::Model;
use tetri_cluster::{NameList, NameTable, NodeText};
use tetri_io::parts_at;

/// What a line of such a text is.
#[derive(Clone, Copy, Debug, PartialEq, Eq)]
pub enum NodeFate {
    /// It tells of a node.
    Node,
    /// It is empty.
    Blank,
    /// It is none of these.
    Unread,
}

/// The nodes that lines tell of, each once, in the order of their first lines, with their states; and what each line is.
#[derive(Drop)]
pub struct Nodes {
    /// Each with the tags of all its lines.
    pub nodes: Vec<NodeText>,
    /// For each node the strictest state of its lines.
    pub states: Vec<NodeState>,
    /// For each line, and for what stands behind the last line feed.
    pub fates: Vec<NodeFate>,
}

// The nodes so far, with an index of their names.
#[derive(Drop)]
struct Gathered {
    nodes: Vec<NodeText>,
    states: Vec<NodeState>,
    fates: Vec<NodeFate>,
    names: NameTable,
}

impl Model for Gathered {
    ghost use Rattle.std.specs.Prelude.{◌≡◌, length};
    ghost use Rattle.tetri_cluster.specs.Cluster.{names_of};
    ghost use Rattle.tetri_hosts.specs.Nodes.{Told};

    ghost Value = { Told };

    ghost view = { λ g. record { nodes = g.nodes.items; states = g.states.items; fates = g.fates.items } };

    ghost invariant = { λ g. (g.names ≡ names_of g.nodes.items) × (length g.states.items ≡ length g.nodes.items) };
}

// Puts tags behind those of a node, unless they are there.
fn add_tags(alloc: Global, tags: &mut NameList, others: &NameList) -> Result<(), AllocError>
    ensures { OnOk result (tags.new ≡ with_tags tags.old others.now) }
{
    for other in others.as_slice() {
        add_tag(alloc, tags, other.bytes())?;
    }
    Ok(())
}

impl Gathered {
    fn new(alloc: Global) -> Gathered
        ensures { result ≡ no_nodes }
    {
        Gathered {
            nodes: Vec::new(alloc),
            states: Vec::new(alloc),
            fates: Vec::new(alloc),
            names: NameTable::new(alloc),
        }
    }

    // A node that no earlier line tells of. Without memory nothing is kept.
    fn add_new(&mut self, alloc: Global, line: NodeLine) -> Result<(), AllocError>
        requires { is_among line.name (names_of self.old.nodes) ≡ false }
        ensures { OnOk result (self.new ≡ with_new self.old line) }
    {
        let NodeLine { name, state, tags } = line;
        self.names.add(name.bytes())?;
        let room = self.nodes.push(NodeText { name, tags }).is_ok()
            && self.states.push(state).is_ok();
        if !room {
            self.names = NameTable::new(alloc);
            self.nodes = Vec::new(alloc);
            self.states = Vec::new(alloc);
            return Err(AllocError);
        }
        Ok(())
    }

    // What a line tells of a node that is there.
    fn merge(&mut self, alloc: Global, place: usize, line: &NodeLine) -> Result<(), AllocError>
        requires { place < length self.old.nodes }
        ensures { OnOk result (self.new ≡ with_merged self.old place line.now) }
    {
        let node = &mut self.nodes[place];
        add_tags(alloc, &mut node.tags, &line.tags)?;
        self.states[place] = stricter(self.states[place], line.state);
        Ok(())
    }

    // What a line tells of a node.
    fn add_told(&mut self, alloc: Global, line: NodeLine) -> Result<(), AllocError>
        ensures { OnOk result (self.new ≡ with_told self.old line) }
    {
        match self.names.number(line.name.bytes()) {
            Some(place) => self.merge(alloc, place, &line),
            None => self.add_new(alloc, line),
        }
    }

    // What a line is.
    fn add_fate(&mut self, fate: NodeFate) -> Result<(), AllocError>
        ensures { OnOk result (self.new ≡ with_fate self.old fate) }
    {
        self.fates.push(fate)?;
        Ok(())
    }

    // One line more.
    fn add_line(&mut self, alloc: Global, line: &[u8]) -> Result<(), AllocError>
        ensures { OnOk result (self.new ≡ with_line self.old line.now) }
    {
        if line.is_empty() {
            return self.add_fate(NodeFate::Blank);
        }
        match read_node_line(alloc, line)? {
            Some(told) => {
                self.add_fate(NodeFate::Node)?;
                self.add_told(alloc, told)
            }
            None => self.add_fate(NodeFate::Unread),
        }
    }
}

// The nodes that the lines of a text tell of.
fn gather_nodes(alloc: Global, text: &[u8]) -> Result<Nodes, AllocError>
    ensures { IfOk result (λ nodes. told nodes ≡ nodes_in text.now) }
{
    let mut gathered = Gathered::new(alloc);
    let lines = parts_at(alloc, b'\n', text)?;
    for line in &lines {
        gathered.add_line(alloc, line)?;
    }
    let Gathered {
        nodes,
        states,
        fates,
        names: _,
    } = gathered;
    Ok(Nodes {
        nodes,
        states,
        fates,
    })
}

/// The nodes that the lines of a text tell of, as `sinfo -a -h -N -o '%N|%T|%P|%f'` prints them. Its only error is want of memory.
pub fn read_nodes(alloc: Global, text: &[u8]) -> Result<Nodes, AllocError>
    ensures told { IfOk result (λ nodes. told nodes ≡ nodes_in text.now) }
    ensures lines { IfOk result (λ nodes. length nodes.fates.items ≡ length (parts_at 10 text.now)) }
{
    let nodes = gather_nodes(alloc, text)?;
    Ok(nodes)
}
