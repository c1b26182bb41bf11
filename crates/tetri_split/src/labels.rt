// Nodes with labels, joined by the sets that jobs may use.
ghost use Rattle.std.specs.Prelude.{◌≡◌, ℕ, ◌<◌, ◌==◌, ◌++◌, ◌∷◌, List, [], false, None, Option, Some, All, Contains, length, map, slice_index, slice_index_or, if◌then◌else◌, IfOk, OnOk};
ghost use Rattle.std.specs.List.{filter, range_with_len};
ghost use Rattle.std.specs.List.Sorted.{IsStrictlyIncreasing};
ghost use Rattle.tetri_strl.specs.Prune.{starts_in};
ghost use Rattle.tetri_strl.specs.Tree.{leaves, tree};
ghost use Rattle.tetri_space.specs.Sound.{IsSound};
ghost use Rattle.tetri_space.specs.Space.{space};
ghost use Rattle.tetri_split.specs.Labels.{AreJoined, AreKeysOf, AreMarked, AreMerged, HaveOneLabel, IsOneOf, LabelsLink, label_of, nodes_in, nodes_by_bid};

use std::alloc::{AllocError, Global};
use tetri_cluster::Sets;
use tetri_space::Instance;
use tetri_strl::Expr;

// A label, or the kept one in place of the lost one.
fn renamed(label: u32, lost: u32, kept: u32) -> u32
    ensures { result ≡ (if label == lost then kept else label) }
{
    if label == lost { kept } else { label }
}

// Writes one label in place of another.
fn rename(labels: &mut [u32], lost: u32, kept: u32)
    ensures { labels.new ≡ map (λ x. if x == lost then kept else x) labels.old }
{
    for label in labels.iter_mut() {
        *label = renamed(*label, lost, kept);
    }
}

// Gives the label of the first node to all nodes that have the label of the second.
fn merge(labels: &mut [u32], first: u32, second: u32)
    requires first { first < length labels.old }
    requires second { second < length labels.old }
    ensures { AreMerged labels.old first second labels.new }
{
    let kept = labels[first as usize];
    let lost = labels[second as usize];
    if kept != lost {
        rename(labels, lost, kept);
    }
}

// Gives one label to these nodes, and to all that had the label of one of them.
fn join_nodes(labels: &mut [u32], nodes: &[u32])
    requires { All (λ n. n < length labels.old) nodes.now }
    ensures joined { AreJoined nodes.now labels.old labels.new }
    ensures one_label { HaveOneLabel labels.new nodes.now }
{
    for node in nodes {
        merge(labels, nodes[0], *node);
    }
}

// Joins the nodes of a set, unless it is marked, and marks it.
fn join_set(labels: &mut [u32], marks: &mut [bool], sets: &Sets, set: u32)
    requires known { set < length sets.now }
    requires count { length marks.old ≡ length sets.now }
    requires there { All (λ n. n < length labels.old) (slice_index_or sets.now set []) }
    requires marked { AreMarked sets.now marks.old labels.old }
    ensures joined { AreJoined (slice_index_or sets.now set []) labels.old labels.new }
    ensures one_label { HaveOneLabel labels.new (slice_index_or sets.now set []) }
    ensures marked { AreMarked sets.now marks.new labels.new }
{
    if !marks[set as usize] {
        join_nodes(labels, sets.nodes_of(set).as_slice());
        marks[set as usize] = true;
    }
}

// Joins a node with a further one, if there is one, and tells one of them.
fn join_node(labels: &mut [u32], earlier: Option<u32>, node: u32) -> u32
    requires earlier { (n : ℕ) → earlier ≡ Some n → n < length labels.old }
    requires node { node < length labels.old }
    ensures joined { (r : List ℕ) → ((n : ℕ) → earlier ≡ Some n → Contains r n) → Contains r node → AreJoined r labels.old labels.new }
    ensures node { (earlier ≡ None → result ≡ node) }
    ensures earlier { (n : ℕ) → earlier ≡ Some n → (result ≡ n) × (slice_index labels.new n ≡ slice_index labels.new node) }
{
    match earlier {
        Some(first) => {
            merge(labels, first, node);
            first
        }
        None => node,
    }
}

// Gives one label to the nodes of these sets, and tells one of them. A marked set's nodes have one label already, and
// the other sets are marked.
fn join_sets(labels: &mut [u32], marks: &mut [bool], sets: &Sets, numbers: &[u32]) -> Option<u32>
    requires known { All (λ k. k < length sets.now) numbers.now }
    requires count { length marks.old ≡ length sets.now }
    requires there { All (λ k. All (λ n. n < length labels.old) (slice_index_or sets.now k [])) numbers.now }
    requires marked { AreMarked sets.now marks.old labels.old }
    ensures node { IsOneOf (nodes_in sets.now numbers.now) result }
    ensures joined { AreJoined (nodes_in sets.now numbers.now) labels.old labels.new }
    ensures one_label { HaveOneLabel labels.new (nodes_in sets.now numbers.now) }
    ensures marked { AreMarked sets.now marks.new labels.new }
{
    let mut joined: Option<u32> = None;
    for set in numbers {
        join_set(labels, marks, sets, *set);
        let nodes = sets.nodes_of(*set).as_slice();
        if !nodes.is_empty() {
            joined = Some(join_node(labels, joined, nodes[0]));
        }
    }
    joined
}

// Puts the sets of the leaves that start in the range last in a list.
fn push_sets(e: &Expr, from: u32, to: u32, numbers: &mut Vec<u32>) -> Result<(), AllocError>
    ensures { OnOk result (numbers.new.items ≡ numbers.old.items ++ map (λ l. l.set) (filter (starts_in from to) (leaves (tree e.now)))) }
{
    match e {
        Expr::One(leaf) => {
            if from <= leaf.start && leaf.start < to {
                numbers.push(leaf.set)?;
            }
        }
        Expr::Max(parts) | Expr::Min(parts) | Expr::Sum(parts) => {
            for part in parts {
                push_sets(part, from, to, numbers)?;
            }
        }
        Expr::Scale(part, _) | Expr::Barrier(part, _) => push_sets(part, from, to, numbers)?,
    }
    Ok(())
}

// Joins the nodes that each job may use, and tells one of them for each. Of each set, a mark tells whether it is joined.
fn join_jobs(
    alloc: Global,
    inst: &Instance,
    labels: &mut [u32],
    marks: &mut [bool],
) -> Result<Vec<Option<u32>>, AllocError>
    requires sound { IsSound (space inst.now) }
    requires count { length labels.old ≡ inst.now.nodes }
    requires marks { length marks.old ≡ length (space inst.now).sets }
    requires marked { AreMarked (space inst.now).sets marks.old labels.old }
    ensures count { IfOk result (λ nodes. length nodes.items ≡ length (space inst.entry.now).bids) }
    ensures node { IfOk result (λ nodes. (i : ℕ) → i < length (space inst.entry.now).bids
        → IsOneOf (slice_index_or (nodes_by_bid (space inst.entry.now)) i []) (slice_index_or nodes.items i None)) }
    ensures one_label { OnOk result (All (HaveOneLabel labels.new) (nodes_by_bid (space inst.entry.now))) }
    ensures links { OnOk result (LabelsLink (nodes_by_bid (space inst.entry.now)) labels.old → LabelsLink (nodes_by_bid (space inst.entry.now)) labels.new) }
    ensures small { OnOk result ((b : ℕ) → All (λ x. x < b) labels.old → All (λ x. x < b) labels.new) }
{
    let mut nodes = Vec::new(alloc);
    let mut numbers = Vec::new(alloc);
    for offer in &inst.jobs {
        numbers.clear();
        push_sets(&offer.expr, inst.now, inst.now + inst.window, &mut numbers)?;
        nodes.push(join_sets(labels, marks, &inst.sets, &numbers))?;
    }
    Ok(nodes)
}

// The label of a node that is there.
fn label_of(labels: &[u32], node: Option<u32>) -> Option<u32>
    requires { (n : ℕ) → node ≡ Some n → n < length labels.now }
    ensures { result ≡ label_of labels.now node }
{
    match node {
        Some(n) => Some(labels[n as usize]),
        None => None,
    }
}

// The labels of these nodes.
fn labels_of(
    alloc: Global,
    labels: &[u32],
    nodes: &[Option<u32>],
) -> Result<Vec<Option<u32>>, AllocError>
    requires { (i n : ℕ) → i < length nodes.now → slice_index_or nodes.now i None ≡ Some n → n < length labels.now }
    ensures { IfOk result (λ keys. keys.items ≡ map (label_of labels.now) nodes.now) }
{
    let mut keys = Vec::new(alloc);
    for node in nodes {
        keys.push(label_of(labels, *node))?;
    }
    Ok(keys)
}

// The keys of the jobs, over labels of which each node has its own, and marks of which none is set.
fn keys_over(
    alloc: Global,
    inst: &Instance,
    labels: &mut [u32],
    marks: &mut [bool],
) -> Result<Vec<Option<u32>>, AllocError>
    requires sound { IsSound (space inst.now) }
    requires labels { labels.old ≡ range_with_len 0 inst.now.nodes }
    requires marks { length marks.old ≡ length (space inst.now).sets }
    requires unmarked { (k : ℕ) → slice_index_or marks.old k false ≡ false }
    ensures { IfOk result (λ keys. AreKeysOf (space inst.entry.now) keys.items) }
{
    let nodes = join_jobs(alloc, inst, labels, marks)?;
    let keys = labels_of(alloc, labels, &nodes)?;
    Ok(keys)
}

// Labels of which each node has its own.
fn own_labels(alloc: Global, count: u32) -> Result<Vec<u32>, AllocError>
    ensures { IfOk result (λ labels. labels.items ≡ range_with_len 0 count) }
{
    let mut labels = Vec::with_capacity(alloc, count as usize)?;
    for node in 0..count {
        labels.push(node)?;
    }
    Ok(labels)
}

// By job, the label of a node that it may use, once the nodes of each job have one label.
pub fn keys_of(alloc: Global, inst: &Instance) -> Result<Vec<Option<u32>>, AllocError>
    requires { IsSound (space inst.now) }
    ensures { IfOk result (λ keys. AreKeysOf (space inst.entry.now) keys.items) }
{
    let mut labels = own_labels(alloc, inst.nodes)?;
    let mut marks = vec![in alloc; false; inst.sets.len() as usize]?;
    let keys = keys_over(alloc, inst, &mut labels, &mut marks)?;
    Ok(keys)
}
