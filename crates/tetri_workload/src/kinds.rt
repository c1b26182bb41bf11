// Nodes that differ, and which of them are in a set.
ghost use Rattle.std.specs.Prelude.{◌≡◌, ◌↔◌, ◌<◌, ◌∷◌, [], IfOk, IfSome, IsTrue, OnOk, false, length, map, slice_index_or};
ghost use Rattle.tetri_cluster.specs.Names.{is_among};
ghost use Rattle.tetri_workload.specs.Kinds.{are_mixed, fitted, has_all, members, members_from, settled, settled_all, tags_in};

use std::alloc::{AllocError, Global};
use tetri_base::Items;
use tetri_cluster::{NameList, NameTable, NodeSet, NodeText};
use tetri_io::parts_at;
use tetri_logs::{Account, LoggedJob, Options};

// The nodes that a trace has at most.
const MOST_NODES: usize = 4096;

// As many sets as are looked through before one is looked up.
const FIRST_SETS: usize = 8;

/// The sets that were asked for, by their texts, and the nodes of each.
#[derive(Drop)]
pub(crate) struct Kinds {
    pub(crate) texts: NameTable,
    pub(crate) members: Items<NodeSet>,
}

/// Whether nodes differ: these are given.
pub(crate) fn are_mixed(nodes: &[NodeText]) -> bool
    ensures { result ≡ are_mixed nodes.now }
{
    !nodes.is_empty()
}

/// With as many nodes as are given, where these differ.
pub(crate) fn fitted(options: &Options, nodes: &[NodeText]) -> Options
    ensures { result ≡ fitted nodes.now options.now }
{
    if !are_mixed(nodes) {
        return *options;
    }
    Options {
        nodes: Some(nodes.len().min(MOST_NODES + 1) as u32),
        ..*options
    }
}

// The tags of a set's text.
fn tags_in(alloc: Global, set: &[u8]) -> Result<Vec<&[u8]>, AllocError>
    ensures { IfOk result (λ v. map (λ x. x.now) v.items ≡ tags_in set.now) }
{
    if set.is_empty() {
        return Ok(Vec::new(alloc));
    }
    parts_at(alloc, b'&', set)
}

fn has_tag(tags: &NameList, tag: &[u8]) -> bool
    ensures { result ≡ is_among tag.now tags.now }
{
    tags.as_slice().iter().any(|name| tag == name.bytes())
}

// Whether a node has each of these tags.
fn has_all(node: &NodeText, tags: &[&[u8]]) -> bool
    ensures { result ≡ has_all node.now (map (λ x. x.now) tags.now) }
{
    for tag in tags {
        if !has_tag(&node.tags, tag) {
            return false;
        }
    }
    true
}

// The nodes that have all of these tags.
fn members_with(alloc: Global, nodes: &[NodeText], tags: &[&[u8]]) -> Result<NodeSet, AllocError>
    ensures { IfOk result (λ set. set ≡ members_from 0 nodes.now (map (λ x. x.now) tags.now)) }
{
    let mut set = NodeSet::new(alloc);
    for (number, node) in nodes.iter().enumerate() {
        if number < MOST_NODES && has_all(node, tags) {
            set.push(number as u32)?;
        }
    }
    Ok(set)
}

// The nodes in a set.
fn members_of(alloc: Global, nodes: &[NodeText], set: &[u8]) -> Result<NodeSet, AllocError>
    ensures { IfOk result (λ found. found ≡ members nodes.now set.now) }
{
    let tags = tags_in(alloc, set)?;
    members_with(alloc, nodes, &tags)
}

pub(crate) fn is_same(one: &[u8], other: &[u8]) -> bool
    ensures { IsTrue result ↔ (one.now ≡ other.now) }
{
    one == other
}

impl Kinds {
    ghost use Rattle.tetri_workload.specs.Known.{AreKnown};

    /// No sets.
    pub(crate) fn new(alloc: Global) -> Kinds
        ensures empty { result.members ≡ [] }
        ensures texts { result.texts ≡ [] }
    {
        Kinds {
            texts: NameTable::new(alloc),
            members: Items::new(alloc),
        }
    }

    // A set that is new.
    fn add(&mut self, alloc: Global, nodes: &[NodeText], set: &[u8]) -> Result<(), AllocError>
        requires known { AreKnown nodes.now self.old }
        requires new { is_among set.now self.old.texts ≡ false }
        ensures known { OnOk result (AreKnown nodes.now self.new) }
        ensures last { OnOk result (slice_index_or self.new.members (length self.old.members) [] ≡ members nodes.now set.now) }
        ensures more { OnOk result (length self.old.members < length self.new.members) }
    {
        let members = members_of(alloc, nodes, set)?;
        let _new = self.texts.add(set)?;
        self.members.push(members)
    }

    // The number of a set, if it is one of the first.
    #[tactic(auto, using(std::proofs::lemmas::Option::get_or_from_slice_get))]
    fn first_number(&self, set: &[u8]) -> Option<usize>
        ensures within { IfSome result (λ n. n < length self.now.texts) }
        ensures text { IfSome result (λ n. slice_index_or self.now.texts n [] ≡ set.now) }
    {
        for number in 0..self.texts.len().min(FIRST_SETS) {
            match self.texts.name(number) {
                Some(text) if is_same(text, set) => return Some(number),
                _ => {}
            }
        }
        None
    }

    /// The number of a set, whose nodes are known then. Its only error is want of memory.
    #[tactic(auto, using(crate::proofs::KnownLemmas::known_at, crate::proofs::KnownLemmas::known_within, crate::proofs::KnownLemmas::known_there, crate::proofs::KnownLemmas::there_within))]
    pub(crate) fn number(
        &mut self,
        alloc: Global,
        nodes: &[NodeText],
        set: &[u8],
    ) -> Result<usize, AllocError>
        requires { AreKnown nodes.now self.old }
        ensures known { OnOk result (AreKnown nodes.now self.new) }
        ensures nodes { IfOk result (λ n. slice_index_or self.new.members n [] ≡ members nodes.now set.now) }
        ensures within { IfOk result (λ n. n < length self.new.members) }
    {
        if let Some(number) = self.first_number(set) {
            return Ok(number);
        }
        if let Some(number) = self.texts.number(set) {
            return Ok(number);
        }
        let number = self.members.as_slice().len();
        self.add(alloc, nodes, set)?;
        Ok(number)
    }

    /// The nodes of the set with a number.
    pub(crate) fn nodes_of(&self, number: usize) -> &NodeSet
        requires { number < length self.now.members }
        ensures { result.now ≡ slice_index_or self.now.members number [] }
    {
        &self.members.as_slice()[number]
    }

    // How many nodes are in a set.
    #[tactic(auto, using(crate::proofs::KnownLemmas::few_members))]
    fn room(&mut self, alloc: Global, nodes: &[NodeText], set: &[u8]) -> Result<u32, AllocError>
        requires { AreKnown nodes.now self.old }
        ensures known { OnOk result (AreKnown nodes.now self.new) }
        ensures room { IfOk result (λ room. room ≡ length (members nodes.now set.now)) }
    {
        let number = self.number(alloc, nodes, set)?;
        Ok(self.nodes_of(number).as_slice().len() as u32)
    }

    /// A job with how many nodes are in its set, where nodes differ. Its only error is want of memory.
    #[inline(always)]
    pub(crate) fn settle_one<'a>(
        &mut self,
        alloc: Global,
        nodes: &[NodeText],
        job: LoggedJob<'a>,
    ) -> Result<LoggedJob<'a>, AllocError>
        requires { AreKnown nodes.now self.old }
        ensures known { OnOk result (AreKnown nodes.now self.new) }
        ensures job { IfOk result (λ j. j ∷ [] ≡ settled_all nodes.now (job.entry ∷ [])) }
    {
        if !are_mixed(nodes) {
            return Ok(job);
        }
        let room = self.room(alloc, nodes, job.set.text().as_bytes())?;
        let account = Account {
            room: Some(room),
            ..job.account
        };
        Ok(LoggedJob { account, ..job })
    }

    // Each job with how many nodes are in its set.
    fn settle_each<'a>(
        &mut self,
        alloc: Global,
        nodes: &[NodeText],
        mut jobs: Vec<LoggedJob<'a>>,
    ) -> Result<Vec<LoggedJob<'a>>, AllocError>
        requires { AreKnown nodes.now self.old }
        ensures known { OnOk result (AreKnown nodes.now self.new) }
        ensures jobs { IfOk result (λ all. all.items ≡ map (settled nodes.now) jobs.entry.items) }
    {
        for i in 0..jobs.len() {
            let room = self.room(alloc, nodes, jobs[i].set.text().as_bytes())?;
            jobs[i].account.room = Some(room);
        }
        Ok(jobs)
    }

    /// Each job with how many nodes are in its set, where nodes differ. Its only error is want of memory.
    pub(crate) fn settle<'a>(
        &mut self,
        alloc: Global,
        nodes: &[NodeText],
        jobs: Vec<LoggedJob<'a>>,
    ) -> Result<Vec<LoggedJob<'a>>, AllocError>
        requires { AreKnown nodes.now self.old }
        ensures known { OnOk result (AreKnown nodes.now self.new) }
        ensures jobs { IfOk result (λ all. all.items ≡ settled_all nodes.now jobs.entry.items) }
    {
        if !are_mixed(nodes) {
            return Ok(jobs);
        }
        self.settle_each(alloc, nodes, jobs)
    }
}
