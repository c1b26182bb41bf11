// The texts that named sets, so that one that comes again is looked up.
ghost use Rattle.std.specs.Prelude.{◌≡◌, ◌<◌, ℕ, List, length, take, IfOk, IfErr, IfSome, OnErr};
ghost use Rattle.tetri_cluster.specs.declared.cluster.NodeText.{NodeText};
ghost use Rattle.tetri_parse.specs.Answers.{Gives};
ghost use Rattle.tetri_parse.specs.Reader.{NamesSet, IsTrueIndex};
ghost use Rattle.tetri_parse.specs.Settling.{settled_set};
ghost use Rattle.tetri_parse.specs.SetText.{nodes_in, IsNodeSet};

use crate::fault::{Fault, Miss, Stop};
use crate::set_text::set_nodes;
use indexmap::IndexMap;
use std::alloc::Global;
use tetri_cluster::{Cluster, NodeSet, Sets, SetsFault};

// As many texts as there may be sets: where each set has one text, each text is noted.
const MOST_NOTED: usize = 4096;

/// The numbers of sets by texts that named them.
pub(crate) type NotedTexts = IndexMap<Vec<u8>, u32>;

/// The number of the set that a text names, a new one last. A text that was noted is looked up.
pub(crate) fn set_named(
    alloc: Global,
    left: usize,
    text: &[u8],
    cluster: &Cluster,
    sets: &mut Sets,
    noted: &mut NotedTexts,
) -> Result<u32, Stop>
    requires { IsTrueIndex cluster.now sets.old noted.old.entries }
    ensures value { Gives (λ n. (n, sets.new)) result
        (settled_set left (nodes_in cluster.entry.now text.now) sets.old) }
    ensures err { OnErr result (sets.new ≡ sets.old) }
    ensures kept { take (length sets.old) sets.new ≡ sets.old }
    ensures number { IfOk result (λ n. n < length sets.new) }
    ensures noted { IsTrueIndex cluster.entry.now sets.new noted.new.entries }
{
    match noted.get(text).copied() {
        Some(set) => Ok(set),
        None => add_named(alloc, left, text, cluster, sets, noted),
    }
}

// The number of the set that a text names, which is noted.
fn add_named(
    alloc: Global,
    left: usize,
    text: &[u8],
    cluster: &Cluster,
    sets: &mut Sets,
    noted: &mut NotedTexts,
) -> Result<u32, Stop>
    requires { IsTrueIndex cluster.now sets.old noted.old.entries }
    ensures value { Gives (λ n. (n, sets.new)) result
        (settled_set left (nodes_in cluster.entry.now text.now) sets.old) }
    ensures err { OnErr result (sets.new ≡ sets.old) }
    ensures kept { take (length sets.old) sets.new ≡ sets.old }
    ensures number { IfOk result (λ n. n < length sets.new) }
    ensures noted { IsTrueIndex cluster.entry.now sets.new noted.new.entries }
{
    let Some(nodes) = named_nodes(alloc, cluster, text)? else {
        return Err(Stop::Missed(Miss {
            fault: Fault::UnknownSet,
            left,
        }));
    };
    match sets.find_or_add(nodes) {
        Ok(set) => {
            note(alloc, text, set, noted);
            Ok(set)
        }
        Err(SetsFault::Full) => Err(Stop::Missed(Miss {
            fault: Fault::TooManySets,
            left,
        })),
        Err(SetsFault::NoMemory) => Err(Stop::NoMemory),
    }
}

// Notes the number of a text's set. A text that comes when there is no memory, or when enough are noted, is read
// anew when it comes again.
fn note(alloc: Global, text: &[u8], set: u32, noted: &mut NotedTexts)
    ensures { (nodes : List NodeText) (sets : List (List ℕ)) → NamesSet nodes sets text.now set
        → IsTrueIndex nodes sets noted.old.entries → IsTrueIndex nodes sets noted.new.entries }
{
    if noted.len() >= MOST_NOTED {
        return;
    }
    if let Ok(text) = Vec::from_slice(alloc, text) {
        let _ = noted.insert(text, set);
    }
}

// The nodes that a text names, none where it names what the cluster has not.
#[tactic(auto, unfolding(crate::specs::SetText::nodes_in))]
fn named_nodes(alloc: Global, cluster: &Cluster, text: &[u8]) -> Result<Option<NodeSet>, Stop>
    ensures value { IfOk result (λ o. o ≡ nodes_in cluster.now text.now) }
    ensures memory { IfErr result (λ e. e ≡ Stop.NoMemory) }
    ensures good { IfOk result (λ o. IfSome o (IsNodeSet (length cluster.now))) }
{
    match set_nodes(alloc, cluster, text) {
        Ok((nodes, _)) => Ok(nodes),
        Err(Stop::Missed(_)) => Ok(None),
        Err(Stop::NoMemory) => Err(Stop::NoMemory),
    }
}
