// What is kept from one text over the nodes of a cluster to the next.
ghost use Rattle.std.specs.Prelude.{◌≡◌, ◌<◌, ◌≤◌, ◌+◌, All, [], length, take, map, None, IfOk, OnErr};
ghost use Rattle.std.specs.List.{range_with_len};
ghost use Rattle.tetri_strl.specs.Aligned.{EachLeaf};
ghost use Rattle.tetri_strl.specs.Tree.{tree, numbers, leaves};
ghost use Rattle.tetri_strl.specs.WellMade.{IsWellMade};
ghost use Rattle.tetri_parse.specs.Ascending.{LeastFault};
ghost use Rattle.tetri_parse.specs.Answers.{Answers};
ghost use Rattle.tetri_parse.specs.Expression.{expression, node_set};
ghost use Rattle.tetri_parse.specs.Faults.{first_fault, AnswersFault};
ghost use Rattle.tetri_parse.specs.TextTree.{IsTextTree};
ghost use Rattle.tetri_cluster.specs.Sets.{HaveNodesBelow};

use crate::fault::ParseFault;
use crate::naming::NotedTexts;
use crate::read::{read_noting_expr, read_noting_set};
use crate::settling::Terms;
use indexmap::IndexMap;
use std::alloc::Global;
use std::marker::Model;
use tetri_cluster::{Cluster, Sets};
use tetri_strl::Expr;

/// A cluster, the sets that texts over it have named so far, and the numbers of the sets by their texts, so
/// that a text that comes again is looked up.
#[derive(Drop)]
pub struct ClusterReader {
    cluster: Cluster,
    sets: Sets,
    noted: NotedTexts,
}

impl Model for ClusterReader {
    ghost use Rattle.tetri_parse.specs.Reader.{NamedSets, IsTrueIndex};

    ghost Value = { NamedSets };

    ghost view = { λ r. record { nodes = r.cluster; sets = r.sets } };

    ghost invariant = { λ r. IsTrueIndex r.cluster r.sets r.noted.entries };
}

impl ClusterReader {
    /// A reader of texts over the nodes of this cluster, which have named no set so far.
    pub fn new(alloc: Global, cluster: Cluster) -> ClusterReader
        ensures { result ≡ record { nodes = cluster; sets = [] } }
    {
        ClusterReader {
            cluster,
            sets: Sets::new(alloc),
            noted: IndexMap::new(alloc),
        }
    }

    /// The cluster.
    pub fn cluster(&self) -> &Cluster
        ensures { result.now ≡ self.now.nodes }
    {
        &self.cluster
    }

    /// The sets that texts have named.
    pub fn sets(&self) -> &Sets
        ensures { result.now ≡ self.now.sets }
    {
        &self.sets
    }

    /// The cluster and the sets.
    pub fn into_parts(self) -> (Cluster, Sets)
        ensures { result ≡ (self.nodes, self.sets) }
    {
        (self.cluster, self.sets)
    }

    /// The expression that a text says. Its values are multiplied by the unit, its slots are counted
    /// from the arrival on, its leaves are numbered from 0 in the order of the text, and its sets are
    /// numbered among those of the reader, where new ones come last. `At` comes exactly with the first fault
    /// of the text: of those behind the grammar that of least offset, at one offset that of least number. Any
    /// refusal leaves the sets as they were.
    pub fn read_expr(
        &mut self,
        alloc: Global,
        text: &[u8],
        unit: u64,
        arrival: u32,
    ) -> Result<Expr, ParseFault>
        requires unit { (1 ≤ unit) × (unit ≤ 1000000) }
        requires arrival { arrival ≤ 10000 }
        ensures value { Answers (λ e. (tree e, self.new.sets)) result (expression text.entry.now unit arrival self.old.nodes self.old.sets) }
        ensures first { AnswersFault text.entry.now (first_fault text.entry.now unit self.old.nodes self.old.sets) result }
        ensures least { LeastFault text.entry.now unit self.old.nodes self.old.sets result }
        ensures nodes { self.new.nodes ≡ self.old.nodes }
        ensures refused { OnErr result (self.new.sets ≡ self.old.sets) }
        ensures kept { take (length self.old.sets) self.new.sets ≡ self.old.sets }
        ensures well_made { IfOk result (λ e. IsWellMade (tree e)) }
        ensures starts { IfOk result (λ e. EachLeaf (λ l. (arrival ≤ l.start) × (l.start ≤ arrival + 10000)) (tree e)) }
        ensures numbered { IfOk result (λ e. numbers (tree e) ≡ range_with_len 0 (length (leaves (tree e)))) }
        ensures known { IfOk result (λ e. EachLeaf (λ l. l.set < length self.new.sets) (tree e)) }
        ensures text_tree { IfOk result (λ e. IsTextTree arrival (length self.new.sets) (tree e)) }
        ensures within { HaveNodesBelow (length self.old.nodes) self.old.sets → HaveNodesBelow (length self.old.nodes) self.new.sets }
    {
        read_noting_expr(
            alloc,
            text,
            Terms { unit, arrival },
            &self.cluster,
            &mut self.sets,
            &mut self.noted,
        )
    }

    /// The number of the set that a text says, a new one last. `At` comes exactly with the first fault of
    /// the text; any refusal leaves the sets as they were.
    pub fn read_set(&mut self, alloc: Global, text: &[u8]) -> Result<u32, ParseFault>
        ensures value { Answers (λ n. (n, self.new.sets)) result (node_set text.entry.now self.old.nodes self.old.sets) }
        ensures nodes { self.new.nodes ≡ self.old.nodes }
        ensures refused { OnErr result (self.new.sets ≡ self.old.sets) }
        ensures kept { take (length self.old.sets) self.new.sets ≡ self.old.sets }
        ensures number { IfOk result (λ n. n < length self.new.sets) }
        ensures within { HaveNodesBelow (length self.old.nodes) self.old.sets → HaveNodesBelow (length self.old.nodes) self.new.sets }
    {
        read_noting_set(alloc, text, &self.cluster, &mut self.sets, &mut self.noted)
    }
}
