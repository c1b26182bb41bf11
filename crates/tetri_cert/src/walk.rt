// The walk over a tree.

ghost use Rattle.std.specs.Prelude.{◌≡◌, ℕ, ◌<◌, ◌≤◌, ◌+◌, ◌-◌, ◌^◌, List, [], ◌∷◌, OnOk, OnErr, IfOk, map, not};
ghost use Rattle.tetri_ip.specs.Points.{IsFit, bounds_of};
ghost use Rattle.tetri_cert.specs.declared.marks.Mark.{Mark};
ghost use Rattle.tetri_cert.specs.Trees.{IsTreeAnswer, nodes_in, places_behind, tree_bound};

use crate::faults::{TreeFault, TreeWhy};
use crate::marks::Mark;
use crate::nodes::test_node;
use crate::turns::{Turn, turn_on};
use std::alloc::{AllocError, Global};
use tetri_ip::{Program, Region};

/// A walk over the marks of a tree, which is fed them in order. It keeps one region, what it needs to go back to the
/// regions that are still open, and a list to weigh in.
#[derive(Drop)]
pub struct Walk {
    region: Region,
    factors: Vec<i128>,
    trail: Vec<Turn>,
    live: bool,
    places: u64,
    extra: bool,
    node: u64,
    counted: u64,
    most: u64,
    fault: Option<TreeFault>,
}

fn behind(mark: &Mark, places: u64) -> u64
    requires { places < 2 ^ 64 - 2 }
    ensures { result ≡ places_behind mark.now places }
{
    match mark {
        Mark::Split { .. } => places + 2,
        Mark::Close { .. } | Mark::Whole { .. } | Mark::Rest { .. } => places,
    }
}

// One more than so many for a mark other than a rest.
fn counted_with(mark: &Mark, counted: u64) -> u64
    requires { counted < 2 ^ 64 - 1 }
    ensures { result ≡ counted + nodes_in (mark.now ∷ []) }
{
    match mark {
        Mark::Rest { .. } => counted,
        Mark::Split { .. } | Mark::Close { .. } | Mark::Whole { .. } => counted + 1,
    }
}

impl Walk {
    ghost use Rattle.tetri_cert.specs.Walks.{IsOver, tells, tells_nodes};

    /// The walk before the first mark. Its only error is want of memory.
    #[tactic(auto, using(crate::proofs::Signed::signed), unfolding(crate::specs::Walks::tells, crate::specs::Walks::tells_nodes, crate::specs::Trees::tree_bound))]
    pub fn new(alloc: Global, p: &Program) -> Result<Walk, AllocError>
        requires { IsFit p.now }
        ensures over { IfOk result (λ w. IsOver p.now w) }
        ensures none { IfOk result (λ w. (w.node ≡ 0) × (w.counted ≡ 0)) }
        ensures tells { IfOk result (λ w. (marks : List Mark) → tells w p.now marks ≡ tree_bound p.now marks) }
    {
        let region = Region::whole(alloc, p)?;
        let factors = vec![in alloc; 0i128; p.costs.len()]?;
        Ok(Walk {
            region,
            factors,
            trail: Vec::new(alloc),
            live: true,
            places: 1,
            extra: false,
            node: 0,
            counted: 0,
            most: 0,
            fault: None,
        })
    }

    #[tactic(auto, using(crate::proofs::Signed::signed), unfolding(crate::specs::Walks::tells_nodes))]
    fn visit(&mut self, alloc: Global, p: &Program, mark: &Mark) -> Result<(), AllocError>
        requires fit { IsFit p.now }
        requires over { IsOver p.now self.old }
        ensures over { IsOver p.now self.new }
        ensures ok { OnOk result ((rest : List Mark) → tells_nodes (record self.new { node = self.old.node + 1 }) p.now rest ≡ tells_nodes self.old p.now (mark.now ∷ rest)) }
        ensures err { OnErr result ((rest : List Mark) → tells_nodes self.new p.now rest ≡ tells_nodes self.old p.now rest) }
        ensures same { (self.new.places ≡ self.old.places) × (self.new.extra ≡ self.old.extra) × (self.new.node ≡ self.old.node) × (self.new.counted ≡ self.old.counted) }
    {
        if self.fault.is_some() {
            return Ok(());
        }
        if !self.live {
            return Ok(());
        }
        let most = match test_node(alloc, p, &self.region, &mut self.factors, self.node, mark) {
            Ok(most) => most,
            Err(TreeFault::NoMemory) => return Err(AllocError),
            Err(fault) => {
                self.fault = Some(fault);
                return Ok(());
            }
        };
        self.live = turn_on(&mut self.region, &mut self.trail, mark)?;
        self.most = self.most.max(most);
        Ok(())
    }

    /// Takes the next mark. Its only error is want of memory, and then the walk tells what it told before and counts as many
    /// nodes.
    #[tactic(auto, using(crate::proofs::Signed::signed), unfolding(crate::specs::Walks::tells))]
    pub fn feed(&mut self, alloc: Global, p: &Program, mark: &Mark) -> Result<(), AllocError>
        requires fit { IsFit p.now }
        requires over { IsOver p.now self.old }
        requires room { self.old.node < 2 ^ 63 }
        ensures over { IsOver p.now self.new }
        ensures ok { OnOk result ((rest : List Mark) → tells self.new p.now rest ≡ tells self.old p.now (mark.now ∷ rest)) }
        ensures node { OnOk result (self.new.node ≡ self.old.node + 1) }
        ensures counted { OnOk result (self.new.counted ≡ self.old.counted + nodes_in (mark.now ∷ [])) }
        ensures err { OnErr result ((rest : List Mark) → tells self.new p.now rest ≡ tells self.old p.now rest) }
        ensures same_node { OnErr result (self.new.node ≡ self.old.node) }
        ensures same_count { OnErr result (self.new.counted ≡ self.old.counted) }
    {
        self.visit(alloc, p, mark)?;
        self.node += 1;
        self.counted = counted_with(mark, self.counted);
        if self.places == 0 {
            self.extra = true;
            return Ok(());
        }
        self.places = behind(mark, self.places - 1);
        Ok(())
    }

    /// How many marks other than rests were fed.
    pub fn nodes(&self) -> u64
        ensures { result ≡ self.now.counted }
    {
        self.counted
    }

    /// The bound or the first fault of the marks that were fed.
    #[tactic(auto, using(crate::proofs::Signed::signed), unfolding(crate::specs::Walks::tells, crate::specs::Walks::tells_nodes))]
    pub fn end(self) -> Result<u64, TreeFault>
        ensures { (p : Program) → result ≡ tells self p [] }
    {
        let Walk {
            region: _region,
            factors: _factors,
            trail: _trail,
            live: _live,
            places,
            extra,
            node: _node,
            counted: _counted,
            most,
            fault,
        } = self;
        if extra || places != 0 {
            return Err(TreeFault::Bad {
                node: 0,
                why: TreeWhy::Shape,
            });
        }
        match fault {
            Some(fault) => Err(fault),
            None => Ok(most),
        }
    }
}

/// How many marks there are other than rests.
pub fn count_nodes(marks: &[Mark]) -> u64
    ensures { result ≡ nodes_in marks.now }
{
    let mut nodes = 0;
    for mark in marks {
        match mark {
            Mark::Rest { .. } => {}
            Mark::Split { .. } | Mark::Close { .. } | Mark::Whole { .. } => nodes += 1,
        }
    }
    nodes
}

/// The bound of a tree over a program: the greatest of 0 and of the floors of the weighed numbers over `q`, each over its
/// own node's region, and 2^64 - 1 for a floor above that. Bad with node 0 and Shape where the marks are not one tree in
/// preorder; else the first fault of the first node in preorder that has one.
pub fn bound(alloc: Global, p: &Program, marks: &[Mark]) -> Result<u64, TreeFault>
    requires fit { IsFit p.now }
    ensures { IsTreeAnswer result (tree_bound p.now (marks.now)) }
{
    let Ok(mut walk) = Walk::new(alloc, p) else {
        return Err(TreeFault::NoMemory);
    };
    for mark in marks {
        if walk.feed(alloc, p, mark).is_err() {
            return Err(TreeFault::NoMemory);
        }
    }
    walk.end()
}
