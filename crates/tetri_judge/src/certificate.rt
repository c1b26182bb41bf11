// The tests of a certificate.
ghost use Rattle.std.specs.Prelude.{◌≡◌, ◌↔◌, IsTrue};
ghost use Rattle.tetri_cert.specs.declared.certificate.Certificate.{Certificate};
ghost use Rattle.tetri_judge.specs.Answers.{AnswersBound, verdict_of};
ghost use Rattle.tetri_judge.specs.Seen.{IsCutShortBeside, IsMarkedBeside, Tells, counted_in};
ghost use Rattle.tetri_space.specs.Sound.{IsSound};
ghost use Rattle.tetri_space.specs.Space.{space};

use crate::seen::Seen;
use crate::verdict::Verdict;
use std::alloc::Global;
use tetri_cert::{PlanMark, TreeFault, TreeWhy};
use tetri_claims::may_have_tree;
use tetri_compile::size;
use tetri_report::PlanLine;
use tetri_space::{Instance, find_partitions, tops};

// What is wrong with a tree.
fn verdict_of(fault: TreeFault) -> Verdict
    ensures { result ≡ verdict_of fault }
{
    match fault {
        TreeFault::Bad { node, why } => Verdict::BadTree { node, why },
        TreeFault::Past { node, column } => Verdict::Past { node, column },
        TreeFault::NoMemory => Verdict::NoMemory,
    }
}

const BAD_KIND: Verdict = Verdict::BadTree {
    node: 0,
    why: TreeWhy::Kind,
};

/// The bound that a certificate gives which was seen so, or how it fails its tests.
pub(crate) fn bound_of(alloc: Global, inst: &Instance, seen: &Seen) -> Result<u64, Verdict>
    requires { IsSound (space inst.now) }
    ensures { (c : Certificate) → Tells (space inst.entry.now) c seen.now → AnswersBound result (space inst.entry.now) c }
{
    let Ok(parts) = find_partitions(alloc, inst) else {
        return Err(Verdict::NoMemory);
    };
    let (columns, rows) = size(inst, &parts);
    let has_tree = may_have_tree(inst, columns, rows);
    match seen {
        Seen::Tops {
            columns: told_columns,
            rows: told_rows,
        } => {
            if has_tree || *told_columns != columns || *told_rows != rows {
                return Err(BAD_KIND);
            }
            Ok(tops(inst))
        }
        Seen::Tree { answer, .. } => {
            if !has_tree {
                return Err(BAD_KIND);
            }
            match *answer {
                Ok(bound) => Ok(bound),
                Err(fault) => Err(verdict_of(fault)),
            }
        }
    }
}

// How many nodes are counted beside a certificate.
fn counted_nodes(seen: &Seen) -> u64
    ensures { result ≡ counted_in seen.now }
{
    match seen {
        Seen::Tops { .. } => 0,
        Seen::Tree { nodes, .. } => *nodes,
    }
}

// Whether the mark tells rightly why the plan is not known to be optimal.
fn is_cut_short(budget: u32, plan: PlanLine, seen: &Seen) -> bool
    ensures { IsTrue result ↔ IsCutShortBeside budget seen.now plan }
{
    match seen {
        Seen::Tops { .. } => plan.mark == PlanMark::Wide,
        Seen::Tree { .. } => plan.mark == PlanMark::Spent && plan.nodes == budget,
    }
}

/// Whether the mark goes with value, bound and what was seen of the certificate, and the certificate's nodes are counted.
pub(crate) fn is_rightly_marked(budget: u32, plan: PlanLine, seen: &Seen) -> bool
    ensures { IsTrue result ↔ IsMarkedBeside budget plan seen.now }
{
    if u64::from(plan.nodes) != counted_nodes(seen) {
        return false;
    }
    if plan.value == plan.bound {
        return plan.mark == PlanMark::Optimal;
    }
    is_cut_short(budget, plan, seen)
}
