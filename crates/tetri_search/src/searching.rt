//! The search.

ghost use Rattle.std.specs.Prelude.{◌≡◌, ◌<◌, ◌≤◌, ◌+◌, ◌-◌, ◌^◌, ℕ, List, [], ◌∷◌, All, Bool, true, false, IfOk, IfSome, MatchOption, OnOk, cond, length, option_map, pos, reverse, vec_len, ◌≤ℤ◌, ◌<ℤ◌};
ghost use Rattle.tetri_ip.specs.Points.{IsFit, IsInBox, IsPoint, bounds_of, box_of, objective};
ghost use Rattle.tetri_cert.specs.declared.marks.Cell.{Cell};
ghost use Rattle.tetri_cert.specs.Cells.{AreOfColumns, point_of};
ghost use Rattle.tetri_cert.specs.NodeBounds.{sides_before};
ghost use Rattle.tetri_cert.specs.NodeText.{HasShortLists, IsPlain};
ghost use Rattle.tetri_cert.specs.Trees.{nodes_in, tree_bound};
ghost use Rattle.tetri_cert.specs.Turns.{pending};
ghost use Rattle.tetri_compile.specs.Gain.{most_gain};
ghost use Rattle.tetri_search.specs.Follow.{IsEarned, best_after, best_behind, dual_below, last_whole, used_after};
ghost use Rattle.tetri_search.specs.Nodes.{IfDual, IsNarrow};
ghost use Rattle.tetri_search.specs.Table.{table};
ghost use Rattle.tetri_search.specs.Views.{IsNatural, IsOnRegion, dual_of_rc, duals_before, duals_of};

use crate::duals::{Dual, push_duals};
use crate::marks::{Written, write_mark};
use std::alloc::{AllocError, Global};
use std::rc::Rc;
use tetri_base::Items;
use tetri_cert::{Mark, TreeFault, Turn, bound, point_of, turn_on};
use tetri_compile::Compiled;
use tetri_ip::{Program, Region};

/// A tree of a search, and what it comes to.
#[derive(Drop)]
pub struct Found {
    /// The tree's marks in preorder, the high side of a split first. Each is plain.
    pub marks: Items<Mark>,
    /// The last whole point, one number for each column.
    pub last: Option<Vec<i128>>,
    /// The greater of the best objective known at first and of the last whole point's.
    pub best: u64,
    /// The bound of the tree.
    pub bound: u64,
    /// The number of marks other than rests.
    pub nodes: u32,
}

// The open nodes: the region of the next one, the way back to those of the others, and the weights
// above each, the next one's last.
#[derive(Drop)]
struct Front {
    region: Region,
    trail: Vec<Turn>,
    duals: Vec<Option<Rc<Dual>>>,
}

// The marks of a whole search, the best objective known at its end, and the number of marks that are no rests.
#[derive(Drop)]
struct Grown {
    marks: Items<Mark>,
    best: u64,
    used: u32,
}

// Writes the mark of the next open node, whose weights were taken off, and goes on to the one behind it.
fn visit(
    alloc: Global,
    p: &Program,
    factors: &mut [i128],
    best: u64,
    left: bool,
    above: Option<Rc<Dual>>,
    front: &mut Front,
) -> Result<Mark, AllocError>
    requires fit { IsFit p.now }
    requires length { length factors.old ≡ length p.now.costs.items }
    requires at { IsOnRegion p.now front.old.region front.old.trail.items }
    requires dual { IfDual p.now (dual_of_rc above) }
    ensures mark { IfOk result (λ m. m ≡ table p.now (record { region = bounds_of front.old.region; dual = dual_of_rc above }) best left) }
    ensures regions { IfOk result (λ m. (live : Bool) × (cond live (bounds_of front.new.region ∷ pending (bounds_of front.new.region) (reverse front.new.trail.items)) []
        ≡ sides_before (bounds_of front.old.region) m (pending (bounds_of front.old.region) (reverse front.old.trail.items)))) }
    ensures duals { IfOk result (λ m. duals_of front.new.duals.items
        ≡ duals_before (dual_below p.now (record { region = bounds_of front.old.region; dual = dual_of_rc above }) best) m (duals_of front.old.duals.items)) }
    ensures lower { OnOk result (length front.new.region.lower.items ≡ length front.old.region.lower.items) }
    ensures upper { OnOk result (length front.new.region.upper.items ≡ length front.old.region.upper.items) }
    ensures columns { OnOk result (All (λ t. t.column < length front.new.region.lower.items) front.new.trail.items) }
    ensures narrow { IfOk result (λ m. IsNarrow m) }
    ensures room { OnOk result (vec_len front.new.duals ≤ vec_len front.old.duals + 2) }
    ensures still { left ≡ false → OnOk result (vec_len front.new.duals ≡ vec_len front.old.duals) }
{
    let Written { mark, own } = write_mark(alloc, p, &front.region, factors, &above, best, left)?;
    push_duals(alloc, &mut front.duals, own, above, &mark)?;
    turn_on(&mut front.region, &mut front.trail, &mark)?;
    Ok(mark)
}

// The greater of the best objective known and of a whole point's.
fn better(best: u64, mark: &Mark) -> u64
    requires { IsNatural mark.now }
    ensures { result ≡ best_after best mark.now }
{
    match mark {
        Mark::Whole { worth, .. } => best.max(*worth as u64),
        Mark::Split { .. } | Mark::Close { .. } | Mark::Rest { .. } => best,
    }
}

fn count(used: u32, left: bool) -> u32
    requires { left ≡ true → used < 2 ^ 32 - 1 }
    ensures { result ≡ cond left (used + 1) used }
{
    if left { used + 1 } else { used }
}

// Grows the tree, mark by mark.
fn grow(
    alloc: Global,
    p: &Program,
    factors: &mut [i128],
    low: u64,
    budget: u32,
) -> Result<Grown, AllocError>
    requires fit { IsFit p.now }
    requires length { length factors.old ≡ length p.now.costs.items }
    requires lower { All (λ z. z ≡ pos 0) p.now.lower.items }
    requires bounded { most_gain p.now < 2 ^ 64 }
    ensures earned { IfOk result (λ g. IsEarned p.now low budget g.marks) }
    ensures best { IfOk result (λ g. g.best ≡ best_behind low g.marks) }
    ensures used { IfOk result (λ g. g.used ≡ nodes_in g.marks) }
    ensures plain { IfOk result (λ g. All IsPlain g.marks) }
    ensures short { (most : ℕ) → length p.now.costs.items ≤ most → length p.now.rows.items ≤ most → IfOk result (λ g. All (HasShortLists most) g.marks) }
{
    let mut front = Front {
        region: Region::whole(alloc, p)?,
        trail: Vec::new(alloc),
        duals: Vec::new(alloc),
    };
    front.duals.push(None)?;
    let mut marks = Items::new(alloc);
    let mut best = low;
    let mut used = 0;
    while let Some(above) = front.duals.pop() {
        let left = used < budget;
        let mark = visit(alloc, p, factors, best, left, above, &mut front)?;
        best = better(best, &mark);
        used = count(used, left);
        marks.push(mark)?;
    }
    Ok(Grown { marks, best, used })
}

// The point of the last mark that has one.
fn last_point(
    alloc: Global,
    columns: usize,
    marks: &[Mark],
) -> Result<Option<Vec<i128>>, AllocError>
    requires { (cells : List Cell) → last_whole marks.now ≡ Some cells → AreOfColumns columns cells }
    ensures { IfOk result (λ o. option_map (λ v. v.items) o ≡ option_map (point_of columns) (last_whole marks.now)) }
{
    for i in (0..marks.len()).rev() {
        if let Mark::Whole { point, .. } = &marks[i] {
            return Ok(Some(point_of(alloc, columns, point.as_slice())?));
        }
    }
    Ok(None)
}

// The bound of a tree of a search, which is a proper one.
fn bound_of(alloc: Global, p: &Program, marks: &[Mark]) -> Result<u64, AllocError>
    requires fit { IsFit p.now }
    requires earned { (low : ℕ) × (budget : ℕ) × IsEarned p.now low budget marks.now }
    ensures { IfOk result (λ b. tree_bound p.now marks.now ≡ Ok b) }
{
    match bound(alloc, p, marks) {
        Ok(bound) => Ok(bound),
        Err(TreeFault::NoMemory) => Err(AllocError),
        Err(TreeFault::Bad { .. }) => unreachable!(),
        Err(TreeFault::Past { .. }) => unreachable!(),
    }
}

/// Searches the best whole point of a program by branch and bound, knowing that `low` can be had,
/// and gives the tree of its marks: a region of one point is closed or is a whole point; a run of the
/// dual simplex method closes any other region, gives a whole point, or splits it, at the least column
/// that is not whole in the best point, else at the least one with more than one number in the middle.
/// The high side of a split comes first. Once as many nodes as the budget are written, each node that
/// is still open is a rest, with the weights of the nearest run above it that ended at a best point.
/// Its only error is want of memory.
pub fn search(alloc: Global, c: &Compiled, low: u64, budget: u32) -> Result<Found, AllocError>
    requires fit { IsFit c.now.program }
    requires lower { All (λ z. z ≡ pos 0) c.now.program.lower.items }
    requires bounded { most_gain c.now.program < 2 ^ 64 }
    ensures earned { IfOk result (λ f. IsEarned c.entry.now.program low budget f.marks) }
    ensures bound { IfOk result (λ f. tree_bound c.entry.now.program f.marks ≡ Ok f.bound) }
    ensures nodes { IfOk result (λ f. f.nodes ≡ nodes_in f.marks) }
    ensures best { IfOk result (λ f. f.best ≡ best_behind low f.marks) }
    ensures last { IfOk result (λ f. option_map (λ v. v.items) f.last ≡ option_map (point_of (length c.entry.now.program.costs.items)) (last_whole f.marks)) }
    ensures point { IfOk result (λ f. IfSome f.last (λ v. IsPoint c.entry.now.program (box_of c.entry.now.program) v.items)) }
    ensures worth { IfOk result (λ f. MatchOption f.last (f.best ≡ low) (λ v. pos f.best ≡ objective c.entry.now.program v.items)) }
    ensures plain { IfOk result (λ f. All IsPlain f.marks) }
    ensures short { length c.entry.now.program.costs.items ≤ 2000 → length c.entry.now.program.rows.items ≤ 2000 →
        IfOk result (λ f. All (HasShortLists 2000) f.marks) }
{
    let p = &c.program;
    let columns = p.costs.len();
    let mut factors = vec![in alloc; 0i128; columns]?;
    let Grown { marks, best, used } = grow(alloc, p, &mut factors, low, budget)?;
    let bound = bound_of(alloc, p, marks.as_slice())?;
    let last = last_point(alloc, columns, marks.as_slice())?;
    Ok(Found {
        marks,
        last,
        best,
        bound,
        nodes: used,
    })
}
