// The search.

ghost use Rattle.std.specs.Prelude.{◌≡◌, ◌<◌, ◌+◌, ◌-◌, ◌^◌, List, [], ◌∷◌, All, true, IfOk, OnOk, cond, length, option_map, pos, reverse};
ghost use Rattle.tetri_cert.specs.declared.marks.Cell.{Cell};
ghost use Rattle.tetri_cert.specs.Cells.{AreOfColumns, point_of};
ghost use Rattle.tetri_cert.specs.NodeBounds.{sides_before};
ghost use Rattle.tetri_cert.specs.Trees.{nodes_in, tree_bound};
ghost use Rattle.tetri_cert.specs.Turns.{pending};
ghost use Rattle.tetri_compile.specs.Gain.{most_gain};
ghost use Rattle.tetri_ip.specs.Points.{IsFit, bounds_of, box_of};
ghost use Rattle.tetri_search.specs.Follow.{best_after, best_behind, last_whole};
ghost use Rattle.tetri_swift.specs.Follow.{Follows};
ghost use Rattle.tetri_swift.specs.Found.{IsFound};
ghost use Rattle.tetri_swift.specs.Fronts.{IsOver, regions_of};
ghost use Rattle.tetri_swift.specs.Nodes.{IsBetter, IsFair};

use crate::engine::Engine;
use crate::nodes::{Dual, Written, push_duals, write_mark};
use crate::swift::Swift;
use std::alloc::{AllocError, Global};
use std::rc::Rc;
use tetri_base::Items;
use tetri_cert::{Mark, TreeFault, Turn, bound, point_of, turn_on};
use tetri_compile::Compiled;
use tetri_ip::{Program, Region};
use tetri_search::Found;

// The next open region, the way back to the others, and whether there is one.
#[derive(Drop)]
struct Front {
    region: Region,
    trail: Vec<Turn>,
    live: bool,
}

// The marks of a whole search, the best objective known at its end, and the number of marks that
// are no rests.
#[derive(Drop)]
struct Grown {
    marks: Items<Mark>,
    best: u64,
    used: u32,
}

// The whole box of the program.
fn first_front(alloc: Global, p: &Program) -> Result<Front, AllocError>
    requires { IsFit p.now }
    ensures over { IfOk result (λ f. IsOver p.now f) }
    ensures regions { IfOk result (λ f. regions_of f ≡ box_of p.now ∷ []) }
{
    let region = Region::whole(alloc, p)?;
    let trail = Vec::new(alloc);
    Ok(Front {
        region,
        trail,
        live: true,
    })
}

// The weights above the next open region.
fn take_last(duals: &mut Vec<Option<Rc<Dual>>>) -> Option<Rc<Dual>> {
    match duals.pop() {
        Some(above) => above,
        None => None,
    }
}

// Writes the mark of the next open region, and goes on to the one behind it.
fn visit<E: Engine>(
    alloc: Global,
    p: &Program,
    factors: &mut [i128],
    best: u64,
    left: bool,
    engine: &mut E,
    duals: &mut Vec<Option<Rc<Dual>>>,
    front: &mut Front,
) -> Result<Mark, AllocError>
    requires fit { IsFit p.now }
    requires length { length factors.old ≡ length p.now.costs.items }
    requires zero { All (λ z. z ≡ pos 0) p.now.lower.items }
    requires bounded { most_gain p.now < 2 ^ 64 }
    requires over { IsOver p.now front.old }
    requires live { front.old.live ≡ true }
    ensures over { OnOk result (IsOver p.now front.new) }
    ensures fair { IfOk result (λ m. IsFair p.now (bounds_of front.old.region) best left m) }
    ensures regions { IfOk result (λ m. regions_of front.new
        ≡ sides_before (bounds_of front.old.region) m
        (pending (bounds_of front.old.region) (reverse front.old.trail.items))) }
{
    let above = take_last(duals);
    let Written { mark, own } = write_mark(
        alloc,
        p,
        &front.region,
        factors,
        best,
        left,
        engine,
        &above,
    )?;
    engine.follow(alloc, p, &front.region, &mark)?;
    push_duals(alloc, duals, own, above, &mark)?;
    let live = turn_on(&mut front.region, &mut front.trail, &mark)?;
    front.live = live;
    Ok(mark)
}

// The greater of the best objective known and of a whole point's.
fn better(best: u64, mark: &Mark) -> u64
    requires { IsBetter best mark.now }
    ensures { result ≡ best_after best mark.now }
{
    match mark {
        Mark::Whole { worth, .. } => *worth as u64,
        Mark::Split { .. } | Mark::Close { .. } | Mark::Rest { .. } => best,
    }
}

fn count(used: u32, left: bool) -> u32
    requires { left ≡ true → used < 2 ^ 32 - 1 }
    ensures { result ≡ cond left (used + 1) used }
{
    if left { used + 1 } else { used }
}

// Grows the tree, mark by mark.
fn grow<E: Engine>(
    alloc: Global,
    p: &Program,
    factors: &mut [i128],
    low: u64,
    budget: u32,
    engine: &mut E,
) -> Result<Grown, AllocError>
    requires fit { IsFit p.now }
    requires length { length factors.old ≡ length p.now.costs.items }
    requires zero { All (λ z. z ≡ pos 0) p.now.lower.items }
    requires bounded { most_gain p.now < 2 ^ 64 }
    ensures follows { IfOk result (λ g. Follows p.now budget (box_of p.now ∷ []) low 0 g.marks) }
    ensures best { IfOk result (λ g. g.best ≡ best_behind low g.marks) }
    ensures used { IfOk result (λ g. g.used ≡ nodes_in g.marks) }
{
    let mut front = first_front(alloc, p)?;
    let mut duals = Vec::new(alloc);
    let mut marks = Items::new(alloc);
    let mut best = low;
    let mut used = 0;
    'tree: while front.live {
        let left = used < budget;
        let mark = visit(
            alloc, p, factors, best, left, engine, &mut duals, &mut front,
        )?;
        best = better(best, &mark);
        used = count(used, left);
        marks.push(mark)?;
    }
    Ok(Grown { marks, best, used })
}

// The point of the last mark that has one.
fn last_point(
    alloc: Global,
    columns: usize,
    marks: &[Mark],
) -> Result<Option<Vec<i128>>, AllocError>
    requires { (cells : List Cell) → last_whole marks.now ≡ Some cells
        → AreOfColumns columns cells }
    ensures { IfOk result (λ o. option_map (λ v. v.items) o
        ≡ option_map (point_of columns) (last_whole marks.now)) }
{
    for i in (0..marks.len()).rev() {
        if let Mark::Whole { point, .. } = &marks[i] {
            return Ok(Some(point_of(alloc, columns, point.as_slice())?));
        }
    }
    Ok(None)
}

// The bound of a tree of a search, which is a proper one.
fn bound_of(
    alloc: Global,
    p: &Program,
    low: u64,
    budget: u32,
    marks: &[Mark],
) -> Result<u64, AllocError>
    requires fit { IsFit p.now }
    requires follows { Follows p.now budget (box_of p.now ∷ []) low 0 marks.now }
    ensures { IfOk result (λ b. tree_bound p.now marks.now ≡ Ok b) }
{
    match bound(alloc, p, marks) {
        Ok(bound) => Ok(bound),
        Err(TreeFault::NoMemory) => Err(AllocError),
        Err(TreeFault::Bad { .. }) => unreachable!(),
        Err(TreeFault::Past { .. }) => unreachable!(),
    }
}

/// Searches the best whole point of a program by branch and bound, knowing that `low` can be had,
/// and gives the tree of its marks, the high side of a split first. What the engine proposes for a
/// region is its mark where that passes its tests, else a run of the dual simplex method gives the
/// mark. Once as many nodes as the budget are written, each node that is still open is a rest. Land
/// and Doig 1960; Dakin 1965. Its only error is want of memory.
pub fn search_by<E: Engine>(
    alloc: Global,
    c: &Compiled,
    low: u64,
    budget: u32,
    engine: &mut E,
) -> Result<Found, AllocError>
    requires fit { IsFit c.now.program }
    requires zero { All (λ z. z ≡ pos 0) c.now.program.lower.items }
    requires bounded { most_gain c.now.program < 2 ^ 64 }
    ensures { IfOk result (λ f. IsFound c.entry.now.program low budget f) }
{
    let p = &c.program;
    let columns = p.costs.len();
    let mut factors = vec![in alloc; 0i128; columns]?;
    let Grown { marks, best, used } = grow(alloc, p, &mut factors, low, budget, engine)?;
    let bound = bound_of(alloc, p, low, budget, marks.as_slice())?;
    let last = last_point(alloc, columns, marks.as_slice())?;
    Ok(Found {
        marks,
        last,
        best,
        bound,
        nodes: used,
    })
}

/// [`search_by`] with the engine [`Swift`], which keeps so many bytes of dictionaries.
pub fn swift_search(
    alloc: Global,
    c: &Compiled,
    low: u64,
    budget: u32,
    keep_bytes: usize,
) -> Result<Found, AllocError>
    requires fit { IsFit c.now.program }
    requires zero { All (λ z. z ≡ pos 0) c.now.program.lower.items }
    requires bounded { most_gain c.now.program < 2 ^ 64 }
    ensures { IfOk result (λ f. IsFound c.entry.now.program low budget f) }
{
    let mut engine = Swift::new(alloc, keep_bytes);
    search_by(alloc, c, low, budget, &mut engine)
}
