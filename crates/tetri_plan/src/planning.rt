// The plan of one cycle.
ghost use Rattle.std.specs.Prelude.{◌≡◌, ◌⊎◌, ◌↔◌, ◌<◌, ◌≤◌, [], All, AllPairs, IfOk, IfSome, IsTrue, false, option_map, true};
ghost use Rattle.tetri_cert.specs.declared.plan_mark.PlanMark.TheVariants as marks;
ghost use Rattle.tetri_claims.specs.Certified.{MayHaveTree};
ghost use Rattle.tetri_claims.specs.Good.{IsGood};
ghost use Rattle.tetri_compile.specs.Flat.{IsCompiled, column_count, row_count};
ghost use Rattle.tetri_ip.specs.Points.{IsPoint, box_of};
ghost use Rattle.tetri_plan.specs.Chosen.{IsChosen, better, kept};
ghost use Rattle.tetri_plan.specs.Plans.{HasNoWhole, HasTree, IsPrintableTree, enough_in, leaves_open, planned_of};
ghost use Rattle.tetri_plan.specs.Searched.{IsSearched, better_at, mark_for};
ghost use Rattle.tetri_space.specs.GrantOrder.{ComesBefore};
ghost use Rattle.tetri_space.specs.Lawful.{IsLawful};
ghost use Rattle.tetri_space.specs.Partitions.{ArePartitionsOf, parts_of};
ghost use Rattle.tetri_space.specs.Sound.{IsSound};
ghost use Rattle.tetri_space.specs.Space.{space};
ghost use Rattle.tetri_space.specs.Total.{total_in};
ghost use Rattle.tetri_space.specs.Trimmed.{IsThriftyForAll, all_trimmed};

use std::alloc::{AllocError, Global};
use tetri_assign::assign;
use tetri_cert::{Certificate, PlanMark};
use tetri_claims::may_have_tree;
use tetri_compile::{Compiled, compile, size};
use tetri_search::search;
use tetri_space::{Instance, Partitions, find_partitions, order_grants, tops, total, trim_all};
use tetri_strl::{Allotment, copy_grants};

/// The plan of a cycle.
#[derive(Drop)]
pub struct Plan {
    /// What the grants are worth together.
    pub value: u64,
    /// No lawful allotment is worth more.
    pub bound: u64,
    /// `Optimal` exactly where value and bound are equal.
    pub mark: PlanMark,
    /// How many nodes of a tree are no rests, and 0 beside tops.
    pub nodes: u32,
    /// The grants, by job and leaf.
    pub grants: Allotment,
    /// Why the bound holds.
    pub certificate: Certificate,
    /// What the best allotment was worth that was known before the search.
    pub low: u64,
    /// For each advisor that sat as the panel was asked, in seating order, whether it was heard.
    pub heard: Vec<bool>,
}

// An allotment, and what it is worth.
#[derive(Drop)]
struct Candidate {
    grants: Allotment,
    worth: u64,
}

// The better of a candidate and a later allotment, which has to be worth more.
fn better(inst: &Instance, earlier: Candidate, later: Allotment) -> Candidate
    requires sound { IsSound (space inst.now) }
    requires worth { earlier.worth ≡ total_in (space inst.now) earlier.grants }
    ensures grants { result.grants ≡ better (space inst.entry.now) earlier.grants later }
    ensures worth { result.worth ≡ total_in (space inst.entry.now) result.grants }
{
    let worth = total(inst, &later);
    if earlier.worth < worth {
        Candidate {
            grants: later,
            worth,
        }
    } else {
        earlier
    }
}

// What of an allotment earns something. It is the same where the grants are put by job first, and
// then one pass finds it.
fn trim_given(alloc: Global, inst: &Instance, a: &Allotment) -> Result<Allotment, AllocError>
    requires { IsSound (space inst.now) }
    ensures { IfOk result (λ trimmed. trimmed ≡ all_trimmed (space inst.entry.now) a.now) }
{
    let mut grants = copy_grants(alloc, a)?.into_items();
    grants.sort_by_key(|grant| grant.job)?;
    let by_job = Allotment::of(grants);
    trim_all(alloc, inst, &by_job)
}

// Of no grant, what is carried over and what of each given allotment earns something, the first
// that is worth most.
fn kept(
    alloc: Global,
    inst: &Instance,
    carry: &Allotment,
    given: &[Allotment],
) -> Result<Candidate, AllocError>
    requires sound { IsSound (space inst.now) }
    ensures grants { IfOk result (λ c. c.grants
        ≡ kept (space inst.entry.now) carry.entry.now given.entry.now) }
    ensures worth { IfOk result (λ c. c.worth ≡ total_in (space inst.entry.now) c.grants) }
{
    let nothing = Candidate {
        grants: Allotment::new(alloc),
        worth: 0,
    };
    let carried = copy_grants(alloc, carry)?;
    let mut best = better(inst, nothing, carried);
    for a in given {
        let trimmed = trim_given(alloc, inst, a)?;
        best = better(inst, best, trimmed);
    }
    Ok(best)
}

// What is known of the best plan behind the search, or without one.
#[derive(Drop)]
struct Searched {
    best: Candidate,
    bound: u64,
    nodes: u32,
    certificate: Certificate,
}

// The mark of a plan.
fn mark_of(value: u64, bound: u64, certificate: &Certificate) -> PlanMark
    ensures { result ≡ mark_for value bound certificate.now }
{
    if value == bound {
        return PlanMark::Optimal;
    }
    match certificate {
        Certificate::Tops { .. } => PlanMark::Wide,
        Certificate::Tree(_) => PlanMark::Spent,
    }
}

// The better of a candidate and the nodes of a search's last whole point, where it has one.
fn better_at(
    alloc: Global,
    inst: &Instance,
    parts: &Partitions,
    compiled: &Compiled,
    best: Candidate,
    last: &Option<Vec<i128>>,
) -> Result<Candidate, AllocError>
    requires sound { IsSound (space inst.now) }
    requires partitions { ArePartitionsOf (space inst.now) (parts_of parts.now) }
    requires compiled { IsCompiled (space inst.now) compiled.now }
    requires worth { best.worth ≡ total_in (space inst.now) best.grants }
    requires point { IfSome last.now
        (λ v. IsPoint compiled.now.program (box_of compiled.now.program) v.items) }
    ensures grants { IfOk result (λ c. c.grants
        ≡ better_at (space inst.entry.now) best.grants (option_map (λ v. v.items) last.now)) }
    ensures worth { IfOk result (λ c. c.worth ≡ total_in (space inst.entry.now) c.grants) }
{
    match last {
        Some(point) => {
            let assigned = assign(alloc, inst, parts, compiled, point)?;
            let trimmed = trim_all(alloc, inst, &assigned)?;
            Ok(better(inst, best, trimmed))
        }
        None => Ok(best),
    }
}

// The search of an instance that may have a tree, and the better of what was kept and the nodes of
// its last whole point.
fn search_on(
    alloc: Global,
    inst: &Instance,
    parts: &Partitions,
    kept: Candidate,
    budget: u32,
) -> Result<Searched, AllocError>
    requires sound { IsSound (space inst.now) }
    requires partitions { ArePartitionsOf (space inst.now) (parts_of parts.now) }
    requires tree { MayHaveTree (space inst.now) }
    requires lawful { IsLawful (space inst.now) kept.grants }
    requires thrifty { IsThriftyForAll (space inst.now) kept.grants }
    requires worth { kept.worth ≡ total_in (space inst.now) kept.grants }
    ensures { IfOk result (IsSearched (space inst.entry.now) kept.grants budget) }
{
    let compiled = compile(alloc, inst, parts)?;
    let found = search(alloc, &compiled, kept.worth, budget)?;
    let best = better_at(alloc, inst, parts, &compiled, kept, &found.last)?;
    Ok(Searched {
        best,
        bound: found.bound,
        nodes: found.nodes,
        certificate: Certificate::Tree(found.marks),
    })
}

// What is known of the best plan: by a search, where the instance may have a tree, else by the
// tops.
fn bound_on(
    alloc: Global,
    inst: &Instance,
    kept: Candidate,
    budget: u32,
) -> Result<Searched, AllocError>
    requires sound { IsSound (space inst.now) }
    requires lawful { IsLawful (space inst.now) kept.grants }
    requires thrifty { IsThriftyForAll (space inst.now) kept.grants }
    requires worth { kept.worth ≡ total_in (space inst.now) kept.grants }
    ensures { IfOk result (IsSearched (space inst.entry.now) kept.grants budget) }
{
    let parts = find_partitions(alloc, inst)?;
    let (columns, rows) = size(inst, &parts);
    if may_have_tree(inst, columns, rows) {
        return search_on(alloc, inst, &parts, kept, budget);
    }
    Ok(Searched {
        best: kept,
        bound: tops(inst),
        nodes: 0,
        certificate: Certificate::Tops { columns, rows },
    })
}

/// The chosen plan of an instance. Of no grant, what is carried over and what of each given
/// allotment earns something, the first that is worth most is kept. Where a job is pending and the
/// program of the instance has at most 2,000 columns and rows, a search by branch and bound with
/// this budget follows, and the nodes of its last whole point take the place of the kept ones where
/// they are worth more. Nobody is heard. Its only error is want of memory.
pub fn choose(
    alloc: Global,
    inst: &Instance,
    carry: &Allotment,
    given: &[Allotment],
    budget: u32,
) -> Result<Plan, AllocError>
    requires sound { IsSound (space inst.now) }
    requires lawful { IsLawful (space inst.now) carry.now }
    requires thrifty { IsThriftyForAll (space inst.now) carry.now }
    requires given { All (IsLawful (space inst.now)) given.now }
    ensures good { IfOk result
        (λ p. IsGood (space inst.entry.now) (total_in (space inst.entry.now) carry.entry.now)
        (planned_of p)) }
    ensures chosen { IfOk result
        (λ p. IsChosen (space inst.entry.now) carry.entry.now given.entry.now budget
        (planned_of p)) }
    ensures low { IfOk result (λ p. p.low
        ≡ total_in (space inst.entry.now)
        (kept (space inst.entry.now) carry.entry.now given.entry.now)) }
    ensures at_least { IfOk result (λ p. p.low ≤ p.value) }
    ensures no_whole { IfOk result (λ p. HasNoWhole p.certificate → p.low ≡ p.value) }
    ensures heard { IfOk result (λ p. p.heard.items ≡ []) }
    ensures ordered { IfOk result (λ p. AllPairs ComesBefore p.grants) }
    ensures printable { IfOk result (λ p. IsPrintableTree p.certificate) }
    ensures tree { IfOk result (λ p. HasTree p.certificate ↔ MayHaveTree (space inst.entry.now)) }
    ensures no_rest { IfOk result (λ p. MayHaveTree (space inst.entry.now)
        → leaves_open p.certificate ≡ false → p.mark ≡ marks.Optimal) }
    ensures spent { IfOk result (λ p. p.mark ≡ marks.Spent
        → (p.value < p.bound) × (leaves_open p.certificate ≡ true) × (p.nodes ≡ budget)) }
    ensures wide { IfOk result (λ p. p.mark ≡ marks.Wide → (p.value < p.bound)
        × ((2000 < column_count (space inst.entry.now))
        ⊎ (2000 < row_count (space inst.entry.now)))) }
    ensures enough { MayHaveTree (space inst.entry.now) → enough_in (space inst.entry.now) ≤ budget
        → IfOk result (λ p. p.mark ≡ marks.Optimal) }
{
    let kept = kept(alloc, inst, carry, given)?;
    let low = kept.worth;
    let found = bound_on(alloc, inst, kept, budget)?;
    let value = found.best.worth;
    let bound = found.bound;
    let mark = mark_of(value, bound, &found.certificate);
    let grants = order_grants(found.best.grants)?;
    Ok(Plan {
        value,
        bound,
        mark,
        nodes: found.nodes,
        grants,
        certificate: found.certificate,
        low,
        heard: Vec::new(alloc),
    })
}
