// What is launched after a plan.
ghost use Rattle.std.specs.Prelude.{◌≡◌, ◌<◌, ◌^◌, ℕ, All, length, map, IfOk, OnOk};
ghost use Rattle.std.specs.List.{filter, sum_by};
ghost use Rattle.std.specs.List.Sorted.{IsNonDecreasing, IsNonDecreasingBy};
ghost use Rattle.tetri_base.specs.Lists.{has};
ghost use Rattle.tetri_base.specs.Order.{in_order};
ghost use Rattle.tetri_space.specs.GrantOrder.{comes_first};
ghost use Rattle.tetri_space.specs.Sound.{IsSound as IsSoundSpace};
ghost use Rattle.tetri_space.specs.Space.{leaf_in, space};
ghost use Rattle.tetri_space.specs.Total.{bid_worth};
ghost use Rattle.tetri_state.specs.After.{starting_pieces};
ghost use Rattle.tetri_state.specs.Launch.{launched_in, start_of, start_or_0, starts_now, worth_launched};
ghost use Rattle.tetri_trace.specs.Scenario.{scenario};
ghost use Rattle.tetri_trace.specs.Sound.{IsSound};

use crate::pieces::{Piece, piece_of};
use crate::prepared::is_among;
use std::alloc::{AllocError, Global};
use tetri_space::{Instance, ascends_by_job, leaf_of, order_grants, run_len};
use tetri_strl::{Allotment, Grant, Leaf, copy_grant, worth_among};
use tetri_trace::Trace;

/// What grants launch: the jobs that have one which starts at the present slot.
#[derive(Drop)]
pub struct Launch {
    /// The slots at which the leaves of the grants start, in the order of the grants.
    pub starts: Vec<u32>,
    /// The jobs, ascending.
    pub jobs: Vec<u32>,
    /// The pieces of the grants that start at the present slot, in the order of the grants.
    pub pieces: Vec<Piece>,
    /// What the grants are worth to the jobs together.
    pub worth: u64,
}

/// What grants launch, without its pieces.
#[derive(Drop)]
pub struct Launched {
    /// The jobs, ascending.
    pub jobs: Vec<u32>,
    /// What the grants are worth to them together.
    pub worth: u64,
}

// The slots at which the leaves of grants start, and the pieces of the grants that start at the
// present slot, both in the order of the grants.
#[derive(Drop)]
struct Found {
    starts: Vec<u32>,
    pieces: Vec<Piece>,
}

/// What is launched of grants of jobs of the trace. The leaf of each grant is looked up once. For the worth it goes once
/// through jobs and grants, where the grants ascend by job, and else through a copy of them that is put in order. Its only
/// error is want of memory.
pub fn find_launch(
    alloc: Global,
    trace: &Trace,
    inst: &Instance,
    grants: &[Grant],
) -> Result<Launch, AllocError>
    requires sound { IsSound (scenario trace.now) }
    requires instance { IsSoundSpace (space inst.now) }
    requires known { All (λ b. b.job < length (scenario trace.now).submissions)
        (space inst.now).bids }
    ensures starts { IfOk result (λ l. l.starts.items
        ≡ map (start_of (space inst.entry.now)) grants.now) }
    ensures jobs { IfOk result (λ l. l.jobs.items ≡ launched_in (space inst.entry.now) grants.now) }
    ensures pieces { IfOk result (λ l. l.pieces.items
        ≡ starting_pieces (scenario trace.entry.now) (space inst.entry.now) grants.now) }
    ensures worth { IfOk result (λ l. l.worth ≡ worth_launched (space inst.entry.now) grants.now) }
    ensures leaves { OnOk result (All (λ g. g.leaf < 2 ^ 32) grants.now) }
{
    let Found { starts, pieces } = find_pieces(alloc, trace, inst, grants)?;
    let starting = starting_jobs(alloc, inst, grants, &starts)?;
    let Launched { jobs, worth } = find_jobs(alloc, inst, grants, &starting)?;
    Ok(Launch {
        starts,
        jobs,
        pieces,
        worth,
    })
}

/// The slots at which the leaves of the grants start, in their order. Its only error is want of
/// memory.
pub fn starts_of(alloc: Global, inst: &Instance, grants: &[Grant]) -> Result<Vec<u32>, AllocError>
    requires { IsSoundSpace (space inst.now) }
    ensures { IfOk result (λ v. v.items ≡ map (start_of (space inst.entry.now)) grants.now) }
{
    let mut starts = Vec::new(alloc);
    for grant in grants {
        starts.push(start_or_0(leaf_of(inst, grant.job, grant.leaf)))?;
    }
    Ok(starts)
}

/// The jobs that grants launch, and their worth. Its only error is want of memory.
pub fn launch_of(alloc: Global, inst: &Instance, grants: &[Grant]) -> Result<Launched, AllocError>
    requires { IsSoundSpace (space inst.now) }
    ensures jobs { IfOk result (λ l. l.jobs.items ≡ launched_in (space inst.entry.now) grants.now) }
    ensures worth { IfOk result (λ l. l.worth ≡ worth_launched (space inst.entry.now) grants.now) }
{
    let starts = starts_of(alloc, inst, grants)?;
    let starting = starting_jobs(alloc, inst, grants, &starts)?;
    find_jobs(alloc, inst, grants, &starting)
}

fn start_or_0(leaf: Option<Leaf>) -> u32
    ensures { result ≡ start_or_0 leaf }
{
    match leaf {
        Some(leaf) => leaf.start,
        None => 0,
    }
}

// The leaf that a grant names, where its job offers it.
fn leaf_named(inst: &Instance, grant: &Grant) -> Option<Leaf>
    requires { IsSoundSpace (space inst.now) }
    ensures leaf { result ≡ leaf_in (space inst.entry.now).bids grant.now.job grant.now.leaf }
    ensures number { grant.now.leaf < 2 ^ 32 }
{
    let (job, number) = (grant.job, grant.leaf);
    leaf_of(inst, job, number)
}

// Looks the leaf of each grant up.
fn find_pieces(
    alloc: Global,
    trace: &Trace,
    inst: &Instance,
    grants: &[Grant],
) -> Result<Found, AllocError>
    requires sound { IsSound (scenario trace.now) }
    requires instance { IsSoundSpace (space inst.now) }
    requires known { All (λ b. b.job < length (scenario trace.now).submissions)
        (space inst.now).bids }
    ensures starts { IfOk result (λ f. f.starts.items
        ≡ map (start_of (space inst.entry.now)) grants.now) }
    ensures pieces { IfOk result (λ f. f.pieces.items
        ≡ starting_pieces (scenario trace.entry.now) (space inst.entry.now) grants.now) }
    ensures leaves { OnOk result (All (λ g. g.leaf < 2 ^ 32) grants.now) }
{
    let mut starts = Vec::new(alloc);
    let mut pieces = Vec::new(alloc);
    for grant in grants {
        let leaf = leaf_named(inst, grant);
        starts.push(start_or_0(leaf))?;
        if let Some(leaf) = leaf {
            if leaf.start == inst.now {
                pieces.push(piece_of(alloc, trace, grant, &leaf)?)?;
            }
        }
    }
    Ok(Found { starts, pieces })
}

// The jobs of the grants that start at the present slot, ascending, each as often as it has such grants.
fn starting_jobs(
    alloc: Global,
    inst: &Instance,
    grants: &[Grant],
    starts: &[u32],
) -> Result<Vec<u32>, AllocError>
    requires { starts.now ≡ map (start_of (space inst.now)) grants.now }
    ensures rise { IfOk result (λ v. IsNonDecreasing v.items) }
    ensures jobs { IfOk result (λ v. (job : ℕ)
        → has v.items job ≡ starts_now (space inst.entry.now) grants.now job) }
{
    let mut jobs = Vec::new(alloc);
    for (place, grant) in grants.iter().enumerate() {
        if starts[place] == inst.now {
            jobs.push(grant.job)?;
        }
    }
    jobs.sort()?;
    Ok(jobs)
}

// What grants launch, where these jobs have one that starts at the present slot.
fn find_jobs(
    alloc: Global,
    inst: &Instance,
    grants: &[Grant],
    starting: &[u32],
) -> Result<Launched, AllocError>
    requires sound { IsSoundSpace (space inst.now) }
    requires rise { IsNonDecreasing starting.now }
    requires starting { (job : ℕ)
        → has starting.now job ≡ starts_now (space inst.now) grants.now job }
    ensures jobs { IfOk result (λ l. l.jobs.items ≡ launched_in (space inst.entry.now) grants.now) }
    ensures worth { IfOk result (λ l. l.worth ≡ worth_launched (space inst.entry.now) grants.now) }
{
    if ascends_by_job(grants) {
        return launched_by_runs(alloc, inst, grants, starting);
    }
    let ordered = ordered(alloc, grants)?;
    launched_by_runs(alloc, inst, ordered.as_slice(), starting)
}

// A copy of the grants by job and leaf.
fn ordered(alloc: Global, grants: &[Grant]) -> Result<Allotment, AllocError>
    ensures { IfOk result (λ a. a ≡ in_order comes_first grants.now) }
{
    let mut copy = Allotment::new(alloc);
    for grant in grants {
        copy.push(copy_grant(alloc, grant)?)?;
    }
    order_grants(copy)
}

// The jobs that are among the starting ones, and what grants that ascend by job are worth to them.
fn launched_by_runs(
    alloc: Global,
    inst: &Instance,
    grants: &[Grant],
    starting: &[u32],
) -> Result<Launched, AllocError>
    requires sound { IsSoundSpace (space inst.now) }
    requires ascending { IsNonDecreasingBy (λ g. g.job) grants.now }
    requires rise { IsNonDecreasing starting.now }
    ensures jobs { IfOk result (λ l. l.jobs.items
        ≡ map (λ b. b.job) (filter (λ b. has starting.now b.job) (space inst.entry.now).bids)) }
    ensures worth { IfOk result (λ l. l.worth
        ≡ sum_by (bid_worth grants.now)
        (filter (λ b. has starting.now b.job) (space inst.entry.now).bids)) }
{
    let mut jobs = Vec::new(alloc);
    let mut worth = 0;
    let mut rest = grants;
    for offer in &inst.jobs {
        let (run, later) = rest.split_at(run_len(rest, offer.job));
        if is_among(starting, offer.job) {
            jobs.push(offer.job)?;
            worth += worth_among(&offer.expr, offer.job, run);
        }
        rest = later;
    }
    Ok(Launched { jobs, worth })
}
