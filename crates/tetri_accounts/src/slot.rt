// What one cycle adds to a ledger.
ghost use Rattle.std.specs.Prelude.{◌≡◌, ◌++◌, ◌∷◌, ◌==◌, [], ℕ, if◌then◌else◌, IfOk, OnOk, filter, map};
ghost use Rattle.std.specs.List.{list_all, list_any};
ghost use Rattle.std.specs.List.Sorted.{IsNonDecreasing, IsNonDecreasingBy};
ghost use Rattle.tetri_base.specs.Lists.{has};
ghost use Rattle.tetri_accounts.specs.Rows.{closed_as, departing, ended_as, gone_at, goes_on, is_late, leaving, outcome_by, row_of, staying};
ghost use Rattle.tetri_space.specs.Sound.{IsSound as IsSoundSpace};
ghost use Rattle.tetri_space.specs.Space.{bid, space};
ghost use Rattle.tetri_space.specs.Total.{bid_worth};
ghost use Rattle.tetri_state.specs.Begin.{has_ended, occurrences};
ghost use Rattle.tetri_strl.specs.Tree.{tree};
ghost use Rattle.tetri_strl.specs.WellMade.{IsSound as IsSoundTree};

use crate::own::{own_grants, own_pieces};
use crate::row::{Departure, Outcome, Row};
use std::alloc::{AllocError, Global};
use tetri_space::{Instance, Offer};
use tetri_state::{Happened, Piece};
use tetri_strl::{Grant, worth_among};

/// The jobs, ascending. Its only error is want of memory.
pub(crate) fn ascending(alloc: Global, jobs: &[u32]) -> Result<Vec<u32>, AllocError>
    ensures rise { IfOk result (λ v. IsNonDecreasing v.items) }
    ensures same { IfOk result (λ v. (job : ℕ) → has v.items job ≡ has jobs.entry.now job) }
{
    let mut copy = Vec::from_slice(alloc, jobs)?;
    copy.sort()?;
    Ok(copy)
}

// Whether a job is one of these.
fn has_job(jobs: &[u32], job: u32) -> bool
    requires { IsNonDecreasing jobs.now }
    ensures { result ≡ has jobs.now job }
{
    jobs.binary_search(&job).is_ok()
}

// Whether one of the pieces runs longer than it was expected to.
fn some_late(pieces: &[Piece]) -> bool
    ensures { result ≡ list_any is_late pieces.now }
{
    pieces.iter().any(|p| p.expected < p.real)
}

// Whether each of the pieces has ended.
fn all_ended(pieces: &[Piece], now: u32) -> bool
    ensures { result ≡ list_all (has_ended now) pieces.now }
{
    pieces.iter().all(|p| p.real <= now)
}

// How pieces end of which each has ended.
fn ended_as(pieces: &[Piece]) -> Outcome
    ensures { result ≡ ended_as pieces.now }
{
    if some_late(pieces) {
        Outcome::Overran
    } else {
        Outcome::Ran
    }
}

// What becomes of a launch in a slot, where these jobs failed and these were cancelled as it began.
fn outcome_of(row: &Row, now: u32, failed: &[u32], cancelled: &[u32]) -> Outcome
    requires { IsNonDecreasing failed.now × IsNonDecreasing cancelled.now }
    ensures { result ≡ outcome_by failed.now cancelled.now now row.now.job row.now.pieces }
{
    let pieces = row.pieces.as_slice();
    if all_ended(pieces, now) {
        ended_as(pieces)
    } else if has_job(failed, row.job) {
        Outcome::Failed
    } else if has_job(cancelled, row.job) {
        Outcome::Cancelled
    } else {
        Outcome::Running
    }
}

// Whether a launch runs on.
fn goes_on(outcome: Outcome) -> bool
    ensures { result ≡ goes_on outcome }
{
    match outcome {
        Outcome::Running => true,
        Outcome::Ran
        | Outcome::Overran
        | Outcome::Failed
        | Outcome::Cancelled
        | Outcome::Expired
        | Outcome::Waiting => false,
    }
}

// The launch, which ran up to this slot.
fn close(row: Row, now: u32, outcome: Outcome) -> Row
    ensures { result ≡ closed_as now outcome row }
{
    Row {
        job: row.job,
        outcome,
        start: row.start,
        end: Some(now),
        worth: row.worth,
        pieces: row.pieces,
    }
}

// Puts a launch of which this becomes in a slot where it belongs: to those that stay, or to the closed ones.
fn place_row(
    row: Row,
    now: u32,
    outcome: Outcome,
    staying: &mut Vec<Row>,
    left: &mut Vec<Row>,
) -> Result<(), AllocError>
    ensures staying { OnOk result (staying.new.items ≡ staying.old.items ++ (if goes_on outcome then row ∷ [] else [])) }
    ensures left { OnOk result (left.new.items ≡ left.old.items ++ (if goes_on outcome then [] else closed_as now outcome row ∷ [])) }
{
    if goes_on(outcome) {
        staying.push(row)?;
    } else {
        left.push(close(row, now, outcome))?;
    }
    Ok(())
}

/// The launches that run on in a slot whose beginning is told so. Those that do not are added to the closed ones.
pub(crate) fn part(
    alloc: Global,
    running: Vec<Row>,
    now: u32,
    happened: &Happened,
    left: &mut Vec<Row>,
) -> Result<Vec<Row>, AllocError>
    ensures running { IfOk result (λ v. v.items ≡ staying (occurrences happened.entry.now) now running.items) }
    ensures left { OnOk result (left.new.items ≡ left.old.items ++ leaving (occurrences happened.entry.now) now running.items) }
{
    let failed = ascending(alloc, &happened.failed)?;
    let cancelled = ascending(alloc, &happened.cancelled)?;
    let mut staying = Vec::new(alloc);
    for row in running {
        let outcome = outcome_of(&row, now, &failed, &cancelled);
        place_row(row, now, outcome, &mut staying, left)?;
    }
    Ok(staying)
}

// Adds that jobs were cancelled, or that they expired, in a slot.
fn add_gone(
    jobs: &[u32],
    at: u32,
    outcome: Outcome,
    gone: &mut Vec<Departure>,
) -> Result<(), AllocError>
    ensures { OnOk result (gone.new.items ≡ gone.old.items ++ map (gone_at at outcome) jobs.now) }
{
    for job in jobs {
        gone.push(Departure {
            job: *job,
            at,
            outcome,
        })?;
    }
    Ok(())
}

/// Adds the jobs that were cancelled or expired as a slot began.
pub(crate) fn add_departing(
    happened: &Happened,
    at: u32,
    gone: &mut Vec<Departure>,
) -> Result<(), AllocError>
    ensures { OnOk result (gone.new.items ≡ gone.old.items ++ departing (occurrences happened.entry.now) at) }
{
    add_gone(&happened.cancelled, at, Outcome::Cancelled, gone)?;
    add_gone(&happened.expired, at, Outcome::Expired, gone)
}

// What grants, which ascend by job, are worth to the job of an offer.
#[tactic(auto, using(crate::proofs::WorthLemmas::own_worth))]
fn worth_to(grants: &[Grant], offer: &Offer) -> u64
    requires sound { IsSoundTree (tree offer.now.expr) }
    requires rise { IsNonDecreasingBy (λ g. g.job) grants.now }
    ensures { result ≡ bid_worth grants.now (bid offer.entry.now) }
{
    let own = own_grants(grants, offer.job);
    worth_among(&offer.expr, offer.job, own)
}

// The launch of a job in a slot, by the grants of its cycle and the pieces that these become, both of which ascend by job.
fn launch_row(
    alloc: Global,
    pieces: &[Piece],
    now: u32,
    grants: &[Grant],
    offer: &Offer,
) -> Result<Row, AllocError>
    requires sound { IsSoundTree (tree offer.now.expr) }
    requires grants { IsNonDecreasingBy (λ g. g.job) grants.now }
    requires pieces { IsNonDecreasingBy (λ p. p.job) pieces.now }
    ensures { IfOk result (λ r. r ≡ row_of grants.now pieces.now now (bid offer.entry.now)) }
{
    let worth = worth_to(grants, offer);
    let pieces = own_pieces(alloc, pieces, offer.job)?;
    Ok(Row {
        job: offer.job,
        outcome: Outcome::Running,
        start: Some(now),
        end: None,
        worth,
        pieces,
    })
}

// Adds the launch of the job of an offer, if it is one of these, which ascend.
fn add_row(
    alloc: Global,
    pieces: &[Piece],
    now: u32,
    grants: &[Grant],
    launched: &[u32],
    offer: &Offer,
    running: &mut Vec<Row>,
) -> Result<(), AllocError>
    requires sound { IsSoundTree (tree offer.now.expr) }
    requires grants { IsNonDecreasingBy (λ g. g.job) grants.now }
    requires pieces { IsNonDecreasingBy (λ p. p.job) pieces.now }
    requires rise { IsNonDecreasing launched.now }
    ensures { OnOk result (running.new.items ≡ running.old.items ++ map (row_of grants.now pieces.now now)
        (filter (λ b. has launched.now b.job) (bid offer.entry.now ∷ []))) }
{
    if has_job(launched, offer.job) {
        running.push(launch_row(alloc, pieces, now, grants, offer)?)?;
    }
    Ok(())
}

/// Adds the launches of these jobs in the slot of the instance, by the grants of its cycle and the pieces that these become. All of these
/// ascend by job.
pub(crate) fn add_rows(
    alloc: Global,
    pieces: &[Piece],
    inst: &Instance,
    grants: &[Grant],
    launched: &[u32],
    running: &mut Vec<Row>,
) -> Result<(), AllocError>
    requires sound { IsSoundSpace (space inst.now) }
    requires grants { IsNonDecreasingBy (λ g. g.job) grants.now }
    requires pieces { IsNonDecreasingBy (λ p. p.job) pieces.now }
    requires rise { IsNonDecreasing launched.now }
    ensures { OnOk result (running.new.items ≡ running.old.items ++ map (row_of grants.now pieces.now inst.entry.now.now)
        (filter (λ b. has launched.now b.job) (space inst.entry.now).bids)) }
{
    for offer in &inst.jobs {
        add_row(alloc, pieces, inst.now, grants, launched, offer, running)?;
    }
    Ok(())
}
