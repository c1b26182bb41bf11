// The jobs without a launch.
ghost use Rattle.std.specs.Prelude.{◌≡◌, ◌++◌, ◌∷◌, ◌<◌, ◌≤◌, ◌==◌, [], ℕ, None, false, find, flat_map, if◌then◌else◌, length, map, slice_index_or, IfOk, IfSome, OnOk};
ghost use Rattle.std.specs.List.{range_with_len};
ghost use Rattle.tetri_accounts.specs.Rows.{has_row, idle_at, idle_by, idle_rows};
ghost use Rattle.tetri_base.specs.Lists.{has};

use crate::row::{Departure, Outcome, Row};
use std::alloc::{AllocError, Global};
use tetri_base::Items;

// The place of a job among so many, if it is one of these.
fn place_in(job: u32, jobs: usize) -> Option<usize>
    ensures some { IfSome result (λ place. (place ≡ job) × (job < jobs)) }
    ensures none { result ≡ None → jobs ≤ job }
{
    let place = job as usize;
    if place < jobs { Some(place) } else { None }
}

// By job, its first departure, if it has one.
fn first_gone(
    alloc: Global,
    jobs: usize,
    gone: &[Departure],
) -> Result<Vec<Option<Departure>>, AllocError>
    ensures len { IfOk result (λ v. length v.items ≡ jobs) }
    ensures first { IfOk result (λ v. (job : ℕ) → job < jobs → slice_index_or v.items job None ≡ find (λ d. d.job == job) gone.entry.now) }
{
    let mut first = vec![in alloc; None; jobs]?;
    let mut place = gone.len();
    while place > 0 {
        place -= 1;
        let departure = gone[place];
        match place_in(departure.job, jobs) {
            Some(job) => first[job] = Some(departure),
            None => {}
        }
    }
    Ok(first)
}

// By job, whether it is one of these.
fn numbers_by_job(alloc: Global, jobs: usize, numbers: &[u32]) -> Result<Vec<bool>, AllocError>
    ensures len { IfOk result (λ v. length v.items ≡ jobs) }
    ensures has { IfOk result (λ v. (job : ℕ) → job < jobs → slice_index_or v.items job false ≡ has numbers.entry.now job) }
{
    let mut have = vec![in alloc; false; jobs]?;
    let mut place = numbers.len();
    while place > 0 {
        place -= 1;
        let number = numbers[place];
        match place_in(number, jobs) {
            Some(job) => have[job] = true,
            None => {}
        }
    }
    Ok(have)
}

// The jobs of rows.
fn jobs_in(alloc: Global, rows: &[Row]) -> Result<Vec<u32>, AllocError>
    ensures { IfOk result (λ v. v.items ≡ map (λ r. r.job) rows.now) }
{
    rows.iter().map(|r| r.job).collect(alloc)
}

// By job, whether one of the rows is its own.
fn rows_by_job(alloc: Global, jobs: usize, rows: &[Row]) -> Result<Vec<bool>, AllocError>
    ensures len { IfOk result (λ v. length v.items ≡ jobs) }
    ensures has { IfOk result (λ v. (job : ℕ) → job < jobs → slice_index_or v.items job false ≡ has_row rows.entry.now job) }
{
    let numbers = jobs_in(alloc, rows)?;
    let have = numbers_by_job(alloc, jobs, &numbers)?;
    Ok(have)
}

// A job without a launch, by its departure, if it has one.
fn idle_by(alloc: Global, job: u32, departure: Option<Departure>) -> Row
    ensures { result ≡ idle_by job departure }
{
    let (outcome, end) = match departure {
        Some(departure) => (departure.outcome, Some(departure.at)),
        None => (Outcome::Waiting, None),
    };
    Row {
        job,
        outcome,
        start: None,
        end,
        worth: 0,
        pieces: Items::new(alloc),
    }
}

// Adds a row for a job that has none.
fn add_idle_row(
    alloc: Global,
    job: u32,
    has_one: bool,
    departure: Option<Departure>,
    rows: &mut Vec<Row>,
) -> Result<(), AllocError>
    ensures { OnOk result (rows.new.items ≡ rows.old.items ++ (if has_one then [] else idle_by job departure ∷ [])) }
{
    if !has_one {
        rows.push(idle_by(alloc, job, departure))?;
    }
    Ok(())
}

// Adds a row for each job that has none, by what is known of each.
fn add_idle_rows(
    alloc: Global,
    jobs: u32,
    have: &[bool],
    first: &[Option<Departure>],
    rows: &mut Vec<Row>,
) -> Result<(), AllocError>
    requires have { length have.now ≡ jobs }
    requires first { length first.now ≡ jobs }
    ensures { OnOk result (rows.new.items ≡ rows.old.items ++ flat_map (idle_at have.now first.now) (range_with_len 0 jobs)) }
{
    for job in 0..jobs {
        add_idle_row(alloc, job, have[job as usize], first[job as usize], rows)?;
    }
    Ok(())
}

/// Adds a row for each of the first so many jobs of which none of the rows is.
pub(crate) fn add_idle(
    alloc: Global,
    jobs: u32,
    gone: &[Departure],
    rows: &mut Vec<Row>,
) -> Result<(), AllocError>
    ensures { OnOk result (rows.new.items ≡ rows.old.items ++ idle_rows jobs rows.old.items gone.now) }
{
    let first = first_gone(alloc, jobs as usize, gone)?;
    let have = rows_by_job(alloc, jobs as usize, rows)?;
    add_idle_rows(alloc, jobs, &have, &first, rows)?;
    Ok(())
}
