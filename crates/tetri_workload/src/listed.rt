// Jobs of a list by their places.
ghost use Rattle.std.specs.Prelude.{◌<◌, All, IfOk, OnOk, length};
ghost use Rattle.tetri_workload.specs.Listed.{jobs_at};
ghost use Rattle.tetri_workload.specs.Ordering.{IsOrderBy};

use std::alloc::{AllocError, Global};
use tetri_logs::LoggedJob;

/// A job of a list: when it was submitted, and its place in the list.
#[derive(Clone, Copy)]
pub struct Listed {
    pub submit: u32,
    pub place: usize,
}

// Puts jobs in order of submission.
fn in_order(listed: &mut Vec<Listed>) -> Result<(), AllocError>
    ensures { OnOk result (IsOrderBy (λ l. l.submit) listed.old.items listed.new.items) }
{
    listed.sort_by_key(|job| job.submit)?;
    Ok(())
}

/// These jobs in order of submission, by their places. Its only error is want of memory.
pub(crate) fn listed_in_order(
    alloc: Global,
    jobs: &[LoggedJob<'_>],
) -> Result<Vec<Listed>, AllocError>
    ensures within { IfOk result (λ listed. All (λ l. l.place < length jobs.now) listed.items) }
    ensures order { IfOk result (λ listed. IsOrderBy (λ j. j.account.submit) jobs.now (jobs_at jobs.now listed.items)) }
{
    let mut listed = Vec::new(alloc);
    for (place, job) in jobs.iter().enumerate() {
        let submit = job.account.submit;
        listed.push(Listed { submit, place })?;
    }
    in_order(&mut listed)?;
    Ok(listed)
}
