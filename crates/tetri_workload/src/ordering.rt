// Jobs in order of submission, events in order of slot, and what is left out in the order of its lines. What comes at one place stays in
// its order.
ghost use Rattle.std.specs.Prelude.{OnOk};
ghost use Rattle.tetri_workload.specs.Ordering.{IsOrderBy};

use std::alloc::AllocError;
use tetri_logs::{LoggedJob, Reject};
use tetri_trace::Event;

/// Puts jobs in order of submission. Its only error is want of memory.
pub(crate) fn by_submission(jobs: &mut Vec<LoggedJob<'_>>) -> Result<(), AllocError>
    ensures { OnOk result (IsOrderBy (λ j. j.account.submit) jobs.old.items jobs.new.items) }
{
    jobs.sort_by_key(|job| job.account.submit)?;
    Ok(())
}

/// Puts events in order of slot. Its only error is want of memory.
pub(crate) fn by_slot(events: &mut Vec<Event>) -> Result<(), AllocError>
    ensures { OnOk result (IsOrderBy (λ e. e.at) events.old.items events.new.items) }
{
    events.sort_by_key(|event| event.at)?;
    Ok(())
}

/// Puts what is left out in the order of its lines. Its only error is want of memory.
pub(crate) fn by_line(left: &mut Vec<Reject>) -> Result<(), AllocError>
    ensures { OnOk result (IsOrderBy (λ r. r.line) left.old.items left.new.items) }
{
    left.sort_by_key(|reject| reject.line)?;
    Ok(())
}
