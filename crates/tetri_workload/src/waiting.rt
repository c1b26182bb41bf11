// Jobs that wait until they are handled.
ghost use Rattle.std.specs.Prelude.{◌≡◌, ◌++◌, ◌∷◌, [], IfOk, OnOk};
ghost use Rattle.tetri_workload.specs.Marks.{AreSecondsMarked, is_marked, place_of_second};
ghost use Rattle.tetri_workload.specs.Waiting.{HasSeconds};

use crate::marks::{Marks, place_of_second};
use std::alloc::{AllocError, Global};
use tetri_logs::LoggedJob;

/// Jobs that are held back until they are handled.
#[derive(Drop)]
pub struct Waiting<'a> {
    pub held: Vec<LoggedJob<'a>>,
    // A mark for the second of each of them, and perhaps others.
    seconds: Marks,
}

// A mark for the second of each of these jobs.
fn seconds_of(alloc: Global, jobs: &[LoggedJob<'_>]) -> Result<Marks, AllocError>
    ensures { IfOk result (λ seconds. AreSecondsMarked seconds jobs.now) }
{
    let mut seconds = Marks::new(alloc)?;
    for job in jobs {
        seconds.add(place_of_second(job.account.submit));
    }
    Ok(seconds)
}

impl<'a> Waiting<'a> {
    /// None.
    pub(crate) fn new(alloc: Global) -> Result<Waiting<'a>, AllocError>
        ensures none { IfOk result (λ w. w.held.items ≡ []) }
        ensures seconds { IfOk result HasSeconds }
    {
        Ok(Waiting {
            held: Vec::new(alloc),
            seconds: Marks::new(alloc)?,
        })
    }

    /// Whether one that waits may have been submitted in this second.
    #[inline(always)]
    pub(crate) fn may_share(&self, second: u32) -> bool
        ensures { result ≡ is_marked self.now.seconds (place_of_second second) }
    {
        self.seconds.has(place_of_second(second))
    }

    /// A job that waits too.
    #[inline(always)]
    pub(crate) fn add(&mut self, job: LoggedJob<'a>) -> Result<(), AllocError>
        ensures held { OnOk result (self.new.held.items ≡ self.old.held.items ++ job.entry ∷ []) }
        ensures seconds { OnOk result (HasSeconds self.old → HasSeconds self.new) }
    {
        self.seconds.add(place_of_second(job.account.submit));
        self.held.push(job)?;
        Ok(())
    }

    /// These wait, in the place of those that did.
    pub(crate) fn hold(&mut self, alloc: Global, jobs: Vec<LoggedJob<'a>>) -> Result<(), AllocError>
        ensures held { OnOk result (self.new.held.items ≡ jobs.entry.items) }
        ensures seconds { OnOk result (HasSeconds self.new) }
    {
        self.seconds = seconds_of(alloc, &jobs)?;
        self.held = jobs;
        Ok(())
    }
}
