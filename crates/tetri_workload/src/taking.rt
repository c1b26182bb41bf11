// The jobs that are taken.
ghost use Rattle.std.specs.Prelude.{◌≡◌, ◌<◌, ◌++◌, ◌∷◌, [], IfOk, List, OnOk, Option, false, is_some, length, map, slice_get, string_bytes, true, ℕ};
ghost use Rattle.tetri_trace.specs.Scenario.{job_names, submission};
ghost use Rattle.tetri_cluster.specs.Names.{is_among, number_of};
ghost use Rattle.tetri_logs.specs.Options.{AreGood};
ghost use Rattle.tetri_logs.specs.Placing.{IsPlaced};
ghost use Rattle.tetri_logs.specs.declared.entry.Cause.TheVariants.{Beyond};
ghost use Rattle.tetri_logs.specs.declared.placing.Placing.{Placing};
ghost use Rattle.tetri_workload.specs.Notes.{again_mark, again_name};
ghost use Rattle.tetri_workload.specs.Taking.{IsNoted, again, end_of, events_of, is_beyond, is_full, is_second, kept, left_out, named, nothing_taken, rounded_of, so_far, submitted, taken, taken_all, with_logged};

use crate::notes::Notes;
use std::alloc::{AllocError, Global};
use tetri_logs::{Cause, JobName, LoggedJob, Placing, Reject, SetText, Settings, place};
use tetri_trace::{Event, Happening, Job, Jobs, Work};

/// The jobs that are taken, with what happens to each, and why others are not.
#[derive(Drop)]
pub struct Taken {
    /// In order of submission.
    pub jobs: Jobs,
    /// The second of the log's clock at which each was submitted.
    pub submits: Vec<u32>,
    /// The arrival of each job and, if it is cancelled while it waits, its cancellation.
    pub events: Vec<Event>,
    pub left: Vec<Reject>,
    /// One more than the last slot in which something happens or a job must have ended, at most 10,000.
    pub until: u32,
    /// On which lines jobs stand that take a whole node for fewer processors.
    pub rounded: Vec<usize>,
    /// The set of each job.
    pub sets: Vec<SetText>,
    notes: Notes,
}

// The jobs that a trace has at most.
const MOST_JOBS: usize = 100_000;

// One more than the last slot of a job, at most 10,000.
fn end_of(placing: &Placing) -> u32
    requires { IsPlaced placing.now }
    ensures { result ≡ end_of placing.now }
{
    let deadline = placing.arrival + placing.ask.deadline;
    let last = match placing.cancel {
        Some(slot) => deadline.max(slot),
        None => deadline,
    };
    last.min(9999) + 1
}

impl Taken {
    /// No jobs.
    pub(crate) fn new(alloc: Global) -> Result<Taken, AllocError>
        ensures tally { IfOk result (λ t. so_far t ≡ nothing_taken) }
        ensures noted { IfOk result IsNoted }
    {
        let notes = Notes::new(alloc)?;
        Ok(Taken {
            jobs: Jobs::new(alloc),
            submits: Vec::new(alloc),
            events: Vec::new(alloc),
            left: Vec::new(alloc),
            until: 1,
            rounded: Vec::new(alloc),
            sets: Vec::new(alloc),
            notes,
        })
    }

    // The number of the job with a name, which most names that no job has need not be looked up for.
    #[tactic(auto, using(crate::proofs::MarkLemmas::not_among, crate::proofs::MarkLemmas::not_found))]
    fn find(&self, name: &[u8]) -> Option<u32>
        requires { IsNoted self.now }
        ensures value { result ≡ number_of name.now (job_names (map submission self.now.jobs)) }
        ensures found { is_some result ≡ is_among name.now (job_names (map submission self.now.jobs)) }
    {
        if !self.notes.may_have(name) {
            return None;
        }
        self.jobs.find(name)
    }

    /// Whether so many jobs are there as are wanted or possible.
    pub(crate) fn is_full(&self, settings: &Settings) -> bool
        ensures { result ≡ is_full settings.now (so_far self.now) }
    {
        settings.most as usize <= self.jobs.len() || MOST_JOBS <= self.jobs.len()
    }

    // Whether more jobs are wanted than a trace has at most, and so many are there.
    #[inline(always)]
    fn is_beyond(&self, settings: &Settings) -> bool
        ensures { result ≡ is_beyond settings.now (so_far self.now) }
    {
        MOST_JOBS <= self.jobs.len() && self.jobs.len() < settings.most as usize
    }

    /// Whether the trace is full and each job with a place that is submitted in this second is left out as one more than it takes, whatever its name is.
    #[inline(always)]
    pub(crate) fn has_no_room(&self, settings: &Settings, submit: u32) -> bool
        requires { IsNoted self.now }
        ensures full { result ≡ true → is_full settings.now (so_far self.now) ≡ true }
        ensures beyond { result ≡ true → (line : ℕ) → (name set : List ℕ) → (p : Placing) → (number : Option ℕ) → named settings.now (so_far self.now) line submit name set p number ≡ left_out (so_far self.now) line Beyond }
    {
        if !self.is_beyond(settings) {
            return false;
        }
        self.notes.are_before(submit)
    }

    /// A job that is left out.
    pub(crate) fn leave(&mut self, line: usize, cause: Cause) -> Result<(), AllocError>
        ensures tally { OnOk result (so_far self.new ≡ left_out (so_far self.old) line cause) }
        ensures noted { IsNoted self.old → OnOk result (IsNoted self.new) }
    {
        self.left.push(Reject { line, cause })?;
        Ok(())
    }

    // A job that is taken under a name, which says whether it was submitted again.
    fn take(
        &mut self,
        alloc: Global,
        job: &LoggedJob<'_>,
        name: &JobName<'_>,
        again: bool,
        placing: &Placing,
    ) -> Result<(), AllocError>
        requires again { again ≡ true → (first : List ℕ) × (name.now ≡ again_name first job.now.account.submit) }
        requires few { length self.old.jobs < 100000 }
        requires new { is_among name.now (job_names (map submission self.old.jobs)) ≡ false }
        requires placed { IsPlaced placing.now }
        requires noted { IsNoted self.old }
        ensures tally { OnOk result (so_far self.new ≡ taken (so_far self.old) job.now.line job.now.account.submit name.now job.now.set placing.now) }
        ensures noted { OnOk result (IsNoted self.new) }
    {
        let number = self.jobs.len() as u32;
        add_job(alloc, &mut self.jobs, name, placing)?;
        self.notes.add(name.bytes(), job.account.submit, again);
        self.submits.push(job.account.submit)?;
        self.sets.push(job.set.share()?)?;
        add_events(&mut self.events, number, placing)?;
        self.until = self.until.max(end_of(placing));
        add_rounded(&mut self.rounded, job.line, placing)?;
        Ok(())
    }

    // A job that is taken under a name unless so many are there as are wanted or possible.
    fn keep(
        &mut self,
        alloc: Global,
        settings: &Settings,
        job: &LoggedJob<'_>,
        name: &JobName<'_>,
        again: bool,
        placing: &Placing,
    ) -> Result<(), AllocError>
        requires again { again ≡ true → (first : List ℕ) × (name.now ≡ again_name first job.now.account.submit) }
        requires new { is_among name.now (job_names (map submission self.old.jobs)) ≡ false }
        requires placed { IsPlaced placing.now }
        requires noted { IsNoted self.old }
        ensures tally { OnOk result (so_far self.new ≡ kept settings.now (so_far self.old) job.now.line job.now.account.submit name.now job.now.set placing.now) }
        ensures noted { OnOk result (IsNoted self.new) }
    {
        if settings.most as usize <= self.jobs.len() {
            return self.leave(job.line, Cause::Outside);
        }
        if MOST_JOBS <= self.jobs.len() {
            return self.leave(job.line, Cause::Beyond);
        }
        self.take(alloc, job, name, again, placing)
    }

    // A job that was submitted again, under this name.
    fn add_again(
        &mut self,
        alloc: Global,
        settings: &Settings,
        job: &LoggedJob<'_>,
        name: &[u8],
        placing: &Placing,
    ) -> Result<(), AllocError>
        requires again { (first : List ℕ) × (name.now ≡ again_name first job.now.account.submit) }
        requires placed { IsPlaced placing.now }
        requires noted { IsNoted self.old }
        ensures tally { OnOk result (so_far self.new ≡ again settings.now (so_far self.old) job.now.line job.now.account.submit name.now job.now.set placing.now) }
        ensures noted { OnOk result (IsNoted self.new) }
    {
        let Some(name) = JobName::lent(name) else {
            return self.leave(job.line, Cause::Beyond);
        };
        if self.find(name.bytes()).is_some() {
            return self.leave(job.line, Cause::Repeated);
        }
        self.keep(alloc, settings, job, &name, true, placing)
    }

    // Whether a job was submitted in this second.
    fn is_second(&self, number: u32, submit: u32) -> bool
        ensures { result ≡ is_second (slice_get self.now.submits.items number) submit }
    {
        match self.submits.get(number as usize) {
            Some(second) => *second == submit,
            None => false,
        }
    }

    /// A job with a place, after those that were submitted before it.
    pub(crate) fn add_placed(
        &mut self,
        alloc: Global,
        settings: &Settings,
        job: &LoggedJob<'_>,
        placing: &Placing,
    ) -> Result<(), AllocError>
        requires placed { IsPlaced placing.now }
        requires noted { IsNoted self.old }
        ensures noted { OnOk result (IsNoted self.new) }
        ensures tally { OnOk result (so_far self.new ≡ named settings.now (so_far self.old) job.now.line job.now.account.submit job.now.name job.now.set placing.now (number_of job.now.name (job_names (map submission self.old.jobs)))) }
    {
        match self.find(job.name.bytes()) {
            None => self.keep(alloc, settings, job, &job.name, false, placing),
            Some(number) => {
                if self.is_second(number, job.account.submit) {
                    return self.leave(job.line, Cause::Repeated);
                }
                let again = again_name(alloc, job.name.bytes(), job.account.submit)?;
                self.add_again(alloc, settings, job, &again, placing)
            }
        }
    }

    /// A job of the log, after those that were submitted before it.
    pub(crate) fn add(
        &mut self,
        alloc: Global,
        settings: &Settings,
        job: &LoggedJob<'_>,
    ) -> Result<(), AllocError>
        requires good { AreGood settings.now }
        requires noted { IsNoted self.old }
        ensures tally { OnOk result (so_far self.new ≡ with_logged settings.now (so_far self.old) job.now) }
        ensures noted { OnOk result (IsNoted self.new) }
    {
        match place(settings, &job.account) {
            Ok(placing) => self.add_placed(alloc, settings, job, &placing),
            Err(cause) => self.leave(job.line, cause),
        }
    }
}

// A job under a name that no other has.
fn add_job(
    alloc: Global,
    jobs: &mut Jobs,
    name: &JobName<'_>,
    placing: &Placing,
) -> Result<(), AllocError>
    requires few { length jobs.old < 100000 }
    requires new { is_among name.now (job_names (map submission jobs.old)) ≡ false }
    ensures { OnOk result (map submission jobs.new ≡ map submission jobs.old ++ submitted name.now placing.now ∷ []) }
{
    let name = name.owned(alloc)?;
    jobs.push(Job {
        name,
        arrival: placing.arrival,
        late: placing.late,
        work: Work::Asked(placing.ask),
    })
}

// The arrival of a job with this number and, if it is cancelled while it waits, its cancellation.
fn add_events(events: &mut Vec<Event>, number: u32, placing: &Placing) -> Result<(), AllocError>
    ensures { OnOk result (events.new.items ≡ events.old.items ++ events_of number placing.now) }
{
    events.push(Event {
        at: placing.arrival,
        what: Happening::Arrive(number),
    })?;
    if let Some(slot) = placing.cancel {
        events.push(Event {
            at: slot,
            what: Happening::Cancel(number),
        })?;
    }
    Ok(())
}

// With the line of a job, where it takes a whole node for fewer processors.
fn add_rounded(rounded: &mut Vec<usize>, line: usize, placing: &Placing) -> Result<(), AllocError>
    ensures { OnOk result (rounded.new.items ≡ rounded.old.items ++ rounded_of line placing.now) }
{
    if placing.part_node {
        rounded.push(line)?;
    }
    Ok(())
}

// The mark of a job that was submitted again: when that was.
fn mark_of(alloc: Global, submit: u32) -> Result<String, AllocError>
    ensures { IfOk result (λ text. string_bytes text ≡ again_mark submit) }
{
    format!(in alloc; ":{submit}")
}

// What a job is called that was submitted again: its name, and when that was.
fn again_name(alloc: Global, name: &[u8], submit: u32) -> Result<Vec<u8>, AllocError>
    ensures { IfOk result (λ text. text.items ≡ again_name name.now submit) }
{
    let mark = mark_of(alloc, submit)?;
    let mut text = Vec::from_slice(alloc, name)?;
    text.extend_from_slice(mark.as_bytes())?;
    Ok(text)
}

/// The jobs that are taken of those of a log, in order of submission. Its only error is want of memory.
pub(crate) fn take_all(
    alloc: Global,
    settings: &Settings,
    jobs: &[LoggedJob<'_>],
) -> Result<Taken, AllocError>
    requires { AreGood settings.now }
    ensures { IfOk result (λ t. so_far t ≡ taken_all settings.now jobs.now) }
{
    let mut taken = Taken::new(alloc)?;
    for job in jobs {
        taken.add(alloc, settings, job)?;
    }
    Ok(taken)
}
