// What an event does to the trace that is read so far.
ghost use Rattle.std.specs.Prelude.{◌≡◌, ◌<◌, ◌≤◌, ◌≤ℤ◌, pos, negsuc, true, nat_lt, AllPairs, length, if◌then◌else◌, Err, IfOk, OnOk, IsOkUnless, ok_or};
ghost use Rattle.std.specs.List.{list_any};
ghost use Rattle.tetri_cluster.specs.Cluster.{names_of};
ghost use Rattle.tetri_cluster.specs.Names.{is_among, is_name, number_of};
ghost use Rattle.tetri_notice.specs.Answers.{Gives};
ghost use Rattle.tetri_trace.specs.Draft.{so_far, with_sets, BringsNone, IsNextSlot, IsSoundDraft};
ghost use Rattle.tetri_trace.specs.Lines.{admitted, arrived, demand_at, happened, next_slot, with_event};
ghost use Rattle.tetri_notice.specs.Notices.{IsGoodDemand, IsGoodNotice};
ghost use Rattle.tetri_notice.specs.Objects.{demand_text, notice};
ghost use Rattle.tetri_trace.specs.Scenario.{demand_of, job_names, submission};
ghost use Rattle.tetri_trace.specs.Sound.{IsSoundDemand, IsSoundSubmission, NamesKnown};
ghost use Rattle.tetri_notice.specs.declared.fault.TraceWhy.TheVariants as whys;

use crate::asked::{ask_of, expr_of};
use crate::draft::Draft;
use crate::trace::{Event, Happening, Job, Work};
use std::alloc::Global;
use tetri_notice::{Notice, Stop, TraceWhy, WorkText, read_name};

const JOBS_MOST: usize = 100_000;

// Whether one of the events comes after this slot.
fn is_before_one(events: &[Event], at: u64) -> bool
    requires { AllPairs (λ e f. e.at ≤ f.at) events.now }
    ensures { result ≡ list_any (λ e. nat_lt at e.at) events.now }
{
    match events.last() {
        Some(last) => at < u64::from(last.at),
        None => false,
    }
}

/// The slot of one more event, which no earlier event comes after.
pub(crate) fn next_slot(draft: &Draft, at: u64) -> Result<u32, Stop>
    requires { IsSoundDraft draft.now }
    ensures value { Gives (λ n. n) result (next_slot (so_far draft.now) at) }
    ensures next { IfOk result (IsNextSlot (so_far draft.now)) }
{
    if is_before_one(&draft.events, at) {
        return Err(Stop::Because(TraceWhy::OutOfOrder));
    }
    if at >= u64::from(draft.header.until) {
        return Err(Stop::Because(TraceWhy::PastEnd));
    }
    Ok(at as u32)
}

// One event more, which brings no job.
fn with_event(draft: &mut Draft, at: u32, what: Happening) -> Result<(), Stop>
    requires sound { IsSoundDraft draft.old }
    requires next { IsNextSlot (so_far draft.old) at }
    requires known { NamesKnown (so_far draft.old) what }
    requires no_arrival { BringsNone what }
    ensures same { OnOk result (so_far draft.new ≡ with_event (so_far draft.old) at what) }
    ensures sound { OnOk result (IsSoundDraft draft.new) }
    ensures memory { IsOkUnless result Stop.NoMemory }
{
    draft.events.push(Event { at, what })?;
    Ok(())
}

// Why a job is refused: first of all, its name may be taken.
fn refused(draft: &Draft, name: &[u8], stop: Stop) -> Stop
    ensures { result ≡ (if is_among name.now (job_names (so_far draft.now).submissions) then Stop.Because whys.NameTaken else stop) }
{
    if draft.jobs.find(name).is_some() {
        Stop::Because(TraceWhy::NameTaken)
    } else {
        stop
    }
}

// One job more, which arrives, unless its name is taken.
fn with_job(draft: &mut Draft, job: Job) -> Result<(), Stop>
    requires sound { IsSoundDraft draft.old }
    requires next { IsNextSlot (so_far draft.old) job.arrival }
    requires job { IsSoundSubmission (so_far draft.old) (submission job) }
    ensures gives { Gives (λ _. so_far draft.new) result (if is_among job.name (job_names (so_far draft.old).submissions) then Err whys.NameTaken
        else admitted (so_far draft.old) (submission job)) }
    ensures sound { OnOk result (IsSoundDraft draft.new) }
{
    if draft.jobs.len() >= JOBS_MOST {
        let many = Stop::Because(TraceWhy::TooManyJobs);
        return Err(refused(draft, job.name.bytes(), many));
    }
    let arrival = Event {
        at: job.arrival,
        what: Happening::Arrive(draft.jobs.len() as u32),
    };
    if !draft.jobs.add(job)? {
        return Err(Stop::Because(TraceWhy::NameTaken));
    }
    draft.events.push(arrival)?;
    Ok(())
}

// What a job that arrives at this slot asks for. The sets that it names come to the trace.
fn with_work(alloc: Global, draft: &mut Draft, at: u32, work: WorkText) -> Result<Work, Stop>
    requires sound { IsSoundDraft draft.old }
    requires slot { at < draft.old.header.until }
    requires good { IsGoodDemand (demand_text work) }
    ensures value { Gives (λ w. (demand_of w, draft.new.reader.sets)) result (demand_at (so_far draft.old) at (demand_text work.entry)) }
    ensures same { so_far draft.new ≡ with_sets (so_far draft.old) draft.new.reader.sets }
    ensures sound { OnOk result (IsSoundDraft draft.new) }
    ensures good { IfOk result (λ w. IsSoundDemand (length draft.new.reader.sets) at (demand_of w)) }
{
    match work {
        WorkText::Strl(text) => {
            let unit = draft.header.unit;
            let expr = expr_of(alloc, &mut draft.reader, unit, at, text)?;
            let _ = draft.reader.sets().len();
            Ok(Work::Strl(expr))
        }
        WorkText::Asked(ask) => {
            let ask = ask_of(alloc, &mut draft.reader, ask)?;
            let _ = draft.reader.sets().len();
            Ok(Work::Asked(ask))
        }
    }
}

// A job arrives.
#[tactic(auto, unfolding(crate::specs::Lines::arrived))]
fn arrived(
    alloc: Global,
    draft: &mut Draft,
    at: u32,
    name: &str,
    late: i32,
    work: WorkText,
) -> Result<(), Stop>
    requires sound { IsSoundDraft draft.old }
    requires next { IsNextSlot (so_far draft.old) at }
    requires named { is_name name.now ≡ true }
    requires late { (negsuc 9999 ≤ℤ late) × (late ≤ℤ pos 10000) }
    requires good { IsGoodDemand (demand_text work) }
    ensures gives { Gives (λ _. so_far draft.new) result (arrived (so_far draft.old) at name.now late (demand_text work.entry)) }
    ensures sound { OnOk result (IsSoundDraft draft.new) }
{
    let name = read_name(alloc, name)?;
    match with_work(alloc, draft, at, work) {
        Ok(work) => with_job(
            draft,
            Job {
                name,
                arrival: at,
                late,
                work,
            },
        ),
        Err(stop) => Err(refused(draft, name.bytes(), stop)),
    }
}

fn job_named(draft: &Draft, name: &str) -> Result<u32, Stop>
    requires { IsSoundDraft draft.now }
    ensures value { Gives (λ n. n) result (ok_or (number_of name.now (job_names (so_far draft.now).submissions)) whys.NoSuchJob) }
    ensures known { IfOk result (λ n. n < length (so_far draft.now).submissions) }
{
    match draft.jobs.find(name.as_bytes()) {
        Some(job) => Ok(job),
        None => Err(Stop::Because(TraceWhy::NoSuchJob)),
    }
}

fn node_named(draft: &Draft, name: &str) -> Result<u32, Stop>
    ensures value { Gives (λ n. n) result (ok_or (number_of name.now (names_of draft.now.reader.nodes)) whys.NoSuchNode) }
    ensures known { IfOk result (λ n. n < length draft.now.reader.nodes) }
{
    match draft.reader.cluster().node(name.as_bytes()) {
        Some(node) => Ok(node),
        None => Err(Stop::Because(TraceWhy::NoSuchNode)),
    }
}

/// Adds what a notice says.
pub(crate) fn happened(alloc: Global, draft: &mut Draft, at: u32, said: Notice) -> Result<(), Stop>
    requires sound { IsSoundDraft draft.old }
    requires next { IsNextSlot (so_far draft.old) at }
    requires good { IsGoodNotice (notice said) }
    ensures gives { Gives (λ _. so_far draft.new) result (happened (so_far draft.old) at (notice said.entry)) }
    ensures sound { OnOk result (IsSoundDraft draft.new) }
{
    match said {
        Notice::Arrive { name, late, work } => arrived(alloc, draft, at, name, late, work),
        Notice::Cancel(name) => {
            let job = job_named(draft, name)?;
            with_event(draft, at, Happening::Cancel(job))
        }
        Notice::Drain(name) => {
            let node = node_named(draft, name)?;
            with_event(draft, at, Happening::Drain(node))
        }
        Notice::Undrain(name) => {
            let node = node_named(draft, name)?;
            with_event(draft, at, Happening::Undrain(node))
        }
        Notice::Fail(name) => {
            let node = node_named(draft, name)?;
            with_event(draft, at, Happening::Fail(node))
        }
    }
}
