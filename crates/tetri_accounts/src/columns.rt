// What the columns of a row hold.
ghost use Rattle.std.specs.Prelude.{◌≡◌, IfOk};
ghost use Rattle.tetri_accounts.specs.Text.{outcome_text, top_at, wait_of, worth_of};
ghost use Rattle.tetri_cluster.specs.Cluster.{name_at};
ghost use Rattle.tetri_report.specs.Text.{job_name};
ghost use Rattle.tetri_trace.specs.Scenario.{scenario, submission_of};
ghost use Rattle.tetri_trace.specs.Sound.{IsSound};

use crate::row::{Outcome, Row};
use std::alloc::{AllocError, Global};
use tetri_report::name_of;
use tetri_request::options;
use tetri_strl::top_in;
use tetri_trace::{Trace, Work};

/// The word of an outcome.
pub fn outcome_word(outcome: Outcome) -> &'static str
    ensures { result.now ≡ outcome_text outcome }
{
    match outcome {
        Outcome::Ran => "ran",
        Outcome::Overran => "overran",
        Outcome::Failed => "failed",
        Outcome::Cancelled => "cancelled",
        Outcome::Expired => "expired",
        Outcome::Waiting => "waiting",
        Outcome::Running => "running",
    }
}

/// The name of a job, which is empty where the trace has no such job.
pub fn job_name(trace: &Trace, job: u32) -> &str
    ensures { result.now ≡ job_name (scenario trace.entry.now) job }
{
    if (job as usize) < trace.jobs.len() {
        name_of(trace, job)
    } else {
        ""
    }
}

/// The name of a node, which is empty where the trace has no such node.
pub fn node_name(trace: &Trace, node: u32) -> &str
    ensures { result.now ≡ name_at (scenario trace.entry.now).nodes node }
{
    if node < trace.cluster.count() {
        trace.cluster.name_of(node).text()
    } else {
        ""
    }
}

/// When a job arrived, 0 where the trace has no such job.
pub fn arrival_of(trace: &Trace, job: u32) -> u32
    ensures { result ≡ (submission_of (scenario trace.entry.now) job).arrival }
{
    if (job as usize) < trace.jobs.len() {
        trace.job(job).arrival
    } else {
        0
    }
}

/// How many slots a job waited from its arrival on: up to its launch, and without one up to its end, or to the end of the run.
pub fn wait_of(trace: &Trace, row: &Row) -> u32
    ensures { result ≡ wait_of (scenario trace.entry.now) row.entry.now }
{
    let end = row.end.unwrap_or(trace.header.until);
    let until = row.start.unwrap_or(end);
    until.saturating_sub(arrival_of(trace, row.job))
}

/// What a launch was worth; a job without one has no such number.
pub fn worth_of(row: &Row) -> Option<u64>
    ensures { result ≡ worth_of row.now }
{
    match row.start {
        Some(_) => Some(row.worth),
        None => None,
    }
}

/// The most that a job could earn as it arrived, by its leaves that start from then on.
pub fn top_at(alloc: Global, trace: &Trace, job: u32) -> Result<u64, AllocError>
    requires { IsSound (scenario trace.now) }
    ensures { IfOk result (λ top. top ≡ top_at (scenario trace.entry.now) job) }
{
    if (job as usize) >= trace.jobs.len() {
        return Ok(0);
    }
    let job = trace.job(job);
    let now = job.arrival;
    match &job.work {
        Work::Strl(expr) => Ok(top_in(expr, now, 20_001)),
        Work::Asked(ask) => match options(alloc, ask, now, now, trace.header.window)? {
            Some(offer) => Ok(top_in(&offer, now, 20_001)),
            None => Ok(0),
        },
    }
}
