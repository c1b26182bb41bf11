// The second with which slot 0 begins.
ghost use Rattle.std.specs.Prelude.{◌≡◌, ◌<◌, ◌^◌, IfSome, take};
ghost use Rattle.tetri_logs.specs.Options.{AreGood};
ghost use Rattle.tetri_logs.specs.Origin.{begun, begun_at, begun_with, first_second, gap_after, gap_at, gap_of, is_in_run, last_second, may_begin};

use crate::account::Account;
use crate::entry::LoggedJob;
use crate::options::{Options, Settings};
use crate::placing::has_place;
use crate::scale::moment_of;

// With slot 0 at this second.
fn begun_at(settings: &Settings, second: u64) -> Settings
    requires { AreGood settings.now }
    ensures value { result ≡ begun_at settings.now second }
    ensures good { AreGood result }
{
    Settings {
        origin: second,
        ..*settings
    }
}

/// Whether a job would have a place if slot 0 began with it.
pub fn may_begin(settings: &Settings, account: Account) -> bool
    requires { AreGood settings.now }
    ensures { result ≡ may_begin settings.now account }
{
    let begun = begun_at(settings, moment_of(settings, account));
    has_place(&begun, &account)
}

/// With slot 0 at the submission of a job, if it may begin.
pub fn begun_with(settings: &Settings, account: Account) -> Option<Settings>
    requires { AreGood settings.now }
    ensures value { result ≡ begun_with settings.now account }
    ensures good { IfSome result AreGood }
    ensures small { IfSome result (λ s. s.origin < 2 ^ 33) }
{
    if !may_begin(settings, account) {
        return None;
    }
    Some(begun_at(settings, moment_of(settings, account)))
}

/// Whether a job comes early enough for the trace.
pub fn is_in_run(settings: &Settings, account: Account) -> bool
    requires good { AreGood settings.now }
    requires small { settings.now.origin < 2 ^ 33 }
    ensures { result ≡ is_in_run settings.now account }
{
    moment_of(settings, account) < settings.origin + 10_000 * u64::from(settings.slot)
}

// When the first of these jobs was submitted that may begin.
fn first_second(settings: &Settings, jobs: &[LoggedJob]) -> u64
    requires { AreGood settings.now }
    ensures value { result ≡ first_second settings.now jobs.now }
    ensures small { result < 2 ^ 33 }
{
    for job in jobs {
        if may_begin(settings, job.account) {
            return moment_of(settings, job.account);
        }
    }
    0
}

/// With slot 0 at the first submission of a job that may begin. The jobs are in order of submission.
pub fn begun(settings: &Settings, jobs: &[LoggedJob]) -> Settings
    requires { AreGood settings.now }
    ensures value { result ≡ begun settings.now jobs.now }
    ensures good { AreGood result }
    ensures small { result.origin < 2 ^ 33 }
{
    begun_at(settings, first_second(settings, jobs))
}

// When the last of these jobs was submitted that may begin, or else this second.
fn last_second(settings: &Settings, second: u64, jobs: &[LoggedJob]) -> u64
    requires good { AreGood settings.now }
    requires small { second < 2 ^ 33 }
    ensures value { result ≡ last_second settings.now second jobs.now }
    ensures small { result < 2 ^ 33 }
{
    let mut last = second;
    for job in jobs {
        if may_begin(settings, job.account) {
            last = moment_of(settings, job.account);
        }
    }
    last
}

// The gap before a job that was submitted at this second, behind the last of these.
fn gap_at(settings: &Settings, last: u64, jobs: &[LoggedJob], second: u64) -> Option<u64>
    requires good { AreGood settings.now }
    requires before { last < 2 ^ 33 }
    ensures { result ≡ gap_at settings.now (last_second settings.now last jobs.now) second }
{
    let run = 10_000 * u64::from(settings.slot);
    if last_second(settings, last, jobs) + run <= second {
        Some(second)
    } else {
        None
    }
}

// Where no job comes too late for the trace, none needs to be placed.
fn gap_after(settings: &Settings, last: u64, jobs: &[LoggedJob]) -> Option<u64>
    requires good { AreGood settings.now }
    requires small { settings.now.origin < 2 ^ 33 }
    requires before { last < 2 ^ 33 }
    ensures { result ≡ gap_after settings.now last jobs.now }
{
    let end = settings.origin + 10_000 * u64::from(settings.slot);
    for (i, job) in jobs.iter().enumerate() {
        let moment = moment_of(settings, job.account);
        if end <= moment && may_begin(settings, job.account) {
            return gap_at(settings, last, &jobs[..i], moment);
        }
    }
    None
}

/// When the first job was submitted that comes too late for the trace, if it comes so long behind the one before it as a trace is long.
/// Nothing where the caller says when the wanted part begins. The jobs are in order of submission.
pub fn gap_of(options: &Options, settings: &Settings, jobs: &[LoggedJob]) -> Option<u64>
    requires good { AreGood settings.now }
    requires small { settings.now.origin < 2 ^ 33 }
    ensures { result ≡ gap_of options.now settings.now jobs.now }
{
    if options.from.is_some() {
        None
    } else {
        gap_after(settings, settings.origin, jobs)
    }
}
