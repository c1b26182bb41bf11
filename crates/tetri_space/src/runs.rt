// Grants that ascend by job, each job's in one run.
ghost use Rattle.std.specs.Prelude.{◌↔◌, ◌<◌, ◌≤◌, All, IsTrue, drop, length, take};
ghost use Rattle.std.specs.List.Sorted.{IsNonDecreasingBy};

use tetri_strl::Grant;

/// Whether the grants ascend by job, so that each job's stand in one run.
pub fn ascends_by_job(grants: &[Grant]) -> bool
    ensures { IsTrue result ↔ IsNonDecreasingBy (λ g. g.job) grants.now }
{
    let mut last = 0;
    for grant in grants {
        if grant.job < last {
            return false;
        }
        last = grant.job;
    }
    true
}

/// How many of the grants, which ascend by job, stand before those of the jobs above `job`.
pub fn run_len(grants: &[Grant], job: u32) -> usize
    requires { IsNonDecreasingBy (λ g. g.job) grants.now }
    ensures bound { result ≤ length grants.now }
    ensures run { All (λ g. g.job ≤ job) (take result grants.now) }
    ensures past { All (λ g. job < g.job) (drop result grants.now) }
{
    for (len, grant) in grants.iter().enumerate() {
        if grant.job > job {
            return len;
        }
    }
    grants.len()
}
