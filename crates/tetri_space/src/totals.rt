// Totals over the jobs of an instance.
ghost use Rattle.std.specs.Prelude.{◌≡◌};
ghost use Rattle.std.specs.List.Sorted.{IsNonDecreasingBy};
ghost use Rattle.tetri_space.specs.Sound.{IsSound};
ghost use Rattle.tetri_space.specs.Space.{space};
ghost use Rattle.tetri_space.specs.Total.{total_in, tops_in};

use crate::Instance;
use crate::runs::{ascends_by_job, run_len};
use tetri_strl::{Allotment, Grant, top_in, worth_among};

/// What the allotment is worth to all jobs together. Takes no memory. Where the grants ascend by
/// job it goes once through jobs and grants, and weighs each leaf against the grants of its own job
/// alone. Where they do not, it weighs each leaf against every grant, so that its cost grows with
/// the product of their numbers.
pub fn total(inst: &Instance, a: &Allotment) -> u64
    requires { IsSound (space inst.now) }
    ensures { result ≡ total_in (space inst.entry.now) a.now }
{
    let grants = a.as_slice();
    if ascends_by_job(grants) {
        total_by_runs(inst, grants)
    } else {
        total_by_jobs(inst, grants)
    }
}

fn total_by_jobs(inst: &Instance, grants: &[Grant]) -> u64
    requires { IsSound (space inst.now) }
    ensures { result ≡ total_in (space inst.entry.now) grants.now }
{
    let mut total = 0;
    for offer in &inst.jobs {
        total += worth_among(&offer.expr, offer.job, grants);
    }
    total
}

fn total_by_runs(inst: &Instance, grants: &[Grant]) -> u64
    requires sound { IsSound (space inst.now) }
    requires ascending { IsNonDecreasingBy (λ g. g.job) grants.now }
    ensures { result ≡ total_in (space inst.entry.now) grants.now }
{
    let mut total = 0;
    let mut rest = grants;
    for offer in &inst.jobs {
        let (run, later) = rest.split_at(run_len(rest, offer.job));
        total += worth_among(&offer.expr, offer.job, run);
        rest = later;
    }
    total
}

/// The greatest worths of the jobs by structure, together: each leaf that starts in the window is
/// worth its `v`, and any other 0. No lawful allotment is worth more.
pub fn tops(inst: &Instance) -> u64
    requires { IsSound (space inst.now) }
    ensures { result ≡ tops_in (space inst.entry.now) }
{
    let mut total = 0;
    for offer in &inst.jobs {
        total += top_in(&offer.expr, inst.now, inst.now + inst.window);
    }
    total
}
