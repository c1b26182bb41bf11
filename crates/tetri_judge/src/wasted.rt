// The first grant that earns its job nothing, over all jobs of an instance.
ghost use Rattle.std.specs.Prelude.{◌≡◌, ◌↔◌, None};
ghost use Rattle.std.specs.List.Sorted.{IsNonDecreasingBy};
ghost use Rattle.tetri_claims.specs.Good.{IsThriftyForAll};
ghost use Rattle.tetri_judge.specs.Wasted.{first_wasted, lesser};
ghost use Rattle.tetri_space.specs.Sound.{IsSound};
ghost use Rattle.tetri_space.specs.Space.{space};

use tetri_space::{Instance, ascends_by_job, run_len};
use tetri_strl::{Allotment, Grant, waste_among};

/// The place of the first grant that earns its job nothing; None exactly where the grants are thrifty for each
/// job. Takes no memory. Where the grants ascend by job it goes once through jobs and grants, and holds each
/// job against its own grants alone. Where they do not, it holds each job against every grant.
pub fn first_wasted(inst: &Instance, a: &Allotment) -> Option<u64>
    requires { IsSound (space inst.now) }
    ensures place { result ≡ first_wasted (space inst.entry.now).bids a.now }
    ensures thrifty { (result ≡ None) ↔ IsThriftyForAll (space inst.entry.now) a.now }
{
    let grants = a.as_slice();
    if ascends_by_job(grants) {
        wasted_by_runs(inst, grants)
    } else {
        wasted_by_jobs(inst, grants)
    }
}

fn lesser(first: Option<u64>, second: Option<u64>) -> Option<u64>
    ensures { result ≡ lesser first second }
{
    match (first, second) {
        (Some(m), Some(n)) => Some(m.min(n)),
        (Some(m), None) => Some(m),
        (None, second) => second,
    }
}

fn wasted_by_jobs(inst: &Instance, grants: &[Grant]) -> Option<u64>
    requires { IsSound (space inst.now) }
    ensures { result ≡ first_wasted (space inst.entry.now).bids grants.now }
{
    let mut first = None;
    for offer in &inst.jobs {
        first = lesser(first, waste_among(&offer.expr, offer.job, grants));
    }
    first
}

fn wasted_by_runs(inst: &Instance, grants: &[Grant]) -> Option<u64>
    requires sound { IsSound (space inst.now) }
    requires ascending { IsNonDecreasingBy (λ g. g.job) grants.now }
    ensures { result ≡ first_wasted (space inst.entry.now).bids grants.now }
{
    let mut seen = 0;
    let mut rest = grants;
    for offer in &inst.jobs {
        let (run, later) = rest.split_at(run_len(rest, offer.job));
        if let Some(place) = waste_among(&offer.expr, offer.job, run) {
            return Some(seen as u64 + place);
        }
        seen += run.len();
        rest = later;
    }
    None
}
