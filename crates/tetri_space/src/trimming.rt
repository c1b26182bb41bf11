// What of an allotment earns something.
ghost use Rattle.std.specs.Prelude.{◌≡◌, IfOk};
ghost use Rattle.std.specs.List.Sorted.{IsNonDecreasingBy};
ghost use Rattle.tetri_space.specs.Sound.{IsSound};
ghost use Rattle.tetri_space.specs.Space.{space};
ghost use Rattle.tetri_space.specs.Trimmed.{all_trimmed};

use crate::Instance;
use crate::runs::{ascends_by_job, run_len};
use std::alloc::{AllocError, Global};
use tetri_strl::{Allotment, Grant, trim_into};

/// What `trim` keeps of each job's grants, job by job. It is as lawful, wastes nothing, and is
/// worth as much. Where the grants ascend by job it goes once through jobs and grants. Its only
/// error is want of memory.
pub fn trim_all(alloc: Global, inst: &Instance, a: &Allotment) -> Result<Allotment, AllocError>
    requires { IsSound (space inst.now) }
    ensures { IfOk result (λ made. made ≡ all_trimmed (space inst.entry.now) a.now) }
{
    let grants = a.as_slice();
    if ascends_by_job(grants) {
        trim_by_runs(alloc, inst, grants)
    } else {
        trim_by_jobs(alloc, inst, grants)
    }
}

fn trim_by_jobs(alloc: Global, inst: &Instance, grants: &[Grant]) -> Result<Allotment, AllocError>
    requires { IsSound (space inst.now) }
    ensures { IfOk result (λ made. made ≡ all_trimmed (space inst.entry.now) grants.now) }
{
    let mut made = Allotment::new(alloc);
    for offer in &inst.jobs {
        trim_into(alloc, &offer.expr, offer.job, grants, &mut made)?;
    }
    Ok(made)
}

fn trim_by_runs(alloc: Global, inst: &Instance, grants: &[Grant]) -> Result<Allotment, AllocError>
    requires sound { IsSound (space inst.now) }
    requires ascending { IsNonDecreasingBy (λ g. g.job) grants.now }
    ensures { IfOk result (λ made. made ≡ all_trimmed (space inst.entry.now) grants.now) }
{
    let mut made = Allotment::new(alloc);
    let mut rest = grants;
    for offer in &inst.jobs {
        let (run, later) = rest.split_at(run_len(rest, offer.job));
        trim_into(alloc, &offer.expr, offer.job, run, &mut made)?;
        rest = later;
    }
    Ok(made)
}
