// Which pending jobs expire.
ghost use Rattle.std.specs.Prelude.{◌≡◌, ◌+◌, ◌≤◌, All, filter, not, IfOk};
ghost use Rattle.tetri_state.specs.Begin.{has_expired};
ghost use Rattle.tetri_state.specs.Snapshot.{ArrivedBefore};
ghost use Rattle.tetri_trace.specs.Scenario.{scenario};
ghost use Rattle.tetri_trace.specs.Sound.{IsSound};

use std::alloc::{AllocError, Global};
use tetri_request::expired;
use tetri_strl::top_in;
use tetri_trace::{Trace, Work};

// No leaf starts at or after this slot.
const END_OF_STARTS: u32 = 20001;

fn has_expired(trace: &Trace, now: u32, job: u32) -> bool
    requires sound { IsSound (scenario trace.now) }
    requires arrived { ArrivedBefore (scenario trace.now) (now + 1) job }
    requires early { now ≤ 10000 }
    ensures { result ≡ has_expired (scenario trace.now) now job }
{
    let job = trace.job(job);
    match &job.work {
        Work::Strl(expr) => top_in(expr, now, END_OF_STARTS) == 0,
        Work::Asked(ask) => expired(ask, job.arrival, now),
    }
}

// Pending jobs.
#[derive(Drop)]
pub struct Parted {
    // Those that have not expired.
    pub pending: Vec<u32>,
    // Those that have.
    pub expired: Vec<u32>,
}

pub fn part(alloc: Global, trace: &Trace, now: u32, pending: &[u32]) -> Result<Parted, AllocError>
    requires sound { IsSound (scenario trace.now) }
    requires arrived { All (ArrivedBefore (scenario trace.now) (now + 1)) pending.now }
    requires early { now ≤ 10000 }
    ensures pending { IfOk result (λ v. v.pending.items ≡ filter (λ j. not (has_expired (scenario trace.now) now j)) pending.now) }
    ensures expired { IfOk result (λ v. v.expired.items ≡ filter (has_expired (scenario trace.now) now) pending.now) }
{
    let mut parted = Parted {
        pending: Vec::new(alloc),
        expired: Vec::new(alloc),
    };
    for job in pending {
        if has_expired(trace, now, *job) {
            parted.expired.push(*job)?;
        } else {
            parted.pending.push(*job)?;
        }
    }
    Ok(parted)
}
