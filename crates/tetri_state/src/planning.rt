// What a cycle plans for.
ghost use Rattle.std.specs.Prelude.{◌≡◌, ◌+◌, ◌<◌, ◌≤◌, All, length, map, IfOk};
ghost use Rattle.std.specs.List.Sorted.{IsStrictlyIncreasing};
ghost use Rattle.tetri_space.specs.Sound.{IsSound as IsSoundSpace};
ghost use Rattle.tetri_space.specs.Space.{bid, space};
ghost use Rattle.tetri_state.specs.Planning.{bid_of, instance_of};
ghost use Rattle.tetri_state.specs.Reached as moment;
ghost use Rattle.tetri_state.specs.Reached.{IsReached};
ghost use Rattle.tetri_state.specs.Snapshot.{ArrivedBefore, offered};
ghost use Rattle.tetri_strl.specs.Tree.{tree};
ghost use Rattle.tetri_trace.specs.Scenario.{scenario};
ghost use Rattle.tetri_trace.specs.Sound.{IsSound};

use crate::State;
use crate::busy::busy_row;
use std::alloc::{AllocError, Global};
use std::rc::Rc;
use tetri_request::options;
use tetri_space::{Instance, Offer};
use tetri_strl::{Expr, copy_expr};
use tetri_trace::{Trace, Work};

// What a job offers in a slot.
fn offered(alloc: Global, trace: &Trace, now: u32, job: u32) -> Result<Expr, AllocError>
    requires sound { IsSound (scenario trace.now) }
    requires arrived { ArrivedBefore (scenario trace.now) (now + 1) job }
    requires early { now ≤ 10000 }
    ensures { IfOk result (λ e. tree e ≡ offered (scenario trace.entry.now) now job) }
{
    let job = trace.job(job);
    match &job.work {
        Work::Strl(expr) => copy_expr(alloc, expr),
        Work::Asked(ask) => match options(alloc, ask, job.arrival, now, trace.header.window)? {
            Some(offer) => Ok(offer),
            None => Ok(Expr::Sum(Vec::new(alloc))),
        },
    }
}

// What pending jobs offer in a slot.
fn offers(alloc: Global, trace: &Trace, now: u32, pending: &[u32]) -> Result<Vec<Offer>, AllocError>
    requires sound { IsSound (scenario trace.now) }
    requires arrived { All (ArrivedBefore (scenario trace.now) (now + 1)) pending.now }
    requires early { now ≤ 10000 }
    ensures { IfOk result (λ v. map bid v.items ≡ map (bid_of (scenario trace.entry.now) now) pending.now) }
{
    let mut offers = Vec::with_capacity(alloc, pending.len())?;
    for job in pending {
        let expr = offered(alloc, trace, now, *job)?;
        offers.push(Offer { job: *job, expr })?;
    }
    Ok(offers)
}

impl State {
    /// What the cycle plans for, once its slot has begun: what each pending job offers in this slot, made here once for all
    /// that is asked of the cycle. The sets of nodes and the closures are the trace's. Its only error is want of memory.
    pub fn instance(&self, alloc: Global, trace: &Trace) -> Result<Instance, AllocError>
        requires sound { IsSound (scenario trace.now) }
        requires reached { IsReached (scenario trace.now) moment.begun self.now }
        ensures instance { IfOk result (λ i. space i ≡ instance_of (scenario trace.entry.now) self.entry.now) }
        ensures sound { IfOk result (λ i. IsSoundSpace (space i)) }
        ensures sets { IfOk result (λ i. All IsStrictlyIncreasing (space i).sets) }
    {
        self.instance_made(alloc, trace)
    }

    fn instance_made(&self, alloc: Global, trace: &Trace) -> Result<Instance, AllocError>
        requires sound { IsSound (scenario trace.now) }
        requires jobs { All (ArrivedBefore (scenario trace.now) (self.now.now + 1)) self.now.pending }
        requires early { self.now.now ≤ 10000 }
        requires nodes { All (λ p. All (λ n. n < length (scenario trace.now).nodes) p.nodes) self.now.pieces }
        ensures { IfOk result (λ i. space i ≡ instance_of (scenario trace.entry.now) self.entry.now) }
    {
        let nodes = trace.cluster.count();
        Ok(Instance {
            now: self.now,
            window: trace.header.window,
            nodes,
            sets: Rc::clone(&trace.sets)?,
            busy_until: busy_row(alloc, nodes, self.now, &self.pieces)?,
            drained: Vec::from_slice(alloc, &self.drained)?,
            closures: Rc::clone(&trace.closures)?,
            jobs: offers(alloc, trace, self.now, &self.pending)?,
        })
    }
}
