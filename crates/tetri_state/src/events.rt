// What the events of a slot do.
ghost use Rattle.std.specs.Prelude.{◌≡◌, ◌==◌, [], All, None, filter, length, slice_index_or, IfOk, OnOk};
ghost use Rattle.std.specs.List.Sorted.{IsNonDecreasingBy, IsStrictlyIncreasing};
ghost use Rattle.tetri_base.specs.Lists.{has};
ghost use Rattle.tetri_state.specs.Begin.{IsOfNodeBelow, cancel, fail, happen, happen_all, put_number, without};

use crate::happened::PieceId;
use crate::told::runs;
use std::alloc::{AllocError, Global};
use std::marker::Model;
use tetri_trace::{Event, Happening};

// The events of a slot, among those that ascend by slot.
pub fn events_at(events: &[Event], now: u32) -> &[Event]
    requires { IsNonDecreasingBy (λ e. e.at) events.now }
    ensures { result.now ≡ filter (λ e. e.at == now) events.now }
{
    let from = events.partition_point(|event| event.at < now);
    let (_, rest) = events.split_at(from);
    let count = rest.partition_point(|event| event.at <= now);
    &rest[..count]
}

// What events change.
#[derive(Drop)]
pub struct Turn {
    pub drained: Vec<bool>,
    pub pending: Vec<u32>,
    pub running: Vec<PieceId>,
    pub cancelled: Vec<u32>,
    pub failed: Vec<u32>,
}

impl Model for Turn {
    ghost use Rattle.tetri_state.specs.Begin as begin;

    ghost Value = { begin.Turn };

    ghost view = { λ v. record {
      drained = v.drained.items;
      pending = v.pending.items;
      running = v.running.items;
      cancelled = v.cancelled.items;
      failed = v.failed.items;
    } };
}

impl Turn {
    // A job that is pending or runs is cancelled.
    fn cancel(&mut self, job: u32) -> Result<(), AllocError>
        requires pending { IsStrictlyIncreasing self.old.pending }
        requires running { IsNonDecreasingBy (λ a. a.job) self.old.running }
        ensures { OnOk result (self.new ≡ cancel job self.old) }
    {
        let waited = leave(&mut self.pending, job);
        if waited || runs(&self.running, job) {
            self.running.retain(|id| id.job != job);
            self.cancelled.push(job)?;
        }
        Ok(())
    }

    // A job loses its pieces, where some run, and waits again.
    fn fail(&mut self, job: u32) -> Result<(), AllocError>
        requires pending { IsStrictlyIncreasing self.old.pending }
        requires running { IsNonDecreasingBy (λ a. a.job) self.old.running }
        ensures { OnOk result (self.new ≡ fail job self.old) }
    {
        if runs(&self.running, job) {
            self.running.retain(|piece| piece.job != job);
            put_number(&mut self.pending, job)?;
            self.failed.push(job)?;
        }
        Ok(())
    }

    // What an event does, where these are by node the jobs whose pieces are on the nodes.
    fn take(&mut self, what: Happening, holders: &[Option<u32>]) -> Result<(), AllocError>
        requires pending { IsStrictlyIncreasing self.old.pending }
        requires running { IsNonDecreasingBy (λ a. a.job) self.old.running }
        requires known { IsOfNodeBelow (length self.old.drained) what }
        requires holders { length holders.now ≡ length self.old.drained }
        ensures { OnOk result (self.new ≡ happen (λ n. slice_index_or holders.now n None) what self.old) }
    {
        match what {
            Happening::Arrive(job) => put_number(&mut self.pending, job)?,
            Happening::Cancel(job) => self.cancel(job)?,
            Happening::Drain(node) => self.drained[node as usize] = true,
            Happening::Undrain(node) => self.drained[node as usize] = false,
            Happening::Fail(node) => {
                self.drained[node as usize] = true;
                if let Some(job) = holders[node as usize] {
                    self.fail(job)?;
                }
            }
        }
        Ok(())
    }
}

// Puts a number among those that ascend, unless it is there.
fn put_number(numbers: &mut Vec<u32>, number: u32) -> Result<(), AllocError>
    requires { IsStrictlyIncreasing numbers.old.items }
    ensures { OnOk result (numbers.new.items ≡ put_number number numbers.old.items) }
{
    if let Err(place) = numbers.binary_search(&number) {
        numbers.insert(place, number)?;
    }
    Ok(())
}

// Takes a job out of those that ascend, and says whether it was there.
fn leave(jobs: &mut Vec<u32>, job: u32) -> bool
    requires { IsStrictlyIncreasing jobs.old.items }
    ensures was { result ≡ has jobs.old.items job }
    ensures left { jobs.new.items ≡ without job jobs.old.items }
{
    match jobs.binary_search(&job) {
        Ok(place) => {
            jobs.remove(place);
            true
        }
        Err(_) => false,
    }
}

// What the events change in their order, where these are by node the jobs whose pieces are on the nodes.
pub fn take_all(
    alloc: Global,
    drained: &[bool],
    pending: &[u32],
    running: &[PieceId],
    holders: &[Option<u32>],
    events: &[Event],
) -> Result<Turn, AllocError>
    requires pending { IsStrictlyIncreasing pending.now }
    requires running { IsNonDecreasingBy (λ a. a.job) running.now }
    requires holders { length holders.now ≡ length drained.now }
    requires known { All (λ e. IsOfNodeBelow (length drained.now) e.what) events.now }
    ensures turn { IfOk result (λ v. v ≡ happen_all (λ n. slice_index_or holders.now n None) events.now (record {
      drained = drained.now;
      pending = pending.now;
      running = running.now;
      cancelled = [];
      failed = [];
    })) }
    ensures pending { IfOk result (λ v. IsStrictlyIncreasing v.pending) }
    ensures running { IfOk result (λ v. IsNonDecreasingBy (λ a. a.job) v.running) }
{
    let mut turn = Turn {
        drained: Vec::from_slice(alloc, drained)?,
        pending: Vec::from_slice(alloc, pending)?,
        running: Vec::from_slice(alloc, running)?,
        cancelled: Vec::new(alloc),
        failed: Vec::new(alloc),
    };
    for event in events {
        turn.take(event.what, holders)?;
    }
    Ok(turn)
}
