// The state of the cycles.
ghost use Rattle.std.specs.Prelude.{◌≡◌, length, IfOk, option_map, slice_get};
ghost use Rattle.tetri_state.specs.Reached as moment;
ghost use Rattle.tetri_state.specs.Reached.{IsReached};
ghost use Rattle.tetri_state.specs.Snapshot.{opening_state};
ghost use Rattle.tetri_trace.specs.Scenario.{scenario};
ghost use Rattle.tetri_trace.specs.Sound.{IsSound};

use crate::pieces::Piece;
use std::alloc::{AllocError, Global};
use std::marker::Model;
use tetri_strl::Allotment;
use tetri_trace::Trace;

/// The state of a run between two cycles, or in a cycle once its slot has begun: the slot, the drained nodes, the pending
/// jobs, the running pieces, what became of the other jobs, and the last plan.
#[derive(Drop)]
pub struct State {
    pub(crate) now: u32,
    // By node.
    pub(crate) drained: Vec<bool>,
    // Ascending.
    pub(crate) pending: Vec<u32>,
    // In order of launch.
    pub(crate) pieces: Vec<Piece>,
    // With room for all that are pending.
    pub(crate) launched: Vec<u32>,
    pub(crate) ended: Vec<u32>,
    pub(crate) cancelled: Vec<u32>,
    pub(crate) expired: Vec<u32>,
    pub(crate) plan: Allotment,
}

impl Model for State {
    ghost use Rattle.std.specs.Prelude.{◌+◌, ◌≤◌, vec_capacity, vec_len};
    ghost use Rattle.tetri_state.specs.Snapshot.{Snapshot};

    ghost Value = { Snapshot };

    ghost view = { λ s. record {
      now = s.now;
      drained = s.drained.items;
      pending = s.pending.items;
      pieces = s.pieces.items;
      launched = s.launched.items;
      ended = s.ended.items;
      cancelled = s.cancelled.items;
      expired = s.expired.items;
      plan = s.plan;
    } };

    ghost invariant = { λ s. vec_len s.launched + vec_len s.pending ≤ vec_capacity s.launched };
}

impl State {
    /// The state as a run of the trace opens: slot 0, and nothing drained, pending or running. Its only error is want of
    /// memory.
    #[tactic(auto, using(crate::proofs::ReachedLemmas::opening_reached))]
    pub fn open(alloc: Global, trace: &Trace) -> Result<State, AllocError>
        requires { IsSound (scenario trace.now) }
        ensures state { IfOk result (λ s. s ≡ opening_state (scenario trace.entry.now)) }
        ensures reached { IfOk result (IsReached (scenario trace.entry.now) moment.between) }
    {
        State::opening(alloc, trace)
    }

    /// The slot.
    pub fn now(&self) -> u32
        ensures { result ≡ self.entry.now.now }
    {
        self.now
    }

    /// The running piece at a place in order of launch. `None` exactly where the place is not below their number.
    pub fn piece(&self, place: usize) -> Option<&Piece>
        ensures { option_map (λ p. p.now) result ≡ slice_get self.entry.now.pieces place }
    {
        self.pieces.get(place)
    }

    /// How many jobs were launched so far.
    pub fn launched_count(&self) -> usize
        ensures { result ≡ length self.entry.now.launched }
    {
        self.launched.len()
    }

    /// How many jobs ended so far, with the last of their pieces.
    pub fn ended_count(&self) -> usize
        ensures { result ≡ length self.entry.now.ended }
    {
        self.ended.len()
    }

    /// How many jobs were cancelled so far, pending or running.
    pub fn cancelled_count(&self) -> usize
        ensures { result ≡ length self.entry.now.cancelled }
    {
        self.cancelled.len()
    }

    /// How many jobs expired so far.
    pub fn expired_count(&self) -> usize
        ensures { result ≡ length self.entry.now.expired }
    {
        self.expired.len()
    }

    // The state before the first cycle.
    fn opening(alloc: Global, trace: &Trace) -> Result<State, AllocError>
        ensures { IfOk result (λ s. s ≡ opening_state (scenario trace.now)) }
    {
        let nodes = trace.cluster.count();
        Ok(State {
            now: 0,
            drained: vec![in alloc; false; nodes as usize]?,
            pending: Vec::new(alloc),
            pieces: Vec::new(alloc),
            launched: Vec::new(alloc),
            ended: Vec::new(alloc),
            cancelled: Vec::new(alloc),
            expired: Vec::new(alloc),
            plan: Allotment::new(alloc),
        })
    }
}
