// The beginning of a cycle.
ghost use Rattle.std.specs.Prelude.{◌≡◌, ◌+◌, ◌<◌, ◌≤◌, ◌^◌, ◌&&◌, All, filter, length, map, not, IfOk, OnErr, OnOk};
ghost use Rattle.std.specs.List.Sorted.{IsNonDecreasingBy, IsStrictlyIncreasing};
ghost use Rattle.tetri_state.specs.Begin.{begin, ending, finished, has_ended, occurrences, occurring, prolonged, running_on, runs, standing, told, turn};
ghost use Rattle.tetri_state.specs.Reached as moment;
ghost use Rattle.tetri_state.specs.Reached.{IsReached};
ghost use Rattle.tetri_state.specs.Snapshot.{ArrivedBefore};
ghost use Rattle.tetri_trace.specs.Scenario.{scenario};
ghost use Rattle.tetri_trace.specs.Sound.{IsSound};

use crate::State;
use crate::busy::holder_row;
use crate::events::{events_at, take_all};
use crate::expiry::part;
use crate::happened::{Happened, PieceId};
use crate::pieces::Piece;
use crate::told::{ended, finished, over, running, stays};
use std::alloc::{AllocError, Global};
use tetri_trace::Trace;

// What the beginning of a cycle leaves, but for the running pieces themselves.
#[derive(Drop)]
struct Begun {
    drained: Vec<bool>,
    pending: Vec<u32>,
    // The pieces that stay.
    running: Vec<PieceId>,
    // The jobs whose last pieces ended.
    finished: Vec<u32>,
    happened: Happened,
}

// Leaves the pieces that stay.
fn keep(pieces: &mut Vec<Piece>, now: u32, running: &[PieceId])
    requires { IsNonDecreasingBy (λ a. a.job) running.now }
    ensures { pieces.new.items ≡ filter (λ p. not (has_ended now p) && runs running.now p.job) pieces.old.items }
{
    pieces.retain(|piece| stays(piece, now, running));
}

// Pieces that run longer than expected are expected to end in the next slot.
fn prolong(pieces: &mut [Piece], now: u32)
    requires { now < 20000 }
    ensures { pieces.new ≡ map (prolonged now) pieces.old }
{
    for piece in pieces.iter_mut() {
        if piece.expected <= now {
            piece.expected = now + 1;
        }
    }
}

// What the beginning of the cycle of this slot leaves of a state.
#[tactic(auto, using(crate::proofs::SoundLemmas::slots_rise))]
fn begin_slot(
    alloc: Global,
    trace: &Trace,
    now: u32,
    drained: &[bool],
    pending: &[u32],
    pieces: &[Piece],
) -> Result<Begun, AllocError>
    requires sound { IsSound (scenario trace.now) }
    requires drained { length drained.now ≡ length (scenario trace.now).nodes }
    requires pending { IsStrictlyIncreasing pending.now }
    requires early { now ≤ 10000 }
    requires arrived { All (ArrivedBefore (scenario trace.now) (now + 1))
        (turn (scenario trace.now) (standing now drained.now pending.now pieces.now)).pending }
    requires nodes { All (λ p. All (λ n. n < length (scenario trace.now).nodes) p.nodes) pieces.now }
    ensures drained { let s = standing now drained.now pending.now pieces.now in
        IfOk result (λ b. b.drained.items ≡ (turn (scenario trace.entry.now) s).drained) }
    ensures pending { let s = standing now drained.now pending.now pieces.now in
        IfOk result (λ b. b.pending.items ≡ (begin (scenario trace.entry.now) s).pending) }
    ensures running { let s = standing now drained.now pending.now pieces.now in
        IfOk result (λ b. b.running.items ≡ (turn (scenario trace.entry.now) s).running) }
    ensures rise { IfOk result (λ b. IsNonDecreasingBy (λ a. a.job) b.running.items) }
    ensures finished { let s = standing now drained.now pending.now pieces.now in
        IfOk result (λ b. b.finished.items ≡ finished (told (running_on s)) (told (ending s))) }
    ensures happened { let s = standing now drained.now pending.now pieces.now in
        IfOk result (λ b. occurrences b.happened ≡ occurring (scenario trace.entry.now) s) }
    ensures ended { IfOk result (λ b. All (λ p. p.leaf < 2 ^ 32) b.happened.ended.items) }
    ensures over { IfOk result (λ b. All (λ p. p.leaf < 2 ^ 32) b.happened.over.items) }
{
    let ended = ended(alloc, pieces, now)?;
    let running = running(alloc, pieces, now)?;
    let finished = finished(alloc, &running, &ended)?;
    let events = events_at(&trace.events, now);
    let holders = holder_row(alloc, trace.cluster.count(), now, pieces)?;
    let turn = take_all(alloc, drained, pending, &running, &holders, events)?;
    let over = over(alloc, pieces, now, &turn.running)?;
    let parted = part(alloc, trace, now, &turn.pending)?;
    Ok(Begun {
        drained: turn.drained,
        pending: parted.pending,
        running: turn.running,
        finished,
        happened: Happened {
            ended,
            cancelled: turn.cancelled,
            failed: turn.failed,
            over,
            expired: parted.expired,
        },
    })
}

impl State {
    /// Begins the cycle of the slot: pieces that really end do so, the events of the slot happen, pieces that run longer
    /// than expected are prolonged, and pending jobs that can earn nothing from now on expire, which is found without making
    /// the offers of asks. Its only error is want of memory, which changes nothing.
    pub fn begin_cycle(&mut self, alloc: Global, trace: &Trace) -> Result<Happened, AllocError>
        requires sound { IsSound (scenario trace.now) }
        requires reached { IsReached (scenario trace.now) moment.between self.old }
        requires more { self.old.now < (scenario trace.now).header.until }
        ensures state { OnOk result (self.new ≡ begin (scenario trace.entry.now) self.old) }
        ensures happened { IfOk result (λ h. occurrences h ≡ occurring (scenario trace.entry.now) self.old) }
        ensures ended { IfOk result (λ h. All (λ p. p.leaf < 2 ^ 32) h.ended.items) }
        ensures over { IfOk result (λ h. All (λ p. p.leaf < 2 ^ 32) h.over.items) }
        ensures expired { IfOk result (λ h. IsStrictlyIncreasing h.expired.items) }
        ensures reached { OnOk result (IsReached (scenario trace.entry.now) moment.begun self.new) }
        ensures err { OnErr result (self.new ≡ self.old) }
    {
        self.begin(alloc, trace)
    }

    // The beginning of the cycle. What takes memory comes first.
    fn begin(&mut self, alloc: Global, trace: &Trace) -> Result<Happened, AllocError>
        requires sound { IsSound (scenario trace.now) }
        requires early { self.old.now ≤ 10000 }
        requires drained { length self.old.drained ≡ length (scenario trace.now).nodes }
        requires pending { IsStrictlyIncreasing self.old.pending }
        requires arrived { All (ArrivedBefore (scenario trace.now) (self.old.now + 1)) (turn (scenario trace.now) self.old).pending }
        requires nodes { All (λ p. All (λ n. n < length (scenario trace.now).nodes) p.nodes) self.old.pieces }
        ensures state { OnOk result (self.new ≡ begin (scenario trace.now) self.old) }
        ensures happened { IfOk result (λ h. occurrences h ≡ occurring (scenario trace.now) self.old) }
        ensures ended { IfOk result (λ h. All (λ p. p.leaf < 2 ^ 32) h.ended.items) }
        ensures over { IfOk result (λ h. All (λ p. p.leaf < 2 ^ 32) h.over.items) }
        ensures err { OnErr result (self.new ≡ self.old) }
    {
        let now = self.now;
        let mut begun = begin_slot(
            alloc,
            trace,
            now,
            &self.drained,
            &self.pending,
            &self.pieces,
        )?;
        self.launched.reserve(begun.pending.len())?;
        self.ended.reserve(begun.finished.len())?;
        self.cancelled.reserve(begun.happened.cancelled.len())?;
        self.expired.reserve(begun.happened.expired.len())?;
        keep(&mut self.pieces, now, &begun.running);
        prolong(&mut self.pieces, now);
        self.drained = begun.drained;
        self.pending = begun.pending;
        let _ = self.ended.append(&mut begun.finished);
        let _ = self.cancelled.extend_from_slice(&begun.happened.cancelled);
        let _ = self.expired.extend_from_slice(&begun.happened.expired);
        Ok(begun.happened)
    }
}
