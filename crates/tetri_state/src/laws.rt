// Laws of the states that a run reaches.
ghost use Rattle.std.specs.Prelude.{◌≡◌, ◌+◌, ◌<◌, ℕ, Some, List, length, All, AllPairs, Contains};
ghost use Rattle.tetri_request.specs.Options.{offer};
ghost use Rattle.tetri_request.specs.declared.ask.Ask.{Ask};
ghost use Rattle.tetri_space.specs.Free.{IsFree};
ghost use Rattle.tetri_space.specs.Lawful.{IsLawful};
ghost use Rattle.tetri_space.specs.Space.{Covers, leaf_in};
ghost use Rattle.tetri_state.specs.After.{after};
ghost use Rattle.tetri_state.specs.Begin.{occurring};
ghost use Rattle.tetri_state.specs.Known.{AreOfJobs};
ghost use Rattle.tetri_state.specs.Pieces.{RunsOnUnlessTold, ShareNoNode};
ghost use Rattle.tetri_state.specs.Planning.{instance_of};
ghost use Rattle.tetri_state.specs.Reached as moment;
ghost use Rattle.tetri_state.specs.Reached.{IsReached};
ghost use Rattle.tetri_state.specs.Snapshot.{ArrivedBefore, Snapshot, offered};
ghost use Rattle.tetri_state.specs.declared.pieces.Piece.{Piece};
ghost use Rattle.tetri_strl.specs.declared.expr.Leaf.{Leaf};
ghost use Rattle.tetri_strl.specs.declared.grants.Grant.{Grant};
ghost use Rattle.tetri_strl.specs.Tree.{Tree, leaves};
ghost use Rattle.tetri_trace.specs.Scenario.{asks, scenario, submission_of};
ghost use Rattle.tetri_trace.specs.Sound.{IsSound};

use tetri_trace::Trace;

/// No two running pieces share a node.
pub fn no_two_running_pieces_share_a_node(trace: &Trace)
    requires { IsSound (scenario trace.now) }
    ensures { (m : moment.Moment) (s : Snapshot) → IsReached (scenario trace.entry.now) m s → AllPairs ShareNoNode s.pieces }
{}

/// A piece that runs in one slot runs in the next slot on the same nodes, unless the beginning of that slot tells that it
/// ended, that its job was cancelled, or that its job failed.
pub fn running_pieces_run_on_unless_told(trace: &Trace)
    ensures stays { (s : Snapshot) (a : List Grant) (p : Piece) → Contains s.pieces p
        → Contains (after (scenario trace.entry.now) s a).pieces p }
    ensures runs_on { (s : Snapshot) (p : Piece) → Contains s.pieces p → RunsOnUnlessTold (scenario trace.entry.now) s p }
{}

/// The nodes of a running piece, one that ran over or not, are free to nobody in the slot, and no lawful grant uses one of
/// them in that slot.
pub fn nodes_of_running_pieces_are_taken(trace: &Trace)
    requires { IsSound (scenario trace.now) }
    ensures not_free { (s : Snapshot) (p : Piece) (n : ℕ) → IsReached (scenario trace.entry.now) moment.begun s
        → Contains s.pieces p → Contains p.nodes n → IsFree (instance_of (scenario trace.entry.now) s) n s.now → ⊥ }
    ensures not_granted { (s : Snapshot) (p : Piece) (n : ℕ) (a : List Grant) (g : Grant) (l : Leaf)
        → IsReached (scenario trace.entry.now) moment.begun s → Contains s.pieces p → Contains p.nodes n
        → IsLawful (instance_of (scenario trace.entry.now) s) a → Contains a g
        → leaf_in (instance_of (scenario trace.entry.now) s).bids g.job g.leaf ≡ Some l → Covers l s.now → Contains g.nodes n → ⊥ }
{}

/// Once a slot has begun, each pending job that asks has an offer in it.
pub fn pending_asks_have_offers(trace: &Trace)
    requires { IsSound (scenario trace.now) }
    ensures { (s : Snapshot) (job : ℕ) (a : Ask) → IsReached (scenario trace.entry.now) moment.begun s → Contains s.pending job
        → (submission_of (scenario trace.entry.now) job).demand ≡ asks a
        → (e : Tree) × (offer a (submission_of (scenario trace.entry.now) job).arrival s.now (scenario trace.entry.now).header.window ≡ Some e) }
{}

/// In all that a job offers, in whatever slots since it arrived, a number names the same leaf. So what was planned for an
/// ask in one slot names the same leaf in the next.
pub fn leaves_keep_their_numbers(trace: &Trace)
    requires { IsSound (scenario trace.now) }
    ensures { (job now later : ℕ) (l m : Leaf)
        → ArrivedBefore (scenario trace.entry.now) (now + 1) job → ArrivedBefore (scenario trace.entry.now) (later + 1) job
        → Contains (leaves (offered (scenario trace.entry.now) now job)) l → Contains (leaves (offered (scenario trace.entry.now) later job)) m
        → l.num ≡ m.num → l ≡ m }
{}

/// What happens in a slot is told of jobs of the trace, and so is what the slot plans for.
pub fn jobs_of_a_run_are_known(trace: &Trace)
    requires { IsSound (scenario trace.now) }
    ensures happened { (s : Snapshot) → IsReached (scenario trace.entry.now) moment.between s
        → AreOfJobs (scenario trace.entry.now) (occurring (scenario trace.entry.now) s) }
    ensures pending { (s : Snapshot) → IsReached (scenario trace.entry.now) moment.begun s
        → All (λ b. b.job < length (scenario trace.entry.now).submissions) (instance_of (scenario trace.entry.now) s).bids }
{}
