// Laws of runs, and of reports that are checked.
ghost use Rattle.std.specs.Prelude.{◌≡◌, ◌∷◌, AllPairs, Contains, List, ℕ, Some, length};
ghost use Rattle.tetri_advice.specs.Seat.{Seat};
ghost use Rattle.tetri_advice.specs.declared.creed.Creed.{Creed};
ghost use Rattle.tetri_report.specs.Block.{Block};
ghost use Rattle.tetri_run.specs.Advised.{AreListsOf, BeginsWithin, IsAdvisedRun};
ghost use Rattle.tetri_run.specs.Check.{IsRefusedAt};
ghost use Rattle.tetri_run.specs.Run.{AnyLists, IsPlannedRun, IsRun, RunsOnBehind, state_behind};
ghost use Rattle.tetri_run.specs.declared.why.Why.{Why};
ghost use Rattle.tetri_space.specs.Space.{Covers, leaf_in};
ghost use Rattle.tetri_state.specs.Begin.{begin};
ghost use Rattle.tetri_state.specs.Pieces.{ShareNoNode};
ghost use Rattle.tetri_state.specs.Reached as moment;
ghost use Rattle.tetri_state.specs.Reached.{IsReached};
ghost use Rattle.tetri_state.specs.declared.pieces.Piece.{Piece};
ghost use Rattle.tetri_strl.specs.declared.expr.Leaf.{Leaf};
ghost use Rattle.tetri_strl.specs.declared.grants.Grant.{Grant};
ghost use Rattle.tetri_trace.specs.Scenario.{Scenario, scenario};
ghost use Rattle.tetri_trace.specs.Sound.{IsSound};
ghost use Rattle.tetri_state.specs.Planning.{instance_at};

use tetri_state::{
    no_two_running_pieces_share_a_node, nodes_of_running_pieces_are_taken,
    running_pieces_run_on_unless_told,
};
use tetri_trace::Trace;

/// The states of every run are reached, whoever planned it: the state that its cycles leave, and
/// the state in which the slot of its last cycle has begun. What this planner plans is a run.
pub fn states_of_runs_are_reached()
    ensures between { (t : Scenario) (past : List Block) → IsRun t past
        → IsReached t moment.between (state_behind t past) }
    ensures begun { (t : Scenario) (past : List Block) (b : Block) → IsRun t (b ∷ past)
        → IsReached t moment.begun (begin t (state_behind t past)) }
    ensures planned { (t : Scenario) (past : List Block) → IsPlannedRun AnyLists t past
        → IsRun t past }
    ensures advised { (sat : List Seat) (before now : ℕ) (t : Scenario) (past : List Block)
        → IsAdvisedRun sat before now t past → IsPlannedRun AnyLists t past }
{}

/// Of every run of a trace, planned or read from an accepted report: no two running pieces share a
/// node; a piece that runs behind some cycles runs on the same nodes behind one cycle more, unless
/// that cycle tells that the piece ended, or that its job was cancelled or failed; and the nodes of
/// a piece that runs once a slot has begun, one that ran over or not, are granted to nobody in that
/// slot.
pub fn pieces_of_runs_keep_their_nodes(trace: &Trace)
    requires { IsSound (scenario trace.now) }
    ensures apart { (past : List Block) → IsRun (scenario trace.entry.now) past
        → AllPairs ShareNoNode (state_behind (scenario trace.entry.now) past).pieces }
    ensures runs_on { (past : List Block) (b : Block) (p : Piece)
        → IsRun (scenario trace.entry.now) (b ∷ past)
        → Contains (state_behind (scenario trace.entry.now) past).pieces p
        → RunsOnBehind (scenario trace.entry.now) past b p }
    ensures taken { (past : List Block) (b : Block) (p : Piece) (n : ℕ) (g : Grant) (l : Leaf)
        → IsRun (scenario trace.entry.now) (b ∷ past)
        → Contains
        (begin (scenario trace.entry.now)
        (state_behind (scenario trace.entry.now) past)).pieces p → Contains p.nodes n
        → Contains b.grants g
        → leaf_in
        (instance_at (scenario trace.entry.now)
        (state_behind (scenario trace.entry.now) past)).bids g.job g.leaf ≡ Some l
        → Covers l (state_behind (scenario trace.entry.now) past).now → Contains g.nodes n → ⊥ }
{
    no_two_running_pieces_share_a_node(trace);
    running_pieces_run_on_unless_told(trace);
    nodes_of_running_pieces_are_taken(trace);
}

/// Two refusals of one report are of the same line and for the same cause.
pub fn reports_are_refused_once()
    ensures { (t : Scenario) (bytes : List ℕ) (line other : ℕ) (why because : Why) → IsSound t
        → IsRefusedAt t bytes line why
        → IsRefusedAt t bytes other because → (line ≡ other) × (why ≡ because) }
{}

/// The search of each cycle of a planned run begins with a worth between what is carried over and
/// given, and the value of its plan; and with this value where its tree has no mark of a whole
/// point.
pub fn searches_begin_within_the_value()
    ensures { (t : Scenario) (past : List Block) (b : Block) → IsSound t
        → (run : IsPlannedRun AnyLists t (b ∷ past))
        → BeginsWithin
        (instance_at t
        (state_behind t past)) run.1.cycle.carry run.1.given b.value b.certificate }
{}

/// A trace has one planned run of each length where in each cycle the lists of the same creeds are
/// given. So a run of it that is planned, to be printed or to be counted, with advisors that all
/// tell these creeds and of whom none was missed, is the only one.
pub fn planned_runs_are_one()
    ensures { (cs : List Creed) (t : Scenario) (past others : List Block)
        → IsPlannedRun (AreListsOf cs) t past
        → IsPlannedRun (AreListsOf cs) t others → length past ≡ length others → past ≡ others }
{}
