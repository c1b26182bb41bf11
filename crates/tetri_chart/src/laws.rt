// Laws of what pictures show.
ghost use Rattle.std.specs.Prelude.{◌≡◌, [], ℕ, List, Option};
ghost use Rattle.tetri_chart.specs.Framing.{framed};
ghost use Rattle.tetri_chart.specs.Pair.{later_end, shared_view};
ghost use Rattle.tetri_chart.specs.Picture.{Picture, picture_of};
ghost use Rattle.tetri_chart.specs.Pieces.{running};
ghost use Rattle.tetri_cycles.specs.Observed.{next};
ghost use Rattle.tetri_chart.specs.RunSpans.{TellsPieces};
ghost use Rattle.tetri_chart.specs.SameRuns.{AreSameRuns};
ghost use Rattle.tetri_chart.specs.Slots.{end_of, first_of};
ghost use Rattle.tetri_chart.specs.declared.view.View.{View};
ghost use Rattle.tetri_report.specs.Block.{Block};
ghost use Rattle.tetri_state.specs.Snapshot.{Snapshot, opening_state};
ghost use Rattle.tetri_state.specs.declared.pieces.Piece.{Piece};
ghost use Rattle.tetri_trace.specs.Scenario.{scenario};

use tetri_trace::Trace;

/// The pieces that a picture takes to run are those that run in the states of the run: none as it opens, and behind each cycle the same,
/// where they were the same before it.
pub fn pieces_are_those_of_states(trace: &Trace)
    ensures first { AreSameRuns (opening_state (scenario trace.entry.now)).pieces [] }
    ensures behind { (s : Snapshot) (active : List Piece) (b : Block) → AreSameRuns s.pieces active
        → AreSameRuns (next (scenario trace.entry.now) s b).pieces (running (scenario trace.entry.now) s active b) }
{}

/// The spans of a picture are those of the pieces of its run: one for each piece that a cycle launches, with its nodes, its start and the
/// end that is expected of it, up to the first slot whose beginning leaves a state in which it runs no more, and no other.
pub fn pictures_tell_pieces(trace: &Trace)
    ensures { (asked : Option ℕ) (blocks : List Block)
        → TellsPieces (scenario trace.entry.now) blocks (picture_of (scenario trace.entry.now) asked blocks).spans }
{}

/// Two pictures that stand one below the other show the same slots in one frame: from the first that is asked for, up to the later of their
/// ends.
pub fn pairs_share_slots(trace: &Trace)
    ensures first { (v : View) (p q : Picture) → first_of (shared_view (scenario trace.entry.now) v p q) ≡ first_of v }
    ensures end { (v : View) (p q : Picture)
        → end_of (scenario trace.entry.now) (shared_view (scenario trace.entry.now) v p q) p ≡ later_end (scenario trace.entry.now) v p q }
    ensures frame { (v : View) (p q : Picture)
        → framed (scenario trace.entry.now) (shared_view (scenario trace.entry.now) v p q) p
        ≡ framed (scenario trace.entry.now) (shared_view (scenario trace.entry.now) v p q) q }
{}
