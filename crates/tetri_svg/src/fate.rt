// What becomes of a piece.

/// What became of a piece: it ended, its job was cancelled, its job failed with a node, or it runs on as the run ends.
#[derive(Clone, Copy, Debug, PartialEq, Eq)]
pub enum Fate {
    Ended,
    Cancelled,
    Failed,
    RunsOn,
}
