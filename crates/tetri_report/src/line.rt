// What one line of a report says.
use crate::cycle::Summary;
use tetri_cert::{Mark, PlanMark};
use tetri_state::PieceId;
use tetri_strl::Grant;

/// What kind of line it is, by its first word; a node of a tree is of none of these.
#[derive(Clone, Copy, Debug, PartialEq, Eq)]
pub(crate) enum Kind {
    Cycle,
    End,
    Cancel,
    Fail,
    Over,
    Expire,
    Plan,
    Grant,
    Tops,
    Launch,
    Summary,
}

/// The numbers of a `plan` line.
#[derive(Clone, Copy, Debug, PartialEq, Eq)]
pub struct PlanLine {
    pub value: u64,
    pub bound: u64,
    pub mark: PlanMark,
    pub nodes: u32,
}

/// A line of a report, with jobs and nodes by their numbers in the trace.
#[derive(Drop)]
pub enum ReportLine {
    Cycle(u32),
    End(PieceId),
    Cancel(u32),
    Fail(u32),
    Over(PieceId),
    Expire(u32),
    Plan(PlanLine),
    Grant { grant: Grant, start: u32 },
    Tops { columns: u64, rows: u64 },
    Node(Mark),
    Launch(u32),
    Summary(Summary),
}

/// How far a report has come: which line was the last one, or that there was none. Events, grants, the nodes of a tree and
/// launches repeat; behind the certificate stand launches alone, and behind the summary nothing. `Tree` is behind a node of a
/// tree, and `Certified` behind the tops or a launch.
#[derive(Clone, Copy, Debug, PartialEq, Eq)]
pub enum Stage {
    Opened,
    Begun,
    Ends,
    Cancels,
    Fails,
    Overs,
    Expires,
    Planned,
    Tree,
    Certified,
    Closed,
}
