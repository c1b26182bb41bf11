// How a call on two reports ended.
use tetri_run::Status;

/// How a call on two reports of a trace ended.
#[derive(Clone, Copy, Debug, PartialEq, Eq)]
pub enum PairStatus {
    /// The check of the first report ended so, and the second one was not read.
    First(Status),
    /// The first report is accepted, and the check of the second one ended so.
    Second(Status),
    /// Both are accepted, and drawing them ended so.
    Both(Status),
}
