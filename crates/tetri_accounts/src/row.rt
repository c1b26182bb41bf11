// The rows of an account, and what is noted of its cycles.
use tetri_base::Items;
use tetri_cert::PlanMark;
use tetri_state::Piece;

/// What became of a launch, or of a job without one.
#[derive(Clone, Copy, Debug, PartialEq, Eq)]
pub enum Outcome {
    /// All its pieces ended, none later than expected.
    Ran,
    /// All its pieces ended, and one of them later than expected.
    Overran,
    /// A node failed on which it ran.
    Failed,
    /// It was cancelled, launched or not.
    Cancelled,
    /// It expired without a launch.
    Expired,
    /// It waits as the run ends, without a launch.
    Waiting,
    /// It runs as the run ends.
    Running,
}

/// A launch of a job, or a job that was never launched.
#[derive(Drop)]
pub struct Row {
    /// The number of the job.
    pub job: u32,
    /// What became of it.
    pub outcome: Outcome,
    /// The slot of the launch, if there was one.
    pub start: Option<u32>,
    /// The first slot in which it ran or waited no more. `None` where it runs or waits as the run ends.
    pub end: Option<u32>,
    /// What the grants were worth to the job as it was launched, or 0.
    pub worth: u64,
    /// What it ran: its pieces as they were launched, or none.
    pub pieces: Items<Piece>,
}

/// That a job was cancelled or expired.
#[derive(Clone, Copy, Debug, PartialEq, Eq)]
pub struct Departure {
    /// The number of the job.
    pub job: u32,
    /// The slot at whose beginning it was.
    pub at: u32,
    /// Which of the two.
    pub outcome: Outcome,
}

/// What is noted of a cycle.
#[derive(Clone, Copy, Debug, PartialEq, Eq)]
pub struct CycleNote {
    /// How many jobs were pending.
    pub jobs: usize,
    /// What its plan is worth.
    pub value: u64,
    /// What no plan is worth more than.
    pub bound: u64,
    /// How good its plan is known to be.
    pub mark: PlanMark,
    /// How many nodes its search went through, 0 where there was none.
    pub nodes: u32,
}
