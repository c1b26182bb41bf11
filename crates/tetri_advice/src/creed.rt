// Creeds.
/// What a greedy planner goes by when it serves the jobs in turn.
#[derive(Clone, Copy, Debug, PartialEq, Eq)]
pub enum Creed {
    /// The job whose last live leaf starts first comes first.
    Deadline,
    /// The job that may be worth most in the window comes first.
    Worth,
}
