// Policies.
/// Which of the waiting jobs start in a slot, where nothing is searched.
#[derive(Clone, Copy, Debug, PartialEq, Eq)]
pub enum Policy {
    /// First come first served: jobs start in the order in which they came, and none before an earlier one that waits.
    FirstCome,
    /// Backfill: the first job that cannot start gets a reservation, and later ones start where they do not touch it.
    Backfill,
}
