// What becomes of a line.

/// Why a line of the queue brings no job.
#[derive(Clone, Copy, Debug, PartialEq, Eq)]
pub enum Cause {
    /// It is no such line.
    Unreadable,
    /// The job has ended.
    Finished,
    /// The job is pending and not held: the manager starts it itself.
    NotHeld,
    /// The job is held, but not by its user.
    HeldOtherwise,
    /// The job waits for others.
    Dependent,
    /// The job asks for a reservation.
    Reservation,
    /// The job asks for parts of nodes.
    Shared,
    /// The job is a part of one of several kinds.
    Component,
    /// What the job asks of its nodes is more than tags that all or one of which they have.
    Constraint,
    /// No node is as the job asks for.
    NoNodes,
    /// The job asks for more nodes than there are of the kind.
    TooLarge,
    /// As many tasks of its array as may run at once run, were released or are taken.
    Throttled,
    /// An earlier line has its name.
    Repeated,
    /// It is beyond what a trace can say.
    Beyond,
}

/// What becomes of a line of the queue.
#[derive(Clone, Copy, Debug, PartialEq, Eq)]
pub enum Fate {
    /// Its job is taken.
    Taken,
    /// Its job has nodes, which are closed while it has time left.
    Running,
    /// Its job waits for nodes by name, which are closed for the time that it asks for.
    Released,
    /// It is empty.
    Blank,
    /// It is left out.
    Left(Cause),
}

/// What becomes of a line that tells of a reservation.
#[derive(Clone, Copy, Debug, PartialEq, Eq)]
pub enum ReservationFate {
    /// Its nodes are closed while it lasts.
    Closed,
    /// It has ended, begins too late to matter, or has no nodes.
    Idle,
    /// It is empty, or says that there is none.
    Blank,
    /// It is none of these.
    Unread,
}
