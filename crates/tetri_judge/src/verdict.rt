// What is wrong with a cycle.
use tetri_cert::TreeWhy;
use tetri_space::Unlawful;

/// The first test that a cycle fails, in the order in which the tests are made.
#[derive(Clone, Copy, Debug, PartialEq, Eq)]
pub enum Verdict {
    /// The grants are not lawful.
    Unlawful(Unlawful),
    /// The grants are worth another value than the printed one.
    WrongValue { printed: u64, found: u64 },
    /// The grant at this place, the first such, earns its job nothing.
    WasteGrant(u64),
    /// The value is less than that of what is carried over.
    BelowCarry { printed: u64, carry: u64 },
    /// The certificate fails a test at this node; its kind and its shape are told at node 0.
    BadTree { node: u64, why: TreeWhy },
    /// At this node a number of the weighing leaves the range, first at this column; 0 also where it is in the sum over the rows.
    Past { node: u64, column: u32 },
    /// The certificate gives another bound than the printed one.
    WrongBound { printed: u64, found: u64 },
    /// The mark does not go with value, bound and certificate, or the nodes of the certificate are not counted.
    WrongMark,
    /// There is no memory for the tests of the certificate.
    NoMemory,
}
