// Why a report is not read.
use std::alloc::AllocError;

/// Why a line of a report is not read.
#[derive(Clone, Copy, Debug, PartialEq, Eq)]
pub enum ReportFault {
    /// The line of this number, counted from 1, is not a line of a report, may not stand there, or names no job or node.
    Malformed(u64),
    /// There is no memory for what the line says.
    NoMemory,
}

impl From<AllocError> for ReportFault {
    ghost use Rattle.std.specs.Prelude.{◌≡◌};
    ghost use Rattle.tetri_report.specs.declared.fault.ReportFault.TheVariants as faults;

    ghost from_gives = { λ _ e. e ≡ faults.NoMemory };

    fn from(_: AllocError) -> Self {
        ReportFault::NoMemory
    }
}
