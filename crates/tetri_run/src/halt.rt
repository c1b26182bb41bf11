// Why the check of a report stops before its end.
use crate::why::Why;
use std::alloc::AllocError;
use tetri_report::ReportFault;

/// Why the check of a report stops before its end. Lines count from 1.
#[derive(Clone, Copy, Debug, PartialEq, Eq)]
pub(crate) enum CheckHalt {
    Refused { line: u64, why: Why },
    ReadFault,
    NoMemory,
}

impl From<AllocError> for CheckHalt {
    ghost use Rattle.std.specs.Prelude.{◌≡◌};
    ghost use Rattle.tetri_run.specs.declared.halt.CheckHalt.TheVariants as halts;

    ghost from_gives = { λ _ e. e ≡ halts.NoMemory };

    fn from(_: AllocError) -> Self {
        CheckHalt::NoMemory
    }
}

impl From<ReportFault> for CheckHalt {
    ghost use Rattle.std.specs.Prelude.{◌≡◌};
    ghost use Rattle.tetri_run.specs.Checked.{halt_of};

    ghost from_gives = { λ fault halt. halt ≡ halt_of fault };

    fn from(fault: ReportFault) -> Self {
        match fault {
            ReportFault::Malformed(line) => CheckHalt::Refused {
                line,
                why: Why::Malformed,
            },
            ReportFault::NoMemory => CheckHalt::NoMemory,
        }
    }
}
