// Why a text is not sent.
use std::alloc::AllocError;
use tetri_io::Failed;
use thiserror::Error;

/// Why a text that is made as a run goes on is not sent.
#[derive(Clone, Copy, Debug, PartialEq, Eq, Error)]
pub enum SendFault {
    /// A write failed, and was counted.
    #[error("a write failed")]
    Failed,
    /// There is no memory for what comes next.
    #[error("out of memory")]
    NoMemory,
}

impl From<Failed> for SendFault {
    ghost use Rattle.std.specs.Prelude.{◌≡◌};
    ghost use Rattle.tetri_report.specs.declared.send_fault.SendFault.TheVariants as faults;

    ghost from_gives = { λ _ e. e ≡ faults.Failed };

    fn from(_: Failed) -> Self {
        SendFault::Failed
    }
}

impl From<AllocError> for SendFault {
    ghost use Rattle.std.specs.Prelude.{◌≡◌};
    ghost use Rattle.tetri_report.specs.declared.send_fault.SendFault.TheVariants as faults;

    ghost from_gives = { λ _ e. e ≡ faults.NoMemory };

    fn from(_: AllocError) -> Self {
        SendFault::NoMemory
    }
}
