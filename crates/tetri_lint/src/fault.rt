// Why nothing can be said of a trace.
use std::alloc::{AllocError, AllocFailed};
use tetri_io::Failed;

/// Why nothing can be said of a trace.
#[derive(Clone, Copy, Debug, PartialEq, Eq)]
pub enum LintFault {
    /// A read failed, and was counted.
    Read,
    /// There is no memory for it.
    NoMemory,
}

impl From<AllocError> for LintFault {
    ghost use Rattle.std.specs.Prelude.{◌≡◌};
    ghost use Rattle.tetri_lint.specs.declared.fault.LintFault.TheVariants as fault;

    ghost from_gives = { λ _ e. e ≡ fault.NoMemory };

    fn from(_: AllocError) -> Self {
        LintFault::NoMemory
    }
}

impl<T: Drop> From<AllocFailed<T>> for LintFault {
    ghost use Rattle.std.specs.Prelude.{◌≡◌};
    ghost use Rattle.tetri_lint.specs.declared.fault.LintFault.TheVariants as fault;

    ghost from_gives = { λ _ e. e ≡ fault.NoMemory };

    fn from(_: AllocFailed<T>) -> Self {
        LintFault::NoMemory
    }
}

impl From<Failed> for LintFault {
    ghost use Rattle.std.specs.Prelude.{◌≡◌};
    ghost use Rattle.tetri_lint.specs.declared.fault.LintFault.TheVariants as fault;

    ghost from_gives = { λ _ e. e ≡ fault.Read };

    fn from(_: Failed) -> Self {
        LintFault::Read
    }
}
