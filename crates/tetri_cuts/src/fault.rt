//! Why there is no cut.

use std::alloc::{AllocError, AllocFailed};

/// Why there is no cut: the column at which the first number out of range came up, which is 0 where
/// the right sides gave it; or want of memory.
#[derive(Clone, Copy, Debug, PartialEq, Eq)]
pub enum CutFault {
    Past(u32),
    NoMemory,
}

impl From<AllocError> for CutFault {
    ghost use Rattle.std.specs.Prelude.{◌≡◌};
    ghost use Rattle.tetri_cuts.specs.declared.fault.CutFault.TheVariants as fault;

    ghost from_gives = { λ _ e. e ≡ fault.NoMemory };

    fn from(_: AllocError) -> Self {
        CutFault::NoMemory
    }
}

impl<T: Drop> From<AllocFailed<T>> for CutFault {
    ghost use Rattle.std.specs.Prelude.{◌≡◌};
    ghost use Rattle.tetri_cuts.specs.declared.fault.CutFault.TheVariants as fault;

    ghost from_gives = { λ _ e. e ≡ fault.NoMemory };

    fn from(_: AllocFailed<T>) -> Self {
        CutFault::NoMemory
    }
}
