//! Why something is not formed.

use std::alloc::{AllocError, AllocFailed};
use tetri_num::Place;

/// Why a pivot, or another part of a run, is not formed.
#[derive(Clone, Copy, Debug, PartialEq, Eq)]
pub enum PivotFault {
    /// A number left the range at this place, whose step is given as 0.
    Past(Place),
    NoMemory,
}

impl From<Place> for PivotFault {
    ghost use Rattle.std.specs.Prelude.{◌≡◌};
    ghost use Rattle.tetri_dictionary.specs.declared.fault.PivotFault.TheVariants as fault;

    ghost from_gives = { λ p e. e ≡ fault.Past p };

    fn from(place: Place) -> Self {
        PivotFault::Past(place)
    }
}

impl From<AllocError> for PivotFault {
    ghost use Rattle.std.specs.Prelude.{◌≡◌};
    ghost use Rattle.tetri_dictionary.specs.declared.fault.PivotFault.TheVariants as fault;

    ghost from_gives = { λ _ e. e ≡ fault.NoMemory };

    fn from(_: AllocError) -> Self {
        PivotFault::NoMemory
    }
}

impl<T: Drop> From<AllocFailed<T>> for PivotFault {
    ghost use Rattle.std.specs.Prelude.{◌≡◌};
    ghost use Rattle.tetri_dictionary.specs.declared.fault.PivotFault.TheVariants as fault;

    ghost from_gives = { λ _ e. e ≡ fault.NoMemory };

    fn from(_: AllocFailed<T>) -> Self {
        PivotFault::NoMemory
    }
}
