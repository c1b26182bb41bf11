// Why a text is not read.
ghost use Rattle.std.specs.Prelude.{◌≡◌};
ghost use Rattle.tetri_parse.specs.Words.{fault_words};

use std::alloc::{AllocError, AllocFailed};

/// What is wrong with a text. Where several stand at one place, the first of this list is answered.
#[derive(Clone, Copy, Debug, PartialEq, Eq)]
pub enum Fault {
    /// This byte cannot stand here, or this word is none of the seven.
    Unexpected,
    /// The text ends too early.
    Ended,
    /// Something stands behind the whole.
    Trailing,
    /// The number is outside its limits.
    NumberRange,
    /// The set names a tag that no node has, or a node that is not there.
    UnknownSet,
    /// The value is no multiple of the number of nodes of its linear leaf.
    Uneven,
    /// The leaf starts in another slot than the first one below the same `min` or `sum`.
    Mixed,
    /// The expression is more than 64 deep.
    TooDeep,
    /// There are more than 128 leaves.
    TooManyLeaves,
    /// The expression may be worth more than 10^12.
    TooRich,
    /// The set is new, and 4,096 are there.
    TooManySets,
}

impl Fault {
    /// The fault in words.
    pub fn words(self) -> &'static str
        ensures { result.now ≡ fault_words self }
    {
        match self {
            Fault::Unexpected => "unexpected",
            Fault::Ended => "ended",
            Fault::Trailing => "trailing",
            Fault::NumberRange => "number-range",
            Fault::UnknownSet => "unknown-set",
            Fault::Uneven => "uneven",
            Fault::Mixed => "mixed",
            Fault::TooDeep => "too-deep",
            Fault::TooManyLeaves => "too-many-leaves",
            Fault::TooRich => "too-rich",
            Fault::TooManySets => "too-many-sets",
        }
    }
}

/// Why a text is not read.
#[derive(Clone, Copy, Debug, PartialEq, Eq)]
pub enum ParseFault {
    /// The first fault, and how many bytes stand before it.
    At { offset: u64, fault: Fault },
    /// There is no memory for what was read.
    NoMemory,
}

/// A fault, and how many bytes of the text were left at its place.
#[derive(Clone, Copy, Debug, PartialEq, Eq)]
pub(crate) struct Miss {
    pub fault: Fault,
    pub left: usize,
}

/// Why a step of reading stops.
#[derive(Clone, Copy, Debug, PartialEq, Eq)]
pub(crate) enum Stop {
    Missed(Miss),
    NoMemory,
}

impl From<AllocError> for Stop {
    ghost use Rattle.std.specs.Prelude.{◌≡◌};
    ghost use Rattle.tetri_parse.specs.declared.fault.Stop.TheVariants as stop;

    ghost from_gives = { λ _ e. e ≡ stop.NoMemory };

    fn from(_: AllocError) -> Self {
        Stop::NoMemory
    }
}

impl<T: Drop> From<AllocFailed<T>> for Stop {
    ghost use Rattle.std.specs.Prelude.{◌≡◌};
    ghost use Rattle.tetri_parse.specs.declared.fault.Stop.TheVariants as stop;

    ghost from_gives = { λ _ e. e ≡ stop.NoMemory };

    fn from(_: AllocFailed<T>) -> Self {
        Stop::NoMemory
    }
}
