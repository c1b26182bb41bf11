// What the program does once a status stands.
ghost use Rattle.std.specs.Prelude.{◌≡◌, ◌↔◌, ◌⊎◌, ◌≤◌};
ghost use Rattle.tetri_algebra.specs.Counts.{Rose};
ghost use Rattle.tetri_run.specs.Ended.{IsSaid, exit_number};

use crate::spoken::say;
use crate::status::Status;
use std::alloc::Global;
use std::io::ErrorKind;
use tetri_io::Sink;

/// The number with which the program exits.
pub fn exit_number(status: &Status) -> u8
    ensures { result ≡ exit_number status.now }
{
    match status {
        Status::Done => 0,
        Status::Refused { .. } => 1,
        Status::Usage => 2,
        Status::ReadFault => 3,
        Status::WriteFault => 4,
        Status::BadTrace { .. } => 5,
        Status::NoMemory => 6,
    }
}

/// The status of a call whose words were not read, by the kind of error that kept them from it:
/// want of memory is told as such, and words that are no text are none of the forms.
pub fn status_of_words(error: ErrorKind) -> Status
    ensures memory { (result ≡ Status.NoMemory) ↔ (error ≡ ErrorKind.OutOfMemory) }
    ensures usage { (result ≡ Status.NoMemory) ⊎ (result ≡ Status.Usage) }
{
    match error {
        ErrorKind::OutOfMemory => Status::NoMemory,
        _ => Status::Usage,
    }
}

/// Says a status on the sink of errors, and gives the number with which the program exits, whether
/// or not it could be said. Where no fault of that sink was counted, the status was said, but for
/// want of memory for a line that has numbers.
pub fn conclude<K: Sink>(alloc: Global, status: &Status, errors: &mut K) -> u8
    ensures number { result ≡ exit_number status.entry.now }
    ensures said { ¬ Rose (K.faults errors.old) (K.faults errors.new)
        → IsSaid status.entry.now (K.written errors.old) (K.written errors.new) }
    ensures later { K.faults errors.old ≤ K.faults errors.new }
{
    let _said = say(alloc, status, errors);
    exit_number(status)
}
