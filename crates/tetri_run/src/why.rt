// Why a report is refused.
ghost use Rattle.std.specs.Prelude.{◌≡◌};
ghost use Rattle.tetri_run.specs.Faulty.{why_of};

use tetri_judge::Verdict;

/// Why a report is refused: the first test that it fails, in the order in which a check makes them.
#[derive(Clone, Copy, Debug, PartialEq, Eq)]
pub enum Why {
    /// The line is not a line of a report, may not stand there, or names no job or node; or the
    /// summary is missing.
    Malformed,
    /// The line has more than 1,048,576 bytes.
    LineTooLong,
    /// The plan of a cycle fails this test, which is never want of memory.
    Plan(Verdict),
    /// A number, an event, a start, a launch or the summary is not what the run has there.
    WrongEvents,
}

/// A verdict on a plan as a cause, unless memory ran out.
pub(crate) fn why_of(verdict: Verdict) -> Option<Why>
    ensures { result ≡ why_of verdict }
{
    match verdict {
        Verdict::NoMemory => None,
        failed => Some(Why::Plan(failed)),
    }
}
