// What is added up over the cycles of a run.
ghost use Rattle.std.specs.Prelude.{◌≡◌, ◌<◌, ◌^◌};
ghost use Rattle.tetri_cycles.specs.Tally.{summary_at};
ghost use Rattle.tetri_report.specs.Printable.{IsSummaryInRange};

use tetri_report::Summary;
use tetri_state::State;

/// What is added up over cycles: what launched jobs are worth, and how many cycles have an optimal plan.
#[derive(Clone, Copy, Debug)]
pub struct RunTally {
    pub worth: u128,
    pub optimal: u64,
}

/// The run so far in numbers: its state, and what was added up over its cycles.
pub fn summary_at(state: &State, tally: RunTally) -> Summary
    ensures value { result ≡ summary_at state.entry.now tally }
    ensures in_range { tally.worth < 2 ^ 127 → IsSummaryInRange result }
{
    Summary {
        cycles: u64::from(state.now()),
        launched: state.launched_count() as u64,
        ended: state.ended_count() as u64,
        cancelled: state.cancelled_count() as u64,
        expired: state.expired_count() as u64,
        worth: tally.worth,
        optimal: tally.optimal,
    }
}
