// What is known of the bounds of the cycles of a run.
ghost use Rattle.std.specs.Prelude.{◌≡◌, ◌-◌};
ghost use Rattle.tetri_base.specs.Lists.{sum_of};
ghost use Rattle.tetri_priced.specs.Text.{priced_in};

use crate::sums::plus;
use tetri_priced::PricedCycle;

/// Sums over the cycles of a run, of the bounds that prices make.
#[derive(Clone, Copy, Debug, PartialEq, Eq)]
pub struct PricedSums {
    /// The bounds.
    pub bound: u128,
    /// By how much the values fall short of them.
    pub gap: u128,
}

/// What is known of the bounds of the cycles of a run.
#[derive(Clone, Copy, Debug, PartialEq, Eq)]
pub enum Bounds {
    /// It is a policy's run, which has none.
    Absent,
    /// A report has them.
    Printed,
    /// A report has them, and prices lower them.
    Priced(PricedSums),
}

// By how much the value of a cycle falls short of the bound that prices make.
fn gap_of(cycle: &PricedCycle) -> u64
    ensures { result ≡ cycle.now.priced - cycle.now.value }
{
    cycle.priced.saturating_sub(cycle.value)
}

impl PricedSums {
    /// The sums over these cycles.
    pub fn of(cycles: &[PricedCycle]) -> PricedSums
        ensures bound { result.bound ≡ priced_in cycles.now }
        ensures gap { result.gap ≡ sum_of (λ c. c.priced - c.value) cycles.now }
    {
        let mut sums = PricedSums { bound: 0, gap: 0 };
        for cycle in cycles {
            sums.bound = plus(sums.bound, cycle.priced);
            sums.gap = plus(sums.gap, gap_of(cycle));
        }
        sums
    }
}
