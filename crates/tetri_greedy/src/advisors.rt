// The two greedy advisors.
ghost use Rattle.std.specs.Prelude.{◌≡◌, ◌≤◌, Some, IfOk, IsErr};
ghost use Rattle.tetri_advice.specs.Creeds.{greedy_list};
ghost use Rattle.tetri_advice.specs.declared.creed.Creed.TheVariants.{Deadline, Worth};
ghost use Rattle.tetri_algebra.specs.Counts.{Rose};
ghost use Rattle.tetri_space.specs.Lawful.{IsLawful};
ghost use Rattle.tetri_space.specs.Sound.{IsSound};
ghost use Rattle.tetri_space.specs.Space.{space};

use crate::serving::greedy_list;
use std::alloc::{AllocError, Global};
use tetri_advice::{Advisor, Creed, greedy_lists_are_lawful};
use tetri_space::Instance;
use tetri_strl::Allotment;

// The greedy list of a creed, or want of memory with a miss more.
fn list_or_miss(
    alloc: Global,
    inst: &Instance,
    creed: Creed,
    missed: &mut u64,
) -> Result<Allotment, AllocError>
    requires { IsSound (space inst.now) }
    ensures list { IfOk result (λ a. a ≡ greedy_list creed (space inst.entry.now)) }
    ensures lawful { IsLawful (space inst.entry.now) (greedy_list creed (space inst.entry.now)) }
    ensures miss { IsErr result → Rose missed.old missed.new }
    ensures later { missed.old ≤ missed.new }
{
    greedy_lists_are_lawful(inst);
    let answer = greedy_list(alloc, inst, creed);
    if answer.is_err() {
        *missed = missed.saturating_add(1);
    }
    answer
}

/// Serves the jobs by ascending deadline, which is the greatest start of a job's live leaves. It learns nothing.
#[derive(Drop)]
pub struct ByDeadline {
    missed: u64,
}

impl ByDeadline {
    /// It missed nothing so far. It takes no memory.
    pub fn new() -> Self
        ensures { result.missed ≡ 0 }
    {
        ByDeadline { missed: 0 }
    }
}

impl Advisor for ByDeadline {
    ghost says = { λ a s. greedy_list Deadline s };

    ghost misses = { λ a. a.missed };

    ghost creed = { λ a. Some Deadline };

    fn suggest(&mut self, alloc: Global, inst: &Instance) -> Result<Allotment, AllocError> {
        list_or_miss(alloc, inst, Creed::Deadline, &mut self.missed)
    }

    fn learn(
        &mut self,
        alloc: Global,
        inst: &Instance,
        chosen: &Allotment,
    ) -> Result<(), AllocError>
        ensures { self.new ≡ self.old }
    {
        Ok(())
    }
}

/// Serves the jobs by descending top, which is the greatest worth of a job's expression in the window. It learns nothing.
#[derive(Drop)]
pub struct ByWorth {
    missed: u64,
}

impl ByWorth {
    /// It missed nothing so far. It takes no memory.
    pub fn new() -> Self
        ensures { result.missed ≡ 0 }
    {
        ByWorth { missed: 0 }
    }
}

impl Advisor for ByWorth {
    ghost says = { λ a s. greedy_list Worth s };

    ghost misses = { λ a. a.missed };

    ghost creed = { λ a. Some Worth };

    fn suggest(&mut self, alloc: Global, inst: &Instance) -> Result<Allotment, AllocError> {
        list_or_miss(alloc, inst, Creed::Worth, &mut self.missed)
    }

    fn learn(
        &mut self,
        alloc: Global,
        inst: &Instance,
        chosen: &Allotment,
    ) -> Result<(), AllocError>
        ensures { self.new ≡ self.old }
    {
        Ok(())
    }
}
