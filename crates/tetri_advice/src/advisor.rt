// Advisors.
ghost use Rattle.std.specs.Prelude.{◌≡◌, ◌≤◌, ℕ, IfOk, IfSome, IsErr, List, Option};
ghost use Rattle.tetri_advice.specs.Creeds.{IsListed};
ghost use Rattle.tetri_algebra.specs.Counts.{Rose};
ghost use Rattle.tetri_space.specs.Sound.{IsSound};
ghost use Rattle.tetri_space.specs.Space.{Space, space};
ghost use Rattle.tetri_strl.specs.declared.grants.Grant.{Grant};

use std::alloc::{AllocError, Global};
use tetri_space::Instance;
use tetri_strl::Allotment;

/// Who may be asked for an allotment. What it suggests is tested, so it may suggest anything.
pub trait Advisor: Drop {
    ghost use Rattle.tetri_advice.specs.declared.creed.Creed.{Creed};

    /// What it says of an instance, as it now stands.
    ghost says: { Self → Space → List Grant };

    /// How often it had no memory to answer: a counter that never falls.
    ghost misses: { Self → ℕ };

    /// The creed that it tells, if any.
    ghost creed: { Self → Option Creed };

    /// What it says of the instance, as it stood when the call began. Its only error is want of memory, and then its count of
    /// misses rises. Where it tells a creed, it says the list of that creed.
    fn suggest(&mut self, alloc: Global, inst: &Instance) -> Result<Allotment, AllocError>
        requires { IsSound (space inst.now) }
        ensures said { IfOk result (λ a. a ≡ says self.old (space inst.entry.now)) }
        ensures cause { IsErr result → Rose (misses self.old) (misses self.new) }
        ensures later { misses self.old ≤ misses self.new }
        ensures creed { creed self.new ≡ creed self.old }
        ensures listed { IfSome (creed self.old) (IsListed (space inst.entry.now) (says self.old (space inst.entry.now))) };

    /// Is told which grants were chosen for the instance. Its only error is want of memory.
    fn learn(
        &mut self,
        alloc: Global,
        inst: &Instance,
        chosen: &Allotment,
    ) -> Result<(), AllocError>
        requires { IsSound (space inst.now) }
        ensures later { misses self.old ≤ misses self.new }
        ensures creed { creed self.new ≡ creed self.old };
}

impl Advisor for Box<dyn Advisor> {
    ghost says = { λ b. (Advisor-box b).says b.value };

    ghost misses = { λ b. (Advisor-box b).misses b.value };

    ghost creed = { λ b. (Advisor-box b).creed b.value };

    fn suggest(&mut self, alloc: Global, inst: &Instance) -> Result<Allotment, AllocError> {
        (**self).suggest(alloc, inst)
    }

    fn learn(
        &mut self,
        alloc: Global,
        inst: &Instance,
        chosen: &Allotment,
    ) -> Result<(), AllocError> {
        (**self).learn(alloc, inst, chosen)
    }
}
