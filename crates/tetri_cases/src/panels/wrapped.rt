// Advisors that ask another one.
ghost use Rattle.std.specs.Prelude.{◌≡◌, None};

use std::alloc::{AllocError, Global};
use tetri_advice::Advisor;
use tetri_space::Instance;
use tetri_strl::Allotment;

/// Says what another advisor says, and tells no creed.
#[derive(Drop)]
pub struct Untold<A: Advisor> {
    one: A,
}

impl<A: Advisor> Untold<A> {
    /// In the place of this advisor.
    pub fn new(one: A) -> Self {
        Untold { one }
    }
}

impl<A: Advisor> Advisor for Untold<A> {
    ghost says = { λ u. A.says u.one };

    ghost misses = { λ u. A.misses u.one };

    ghost creed = { λ u. None };

    fn suggest(&mut self, alloc: Global, inst: &Instance) -> Result<Allotment, AllocError> {
        self.one.suggest(alloc, inst)
    }

    fn learn(
        &mut self,
        alloc: Global,
        inst: &Instance,
        chosen: &Allotment,
    ) -> Result<(), AllocError> {
        self.one.learn(alloc, inst, chosen)
    }
}

/// Tells the creed of another advisor and says what that one says, but has no memory for it in some turns.
#[derive(Drop)]
pub struct Forgetful<A: Advisor> {
    one: A,
    // Whether it forgets, by turn; the last turn stays.
    forgets: Vec<bool>,
    turn: usize,
    missed: u64,
}

impl<A: Advisor> Forgetful<A> {
    /// It stands at the first turn.
    pub fn new(one: A, forgets: Vec<bool>) -> Self {
        Forgetful {
            one,
            forgets,
            turn: 0,
            missed: 0,
        }
    }

    // Whether it forgets in this turn; the next one is at hand then.
    fn forgets(&mut self) -> bool
        ensures one { self.new.one ≡ self.old.one }
        ensures missed { self.new.missed ≡ self.old.missed }
    {
        let forgets = self.forgets.get(self.turn).copied().unwrap_or(false);
        let next = self.turn.saturating_add(1);
        if next < self.forgets.len() {
            self.turn = next;
        }
        forgets
    }
}

impl<A: Advisor> Advisor for Forgetful<A> {
    ghost says = { λ f. A.says f.one };

    ghost misses = { λ f. f.missed };

    ghost creed = { λ f. A.creed f.one };

    fn suggest(&mut self, alloc: Global, inst: &Instance) -> Result<Allotment, AllocError> {
        let said = self.one.suggest(alloc, inst);
        if !self.forgets() {
            match said {
                Ok(said) => return Ok(said),
                Err(_) => {}
            }
        }
        self.missed = self.missed.saturating_add(1);
        Err(AllocError)
    }

    fn learn(
        &mut self,
        alloc: Global,
        inst: &Instance,
        chosen: &Allotment,
    ) -> Result<(), AllocError> {
        self.one.learn(alloc, inst, chosen)
    }
}
