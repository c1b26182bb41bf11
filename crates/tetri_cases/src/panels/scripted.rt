// Advisors that do what a script says.
ghost use Rattle.std.specs.Prelude.{◌≡◌, ◌≤◌, IfOk, IsErr, None};
ghost use Rattle.tetri_algebra.specs.Counts.{Rose};

use std::alloc::{AllocError, Global};
use tetri_advice::Advisor;
use tetri_space::Instance;
use tetri_strl::{Allotment, copy_grants};

/// What an advisor does when it is asked.
#[derive(Drop)]
pub enum Step {
    /// It has no memory.
    Mute,
    /// It says these grants, in this order.
    Say(Allotment),
    /// It says what it last learned, and at first no grant.
    Echo,
}

/// Does the steps of its script in turn, and the last one from then on. It tells no creed.
#[derive(Drop)]
pub struct Scripted {
    steps: Vec<Step>,
    // Whether a step ends as the advisor is asked, and not as it is taught.
    turns_when_asked: bool,
    turn: usize,
    learned: Allotment,
    is_mute: bool,
    saying: Allotment,
    missed: u64,
}

impl Scripted {
    /// It stands at the first step.
    pub fn new(
        alloc: Global,
        steps: Vec<Step>,
        turns_when_asked: bool,
    ) -> Result<Self, AllocError> {
        let mut one = Scripted {
            steps,
            turns_when_asked,
            turn: 0,
            learned: Allotment::new(alloc),
            is_mute: false,
            saying: Allotment::new(alloc),
            missed: 0,
        };
        one.take_step(alloc)?;
        Ok(one)
    }

    // Makes ready what is said in this step.
    fn take_step(&mut self, alloc: Global) -> Result<(), AllocError>
        ensures { self.new.missed ≡ self.old.missed }
    {
        match self.steps.get(self.turn) {
            Some(Step::Mute) => self.is_mute = true,
            Some(Step::Say(grants)) => {
                self.saying = copy_grants(alloc, grants)?;
                self.is_mute = false;
            }
            Some(Step::Echo) => {
                self.saying = copy_grants(alloc, &self.learned)?;
                self.is_mute = false;
            }
            None => {}
        }
        Ok(())
    }

    // Goes to the next step, if there is one.
    fn turn_on(&mut self)
        ensures { self.new.missed ≡ self.old.missed }
    {
        let next = self.turn.saturating_add(1);
        if next < self.steps.len() {
            self.turn = next;
        }
    }

    // Says what it has ready.
    fn answer(&mut self, alloc: Global) -> Result<Allotment, AllocError>
        ensures said { IfOk result (λ a. a ≡ self.old.saying) }
        ensures cause { IsErr result → Rose self.old.missed self.new.missed }
        ensures later { self.old.missed ≤ self.new.missed }
    {
        if !self.is_mute {
            match copy_grants(alloc, &self.saying) {
                Ok(said) => return Ok(said),
                Err(_) => {}
            }
        }
        self.missed = self.missed.saturating_add(1);
        Err(AllocError)
    }
}

impl Advisor for Scripted {
    ghost says = { λ a s. a.saying };

    ghost misses = { λ a. a.missed };

    ghost creed = { λ a. None };

    fn suggest(&mut self, alloc: Global, inst: &Instance) -> Result<Allotment, AllocError> {
        let said = self.answer(alloc);
        if self.turns_when_asked {
            self.turn_on();
            let _ = self.take_step(alloc);
        }
        said
    }

    fn learn(
        &mut self,
        alloc: Global,
        inst: &Instance,
        chosen: &Allotment,
    ) -> Result<(), AllocError> {
        self.learned = copy_grants(alloc, chosen)?;
        if !self.turns_when_asked {
            self.turn_on();
        }
        self.take_step(alloc)
    }
}
