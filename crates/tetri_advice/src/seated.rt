// One seat of a panel.
ghost use Rattle.std.specs.Prelude.{◌≡◌, ◌≤◌};
ghost use Rattle.tetri_advice.specs.Sitting.{seat_of};
ghost use Rattle.tetri_advice.specs.Verdict.{Judged};
ghost use Rattle.tetri_space.specs.Sound.{IsSound};
ghost use Rattle.tetri_space.specs.Space.{space};

use crate::advisor::Advisor;
use crate::testing::is_lawful;
use std::alloc::Global;
use tetri_space::Instance;
use tetri_strl::Allotment;

// An advisor with so many strikes is dropped at the next one.
const MOST_STRIKES: u8 = 2;

/// An advisor in a panel, with its strikes.
#[derive(Drop)]
pub struct Seated<A: Advisor> {
    pub(crate) one: A,
    pub(crate) strikes: u8,
}

/// What became of an advisor that was asked.
#[derive(Drop)]
pub(crate) enum Verdict {
    /// It was not heard.
    Missed,
    /// What it said is lawful.
    Given(Allotment),
    /// What it said is not lawful.
    Struck,
    /// The same at its last strike: it has to leave.
    Out,
}

impl<A: Advisor> Seated<A> {
    /// Asks this advisor.
    pub(crate) fn ask(&mut self, alloc: Global, inst: &Instance) -> Verdict
        requires { IsSound (space inst.now) }
        ensures { Judged (space inst.entry.now) (seat_of A.says A.misses A.creed self.old) result (seat_of A.says A.misses A.creed self.new) }
    {
        match self.one.suggest(alloc, inst) {
            Ok(said) => {
                if is_lawful(alloc, inst, &said) {
                    self.strikes = 0;
                    Verdict::Given(said)
                } else if self.strikes < MOST_STRIKES {
                    self.strikes += 1;
                    Verdict::Struck
                } else {
                    Verdict::Out
                }
            }
            Err(_) => Verdict::Missed,
        }
    }

    /// Teaches this advisor, and passes over its want of memory.
    pub(crate) fn learn(&mut self, alloc: Global, inst: &Instance, chosen: &Allotment)
        requires { IsSound (space inst.now) }
        ensures strikes { self.new.strikes ≡ self.old.strikes }
        ensures later { A.misses self.old.one ≤ A.misses self.new.one }
        ensures creed { A.creed self.new.one ≡ A.creed self.old.one }
    {
        let _ = self.one.learn(alloc, inst, chosen);
    }
}
