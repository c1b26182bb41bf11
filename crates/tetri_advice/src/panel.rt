// The panel.
ghost use Rattle.std.specs.Prelude.{◌≡◌, ℕ, ◌+◌, ◌-◌, ◌<◌, ◌≤◌, ◌^◌, List, [], ◌∷◌, ◌++◌, count_by, length, map, min, not, slice_index, IfErr, IfOk, OnErr, OnOk};
ghost use Rattle.tetri_advice.specs.Asked.{Asked, Taught};
ghost use Rattle.tetri_advice.specs.Sitting.{seat_at, seats};
ghost use Rattle.tetri_space.specs.Sound.{IsSound};
ghost use Rattle.tetri_space.specs.Space.{space};

use crate::advisor::Advisor;
use crate::seated::{Seated, Verdict};
use std::alloc::{AllocError, Global};
use tetri_space::Instance;
use tetri_strl::Allotment;

/// An advisor that found no seat for want of memory.
#[derive(Drop)]
pub struct Seatless<A: Advisor> {
    /// The advisor.
    pub one: A,
}

/// What a panel was heard to say.
#[derive(Drop)]
pub struct Advice {
    /// The lawful suggestions, in seating order.
    pub given: Vec<Allotment>,
    /// For each advisor that sat as the panel was asked, in seating order, whether it was heard.
    pub heard: Vec<bool>,
}

/// Advisors in seating order, each with its strikes, and a count of how often one was not heard, which stops at its greatest value.
#[derive(Drop)]
pub struct PanelOf<A: Advisor> {
    seats: Vec<Seated<A>>,
    missed: u64,
}

/// A panel of boxed advisors.
pub type Panel = PanelOf<Box<dyn Advisor>>;

impl<A: Advisor> PanelOf<A> {
    /// Nobody sits. It takes no memory.
    pub fn new(alloc: Global) -> PanelOf<A>
        ensures seats { seats A.says A.misses A.creed result ≡ [] }
        ensures missed { result.missed ≡ 0 }
    {
        PanelOf {
            seats: Vec::new(alloc),
            missed: 0,
        }
    }

    /// How many advisors sit.
    pub fn len(&self) -> usize
        ensures { result ≡ length (seats A.says A.misses A.creed self.now) }
    {
        self.seats.len()
    }

    /// The strikes of the advisor at this place.
    pub fn strikes(&self, place: usize) -> u8
        requires { place < length (seats A.says A.misses A.creed self.now) }
        ensures { result ≡ slice_index (map (λ a. a.strikes) (seats A.says A.misses A.creed self.now)) place }
    {
        self.seats[place].strikes
    }

    /// How often an advisor was not heard, up to 2^64 - 1.
    pub fn missed(&self) -> u64
        ensures { result ≡ self.now.missed }
    {
        self.missed
    }

    /// Seats an advisor last, with no strikes. Its only error is want of memory, and hands the advisor back.
    pub fn seat(&mut self, one: A) -> Result<(), Seatless<A>>
        ensures ok { OnOk result (seats A.says A.misses A.creed self.new ≡ seats A.says A.misses A.creed self.old ++ seat_at A.says A.misses A.creed one 0 ∷ []) }
        ensures err { OnErr result (seats A.says A.misses A.creed self.new ≡ seats A.says A.misses A.creed self.old) }
        ensures back { IfErr result (λ e. e.one ≡ one) }
        ensures missed { self.new.missed ≡ self.old.missed }
    {
        match self.seats.push(Seated { one, strikes: 0 }) {
            Ok(()) => Ok(()),
            Err(back) => {
                let Seated { one, strikes: _ } = back.value;
                Err(Seatless { one })
            }
        }
    }

    /// Asks each advisor once, in seating order. A lawful suggestion is given and clears the strikes of its advisor, any other one
    /// is a strike, and at its third strike an advisor is dropped. One that has no memory to answer is not heard and keeps its
    /// strikes. The only error is want of memory for the answer, and then nobody was asked.
    pub fn consult(&mut self, alloc: Global, inst: &Instance) -> Result<Advice, AllocError>
        requires { IsSound (space inst.now) }
        ensures asked { IfOk result (λ a. Asked (space inst.entry.now) (seats A.says A.misses A.creed self.old) a.heard.items a.given.items (seats A.says A.misses A.creed self.new)) }
        ensures missed { IfOk result (λ a. self.new.missed ≡ min (self.old.missed + count_by not a.heard.items) (2 ^ 64 - 1)) }
        ensures err { OnErr result ((seats A.says A.misses A.creed self.new ≡ seats A.says A.misses A.creed self.old) × (self.new.missed ≡ self.old.missed)) }
        ensures later { self.old.missed ≤ self.new.missed }
    {
        let mut missed = self.missed;
        let count = self.seats.len();
        let mut given = Vec::with_capacity(alloc, count)?;
        let mut heard = Vec::with_capacity(alloc, count)?;
        let mut place = 0;
        for _asked in 0..count {
            match self.seats[place].ask(alloc, inst) {
                Verdict::Given(said) => {
                    heard.push(true)?;
                    given.push(said)?;
                    place += 1;
                }
                Verdict::Struck => {
                    heard.push(true)?;
                    place += 1;
                }
                Verdict::Out => {
                    heard.push(true)?;
                    let _ = self.seats.remove(place);
                }
                Verdict::Missed => {
                    heard.push(false)?;
                    missed = missed.saturating_add(1);
                    place += 1;
                }
            }
        }
        self.missed = missed;
        Ok(Advice { given, heard })
    }

    /// Tells each advisor, in seating order, which grants were chosen, and passes over their want of memory.
    pub fn teach(&mut self, alloc: Global, inst: &Instance, chosen: &Allotment)
        requires { IsSound (space inst.now) }
        ensures taught { Taught (seats A.says A.misses A.creed self.old) (seats A.says A.misses A.creed self.new) }
        ensures missed { self.new.missed ≡ self.old.missed }
    {
        let count = self.seats.len();
        for place in 0..count {
            self.seats[place].learn(alloc, inst, chosen);
        }
    }
}
