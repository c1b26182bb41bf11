// An advisor that says what was chosen last.
ghost use Rattle.std.specs.Prelude.{◌≡◌, [], None, OnErr, OnOk};

use std::alloc::{AllocError, Global};
use tetri_advice::Advisor;
use tetri_space::Instance;
use tetri_strl::{Allotment, copy_grants};

/// Says what it last learned, and at first no grant. It tells no creed.
#[derive(Drop)]
pub struct Repeat {
    last: Allotment,
    missed: u64,
}

impl Repeat {
    /// It learned nothing so far. It takes no memory.
    pub fn new(alloc: Global) -> Self
        ensures last { result.last ≡ [] }
        ensures missed { result.missed ≡ 0 }
    {
        Repeat {
            last: Allotment::new(alloc),
            missed: 0,
        }
    }
}

impl Advisor for Repeat {
    ghost says = { λ a s. a.last };

    ghost misses = { λ a. a.missed };

    ghost creed = { λ a. None };

    fn suggest(&mut self, alloc: Global, inst: &Instance) -> Result<Allotment, AllocError> {
        match copy_grants(alloc, &self.last) {
            Ok(said) => Ok(said),
            Err(_) => {
                self.missed = self.missed.saturating_add(1);
                Err(AllocError)
            }
        }
    }

    fn learn(
        &mut self,
        alloc: Global,
        inst: &Instance,
        chosen: &Allotment,
    ) -> Result<(), AllocError>
        ensures ok { OnOk result (self.new.last ≡ chosen.now) }
        ensures err { OnErr result (self.new.last ≡ self.old.last) }
        ensures missed { self.new.missed ≡ self.old.missed }
    {
        self.last = copy_grants(alloc, chosen)?;
        Ok(())
    }
}
