// A launch, made ready.
ghost use Rattle.std.specs.Prelude.{◌≡◌, filter, not};
ghost use Rattle.std.specs.List.Sorted.{IsNonDecreasing, IsStrictlyIncreasing};
ghost use Rattle.tetri_base.specs.Lists.{has};

use crate::pieces::Piece;
use std::marker::Model;
use tetri_strl::Allotment;

/// What a plan launches, with all the memory that the launch takes.
#[derive(Drop)]
pub struct Prepared {
    // Ascending.
    pub(crate) jobs: Vec<u32>,
    pub(crate) pieces: Vec<Piece>,
    pub(crate) grants: Allotment,
    // Empty, for the running pieces and the new ones.
    pub(crate) room: Vec<Piece>,
}

impl Model for Prepared {
    ghost use Rattle.std.specs.Prelude.{◌≡◌, [], vec_capacity};
    ghost use Rattle.std.specs.List.Sorted.{IsStrictlyIncreasing};
    ghost use Rattle.tetri_state.specs.Readied.{Readied};

    ghost Value = { Readied };

    ghost view = { λ p. record {
      jobs = p.jobs.items;
      pieces = p.pieces.items;
      grants = p.grants;
      room = vec_capacity p.room;
    } };

    ghost invariant = { λ p. IsStrictlyIncreasing p.jobs.items × (p.room.items ≡ []) };
}

impl Prepared {
    /// The jobs that are launched, ascending.
    pub fn launched(&self) -> &[u32]
        ensures jobs { result.now ≡ self.now.jobs }
        ensures ascending { IsStrictlyIncreasing result.now }
    {
        self.jobs.as_slice()
    }

    /// The grants of the plan.
    pub fn grants(&self) -> &Allotment
        ensures { result.now ≡ self.now.grants }
    {
        &self.grants
    }
}

// Whether a job is one of these.
pub fn is_among(jobs: &[u32], job: u32) -> bool
    requires { IsNonDecreasing jobs.now }
    ensures { result ≡ has jobs.now job }
{
    jobs.binary_search(&job).is_ok()
}

// Takes these jobs away.
pub fn leave(jobs: &mut Vec<u32>, launched: &[u32])
    requires { IsNonDecreasing launched.now }
    ensures { jobs.new.items ≡ filter (λ j. not (has launched.now j)) jobs.old.items }
{
    jobs.retain(|job| !is_among(launched, *job));
}
