// An instance with the jobs of one part alone, and the grants that name them.
ghost use Rattle.std.specs.Prelude.{◌≡◌, ◌==◌, ◌<◌, List, None, Some, AllPairs, find, length, map, IfOk, MatchOption};
ghost use Rattle.std.specs.List.{filter};
ghost use Rattle.std.specs.List.Sorted.{IsStrictlyIncreasing};
ghost use Rattle.tetri_base.specs.Lists.{has};
ghost use Rattle.tetri_strl.specs.Tree.{tree};
ghost use Rattle.tetri_space.specs.Lawful.{IsLawful};
ghost use Rattle.tetri_space.specs.Sound.{IsSound};
ghost use Rattle.tetri_space.specs.Space.{Space, bid, space};
ghost use Rattle.tetri_space.specs.Trimmed.{IsThriftyForAll};
ghost use Rattle.tetri_split.specs.Parts.{is_in_part};
ghost use Rattle.tetri_split.specs.Restricted.{grants_to, restricted};

use crate::Parts;
use std::alloc::{AllocError, Global};
use std::rc::Rc;
use tetri_space::{Instance, Offer};
use tetri_strl::{Allotment, Expr, copy_expr, copy_grant};

impl Parts {
    /// The same instance with the part's jobs alone. A job is found by binary search. Its only error is want of
    /// memory.
    pub fn part_of(&self, alloc: Global, inst: &Instance, part: u32) -> Result<Instance, AllocError>
        requires sound { IsSound (space inst.now) }
        requires within { part < length self.now }
        ensures instance { IfOk result (λ i. space i ≡ restricted (is_in_part self.entry.now part) (space inst.entry.now)) }
        ensures sound { IfOk result (λ i. IsSound (space i)) }
    {
        let made = restrict(alloc, inst, self.jobs_of(part))?;
        Ok(made)
    }

    /// The grants that name a job of the part, in their order: lawful and thrifty for the part's instance where
    /// they were so for the whole one. Its only error is want of memory.
    pub fn keep(&self, alloc: Global, part: u32, a: &Allotment) -> Result<Allotment, AllocError>
        requires { part < length self.now }
        ensures grants { IfOk result (λ kept. kept ≡ grants_to (is_in_part self.entry.now part) a.entry.now) }
        ensures lawful { IfOk result (λ kept. (s : Space) → IsLawful s a.entry.now → IsLawful (restricted (is_in_part self.entry.now part) s) kept) }
        ensures thrifty { IfOk result (λ kept. (s : Space) → IsThriftyForAll s a.entry.now
            → IsThriftyForAll (restricted (is_in_part self.entry.now part) s) kept) }
    {
        let kept = grants_among(alloc, self.jobs_of(part), a)?;
        Ok(kept)
    }
}

// The same instance with these jobs alone.
fn restrict(alloc: Global, inst: &Instance, jobs: &[u32]) -> Result<Instance, AllocError>
    requires sound { IsSound (space inst.now) }
    requires jobs { IsStrictlyIncreasing jobs.now }
    ensures { IfOk result (λ i. space i ≡ restricted (has jobs.now) (space inst.entry.now)) }
{
    Ok(Instance {
        now: inst.now,
        window: inst.window,
        nodes: inst.nodes,
        sets: Rc::clone(&inst.sets)?,
        busy_until: Vec::from_slice(alloc, &inst.busy_until)?,
        drained: Vec::from_slice(alloc, &inst.drained)?,
        closures: Rc::clone(&inst.closures)?,
        jobs: offers_of(alloc, &inst.jobs, jobs)?,
    })
}

// The grants that name one of these jobs, in their order.
fn grants_among(alloc: Global, jobs: &[u32], a: &Allotment) -> Result<Allotment, AllocError>
    requires { IsStrictlyIncreasing jobs.now }
    ensures { IfOk result (λ kept. kept ≡ grants_to (has jobs.now) a.entry.now) }
{
    let mut kept = Allotment::new(alloc);
    for grant in a.as_slice() {
        if is_among(jobs, grant.job) {
            kept.push(copy_grant(alloc, grant)?)?;
        }
    }
    Ok(kept)
}

// Whether a job is one of these, by binary search.
fn is_among(jobs: &[u32], job: u32) -> bool
    requires { IsStrictlyIncreasing jobs.now }
    ensures { result ≡ has jobs.now job }
{
    jobs.binary_search(&job).is_ok()
}

// What a job asks for, by binary search.
fn expr_of(offers: &[Offer], job: u32) -> Option<&Expr>
    requires { AllPairs (λ b c. b.job < c.job) (map bid offers.now) }
    ensures { MatchOption result
        (find (λ b. b.job == job) (map bid offers.entry.now) ≡ None)
        (λ e. find (λ b. b.job == job) (map bid offers.entry.now) ≡ Some (record { job = job; expr = tree e.now })) }
{
    match offers.binary_search_by_key(&job, |offer| offer.job) {
        Ok(at) => Some(&offers[at].expr),
        Err(_) => None,
    }
}

// What these jobs offer, as far as they are there.
fn offers_of(alloc: Global, offers: &[Offer], jobs: &[u32]) -> Result<Vec<Offer>, AllocError>
    requires offers { AllPairs (λ b c. b.job < c.job) (map bid offers.now) }
    requires jobs { IsStrictlyIncreasing jobs.now }
    ensures { IfOk result (λ made. map bid made.items ≡ filter (λ b. has jobs.now b.job) (map bid offers.now)) }
{
    let mut made = Vec::new(alloc);
    for job in jobs {
        if let Some(expr) = expr_of(offers, *job) {
            made.push(Offer {
                job: *job,
                expr: copy_expr(alloc, expr)?,
            })?;
        }
    }
    Ok(made)
}
