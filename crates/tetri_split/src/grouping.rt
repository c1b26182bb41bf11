// Jobs grouped by their keys.
ghost use Rattle.std.specs.Prelude.{◌≡◌, ◌+◌, ◌<◌, ◌≤◌, ◌++◌, ◌∷◌, ℕ, [], List, All, AllPairs, None, Option, Some, length, map, slice_index_or, IfOk, OnOk};
ghost use Rattle.tetri_space.specs.Space.{bid};
ghost use Rattle.tetri_split.specs.Grouped.{AreGroups, ArePlaces, key_of};
ghost use Rattle.tetri_split.specs.Parts.{jobs_in};

use std::alloc::{AllocError, Global};
use tetri_base::Items;
use tetri_space::Offer;

// Puts a new group with one job last.
fn add_group(alloc: Global, groups: &mut Vec<Items<u32>>, job: u32) -> Result<(), AllocError>
    ensures { OnOk result (groups.new.items ≡ groups.old.items ++ (job ∷ []) ∷ []) }
{
    let mut group = Items::new(alloc);
    group.push(job)?;
    groups.push(group)?;
    Ok(())
}

// Puts a job that comes after all others into the group of its key, or into a new one, last. By key, `places` has the
// place of its group.
fn put(
    alloc: Global,
    groups: &mut Vec<Items<u32>>,
    places: &mut [Option<usize>],
    job: u32,
    key: Option<u32>,
) -> Result<(), AllocError>
    requires key { (x : ℕ) → key ≡ Some x → x < length places.old }
    requires there { (x k : ℕ) → slice_index_or places.old x None ≡ Some k → k < length groups.old.items }
    ensures few { OnOk result (length groups.new.items ≤ length groups.old.items + 1) }
    ensures put { OnOk result ((keys : ℕ → Option ℕ) (jobs : List ℕ) → keys job ≡ key → All (λ j. j < job) jobs
        → AreGroups keys jobs groups.old.items → ArePlaces keys places.old groups.old.items
        → AreGroups keys (jobs ++ job ∷ []) groups.new.items × ArePlaces keys places.new groups.new.items) }
{
    let Some(label) = key else {
        add_group(alloc, groups, job)?;
        return Ok(());
    };
    match places[label as usize] {
        Some(place) => groups[place].push(job)?,
        None => {
            places[label as usize] = Some(groups.len());
            add_group(alloc, groups, job)?;
        }
    }
    Ok(())
}

// The jobs in groups by key, over places of which none is taken.
fn group_over(
    alloc: Global,
    offers: &[Offer],
    keys: &[Option<u32>],
    places: &mut [Option<usize>],
) -> Result<Vec<Items<u32>>, AllocError>
    requires ascending { AllPairs (λ b c. b.job < c.job) (map bid offers.now) }
    requires count { length keys.now ≡ length offers.now }
    requires small { (i x : ℕ) → slice_index_or keys.now i None ≡ Some x → x < length places.old }
    requires free { (x : ℕ) → slice_index_or places.old x None ≡ None }
    ensures few { IfOk result (λ groups. length groups.items ≤ length offers.now) }
    ensures groups { IfOk result (λ groups. AreGroups (key_of keys.now (jobs_in (map bid offers.now))) (jobs_in (map bid offers.now)) groups.items) }
{
    let mut groups = Vec::new(alloc);
    for place in 0..offers.len() {
        put(alloc, &mut groups, places, offers[place].job, keys[place])?;
    }
    Ok(groups)
}

// The jobs in groups by key, where the keys are below a bound.
pub fn group_jobs(
    alloc: Global,
    offers: &[Offer],
    keys: &[Option<u32>],
    bound: u32,
) -> Result<Vec<Items<u32>>, AllocError>
    requires ascending { AllPairs (λ b c. b.job < c.job) (map bid offers.now) }
    requires count { length keys.now ≡ length offers.now }
    requires small { (i x : ℕ) → slice_index_or keys.now i None ≡ Some x → x < bound }
    ensures few { IfOk result (λ groups. length groups.items ≤ length offers.now) }
    ensures groups { IfOk result (λ groups. AreGroups (key_of keys.now (jobs_in (map bid offers.now))) (jobs_in (map bid offers.now)) groups.items) }
{
    let mut places = vec![in alloc; None; bound as usize]?;
    let groups = group_over(alloc, offers, keys, &mut places)?;
    Ok(groups)
}
