// Taking nodes from the cheapest.
ghost use Rattle.std.specs.Prelude.{◌≡◌, ◌≤◌, ◌^◌, All, IfOk};
ghost use Rattle.tetri_base.specs.Lists.{sum_of};
ghost use Rattle.tetri_prices.specs.Filling.{by_cost, fill, pick};

use std::alloc::AllocError;

/// Nodes that cost the same.
#[derive(Clone, Copy, Debug)]
pub struct Place {
    /// What each of them costs.
    pub cost: u128,
    /// How many of them there are to take.
    pub capacity: u64,
}

// Puts the places in order of cost.
pub fn order(places: &mut Vec<Place>) -> Result<(), AllocError>
    ensures { IfOk result (λ u. places.new.items
        ≡ by_cost (λ p. p.cost) (λ p. p.capacity) places.old.items) }
{
    places.sort_by_key(|place| place.cost)?;
    Ok(())
}

// What so many nodes cost, taken from each place in turn as far as its capacity goes.
pub fn fill(count: u64, places: &[Place]) -> u128
    requires few { count ≤ 4096 }
    requires small { All (λ p. p.cost ≤ 2 ^ 70) places.now }
    ensures cost { result ≡ fill (λ p. p.cost) (λ p. p.capacity) count places.now }
    ensures small { result ≤ 2 ^ 82 }
{
    let mut left = count;
    let mut spent: u128 = 0;
    for place in places {
        let taken = left.min(place.capacity);
        spent += taken as u128 * place.cost;
        left -= taken;
    }
    spent
}

// What at most so many nodes bring above their costs, taken from each place in turn, where each
// brings `each`.
pub fn pick(each: u128, count: u64, places: &[Place]) -> u128
    requires few { count ≤ 4096 }
    requires small { each ≤ 2 ^ 80 }
    ensures { result ≡ pick (λ p. p.cost) (λ p. p.capacity) each count places.now }
{
    let mut left = count;
    let mut gained: u128 = 0;
    for place in places {
        let taken = left.min(place.capacity);
        gained += taken as u128 * each.saturating_sub(place.cost);
        left -= taken;
    }
    gained
}

// How many nodes there are to take in all.
pub fn capacity_in(places: &[Place]) -> u128
    ensures { result ≡ sum_of (λ p. p.capacity) places.now }
{
    let mut sum: u128 = 0;
    for place in places {
        sum += u128::from(place.capacity);
    }
    sum
}
