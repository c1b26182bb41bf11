// Prices of nodes.
ghost use Rattle.std.specs.Prelude.{◌≡◌, ◌+◌, ◌<◌, ◌≤◌, ◌^◌, ◌↔◌, length, map, slice_index, IfOk, IsTrue};
ghost use Rattle.tetri_base.specs.Lists.{list_at};
ghost use Rattle.tetri_prices.specs.Priced.{ArePricesOf, listed, node_cost};
ghost use Rattle.tetri_prices.specs.Prices.{ArePrices, AreSums, rows_of};
ghost use Rattle.tetri_space.specs.Partitions.{ArePartitionsOf, parts_of, partitions};
ghost use Rattle.tetri_space.specs.Sound.{IsSound};
ghost use Rattle.tetri_space.specs.Space.{IsLive, space};
ghost use Rattle.tetri_strl.specs.WellMade.{IsGoodLeaf};

use std::alloc::{AllocError, Global};
use tetri_space::{Instance, Partitions};
use tetri_strl::Leaf;

/// Prices of one node for one slot, by partition and slot of the window, in parts of a unit, with
/// their sums over the first slots.
#[derive(Drop)]
pub struct Prices {
    pub(crate) rows: Vec<Vec<u64>>,
    pub(crate) sums: Vec<Vec<u128>>,
}

/// Whether there is a price for each partition and each slot of the window.
pub fn are_prices(inst: &Instance, parts: &Partitions, rows: &[Vec<u64>]) -> bool
    requires partitions { ArePartitionsOf (space inst.now) (parts_of parts.now) }
    ensures { IsTrue result ↔ ArePricesOf (space inst.entry.now) (map (λ v. v.items) rows.entry.now) }
{
    if rows.len() != parts.count() as usize {
        return false;
    }
    for row in rows {
        if row.len() != inst.window as usize {
            return false;
        }
    }
    true
}

// The sums of the first prices: of none, of one, and so on up to all.
fn sums_of(alloc: Global, prices: &[u64]) -> Result<Vec<u128>, AllocError>
    requires few { length prices.now ≤ 64 }
    ensures { IfOk result (λ v. AreSums prices.now v.items) }
{
    let mut sum: u128 = 0;
    let mut sums = Vec::with_capacity(alloc, prices.len() + 1)?;
    sums.push(sum)?;
    for price in prices {
        sum += *price as u128;
        sums.push(sum)?;
    }
    Ok(sums)
}

impl Prices {
    /// These prices, by partition and slot of the window. Its only error is want of memory.
    pub fn of(alloc: Global, inst: &Instance, rows: Vec<Vec<u64>>) -> Result<Self, AllocError>
        requires sound { IsSound (space inst.now) }
        requires prices { ArePricesOf (space inst.now) (map (λ v. v.items) rows.items) }
        ensures prices { IfOk result (λ p. ArePrices (space inst.entry.now) p) }
        ensures rows { IfOk result (λ p. rows_of p ≡ map (λ v. v.items) rows.items) }
    {
        // The clauses alone speak of the instance.
        let mut sums = Vec::with_capacity(alloc, rows.len())?;
        for row in &rows {
            sums.push(sums_of(alloc, row)?)?;
        }
        Ok(Prices { rows, sums })
    }

    /// The prices, by partition and slot of the window.
    pub fn rows(&self) -> &[Vec<u64>]
        ensures { map (λ v. v.items) result.now ≡ rows_of self.now }
    {
        self.rows.as_slice()
    }

    /// The prices again, to be changed.
    pub fn into_rows(self) -> Vec<Vec<u64>>
        ensures { map (λ v. v.items) result.items ≡ rows_of self }
    {
        self.rows
    }

    // The prices of a partition, by slot of the window.
    pub(crate) fn row(&self, part: u32) -> &[u64]
        requires { part < length self.now.rows.items }
        ensures { result.now ≡ list_at self.now.rows.items part }
    {
        self.rows[part as usize].as_slice()
    }

    // What a node of a partition costs a leaf.
    pub(crate) fn cost_of(&self, inst: &Instance, part: u32, leaf: &Leaf) -> u128
        requires sound { IsSound (space inst.now) }
        requires prices { ArePrices (space inst.now) self.now }
        requires there { part < length (partitions (space inst.now)) }
        requires live { IsLive (space inst.now) leaf.now }
        requires good { IsGoodLeaf leaf.now }
        ensures cost { result ≡ node_cost (space inst.entry.now) (partitions (space inst.entry.now))
            (listed (space inst.entry.now).now (rows_of self.now)) leaf.now part }
        ensures small { result ≤ 2 ^ 70 }
    {
        let sums = self.sums[part as usize].as_slice();
        let from = leaf.start - inst.now;
        let to = (from + leaf.dur).min(inst.window);
        sums[to as usize] - sums[from as usize]
    }
}
