// The rows that keep each partition within what is free of it.
ghost use Rattle.std.specs.Prelude.{◌≡◌, ◌<◌, ◌≤◌, ◌==◌, ℕ, [], List, length, map, replicate, IfOk, OnOk};
ghost use Rattle.std.specs.List.{filter, range_with_len};
ghost use Rattle.tetri_base.specs.Lists.{list_at};
ghost use Rattle.tetri_space.specs.Partitions.{ArePartitionsOf, parts_of, partitions};
ghost use Rattle.tetri_space.specs.Sound.{IsSound};
ghost use Rattle.tetri_space.specs.Space.{space};
ghost use Rattle.tetri_compile.specs.declared.outline.Tally.{Tally};
ghost use Rattle.tetri_compile.specs.Draft.{is_held, part_supply, supply, supply_row, tally_form};
ghost use Rattle.tetri_compile.specs.Sizes.{covers};
ghost use Rattle.tetri_compile.specs.steps.Walked.{room};
ghost use Rattle.tetri_wide.specs.Sketch.{Grows, form_of, sketch, tally_of};

use crate::outline::{Holding, Inequality, Multiple, Outline};
use std::alloc::{AllocError, Global};
use tetri_space::{Instance, Partitions, available};

fn empty_lists(alloc: Global, count: u32) -> Result<Vec<Vec<Holding>>, AllocError>
    ensures { IfOk result (λ v. map (λ x. x.items) v.items ≡ replicate count []) }
{
    let mut lists = Vec::with_capacity(alloc, count as usize)?;
    for _ in 0..count {
        lists.push(Vec::new(alloc))?;
    }
    Ok(lists)
}

// The columns of each partition, in their order.
fn by_part(alloc: Global, count: u32, holdings: &[Holding]) -> Result<Vec<Vec<Holding>>, AllocError>
    ensures count { IfOk result (λ v. length v.items ≡ count) }
    ensures parts { IfOk result (λ v. (p : ℕ) → p < count → list_at v.items p ≡ filter (λ c. c.part == p) holdings.now) }
{
    let mut lists = empty_lists(alloc, count)?;
    for holding in holdings {
        if holding.part < count {
            lists[holding.part as usize].push(*holding)?;
        }
    }
    Ok(lists)
}

// The columns whose leaves use their nodes in this slot, once each.
fn held_form(alloc: Global, holdings: &[Holding], slot: u32) -> Result<Vec<Multiple>, AllocError>
    ensures { IfOk result (λ f. form_of f.items ≡ tally_form (filter (λ c. covers c.leaf slot) (map tally_of holdings.now))) }
{
    let mut form = Vec::new(alloc);
    for holding in holdings {
        if holding.leaf.start <= slot && slot - holding.leaf.start < holding.leaf.dur {
            form.push(Multiple {
                column: holding.column,
                by: 1,
            })?;
        }
    }
    Ok(form)
}

// Adds the row of a partition and a slot, if some column of it is used then.
fn add_slot(
    alloc: Global,
    inst: &Instance,
    parts: &Partitions,
    part: u32,
    slot: u32,
    holdings: &[Holding],
    out: &mut Outline,
) -> Result<(), AllocError>
    requires sound { IsSound (space inst.now) }
    requires partitions { ArePartitionsOf (space inst.now) (parts_of parts.now) }
    requires there { part < length (partitions (space inst.now)) }
    requires not_past { inst.now.now ≤ slot }
    ensures { OnOk result ((cs : List Tally) → map tally_of holdings.now ≡ filter (λ c. c.part == part) cs →
        Grows (sketch out.old) (sketch out.new) [] (supply_row (filter (is_held part slot) cs) (room (space inst.entry.now) part slot)) []) }
{
    let form = held_form(alloc, holdings, slot)?;
    if form.is_empty() {
        return Ok(());
    }
    out.rows.push(Inequality {
        most: form,
        under: Vec::new(alloc),
        plus: u64::from(available(inst, parts, part, slot)),
    })?;
    Ok(())
}

// Adds the rows of a partition.
fn add_part(
    alloc: Global,
    inst: &Instance,
    parts: &Partitions,
    part: u32,
    holdings: &[Holding],
    out: &mut Outline,
) -> Result<(), AllocError>
    requires sound { IsSound (space inst.now) }
    requires partitions { ArePartitionsOf (space inst.now) (parts_of parts.now) }
    requires there { part < length (partitions (space inst.now)) }
    ensures { OnOk result ((cs : List Tally) → map tally_of holdings.now ≡ filter (λ c. c.part == part) cs →
        Grows (sketch out.old) (sketch out.new) [] (part_supply (room (space inst.entry.now)) cs part
        (range_with_len inst.entry.now.now inst.entry.now.window)) []) }
{
    for slot in inst.now..inst.now + inst.window {
        add_slot(alloc, inst, parts, part, slot, holdings, out)?;
    }
    Ok(())
}

/// Adds the rows of supply: one for each partition and each slot of the window in which some leaf uses
/// nodes of it.
pub fn add_supply(
    alloc: Global,
    inst: &Instance,
    parts: &Partitions,
    out: &mut Outline,
) -> Result<(), AllocError>
    requires sound { IsSound (space inst.now) }
    requires partitions { ArePartitionsOf (space inst.now) (parts_of parts.now) }
    ensures { OnOk result (Grows (sketch out.old) (sketch out.new) []
        (supply (room (space inst.entry.now)) (sketch out.old).tallies
        (range_with_len inst.entry.now.now inst.entry.now.window) (range_with_len 0 (length (partitions (space inst.entry.now))))) []) }
{
    let lists = by_part(alloc, parts.count(), &out.holdings)?;
    for part in 0..parts.count() {
        let mine = lists[part as usize].as_slice();
        add_part(alloc, inst, parts, part, mine, out)?;
    }
    Ok(())
}
