// The rows that keep each partition within what is free of it.
ghost use Rattle.std.specs.Prelude.{◌≡◌, ◌<◌, ◌≤◌, ◌==◌, ℕ, [], List, length, map, replicate, IfOk, OnOk};
ghost use Rattle.std.specs.List.{filter, range_with_len};
ghost use Rattle.tetri_space.specs.Partitions.{ArePartitionsOf, parts_of, partitions};
ghost use Rattle.tetri_space.specs.Sound.{IsSound};
ghost use Rattle.tetri_space.specs.Space.{space};
ghost use Rattle.tetri_compile.specs.declared.outline.Tally.{Tally as TallyRow};
ghost use Rattle.tetri_base.specs.Lists.{list_at};
ghost use Rattle.tetri_compile.specs.Draft.{is_held, part_supply, supply, supply_row, tally_form};
ghost use Rattle.tetri_compile.specs.steps.Room.{AreRooms};
ghost use Rattle.tetri_compile.specs.Sizes.{covers};
ghost use Rattle.tetri_compile.specs.steps.Walked.{Grows, room};

use crate::outline::{Inequality, Outline, Share, Tally};
use crate::rooms::{Rooms, room_at};
use std::alloc::{AllocError, Global};
use tetri_space::{Instance, Partitions};

fn empty_lists(alloc: Global, count: u32) -> Result<Vec<Vec<Tally>>, AllocError>
    ensures { IfOk result (λ v. map (λ x. x.items) v.items ≡ replicate count []) }
{
    let mut lists = Vec::with_capacity(alloc, count as usize)?;
    for _ in 0..count {
        lists.push(Vec::new(alloc))?;
    }
    Ok(lists)
}

// The columns of each partition, in their order.
fn by_part(alloc: Global, count: u32, tallies: &[Tally]) -> Result<Vec<Vec<Tally>>, AllocError>
    ensures count { IfOk result (λ v. length v.items ≡ count) }
    ensures parts { IfOk result (λ v. (p : ℕ) → p < count → list_at v.items p ≡ filter (λ c. c.part == p) tallies.now) }
{
    let mut lists = empty_lists(alloc, count)?;
    for tally in tallies {
        if tally.part < count {
            lists[tally.part as usize].push(*tally)?;
        }
    }
    Ok(lists)
}

// The columns whose leaves use their nodes in this slot, once each.
fn held_form(alloc: Global, tallies: &[Tally], slot: u32) -> Result<Vec<Share>, AllocError>
    ensures { IfOk result (λ f. f.items ≡ tally_form (filter (λ c. covers c.leaf slot) tallies.now)) }
{
    let mut form = Vec::new(alloc);
    for tally in tallies {
        if tally.leaf.start <= slot && slot - tally.leaf.start < tally.leaf.dur {
            form.push(Share {
                column: tally.column,
                by: 1,
            })?;
        }
    }
    Ok(form)
}

// Adds the row of a partition and a slot, if some column of it is used then.
fn add_slot(
    alloc: Global,
    inst: &Instance,
    parts: &Partitions,
    rooms: &Rooms,
    part: u32,
    slot: u32,
    tallies: &[Tally],
    out: &mut Outline,
) -> Result<(), AllocError>
    requires sound { IsSound (space inst.now) }
    requires partitions { ArePartitionsOf (space inst.now) (parts_of parts.now) }
    requires rooms { AreRooms (space inst.now) rooms.now }
    requires there { part < length (partitions (space inst.now)) }
    requires not_past { inst.now.now ≤ slot }
    ensures { OnOk result ((cs : List TallyRow) → tallies.now ≡ filter (λ c. c.part == part) cs →
        Grows out.old out.new [] (supply_row (filter (is_held part slot) cs) (room (space inst.entry.now) part slot)) []) }
{
    let form = held_form(alloc, tallies, slot)?;
    if form.is_empty() {
        return Ok(());
    }
    out.rows.push(Inequality {
        most: form,
        under: Vec::new(alloc),
        plus: room_at(inst, parts, rooms, part, slot),
    })?;
    Ok(())
}

// Adds the rows of a partition.
fn add_part(
    alloc: Global,
    inst: &Instance,
    parts: &Partitions,
    rooms: &Rooms,
    part: u32,
    tallies: &[Tally],
    out: &mut Outline,
) -> Result<(), AllocError>
    requires sound { IsSound (space inst.now) }
    requires partitions { ArePartitionsOf (space inst.now) (parts_of parts.now) }
    requires rooms { AreRooms (space inst.now) rooms.now }
    requires there { part < length (partitions (space inst.now)) }
    ensures { OnOk result ((cs : List TallyRow) → tallies.now ≡ filter (λ c. c.part == part) cs →
        Grows out.old out.new [] (part_supply (room (space inst.entry.now)) cs part
        (range_with_len inst.entry.now.now inst.entry.now.window)) []) }
{
    for slot in inst.now..inst.now + inst.window {
        add_slot(alloc, inst, parts, rooms, part, slot, tallies, out)?;
    }
    Ok(())
}

/// Adds the rows of supply: one for each partition and each slot of the window in which some leaf uses
/// nodes of it.
pub fn add_supply(
    alloc: Global,
    inst: &Instance,
    parts: &Partitions,
    rooms: &Rooms,
    out: &mut Outline,
) -> Result<(), AllocError>
    requires sound { IsSound (space inst.now) }
    requires partitions { ArePartitionsOf (space inst.now) (parts_of parts.now) }
    requires rooms { AreRooms (space inst.now) rooms.now }
    ensures { OnOk result (Grows out.old out.new []
        (supply (room (space inst.entry.now)) out.old.tallies.items
        (range_with_len inst.entry.now.now inst.entry.now.window) (range_with_len 0 (length (partitions (space inst.entry.now))))) []) }
{
    let lists = by_part(alloc, parts.count(), &out.tallies)?;
    for part in 0..parts.count() {
        let mine = lists[part as usize].as_slice();
        add_part(alloc, inst, parts, rooms, part, mine, out)?;
    }
    Ok(())
}
