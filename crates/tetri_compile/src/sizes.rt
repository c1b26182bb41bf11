// The size of the program of an instance.
ghost use Rattle.std.specs.Prelude.{◌≡◌, ◌<◌, ◌≤◌, ◌+◌, ◌&&◌, ◌||◌, ◌==◌, ◌^◌, ℕ, All, true, length, slice_index_or};
ghost use Rattle.std.specs.List.{list_any, range_with_len};
ghost use Rattle.tetri_strl.specs.Aligned.{EachLeaf};
ghost use Rattle.tetri_strl.specs.Tree.{leaves, tree};
ghost use Rattle.tetri_base.specs.Lists.{count, has, sum_of};
ghost use Rattle.tetri_space.specs.Partitions.{ArePartitionsOf, parts_found, parts_of};
ghost use Rattle.tetri_space.specs.Sound.{IsSound};
ghost use Rattle.tetri_space.specs.Space.{space};
ghost use Rattle.tetri_compile.specs.Flat.{column_count, row_count};
ghost use Rattle.tetri_compile.specs.Sizes.{HasUsableParts, IsUsable, StartsInWindow, covers, has_slot, is_used, leaves_in, row_total, width_by};

use tetri_space::{Instance, Partitions, hold, slots_of};
use tetri_strl::Expr;

// How many nodes there are at most, and how many sets.
const MOST: usize = 4096;

/// The numbers of columns and of rows of the program of an instance. It makes nothing and takes no
/// memory. Linear in the leaves, in the partitions of each set, and in the partitions for each slot of
/// the window.
pub fn size(inst: &Instance, parts: &Partitions) -> (u64, u64)
    requires sound { IsSound (space inst.now) }
    requires partitions { ArePartitionsOf (space inst.now) (parts_of parts.now) }
    ensures columns { result.0 ≡ column_count (space inst.entry.now) }
    ensures rows { result.1 ≡ row_count (space inst.entry.now) }
{
    let mut columns = 0;
    let mut rows = 0;
    for offer in parts.offers() {
        columns += 1 + columns_of(&offer.expr, parts);
        rows += rows_of(&offer.expr);
    }
    (columns, rows + supply_rows(inst, parts))
}

// How many columns the walk of an expression has.
fn columns_of(e: &Expr, parts: &Partitions) -> u64
    requires known { EachLeaf (λ l. l.set < length (parts_of parts.now).inside) (tree e.now) }
    requires fits { width_by (λ k. length (parts_found (parts_of parts.now) k)) (tree e.now) < 2 ^ 64 }
    ensures { result ≡ width_by (λ k. length (parts_found (parts_of parts.now) k)) (tree e.now) }
{
    match e {
        Expr::One(leaf) => parts.parts_in(leaf.set).len() as u64,
        Expr::Max(kids) | Expr::Sum(kids) => {
            let mut columns = 0;
            for kid in kids {
                columns += 1 + columns_of(kid, parts);
            }
            columns
        }
        Expr::Min(kids) => {
            let mut columns = 1;
            for kid in kids {
                columns += columns_of(kid, parts);
            }
            columns
        }
        Expr::Scale(kid, _) | Expr::Barrier(kid, _) => columns_of(kid, parts),
    }
}

// How many rows the walk of an expression has.
fn rows_of(e: &Expr) -> u64
    requires { row_total (tree e.now) < 2 ^ 64 }
    ensures { result ≡ row_total (tree e.now) }
{
    match e {
        Expr::One(leaf) => if leaf.linear { 1 } else { 2 },
        Expr::Max(kids) | Expr::Sum(kids) => {
            let mut rows = 1;
            for kid in kids {
                rows += rows_of(kid);
            }
            rows
        }
        Expr::Min(kids) => {
            let mut rows = 0;
            for kid in kids {
                rows += 1 + rows_of(kid);
            }
            rows
        }
        Expr::Scale(kid, _) => rows_of(kid),
        Expr::Barrier(kid, _) => 1 + rows_of(kid),
    }
}

// How many rows keep the partitions within what is free: one for each partition and each slot of the
// window in which some leaf uses nodes of it.
fn supply_rows(inst: &Instance, parts: &Partitions) -> u64
    requires sound { IsSound (space inst.now) }
    requires usable { HasUsableParts inst.now.now (parts_of parts.now) }
    ensures few { result ≤ 262144 }
    ensures value { result ≡ sum_of (λ t. count (λ p. is_used (parts_found (parts_of parts.now)) (leaves_in (parts_of parts.now).bids) p t)
        (range_with_len 0 (length (parts_of parts.now).groups))) (range_with_len inst.entry.now.now inst.entry.now.window) }
{
    let mut named = [0u64; MOST];
    hold_leaves(parts, inst.now, &mut named);
    let mut used = [0u64; MOST];
    hold_parts(parts, &named, &mut used);
    let mut rows = 0;
    for place in 0..inst.window {
        rows += held_in(&used[..parts.count() as usize], place);
    }
    rows
}

// Adds to the slots of each set those in which leaves over it use their nodes.
fn hold_leaves(parts: &Partitions, now: u32, named: &mut [u64])
    requires { All (λ l. (l.set < length named.old) × StartsInWindow now l) (leaves_in (parts_of parts.now).bids) }
    ensures { (k i : ℕ) → i < 64 → has_slot (slice_index_or named.new k 0) i
        ≡ (has_slot (slice_index_or named.old k 0) i || list_any (λ l. covers l (now + i) && l.set == k) (leaves_in (parts_of parts.now).bids)) }
{
    for offer in parts.offers() {
        hold_slots(&offer.expr, now, named);
    }
}

// Adds to the slots of each partition those of the sets that it is in.
fn hold_parts(parts: &Partitions, named: &[u64], used: &mut [u64])
    requires few { length named.now ≤ 4096 }
    requires usable { (k i : ℕ) → i < 64 → has_slot (slice_index_or named.now k 0) i ≡ true → IsUsable (parts_of parts.now) (length used.old) k }
    ensures { (p i : ℕ) → p < length used.old → i < 64 → has_slot (slice_index_or used.new p 0) i ≡ (has_slot (slice_index_or used.old p 0) i
        || list_any (λ k. has_slot (slice_index_or named.now k 0) i && has (parts_found (parts_of parts.now) k) p) (range_with_len 0 (length named.now))) }
{
    for set in 0..named.len() {
        if named[set] > 0 {
            hold(used, named[set], parts.parts_in(set as u32));
        }
    }
}

// How many of these have the slot at this place in the window.
fn held_in(slots: &[u64], place: u32) -> u64
    requires { place < 64 }
    ensures { result ≡ count (λ s. has_slot s place) slots.now }
{
    let mut held = 0;
    for slot in slots {
        if has_slot(*slot, place) {
            held += 1;
        }
    }
    held
}

fn has_slot(slots: u64, place: u32) -> bool
    requires { place < 64 }
    ensures { result ≡ has_slot slots place }
{
    slots & (1 << place) != 0
}

// Adds to the slots of each set those in which leaves over it use their nodes.
fn hold_slots(e: &Expr, now: u32, named: &mut [u64])
    requires { EachLeaf (λ l. (l.set < length named.old) × StartsInWindow now l) (tree e.now) }
    ensures { (k i : ℕ) → i < 64 → has_slot (slice_index_or named.new k 0) i
        ≡ (has_slot (slice_index_or named.old k 0) i || list_any (λ l. covers l (now + i) && l.set == k) (leaves (tree e.now))) }
{
    match e {
        Expr::One(leaf) => {
            named[leaf.set as usize] |= slots_of(now, leaf);
        }
        Expr::Max(kids) | Expr::Min(kids) | Expr::Sum(kids) => {
            for kid in kids {
                hold_slots(kid, now, named);
            }
        }
        Expr::Scale(kid, _) | Expr::Barrier(kid, _) => hold_slots(kid, now, named),
    }
}
