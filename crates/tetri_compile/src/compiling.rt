// The program of an instance.
ghost use Rattle.std.specs.Prelude.{◌≡◌, ◌<◌, ◌≤◌, ◌+◌, ◌^◌, All, List, length, pos, ◌≤ℤ◌, IfOk, OnOk};
ghost use Rattle.tetri_strl.specs.Aligned.{EachLeaf};
ghost use Rattle.tetri_strl.specs.WellMade.{IsSound};
ghost use Rattle.tetri_strl.specs.declared.grants.Grant.{Grant};
ghost use Rattle.tetri_ip.specs.Points.{IsFit, IsPoint, box_of, objective as worth_at};
ghost use Rattle.tetri_space.specs.Lawful.{IsLawful};
ghost use Rattle.tetri_base.specs.Lists.{Each};
ghost use Rattle.tetri_space.specs.Partitions.{ArePartitionsOf, parts_of};
ghost use Rattle.tetri_space.specs.Sound.{IsSound as IsSoundSpace};
ghost use Rattle.tetri_space.specs.Space.{space};
ghost use Rattle.tetri_space.specs.Total.{total_in};
ghost use Rattle.tetri_compile.specs.Allotted.{point_of};
ghost use Rattle.tetri_compile.specs.Counting.{AreCountsOf};
ghost use Rattle.tetri_compile.specs.Draft.{bid_rows, bid_tallies, bid_uppers, draft, objective, outline_draft};
ghost use Rattle.tetri_compile.specs.Flat.{IsCompiled, column_count, row_count};
ghost use Rattle.tetri_compile.specs.Gain.{most_gain};
ghost use Rattle.tetri_compile.specs.steps.Room.{AreRooms};
ghost use Rattle.tetri_compile.specs.Small.{HasSmallNumbers};
ghost use Rattle.tetri_compile.specs.steps.Walked.{Grows, IsReady, inside, next_column, usable};

use crate::flattening::{counts_from, flatten};
use crate::outline::{Outline, Share};
use crate::rooms::{Rooms, rooms_of};
use crate::supply::add_supply;
use crate::walking::walk;
use std::alloc::{AllocError, Global};
use tetri_ip::Program;
use tetri_space::{Instance, Partitions};

/// A column that counts the nodes which a leaf gets of one partition.
#[derive(Clone, Copy, Debug, PartialEq, Eq)]
pub struct Count {
    /// The number of the column.
    pub column: u32,
    /// The number of the job.
    pub job: u32,
    /// The number of the leaf in the job's expression.
    pub leaf: u32,
    /// The number of the partition.
    pub part: u32,
}

/// The program of an instance, and its columns that count nodes.
#[derive(Drop)]
pub struct Compiled {
    /// The program. Each lower bound is 0.
    pub program: Program,
    /// What its count columns count, ascending by column.
    pub counts: Vec<Count>,
}

// The walk of each job's expression, each under an indicator of its own: what the columns earn.
fn walk_bids(
    alloc: Global,
    inst: &Instance,
    parts: &Partitions,
    rooms: &Rooms,
    out: &mut Outline,
) -> Result<Vec<Share>, AllocError>
    requires sound { IsSoundSpace (space inst.now) }
    requires partitions { ArePartitionsOf (space inst.now) (parts_of parts.now) }
    requires rooms { AreRooms (space inst.now) rooms.now }
    requires ready { Each (λ b. IsSound b.expr × EachLeaf (IsReady (space inst.now) (parts_of parts.now)) b.expr) (parts_of parts.now).bids }
    requires fits { next_column out.old + length (bid_uppers (inside (space inst.now)) (usable (space inst.now)) (parts_of parts.now).bids) < 2 ^ 31 }
    ensures form { IfOk result (λ f. f.items ≡ objective (inside (space inst.entry.now)) (usable (space inst.entry.now)) (parts_of parts.now).bids (next_column out.old)) }
    ensures grows { OnOk result (Grows out.old out.new
        (bid_uppers (inside (space inst.entry.now)) (usable (space inst.entry.now)) (parts_of parts.now).bids)
        (bid_rows (inside (space inst.entry.now)) (usable (space inst.entry.now)) (parts_of parts.now).bids (next_column out.old))
        (bid_tallies (inside (space inst.entry.now)) (usable (space inst.entry.now)) (parts_of parts.now).bids (next_column out.old))) }
{
    let mut form = Vec::new(alloc);
    for offer in parts.offers() {
        let indicator = out.uppers.len() as u32;
        out.uppers.push(1)?;
        let part = walk(
            alloc,
            inst,
            parts,
            rooms,
            offer.job,
            &offer.expr,
            indicator,
            out,
        )?;
        form.extend_from_slice(&part)?;
    }
    Ok(form)
}

// What is written down of an instance: its outline, and what the columns earn.
#[derive(Drop)]
struct Written {
    form: Vec<Share>,
    outline: Outline,
}

// The walks of all expressions, and the supply.
fn write_down(alloc: Global, inst: &Instance, parts: &Partitions) -> Result<Written, AllocError>
    requires sound { IsSoundSpace (space inst.now) }
    requires partitions { ArePartitionsOf (space inst.now) (parts_of parts.now) }
    requires columns { column_count (space inst.now) ≤ 2000 }
    ensures { IfOk result (λ w. outline_draft w.outline w.form.items ≡ draft (space inst.entry.now)) }
{
    let rooms = rooms_of(alloc, inst, parts)?;
    let mut outline = Outline {
        uppers: Vec::new(alloc),
        rows: Vec::new(alloc),
        tallies: Vec::new(alloc),
    };
    let form = walk_bids(alloc, inst, parts, &rooms, &mut outline)?;
    add_supply(alloc, inst, parts, &rooms, &mut outline)?;
    Ok(Written { form, outline })
}

/// The program of an instance, and its columns that count nodes. Every lawful allotment has a point of
/// the program at which the program earns no less than the allotment's total. A count is 0 where its
/// partition is closed in a slot of its leaf. The program is fit, its lower bounds are 0, each number is
/// at most 10^12 in size, and its columns can earn at most 2^64 - 1 together. Linear in the program and
/// in the forms at each level of an expression, but for the sorting of each row's terms and of each
/// partition's nodes, and a binary search for each count and each row of supply.
pub fn compile(alloc: Global, inst: &Instance, parts: &Partitions) -> Result<Compiled, AllocError>
    requires sound { IsSoundSpace (space inst.now) }
    requires partitions { ArePartitionsOf (space inst.now) (parts_of parts.now) }
    requires columns { column_count (space inst.now) ≤ 2000 }
    requires rows { row_count (space inst.now) ≤ 2000 }
    ensures compiled { IfOk result (λ c. IsCompiled (space inst.entry.now) c) }
    ensures allotments { IfOk result (λ c. (a : List Grant) → IsLawful (space inst.entry.now) a →
        IsPoint c.program (box_of c.program) (point_of (space inst.entry.now) a)
        × (pos (total_in (space inst.entry.now) a) ≤ℤ worth_at c.program (point_of (space inst.entry.now) a))) }
    ensures fit { IfOk result (λ c. IsFit c.program) }
    ensures lower { IfOk result (λ c. All (λ z. z ≡ pos 0) c.program.lower.items) }
    ensures counts { IfOk result (λ c. AreCountsOf c.program c.counts.items) }
    ensures bounded { IfOk result (λ c. most_gain c.program < 2 ^ 64) }
    ensures small { IfOk result (λ c. HasSmallNumbers c.program) }
{
    let written = write_down(alloc, inst, parts)?;
    let program = flatten(alloc, &written.form, &written.outline)?;
    let counts = counts_from(alloc, &written.outline.tallies)?;
    Ok(Compiled { program, counts })
}
