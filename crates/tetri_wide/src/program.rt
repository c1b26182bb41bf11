// The program of an instance.
ghost use Rattle.std.specs.Prelude.{◌≡◌, ◌<◌, ◌+◌, ◌^◌, List, length, pos, ◌≤ℤ◌, IfOk, OnOk};
ghost use Rattle.tetri_base.specs.Lists.{Each};
ghost use Rattle.tetri_strl.specs.Aligned.{EachLeaf};
ghost use Rattle.tetri_strl.specs.WellMade.{IsSound};
ghost use Rattle.tetri_strl.specs.declared.grants.Grant.{Grant};
ghost use Rattle.tetri_ip.specs.Points.{IsPoint, box_of, objective as worth_at};
ghost use Rattle.tetri_space.specs.Lawful.{IsLawful};
ghost use Rattle.tetri_space.specs.Partitions.{ArePartitionsOf, parts_of};
ghost use Rattle.tetri_space.specs.Sound.{IsSound as IsSoundSpace};
ghost use Rattle.tetri_space.specs.Space.{space};
ghost use Rattle.tetri_space.specs.Total.{total_in};
ghost use Rattle.tetri_compile.specs.Allotted.{point_of};
ghost use Rattle.tetri_compile.specs.Draft.{bid_rows, bid_tallies, bid_uppers, draft, objective};
ghost use Rattle.tetri_compile.specs.Flat.{column_count, plain, program_of};
ghost use Rattle.tetri_compile.specs.steps.Walked.{IsReady, inside, usable};
ghost use Rattle.tetri_wide.specs.Sketch.{Grows, form_of, next_column, sketch, sketch_draft};

use crate::flattening::flatten;
use crate::outline::{Multiple, Outline};
use crate::supply::add_supply;
use crate::walking::walk;
use std::alloc::{AllocError, Global};
use tetri_ip::Program;
use tetri_space::{Instance, Partitions};

// The walk of each job's expression, each under an indicator of its own: what the columns earn.
fn walk_bids(
    alloc: Global,
    inst: &Instance,
    parts: &Partitions,
    out: &mut Outline,
) -> Result<Vec<Multiple>, AllocError>
    requires sound { IsSoundSpace (space inst.now) }
    requires partitions { ArePartitionsOf (space inst.now) (parts_of parts.now) }
    requires ready { Each (λ b. IsSound b.expr × EachLeaf (IsReady (space inst.now) (parts_of parts.now)) b.expr)
        (parts_of parts.now).bids }
    requires fits { next_column (sketch out.old)
        + length (bid_uppers (inside (space inst.now)) (usable (space inst.now)) (parts_of parts.now).bids) < 2 ^ 31 }
    ensures form { IfOk result (λ f. form_of f.items ≡ objective (inside (space inst.entry.now))
        (usable (space inst.entry.now)) (parts_of parts.now).bids (next_column (sketch out.old))) }
    ensures grows { OnOk result (Grows (sketch out.old) (sketch out.new)
        (bid_uppers (inside (space inst.entry.now)) (usable (space inst.entry.now)) (parts_of parts.now).bids)
        (bid_rows (inside (space inst.entry.now)) (usable (space inst.entry.now)) (parts_of parts.now).bids (next_column (sketch out.old)))
        (bid_tallies (inside (space inst.entry.now)) (usable (space inst.entry.now)) (parts_of parts.now).bids (next_column (sketch out.old)))) }
{
    let mut form = Vec::new(alloc);
    for offer in parts.offers() {
        let indicator = out.uppers.len() as u32;
        out.uppers.push(1)?;
        let part = walk(alloc, inst, parts, offer.job, &offer.expr, indicator, out)?;
        form.extend_from_slice(&part)?;
    }
    Ok(form)
}

// What is written down of an instance: its outline, and what the columns earn.
#[derive(Drop)]
struct Written {
    form: Vec<Multiple>,
    outline: Outline,
}

// The walks of all expressions, and the supply.
fn write_down(alloc: Global, inst: &Instance, parts: &Partitions) -> Result<Written, AllocError>
    requires sound { IsSoundSpace (space inst.now) }
    requires partitions { ArePartitionsOf (space inst.now) (parts_of parts.now) }
    requires columns { column_count (space inst.now) < 2 ^ 31 }
    ensures { IfOk result (λ w. sketch_draft (sketch w.outline) (form_of w.form.items) ≡ draft (space inst.entry.now)) }
{
    let mut outline = Outline {
        uppers: Vec::new(alloc),
        rows: Vec::new(alloc),
        holdings: Vec::new(alloc),
    };
    let form = walk_bids(alloc, inst, parts, &mut outline)?;
    add_supply(alloc, inst, parts, &mut outline)?;
    Ok(Written { form, outline })
}

/// The program of an instance, of any number of rows and of up to 2^31 - 1 columns: the one that `compile`
/// of tetri_compile makes where that makes one. Every lawful allotment has a point of it at which it earns
/// no less than the allotment's total. Linear in the program and in the forms at each level of an
/// expression, but for the sorting of each row's terms, and a look at the nodes of a partition for each
/// column that counts its nodes. Its only error is want of memory.
pub fn program_of(alloc: Global, inst: &Instance, parts: &Partitions) -> Result<Program, AllocError>
    requires sound { IsSoundSpace (space inst.now) }
    requires partitions { ArePartitionsOf (space inst.now) (parts_of parts.now) }
    requires columns { column_count (space inst.now) < 2 ^ 31 }
    ensures program { IfOk result (λ p. plain p ≡ program_of (space inst.entry.now)) }
    ensures boxes { IfOk result (λ p. length p.upper.items ≡ length p.lower.items) }
    ensures allotments { IfOk result (λ p. (a : List Grant) → IsLawful (space inst.entry.now) a →
        IsPoint p (box_of p) (point_of (space inst.entry.now) a)
        × (pos (total_in (space inst.entry.now) a) ≤ℤ worth_at p (point_of (space inst.entry.now) a))) }
{
    let written = write_down(alloc, inst, parts)?;
    let program = flatten(alloc, &written.form, &written.outline)?;
    Ok(program)
}
