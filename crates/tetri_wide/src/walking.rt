// The walk of one job's expression.
ghost use Rattle.std.specs.Prelude.{◌≡◌, ◌<◌, ◌≤◌, ◌+◌, ◌*◌, ◌^◌, ◌==◌, ◌++◌, ◌∷◌, [], ℕ, All, List, length, map, min, replicate, IfOk, OnOk, if◌then◌else◌};
ghost use Rattle.tetri_strl.specs.Aligned.{EachLeaf, EachLeafOf};
ghost use Rattle.tetri_strl.specs.Tree.{tree, trees};
ghost use Rattle.tetri_strl.specs.WellMade.{AreSound, IsGoodLeaf, IsSound};
ghost use Rattle.tetri_space.specs.Partitions.{ArePartitionsOf, parts_found, parts_of};
ghost use Rattle.tetri_space.specs.Sound.{IsSound as IsSoundSpace};
ghost use Rattle.tetri_space.specs.Space.{space};
ghost use Rattle.tetri_compile.specs.Draft.{leaf_tallies, tallies_of};
ghost use Rattle.tetri_compile.specs.Forms.{limit, run, share, times};
ghost use Rattle.tetri_compile.specs.Walk.{forms, leaf_form, leaf_rows, ones, rows_of, rows_under, uppers_of, width, width_of};
ghost use Rattle.tetri_compile.specs.steps.Walked.{IsReady, inside, usable};
ghost use Rattle.tetri_wide.specs.Sketch.{AreWalked, Grows, IsWalked, form_of, next_column, sketch};

use crate::outline::{Holding, Inequality, Multiple, Outline};
use crate::usable::usable_by;
use std::alloc::{AllocError, Global};
use tetri_space::{Instance, Partitions};
use tetri_strl::{Expr, Leaf, top_in};

fn one_share(alloc: Global, column: u32, by: u64) -> Result<Vec<Multiple>, AllocError>
    ensures { IfOk result (λ v. form_of v.items ≡ share column by ∷ []) }
{
    let mut shares = Vec::with_capacity(alloc, 1)?;
    shares.push(Multiple { column, by })?;
    Ok(shares)
}

// Consecutive columns, each so many times.
fn run_of(alloc: Global, by: u64, first: u32, count: usize) -> Result<Vec<Multiple>, AllocError>
    requires { first + count < 2 ^ 32 }
    ensures { IfOk result (λ v. (xs : List ℕ) → length xs ≡ count → form_of v.items ≡ run by first xs) }
{
    let mut shares = Vec::with_capacity(alloc, count)?;
    for place in 0..count {
        shares.push(Multiple {
            column: first + place as u32,
            by,
        })?;
    }
    Ok(shares)
}

// A form so many times.
fn times_of(alloc: Global, form: &[Multiple], by: u64) -> Result<Vec<Multiple>, AllocError>
    requires { All (λ m. by * m.by < 2 ^ 64) form.now }
    ensures { IfOk result (λ v. form_of v.items ≡ times by (form_of form.now)) }
{
    let mut product = Vec::with_capacity(alloc, form.len())?;
    for one in form {
        product.push(Multiple {
            column: one.column,
            by: by * one.by,
        })?;
    }
    Ok(product)
}

// Writes down the count of a leaf and a partition: a column with this upper bound.
fn add_count(
    job: u32,
    leaf: &Leaf,
    part: u32,
    most: u64,
    out: &mut Outline,
) -> Result<(), AllocError>
    requires { next_column (sketch out.old) < 2 ^ 32 }
    ensures { OnOk result (Grows (sketch out.old) (sketch out.new) (most ∷ []) []
        (leaf_tallies job leaf.now (part ∷ []) (next_column (sketch out.old)))) }
{
    let column = out.uppers.len() as u32;
    out.uppers.push(most)?;
    out.holdings.push(Holding {
        column,
        job,
        leaf: *leaf,
        part,
    })?;
    Ok(())
}

// Writes down the counts of a leaf: a column for each partition in its set.
fn add_counts(
    inst: &Instance,
    parts: &Partitions,
    job: u32,
    leaf: &Leaf,
    out: &mut Outline,
) -> Result<(), AllocError>
    requires sound { IsSoundSpace (space inst.now) }
    requires partitions { ArePartitionsOf (space inst.now) (parts_of parts.now) }
    requires ready { IsReady (space inst.now) (parts_of parts.now) leaf.now }
    requires fits { next_column (sketch out.old) + length (parts_found (parts_of parts.now) leaf.now.set) < 2 ^ 32 }
    ensures { OnOk result (Grows (sketch out.old) (sketch out.new)
        (map (λ p. min leaf.now.k (usable (space inst.entry.now) p leaf.now)) (parts_found (parts_of parts.now) leaf.now.set)) []
        (leaf_tallies job leaf.now (parts_found (parts_of parts.now) leaf.now.set) (next_column (sketch out.old)))) }
{
    let wanted = u64::from(leaf.k);
    for part in parts.parts_in(leaf.set) {
        let usable = usable_by(inst, parts, *part, leaf);
        let most = wanted.min(usable);
        add_count(job, leaf, *part, most, out)?;
    }
    Ok(())
}

// The walk of a leaf.
fn walk_leaf(
    alloc: Global,
    inst: &Instance,
    parts: &Partitions,
    job: u32,
    leaf: &Leaf,
    indicator: u32,
    out: &mut Outline,
) -> Result<Vec<Multiple>, AllocError>
    requires sound { IsSoundSpace (space inst.now) }
    requires partitions { ArePartitionsOf (space inst.now) (parts_of parts.now) }
    requires ready { IsReady (space inst.now) (parts_of parts.now) leaf.now }
    requires good { IsGoodLeaf leaf.now }
    requires fits { next_column (sketch out.old) + length (parts_found (parts_of parts.now) leaf.now.set) < 2 ^ 32 }
    ensures form { IfOk result (λ f. form_of f.items ≡ leaf_form (inside (space inst.entry.now)) leaf.now indicator (next_column (sketch out.old))) }
    ensures grows { OnOk result (Grows (sketch out.old) (sketch out.new)
        (map (λ p. min leaf.now.k (usable (space inst.entry.now) p leaf.now)) (inside (space inst.entry.now) leaf.now.set))
        (leaf_rows (inside (space inst.entry.now)) leaf.now indicator (next_column (sketch out.old)))
        (leaf_tallies job leaf.now (inside (space inst.entry.now) leaf.now.set) (next_column (sketch out.old)))) }
{
    let first = out.uppers.len() as u32;
    let count = parts.parts_in(leaf.set).len();
    let wanted = u64::from(leaf.k);
    add_counts(inst, parts, job, leaf, out)?;
    out.rows.push(Inequality {
        most: run_of(alloc, 1, first, count)?,
        under: one_share(alloc, indicator, wanted)?,
        plus: 0,
    })?;
    if leaf.linear {
        let form = run_of(alloc, leaf.v / wanted, first, count)?;
        return Ok(form);
    }
    out.rows.push(Inequality {
        most: one_share(alloc, indicator, wanted)?,
        under: run_of(alloc, 1, first, count)?,
        plus: 0,
    })?;
    let form = one_share(alloc, indicator, leaf.v)?;
    Ok(form)
}

// Writes down so many indicators.
fn add_marks(count: usize, out: &mut Outline) -> Result<(), AllocError>
    ensures { OnOk result (Grows (sketch out.old) (sketch out.new) (replicate count 1) [] []) }
{
    for _ in 0..count {
        out.uppers.push(1)?;
    }
    Ok(())
}

// The walk of the parts of a `max` or a sum: an indicator each, of which so many may be on, and then
// each part under its own.
#[cycle(walk)]
fn walk_marked(
    alloc: Global,
    inst: &Instance,
    parts: &Partitions,
    job: u32,
    kids: &[Expr],
    most: u64,
    indicator: u32,
    out: &mut Outline,
) -> Result<Vec<Multiple>, AllocError>
    requires sound { IsSoundSpace (space inst.now) }
    requires partitions { ArePartitionsOf (space inst.now) (parts_of parts.now) }
    requires kids_sound { AreSound (trees kids.now) }
    requires ready { EachLeafOf (IsReady (space inst.now) (parts_of parts.now)) (trees kids.now) }
    requires fits { next_column (sketch out.old) + length (ones (trees kids.now) ++ uppers_of (inside (space inst.now)) (usable (space inst.now)) (trees kids.now)) < 2 ^ 31 }
    ensures form { IfOk result (λ f. form_of f.items ≡ forms (inside (space inst.entry.now)) (usable (space inst.entry.now)) (trees kids.now)
        (next_column (sketch out.old)) (next_column (sketch out.old) + length (ones (trees kids.now)))) }
    ensures grows { OnOk result (Grows (sketch out.old) (sketch out.new)
        (ones (trees kids.now) ++ uppers_of (inside (space inst.entry.now)) (usable (space inst.entry.now)) (trees kids.now))
        (limit (run 1 (next_column (sketch out.old)) (ones (trees kids.now))) (share indicator most ∷ [])
        ∷ rows_of (inside (space inst.entry.now)) (usable (space inst.entry.now)) (trees kids.now) (next_column (sketch out.old)) (next_column (sketch out.old) + length (ones (trees kids.now))))
        (tallies_of (inside (space inst.entry.now)) (usable (space inst.entry.now)) job (trees kids.now) (next_column (sketch out.old) + length (ones (trees kids.now))))) }
{
    let first = out.uppers.len() as u32;
    add_marks(kids.len(), out)?;
    out.rows.push(Inequality {
        most: run_of(alloc, 1, first, kids.len())?,
        under: one_share(alloc, indicator, most)?,
        plus: 0,
    })?;
    let form = walk_each(alloc, inst, parts, job, kids, first, out)?;
    Ok(form)
}

// The walk of parts, each under an indicator of its own.
#[cycle(walk)]
fn walk_each(
    alloc: Global,
    inst: &Instance,
    parts: &Partitions,
    job: u32,
    kids: &[Expr],
    first: u32,
    out: &mut Outline,
) -> Result<Vec<Multiple>, AllocError>
    requires sound { IsSoundSpace (space inst.now) }
    requires partitions { ArePartitionsOf (space inst.now) (parts_of parts.now) }
    requires kids_sound { AreSound (trees kids.now) }
    requires ready { EachLeafOf (IsReady (space inst.now) (parts_of parts.now)) (trees kids.now) }
    requires fits { next_column (sketch out.old) + width_of (inside (space inst.now)) (usable (space inst.now)) (trees kids.now) < 2 ^ 31 }
    requires marks { first + length kids.now < 2 ^ 32 }
    ensures { IfOk result (λ f. AreWalked (space inst.entry.now) job (trees kids.now) first (sketch out.old) (sketch out.new) (form_of f.items)) }
{
    let mut form = Vec::new(alloc);
    for place in 0..kids.len() {
        let part = walk(
            alloc,
            inst,
            parts,
            job,
            &kids[place],
            first + place as u32,
            out,
        )?;
        form.extend_from_slice(&part)?;
    }
    Ok(form)
}

// The walk of the parts of a `min` that is worth at most `best`: a column that none of them may be
// worth less than, and then each part under the same indicator.
#[cycle(walk)]
fn walk_under(
    alloc: Global,
    inst: &Instance,
    parts: &Partitions,
    job: u32,
    kids: &[Expr],
    best: u64,
    indicator: u32,
    out: &mut Outline,
) -> Result<Vec<Multiple>, AllocError>
    requires sound { IsSoundSpace (space inst.now) }
    requires partitions { ArePartitionsOf (space inst.now) (parts_of parts.now) }
    requires kids_sound { AreSound (trees kids.now) }
    requires ready { EachLeafOf (IsReady (space inst.now) (parts_of parts.now)) (trees kids.now) }
    requires fits { next_column (sketch out.old) + 1 + width_of (inside (space inst.now)) (usable (space inst.now)) (trees kids.now) < 2 ^ 31 }
    ensures form { IfOk result (λ f. form_of f.items ≡ (if best == 0 then [] else (share (next_column (sketch out.old)) 1 ∷ []))) }
    ensures grows { OnOk result (Grows (sketch out.old) (sketch out.new)
        (best ∷ uppers_of (inside (space inst.entry.now)) (usable (space inst.entry.now)) (trees kids.now))
        (rows_under (inside (space inst.entry.now)) (usable (space inst.entry.now)) (trees kids.now) indicator (next_column (sketch out.old)) (next_column (sketch out.old) + 1))
        (tallies_of (inside (space inst.entry.now)) (usable (space inst.entry.now)) job (trees kids.now) (next_column (sketch out.old) + 1))) }
{
    let column = out.uppers.len() as u32;
    out.uppers.push(best)?;
    for kid in kids {
        let form = walk(alloc, inst, parts, job, kid, indicator, out)?;
        out.rows.push(Inequality {
            most: one_share(alloc, column, 1)?,
            under: form,
            plus: 0,
        })?;
    }
    if best == 0 {
        return Ok(Vec::new(alloc));
    }
    let form = one_share(alloc, column, 1)?;
    Ok(form)
}

/// Walks an expression under an indicator, and answers its form.
#[cycle(walk)]
pub fn walk(
    alloc: Global,
    inst: &Instance,
    parts: &Partitions,
    job: u32,
    e: &Expr,
    indicator: u32,
    out: &mut Outline,
) -> Result<Vec<Multiple>, AllocError>
    requires sound { IsSoundSpace (space inst.now) }
    requires partitions { ArePartitionsOf (space inst.now) (parts_of parts.now) }
    requires tree_sound { IsSound (tree e.now) }
    requires ready { EachLeaf (IsReady (space inst.now) (parts_of parts.now)) (tree e.now) }
    requires fits { next_column (sketch out.old) + width (inside (space inst.now)) (usable (space inst.now)) (tree e.now) < 2 ^ 31 }
    ensures { IfOk result (λ f. IsWalked (space inst.entry.now) job (tree e.now) indicator (sketch out.old) (sketch out.new) (form_of f.items)) }
{
    match e {
        Expr::One(leaf) => {
            let form = walk_leaf(alloc, inst, parts, job, leaf, indicator, out)?;
            Ok(form)
        }
        Expr::Max(kids) => {
            let form = walk_marked(alloc, inst, parts, job, kids, 1, indicator, out)?;
            Ok(form)
        }
        Expr::Min(kids) => {
            let best = top_in(e, inst.now, inst.now + inst.window);
            let form = walk_under(alloc, inst, parts, job, kids, best, indicator, out)?;
            Ok(form)
        }
        Expr::Sum(kids) => {
            let most = kids.len() as u64;
            let form = walk_marked(alloc, inst, parts, job, kids, most, indicator, out)?;
            Ok(form)
        }
        Expr::Scale(kid, by) => {
            let part = walk(alloc, inst, parts, job, kid, indicator, out)?;
            let form = times_of(alloc, &part, *by)?;
            Ok(form)
        }
        Expr::Barrier(kid, least) => {
            let form = walk(alloc, inst, parts, job, kid, indicator, out)?;
            out.rows.push(Inequality {
                most: one_share(alloc, indicator, *least)?,
                under: form,
                plus: 0,
            })?;
            let form = one_share(alloc, indicator, *least)?;
            Ok(form)
        }
    }
}
