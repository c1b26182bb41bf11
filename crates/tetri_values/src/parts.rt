// Independent parts of instances, and grants part by part.
ghost use Rattle.std.specs.Prelude.{◌<◌, length};
ghost use Rattle.tetri_space.specs.Sound.{IsSound};
ghost use Rattle.tetri_space.specs.Space.{space};

use crate::instances;
use std::alloc::{AllocError, Global};
use tetri_space::{Instance, total};
use tetri_split::{Parts, bounds_of_parts_add, join, split, totals_of_parts_add};
use tetri_strl::Allotment;
use tetri_tables::{grants_in, grants_told, nodes_told};

// The jobs of each part, with ` | ` between them.
fn parts_told(alloc: Global, parts: &Parts) -> Result<String, AllocError> {
    let mut out = String::new(alloc);
    for part in 0..parts.count() {
        if part > 0 {
            out.push_str(" | ")?;
        }
        nodes_told(&mut out, parts.jobs_of(part))?;
    }
    Ok(out)
}

// How many parts there are, and how many jobs all parts have.
fn count_told(alloc: Global, parts: &Parts) -> Result<String, AllocError> {
    let mut jobs = 0usize;
    for part in 0..parts.count() {
        jobs = jobs.saturating_add(parts.jobs_of(part).len());
    }
    format!(in alloc; "{} of {jobs}", parts.count())
}

// What is told of the instance of a part, where `text` is `PART WORD REST`.
fn part_told(
    alloc: Global,
    inst: &Instance,
    parts: &Parts,
    text: &str,
) -> Result<String, AllocError>
    requires { IsSound (space inst.now) }
{
    let (part, what) = text.split_once(' ').unwrap_or((text, ""));
    let part = part.parse::<u32>().unwrap_or(0);
    if parts.count() <= part {
        return String::from_str(alloc, "no such part");
    }
    let inst = parts.part_of(alloc, inst, part)?;
    let (word, rest) = what.split_once(' ').unwrap_or((what, ""));
    instances::told(alloc, &inst, word, rest)
}

// The grants to a part, where `text` is `PART GRANTS`.
fn kept_told(alloc: Global, parts: &Parts, text: &str) -> Result<String, AllocError> {
    let (part, grants) = text.split_once(' ').unwrap_or((text, ""));
    let part = part.parse::<u32>().unwrap_or(0);
    if parts.count() <= part {
        return String::from_str(alloc, "no such part");
    }
    let a = grants_in(alloc, grants)?;
    let kept = parts.keep(alloc, part, &a)?;
    grants_told(alloc, kept.as_slice())
}

// What the grants to a part are worth there.
fn part_total(
    alloc: Global,
    inst: &Instance,
    parts: &Parts,
    part: u32,
    a: &Allotment,
) -> Result<u64, AllocError>
    requires sound { IsSound (space inst.now) }
    requires within { part < length parts.now }
{
    let inst = parts.part_of(alloc, inst, part)?;
    let kept = parts.keep(alloc, part, a)?;
    Ok(total(&inst, &kept))
}

// What grants are worth, and what those to each part are worth there.
fn totals_told(
    alloc: Global,
    inst: &Instance,
    parts: &Parts,
    grants: &str,
) -> Result<String, AllocError>
    requires { IsSound (space inst.now) }
{
    let a = grants_in(alloc, grants)?;
    let mut out = format!(in alloc; "{} of", total(inst, &a))?;
    for part in 0..parts.count() {
        let worth = part_total(alloc, inst, parts, part, &a)?;
        write!(out, " {worth}")?;
    }
    Ok(out)
}

// The grants of these lists together.
fn joined_told(alloc: Global, lists: &str) -> Result<String, AllocError> {
    let mut parts = Vec::new(alloc);
    for list in lists.split(" | ") {
        parts.push(grants_in(alloc, list)?)?;
    }
    let joined = join(alloc, &parts)?;
    grants_told(alloc, joined.as_slice())
}

fn kept_by_parts(
    alloc: Global,
    parts: &Parts,
    a: &Allotment,
) -> Result<Vec<Allotment>, AllocError> {
    let mut lists = Vec::new(alloc);
    for part in 0..parts.count() {
        lists.push(parts.keep(alloc, part, a)?)?;
    }
    Ok(lists)
}

// What is left of grants that are taken apart and joined again.
fn rejoined_told(alloc: Global, parts: &Parts, grants: &str) -> Result<String, AllocError> {
    let a = grants_in(alloc, grants)?;
    let lists = kept_by_parts(alloc, parts, &a)?;
    let joined = join(alloc, &lists)?;
    let told = grants_told(alloc, joined.as_slice())?;
    if told.as_str() == grants {
        return String::from_str(alloc, "the same");
    }
    Ok(told)
}

fn told_of_parts(
    alloc: Global,
    inst: &Instance,
    word: &str,
    rest: &str,
) -> Result<String, AllocError>
    requires { IsSound (space inst.now) }
{
    let parts = split(alloc, inst)?;
    totals_of_parts_add(inst, &parts);
    bounds_of_parts_add(inst, &parts);
    match word {
        "parts" => parts_told(alloc, &parts),
        "count" => count_told(alloc, &parts),
        "part" => part_told(alloc, inst, &parts, rest),
        "keep" => kept_told(alloc, &parts, rest),
        "totals" => totals_told(alloc, inst, &parts, rest),
        _ => rejoined_told(alloc, &parts, rest),
    }
}

/// What is told of the parts of an instance: `parts` with the jobs of each; `count`, how many parts of how many jobs; what is told
/// of the instance of a part, as `part PART offer PLACE`; `keep PART GRANTS`; `totals GRANTS` with the total and those of the parts;
/// `rejoin GRANTS`, which are taken apart and joined; `join GRANTS | GRANTS`; or what is told of the instance itself.
pub fn told(alloc: Global, inst: &Instance, word: &str, rest: &str) -> Result<String, AllocError>
    requires { IsSound (space inst.now) }
{
    match word {
        "parts" | "count" | "part" | "keep" | "totals" | "rejoin" => told_of_parts(
            alloc, inst, word, rest,
        ),
        "join" => joined_told(alloc, rest),
        _ => instances::told(alloc, inst, word, rest),
    }
}
