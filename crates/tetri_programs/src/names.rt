// The names of the columns and rows of a cycle's program.
ghost use Rattle.std.specs.Prelude.{◌<◌, length};
ghost use Rattle.tetri_space.specs.Partitions.{parts_of};
ghost use Rattle.tetri_space.specs.Sound.{IsSound};
ghost use Rattle.tetri_space.specs.Space.{space};

use std::alloc::{AllocError, Global};
use tetri_space::{Instance, Partitions};
use tetri_strl::{Expr, Leaf};

/// The names of a program's columns and rows, in its order.
#[derive(Drop)]
pub struct Names {
    /// One for each column.
    pub columns: Vec<String>,
    /// One for each row.
    pub rows: Vec<String>,
}

// A leaf, and a partition that it may use.
#[derive(Clone, Copy, Debug)]
struct Use {
    part: u32,
    leaf: Leaf,
}

// Names so far, and which partitions the leaves may use.
#[derive(Drop)]
struct Naming {
    names: Names,
    uses: Vec<Use>,
}

// Whether the nodes of a partition are all in a set.
fn is_inside(inst: &Instance, parts: &Partitions, part: u32, set: u32) -> bool
    requires there { part < length (parts_of parts.now).groups }
{
    let Some(node) = parts.nodes_of(part).as_slice().first() else {
        return false;
    };
    set < inst.sets.len() && inst.sets.holds(set, *node)
}

// Names what a leaf is given of each partition.
fn name_grants(
    alloc: Global,
    inst: &Instance,
    parts: &Partitions,
    job: u32,
    leaf: &Leaf,
    naming: &mut Naming,
) -> Result<(), AllocError> {
    let num = leaf.num;
    for part in 0..parts.count() {
        if is_inside(inst, parts, part, leaf.set) {
            let name = format!(in alloc; "grant_j{job}_leaf{num}_part{part}")?;
            naming.names.columns.push(name)?;
            naming.uses.push(Use { part, leaf: *leaf })?;
        }
    }
    Ok(())
}

// Names the columns and rows of a leaf.
fn name_leaf(
    alloc: Global,
    inst: &Instance,
    parts: &Partitions,
    job: u32,
    leaf: &Leaf,
    naming: &mut Naming,
) -> Result<(), AllocError> {
    name_grants(alloc, inst, parts, job, leaf, naming)?;
    let num = leaf.num;
    let rows = &mut naming.names.rows;
    rows.push(format!(in alloc; "most_j{job}_leaf{num}")?)?;
    if !leaf.linear {
        rows.push(format!(in alloc; "full_j{job}_leaf{num}")?)?;
    }
    Ok(())
}

// Names a `max` or a `sum`, which has a column for each of its parts.
fn name_arms(
    alloc: Global,
    word: &str,
    place: &str,
    count: usize,
    naming: &mut Naming,
) -> Result<(), AllocError> {
    for arm in 0..count {
        let name = format!(in alloc; "{word}_{place}_arm{arm}")?;
        naming.names.columns.push(name)?;
    }
    naming
        .names
        .rows
        .push(format!(in alloc; "{word}_{place}")?)?;
    Ok(())
}

// Names the part of this number.
#[cycle(names)]
fn name_part(
    alloc: Global,
    inst: &Instance,
    parts: &Partitions,
    job: u32,
    place: &str,
    number: usize,
    part: &Expr,
    naming: &mut Naming,
) -> Result<(), AllocError> {
    let inner = format!(in alloc; "{place}_{number}")?;
    name(alloc, inst, parts, job, inner.as_str(), part, naming)
}

// Names the parts of a `max` or a `sum`.
#[cycle(names)]
fn name_parts(
    alloc: Global,
    inst: &Instance,
    parts: &Partitions,
    job: u32,
    place: &str,
    kids: &[Expr],
    naming: &mut Naming,
) -> Result<(), AllocError> {
    for kid in 0..kids.len() {
        name_part(alloc, inst, parts, job, place, kid, &kids[kid], naming)?;
    }
    Ok(())
}

// Names a `min`, whose worth is a column, and its parts.
#[cycle(names)]
fn name_least(
    alloc: Global,
    inst: &Instance,
    parts: &Partitions,
    job: u32,
    place: &str,
    kids: &[Expr],
    naming: &mut Naming,
) -> Result<(), AllocError> {
    naming
        .names
        .columns
        .push(format!(in alloc; "min_{place}")?)?;
    for kid in 0..kids.len() {
        name_part(alloc, inst, parts, job, place, kid, &kids[kid], naming)?;
        let name = format!(in alloc; "min_{place}_arm{kid}")?;
        naming.names.rows.push(name)?;
    }
    Ok(())
}

// Names what stands at a place.
#[cycle(names)]
fn name(
    alloc: Global,
    inst: &Instance,
    parts: &Partitions,
    job: u32,
    place: &str,
    e: &Expr,
    naming: &mut Naming,
) -> Result<(), AllocError> {
    match e {
        Expr::One(leaf) => name_leaf(alloc, inst, parts, job, leaf, naming),
        Expr::Max(kids) => {
            name_arms(alloc, "max", place, kids.len(), naming)?;
            name_parts(alloc, inst, parts, job, place, kids, naming)
        }
        Expr::Min(kids) => name_least(alloc, inst, parts, job, place, kids, naming),
        Expr::Sum(kids) => {
            name_arms(alloc, "sum", place, kids.len(), naming)?;
            name_parts(alloc, inst, parts, job, place, kids, naming)
        }
        Expr::Scale(kid, _) => name_part(alloc, inst, parts, job, place, 0, kid, naming),
        Expr::Barrier(kid, _) => {
            name_part(alloc, inst, parts, job, place, 0, kid, naming)?;
            let name = format!(in alloc; "barrier_{place}")?;
            naming.names.rows.push(name)?;
            Ok(())
        }
    }
}

// Whether one of these leaves uses nodes in a slot.
fn is_used(uses: &[Use], slot: u32) -> bool {
    for one in uses {
        let leaf = one.leaf;
        if leaf.start <= slot && slot - leaf.start < leaf.dur {
            return true;
        }
    }
    false
}

// Names the rows that keep a partition within what is free, over the leaves that may use it.
fn name_slots(
    alloc: Global,
    inst: &Instance,
    part: u32,
    uses: &[Use],
    rows: &mut Vec<String>,
) -> Result<(), AllocError>
    requires { IsSound (space inst.now) }
{
    for place in 0..inst.window {
        let slot = inst.now + place;
        if is_used(uses, slot) {
            rows.push(format!(in alloc; "supply_part{part}_slot{slot}")?)?;
        }
    }
    Ok(())
}

// Names the rows that keep each partition within what is free, where the uses ascend by partition.
fn name_supply(
    alloc: Global,
    inst: &Instance,
    parts: &Partitions,
    uses: &[Use],
    rows: &mut Vec<String>,
) -> Result<(), AllocError>
    requires { IsSound (space inst.now) }
{
    let mut rest = uses;
    for part in 0..parts.count() {
        let end = rest.partition_point(|one| one.part <= part);
        let (mine, later) = rest.split_at(end);
        name_slots(alloc, inst, part, mine, rows)?;
        rest = later;
    }
    Ok(())
}

/// The names of the columns and rows of the program of an instance with these
/// partitions, as docs/EXPORT.md has them. Its only error is want of memory.
pub fn names_of(alloc: Global, inst: &Instance, parts: &Partitions) -> Result<Names, AllocError>
    requires { IsSound (space inst.now) }
{
    let mut naming = Naming {
        names: Names {
            columns: Vec::new(alloc),
            rows: Vec::new(alloc),
        },
        uses: Vec::new(alloc),
    };
    for offer in parts.offers() {
        let job = offer.job;
        let root = format!(in alloc; "j{job}")?;
        naming.names.columns.push(format!(in alloc; "on_{root}")?)?;
        name(
            alloc,
            inst,
            parts,
            job,
            root.as_str(),
            &offer.expr,
            &mut naming,
        )?;
    }
    let Naming {
        mut names,
        mut uses,
    } = naming;
    uses.sort_by_key(|one| one.part)?;
    name_supply(alloc, inst, parts, &uses, &mut names.rows)?;
    Ok(names)
}
