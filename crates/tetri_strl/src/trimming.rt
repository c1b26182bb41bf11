// The grants of a job that earn something.
ghost use Rattle.std.specs.Prelude.{◌≡◌, ◌==◌, ◌++◌, filter, if◌then◌else◌, IfOk, OnOk};
ghost use Rattle.std.specs.List.{list_any};
ghost use Rattle.tetri_strl.specs.Thrifty.{IsThriftyFor};
ghost use Rattle.tetri_strl.specs.Tree.{numbers, tree, trees};
ghost use Rattle.tetri_strl.specs.Trim.{IsPartOf, earns, idle, idle_but_first, trimmed};
ghost use Rattle.tetri_strl.specs.WellMade.{AreSound, IsSound, IsWellMade};
ghost use Rattle.tetri_strl.specs.Worth.{leaf_worth, worth_of};

use crate::copy::copy_grant;
use crate::expr::Expr;
use crate::grants::{Allotment, Grant};
use crate::worths::worth_among;
use std::alloc::{AllocError, Global};

/// The job's grants in order, without those that earn nothing: those below a part that is worth 0,
/// and those below each part of a `max` but its first part of greatest worth. Its only error is
/// want of memory.
pub fn trim(alloc: Global, e: &Expr, job: u32, a: &Allotment) -> Result<Allotment, AllocError>
    requires { IsWellMade (tree e.now) }
    ensures list { IfOk result (λ made. made ≡ trimmed a.now job (tree e.now)) }
    ensures part { IfOk result (λ made. IsPartOf made (filter (λ g. g.job == job) a.now)) }
    ensures thrifty { IfOk result (λ made. IsThriftyFor made job (tree e.now)) }
    ensures worth { IfOk result (λ made. worth_of made job (tree e.now)
        ≡ worth_of a.now job (tree e.now)) }
{
    let mut made = Allotment::new(alloc);
    trim_into(alloc, e, job, a.as_slice(), &mut made)?;
    Ok(made)
}

/// Puts what `trim` keeps of these grants last in a list. Its only error is want of memory.
pub fn trim_into(
    alloc: Global,
    e: &Expr,
    job: u32,
    grants: &[Grant],
    made: &mut Allotment,
) -> Result<(), AllocError>
    requires { IsSound (tree e.now) }
    ensures { OnOk result (made.new ≡ made.old ++ trimmed grants.now job (tree e.now)) }
{
    let idle = idle_leaves(alloc, e, job, grants)?;
    for grant in grants {
        if is_earning(grant, job, &idle) {
            made.push(copy_grant(alloc, grant)?)?;
        }
    }
    Ok(())
}

/// The numbers of the leaves whose grants earn nothing, as `trim` says it. Its only error is want
/// of memory.
pub fn idle_leaves(
    alloc: Global,
    e: &Expr,
    job: u32,
    grants: &[Grant],
) -> Result<Vec<u32>, AllocError>
    requires { IsSound (tree e.now) }
    ensures { IfOk result (λ ns. ns.items ≡ idle (leaf_worth grants.now job) (tree e.now)) }
{
    let mut idle = Vec::new(alloc);
    add_idle(e, job, grants, &mut idle)?;
    Ok(idle)
}

fn is_earning(grant: &Grant, job: u32, idle: &[u32]) -> bool
    ensures { result ≡ earns job idle.now grant.now }
{
    grant.job == job && !has_number(idle, grant.leaf)
}

fn has_number(numbers: &[u32], number: u32) -> bool
    ensures { result ≡ list_any (λ n. n == number) numbers.now }
{
    numbers.iter().any(|n| *n == number)
}

#[cycle(add_idle)]
fn add_idle(e: &Expr, job: u32, grants: &[Grant], out: &mut Vec<u32>) -> Result<(), AllocError>
    requires { IsSound (tree e.now) }
    ensures { OnOk result (out.new.items
        ≡ out.old.items ++ idle (leaf_worth grants.now job) (tree e.now)) }
{
    let best = worth_among(e, job, grants);
    if best == 0 {
        return add_numbers(e, out);
    }
    match e {
        Expr::One(_) => Ok(()),
        Expr::Max(parts) => add_idle_but_first(parts, best, job, grants, out),
        Expr::Min(parts) | Expr::Sum(parts) => {
            for part in parts {
                add_idle(part, job, grants, out)?;
            }
            Ok(())
        }
        Expr::Scale(part, _) | Expr::Barrier(part, _) => add_idle(part, job, grants, out),
    }
}

// Of the first part that is worth `best`, and all leaves of the others.
#[cycle(add_idle)]
fn add_idle_but_first(
    parts: &[Expr],
    best: u64,
    job: u32,
    grants: &[Grant],
    out: &mut Vec<u32>,
) -> Result<(), AllocError>
    requires { AreSound (trees parts.now) }
    ensures { OnOk result
        (out.new.items
        ≡ out.old.items ++ idle_but_first (leaf_worth grants.now job) best (trees parts.now)) }
{
    let mut found = false;
    for part in parts {
        if !found && worth_among(part, job, grants) == best {
            found = true;
            add_idle(part, job, grants, out)?;
        } else {
            add_numbers(part, out)?;
        }
    }
    Ok(())
}

fn add_numbers(e: &Expr, out: &mut Vec<u32>) -> Result<(), AllocError>
    ensures { OnOk result (out.new.items ≡ out.old.items ++ numbers (tree e.now)) }
{
    match e {
        Expr::One(leaf) => {
            out.push(leaf.num)?;
            Ok(())
        }
        Expr::Max(parts) | Expr::Min(parts) | Expr::Sum(parts) => {
            for part in parts {
                add_numbers(part, out)?;
            }
            Ok(())
        }
        Expr::Scale(part, _) | Expr::Barrier(part, _) => add_numbers(part, out),
    }
}
