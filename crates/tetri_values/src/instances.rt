// Instances: free nodes, worths, lawfulness and partitions.
ghost use Rattle.tetri_space.specs.Sound.{IsSound};
ghost use Rattle.tetri_space.specs.Space.{space};

use crate::{prices, programs};
use std::alloc::{AllocError, Global};
use tetri_space::{
    Instance, Partitions, Unlawful, available, find_partitions, free, lawful, tops,
    tops_bound_every_lawful_total, total,
};
use tetri_tables::{add_debug, grants_in, nodes_told, tell_expr};

fn two_numbers(text: &str) -> (u32, u32) {
    let (first, second) = text.split_once(' ').unwrap_or((text, ""));
    (
        first.parse::<u32>().unwrap_or(0),
        second.parse::<u32>().unwrap_or(0),
    )
}

fn unlawful_told(alloc: Global, unlawful: &Unlawful) -> Result<String, AllocError> {
    let mut out = format!(in alloc; "{} ", unlawful.grant)?;
    add_debug(&mut out, &unlawful.rule)?;
    Ok(out)
}

fn lawful_told(alloc: Global, answer: Result<(), Unlawful>) -> Result<String, AllocError> {
    match answer {
        Ok(()) => String::from_str(alloc, "lawful"),
        Err(unlawful) => unlawful_told(alloc, &unlawful),
    }
}

fn groups_told(alloc: Global, parts: &Partitions) -> Result<String, AllocError> {
    let mut out = format!(in alloc; "{} offers", parts.offers().len())?;
    for part in 0..parts.count() {
        out.push_str("; ")?;
        nodes_told(&mut out, parts.nodes_of(part).as_slice())?;
    }
    Ok(out)
}

fn available_told(
    alloc: Global,
    inst: &Instance,
    part: u32,
    slot: u32,
) -> Result<String, AllocError>
    requires { IsSound (space inst.now) }
{
    let parts = find_partitions(alloc, inst)?;
    if parts.count() <= part {
        return String::from_str(alloc, "no such partition");
    }
    format!(in alloc; "{}", available(inst, &parts, part, slot))
}

fn offer_told(alloc: Global, inst: &Instance, place: u32) -> Result<String, AllocError> {
    let Some(offer) = inst.jobs.get(place as usize) else {
        return String::from_str(alloc, "none");
    };
    let mut out = format!(in alloc; "{} ", offer.job)?;
    tell_expr(&mut out, &offer.expr)?;
    Ok(out)
}

fn tops_told(alloc: Global, inst: &Instance) -> Result<String, AllocError>
    requires { IsSound (space inst.now) }
{
    tops_bound_every_lawful_total(inst);
    format!(in alloc; "{}", tops(inst))
}

fn total_told(alloc: Global, inst: &Instance, grants: &str) -> Result<String, AllocError>
    requires { IsSound (space inst.now) }
{
    let a = grants_in(alloc, grants)?;
    format!(in alloc; "{}", total(inst, &a))
}

// Whether grants are lawful.
fn tested(alloc: Global, inst: &Instance, grants: &str) -> Result<String, AllocError>
    requires { IsSound (space inst.now) }
{
    let a = grants_in(alloc, grants)?;
    lawful_told(alloc, lawful(inst, &a))
}

fn partitions_told(alloc: Global, inst: &Instance) -> Result<String, AllocError>
    requires { IsSound (space inst.now) }
{
    let parts = find_partitions(alloc, inst)?;
    groups_told(alloc, &parts)
}

/// What is told of an instance: `offer PLACE` with its job, `free NODE SLOT`, `tops`, `total GRANTS`, `lawful GRANTS`,
/// `partitions` with how many jobs have live leaves, `available PARTITION SLOT`, `priced UNIT PRICES` with the bound that prices give,
/// or of its program.
pub fn told(alloc: Global, inst: &Instance, word: &str, rest: &str) -> Result<String, AllocError>
    requires { IsSound (space inst.now) }
{
    let (first, second) = two_numbers(rest);
    match word {
        "offer" => offer_told(alloc, inst, first),
        "free" => format!(in alloc; "{}", free(inst, first, second)),
        "tops" => tops_told(alloc, inst),
        "total" => total_told(alloc, inst, rest),
        "lawful" => tested(alloc, inst, rest),
        "partitions" => partitions_told(alloc, inst),
        "available" => available_told(alloc, inst, first, second),
        "priced" => prices::told(alloc, inst, rest),
        _ => programs::told(alloc, inst, word, rest),
    }
}
