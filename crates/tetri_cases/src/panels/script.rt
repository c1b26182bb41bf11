// Scripts as texts.
use crate::panels::scripted::Step;
use std::alloc::{AllocError, Global};
use tetri_strl::{Allotment, copy_grants};
use tetri_tables::grants_in;

// So many copies of grants, one behind the other.
fn repeated(alloc: Global, count: u32, grants: &Allotment) -> Result<Allotment, AllocError> {
    let mut all = Vec::new(alloc);
    for _copy in 0..count {
        let mut more = copy_grants(alloc, grants)?.into_items();
        all.append(&mut more)?;
    }
    Ok(Allotment::of(all))
}

fn copies_in(alloc: Global, count: &str, grants: &str) -> Result<Allotment, AllocError> {
    let one = grants_in(alloc, grants)?;
    repeated(alloc, count.parse::<u32>().unwrap_or(0), &one)
}

// A step: `mute`, `none`, `echo`, grants, or `COUNT of GRANTS`.
fn step_in(alloc: Global, text: &str) -> Result<Step, AllocError> {
    match text {
        "mute" => Ok(Step::Mute),
        "none" => Ok(Step::Say(Allotment::new(alloc))),
        "echo" => Ok(Step::Echo),
        _ => match text.split_once(" of ") {
            Some((count, grants)) => Ok(Step::Say(copies_in(alloc, count, grants)?)),
            None => Ok(Step::Say(grants_in(alloc, text)?)),
        },
    }
}

/// The steps of a script, with ` | ` between them: `mute` for want of memory, `none` for no grant, `echo` for what was last learned,
/// grants in the order in which they are said, or `COUNT of GRANTS` for so many copies of these.
pub fn steps_in(alloc: Global, text: &str) -> Result<Vec<Step>, AllocError> {
    let mut steps = Vec::new(alloc);
    for step in text.split(" | ") {
        steps.push(step_in(alloc, step)?)?;
    }
    Ok(steps)
}

/// The turns of one that forgets: `mute` or `say`, with ` | ` between them.
pub fn turns_in(alloc: Global, text: &str) -> Result<Vec<bool>, AllocError> {
    let mut turns = Vec::new(alloc);
    for turn in text.split(" | ") {
        turns.push(turn == "mute")?;
    }
    Ok(turns)
}
