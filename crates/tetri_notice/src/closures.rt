// The closures of a header.
ghost use Rattle.std.specs.Prelude.{◌≡◌, ◌≤◌, All, length, codes, IfOk, option_and_then, ok_or};
ghost use Rattle.serde_json.specs.Find.{as_array};
ghost use Rattle.serde_json.specs.View.{view};
ghost use Rattle.tetri_notice.specs.Answers.{Gives};
ghost use Rattle.tetri_notice.specs.Closures.{closure_in, closures_in, closures_of, slot_at, slots_in, IsWithinLimits};
ghost use Rattle.tetri_notice.specs.Fields.{optional};
ghost use Rattle.tetri_notice.specs.declared.fault.Field.TheVariants as fields;
ghost use Rattle.tetri_notice.specs.declared.fault.TraceWhy.TheVariants as whys;

use crate::fault::{Field, Stop};
use crate::field::{bad, name_in, number_in, optional, read_name};
use serde_json::Value;
use std::alloc::Global;
use tetri_cluster::Name;

const CLOSURES_MOST: usize = 4096;

/// A closure, with the name of its node.
#[derive(Drop)]
pub struct ClosureText {
    pub node: Name,
    pub from: u32,
    pub to: u32,
}

// The slot that this key holds, from `low` to 30,000.
#[tactic(auto, using(crate::proofs::Options::some_from_ok, crate::proofs::Options::stops_first, crate::proofs::Options::stops_none), unfolding(crate::specs::Closures::slot_at))]
fn slot_at(closure: &Value, key: &str, low: u32) -> Result<u32, Stop>
    ensures value { Gives (λ n. n) result (ok_or (slot_at key.now low (view closure.now)) (whys.BadField fields.Closures)) }
    ensures within { IfOk result (λ n. (low ≤ n) × (n ≤ 30000)) }
{
    let Some(value) = closure.get(key) else {
        return Err(bad(Field::Closures));
    };
    number_in(value, low, 30_000, Field::Closures)
}

// The first and the last slot of a closure.
#[tactic(auto, unfolding(crate::specs::Closures::slots_in))]
fn slots_in(value: &Value) -> Result<(u32, u32), Stop>
    ensures value { Gives (λ slots. slots) result (ok_or (slots_in (view value.now)) (whys.BadField fields.Closures)) }
    ensures within { IfOk result (λ slots. (slots.0 ≤ slots.1) × (slots.1 ≤ 30000)) }
{
    let from = slot_at(value, "from", 0)?;
    let to = slot_at(value, "to", from)?;
    Ok((from, to))
}

#[tactic(auto, unfolding(crate::specs::Closures::closure_in))]
fn closure_in(alloc: Global, value: &Value) -> Result<ClosureText, Stop>
    ensures value { Gives (λ c. c) result (ok_or (closure_in (view value.now)) (whys.BadField fields.Closures)) }
    ensures within { IfOk result IsWithinLimits }
{
    let Some(node) = value.get("node") else {
        return Err(bad(Field::Closures));
    };
    let node = name_in(node, Field::Closures)?;
    let (from, to) = slots_in(value)?;
    let node = read_name(alloc, node)?;
    Ok(ClosureText { node, from, to })
}

fn closures_in(alloc: Global, value: &Value) -> Result<Vec<ClosureText>, Stop>
    ensures value { Gives (λ v. v.items) result (ok_or (option_and_then closures_in (as_array (view value.now))) (whys.BadField fields.Closures)) }
    ensures within { IfOk result (λ v. All IsWithinLimits v.items) }
{
    let Some(list) = value.as_array() else {
        return Err(bad(Field::Closures));
    };
    let mut closures = Vec::new(alloc);
    for item in list {
        closures.push(closure_in(alloc, item)?)?;
    }
    Ok(closures)
}

/// The closures of a header, none where they are left out.
pub(crate) fn closures_of(alloc: Global, object: &Value) -> Result<Vec<ClosureText>, Stop>
    ensures value { Gives (λ v. v.items) result (ok_or (closures_of (optional (codes "closures") (view object.now))) (whys.BadField fields.Closures)) }
    ensures within { IfOk result (λ v. All IsWithinLimits v.items) }
    ensures few { IfOk result (λ v. length v.items ≤ 4096) }
{
    let Some(value) = optional(object, "closures") else {
        return Ok(Vec::new(alloc));
    };
    let closures = closures_in(alloc, value)?;
    if closures.len() > CLOSURES_MOST {
        return Err(bad(Field::Closures));
    }
    Ok(closures)
}
