// The lines that only a cycle planned part by part has.
ghost use Rattle.std.specs.Prelude.{◌≡◌, IfOk, string_bytes};
ghost use Rattle.tetri_commands.specs.PartsText.{part_line, parts_line};

use std::alloc::{AllocError, Global};
use std::fmt::Write;

/// How many parts there are, what their plans are worth together, and the sum of their bounds.
#[tactic(auto, unfolding(crate::specs::PartsText::parts_line))]
pub(crate) fn parts_line(
    alloc: Global,
    count: u32,
    value: u128,
    bound: u128,
) -> Result<Vec<u8>, AllocError>
    ensures { IfOk result (λ v. v.items ≡ parts_line count value bound) }
{
    let mut out = String::new(alloc);
    write!(out, "parts {count} {value} {bound}\n")?;
    Ok(out.into_bytes())
}

/// The name of a part's least job.
#[tactic(auto, unfolding(crate::specs::PartsText::part_line))]
pub(crate) fn part_line(alloc: Global, name: &str) -> Result<Vec<u8>, AllocError>
    ensures { IfOk result (λ v. v.items ≡ part_line name.now) }
{
    let mut out = String::new(alloc);
    write!(out, "part {name}\n")?;
    Ok(out.into_bytes())
}
