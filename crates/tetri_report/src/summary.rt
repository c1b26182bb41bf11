// The summary as text.
ghost use Rattle.std.specs.Prelude.{◌≡◌, ◌++◌, ◌<◌, ◌^◌, OnOk, IfOk, string_bytes};
ghost use Rattle.tetri_report.specs.Text.{entry, summary_text};

use crate::Summary;
use std::alloc::{AllocError, Global};
use std::fmt::Write;

// A key and its number, as ` key=5`.
#[tactic(auto, unfolding(crate::specs::Text::entry))]
fn add_entry(out: &mut String, key: &str, number: u128) -> Result<(), AllocError>
    ensures { OnOk result (string_bytes out.new ≡ string_bytes out.old ++ entry key.now number) }
{
    write!(out, " {key}={number}")
}

/// The line of a summary.
#[tactic(auto, unfolding(crate::specs::Text::summary_text))]
pub fn print_summary(alloc: Global, summary: &Summary) -> Result<Vec<u8>, AllocError>
    requires { summary.now.worth < 2 ^ 127 }
    ensures { IfOk result (λ v. v.items ≡ summary_text summary.now) }
{
    let mut out = String::from_str(alloc, "summary")?;
    add_entry(&mut out, "cycles", u128::from(summary.cycles))?;
    add_entry(&mut out, "launched", u128::from(summary.launched))?;
    add_entry(&mut out, "ended", u128::from(summary.ended))?;
    add_entry(&mut out, "cancelled", u128::from(summary.cancelled))?;
    add_entry(&mut out, "expired", u128::from(summary.expired))?;
    add_entry(&mut out, "worth", summary.worth)?;
    add_entry(&mut out, "optimal", u128::from(summary.optimal))?;
    out.push_str("\n")?;
    Ok(out.into_bytes())
}
