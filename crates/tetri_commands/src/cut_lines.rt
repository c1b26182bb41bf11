// The lines of a cycle whose bound is tightened by cuts.
ghost use Rattle.std.specs.Prelude.{◌≡◌, ◌++◌, IfOk, OnOk, flat_map, string_bytes};
ghost use Rattle.tetri_commands.specs.TightText.{cut_line, root_line, root_lines, tight_bound, tight_line, tight_text};

use std::alloc::{AllocError, Global};
use std::fmt::Write;
use tetri_cert::print_weights;
use tetri_cuts::{Added, Root, Tight};

#[tactic(auto, unfolding(crate::specs::TightText::cut_line))]
fn add_cut(out: &mut String, cut: &Added) -> Result<(), AllocError>
    ensures { OnOk result (string_bytes out.new ≡ string_bytes out.old ++ cut_line cut.now) }
{
    let divisor = cut.divisor;
    write!(out, "cut {divisor} ")?;
    print_weights(out, &cut.weights)?;
    out.push_str("\n")
}

fn add_cuts(out: &mut String, cuts: &[Added]) -> Result<(), AllocError>
    ensures { OnOk result (string_bytes out.new ≡ string_bytes out.old ++ flat_map cut_line cuts.now) }
{
    for cut in cuts {
        add_cut(out, cut)?;
    }
    Ok(())
}

#[tactic(auto, unfolding(crate::specs::TightText::root_line))]
fn add_root(out: &mut String, root: &Root) -> Result<(), AllocError>
    ensures { OnOk result (string_bytes out.new ≡ string_bytes out.old ++ root_line root.now) }
{
    let q = root.q;
    write!(out, "root {q} ")?;
    print_weights(out, &root.weights)?;
    out.push_str("\n")
}

fn add_root_lines(out: &mut String, root: &Option<Root>) -> Result<(), AllocError>
    ensures { OnOk result (string_bytes out.new ≡ string_bytes out.old ++ root_lines root.now) }
{
    match root {
        Some(root) => add_root(out, root),
        None => Ok(()),
    }
}

/// The lesser of a bound and that of the root, where there is one.
pub(crate) fn tight_bound(bound: u64, root: &Option<Root>) -> u64
    ensures { result ≡ tight_bound bound root.now }
{
    match root {
        Some(root) => bound.min(root.bound),
        None => bound,
    }
}

#[tactic(auto, unfolding(crate::specs::TightText::tight_line))]
fn add_tight_line(
    out: &mut String,
    number: u32,
    value: u64,
    bound: u64,
    tight: u64,
    cuts: usize,
) -> Result<(), AllocError>
    ensures { OnOk result (string_bytes out.new ≡ string_bytes out.old ++ tight_line number value bound tight cuts) }
{
    write!(out, "tight {number} {value} {bound} ")?;
    write!(out, "{tight} {cuts}\n")
}

/// The lines of a cycle with this number, value and bound.
pub(crate) fn tight_text(
    alloc: Global,
    number: u32,
    value: u64,
    bound: u64,
    tight: &Tight,
) -> Result<Vec<u8>, AllocError>
    ensures { IfOk result (λ v. v.items ≡ tight_text number value bound tight.now) }
{
    let mut out = String::new(alloc);
    let least = tight_bound(bound, &tight.root);
    add_tight_line(&mut out, number, value, bound, least, tight.cuts.len())?;
    add_cuts(&mut out, &tight.cuts)?;
    add_root_lines(&mut out, &tight.root)?;
    Ok(out.into_bytes())
}
