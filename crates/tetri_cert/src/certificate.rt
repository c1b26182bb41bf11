// The certificate of a plan's bound.
ghost use Rattle.std.specs.Prelude.{◌≡◌, ◌++◌, IfOk, OnOk, flat_map, string_bytes};
ghost use Rattle.tetri_cert.specs.NodeText.{node_line};
ghost use Rattle.tetri_cert.specs.Text.{certificate_text};

use crate::marks::Mark;
use crate::text::print_mark;
use std::alloc::{AllocError, Global};
use std::fmt::Write;
use tetri_base::Items;

/// Why no plan is worth more than the bound.
#[derive(Drop)]
pub enum Certificate {
    /// The bound is the sum of the tops. The two numbers are 0 and 0; a check refuses any others.
    Tops { columns: u64, rows: u64 },
    /// The bound is that of a tree over the instance's program, its marks in preorder.
    Tree(Items<Mark>),
}

// Adds the lines of marks.
fn print_marks(out: &mut String, marks: &[Mark]) -> Result<(), AllocError>
    ensures { OnOk result (string_bytes out.new ≡ string_bytes out.old ++ flat_map node_line marks.now) }
{
    for mark in marks {
        print_mark(out, mark)?;
    }
    Ok(())
}

/// Adds the lines of a certificate to a text. After want of memory a front of them may stand there.
#[tactic(auto, unfolding(crate::specs::Text::certificate_text))]
pub fn print_onto(out: &mut String, certificate: &Certificate) -> Result<(), AllocError>
    ensures { OnOk result (string_bytes out.new ≡ string_bytes out.old ++ certificate_text certificate.now) }
{
    match certificate {
        Certificate::Tops { columns, rows } => write!(out, "tops {columns} {rows}\n"),
        Certificate::Tree(marks) => print_marks(out, marks.as_slice()),
    }
}

/// The lines of a certificate.
pub fn print(alloc: Global, certificate: &Certificate) -> Result<Vec<u8>, AllocError>
    ensures { IfOk result (λ v. v.items ≡ certificate_text certificate.now) }
{
    let mut out = String::new(alloc);
    print_onto(&mut out, certificate)?;
    Ok(out.into_bytes())
}
