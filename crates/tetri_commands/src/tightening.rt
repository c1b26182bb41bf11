// The tightening of the bound of a cycle's plan.
ghost use Rattle.std.specs.Prelude.{◌≡◌, IfOk, IfSome};
ghost use Rattle.tetri_claims.specs.Certified.{IsOfKind, MayHaveTree};
ghost use Rattle.tetri_claims.specs.Good.{BoundsEveryLawful};
ghost use Rattle.tetri_compile.specs.Flat.{plain, program_of};
ghost use Rattle.tetri_cuts.specs.Tightening.{IsTightening};
ghost use Rattle.tetri_ip.specs.declared.programs.Program.{Program};
ghost use Rattle.tetri_space.specs.Sound.{IsSound};
ghost use Rattle.tetri_space.specs.Space.{space};
ghost use Rattle.tetri_commands.specs.Tightened.{IsTightText, IsTightened};

use crate::cut_lines::tight_text;
use std::alloc::{AllocError, Global};
use tetri_cert::Certificate;
use tetri_compile::compile;
use tetri_cuts::{Tight, tighten};
use tetri_space::{Instance, find_partitions};

// The tightening of the program of an instance that may have a tree.
fn tightened_program(alloc: Global, inst: &Instance) -> Result<Tight, AllocError>
    requires sound { IsSound (space inst.now) }
    requires tree { MayHaveTree (space inst.now) }
    ensures tightened { IfOk result (λ t. (p : Program) × (plain p ≡ program_of (space inst.entry.now)) × IsTightening p t) }
    ensures bounded { IfOk result (λ t. IfSome t.root (λ r. BoundsEveryLawful (space inst.entry.now) r.bound)) }
{
    let parts = find_partitions(alloc, inst)?;
    let compiled = compile(alloc, inst, &parts)?;
    tighten(alloc, &compiled.program)
}

// Beside a tree the tightening of the program of its instance, and beside tops none.
fn tightened(alloc: Global, inst: &Instance, certificate: &Certificate) -> Result<Tight, AllocError>
    requires sound { IsSound (space inst.now) }
    requires kind { IsOfKind (space inst.now) certificate.now }
    ensures tightened { IfOk result (IsTightened (space inst.entry.now) certificate.entry.now) }
    ensures bounded { IfOk result (λ t. IfSome t.root (λ r. BoundsEveryLawful (space inst.entry.now) r.bound)) }
{
    match certificate {
        Certificate::Tops { .. } => Ok(Tight {
            cuts: Vec::new(alloc),
            root: None,
        }),
        Certificate::Tree(_) => tightened_program(alloc, inst),
    }
}

/// The lines that tell what cuts make of the bound of a cycle with this instance, number, value, bound and certificate. First stands
/// `tight NUMBER VALUE BOUND TIGHT CUTS`, where TIGHT is the lesser of BOUND and the bound of the root of the program with its cuts, and
/// CUTS the count of cuts. Beside a tree a line for each cut follows, in the order in which they were added, and one for the root, where
/// there is one. Beside tops the bound is not tightened. No lawful allotment is worth more than TIGHT. The only error is want of memory.
pub fn tight_lines(
    alloc: Global,
    inst: &Instance,
    number: u32,
    value: u64,
    bound: u64,
    certificate: &Certificate,
) -> Result<Vec<u8>, AllocError>
    requires sound { IsSound (space inst.now) }
    requires kind { IsOfKind (space inst.now) certificate.now }
    requires bounded { BoundsEveryLawful (space inst.now) bound }
    ensures { IfOk result (λ v. IsTightText (space inst.entry.now) number value bound certificate.entry.now v.items) }
{
    let tight = tightened(alloc, inst, certificate)?;
    tight_text(alloc, number, value, bound, &tight)
}
