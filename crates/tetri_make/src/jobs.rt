// The request of a job.
ghost use Rattle.std.specs.Prelude.{◌≡◌, ◌<◌, ◌≤◌, length, IfOk};
ghost use Rattle.tetri_cluster.specs.Sets.{AreSets};
ghost use Rattle.tetri_strl.specs.Tree.{tree};
ghost use Rattle.tetri_make.specs.Generated.{either_of, exact_leaf, request_of, sets_with};

use crate::drawing::Drawn;
use crate::nodes::{EVEN, EVERY, GPU, ODD, number_of};
use std::alloc::{AllocError, Global};
use tetri_cluster::Sets;
use tetri_strl::{Expr, Leaf};

/// The request of the job that arrives at a slot, over the sets that requests name, to which it adds its own. Its only
/// error is want of memory.
pub(crate) fn request(
    alloc: Global,
    sets: &mut Sets,
    slot: u32,
    drawn: &Drawn,
) -> Result<Expr, AllocError>
    requires early { slot < 32 }
    requires nodes { drawn.now.nodes ≤ 3 }
    requires slots { drawn.now.slots ≤ 3 }
    requires worth { drawn.now.worth ≤ 20 }
    ensures tree { IfOk result (λ e. tree e ≡ request_of sets.old slot drawn.now) }
    ensures sets { IfOk result (λ _. sets.new ≡ sets_with sets.old drawn.now) }
    ensures are_sets { IfOk result (λ _. AreSets sets.new × (length sets.new ≤ 4096)) }
{
    match drawn.shape {
        0 => gpu_or_any(alloc, sets, slot, drawn),
        1 => even_or_odd(alloc, sets, slot, drawn),
        _ => any_share(alloc, sets, slot, drawn),
    }
}

// Nodes with the tag gpu, or any for a slot longer and half the worth.
fn gpu_or_any(alloc: Global, sets: &mut Sets, slot: u32, drawn: &Drawn) -> Result<Expr, AllocError>
    requires shape { drawn.now.shape ≡ 0 }
    requires slots { drawn.now.slots ≤ 3 }
    ensures tree { IfOk result (λ e. tree e ≡ request_of sets.old slot drawn.now) }
    ensures sets { IfOk result (λ _. sets.new ≡ sets_with sets.old drawn.now) }
    ensures are_sets { IfOk result (λ _. AreSets sets.new × (length sets.new ≤ 4096)) }
{
    let worth = u64::from(drawn.worth);
    let gpu = number_of(alloc, sets, GPU)?;
    let every = number_of(alloc, sets, EVERY)?;
    let first = exact(0, gpu, (drawn.nodes, drawn.slots), slot, 2 * worth);
    let second = exact(1, every, (drawn.nodes, drawn.slots + 1), slot, worth);
    either(alloc, first, second)
}

// Nodes of even number now, or of odd number a slot later.
fn even_or_odd(alloc: Global, sets: &mut Sets, slot: u32, drawn: &Drawn) -> Result<Expr, AllocError>
    requires shape { drawn.now.shape ≡ 1 }
    requires early { slot < 32 }
    ensures tree { IfOk result (λ e. tree e ≡ request_of sets.old slot drawn.now) }
    ensures sets { IfOk result (λ _. sets.new ≡ sets_with sets.old drawn.now) }
    ensures are_sets { IfOk result (λ _. AreSets sets.new × (length sets.new ≤ 4096)) }
{
    let worth = u64::from(drawn.worth);
    let even = number_of(alloc, sets, EVEN)?;
    let odd = number_of(alloc, sets, ODD)?;
    let first = exact(0, even, (drawn.nodes, drawn.slots), slot, worth);
    let second = exact(1, odd, (drawn.nodes, drawn.slots), slot + 1, worth);
    either(alloc, first, second)
}

// Any nodes a slot later, each with its share of the worth.
fn any_share(alloc: Global, sets: &mut Sets, slot: u32, drawn: &Drawn) -> Result<Expr, AllocError>
    requires shape { 2 ≤ drawn.now.shape }
    requires early { slot < 32 }
    ensures tree { IfOk result (λ e. tree e ≡ request_of sets.old slot drawn.now) }
    ensures sets { IfOk result (λ _. sets.new ≡ sets_with sets.old drawn.now) }
    ensures are_sets { IfOk result (λ _. AreSets sets.new × (length sets.new ≤ 4096)) }
{
    let worth = u64::from(drawn.nodes) * u64::from(drawn.worth);
    let every = number_of(alloc, sets, EVERY)?;
    let leaf = exact(0, every, (drawn.nodes, drawn.slots), slot + 1, worth);
    Ok(Expr::One(Leaf {
        linear: true,
        ..leaf
    }))
}

// A leaf that wants exactly so many nodes.
fn exact(num: u32, set: u32, wanted: (u32, u32), start: u32, v: u64) -> Leaf
    ensures { result ≡ exact_leaf num set wanted.0 start wanted.1 v }
{
    let (k, dur) = wanted;
    Leaf {
        num,
        set,
        k,
        start,
        dur,
        v,
        linear: false,
    }
}

// The greater of two leaves.
fn either(alloc: Global, first: Leaf, second: Leaf) -> Result<Expr, AllocError>
    ensures { IfOk result (λ e. tree e ≡ either_of first second) }
{
    let mut parts = Vec::new(alloc);
    parts.push(Expr::One(first))?;
    parts.push(Expr::One(second))?;
    Ok(Expr::Max(parts))
}
