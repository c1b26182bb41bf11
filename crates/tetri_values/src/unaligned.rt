// Expressions whose parts start in different slots, which no text says.
ghost use Rattle.std.specs.Prelude.{◌≡◌, IfOk, false, true};
ghost use Rattle.tetri_strl.specs.Tree.{Operator, join, one, tree, trees};
ghost use Rattle.tetri_strl.specs.WellMade.{IsSound};

use std::alloc::{AllocError, Global};
use tetri_strl::{Expr, Leaf, aligned, prune};
use tetri_tables::{Tally, tell_expr};

// 8 for 4 nodes in slot 3, and 2 for each of fewer
fn linear() -> Expr
    ensures leaf { tree result
        ≡ one (record { num = 0; set = 0; k = 4; start = 3; dur = 1; v = 8; linear = true }) }
    ensures sound { IsSound (tree result) }
{
    Expr::One(Leaf {
        num: 0,
        set: 0,
        k: 4,
        start: 3,
        dur: 1,
        v: 8,
        linear: true,
    })
}

// 4 for exactly 2 nodes in slot 5
fn exact() -> Expr
    ensures leaf { tree result
        ≡ one (record { num = 1; set = 0; k = 2; start = 5; dur = 1; v = 4; linear = false }) }
    ensures sound { IsSound (tree result) }
{
    Expr::One(Leaf {
        num: 1,
        set: 0,
        k: 2,
        start: 5,
        dur: 1,
        v: 4,
        linear: false,
    })
}

fn both(alloc: Global) -> Result<Vec<Expr>, AllocError>
    ensures { IfOk result (λ parts. (op : Operator) → IsSound (join op (trees parts.items))) }
{
    let mut parts = Vec::new(alloc);
    parts.push(linear())?;
    parts.push(exact())?;
    Ok(parts)
}

// Whether an expression is aligned, and what is left of it in slots 4 and 5.
fn told(alloc: Global, e: &Expr) -> Result<String, AllocError>
    requires { IsSound (tree e.now) }
{
    let mut out = format!(in alloc; "{} ", aligned(e))?;
    match prune(alloc, e, 4, 6)? {
        Some(left) => tell_expr(&mut out, &left)?,
        None => out.push_str("none")?,
    }
    Ok(out)
}

/// A sum and a least worth of parts that start in slots 3 and 5.
pub fn unaligned(alloc: Global, tally: &mut Tally) -> Result<(), AllocError> {
    let sum = told(alloc, &Expr::Sum(both(alloc)?))?;
    tally.expect("a sum", sum.as_str(), "false sum(nCk(1: 0,2,5,1,4))")?;
    let least = told(alloc, &Expr::Min(both(alloc)?))?;
    tally.expect("a least worth", least.as_str(), "false none")
}
