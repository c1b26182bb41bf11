// Expressions by the numbers of their leaves and sets.
use std::alloc::{AllocError, Global};
use tetri_strl::{Expr, Leaf};

fn tell_leaf(out: &mut String, leaf: &Leaf) -> Result<(), AllocError> {
    let word = if leaf.linear { "LnCk" } else { "nCk" };
    let Leaf {
        num,
        set,
        k,
        start,
        dur,
        v,
        linear: _,
    } = leaf;
    write!(out, "{word}({num}: {set},{k},{start},{dur},{v})")
}

#[cycle(telling)]
fn tell_parts(out: &mut String, word: &str, parts: &[Expr]) -> Result<(), AllocError> {
    write!(out, "{word}(")?;
    for (place, part) in parts.iter().enumerate() {
        if place > 0 {
            out.push_str(", ")?;
        }
        tell_expr(out, part)?;
    }
    out.push_str(")")
}

/// Adds what an expression says: of each leaf its number, its set's number, and its numbers with the start and the value that
/// they have in the trace.
#[cycle(telling)]
pub fn tell_expr(out: &mut String, e: &Expr) -> Result<(), AllocError> {
    match e {
        Expr::One(leaf) => tell_leaf(out, leaf),
        Expr::Max(parts) => tell_parts(out, "max", parts),
        Expr::Min(parts) => tell_parts(out, "min", parts),
        Expr::Sum(parts) => tell_parts(out, "sum", parts),
        Expr::Scale(part, by) => {
            out.push_str("scale(")?;
            tell_expr(out, part)?;
            write!(out, ", {by})")
        }
        Expr::Barrier(part, least) => {
            out.push_str("barrier(")?;
            tell_expr(out, part)?;
            write!(out, ", {least})")
        }
    }
}

/// What an expression says, as text.
pub fn expr_told(alloc: Global, e: &Expr) -> Result<String, AllocError> {
    let mut out = String::new(alloc);
    tell_expr(&mut out, e)?;
    Ok(out)
}
