// Expressions as text that is read back.
ghost use Rattle.std.specs.Prelude.{◌≡◌, ◌<◌, ◌≤◌, length, Ok, IfOk, OnOk};
ghost use Rattle.tetri_strl.specs.Aligned.{EachLeaf};
ghost use Rattle.tetri_cluster.specs.Sets.{HaveNodesBelow};
ghost use Rattle.tetri_strl.specs.Tree.{tree};
ghost use Rattle.tetri_parse.specs.Expression.{expression};
ghost use Rattle.tetri_parse.specs.Printing.{text_of, AreNamed};
ghost use Rattle.tetri_parse.specs.TextTree.{IsTextTree};

use crate::printing::add_expr;
use std::alloc::{AllocError, Global};
use tetri_cluster::{Cluster, Sets};
use tetri_strl::Expr;

fn printed(
    alloc: Global,
    e: &Expr,
    arrival: u32,
    cluster: &Cluster,
    sets: &Sets,
) -> Result<Vec<u8>, AllocError>
    requires sets { HaveNodesBelow (length cluster.now) sets.now }
    requires known { EachLeaf (λ l. l.set < length sets.now) (tree e.now) }
    ensures value { IfOk result (λ v. v.items ≡ text_of arrival cluster.entry.now sets.entry.now (tree e.entry.now)) }
    ensures named { OnOk result (AreNamed cluster.entry.now sets.entry.now (tree e.entry.now)) }
{
    let mut out = String::new(alloc);
    add_expr(&mut out, arrival, cluster, sets, e)?;
    Ok(out.into_bytes())
}

/// The text of an expression for a job of this arrival, whose leaves are numbered from 0 on and use
/// sets of the cluster's nodes. Read with the unit 1, that arrival and these sets it gives the
/// expression back, and no new set. Its only error is want of memory.
pub fn print_expr(
    alloc: Global,
    e: &Expr,
    arrival: u32,
    cluster: &Cluster,
    sets: &Sets,
) -> Result<Vec<u8>, AllocError>
    requires arrival { arrival ≤ 10000 }
    requires expr { IsTextTree arrival (length sets.now) (tree e.now) }
    requires sets { HaveNodesBelow (length cluster.now) sets.now }
    ensures value { IfOk result (λ v. v.items ≡ text_of arrival cluster.entry.now sets.entry.now (tree e.entry.now)) }
    ensures reads_back { IfOk result (λ v. expression v.items 1 arrival cluster.entry.now sets.entry.now
        ≡ Ok (tree e.entry.now, sets.entry.now)) }
{
    let text = printed(alloc, e, arrival, cluster, sets)?;
    Ok(text)
}
