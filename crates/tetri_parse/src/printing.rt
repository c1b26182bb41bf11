// Expressions as text.
ghost use Rattle.std.specs.Prelude.{◌≡◌, ◌++◌, ◌<◌, All, length, map, true, codes, decimal, OnOk, IfOk, string_bytes};
ghost use Rattle.tetri_strl.specs.Aligned.{EachLeaf, EachLeafOf};
ghost use Rattle.tetri_strl.specs.Tree.{tree, trees};
ghost use Rattle.tetri_cluster.specs.Names.{differ, is_name};
ghost use Rattle.tetri_cluster.specs.Cluster.{name_at, names_of};
ghost use Rattle.tetri_parse.specs.Printing.{with_commas, is_every, set_text, HasNames, leaf_word, numbers_text, leaf_text, text_of, texts_of, IsNamed, AreNamed};
ghost use Rattle.tetri_cluster.specs.Sets.{HaveNodesBelow};

use std::alloc::AllocError;
use std::fmt::Write;
use tetri_cluster::{Cluster, Sets};
use tetri_strl::{Expr, Leaf};

// Whether these are all nodes of a cluster of so many.
fn is_every(count: u32, nodes: &[u32]) -> bool
    ensures { result ≡ is_every count nodes.now }
{
    if nodes.len() != count as usize {
        return false;
    }
    for (place, node) in nodes.iter().enumerate() {
        if *node as usize != place {
            return false;
        }
    }
    true
}

// The names of nodes, with commas between.
fn add_names(out: &mut String, cluster: &Cluster, nodes: &[u32]) -> Result<(), AllocError>
    requires { All (λ n. n < length cluster.now) nodes.now }
    ensures value { OnOk result (string_bytes out.new ≡ string_bytes out.old ++ with_commas (map (name_at cluster.entry.now) nodes.now)) }
    ensures named { OnOk result (All (λ n. is_name (name_at cluster.entry.now n) ≡ true) nodes.now) }
{
    let Some((first, others)) = nodes.split_first() else {
        return Ok(());
    };
    out.push_str(cluster.name_of(*first).text())?;
    for node in others {
        let name = cluster.name_of(*node).text();
        write!(out, ",{name}")?;
    }
    Ok(())
}

#[tactic(auto, unfolding(crate::specs::Printing::set_text))]
fn add_set(out: &mut String, cluster: &Cluster, nodes: &[u32]) -> Result<(), AllocError>
    requires { All (λ n. n < length cluster.now) nodes.now }
    ensures value { OnOk result (string_bytes out.new ≡ string_bytes out.old ++ set_text cluster.entry.now nodes.now) }
    ensures named { OnOk result (HasNames cluster.entry.now nodes.now) }
    ensures apart { differ (names_of cluster.entry.now) ≡ true }
{
    if is_every(cluster.count(), nodes) {
        return out.push_str("*");
    }
    out.push_str("{")?;
    add_names(out, cluster, nodes)?;
    out.push_str("}")
}

fn add_leaf_word(out: &mut String, linear: bool) -> Result<(), AllocError>
    ensures { OnOk result (string_bytes out.new ≡ string_bytes out.old ++ leaf_word linear) }
{
    if linear {
        return out.push_str("LnCk(");
    }
    out.push_str("nCk(")
}

// The numbers of a leaf, which stand behind its set.
#[tactic(auto, unfolding(crate::specs::Printing::numbers_text))]
fn add_numbers(out: &mut String, k: u32, start: u32, dur: u32, v: u64) -> Result<(), AllocError>
    ensures { OnOk result (string_bytes out.new ≡ string_bytes out.old ++ numbers_text k start dur v) }
{
    write!(out, ",{k},{start},{dur},{v})")
}

#[tactic(auto, unfolding(crate::specs::Printing::leaf_text))]
fn add_leaf(
    out: &mut String,
    arrival: u32,
    cluster: &Cluster,
    sets: &Sets,
    leaf: &Leaf,
) -> Result<(), AllocError>
    requires sets { HaveNodesBelow (length cluster.now) sets.now }
    requires known { leaf.now.set < length sets.now }
    ensures value { OnOk result (string_bytes out.new ≡ string_bytes out.old
        ++ leaf_text arrival cluster.entry.now sets.entry.now leaf.entry.now) }
    ensures named { OnOk result (IsNamed cluster.entry.now sets.entry.now leaf.entry.now) }
{
    add_leaf_word(out, leaf.linear)?;
    add_set(out, cluster, sets.nodes_of(leaf.set).as_slice())?;
    add_numbers(
        out,
        leaf.k,
        leaf.start.saturating_sub(arrival),
        leaf.dur,
        leaf.v,
    )
}

// The last number of an expression, and its closing parenthesis.
fn add_last_number(out: &mut String, number: u64) -> Result<(), AllocError>
    ensures { OnOk result (string_bytes out.new ≡ string_bytes out.old ++ codes "," ++ decimal number ++ codes ")") }
{
    write!(out, ",{number})")
}

#[cycle(add_expr)]
pub(crate) fn add_expr(
    out: &mut String,
    arrival: u32,
    cluster: &Cluster,
    sets: &Sets,
    e: &Expr,
) -> Result<(), AllocError>
    requires sets { HaveNodesBelow (length cluster.now) sets.now }
    requires known { EachLeaf (λ l. l.set < length sets.now) (tree e.now) }
    ensures value { OnOk result (string_bytes out.new ≡ string_bytes out.old
        ++ text_of arrival cluster.entry.now sets.entry.now (tree e.entry.now)) }
    ensures named { OnOk result (AreNamed cluster.entry.now sets.entry.now (tree e.entry.now)) }
{
    match e {
        Expr::One(leaf) => add_leaf(out, arrival, cluster, sets, leaf),
        Expr::Max(parts) => add_join(out, "max(", arrival, cluster, sets, parts),
        Expr::Min(parts) => add_join(out, "min(", arrival, cluster, sets, parts),
        Expr::Sum(parts) => add_join(out, "sum(", arrival, cluster, sets, parts),
        Expr::Scale(part, by) => {
            out.push_str("scale(")?;
            add_expr(out, arrival, cluster, sets, part)?;
            add_last_number(out, *by)
        }
        Expr::Barrier(part, least) => {
            out.push_str("barrier(")?;
            add_expr(out, arrival, cluster, sets, part)?;
            add_last_number(out, *least)
        }
    }
}

// A word and its parts in parentheses.
#[cycle(add_expr)]
fn add_join(
    out: &mut String,
    word: &str,
    arrival: u32,
    cluster: &Cluster,
    sets: &Sets,
    parts: &[Expr],
) -> Result<(), AllocError>
    requires sets { HaveNodesBelow (length cluster.now) sets.now }
    requires known { EachLeafOf (λ l. l.set < length sets.now) (trees parts.now) }
    ensures value { OnOk result (string_bytes out.new ≡ string_bytes out.old ++ word.now
        ++ with_commas (texts_of arrival cluster.entry.now sets.entry.now (trees parts.entry.now)) ++ codes ")") }
    ensures named { OnOk result (EachLeafOf (IsNamed cluster.entry.now sets.entry.now) (trees parts.entry.now)) }
{
    out.push_str(word)?;
    if let [first, others @ ..] = parts {
        add_expr(out, arrival, cluster, sets, first)?;
        for part in others {
            out.push_str(",")?;
            add_expr(out, arrival, cluster, sets, part)?;
        }
    }
    out.push_str(")")
}
