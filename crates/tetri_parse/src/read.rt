// The texts of expressions and of sets.
ghost use Rattle.std.specs.Prelude.{◌≡◌, ◌<◌, ◌≤◌, ◌+◌, All, length, take, map, None, IfOk, OnErr};
ghost use Rattle.std.specs.List.{range_with_len};
ghost use Rattle.tetri_strl.specs.Aligned.{EachLeaf};
ghost use Rattle.tetri_strl.specs.Tree.{tree, numbers, leaves};
ghost use Rattle.tetri_strl.specs.WellMade.{IsWellMade};
ghost use Rattle.tetri_parse.specs.Ascending.{LeastFault};
ghost use Rattle.tetri_parse.specs.Answers.{Gives, Answers, fault_in};
ghost use Rattle.tetri_parse.specs.Expression.{expression, expression_left, node_set, node_set_left};
ghost use Rattle.tetri_parse.specs.Faults.{first_fault, AnswersFault};
ghost use Rattle.tetri_parse.specs.Reader.{IsTrueIndex};
ghost use Rattle.tetri_parse.specs.TextTree.{IsTextTree};
ghost use Rattle.tetri_cluster.specs.Sets.{HaveNodesBelow};

use crate::fault::{Fault, ParseFault, Stop};
use crate::naming::{NotedTexts, set_named};
use crate::reading::whole;
use crate::set_text::set_front;
use crate::settling::{Terms, settle};
use crate::token::{missed, skip_blanks};
use indexmap::IndexMap;
use std::alloc::Global;
use tetri_cluster::{Cluster, Sets};
use tetri_strl::Expr;

fn parse_fault(text: &[u8], stop: Stop) -> ParseFault
    ensures { result ≡ fault_in text.now stop }
{
    match stop {
        Stop::Missed(miss) => ParseFault::At {
            offset: text.len().saturating_sub(miss.left) as u64,
            fault: miss.fault,
        },
        Stop::NoMemory => ParseFault::NoMemory,
    }
}

#[tactic(auto, unfolding(crate::specs::Expression::expression_left))]
fn read_parts(
    alloc: Global,
    text: &[u8],
    terms: Terms,
    cluster: &Cluster,
    sets: &mut Sets,
    noted: &mut NotedTexts,
) -> Result<Expr, Stop>
    requires terms { (terms.unit ≤ 1000000) × (terms.arrival ≤ 10000) }
    requires noted { IsTrueIndex cluster.now sets.old noted.old.entries }
    ensures value { Gives (λ e. (tree e, sets.new)) result
        (expression_left text.entry.now terms.unit terms.arrival cluster.entry.now sets.old) }
    ensures kept { take (length sets.old) sets.new ≡ sets.old }
    ensures good { IfOk result (λ e. IsTextTree terms.arrival (length sets.new) (tree e)) }
    ensures within { IfOk result (λ _. HaveNodesBelow (length cluster.entry.now) sets.old
        → HaveNodesBelow (length cluster.entry.now) sets.new) }
    ensures noted { IsTrueIndex cluster.entry.now sets.new noted.new.entries }
{
    let syntax = whole(alloc, cluster, text)?;
    settle(alloc, terms, None, &syntax, cluster, sets, noted)
}

#[tactic(auto, unfolding(crate::specs::Expression::node_set_left))]
fn read_nodes(
    alloc: Global,
    text: &[u8],
    cluster: &Cluster,
    sets: &mut Sets,
    noted: &mut NotedTexts,
) -> Result<u32, Stop>
    requires { IsTrueIndex cluster.now sets.old noted.old.entries }
    ensures value { Gives (λ n. (n, sets.new)) result
        (node_set_left text.entry.now cluster.entry.now sets.old) }
    ensures err { OnErr result (sets.new ≡ sets.old) }
    ensures kept { take (length sets.old) sets.new ≡ sets.old }
    ensures number { IfOk result (λ n. n < length sets.new) }
    ensures within { HaveNodesBelow (length cluster.entry.now) sets.old
        → HaveNodesBelow (length cluster.entry.now) sets.new }
    ensures noted { IsTrueIndex cluster.entry.now sets.new noted.new.entries }
{
    let start = skip_blanks(text);
    let (set, rest) = set_front(alloc, cluster, start)?;
    let rest = skip_blanks(rest);
    if !rest.is_empty() {
        return Err(missed(Fault::Trailing, rest));
    }
    set_named(alloc, start.len(), set, cluster, sets, noted)
}

/// As `read_expr`, where texts of sets that were noted are looked up, and new ones are noted.
pub(crate) fn read_noting_expr(
    alloc: Global,
    text: &[u8],
    terms: Terms,
    cluster: &Cluster,
    sets: &mut Sets,
    noted: &mut NotedTexts,
) -> Result<Expr, ParseFault>
    requires unit { (1 ≤ terms.unit) × (terms.unit ≤ 1000000) }
    requires arrival { terms.arrival ≤ 10000 }
    requires noted { IsTrueIndex cluster.now sets.old noted.old.entries }
    ensures value { Answers (λ e. (tree e, sets.new)) result
        (expression text.entry.now terms.unit terms.arrival cluster.entry.now sets.old) }
    ensures first { AnswersFault text.entry.now
        (first_fault text.entry.now terms.unit cluster.entry.now sets.old) result }
    ensures least { LeastFault text.entry.now terms.unit cluster.entry.now sets.old result }
    ensures refused { OnErr result (sets.new ≡ sets.old) }
    ensures kept { take (length sets.old) sets.new ≡ sets.old }
    ensures text_tree { IfOk result (λ e. IsTextTree terms.arrival (length sets.new) (tree e)) }
    ensures within { HaveNodesBelow (length cluster.entry.now) sets.old
        → HaveNodesBelow (length cluster.entry.now) sets.new }
    ensures noted { IsTrueIndex cluster.entry.now sets.new noted.new.entries }
{
    let held = sets.len();
    match read_parts(alloc, text, terms, cluster, sets, noted) {
        Ok(expr) => Ok(expr),
        Err(stop) => {
            sets.truncate(held);
            noted.clear();
            Err(parse_fault(text, stop))
        }
    }
}

/// As `read_set`, where a text that was noted is looked up, and a new one is noted.
pub(crate) fn read_noting_set(
    alloc: Global,
    text: &[u8],
    cluster: &Cluster,
    sets: &mut Sets,
    noted: &mut NotedTexts,
) -> Result<u32, ParseFault>
    requires { IsTrueIndex cluster.now sets.old noted.old.entries }
    ensures value { Answers (λ n. (n, sets.new)) result
        (node_set text.entry.now cluster.entry.now sets.old) }
    ensures refused { OnErr result (sets.new ≡ sets.old) }
    ensures kept { take (length sets.old) sets.new ≡ sets.old }
    ensures number { IfOk result (λ n. n < length sets.new) }
    ensures within { HaveNodesBelow (length cluster.entry.now) sets.old
        → HaveNodesBelow (length cluster.entry.now) sets.new }
    ensures noted { IsTrueIndex cluster.entry.now sets.new noted.new.entries }
{
    match read_nodes(alloc, text, cluster, sets, noted) {
        Ok(set) => Ok(set),
        Err(stop) => Err(parse_fault(text, stop)),
    }
}

/// The expression that a text says. Its values are multiplied by the unit, its slots are counted
/// from the arrival on, its leaves are numbered from 0 in the order of the text, and its sets are
/// numbered in `sets`, where new ones come last. `At` comes exactly with the first fault of the text: of
/// those behind the grammar that of least offset, at one offset that of least number. Any refusal leaves
/// the sets as they were.
pub fn read_expr(
    alloc: Global,
    text: &[u8],
    unit: u64,
    arrival: u32,
    cluster: &Cluster,
    sets: &mut Sets,
) -> Result<Expr, ParseFault>
    requires unit { (1 ≤ unit) × (unit ≤ 1000000) }
    requires arrival { arrival ≤ 10000 }
    ensures value { Answers (λ e. (tree e, sets.new)) result
        (expression text.entry.now unit arrival cluster.entry.now sets.old) }
    ensures first { AnswersFault text.entry.now
        (first_fault text.entry.now unit cluster.entry.now sets.old) result }
    ensures least { LeastFault text.entry.now unit cluster.entry.now sets.old result }
    ensures refused { OnErr result (sets.new ≡ sets.old) }
    ensures kept { take (length sets.old) sets.new ≡ sets.old }
    ensures well_made { IfOk result (λ e. IsWellMade (tree e)) }
    ensures starts { IfOk result (λ e. EachLeaf
        (λ l. (arrival ≤ l.start) × (l.start ≤ arrival + 10000)) (tree e)) }
    ensures numbered { IfOk result (λ e. numbers (tree e)
        ≡ range_with_len 0 (length (leaves (tree e)))) }
    ensures known { IfOk result (λ e. EachLeaf (λ l. l.set < length sets.new) (tree e)) }
    ensures text_tree { IfOk result (λ e. IsTextTree arrival (length sets.new) (tree e)) }
    ensures within { HaveNodesBelow (length cluster.entry.now) sets.old
        → HaveNodesBelow (length cluster.entry.now) sets.new }
{
    let mut noted = IndexMap::new(alloc);
    read_noting_expr(
        alloc,
        text,
        Terms { unit, arrival },
        cluster,
        sets,
        &mut noted,
    )
}

/// The number of the set that a text says, a new one last in `sets`. `At` comes exactly with the first fault of
/// the text; any refusal leaves the sets as they were.
pub fn read_set(
    alloc: Global,
    text: &[u8],
    cluster: &Cluster,
    sets: &mut Sets,
) -> Result<u32, ParseFault>
    ensures value { Answers (λ n. (n, sets.new)) result
        (node_set text.entry.now cluster.entry.now sets.old) }
    ensures refused { OnErr result (sets.new ≡ sets.old) }
    ensures kept { take (length sets.old) sets.new ≡ sets.old }
    ensures number { IfOk result (λ n. n < length sets.new) }
    ensures within { HaveNodesBelow (length cluster.entry.now) sets.old
        → HaveNodesBelow (length cluster.entry.now) sets.new }
{
    let mut noted = IndexMap::new(alloc);
    read_noting_set(alloc, text, cluster, sets, &mut noted)
}
