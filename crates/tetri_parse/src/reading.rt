// The first pass: what a text spells.
ghost use Rattle.std.specs.Prelude.{ℕ, ◌+◌, ◌<◌, ◌≤◌, length, IfOk};
ghost use Rattle.tetri_parse.specs.Answers.{Gives};
ghost use Rattle.tetri_parse.specs.LeafNumbers.{last_number_at, leaf_value_at, leaf_numbers_at, AreLeafNumbers};
ghost use Rattle.tetri_parse.specs.Grammar.{leaf_at, part_with_number, goes_on_to_child, children_at, body_at, expr_at, whole_at};
ghost use Rattle.tetri_parse.specs.Rows.{row_at};
ghost use Rattle.tetri_parse.specs.Phrase.{leaf_text, phrase, phrases, line_up};
ghost use Rattle.tetri_parse.specs.Written.{IsLeafFrom, HasPart, IsBody, AreSpelled, IsSpelled};

use crate::fault::{Fault, Miss, Stop};
use crate::number::{comma_number, number};
use crate::set_text::set_front;
use crate::syntax::{Join, LeafText, Syntax};
use crate::token::{Word, first_word, goes_on, mark, missed, skip_blanks};
use std::alloc::Global;
use tetri_cluster::Cluster;

const MAX_LEVELS: u32 = 64;

const MAX_LEAVES: u32 = 128;

const MAX_VALUE: u64 = 1_000_000_000_000;

// The numbers of a leaf, and how many bytes of the text were left at its value.
#[derive(Drop)]
struct LeafNumbers {
    k: u32,
    start: u32,
    dur: u32,
    v: u64,
    value_left: usize,
}

// The value of a leaf behind its comma, how many bytes were left at it, and what stands behind the closing parenthesis.
#[tactic(auto, unfolding(crate::specs::LeafNumbers::leaf_value_at))]
fn leaf_value(text: &[u8]) -> Result<(u64, usize, &[u8]), Stop>
    ensures value { Gives (λ x. ((x.0, x.1), x.2.now)) result (leaf_value_at text.now) }
    ensures within { IfOk result (λ x. x.0 ≤ 1000000000000) }
{
    let value_text = skip_blanks(mark(b',', text)?);
    let (v, text) = number(0, MAX_VALUE, value_text)?;
    let text = mark(b')', text)?;
    Ok((v, value_text.len(), text))
}

// The numbers of a leaf behind its set, and what stands behind the closing parenthesis.
#[tactic(auto, unfolding(crate::specs::LeafNumbers::leaf_numbers_at))]
fn leaf_numbers(text: &[u8]) -> Result<(LeafNumbers, &[u8]), Stop>
    ensures value { Gives (λ x. (x.0, x.1.now)) result (leaf_numbers_at text.now) }
    ensures within { IfOk result (λ x. AreLeafNumbers x.0) }
{
    let (k, text) = comma_number(1, 4096, text)?;
    let (start, text) = comma_number(0, 10_000, text)?;
    let (dur, text) = comma_number(1, 10_000, text)?;
    let (v, value_left, text) = leaf_value(text)?;
    let numbers = LeafNumbers {
        k,
        start,
        dur,
        v,
        value_left,
    };
    Ok((numbers, text))
}

fn leaf<'t>(
    alloc: Global,
    cluster: &Cluster,
    linear: bool,
    num: u32,
    left: usize,
    text: &'t [u8],
) -> Result<(LeafText<'t>, &'t [u8]), Stop>
    requires { num < 128 }
    ensures value { Gives (λ x. (leaf_text cluster.now x.0, x.1.now)) result (leaf_at cluster.now linear num left text.now) }
    ensures good { IfOk result (λ x. IsLeafFrom (length cluster.now) num (leaf_text cluster.now x.0) (num + 1)) }
{
    let set_text = skip_blanks(mark(b'(', text)?);
    let (set, text) = set_front(alloc, cluster, set_text)?;
    let (numbers, text) = leaf_numbers(text)?;
    let leaf = LeafText {
        num,
        linear,
        set,
        k: numbers.k,
        start: numbers.start,
        dur: numbers.dur,
        v: numbers.v,
        left,
        set_left: set_text.len(),
        value_left: numbers.value_left,
    };
    Ok((leaf, text))
}

/// The expression that stands first, whose leaves are numbered from `taken` on, how many leaves were
/// read then, and what stands behind it.
#[cycle(reading)]
#[tactic(auto, using(crate::proofs::Grammars::deeper), unfolding(crate::specs::Grammar::expr_at))]
fn expr<'t>(
    alloc: Global,
    cluster: &Cluster,
    levels: u32,
    taken: u32,
    text: &'t [u8],
) -> Result<(Syntax<'t>, u32, &'t [u8]), Stop>
    ensures value { Gives (λ x. (phrase cluster.now x.0, (x.1, x.2.now))) result (expr_at cluster.now levels (taken, text.now)) }
    ensures good { IfOk result (λ x. IsSpelled (length cluster.now) levels taken (phrase cluster.now x.0) x.1) }
{
    let start = skip_blanks(text);
    let (word, text) = first_word(start)?;
    if levels == 0 {
        return Err(missed(Fault::TooDeep, start));
    }
    body(alloc, cluster, levels - 1, word, start.len(), taken, text)
}

#[cycle(reading)]
#[tactic(auto, using(crate::proofs::Grammars::phrase_equations), unfolding(crate::specs::Grammar::body_at))]
fn body<'t>(
    alloc: Global,
    cluster: &Cluster,
    levels: u32,
    word: Word,
    left: usize,
    taken: u32,
    text: &'t [u8],
) -> Result<(Syntax<'t>, u32, &'t [u8]), Stop>
    ensures value { Gives (λ x. (phrase cluster.now x.0, (x.1, x.2.now))) result (body_at cluster.now (expr_at cluster.now levels) word left taken text.now) }
    ensures good { IfOk result (λ x. IsBody (length cluster.now) levels taken (phrase cluster.now x.0) x.1) }
{
    match word {
        Word::Leaf { linear } => {
            if taken >= MAX_LEAVES {
                return Err(Stop::Missed(Miss {
                    fault: Fault::TooManyLeaves,
                    left,
                }));
            }
            let (leaf, text) = leaf(alloc, cluster, linear, taken, left, text)?;
            Ok((Syntax::Leaf(leaf), taken + 1, text))
        }
        Word::Join(join) => {
            let (parts, taken, text) = children(alloc, cluster, levels, taken, text)?;
            Ok((Syntax::Join(join, left, parts), taken, text))
        }
        Word::Scale => {
            let (part, by, taken, text) = with_number(alloc, cluster, levels, taken, text)?;
            Ok((Syntax::Scale(left, part, by), taken, text))
        }
        Word::Barrier => {
            let (part, least, taken, text) = with_number(alloc, cluster, levels, taken, text)?;
            Ok((Syntax::Barrier(left, part, least), taken, text))
        }
    }
}

// The last number of an expression behind its comma, and what stands behind the closing parenthesis.
#[tactic(auto, unfolding(crate::specs::LeafNumbers::last_number_at))]
fn last_number(text: &[u8]) -> Result<(u64, &[u8]), Stop>
    ensures value { Gives (λ x. (x.0, x.1.now)) result (last_number_at text.now) }
    ensures within { IfOk result (λ x. x.0 ≤ 1000000000000) }
{
    let (number, text) = number(0, MAX_VALUE, mark(b',', text)?)?;
    let text = mark(b')', text)?;
    Ok((number, text))
}

#[cycle(reading)]
fn with_number<'t>(
    alloc: Global,
    cluster: &Cluster,
    levels: u32,
    taken: u32,
    text: &'t [u8],
) -> Result<(Box<Syntax<'t>>, u64, u32, &'t [u8]), Stop>
    ensures value { Gives (λ x. ((phrase cluster.now x.0.value, x.1), (x.2, x.3.now))) result (part_with_number cluster.now (expr_at cluster.now levels) taken text.now) }
    ensures good { IfOk result (λ x. IsSpelled (length cluster.now) levels taken (phrase cluster.now x.0.value) x.2 × (x.1 ≤ 1000000000000)) }
{
    let text = mark(b'(', text)?;
    let (part, taken, text) = expr(alloc, cluster, levels, taken, text)?;
    let (number, text) = last_number(text)?;
    Ok((Box::new(alloc, part)?, number, taken, text))
}

#[cycle(reading)]
#[tactic(auto, unfolding(crate::specs::Grammar::children_at))]
fn children<'t>(
    alloc: Global,
    cluster: &Cluster,
    levels: u32,
    taken: u32,
    text: &'t [u8],
) -> Result<(Vec<Syntax<'t>>, u32, &'t [u8]), Stop>
    ensures value { Gives (λ x. (phrases cluster.now x.0.items, (x.1, x.2.now))) result (children_at cluster.now (expr_at cluster.now levels) taken text.now) }
    ensures good { IfOk result (λ x. HasPart (line_up (phrases cluster.now x.0.items)) × AreSpelled (length cluster.now) levels taken (line_up (phrases cluster.now x.0.items)) x.1) }
{
    let text = mark(b'(', text)?;
    child_row(alloc, cluster, levels, taken, text)
}

// Children with commas between, up to the closing parenthesis.
#[cycle(reading)]
fn child_row<'t>(
    alloc: Global,
    cluster: &Cluster,
    levels: u32,
    taken: u32,
    text: &'t [u8],
) -> Result<(Vec<Syntax<'t>>, u32, &'t [u8]), Stop>
    ensures value { Gives (λ x. (phrases cluster.now x.0.items, (x.1, x.2.now))) result
        (row_at (expr_at cluster.now levels) (goes_on_to_child cluster.now) (length text.now) (taken, text.now)) }
    ensures good { IfOk result (λ x. HasPart (line_up (phrases cluster.now x.0.items)) × AreSpelled (length cluster.now) levels taken (line_up (phrases cluster.now x.0.items)) x.1) }
{
    let mut parts = Vec::new(alloc);
    let mut leaves = taken;
    let mut rest = text;
    for _ in 0..text.len() {
        let (part, held, after) = expr(alloc, cluster, levels, leaves, rest)?;
        parts.push(part)?;
        let (more, after) = goes_on(b')', after)?;
        leaves = held;
        rest = after;
        if !more {
            return Ok((parts, leaves, rest));
        }
    }
    Err(Stop::Missed(Miss {
        fault: Fault::Ended,
        left: 0,
    }))
}

/// What the text spells as one expression, with nothing behind it.
#[tactic(auto, unfolding(crate::specs::Grammar::whole_at))]
pub(crate) fn whole<'t>(
    alloc: Global,
    cluster: &Cluster,
    text: &'t [u8],
) -> Result<Syntax<'t>, Stop>
    ensures value { Gives (phrase cluster.now) result (whole_at cluster.now text.now) }
    ensures good { IfOk result (λ p. (to : ℕ) × IsSpelled (length cluster.now) 64 0 (phrase cluster.now p) to) }
{
    let (made, _, rest) = expr(alloc, cluster, MAX_LEVELS, 0, text)?;
    let rest = skip_blanks(rest);
    if !rest.is_empty() {
        return Err(missed(Fault::Trailing, rest));
    }
    Ok(made)
}
