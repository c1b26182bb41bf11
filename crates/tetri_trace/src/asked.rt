// What a job asks for, with numbers for the sets that texts name.
ghost use Rattle.std.specs.Prelude.{◌<◌, ◌≤◌, length, IfOk, IfSome, option_map};
ghost use Rattle.tetri_notice.specs.Answers.{Gives};
ghost use Rattle.tetri_notice.specs.Asks.{ask_text, prefer_text, IsSoundAskText, IsSoundPreference};
ghost use Rattle.tetri_parse.specs.Expression.{expression, node_set};
ghost use Rattle.tetri_parse.specs.TextTree.{IsTextTree};
ghost use Rattle.tetri_request.specs.Options.{IsSoundPrefer};
ghost use Rattle.tetri_strl.specs.Tree.{tree};
ghost use Rattle.tetri_trace.specs.Answers.{in_text};
ghost use Rattle.tetri_trace.specs.Lines.{ask_of, prefer_of};
ghost use Rattle.tetri_trace.specs.Named.{AddsSets};
ghost use Rattle.tetri_trace.specs.Sound.{IsAskOver};

use std::alloc::Global;
use tetri_notice::{AskText, PreferText, Stop, TraceWhy};
use tetri_parse::{ClusterReader, ParseFault};
use tetri_request::{Ask, Prefer};
use tetri_strl::Expr;

/// The expression of a job that arrives at this slot.
#[tactic(auto, using(crate::proofs::NamedLemmas::adds_kept))]
pub(crate) fn expr_of(
    alloc: Global,
    reader: &mut ClusterReader,
    unit: u64,
    at: u32,
    text: &str,
) -> Result<Expr, Stop>
    requires unit { (1 ≤ unit) × (unit ≤ 1000000) }
    requires slot { at ≤ 10000 }
    ensures value { Gives (λ e. (tree e, reader.new.sets)) result (in_text (expression text.now unit at reader.old.nodes reader.old.sets)) }
    ensures adds { AddsSets reader.old reader.new }
    ensures good { IfOk result (λ e. IsTextTree at (length reader.new.sets) (tree e)) }
{
    match reader.read_expr(alloc, text.as_bytes(), unit, at) {
        Ok(expr) => Ok(expr),
        Err(ParseFault::At { offset, fault }) => {
            Err(Stop::Because(TraceWhy::BadStrl { offset, fault }))
        }
        Err(ParseFault::NoMemory) => Err(Stop::NoMemory),
    }
}

// The number of a set that an ask names.
#[tactic(auto, using(crate::proofs::NamedLemmas::adds_kept))]
fn set_of(alloc: Global, reader: &mut ClusterReader, text: &str) -> Result<u32, Stop>
    ensures value { Gives (λ n. (n, reader.new.sets)) result (in_text (node_set text.now reader.old.nodes reader.old.sets)) }
    ensures adds { AddsSets reader.old reader.new }
    ensures known { IfOk result (λ n. n < length reader.new.sets) }
{
    match reader.read_set(alloc, text.as_bytes()) {
        Ok(set) => Ok(set),
        Err(ParseFault::At { offset, fault }) => {
            Err(Stop::Because(TraceWhy::BadStrl { offset, fault }))
        }
        Err(ParseFault::NoMemory) => Err(Stop::NoMemory),
    }
}

// The place that an ask prefers.
#[tactic(auto, using(crate::proofs::NamedLemmas::adds_none))]
fn prefer_of(
    alloc: Global,
    reader: &mut ClusterReader,
    prefer: Option<PreferText>,
) -> Result<Option<Prefer>, Stop>
    requires { IsSoundPreference (option_map prefer_text prefer) }
    ensures value { Gives (λ p. (p, reader.new.sets)) result (prefer_of reader.old.nodes (option_map prefer_text prefer.entry) reader.old.sets) }
    ensures adds { AddsSets reader.old reader.new }
    ensures known { IfOk result (λ o. IfSome o (λ p. p.set < length reader.new.sets)) }
    ensures limits { IfOk result (λ o. IfSome o IsSoundPrefer) }
{
    match prefer {
        Some(prefer) => {
            let set = set_of(alloc, reader, prefer.set)?;
            Ok(Some(Prefer {
                set,
                dur: prefer.dur,
            }))
        }
        None => Ok(None),
    }
}

/// An ask, its own set read before the preferred one.
#[tactic(auto, using(crate::proofs::NamedLemmas::adds_both), unfolding(crate::specs::Lines::ask_of))]
pub(crate) fn ask_of(alloc: Global, reader: &mut ClusterReader, ask: AskText) -> Result<Ask, Stop>
    requires { IsSoundAskText (ask_text ask) }
    ensures value { Gives (λ a. (a, reader.new.sets)) result (ask_of reader.old.nodes (ask_text ask.entry) reader.old.sets) }
    ensures adds { AddsSets reader.old reader.new }
    ensures good { IfOk result (λ a. IsAskOver (length reader.new.sets) a) }
{
    let set = set_of(alloc, reader, ask.set)?;
    let prefer = prefer_of(alloc, reader, ask.prefer)?;
    Ok(Ask {
        k: ask.k,
        set,
        dur: ask.dur,
        value: ask.value,
        deadline: ask.deadline,
        prefer,
        class: ask.class,
        elastic: ask.elastic,
    })
}
