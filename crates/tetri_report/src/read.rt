// A line of a report, read.
ghost use Rattle.std.specs.Prelude.{◌≡◌, ℕ, ◌≤◌, ◌<◌, ◌^◌, IfOk, IfSome, map, option_map, length};
ghost use Rattle.tetri_io.specs.Numbers.{number_below};
ghost use Rattle.tetri_report.specs.Line.{cycle_in, entry_in, grant_in, huge_number, kind_in, line_of_kind, job_in, lone_job, summary_of_entries, large_number, line_in, line_of_words, mark_in, node_in, nodes_in, piece_in, plan_in, summary_in, tops_in};
ghost use Rattle.tetri_report.specs.declared.line.ReportLine.TheVariants as lines;
ghost use Rattle.tetri_trace.specs.Scenario.{scenario};
ghost use Rattle.tetri_cert.specs.Numbers.{small_number};

use crate::cycle::Summary;
use crate::line::{Kind, PlanLine, ReportLine};
use std::alloc::{AllocError, Global};
use tetri_cert::{PlanMark, mark_of_words};
use tetri_io::{number_below, parts_at};
use tetri_state::PieceId;
use tetri_strl::{Grant, NodeList};
use tetri_trace::{Trace, job_of};

fn small_number(word: &[u8]) -> Option<u32>
    ensures { result ≡ small_number word.now }
{
    let number = number_below(1 << 32, word)?;
    Some(number as u32)
}

fn large_number(word: &[u8]) -> Option<u64>
    ensures { result ≡ large_number word.now }
{
    let number = number_below(1 << 64, word)?;
    Some(number as u64)
}

fn cycle_in(words: &[&[u8]]) -> Option<ReportLine>
    ensures { result ≡ cycle_in (map (λ w. w.now) words.now) }
{
    let [number] = words else {
        return None;
    };
    Some(ReportLine::Cycle(small_number(number)?))
}

fn mark_in(word: &[u8]) -> Option<PlanMark>
    ensures { result ≡ mark_in word.now }
{
    if word == b"optimal".as_slice() {
        Some(PlanMark::Optimal)
    } else if word == b"spent".as_slice() {
        Some(PlanMark::Spent)
    } else if word == b"wide".as_slice() {
        Some(PlanMark::Wide)
    } else {
        None
    }
}

#[tactic(auto, unfolding(crate::specs::Line::plan_in))]
fn plan_in(words: &[&[u8]]) -> Option<ReportLine>
    ensures { result ≡ plan_in (map (λ w. w.now) words.now) }
{
    let [value, bound, mark, nodes] = words else {
        return None;
    };
    let value = large_number(value)?;
    let bound = large_number(bound)?;
    let mark = mark_in(mark)?;
    let nodes = small_number(nodes)?;
    Some(ReportLine::Plan(PlanLine {
        value,
        bound,
        mark,
        nodes,
    }))
}

fn tops_in(words: &[&[u8]]) -> Option<ReportLine>
    ensures { result ≡ tops_in (map (λ w. w.now) words.now) }
{
    let [columns, rows] = words else {
        return None;
    };
    let columns = large_number(columns)?;
    let rows = large_number(rows)?;
    Some(ReportLine::Tops { columns, rows })
}

// The number behind a key.
#[tactic(auto, unfolding(crate::specs::Line::entry_in))]
fn entry_in(key: &[u8], limit: u128, word: &[u8]) -> Option<u128>
    requires { limit ≤ 2 ^ 127 }
    ensures value { result ≡ entry_in key.now limit word.now }
    ensures below { IfSome result (λ n. n < limit) }
{
    match word.strip_prefix(key) {
        Some(digits) => number_below(limit, digits),
        None => None,
    }
}

fn count_in(key: &[u8], word: &[u8]) -> Option<u64>
    ensures { result ≡ entry_in key.now (2 ^ 64) word.now }
{
    let count = entry_in(key, 1 << 64, word)?;
    Some(count as u64)
}

#[tactic(auto, unfolding(crate::specs::Line::summary_of_entries))]
fn summary_of_entries(
    cycles: &[u8],
    launched: &[u8],
    ended: &[u8],
    cancelled: &[u8],
    expired: &[u8],
    worth: &[u8],
    optimal: &[u8],
) -> Option<ReportLine>
    ensures { result ≡ summary_of_entries cycles.now launched.now ended.now cancelled.now expired.now worth.now optimal.now }
{
    let cycles = count_in(b"cycles=", cycles)?;
    let launched = count_in(b"launched=", launched)?;
    let ended = count_in(b"ended=", ended)?;
    let cancelled = count_in(b"cancelled=", cancelled)?;
    let expired = count_in(b"expired=", expired)?;
    let worth = entry_in(b"worth=", 1 << 127, worth)?;
    let optimal = count_in(b"optimal=", optimal)?;
    Some(ReportLine::Summary(Summary {
        cycles,
        launched,
        ended,
        cancelled,
        expired,
        worth,
        optimal,
    }))
}

fn summary_in(words: &[&[u8]]) -> Option<ReportLine>
    ensures { result ≡ summary_in (map (λ w. w.now) words.now) }
{
    match words {
        [cycles, launched, ended, cancelled, expired, worth, optimal] => summary_of_entries(
            cycles, launched, ended, cancelled, expired, worth, optimal,
        ),
        _ => None,
    }
}

#[tactic(auto, unfolding(crate::specs::Line::job_in))]
fn job_in(trace: &Trace, name: &[u8]) -> Option<u32>
    ensures { result ≡ job_in (scenario trace.now) name.now }
{
    job_of(trace, name)
}

#[tactic(auto, unfolding(crate::specs::Line::node_in))]
fn node_in(trace: &Trace, name: &[u8]) -> Option<u32>
    ensures { result ≡ node_in (scenario trace.now) name.now }
{
    trace.cluster.node(name)
}

// A job by itself.
fn lone_job(trace: &Trace, words: &[&[u8]]) -> Option<u32>
    ensures { result ≡ lone_job (scenario trace.now) (map (λ w. w.now) words.now) }
{
    match words {
        [job] => job_in(trace, job),
        _ => None,
    }
}

fn piece_in(trace: &Trace, words: &[&[u8]]) -> Option<PieceId>
    ensures { result ≡ piece_in (scenario trace.now) (map (λ w. w.now) words.now) }
{
    let [job, leaf] = words else {
        return None;
    };
    let job = job_in(trace, job)?;
    let leaf = small_number(leaf)?;
    Some(PieceId { job, leaf })
}

// Each name as a node.
fn nodes_in(alloc: Global, trace: &Trace, names: &[&[u8]]) -> Result<Option<NodeList>, AllocError>
    ensures { IfOk result (λ o. o ≡ nodes_in (scenario trace.entry.now) (map (λ w. w.now) names.now)) }
{
    let mut nodes = NodeList::new(alloc);
    for name in names {
        let Some(node) = node_in(trace, name) else {
            return Ok(None);
        };
        nodes.push(node)?;
    }
    Ok(Some(nodes))
}

#[tactic(auto, unfolding(crate::specs::Line::grant_in))]
fn grant_in(alloc: Global, trace: &Trace, words: &[&[u8]]) -> Result<Option<ReportLine>, AllocError>
    ensures { IfOk result (λ o. o ≡ grant_in (scenario trace.entry.now) (map (λ w. w.now) words.now)) }
{
    let [job, leaf, start, nodes] = words else {
        return Ok(None);
    };
    let Some(job) = job_in(trace, job) else {
        return Ok(None);
    };
    let Some(leaf) = small_number(leaf) else {
        return Ok(None);
    };
    let Some(start) = small_number(start) else {
        return Ok(None);
    };
    let names = parts_at(alloc, b',', nodes)?;
    let Some(nodes) = nodes_in(alloc, trace, &names)? else {
        return Ok(None);
    };
    Ok(Some(ReportLine::Grant {
        grant: Grant { job, leaf, nodes },
        start,
    }))
}

// The kind of a line by its first word.
#[tactic(auto, unfolding(crate::specs::Line::kind_in))]
fn kind_in(word: &[u8]) -> Option<Kind>
    ensures { result ≡ kind_in word.now }
{
    if word == b"cycle".as_slice() {
        Some(Kind::Cycle)
    } else if word == b"end".as_slice() {
        Some(Kind::End)
    } else if word == b"cancel".as_slice() {
        Some(Kind::Cancel)
    } else if word == b"fail".as_slice() {
        Some(Kind::Fail)
    } else if word == b"over".as_slice() {
        Some(Kind::Over)
    } else if word == b"expire".as_slice() {
        Some(Kind::Expire)
    } else if word == b"plan".as_slice() {
        Some(Kind::Plan)
    } else if word == b"grant".as_slice() {
        Some(Kind::Grant)
    } else if word == b"tops".as_slice() {
        Some(Kind::Tops)
    } else if word == b"launch".as_slice() {
        Some(Kind::Launch)
    } else if word == b"summary".as_slice() {
        Some(Kind::Summary)
    } else {
        None
    }
}

// A line by its kind and the other words.
#[tactic(auto, unfolding(crate::specs::Line::line_of_kind))]
fn line_of_kind(
    alloc: Global,
    trace: &Trace,
    kind: Kind,
    words: &[&[u8]],
) -> Result<Option<ReportLine>, AllocError>
    ensures { IfOk result (λ o. o ≡ line_of_kind (scenario trace.entry.now) kind (map (λ w. w.now) words.now)) }
{
    match kind {
        Kind::Cycle => Ok(cycle_in(words)),
        Kind::End => Ok(piece_in(trace, words).map(ReportLine::End)),
        Kind::Cancel => Ok(lone_job(trace, words).map(ReportLine::Cancel)),
        Kind::Fail => Ok(lone_job(trace, words).map(ReportLine::Fail)),
        Kind::Over => Ok(piece_in(trace, words).map(ReportLine::Over)),
        Kind::Expire => Ok(lone_job(trace, words).map(ReportLine::Expire)),
        Kind::Plan => Ok(plan_in(words)),
        Kind::Grant => grant_in(alloc, trace, words),
        Kind::Tops => Ok(tops_in(words)),
        Kind::Launch => Ok(lone_job(trace, words).map(ReportLine::Launch)),
        Kind::Summary => Ok(summary_in(words)),
    }
}

// A line by its words.
fn line_of_words(
    alloc: Global,
    trace: &Trace,
    words: &[&[u8]],
) -> Result<Option<ReportLine>, AllocError>
    ensures { IfOk result (λ o. o ≡ line_of_words (scenario trace.entry.now) (map (λ w. w.now) words.now)) }
{
    let Some((tag, rest)) = words.split_first() else {
        return Ok(None);
    };
    match kind_in(tag) {
        Some(kind) => line_of_kind(alloc, trace, kind, rest),
        None => Ok(mark_of_words(alloc, words)?.map(ReportLine::Node)),
    }
}

/// What a line of a report says. `None` exactly where it is none, whatever lines stand before it.
pub(crate) fn line_in(
    alloc: Global,
    trace: &Trace,
    line: &[u8],
) -> Result<Option<ReportLine>, AllocError>
    ensures { IfOk result (λ o. o ≡ line_in (scenario trace.entry.now) line.now) }
{
    let words = parts_at(alloc, b' ', line)?;
    line_of_words(alloc, trace, &words)
}
