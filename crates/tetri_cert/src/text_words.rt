// Reading a mark from the words of a line.
ghost use Rattle.std.specs.Prelude.{◌≡◌, IfOk, map};
ghost use Rattle.tetri_cert.specs.NodeText.{close_in, kind_in, long_in, node_by_tag, node_of_words, past_in, point_in, licence_by_tag, rest_in, split_in, whole_in};

use crate::lists::{cells_in, frac_cells_in, weights_in};
use crate::words::{small_number, whole_number};
use crate::{Licence, Mark};
use std::alloc::{AllocError, Global};
use tetri_num::{Kind, Place};

#[tactic(auto, unfolding(crate::specs::NodeText::kind_in))]
fn kind_in(word: &[u8]) -> Option<Kind>
    ensures { result ≡ kind_in word.now }
{
    if word == b"ratio".as_slice() {
        Some(Kind::Ratio)
    } else if word == b"row".as_slice() {
        Some(Kind::Row)
    } else if word == b"entry".as_slice() {
        Some(Kind::Entry)
    } else if word == b"point".as_slice() {
        Some(Kind::Point)
    } else if word == b"lcm".as_slice() {
        Some(Kind::Lcm)
    } else if word == b"weigh".as_slice() {
        Some(Kind::Weigh)
    } else {
        None
    }
}

fn point_in(alloc: Global, words: &[&[u8]]) -> Result<Option<Licence>, AllocError>
    ensures { IfOk result (λ o. o ≡ point_in (map (λ x. x.now) words.now)) }
{
    let [cells] = words else {
        return Ok(None);
    };
    let Some(cells) = frac_cells_in(alloc, cells)? else {
        return Ok(None);
    };
    Ok(Some(Licence::Point(cells)))
}

fn past_in(words: &[&[u8]]) -> Option<Licence>
    ensures { result ≡ past_in (map (λ x. x.now) words.now) }
{
    let [kind, step, row, column] = words else {
        return None;
    };
    let kind = kind_in(kind)?;
    let step = small_number(step)?;
    let row = small_number(row)?;
    let column = small_number(column)?;
    Some(Licence::Past(Place {
        kind,
        step,
        row,
        column,
    }))
}

#[tactic(auto, unfolding(crate::specs::NodeText::licence_by_tag))]
fn licence_by_tag(alloc: Global, tag: &[u8], words: &[&[u8]]) -> Result<Option<Licence>, AllocError>
    ensures { IfOk result (λ o. o ≡ licence_by_tag tag.now (map (λ x. x.now) words.now)) }
{
    if tag == b"point".as_slice() {
        return point_in(alloc, words);
    }
    if tag == b"past".as_slice() {
        return Ok(past_in(words));
    }
    if tag == b"long".as_slice() && words.is_empty() {
        return Ok(Some(Licence::Long));
    }
    Ok(None)
}

fn split_in(alloc: Global, words: &[&[u8]]) -> Result<Option<Mark>, AllocError>
    ensures { IfOk result (λ o. o ≡ split_in (map (λ x. x.now) words.now)) }
{
    let [column, at, tag, words @ ..] = words else {
        return Ok(None);
    };
    let Some(column) = small_number(column) else {
        return Ok(None);
    };
    let Some(at) = whole_number(at) else {
        return Ok(None);
    };
    let Some(licence) = licence_by_tag(alloc, tag, words)? else {
        return Ok(None);
    };
    Ok(Some(Mark::Split {
        column,
        at,
        licence,
    }))
}

fn close_in(alloc: Global, words: &[&[u8]]) -> Result<Option<Mark>, AllocError>
    ensures { IfOk result (λ o. o ≡ close_in (map (λ x. x.now) words.now)) }
{
    let [q, weights] = words else {
        return Ok(None);
    };
    let Some(q) = whole_number(q) else {
        return Ok(None);
    };
    let Some(weights) = weights_in(alloc, weights)? else {
        return Ok(None);
    };
    Ok(Some(Mark::Close { q, weights }))
}

fn rest_in(alloc: Global, words: &[&[u8]]) -> Result<Option<Mark>, AllocError>
    ensures { IfOk result (λ o. o ≡ rest_in (map (λ x. x.now) words.now)) }
{
    let [q, weights] = words else {
        return Ok(None);
    };
    let Some(q) = whole_number(q) else {
        return Ok(None);
    };
    let Some(weights) = weights_in(alloc, weights)? else {
        return Ok(None);
    };
    Ok(Some(Mark::Rest { q, weights }))
}

fn whole_in(alloc: Global, words: &[&[u8]]) -> Result<Option<Mark>, AllocError>
    ensures { IfOk result (λ o. o ≡ whole_in (map (λ x. x.now) words.now)) }
{
    let [q, weights, worth, point] = words else {
        return Ok(None);
    };
    let Some(q) = whole_number(q) else {
        return Ok(None);
    };
    let Some(weights) = weights_in(alloc, weights)? else {
        return Ok(None);
    };
    let Some(worth) = whole_number(worth) else {
        return Ok(None);
    };
    let Some(point) = cells_in(alloc, point)? else {
        return Ok(None);
    };
    Ok(Some(Mark::Whole {
        q,
        weights,
        worth,
        point,
    }))
}

#[tactic(auto, unfolding(crate::specs::NodeText::node_by_tag))]
fn mark_by_tag(alloc: Global, tag: &[u8], words: &[&[u8]]) -> Result<Option<Mark>, AllocError>
    ensures { IfOk result (λ o. o ≡ node_by_tag tag.now (map (λ x. x.now) words.now)) }
{
    if tag == b"split".as_slice() {
        return split_in(alloc, words);
    }
    if tag == b"close".as_slice() {
        return close_in(alloc, words);
    }
    if tag == b"whole".as_slice() {
        return whole_in(alloc, words);
    }
    if tag == b"rest".as_slice() {
        return rest_in(alloc, words);
    }
    Ok(None)
}

/// The mark of a line's words, which are parted by one space; None exactly where they are not those of a plain mark's line.
pub fn mark_of_words(alloc: Global, words: &[&[u8]]) -> Result<Option<Mark>, AllocError>
    ensures { IfOk result (λ o. o ≡ node_of_words (map (λ x. x.now) words.now)) }
{
    match words.split_first() {
        Some((tag, words)) => mark_by_tag(alloc, tag, words),
        None => Ok(None),
    }
}
