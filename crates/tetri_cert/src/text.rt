// Marks as lines.
ghost use Rattle.std.specs.Prelude.{◌≡◌, ◌≢◌, ◌<◌, ◌++◌, All, IfOk, IsErrOf, None, OnOk, Some, codes, length, string_bytes};
ghost use Rattle.tetri_cert.specs.declared.marks.Mark.{Mark};
ghost use Rattle.tetri_cert.specs.NodeText.{HasShortLists, IsPlain, kind_text, node_in, node_line, node_text, place_text, licence_text, ReadsBack, ReadsNoOther};

use crate::lists::{add_cells, add_frac_cells, print_weights};
use crate::text_words::mark_of_words;
use crate::{Licence, Mark};
use std::alloc::{AllocError, Global};
use std::fmt::Write;
use tetri_io::parts_at;
use tetri_num::{Kind, Place};
use thiserror::Error;

/// Why no mark is read.
#[derive(Clone, Copy, Debug, PartialEq, Eq, Error)]
pub enum MarkFault {
    /// The line is not the line of a mark.
    #[error("not a mark")]
    NotMark,
    /// There is no memory for the mark.
    #[error("out of memory")]
    NoMemory,
}

impl From<AllocError> for MarkFault {
    ghost use Rattle.std.specs.Prelude.{◌≡◌};
    ghost use Rattle.tetri_cert.specs.declared.text.MarkFault.TheVariants as fault;

    ghost from_gives = { λ _ e. e ≡ fault.NoMemory };

    fn from(_: AllocError) -> Self {
        MarkFault::NoMemory
    }
}

fn kind_text(kind: Kind) -> &'static str
    ensures { result.now ≡ kind_text kind }
{
    match kind {
        Kind::Ratio => "ratio",
        Kind::Row => "row",
        Kind::Entry => "entry",
        Kind::Point => "point",
        Kind::Lcm => "lcm",
        Kind::Weigh => "weigh",
    }
}

fn add_place(out: &mut String, place: Place) -> Result<(), AllocError>
    ensures { OnOk result (string_bytes out.new ≡ string_bytes out.old ++ place_text place) }
{
    let kind = kind_text(place.kind);
    let (step, row, column) = (place.step, place.row, place.column);
    write!(out, "{kind} {step} {row} {column}")
}

#[tactic(auto, unfolding(crate::specs::NodeText::licence_text))]
fn add_licence(out: &mut String, licence: &Licence) -> Result<(), AllocError>
    ensures { OnOk result (string_bytes out.new ≡ string_bytes out.old ++ licence_text licence.now) }
{
    match licence {
        Licence::Point(cells) => {
            out.push_str("point ")?;
            add_frac_cells(out, cells.as_slice())
        }
        Licence::Past(place) => {
            out.push_str("past ")?;
            add_place(out, *place)
        }
        Licence::Long => out.push_str("long"),
    }
}

// The mark without a line feed.
#[tactic(auto, unfolding(crate::specs::NodeText::node_text, crate::specs::NodeText::licence_text))]
fn add_mark(out: &mut String, mark: &Mark) -> Result<(), AllocError>
    ensures { OnOk result (string_bytes out.new ≡ string_bytes out.old ++ node_text mark.now) }
{
    match mark {
        Mark::Split {
            column,
            at,
            licence,
        } => {
            let column = *column;
            let at = *at;
            write!(out, "split {column} {at} ")?;
            add_licence(out, licence)
        }
        Mark::Close { q, weights } => {
            let q = *q;
            write!(out, "close {q} ")?;
            print_weights(out, weights.as_slice())
        }
        Mark::Whole {
            q,
            weights,
            worth,
            point,
        } => {
            let q = *q;
            let worth = *worth;
            write!(out, "whole {q} ")?;
            print_weights(out, weights.as_slice())?;
            write!(out, " {worth} ")?;
            add_cells(out, point.as_slice())
        }
        Mark::Rest { q, weights } => {
            let q = *q;
            write!(out, "rest {q} ")?;
            print_weights(out, weights.as_slice())
        }
    }
}

/// Adds the mark's line to a text, with its line feed. After want of memory a front of it may stand there.
pub fn print_mark(out: &mut String, mark: &Mark) -> Result<(), AllocError>
    ensures { OnOk result (string_bytes out.new ≡ string_bytes out.old ++ node_line mark.now) }
{
    add_mark(out, mark)?;
    out.push_str("\n")
}

/// The mark of a line without its line feed. `NotMark` exactly where it is no plain mark's line.
#[tactic(auto, unfolding(crate::specs::NodeText::node_in))]
pub fn read_mark(alloc: Global, line: &[u8]) -> Result<Mark, MarkFault>
    ensures mark { IfOk result (λ m. node_in line.now ≡ Some m) }
    ensures plain { IfOk result (λ m. IsPlain m) }
    ensures not_mark { IsErrOf result MarkFault.NotMark → node_in line.now ≡ None }
{
    let words = parts_at(alloc, b' ', line)?;
    match mark_of_words(alloc, &words)? {
        Some(mark) => Ok(mark),
        None => Err(MarkFault::NotMark),
    }
}

/// The line of a plain mark reads back as that mark, and no other line does.
pub fn marks_read_back()
    ensures back { ReadsBack }
    ensures only { ReadsNoOther }
{}

/// The line of a plain mark has no line feed of its own. Where no list has more than 2,000 entries, it has at most
/// 1,048,576 bytes with its line feed.
pub fn marks_are_short_lines()
    ensures one_line { (m : Mark) → IsPlain m → All (λ b. b ≢ 10) (node_text m) }
    ensures short { (m : Mark) → IsPlain m → HasShortLists 2000 m → length (node_text m) < 1048576 }
{}
