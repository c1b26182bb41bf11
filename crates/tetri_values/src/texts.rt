// Texts of the lower layers: expressions, sets, marks, names, lines, and what is sent.
mod certificates;
mod clusters;
mod contents;
mod devices;
mod names;
mod parsed;
mod sets;

pub use devices::judge_files;
use std::alloc::{AllocError, Global};
use tetri_tables::{Given, Tally};

fn judge_contents(
    alloc: Global,
    tally: &mut Tally,
    word: &str,
    more: &str,
    body: &str,
) -> Result<(), AllocError> {
    match word {
        "read lines" => contents::read_lines(alloc, tally, body),
        "sent bytes" => contents::sent_bytes(alloc, tally, body),
        "narrow writes" => devices::narrow_writes(alloc, tally, body),
        "parts" => contents::parts(alloc, tally, body),
        "split texts" => contents::split_texts(alloc, tally, body),
        "numbers" => contents::numbers(alloc, tally, more, body),
        _ => tally.expect("a section", word, "a known kind"),
    }
}

fn judge_marks_and_names(
    alloc: Global,
    tally: &mut Tally,
    word: &str,
    more: &str,
    body: &str,
) -> Result<(), AllocError> {
    match word {
        "marks" => certificates::marks(alloc, tally, body),
        "no marks" => certificates::no_marks(alloc, tally, body),
        "certificate" => certificates::certificate(alloc, tally, more, body),
        "names" => names::names(alloc, tally, body),
        "numbered names" => names::numbered_names(alloc, tally, body),
        "refused nodes" => names::refused_nodes(alloc, tally, body),
        _ => judge_contents(alloc, tally, word, more, body),
    }
}

/// Judges the rows of a section.
pub fn judge(
    alloc: Global,
    given: &Given,
    tally: &mut Tally,
    word: &str,
    more: &str,
    body: &str,
) -> Result<(), AllocError> {
    match word {
        "texts" => parsed::texts(alloc, given, tally, more, body),
        "printed texts" => parsed::printed_texts(alloc, given, tally, body),
        "sets" => sets::sets(alloc, given, tally, body),
        "nodes" => names::nodes(alloc, given, tally, body),
        _ => judge_marks_and_names(alloc, tally, word, more, body),
    }
}
