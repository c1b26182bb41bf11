// A line of the Standard Workload Format: 18 numbers, where -1 says that a number is not known.
ghost use Rattle.std.specs.Prelude.{◌≡◌, map};
ghost use Rattle.tetri_logs.specs.Swf.{is_comment, is_known_as, is_part, swf_account, swf_partition, width_of};

use crate::account::{Account, Columns, account_of, positive};
use crate::entry::Cause;
use crate::words::{amount, amount_by, count_in, is_text, needed, word_at};
use tetri_io::is_blank;

/// Whether the first byte that is no blank begins a comment, or there is none.
pub(crate) fn is_comment(line: &[u8]) -> bool
    ensures { result ≡ is_comment line.now }
{
    for b in line {
        if !is_blank(*b) {
            return *b == b';';
        }
    }
    true
}

/// The partition of a job by its number, or nothing where it is not known.
pub(crate) fn swf_partition<'a>(words: &[&'a [u8]]) -> &'a [u8]
    ensures { result.now ≡ swf_partition (map (λ w. w.now) words.now) }
{
    let partition = word_at(words, 15);
    if is_text(partition, "-1") {
        return b"";
    }
    partition
}

// Whether a number is known, and is this one.
fn is_known_as(expected: u32, number: Option<u32>) -> bool
    ensures { result ≡ is_known_as expected number }
{
    match number {
        Some(number) => number == expected,
        None => false,
    }
}

// Whether a status is that of a part of a job, beside which the whole has a line of its own.
fn is_part(status: Option<u32>) -> bool
    ensures { result ≡ is_part status }
{
    is_known_as(2, status) || is_known_as(3, status) || is_known_as(4, status)
}

// The processors that a job asked for, or else those that it was given.
fn width_of(asked: Option<u32>, given: Option<u32>) -> Result<u32, Cause>
    ensures { result ≡ width_of asked given }
{
    match (positive(asked), positive(given)) {
        (Some(width), _) => Ok(width),
        (None, Some(width)) => Ok(width),
        (None, None) => Err(Cause::NoNodes),
    }
}

/// What the words of a line say of a job, or why it is left out.
#[tactic(auto, unfolding(crate::specs::Swf::swf_account))]
pub(crate) fn swf_account(words: &[&[u8]]) -> Result<Account, Cause>
    ensures { result ≡ swf_account (map (λ w. w.now) words.now) }
{
    if words.len() != 18 {
        return Err(Cause::Unreadable(words.len().min(18) + 1));
    }
    let status = count_in(words[10]);
    if is_part(status) {
        return Err(Cause::Step);
    }
    let _number = needed(1, words[0])?;
    let submit = needed(2, words[1])?;
    let wait = amount(3, words[2])?;
    let ran = amount(4, words[3])?;
    let given = amount(5, words[4])?;
    let asked = amount(8, words[7])?;
    let limit = amount(9, words[8])?;
    let status = amount_by(11, words[10], status)?;
    let width = width_of(asked, given)?;
    Ok(account_of(Columns {
        submit,
        nodes: None,
        processors: Some(width),
        limit,
        ran,
        wait,
        cancelled: is_known_as(5, status),
    }))
}
