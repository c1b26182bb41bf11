// What is told of an import.
ghost use Rattle.std.specs.Prelude.{◌≡◌, ◌-◌, ◌++◌, [], IfOk, OnOk, flat_map, map, slice_index_or, string_bytes};
ghost use Rattle.tetri_workload.specs.Telling.{all_causes, cause_line, cause_number, cause_word, causes_of, column_text, count_line, count_of, counts_text, fault_words, first_causes, from_words, gap_words, last_causes, mixed_causes, option_words, reason_text, reject_text, rejects_text, to_words};

use crate::importing::{ImportFault, Imported};
use std::alloc::{AllocError, Global};
use tetri_logs::{Cause, OptionFault, Reject, log_lines};

fn cause_number(cause: Cause) -> u8
    ensures { result ≡ cause_number cause }
{
    match cause {
        Cause::Unreadable(_) => 0,
        Cause::Step => 1,
        Cause::NoNodes => 2,
        Cause::Backwards => 3,
        Cause::TooLarge => 4,
        Cause::PartNode => 5,
        Cause::Outside => 6,
        Cause::Repeated => 7,
        Cause::Beyond => 8,
        Cause::Constraint => 9,
        Cause::NoSet => 10,
    }
}

// Why each line is left out, in whatever column.
fn causes_of(alloc: Global, left: &[Reject]) -> Result<Vec<u8>, AllocError>
    ensures { IfOk result (λ v. v.items ≡ causes_of left.now) }
{
    let causes = left.iter().map(|reject| cause_number(reject.cause));
    causes.collect(alloc)
}

// How many of them for this cause.
fn count_of(cause: Cause, causes: &[u8]) -> usize
    ensures { result ≡ count_of cause causes.now }
{
    let number = cause_number(cause);
    causes.iter().filter(|n| **n == number).count()
}

fn cause_word(cause: Cause) -> &'static str
    ensures { result.now ≡ cause_word cause }
{
    match cause {
        Cause::Unreadable(_) => "unreadable",
        Cause::Step => "steps",
        Cause::NoNodes => "no-nodes",
        Cause::Backwards => "backwards",
        Cause::TooLarge => "too-large",
        Cause::PartNode => "part-nodes",
        Cause::Outside => "outside",
        Cause::Repeated => "repeated",
        Cause::Beyond => "beyond",
        Cause::Constraint => "constraint",
        Cause::NoSet => "no-set",
    }
}

// A line with a word and a number.
fn add_count(text: &mut String, word: &str, count: usize) -> Result<(), AllocError>
    ensures { OnOk result (string_bytes text.new ≡ string_bytes text.old ++ count_line word.now count) }
{
    writeln!(text, "{word} {count}")
}

// A line that says how many lines were left out for a cause.
fn add_cause(text: &mut String, cause: Cause, causes: &[u8]) -> Result<(), AllocError>
    ensures { OnOk result (string_bytes text.new ≡ string_bytes text.old ++ cause_line causes.now cause) }
{
    add_count(text, cause_word(cause), count_of(cause, causes))
}

// How many lines are left out for what they say themselves.
fn add_first_causes(text: &mut String, causes: &[u8]) -> Result<(), AllocError>
    ensures { OnOk result (string_bytes text.new ≡ string_bytes text.old ++ first_causes causes.now) }
{
    add_cause(text, Cause::Unreadable(0), causes)?;
    add_cause(text, Cause::Step, causes)?;
    add_cause(text, Cause::NoNodes, causes)?;
    add_cause(text, Cause::Backwards, causes)
}

// How many lines are left out for what they ask for.
fn add_last_causes(text: &mut String, causes: &[u8]) -> Result<(), AllocError>
    ensures { OnOk result (string_bytes text.new ≡ string_bytes text.old ++ last_causes causes.now) }
{
    add_cause(text, Cause::TooLarge, causes)?;
    add_cause(text, Cause::PartNode, causes)?;
    add_cause(text, Cause::Outside, causes)?;
    add_cause(text, Cause::Repeated, causes)?;
    add_cause(text, Cause::Beyond, causes)
}

// How many lines are left out for the nodes that they ask for, where nodes differ.
fn add_mixed_causes(text: &mut String, mixed: bool, causes: &[u8]) -> Result<(), AllocError>
    ensures { OnOk result (string_bytes text.new ≡ string_bytes text.old ++ mixed_causes mixed causes.now) }
{
    if !mixed {
        return Ok(());
    }
    add_cause(text, Cause::Constraint, causes)?;
    add_cause(text, Cause::NoSet, causes)
}

// How many lines are left out for each cause.
fn add_causes(text: &mut String, mixed: bool, causes: &[u8]) -> Result<(), AllocError>
    ensures { OnOk result (string_bytes text.new ≡ string_bytes text.old ++ all_causes mixed causes.now) }
{
    add_first_causes(text, causes)?;
    add_last_causes(text, causes)?;
    add_mixed_causes(text, mixed, causes)
}

// The same of an import.
fn add_left(alloc: Global, text: &mut String, imported: &Imported) -> Result<(), AllocError>
    ensures { OnOk result (string_bytes text.new ≡ string_bytes text.old ++ all_causes imported.now.mixed (causes_of imported.now.left.items)) }
{
    let causes = causes_of(alloc, imported.left.as_slice())?;
    add_causes(text, imported.mixed, &causes)
}

/// How many jobs are taken, how many of them take a whole node for fewer processors, how many comments there are, and how many lines are
/// left out for each cause, a line each. Its only error is want of memory.
pub fn counts_text(alloc: Global, imported: &Imported) -> Result<String, AllocError>
    ensures { IfOk result (λ text. string_bytes text ≡ counts_text imported.now) }
{
    let mut text = String::new(alloc);
    add_count(&mut text, "taken", imported.jobs)?;
    add_count(&mut text, "rounded-up", imported.rounded)?;
    add_count(&mut text, "comments", imported.comments)?;
    add_left(alloc, &mut text, imported)?;
    Ok(text)
}

// The column at which a line stops being one.
fn add_column(text: &mut String, cause: Cause) -> Result<(), AllocError>
    ensures { OnOk result (string_bytes text.new ≡ string_bytes text.old ++ column_text cause) }
{
    match cause {
        Cause::Unreadable(column) => write!(text, " column {column}"),
        _ => Ok(()),
    }
}

/// The number of a line that is left out, and why. Its only error is want of memory.
pub fn reason_text(alloc: Global, reject: Reject) -> Result<String, AllocError>
    ensures { IfOk result (λ text. string_bytes text ≡ reason_text reject) }
{
    let line = reject.line;
    let word = cause_word(reject.cause);
    let mut text = format!(in alloc; "{line} {word}")?;
    add_column(&mut text, reject.cause)?;
    Ok(text)
}

// A line by its number.
fn line_at<'a>(lines: &[&'a [u8]], number: usize) -> &'a [u8]
    ensures { result.now ≡ slice_index_or (map (λ x. x.now) lines.now) (number - 1) [] }
{
    match lines.get(number.saturating_sub(1)) {
        Some(line) => line,
        None => b"",
    }
}

// The number of a line that is left out, why, and the line.
fn add_reject(
    alloc: Global,
    text: &mut Vec<u8>,
    lines: &[&[u8]],
    reject: Reject,
) -> Result<(), AllocError>
    ensures { OnOk result (text.new.items ≡ text.old.items ++ reject_text (map (λ x. x.now) lines.now) reject) }
{
    let reason = reason_text(alloc, reject)?;
    text.extend_from_slice(reason.as_bytes())?;
    text.extend_from_slice(b": ")?;
    text.extend_from_slice(line_at(lines, reject.line))?;
    text.extend_from_slice(b"\n")?;
    Ok(())
}

fn add_rejects(
    alloc: Global,
    text: &mut Vec<u8>,
    lines: &[&[u8]],
    left: &[Reject],
) -> Result<(), AllocError>
    ensures { OnOk result (text.new.items ≡ text.old.items ++ flat_map (reject_text (map (λ x. x.now) lines.now)) left.now) }
{
    for reject in left {
        add_reject(alloc, text, lines, *reject)?;
    }
    Ok(())
}

/// Each line of a log that is left out: its number, why, and the line itself. Its only error is want of memory.
pub fn rejects_text(alloc: Global, log: &[u8], left: &[Reject]) -> Result<Vec<u8>, AllocError>
    ensures { IfOk result (λ text. text.items ≡ rejects_text log.now left.now) }
{
    let lines = log_lines(alloc, log)?;
    let mut text = Vec::new(alloc);
    add_rejects(alloc, &mut text, &lines, left)?;
    Ok(text)
}

/// Why there is no trace, in words. Its only error is want of memory.
pub fn fault_text(alloc: Global, fault: ImportFault) -> Result<String, AllocError>
    ensures { IfOk result (λ text. string_bytes text ≡ fault_words fault) }
{
    match fault {
        ImportFault::Options(fault) => String::from_str(alloc, option_text(fault)),
        ImportFault::Apart(second) => gap_text(alloc, second),
        ImportFault::Unlike => {
            String::from_str(alloc, "the trace that was made is not read as it should be")
        }
        ImportFault::NoMemory => String::from_str(alloc, "out of memory"),
    }
}

fn option_text(fault: OptionFault) -> &'static str
    ensures { result.now ≡ option_words fault }
{
    match fault {
        OptionFault::Slot => "a slot has 1 to 1000000 seconds",
        OptionFault::Processors => "a node has 1 processor or more",
        OptionFault::Window => "the window is 1 to 64",
        OptionFault::Budget => "the budget is 1 to 10000",
        OptionFault::Unit => "the unit is 1 to 1000000",
        OptionFault::Slack => "the slack is 0 to 10000",
        OptionFault::Nodes => "there are 1 to 4096 nodes",
        OptionFault::LogNodes => "give --nodes: the log does not say that there are 1 to 4096",
    }
}

// With the second that parts the first jobs from the others.
fn add_from(text: &mut String, second: u64) -> Result<(), AllocError>
    ensures { OnOk result (string_bytes text.new ≡ string_bytes text.old ++ from_words second) }
{
    write!(text, "give --from {second}")
}

fn add_to(text: &mut String, second: u64) -> Result<(), AllocError>
    ensures { OnOk result (string_bytes text.new ≡ string_bytes text.old ++ to_words second) }
{
    write!(text, " or --to {second}")
}

fn gap_text(alloc: Global, second: u64) -> Result<String, AllocError>
    ensures { IfOk result (λ text. string_bytes text ≡ gap_words second) }
{
    let mut text = String::new(alloc);
    add_from(&mut text, second)?;
    add_to(&mut text, second)?;
    text.push_str(": the first jobs lie 10000 slots or more before the others")?;
    Ok(text)
}
