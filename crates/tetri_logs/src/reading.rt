// What a log says.
ghost use Rattle.std.specs.Prelude.{◌≡◌, ◌+◌, ◌++◌, ◌∷◌, [], IfOk, OnOk, length};
ghost use Rattle.tetri_base.specs.Lists.{count};
ghost use Rattle.tetri_logs.specs.Entry.{entries_in};
ghost use Rattle.tetri_logs.specs.Reading.{entries, facts_in, is_comment, jobs_in, left_in, no_facts, with_fact};

use crate::comments::Fact;
use crate::entry::{Entries, Entry, Format, LoggedJob, Reject};
use crate::walk::Walk;
use std::alloc::{AllocError, Global};

/// What the comments of a log say.
#[derive(Clone, Copy, Debug, PartialEq, Eq)]
pub struct Facts {
    pub nodes: Option<u32>,
    pub processors: Option<u32>,
    /// The second since 1970 with which the log's clock begins.
    pub start: u32,
}

/// What a log says: its jobs, the lines that bring none, what its comments say, and how many there are, blank lines and
/// headers among them.
#[derive(Drop)]
pub struct Log<'a> {
    pub jobs: Vec<LoggedJob<'a>>,
    pub left: Vec<Reject>,
    pub facts: Facts,
    pub comments: usize,
}

/// Nothing is said.
pub(crate) const NO_FACTS: Facts = Facts {
    nodes: None,
    processors: None,
    start: 0,
};

/// The facts with one more, in the place of an earlier one of its kind.
pub fn with_fact(facts: Facts, fact: Option<Fact>) -> Facts
    ensures { result ≡ with_fact facts fact }
{
    match fact {
        Some(Fact::Nodes(number)) => Facts {
            nodes: Some(number),
            ..facts
        },
        Some(Fact::Processors(number)) => Facts {
            processors: Some(number),
            ..facts
        },
        Some(Fact::Start(start)) => Facts { start, ..facts },
        None => facts,
    }
}

// With what one entry more says, but for the number of comments.
#[inline(always)]
fn add<'a>(log: &mut Log<'a>, found: Entry<'a>) -> Result<(), AllocError>
    ensures jobs { OnOk result (log.new.jobs.items ≡ log.old.jobs.items ++ jobs_in (found.entry ∷ [])) }
    ensures left { OnOk result (log.new.left.items ≡ log.old.left.items ++ left_in (found.entry ∷ [])) }
    ensures facts { OnOk result (log.new.facts ≡ facts_in log.old.facts (found.entry ∷ [])) }
    ensures comments { OnOk result (log.new.comments ≡ log.old.comments) }
{
    match found {
        Entry::Job(job) => log.jobs.push(job)?,
        Entry::Comment(fact) => log.facts = with_fact(log.facts, fact),
        Entry::Left(reject) => log.left.push(reject)?,
    }
    Ok(())
}

// With what these tasks say, but for the number of comments.
fn add_tasks<'a>(log: &mut Log<'a>, found: Vec<Entry<'a>>) -> Result<(), AllocError>
    ensures jobs { OnOk result (log.new.jobs.items ≡ log.old.jobs.items ++ jobs_in found.entry.items) }
    ensures left { OnOk result (log.new.left.items ≡ log.old.left.items ++ left_in found.entry.items) }
    ensures facts { OnOk result (log.new.facts ≡ facts_in log.old.facts found.entry.items) }
    ensures comments { OnOk result (log.new.comments ≡ log.old.comments) }
{
    for entry in found {
        add(log, entry)?;
    }
    Ok(())
}

// With what the entries of a line say, but for the number of comments.
fn add_all<'a>(log: &mut Log<'a>, found: Entries<'a>) -> Result<(), AllocError>
    ensures jobs { OnOk result (log.new.jobs.items ≡ log.old.jobs.items ++ jobs_in (entries_in found.entry)) }
    ensures left { OnOk result (log.new.left.items ≡ log.old.left.items ++ left_in (entries_in found.entry)) }
    ensures facts { OnOk result (log.new.facts ≡ facts_in log.old.facts (entries_in found.entry)) }
    ensures comments { OnOk result (log.new.comments ≡ log.old.comments) }
{
    match found {
        Entries::One(entry) => add(log, entry),
        Entries::Tasks(entries) => add_tasks(log, entries),
    }
}

fn is_comment(entry: &Entry) -> bool
    ensures { result ≡ is_comment entry.now }
{
    matches!(entry, Entry::Comment(_))
}

// How many of these are comments.
fn comments_in(entries: &[Entry]) -> usize
    ensures { result ≡ count is_comment entries.now }
{
    let mut count = 0;
    for entry in entries {
        if is_comment(entry) {
            count += 1;
        }
    }
    count
}

// The same of the entries of a line.
fn comments_of(entries: &Entries) -> usize
    ensures { result ≡ count is_comment (entries_in entries.now) }
{
    match entries {
        Entries::One(entry) if is_comment(entry) => 1,
        Entries::One(_) => 0,
        Entries::Tasks(entries) => comments_in(entries),
    }
}

// What the lines of a log say. Its only error is want of memory.
fn read_lines<'a>(
    alloc: Global,
    mixed: bool,
    format: Format,
    log: &'a [u8],
) -> Result<Log<'a>, AllocError>
    ensures jobs { IfOk result (λ l. l.jobs.items ≡ jobs_in (entries mixed format log.now)) }
    ensures left { IfOk result (λ l. l.left.items ≡ left_in (entries mixed format log.now)) }
    ensures facts { IfOk result (λ l. l.facts ≡ facts_in no_facts (entries mixed format log.now)) }
    ensures comments { IfOk result (λ l. l.comments ≡ count is_comment (entries mixed format log.now)) }
{
    let mut read = Log {
        jobs: Vec::new(alloc),
        left: Vec::new(alloc),
        facts: NO_FACTS,
        comments: 0,
    };
    let mut walk = Walk::new(alloc, mixed, format, log);
    while let Some(found) = walk.next(alloc)? {
        read.comments += comments_of(&found);
        add_all(&mut read, found)?;
    }
    Ok(read)
}

/// What a log says; the set of each job too, where nodes differ. Its only error is want of memory.
pub fn read_log<'a>(
    alloc: Global,
    mixed: bool,
    format: Format,
    log: &'a [u8],
) -> Result<Log<'a>, AllocError>
    ensures jobs { IfOk result (λ l. l.jobs.items ≡ jobs_in (entries mixed format log.now)) }
    ensures left { IfOk result (λ l. l.left.items ≡ left_in (entries mixed format log.now)) }
    ensures facts { IfOk result (λ l. l.facts ≡ facts_in no_facts (entries mixed format log.now)) }
    ensures comments { IfOk result (λ l. l.comments ≡ count is_comment (entries mixed format log.now)) }

    // Each line is a job, a comment or left out, but for one with tasks of an array, of which each is a job or left out.
    ensures whole { IfOk result (λ l. length l.jobs.items + length l.left.items + l.comments ≡ length (entries mixed format log.now)) }
{
    read_lines(alloc, mixed, format, log)
}
