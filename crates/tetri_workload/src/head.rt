// What stands before the first job of a log.
ghost use Rattle.std.specs.Prelude.{◌≡◌, ◌+◌, ◌<◌, ◌≤◌, ◌^◌, ◌++◌, [], IfOk, IfSome, List, MatchOption};
ghost use Rattle.tetri_base.specs.Lists.{count};
ghost use Rattle.tetri_logs.specs.Entry.{entries_in};
ghost use Rattle.tetri_logs.specs.Reading.{is_comment};
ghost use Rattle.tetri_logs.specs.declared.entry.Entry.{Entry};
ghost use Rattle.tetri_workload.specs.Head.{IsAdded, IsHead, entries_with};

use std::alloc::{AllocError, Global};
use tetri_logs::{Entries, Entry, Facts, Log, Walk, with_fact};

/// What stands before the first job of a log.
#[derive(Drop)]
pub(crate) struct Head<'a> {
    /// Without jobs.
    pub(crate) log: Log<'a>,
    /// The line of the first job, if there is one.
    pub(crate) first: Option<Entries<'a>>,
}

// Nothing is said.
fn nothing_said<'a>(alloc: Global) -> Log<'a>
    ensures head { (es : List Entry) → IsHead es es result }
    ensures none { result.comments ≡ 0 }
{
    Log {
        jobs: Vec::new(alloc),
        left: Vec::new(alloc),
        facts: Facts {
            nodes: None,
            processors: None,
            start: 0,
        },
        comments: 0,
    }
}

// With what a line says that has no job. Any other line is given back.
fn add<'a>(log: &mut Log<'a>, found: Entries<'a>) -> Result<Option<Entries<'a>>, AllocError>
    requires few { log.old.comments + 1 < 2 ^ 64 }
    ensures { IfOk result (λ other. MatchOption other (IsAdded (entries_in found.entry) log.old log.new) (λ line. (line ≡ found.entry) × (log.new ≡ log.old))) }
{
    match found {
        Entries::One(Entry::Comment(fact)) => {
            log.facts = with_fact(log.facts, fact);
            log.comments += 1;
            Ok(None)
        }
        Entries::One(Entry::Left(reject)) => {
            log.left.push(reject)?;
            Ok(None)
        }
        found => Ok(Some(found)),
    }
}

/// What stands before the first job of a log. Its only error is want of memory.
pub(crate) fn head_of<'a>(alloc: Global, walk: &mut Walk<'a>) -> Result<Head<'a>, AllocError>
    requires few { walk.old.bytes < 2 ^ 64 }
    ensures head { IfOk result (λ head. IsHead walk.old.entries (entries_with head.first walk.new.entries) head.log) }
    ensures one { IfOk result (λ head. IfSome head.first (λ found. count is_comment (entries_in found) ≤ 1)) }
    ensures few { IfOk result (λ head. IfSome head.first (λ _. head.log.comments + walk.new.bytes < walk.old.bytes)) }
{
    let mut log = nothing_said(alloc);
    while let Some(found) = walk.next(alloc)? {
        if let Some(first) = add(&mut log, found)? {
            return Ok(Head {
                log,
                first: Some(first),
            });
        }
    }
    Ok(Head { log, first: None })
}
