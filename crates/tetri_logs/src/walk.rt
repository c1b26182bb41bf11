// The lines of a log, one after another.
ghost use Rattle.std.specs.Prelude.{◌≡◌, ◌≤◌, ◌<◌, ◌++◌, ◌∷◌, [], IfOk, IfSome, MatchOption, Some, false, slice_get, true};
ghost use Rattle.tetri_base.specs.Lists.{count};
ghost use Rattle.tetri_logs.specs.Ahead.{AreAhead};
ghost use Rattle.tetri_logs.specs.Entry.{entries_in};
ghost use Rattle.tetri_logs.specs.Reading.{is_comment};
ghost use Rattle.tetri_logs.specs.Walk.{unread};
ghost use Rattle.tetri_logs.specs.declared.entry.Entry.TheVariants.{Job};
ghost use Rattle.tetri_logs.specs.declared.entry.LoggedJob.{LoggedJob};

use crate::ahead::Ahead;
use crate::entry::{Entries, Format, LoggedJob, line_entries};
use crate::layout::{Layout, first_layout};
use crate::lines::next_line;
use crate::seats::Seats;
use crate::words::is_same;
use std::alloc::{AllocError, Global};
use std::marker::Model;

/// The lines of a log that are not read yet.
#[derive(Drop)]
pub struct Walk<'a> {
    rest: &'a [u8],
    // Of the line that was read last.
    number: usize,
    layout: Layout,
    seats: Seats<'a>,
    // Of that line too; their memory serves the next one.
    words: Vec<&'a [u8]>,
}

impl<'a> Model for Walk<'a> {
    ghost use Rattle.std.specs.Prelude.{◌+◌, ◌<◌, ◌^◌, length};
    ghost use Rattle.tetri_logs.specs.Walk.{Unread, unread_from};

    ghost Value = { Unread };

    ghost view = { λ w. unread_from w.seats w.layout w.number w.rest.now };

    ghost invariant = { λ w. w.number + length w.rest.now < 2 ^ 64 };
}

impl<'a> Walk<'a> {
    /// All lines of a log, where nodes differ or not.
    pub fn new(alloc: Global, mixed: bool, format: Format, log: &'a [u8]) -> Walk<'a>
        ensures { result ≡ unread mixed format log.now }
    {
        Walk {
            rest: log,
            number: 0,
            layout: first_layout(format),
            seats: Seats::new(alloc, mixed),
            words: Vec::new(alloc),
        }
    }

    /// Other lines, laid out as those behind the line that was read last, where nodes differ or not as there.
    pub(crate) fn over(&self, alloc: Global, lines: &'a [u8]) -> Walk<'a> {
        Walk {
            rest: lines,
            number: 0,
            layout: self.layout,
            seats: Seats::new(alloc, self.seats.are_mixed()),
            words: Vec::new(alloc),
        }
    }

    /// How the lines are laid out that are not read yet.
    pub(crate) fn layout(&self) -> &Layout {
        &self.layout
    }

    /// Whether nodes differ.
    pub(crate) fn are_mixed(&self) -> bool {
        self.seats.are_mixed()
    }

    /// Passes over the next line where it is that of the job at a place, as it was read ahead, and says whether it does. It never does where nodes differ.
    #[inline(always)]
    #[tactic(auto, using(crate::proofs::AheadLemmas::line_passed))]
    pub fn pass(&mut self, ahead: &Ahead<'_>, jobs: &[LoggedJob<'_>], place: usize) -> bool
        requires { AreAhead ahead.now jobs.now }
        ensures passed { result ≡ true → (job : LoggedJob) × (slice_get jobs.now place ≡ Some job) × (self.old.entries ≡ Job job ∷ self.new.entries) }
        ensures shorter { result ≡ true → self.new.bytes < self.old.bytes }
        ensures stays { result ≡ false → self.new ≡ self.old }
    {
        let Some(job) = jobs.get(place) else {
            return false;
        };
        if job.line != self.number.saturating_add(1) || self.seats.are_mixed() {
            return false;
        }
        let Some(known) = ahead.line_at(jobs, place, &self.layout) else {
            return false;
        };
        let Some((line, rest)) = next_line(self.rest) else {
            return false;
        };
        if !is_same(line, known) {
            return false;
        }
        self.rest = rest;
        self.number = job.line;
        true
    }

    /// What the next line is. `None` exactly where there is none. Its only error is want of memory.
    #[inline(never)]
    pub fn next(&mut self, alloc: Global) -> Result<Option<Entries<'a>>, AllocError>
        ensures entries { IfOk result (λ found. MatchOption found (self.old.entries ≡ []) (λ es. self.old.entries ≡ entries_in es ++ self.new.entries)) }
        ensures few { IfOk result (λ found. IfSome found (λ es. count is_comment (entries_in es) ≤ 1)) }
        ensures shorter { IfOk result (λ found. IfSome found (λ _. self.new.bytes < self.old.bytes)) }
    {
        let Some((line, behind)) = next_line(self.rest) else {
            return Ok(None);
        };
        self.rest = behind;
        self.number += 1;
        let entries = line_entries(
            alloc,
            &mut self.seats,
            &mut self.layout,
            self.number,
            &mut self.words,
            line,
        )?;
        Ok(Some(entries))
    }
}
