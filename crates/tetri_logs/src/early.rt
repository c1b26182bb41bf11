// Which jobs of a log were submitted first, by a look at some of its places and then at each line. It is a guess: no clause says which.
ghost use Rattle.std.specs.Prelude.{◌≡◌, ◌+◌, ◌≤◌, ◌∷◌, [], IfOk, IfSome, OnOk, length};
ghost use Rattle.tetri_logs.specs.Ahead.{AreAhead, AreAllAhead, IsTextOf};
ghost use Rattle.tetri_logs.specs.Entry.{entries_in};
ghost use Rattle.tetri_logs.specs.Options.{AreGood};
ghost use Rattle.tetri_logs.specs.declared.entry.Entry.TheVariants.{Job};
ghost use Rattle.tetri_logs.specs.declared.entry.LoggedJob.{LoggedJob};

use crate::account::Account;
use crate::ahead::Ahead;
use crate::entry::{Entries, Entry, LoggedJob, line_entries};
use crate::layout::Layout;
use crate::lines::next_line;
use crate::options::Settings;
use crate::origin::begun_with;
use crate::placing::has_place;
use crate::scan::next_place;
use crate::seats::Seats;
use crate::walk::Walk;
use crate::words::{count_in, is_separator};
use std::alloc::{AllocError, Global};

/// Jobs of a log that were submitted before a second of its clock, in the order of the log.
#[derive(Drop)]
pub struct Early<'a> {
    pub jobs: Vec<LoggedJob<'a>>,
    pub before: u32,
    /// Their lines.
    pub ahead: Ahead<'a>,
}

// In so many places a log is looked at.
const PLACES: usize = 256;

// As many bytes are looked at in each.
const BYTES: usize = 4_096;

// A log of fewer bytes is not looked at.
const SHORT: usize = 4_194_304;

// The jobs that a trace has at most.
const MOST_JOBS: u64 = 100_000;

// Jobs that come late by less than this part of the time of a log still seem to come in order.
const PART: u32 = 32;

// A job in one of the places, and what stands in its column of submission.
#[derive(Clone, Copy)]
struct Sample<'a> {
    account: Account,
    text: &'a [u8],
}

// The jobs in the places of a log, how many bytes their lines take, and the earliest second of submission in each place that has a job.
#[derive(Drop)]
struct Samples<'a> {
    jobs: Vec<Sample<'a>>,
    bytes: u64,
    earliest: Vec<u32>,
}

// A second of submission, and the minute in which it lies as a line says it.
#[derive(Clone, Copy)]
struct Bound {
    second: u32,
    // Eight bytes each, as `2024-05-` and `01T12:34`.
    month: u64,
    minute: u64,
}

// Eight bytes of a text from one place on as one number, in which the first counts most.
#[inline(always)]
fn eight(text: &[u8], at: usize) -> u64
    requires { at + 8 ≤ length text.now }
{
    u64::from_be_bytes([
        text[at],
        text[at + 1],
        text[at + 2],
        text[at + 3],
        text[at + 4],
        text[at + 5],
        text[at + 6],
        text[at + 7],
    ])
}

impl Bound {
    // With the beginning of the minute of a sample, where lines say times.
    fn of(layout: &Layout, sample: &Sample<'_>) -> Bound {
        let submit = sample.account.submit;
        match layout {
            Layout::Table(_) if sample.text.len() == 19 => Bound {
                second: submit - submit % 60,
                month: eight(sample.text, 0),
                minute: eight(sample.text, 8),
            },
            _ => Bound {
                second: submit,
                month: 0,
                minute: 0,
            },
        }
    }

    // Whether what stands in a column of submission says an earlier second.
    #[inline(always)]
    fn is_behind(&self, layout: &Layout, text: &[u8]) -> bool {
        match layout {
            Layout::Words => match count_in(text) {
                Some(second) => second < self.second,
                None => false,
            },
            Layout::Table(_) if text.len() == 19 => {
                let month = eight(text, 0);
                month < self.month || (month == self.month && eight(text, 8) < self.minute)
            }
            Layout::Table(_) => false,
        }
    }

    // Whether a line seems to tell of a job that was submitted before.
    #[inline(always)]
    fn is_behind_line(&self, layout: &Layout, line: &[u8]) -> bool {
        self.is_behind(layout, submit_text(layout, line))
    }
}

// The second word of a line.
#[inline(always)]
fn second_word(line: &[u8]) -> &[u8] {
    let mut begin = 0;
    let mut behind_first = false;
    for (i, b) in line.iter().enumerate() {
        if is_separator(*b) {
            if begin < i {
                if behind_first {
                    return &line[begin..i];
                }
                behind_first = true;
            }
            begin = i + 1;
        }
    }
    b""
}

// What stands in the column that begins at a place, which most often is a time, of 19 bytes.
#[inline(always)]
#[tactic(auto, using(crate::proofs::ScanLemmas::place_inside))]
fn column_at(line: &[u8], begin: usize) -> &[u8]
    requires { begin ≤ length line.now }
{
    if 19 < line.len() - begin && line[begin + 19] == b'|' {
        return &line[begin..begin + 19];
    }
    &line[begin..next_place(line, begin, b'|')]
}

// What stands in a column, counted from 1.
#[inline(always)]
#[tactic(auto, using(crate::proofs::ScanLemmas::place_inside))]
fn column_of(line: &[u8], column: usize) -> &[u8] {
    let mut begin = 0;
    for _ in 1..column {
        let end = next_place(line, begin, b'|');
        if end == line.len() {
            return b"";
        }
        begin = end + 1;
    }
    column_at(line, begin)
}

// What stands in a line's column of submission.
#[inline(always)]
fn submit_text<'a>(layout: &Layout, line: &'a [u8]) -> &'a [u8] {
    match layout {
        Layout::Words => second_word(line),
        Layout::Table(header) => column_of(line, header.submit),
    }
}

// Adds the samples of one place, whose first line may begin anywhere.
fn add_samples<'a>(
    alloc: Global,
    samples: &mut Samples<'a>,
    walk: &Walk<'a>,
    place: &'a [u8],
) -> Result<(), AllocError> {
    let Some((_, lines)) = next_line(place) else {
        return Ok(());
    };
    samples.bytes = samples.bytes.saturating_add(lines.len() as u64);
    let mut earliest = None;
    let mut walk = walk.over(alloc, lines);
    let mut rest = lines;
    while let Some((line, behind)) = next_line(rest) {
        rest = behind;
        if let Some(Entries::One(Entry::Job(job))) = walk.next(alloc)? {
            let submit = job.account.submit;
            earliest = Some(submit.min(earliest.unwrap_or(submit)));
            samples.jobs.push(Sample {
                account: job.account,
                text: submit_text(walk.layout(), line),
            })?;
        }
    }
    if let Some(second) = earliest {
        samples.earliest.push(second)?;
    }
    Ok(())
}

// The jobs in some places of a log.
fn samples_of<'a>(
    alloc: Global,
    walk: &Walk<'a>,
    log: &'a [u8],
) -> Result<Samples<'a>, AllocError> {
    let mut samples = Samples {
        jobs: Vec::new(alloc),
        bytes: 0,
        earliest: Vec::new(alloc),
    };
    let step = log.len().saturating_sub(BYTES) / (PLACES - 1);
    for i in 0..PLACES {
        let begin = step.saturating_mul(i).min(log.len());
        let end = begin.saturating_add(BYTES).min(log.len());
        add_samples(alloc, &mut samples, walk, &log[begin..end])?;
    }
    Ok(samples)
}

// Whether no place is much earlier than one before it.
fn seem_in_order(earliest: &[u32]) -> bool {
    let first = earliest.iter().copied().min().unwrap_or(0);
    let last = earliest.iter().copied().max().unwrap_or(0);
    let slack = last.saturating_sub(first) / PART;
    let mut highest = 0;
    for second in earliest {
        if second.saturating_add(slack) < highest {
            return false;
        }
        highest = highest.max(*second);
    }
    true
}

// With slot 0 at the first of these that may begin.
fn begun_by(draft: &Settings, samples: &[Sample<'_>]) -> Option<Settings>
    requires { AreGood draft.now }
    ensures { IfSome result AreGood }
{
    for sample in samples {
        if let Some(settings) = begun_with(draft, sample.account) {
            return Some(settings);
        }
    }
    None
}

// The sample behind about as many jobs with a place as a trace takes, and so many more that chance seldom makes them too few: four times as much as the number of such samples
// deviates. Or the last one with a place.
fn bounding<'a>(settings: &Settings, samples: &Samples<'a>, length: usize) -> Option<Sample<'a>>
    requires { AreGood settings.now }
{
    let most = u64::from(settings.most).min(MOST_JOBS);
    let expected = most.saturating_mul(samples.bytes) / (length as u64).max(1);
    let wanted = expected.saturating_add(expected.isqrt().saturating_add(1).saturating_mul(4));
    let mut placed = 0u64;
    let mut last = None;
    for sample in &samples.jobs {
        if has_place(settings, &sample.account) {
            last = Some(*sample);
            if wanted < placed {
                return last;
            }
            placed = placed.saturating_add(1);
        }
    }
    last
}

// Before which second those jobs come that a trace takes. `None` where all seem to come in order.
fn bound_of<'a>(
    alloc: Global,
    draft: &Settings,
    walk: &Walk<'a>,
    log: &'a [u8],
) -> Result<Option<Bound>, AllocError>
    requires { AreGood draft.now }
{
    let mut samples = samples_of(alloc, walk, log)?;
    if seem_in_order(&samples.earliest) {
        return Ok(None);
    }
    samples.jobs.sort_by_key(|sample| sample.account.submit)?;
    let Some(settings) = begun_by(draft, &samples.jobs) else {
        return Ok(None);
    };
    match bounding(&settings, &samples, log.len()) {
        Some(sample) => Ok(Some(Bound::of(walk.layout(), &sample))),
        None => Ok(None),
    }
}

// Adds a job that was submitted before, and the text of its line.
fn add_entry<'a>(early: &mut Early<'a>, text: &'a [u8], found: Entry<'a>) -> Result<(), AllocError>
    requires ahead { AreAllAhead early.old.ahead early.old.jobs.items }
    requires text { (job : LoggedJob) → found ≡ Job job → IsTextOf early.old.ahead.layout text.now job }
    ensures ahead { OnOk result (AreAllAhead early.new.ahead early.new.jobs.items) }
    ensures layout { OnOk result (early.new.ahead.layout ≡ early.old.ahead.layout) }
{
    if let Entry::Job(job) = found
        && job.account.submit < early.before
    {
        early.jobs.push(job)?;
        early.ahead.push(text)?;
    }
    Ok(())
}

// Adds those of a line.
fn add_entries<'a>(
    early: &mut Early<'a>,
    text: &'a [u8],
    found: Entries<'a>,
) -> Result<(), AllocError>
    requires ahead { AreAllAhead early.old.ahead early.old.jobs.items }
    requires text { (job : LoggedJob) → entries_in found ≡ Job job ∷ [] → IsTextOf early.old.ahead.layout text.now job }
    ensures ahead { OnOk result (AreAllAhead early.new.ahead early.new.jobs.items) }
    ensures layout { OnOk result (early.new.ahead.layout ≡ early.old.ahead.layout) }
{
    match found {
        Entries::One(entry) => add_entry(early, text, entry),
        Entries::Tasks(entries) => {
            for entry in entries {
                add_entry(early, b"", entry)?;
            }
            Ok(())
        }
    }
}

// Adds those of a log, as far as its lines seem to tell of them.
fn add_lines<'a>(
    alloc: Global,
    early: &mut Early<'a>,
    bound: &Bound,
    mixed: bool,
    log: &'a [u8],
) -> Result<(), AllocError>
    requires ahead { AreAllAhead early.old.ahead early.old.jobs.items }
    ensures ahead { OnOk result (AreAllAhead early.new.ahead early.new.jobs.items) }
{
    let mut layout = early.ahead.layout();
    let mut seats = Seats::new(alloc, mixed);
    let mut words = Vec::new(alloc);
    let mut number = 0;
    let mut rest = log;
    while let Some((line, behind)) = next_line(rest) {
        rest = behind;
        number += 1;
        if bound.is_behind_line(&layout, line) {
            let text = early.ahead.kept(mixed, &layout, line);
            let found = line_entries(alloc, &mut seats, &mut layout, number, &mut words, line)?;
            add_entries(early, text, found)?;
        }
    }
    Ok(())
}

/// Where the jobs of a log do not seem to come in order of submission, those that a trace takes, as far as a guess goes, with all others that
/// were submitted before the same second; else none. The walk has read what stands before the first job of the log.
pub fn early_jobs<'a>(
    alloc: Global,
    draft: &Settings,
    walk: &Walk<'a>,
    log: &'a [u8],
) -> Result<Early<'a>, AllocError>
    requires { AreGood draft.now }
    ensures ahead { IfOk result (λ e. AreAhead e.ahead e.jobs.items) }
{
    let mut early = Early {
        jobs: Vec::new(alloc),
        before: 0,
        ahead: Ahead::new(alloc, *walk.layout()),
    };
    if log.len() < SHORT {
        return Ok(early);
    }
    let Some(bound) = bound_of(alloc, draft, walk, log)? else {
        return Ok(early);
    };
    early.before = bound.second;
    add_lines(alloc, &mut early, &bound, walk.are_mixed(), log)?;
    Ok(early)
}
