// From a log to a trace.
ghost use Rattle.std.specs.Prelude.{◌≡◌, ◌+◌, ◌<◌, ◌≤◌, ◌^◌, ◌++◌, All, Contains, IfErr, IfOk, IfSome, List, OnOk, Some, ℕ};
ghost use Rattle.tetri_base.specs.Lists.{count};
ghost use Rattle.tetri_logs.specs.Options.{AreGood, settings_of};
ghost use Rattle.tetri_logs.specs.Ahead.{AreAhead};
ghost use Rattle.tetri_logs.specs.Entry.{entries_in};
ghost use Rattle.tetri_logs.specs.Origin.{begun_with};
ghost use Rattle.tetri_logs.specs.Reading.{AreTimedByLine, entries, is_comment, jobs_in};
ghost use Rattle.tetri_logs.specs.declared.entry.LoggedJob.{LoggedJob};
ghost use Rattle.tetri_logs.specs.declared.entry.Entry.{Entry};
ghost use Rattle.tetri_logs.specs.declared.entry.Format.{Format};
ghost use Rattle.tetri_logs.specs.declared.options.Options.{Options};
ghost use Rattle.tetri_workload.specs.Head.{IsHead, IsSaidBy};
ghost use Rattle.tetri_workload.specs.Import.{IsDrawn, IsImport, IsImportOn, IsRefused};
ghost use Rattle.tetri_workload.specs.Kinds.{are_mixed, fitted};
ghost use Rattle.tetri_workload.specs.Known.{AreKnown};
ghost use Rattle.tetri_workload.specs.Saying.{IsAsked};
ghost use Rattle.tetri_workload.specs.Taking.{so_far};

use crate::confirming::is_read_as;
use crate::head::{Head, head_of};
use crate::intake::Halt;
use crate::kinds::{Kinds, are_mixed, fitted};
use crate::ordering::{by_line, by_slot, by_submission};
use crate::reading::{FIRST_HELD, Reading};
use crate::taking::{Taken, take_all};
use crate::text::trace_text;
use std::alloc::{AllocError, Global};
use std::mem;
use tetri_cluster::NodeText;
use tetri_logs::{
    Early, Entries, Format, Log, LoggedJob, OptionFault, Options, Reject, Settings, Walk, begun,
    begun_with, early_fault, early_jobs, gap_of, read_log, settings_of,
};

/// Why a log is not imported.
#[derive(Clone, Copy, Debug, PartialEq, Eq)]
pub enum ImportFault {
    /// What is asked for cannot be.
    Options(OptionFault),
    /// The first jobs lie as long before the others as a trace is long. The first of these was submitted at this second since 1970.
    Apart(u64),
    /// The trace that was made is not read as it should be.
    Unlike,
    NoMemory,
}

impl From<AllocError> for ImportFault {
    ghost use Rattle.std.specs.Prelude.{◌≡◌};
    ghost use Rattle.tetri_workload.specs.declared.importing.ImportFault.TheVariants as fault;

    ghost from_gives = { λ _ e. e ≡ fault.NoMemory };

    fn from(_: AllocError) -> Self {
        ImportFault::NoMemory
    }
}

impl From<OptionFault> for ImportFault {
    ghost use Rattle.std.specs.Prelude.{◌≡◌};
    ghost use Rattle.tetri_workload.specs.declared.importing.ImportFault.TheVariants as fault;

    ghost from_gives = { λ e f. f ≡ fault.Options e };

    fn from(fault: OptionFault) -> Self {
        ImportFault::Options(fault)
    }
}

/// A trace that was made from a log.
#[derive(Drop)]
pub struct Imported {
    pub trace: String,
    /// How many jobs were taken.
    pub jobs: usize,
    /// How many of them take a whole node for fewer processors than it has.
    pub rounded: usize,
    /// Why other lines, or tasks of a line, brought none, in the order of the lines.
    pub left: Vec<Reject>,
    /// How many lines are comments, among them blank ones and headers.
    pub comments: usize,
    /// Whether nodes differ.
    pub mixed: bool,
}

/// What is taken of a log, and what else it says.
#[derive(Drop)]
pub struct Drawn {
    pub settings: Settings,
    pub taken: Taken,
    pub left: Vec<Reject>,
    pub comments: usize,
}

// Both, one behind the other.
fn together(first: Vec<Reject>, second: Vec<Reject>) -> Result<Vec<Reject>, AllocError>
    ensures { IfOk result (λ all. all.items ≡ first.items ++ second.items) }
{
    if first.is_empty() {
        return Ok(second);
    }
    let mut all = first;
    all.extend_from_slice(&second)?;
    Ok(all)
}

// What is taken of a log by the list of its jobs, which are put in order of submission.
fn draw_listed(
    alloc: Global,
    kinds: &mut Kinds,
    options: &Options,
    nodes: &[NodeText],
    log: Log<'_>,
) -> Result<Drawn, ImportFault>
    requires { AreKnown nodes.now kinds.old }
    ensures known { OnOk result (AreKnown nodes.now kinds.new) }
    ensures drawn { IfOk result (λ drawn. (es : List Entry) → IsSaidBy es log.entry → IsDrawn es nodes.now options.now drawn) }
    ensures refused { IfErr result (λ fault. (es : List Entry) → IsSaidBy es log.entry → IsRefused es nodes.now options.now fault) }
{
    let draft = settings_of(options, log.facts)?;
    let mut jobs = kinds.settle(alloc, nodes, log.jobs)?;
    by_submission(&mut jobs)?;
    let settings = begun(&draft, &jobs);
    match gap_of(options, &settings, &jobs) {
        None => {}
        Some(second) => return Err(ImportFault::Apart(second)),
    }
    let taken = take_all(alloc, &settings, &jobs)?;
    Ok(Drawn {
        settings,
        taken,
        left: log.left,
        comments: log.comments,
    })
}

// The same of a log that is read for it.
fn draw_sorted(
    alloc: Global,
    kinds: &mut Kinds,
    format: Format,
    options: &Options,
    nodes: &[NodeText],
    log: &[u8],
) -> Result<Drawn, ImportFault>
    requires { AreKnown nodes.now kinds.old }
    ensures known { OnOk result (AreKnown nodes.now kinds.new) }
    ensures drawn { IfOk result (IsDrawn (entries (are_mixed nodes.now) format log.now) nodes.now options.now) }
    ensures refused { IfErr result (IsRefused (entries (are_mixed nodes.now) format log.now) nodes.now options.now) }
{
    let log = read_log(alloc, are_mixed(nodes), format, log)?;
    draw_listed(alloc, kinds, options, nodes, log)
}

// With slot 0 at the first of these jobs, in order of submission, that may begin.
fn begun_by(draft: &Settings, jobs: &[LoggedJob<'_>]) -> Option<Settings>
    requires { AreGood draft.now }
    ensures begun { IfSome result (λ s. (job : LoggedJob) × Contains jobs.now job × (begun_with draft.now job.account ≡ Some s)) }
    ensures good { IfSome result AreGood }
    ensures small { IfSome result (λ s. s.origin < 2 ^ 33) }
{
    let mut first = None;
    let mut submit = u64::MAX;
    for job in jobs {
        if u64::from(job.account.submit) < submit
            && let Some(settings) = begun_with(draft, job.account)
        {
            first = Some(settings);
            submit = u64::from(job.account.submit);
        }
    }
    first
}

// What is drawn of a log by what was read of it.
fn drawn_by(settings: Settings, read: Reading<'_>) -> Drawn
    ensures settings { result.settings ≡ settings }
    ensures taken { result.taken ≡ read.entry.intake.taken }
    ensures left { result.left ≡ read.entry.left }
    ensures comments { result.comments ≡ read.entry.comments }
{
    let intake = read.intake;
    Drawn {
        settings,
        taken: intake.taken,
        left: read.left,
        comments: read.comments,
    }
}

// What is taken of a log whose jobs are taken as they come, where its first lines and that of its first job are read.
fn draw_in_turn<'a>(
    alloc: Global,
    kinds: &mut Kinds,
    options: &Options,
    nodes: &[NodeText],
    draft: &Settings,
    head: Log<'a>,
    first: Entries<'a>,
    walk: &mut Walk<'a>,
) -> Result<Drawn, Halt>
    requires draft { settings_of options.now head.facts ≡ Ok draft.now }
    requires good { AreGood draft.now }
    requires known { AreKnown nodes.now kinds.old }
    requires few { head.comments + walk.old.bytes + 1 < 2 ^ 64 }
    requires one { count is_comment (entries_in first) ≤ 1 }
    ensures known { OnOk result (AreKnown nodes.now kinds.new) }
    ensures drawn { IfOk result (λ drawn. (es : List Entry) → AreTimedByLine (jobs_in es) → IsHead es (entries_in first.entry ++ walk.old.entries) head.entry → IsDrawn es nodes.now options.now drawn) }
{
    let mut read = Reading::new(alloc, options, head)?;
    read.add(alloc, kinds, draft, nodes, false, first)?;
    let ended = read.add_lines(alloc, kinds, draft, nodes, false, FIRST_HELD, walk)?;
    let Some(settings) = begun_by(draft, &read.intake.waiting.held) else {
        return Err(Halt::OutOfTurn);
    };
    read.finish(alloc, kinds, &settings, nodes, walk, ended)?;
    Ok(drawn_by(settings, read))
}

// The same where these jobs come first.
fn draw_early<'a>(
    alloc: Global,
    kinds: &mut Kinds,
    options: &Options,
    nodes: &[NodeText],
    draft: &Settings,
    early: Early<'a>,
    head: Log<'a>,
    first: Entries<'a>,
    walk: &mut Walk<'a>,
) -> Result<Drawn, Halt>
    requires draft { settings_of options.now head.facts ≡ Ok draft.now }
    requires good { AreGood draft.now }
    requires known { AreKnown nodes.now kinds.old }
    requires few { head.comments + walk.old.bytes + 1 < 2 ^ 64 }
    requires one { count is_comment (entries_in first) ≤ 1 }
    requires ahead { AreAhead early.ahead early.jobs.items }
    ensures known { OnOk result (AreKnown nodes.now kinds.new) }
    ensures drawn { IfOk result (λ drawn. (es : List Entry) → AreTimedByLine (jobs_in es) → IsHead es (entries_in first.entry ++ walk.old.entries) head.entry → IsDrawn es nodes.now options.now drawn) }
{
    let Early {
        jobs,
        before,
        ahead,
    } = early;
    let jobs = kinds.settle(alloc, nodes, jobs)?;
    let Some(settings) = begun_by(draft, &jobs) else {
        return Err(Halt::OutOfTurn);
    };
    let early = Early {
        jobs,
        before,
        ahead,
    };
    let mut read = Reading::with_early(alloc, options, &settings, early, head)?;
    read.add(alloc, kinds, &settings, nodes, true, first)?;
    read.finish(alloc, kinds, &settings, nodes, walk, false)?;
    Ok(drawn_by(settings, read))
}

// The same, where it is guessed which jobs come first.
fn draw_by_lines<'a>(
    alloc: Global,
    kinds: &mut Kinds,
    options: &Options,
    nodes: &[NodeText],
    log: &'a [u8],
    head: Log<'a>,
    first: Entries<'a>,
    walk: &mut Walk<'a>,
) -> Result<Drawn, Halt>
    requires known { AreKnown nodes.now kinds.old }
    requires few { head.comments + walk.old.bytes + 1 < 2 ^ 64 }
    requires one { count is_comment (entries_in first) ≤ 1 }
    ensures known { OnOk result (AreKnown nodes.now kinds.new) }
    ensures drawn { IfOk result (λ drawn. (es : List Entry) → AreTimedByLine (jobs_in es) → IsHead es (entries_in first.entry ++ walk.old.entries) head.entry → IsDrawn es nodes.now options.now drawn) }
{
    let Ok(draft) = settings_of(options, head.facts) else {
        return Err(Halt::OutOfTurn);
    };
    let early = early_jobs(alloc, &draft, walk, log)?;
    if early.jobs.is_empty() {
        return draw_in_turn(alloc, kinds, options, nodes, &draft, head, first, walk);
    }
    draw_early(
        alloc, kinds, options, nodes, &draft, early, head, first, walk,
    )
}

// What is taken of a log.
fn draw(
    alloc: Global,
    kinds: &mut Kinds,
    format: Format,
    options: &Options,
    nodes: &[NodeText],
    log: &[u8],
) -> Result<Drawn, ImportFault>
    requires { AreKnown nodes.now kinds.old }
    ensures known { OnOk result (AreKnown nodes.now kinds.new) }
    ensures drawn { IfOk result (IsDrawn (entries (are_mixed nodes.now) format log.now) nodes.now options.now) }
    ensures refused { IfErr result (IsRefused (entries (are_mixed nodes.now) format log.now) nodes.now options.now) }
{
    let mut walk = Walk::new(alloc, are_mixed(nodes), format, log);
    let Head { log: head, first } = head_of(alloc, &mut walk)?;
    let Some(first) = first else {
        return draw_listed(alloc, kinds, options, nodes, head);
    };
    match draw_by_lines(alloc, kinds, options, nodes, log, head, first, &mut walk) {
        Ok(drawn) => Ok(drawn),
        Err(Halt::NoMemory) => Err(ImportFault::NoMemory),
        Err(Halt::OutOfTurn) => {
            *kinds = Kinds::new(alloc);
            draw_sorted(alloc, kinds, format, options, nodes, log)
        }
    }
}

// What is told of what is taken of a log: its trace, which is read back, and what was left out.
fn told(
    alloc: Global,
    kinds: &mut Kinds,
    nodes: &[NodeText],
    drawn: &mut Drawn,
) -> Result<Imported, ImportFault>
    requires good { AreGood drawn.old.settings }
    requires known { AreKnown nodes.now kinds.old }
    requires asked { All (λ u. IsAsked u.demand) (so_far drawn.old.taken).jobs }
    ensures trace { IfOk result (λ i. (format : Format) → (o : Options) → (log : List ℕ)
        → IsDrawn (entries (are_mixed nodes.now) format log) nodes.now o drawn.old → IsImportOn format o nodes.now log i) }
    ensures refused { IfErr result (λ fault. (es : List Entry) → (o : Options)
        → IsDrawn es nodes.now o drawn.old → IsRefused es nodes.now o fault) }
{
    by_slot(&mut drawn.taken.events)?;
    let trace = trace_text(alloc, &drawn.settings, nodes, &drawn.taken)?;
    let alike = is_read_as(alloc, kinds, &drawn.settings, nodes, &drawn.taken, &trace)?;
    if !alike {
        return Err(ImportFault::Unlike);
    }
    let first = mem::replace(&mut drawn.left, Vec::new(alloc));
    let second = mem::replace(&mut drawn.taken.left, Vec::new(alloc));
    let mut left = together(first, second)?;
    by_line(&mut left)?;
    let jobs = drawn.taken.jobs.len();
    let rounded = drawn.taken.rounded.as_slice().len();
    Ok(Imported {
        trace,
        jobs,
        rounded,
        left,
        comments: drawn.comments,
        mixed: are_mixed(nodes),
    })
}

// The same as `import`, where the options have as many nodes as are given.
fn import_on(
    alloc: Global,
    format: Format,
    options: &Options,
    nodes: &[NodeText],
    log: &[u8],
) -> Result<Imported, ImportFault>
    ensures trace { IfOk result (IsImportOn format options.now nodes.now log.now) }
    ensures refused { IfErr result (IsRefused (entries (are_mixed nodes.now) format log.now) nodes.now options.now) }
{
    let mut kinds = Kinds::new(alloc);
    let mut drawn = draw(alloc, &mut kinds, format, options, nodes, log)?;
    told(alloc, &mut kinds, nodes, &mut drawn)
}

/// The trace of a log, and what was left out. Where nodes are given, these are the trace's, and each job asks for those of its partition that
/// have its features; else so many as the options or the log say, all alike. `Options` comes exactly with the first option that cannot be,
/// `Apart` exactly with a gap in the log as long as a trace, and `Unlike` only where the text that is made of what is taken is not read back
/// as the trace that says so.
pub fn import(
    alloc: Global,
    format: Format,
    options: &Options,
    nodes: &[NodeText],
    log: &[u8],
) -> Result<Imported, ImportFault>
    ensures trace { IfOk result (IsImport format options.now nodes.now log.now) }
    ensures refused { IfErr result (IsRefused (entries (are_mixed nodes.now) format log.now) nodes.now (fitted nodes.now options.now)) }
{
    let options = fitted(options, nodes);
    if let Some(fault) = early_fault(&options) {
        return Err(ImportFault::Options(fault));
    }
    import_on(alloc, format, &options, nodes, log)
}
