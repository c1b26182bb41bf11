// What the lines of a log say, as they are read.
ghost use Rattle.std.specs.Prelude.{◌≡◌, ◌↔◌, ◌+◌, ◌<◌, ◌≤◌, ◌^◌, ◌++◌, ◌∷◌, [], IfOk, IsTrue, List, Ok, OnErr, OnOk, Some, false, length, slice_get, take, true, ℕ};
ghost use Rattle.tetri_base.specs.Lists.{count};
ghost use Rattle.tetri_logs.specs.Ahead.{AreAhead};
ghost use Rattle.tetri_logs.specs.Entry.{entries_in};
ghost use Rattle.tetri_logs.specs.Options.{AreGood};
ghost use Rattle.tetri_logs.specs.Origin.{begun_at};
ghost use Rattle.tetri_cluster.specs.declared.cluster.NodeText.{NodeText};
ghost use Rattle.tetri_logs.specs.Reading.{is_comment, jobs_in};
ghost use Rattle.tetri_logs.specs.declared.entry.Entries.{Entries};
ghost use Rattle.tetri_logs.specs.declared.entry.Entry.{Entry};
ghost use Rattle.tetri_logs.specs.declared.options.Options.{Options};
ghost use Rattle.tetri_logs.specs.declared.options.Settings.{Settings};
ghost use Rattle.tetri_workload.specs.Head.{IsSaidBy};
ghost use Rattle.tetri_workload.specs.Kinds.{are_mixed};
ghost use Rattle.tetri_workload.specs.Known.{AreKnown};
ghost use Rattle.tetri_workload.specs.Reading.{IsAhead, IsRead, IsReadOf, behind};
ghost use Rattle.tetri_workload.specs.Taking.{IsNoted};

use crate::intake::{Halt, Intake};
use crate::kinds::{Kinds, are_mixed, is_same};
use std::alloc::{AllocError, Global};
use tetri_cluster::NodeText;
use tetri_logs::{
    Account, Ahead, Early, Entries, Entry, Facts, Log, LoggedJob, Options, Reject, Settings, Walk,
    with_fact,
};

// As many jobs are held back before slot 0 is known.
pub(crate) const FIRST_HELD: usize = 32_768;

// As many jobs are held back before some are handled.
const MOST_HELD: usize = 131_072;

// As many are still held back then.
const STILL_HELD: usize = 65_536;

/// What the lines so far say, and what is taken of their jobs.
#[derive(Drop)]
pub struct Reading<'a> {
    pub intake: Intake<'a>,
    /// Why lines, or tasks of a line, bring no job, in the order of the log.
    pub left: Vec<Reject>,
    pub facts: Facts,
    pub comments: usize,
    /// Jobs that were handled before any line was read, which are to be all of the log that were submitted before the same second.
    pub early: Early<'a>,
    /// How many of them stand on the lines so far.
    pub met: usize,
}

fn are_same(one: Facts, other: Facts) -> bool
    ensures { IsTrue result ↔ (one ≡ other) }
{
    one == other
}

fn is_same_account(one: Account, other: Account) -> bool
    ensures { IsTrue result ↔ (one ≡ other) }
{
    one == other
}

// Whether two jobs are the same.
#[inline(always)]
#[tactic(auto, using(crate::proofs::EntryLemmas::same_job))]
fn is_same_job(one: &LoggedJob<'_>, other: &LoggedJob<'_>) -> bool
    ensures { IsTrue result ↔ (one.now ≡ other.now) }
{
    if one.line != other.line || !is_same_account(one.account, other.account) {
        return false;
    }
    if !is_same(one.name.bytes(), other.name.bytes()) {
        return false;
    }
    is_same(one.set.text().as_bytes(), other.set.text().as_bytes())
}

fn is_comment(entry: &Entry<'_>) -> bool
    ensures { result ≡ is_comment entry.now }
{
    matches!(entry, Entry::Comment(_))
}

impl<'a> Reading<'a> {
    /// What stands before the first job.
    pub(crate) fn new(
        alloc: Global,
        options: &Options,
        head: Log<'a>,
    ) -> Result<Reading<'a>, AllocError>
        ensures read { IfOk result (λ r. (s : Settings) → (nodes : List NodeText) → (first : List Entry) → jobs_in first ≡ [] → IsSaidBy first head.entry → IsRead s options.now nodes first r) }
        ensures noted { IfOk result (λ r. IsNoted r.intake.taken) }
        ensures facts { IfOk result (λ r. r.facts ≡ head.entry.facts) }
        ensures comments { IfOk result (λ r. r.comments ≡ head.entry.comments) }
        ensures early { IfOk result (λ r. r.early.jobs.items ≡ []) }
        ensures ahead { IfOk result (λ r. AreAhead r.early.ahead r.early.jobs.items) }
    {
        Ok(Reading {
            intake: Intake::new(alloc, options)?,
            left: head.left,
            facts: head.facts,
            comments: head.comments,
            early: Early {
                jobs: Vec::new(alloc),
                before: 0,
                ahead: Ahead::none(alloc),
            },
            met: 0,
        })
    }

    /// The same, where these jobs are handled first.
    pub(crate) fn with_early(
        alloc: Global,
        options: &Options,
        settings: &Settings,
        early: Early<'a>,
        head: Log<'a>,
    ) -> Result<Reading<'a>, Halt>
        requires good { AreGood settings.now }
        requires small { settings.now.origin < 2 ^ 33 }
        ensures read { IfOk result (λ r. (nodes : List NodeText) → (first : List Entry) → jobs_in first ≡ [] → IsSaidBy first head.entry → IsRead settings.now options.now nodes first r) }
        ensures noted { IfOk result (λ r. IsNoted r.intake.taken) }
        ensures facts { IfOk result (λ r. r.facts ≡ head.entry.facts) }
        ensures comments { IfOk result (λ r. r.comments ≡ head.entry.comments) }
        ensures early { IfOk result (λ r. r.early ≡ early.entry) }
    {
        let mut intake = Intake::new(alloc, options)?;
        intake.handle_listed(alloc, settings, &early.jobs)?;
        Ok(Reading {
            intake,
            left: head.left,
            facts: head.facts,
            comments: head.comments,
            early,
            met: 0,
        })
    }

    // A job that was handled already, if it is the next one of these.
    #[inline(always)]
    fn meet(&mut self, job: &LoggedJob<'_>) -> Result<(), Halt>
        ensures met { OnOk result (take self.new.met self.new.early.jobs.items ≡ take self.old.met self.old.early.jobs.items ++ job.now ∷ []) }
        ensures refused { OnErr result (slice_get self.old.early.jobs.items self.old.met ≡ Some job.now → ⊥) }
        ensures early { self.new.early ≡ self.old.early }
        ensures left { self.new.left ≡ self.old.left }
        ensures facts { self.new.facts ≡ self.old.facts }
        ensures comments { self.new.comments ≡ self.old.comments }
        ensures intake { self.new.intake ≡ self.old.intake }
    {
        match self.early.jobs.get(self.met) {
            Some(next) if is_same_job(next, job) => {
                self.met += 1;
                Ok(())
            }
            _ => Err(Halt::OutOfTurn),
        }
    }

    // A line, or a task, that brings no job.
    fn leave(&mut self, reject: Reject) -> Result<(), AllocError>
        ensures left { OnOk result (self.new.left.items ≡ self.old.left.items ++ reject ∷ []) }
        ensures facts { self.new.facts ≡ self.old.facts }
        ensures comments { self.new.comments ≡ self.old.comments }
        ensures intake { self.new.intake ≡ self.old.intake }
        ensures early { self.new.early ≡ self.old.early }
        ensures met { self.new.met ≡ self.old.met }
    {
        self.left.push(reject)?;
        Ok(())
    }

    // What an entry says. A comment may change nothing that is known of the log.
    #[inline(always)]
    fn add_entry(
        &mut self,
        alloc: Global,
        kinds: &mut Kinds,
        settings: &Settings,
        nodes: &[NodeText],
        known: bool,
        found: Entry<'a>,
    ) -> Result<(), Halt>
        requires good { AreGood settings.now }
        requires small { known ≡ true → settings.now.origin < 2 ^ 33 }
        requires noted { IsNoted self.old.intake.taken }
        requires known { AreKnown nodes.now kinds.old }
        requires few { self.old.comments + 1 < 2 ^ 64 }
        ensures known { OnOk result (AreKnown nodes.now kinds.new) }
        ensures noted { OnOk result (IsNoted self.new.intake.taken) }
        ensures facts { OnOk result (self.new.facts ≡ self.old.facts) }
        ensures early { OnOk result (self.new.early ≡ self.old.early) }
        ensures comments { OnOk result (self.new.comments ≡ self.old.comments + count is_comment (found.entry ∷ [])) }
        ensures read { OnOk result ((x : ℕ) → (known ≡ true → x ≡ settings.now.origin) → (o : Options) → (es : List Entry) → IsRead (begun_at settings.now x) o nodes.now es self.old → IsRead (begun_at settings.now x) o nodes.now (es ++ found.entry ∷ []) self.new) }
    {
        match found {
            Entry::Job(job) => {
                let job = kinds.settle_one(alloc, nodes, job)?;
                if job.account.submit < self.early.before {
                    self.meet(&job)?;
                    return Ok(());
                }
                self.intake.add(alloc, settings, known, job)?;
                Ok(())
            }
            Entry::Comment(fact) => {
                if !are_same(self.facts, with_fact(self.facts, fact)) {
                    return Err(Halt::OutOfTurn);
                }
                self.comments += 1;
                Ok(())
            }
            Entry::Left(reject) => {
                self.leave(reject)?;
                Ok(())
            }
        }
    }

    // What the tasks of a line say, of which none is a comment.
    fn add_tasks(
        &mut self,
        alloc: Global,
        kinds: &mut Kinds,
        settings: &Settings,
        nodes: &[NodeText],
        known: bool,
        tasks: Vec<Entry<'a>>,
    ) -> Result<(), Halt>
        requires good { AreGood settings.now }
        requires small { known ≡ true → settings.now.origin < 2 ^ 33 }
        requires noted { IsNoted self.old.intake.taken }
        requires known { AreKnown nodes.now kinds.old }
        requires few { self.old.comments + 1 < 2 ^ 64 }
        ensures known { OnOk result (AreKnown nodes.now kinds.new) }
        ensures noted { OnOk result (IsNoted self.new.intake.taken) }
        ensures facts { OnOk result (self.new.facts ≡ self.old.facts) }
        ensures early { OnOk result (self.new.early ≡ self.old.early) }
        ensures comments { OnOk result (self.new.comments ≡ self.old.comments + count is_comment tasks.entry.items) }
        ensures read { OnOk result ((x : ℕ) → (known ≡ true → x ≡ settings.now.origin) → (o : Options) → (es : List Entry) → IsRead (begun_at settings.now x) o nodes.now es self.old → IsRead (begun_at settings.now x) o nodes.now (es ++ tasks.entry.items) self.new) }
    {
        for entry in tasks {
            if is_comment(&entry) {
                return Err(Halt::OutOfTurn);
            }
            self.add_entry(alloc, kinds, settings, nodes, known, entry)?;
        }
        Ok(())
    }

    /// What a line says.
    #[inline(always)]
    pub(crate) fn add(
        &mut self,
        alloc: Global,
        kinds: &mut Kinds,
        settings: &Settings,
        nodes: &[NodeText],
        known: bool,
        found: Entries<'a>,
    ) -> Result<(), Halt>
        requires good { AreGood settings.now }
        requires small { known ≡ true → settings.now.origin < 2 ^ 33 }
        requires noted { IsNoted self.old.intake.taken }
        requires known { AreKnown nodes.now kinds.old }
        requires few { self.old.comments + 1 < 2 ^ 64 }
        ensures known { OnOk result (AreKnown nodes.now kinds.new) }
        ensures noted { OnOk result (IsNoted self.new.intake.taken) }
        ensures facts { OnOk result (self.new.facts ≡ self.old.facts) }
        ensures early { OnOk result (self.new.early ≡ self.old.early) }
        ensures comments { OnOk result (self.new.comments ≡ self.old.comments + count is_comment (entries_in found.entry)) }
        ensures read { OnOk result ((x : ℕ) → (known ≡ true → x ≡ settings.now.origin) → (o : Options) → (es : List Entry) → IsRead (begun_at settings.now x) o nodes.now es self.old → IsRead (begun_at settings.now x) o nodes.now (es ++ entries_in found.entry) self.new) }
    {
        match found {
            Entries::One(entry) => self.add_entry(alloc, kinds, settings, nodes, known, entry)?,
            Entries::Tasks(tasks) => {
                self.add_tasks(alloc, kinds, settings, nodes, known, tasks)?
            }
        }
        Ok(())
    }

    // Whether what was read is a job alone on its line that was handled already or passes those that wait, where slot 0 is known and nodes do not differ. It is
    // looked at where it stands.
    #[inline(always)]
    fn passes(
        &mut self,
        alloc: Global,
        settings: &Settings,
        nodes: &[NodeText],
        known: bool,
        read: &Result<Option<Entries<'_>>, AllocError>,
    ) -> Result<bool, Halt>
        requires good { AreGood settings.now }
        requires small { known ≡ true → settings.now.origin < 2 ^ 33 }
        requires noted { IsNoted self.old.intake.taken }
        ensures noted { OnOk result (IsNoted self.new.intake.taken) }
        ensures facts { OnOk result (self.new.facts ≡ self.old.facts) }
        ensures early { OnOk result (self.new.early ≡ self.old.early) }
        ensures comments { OnOk result (self.new.comments ≡ self.old.comments) }
        ensures waiting { OnOk result (self.new.intake.waiting ≡ self.old.intake.waiting) }
        ensures stays { IfOk result (λ passed. passed ≡ false → self.new ≡ self.old) }
        ensures read { IfOk result (λ passed. passed ≡ true → (found : Entries) × (read.now ≡ Ok (Some found)) × ((x : ℕ) → (known ≡ true → x ≡ settings.now.origin) → (o : Options) → (es : List Entry) → IsRead (begun_at settings.now x) o nodes.now es self.old → IsRead (begun_at settings.now x) o nodes.now (es ++ entries_in found) self.new)) }
    {
        match read {
            Ok(Some(Entries::One(Entry::Job(job)))) if known && !are_mixed(nodes) => {
                if job.account.submit < self.early.before {
                    self.meet(job)?;
                    return Ok(true);
                }
                let passed = self.intake.passes(alloc, settings, job)?;
                Ok(passed)
            }
            _ => Ok(false),
        }
    }

    // Passes over the next line if it was read ahead, as that of the next early job, and says whether it does.
    #[inline(always)]
    fn pass_next(&mut self, nodes: &[NodeText], walk: &mut Walk<'a>) -> bool
        requires alike { are_mixed nodes.now ≡ false }
        requires ahead { AreAhead self.old.early.ahead self.old.early.jobs.items }
        ensures early { self.new.early ≡ self.old.early }
        ensures intake { self.new.intake ≡ self.old.intake }
        ensures facts { self.new.facts ≡ self.old.facts }
        ensures comments { self.new.comments ≡ self.old.comments }
        ensures shorter { result ≡ true → walk.new.bytes < walk.old.bytes }
        ensures stays { result ≡ false → (self.new ≡ self.old) × (walk.new ≡ walk.old) }
        ensures read { result ≡ true → (s : Settings) → (o : Options) → (es : List Entry) → IsReadOf s o nodes.now es walk.old.entries self.old → IsReadOf s o nodes.now es walk.new.entries self.new }
    {
        let early = &self.early;
        let place = self.met;
        match early.jobs.get(place) {
            Some(next) if next.account.submit < early.before => {}
            _ => return false,
        }
        if !walk.pass(&early.ahead, &early.jobs, place) {
            return false;
        }
        self.met = place + 1;
        true
    }

    // Passes over lines that were read ahead, as long as each is that of the next early job.
    #[inline(always)]
    fn pass_ahead(&mut self, nodes: &[NodeText], walk: &mut Walk<'a>)
        requires { IsAhead nodes.now self.old.early }
        ensures early { self.new.early ≡ self.old.early }
        ensures intake { self.new.intake ≡ self.old.intake }
        ensures facts { self.new.facts ≡ self.old.facts }
        ensures comments { self.new.comments ≡ self.old.comments }
        ensures within { walk.new.bytes ≤ walk.old.bytes }
        ensures read { (s : Settings) → (o : Options) → (es : List Entry) → IsReadOf s o nodes.now es walk.old.entries self.old → IsReadOf s o nodes.now es walk.new.entries self.new }
    {
        if are_mixed(nodes) {
            return;
        }
        while self.pass_next(nodes, walk) {}
    }

    /// What the lines say that are not read yet, until so many jobs are held back as may be, and whether there are no other lines.
    pub(crate) fn add_lines(
        &mut self,
        alloc: Global,
        kinds: &mut Kinds,
        settings: &Settings,
        nodes: &[NodeText],
        known: bool,
        most: usize,
        walk: &mut Walk<'a>,
    ) -> Result<bool, Halt>
        requires good { AreGood settings.now }
        requires small { known ≡ true → settings.now.origin < 2 ^ 33 }
        requires noted { IsNoted self.old.intake.taken }
        requires known { AreKnown nodes.now kinds.old }
        requires few { self.old.comments + walk.old.bytes < 2 ^ 64 }
        requires ahead { IsAhead nodes.now self.old.early }
        ensures known { OnOk result (AreKnown nodes.now kinds.new) }
        ensures noted { OnOk result (IsNoted self.new.intake.taken) }
        ensures facts { OnOk result (self.new.facts ≡ self.old.facts) }
        ensures early { OnOk result (self.new.early ≡ self.old.early) }
        ensures few { IfOk result (λ ended. ended ≡ false → self.new.comments + walk.new.bytes ≤ self.old.comments + walk.old.bytes) }
        ensures shorter { IfOk result (λ ended. ended ≡ false → length self.old.intake.waiting.held.items < most → walk.new.bytes < walk.old.bytes) }
        ensures read { IfOk result (λ ended. (x : ℕ) → (known ≡ true → x ≡ settings.now.origin) → (o : Options) → (es : List Entry) → IsReadOf (begun_at settings.now x) o nodes.now es walk.old.entries self.old → IsReadOf (begun_at settings.now x) o nodes.now es (behind ended walk.new.entries) self.new) }
    {
        while self.intake.waiting.held.len() < most {
            self.pass_ahead(nodes, walk);
            let read = walk.next(alloc);
            if self.passes(alloc, settings, nodes, known, &read)? {
                continue;
            }
            let Some(found) = read? else {
                return Ok(true);
            };
            self.add(alloc, kinds, settings, nodes, known, found)?;
        }
        Ok(false)
    }

    // The jobs that are held back, in order of submission, until so many are left, if they come in their turn.
    fn release(&mut self, alloc: Global, settings: &Settings, left: usize) -> Result<(), Halt>
        requires good { AreGood settings.now }
        requires small { settings.now.origin < 2 ^ 33 }
        requires noted { IsNoted self.old.intake.taken }
        ensures noted { OnOk result (IsNoted self.new.intake.taken) }
        ensures few { OnOk result (length self.new.intake.waiting.held.items ≤ left) }
        ensures facts { OnOk result (self.new.facts ≡ self.old.facts) }
        ensures early { OnOk result (self.new.early ≡ self.old.early) }
        ensures comments { OnOk result (self.new.comments ≡ self.old.comments) }
        ensures read { OnOk result ((o : Options) → (nodes : List NodeText) → (es : List Entry) → IsRead settings.now o nodes es self.old → IsRead settings.now o nodes es self.new) }
    {
        self.intake.release(alloc, settings, left)?;
        Ok(())
    }

    // The jobs that are held back, in order of submission, until some are left, and all that wait where the trace is full then, if they come in their turn.
    fn release_most(&mut self, alloc: Global, settings: &Settings) -> Result<(), Halt>
        requires good { AreGood settings.now }
        requires small { settings.now.origin < 2 ^ 33 }
        requires noted { IsNoted self.old.intake.taken }
        ensures noted { OnOk result (IsNoted self.new.intake.taken) }
        ensures few { OnOk result (length self.new.intake.waiting.held.items ≤ 65536) }
        ensures facts { OnOk result (self.new.facts ≡ self.old.facts) }
        ensures early { OnOk result (self.new.early ≡ self.old.early) }
        ensures comments { OnOk result (self.new.comments ≡ self.old.comments) }
        ensures read { OnOk result ((o : Options) → (nodes : List NodeText) → (es : List Entry) → IsRead settings.now o nodes es self.old → IsRead settings.now o nodes es self.new) }
    {
        self.release(alloc, settings, STILL_HELD)?;
        if self.intake.taken.is_full(settings) {
            self.release(alloc, settings, 0)?;
            return Ok(());
        }
        Ok(())
    }

    /// What the other lines say, if there are some, and what is taken of all jobs, none of which waits then. Jobs are held back until the trace is full. All that were
    /// handled before stand on these lines.
    pub(crate) fn finish(
        &mut self,
        alloc: Global,
        kinds: &mut Kinds,
        settings: &Settings,
        nodes: &[NodeText],
        walk: &mut Walk<'a>,
        ended: bool,
    ) -> Result<(), Halt>
        requires good { AreGood settings.now }
        requires small { settings.now.origin < 2 ^ 33 }
        requires noted { IsNoted self.old.intake.taken }
        requires known { AreKnown nodes.now kinds.old }
        requires few { ended ≡ false → self.old.comments + walk.old.bytes < 2 ^ 64 }
        requires ahead { IsAhead nodes.now self.old.early }
        ensures known { OnOk result (AreKnown nodes.now kinds.new) }
        ensures read { OnOk result ((o : Options) → (es : List Entry) → IsReadOf settings.now o nodes.now es (behind ended walk.old.entries) self.old → IsRead settings.now o nodes.now es self.new) }
        ensures none { OnOk result (self.new.intake.waiting.held.items ≡ []) }
        ensures facts { OnOk result (self.new.facts ≡ self.old.facts) }
        ensures early { OnOk result (self.new.early ≡ self.old.early) }
        ensures met { OnOk result (length self.new.early.jobs.items ≤ self.new.met) }
    {
        let mut done = ended;
        while !done {
            self.release_most(alloc, settings)?;
            done = self.add_lines(alloc, kinds, settings, nodes, true, MOST_HELD, walk)?;
        }
        self.release(alloc, settings, 0)?;
        if self.met < self.early.jobs.len() {
            return Err(Halt::OutOfTurn);
        }
        Ok(())
    }
}
