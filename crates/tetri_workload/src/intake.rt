// What is taken of the jobs of a log as they come.
ghost use Rattle.std.specs.Prelude.{◌≡◌, ◌↔◌, ◌+◌, ◌*◌, ◌<◌, ◌≤◌, ◌^◌, ◌++◌, ◌∷◌, [], All, Bool, Err, IfOk, IsTrue, List, MatchOption, None, Ok, OnOk, Option, Some, cond, drop, is_ok, length, true, false, ℕ};
ghost use Rattle.tetri_logs.specs.Options.{AreGood};
ghost use Rattle.tetri_logs.specs.Origin.{begun_at, is_in_run, may_begin};
ghost use Rattle.tetri_logs.specs.Placing.{IsPlaced, place};
ghost use Rattle.tetri_logs.specs.Scale.{moment_of};
ghost use Rattle.tetri_logs.specs.declared.entry.Cause.TheVariants.{Beyond};
ghost use Rattle.tetri_logs.specs.declared.entry.LoggedJob.{LoggedJob};
ghost use Rattle.tetri_logs.specs.declared.options.Options.{Options};
ghost use Rattle.tetri_logs.specs.declared.options.Settings.{Settings};
ghost use Rattle.tetri_logs.specs.declared.placing.Placing.{Placing};
ghost use Rattle.tetri_workload.specs.Listed.{jobs_at};
ghost use Rattle.tetri_workload.specs.Reading.{AreHandled, AreWanted, IsJoinedBy, IsNear, IsTimely, MayLeave};
ghost use Rattle.tetri_workload.specs.Taking.{IsNoted, is_full, left_out, named, so_far};
ghost use Rattle.tetri_workload.specs.Waiting.{HasSeconds};

use crate::listed::{Listed, listed_in_order};
use crate::ordering::by_submission;
use crate::taking::Taken;
use crate::waiting::Waiting;
use std::alloc::{AllocError, Global};
use std::mem;
use tetri_logs::{
    Account, Cause, LoggedJob, Options, Placing, Settings, has_place, is_in_run, is_outside,
    may_begin, moment_of, place,
};

/// Why the jobs of a log are not taken as they come.
#[derive(Clone, Copy, Debug, PartialEq, Eq)]
pub enum Halt {
    /// A job comes out of its turn, or what is known of the log changes.
    OutOfTurn,
    NoMemory,
}

impl From<AllocError> for Halt {
    ghost use Rattle.std.specs.Prelude.{◌≡◌};
    ghost use Rattle.tetri_workload.specs.declared.intake.Halt.TheVariants as halt;

    ghost from_gives = { λ _ h. h ≡ halt.NoMemory };

    fn from(_: AllocError) -> Self {
        Halt::NoMemory
    }
}

/// What is taken of the jobs so far, and which wait.
#[derive(Drop)]
pub struct Intake<'a> {
    pub taken: Taken,
    pub waiting: Waiting<'a>,
    /// When the last job was submitted, by the log's clock, that had a place and found the trace not full yet.
    pub last: u32,
    /// When the last job was submitted that had a place.
    pub placed: Option<u32>,
    /// Whether jobs that come too late for the trace leave no gap, whatever else comes.
    pub joined: bool,
}

// Without the first so many of these jobs. The others keep their memory.
fn drop_first(jobs: &mut Vec<LoggedJob<'_>>, many: usize)
    requires { many ≤ length jobs.old.items }
    ensures { jobs.new.items ≡ drop many jobs.old.items }
{
    let left = jobs.len() - many;
    jobs.rotate_left(many);
    jobs.truncate(left);
}

// The last second behind a job with a place: its own, unless it found the trace full.
#[inline(always)]
fn last_behind(full: bool, last: u32, submit: u32) -> u32
    ensures { result ≡ cond full last submit }
{
    if full { last } else { submit }
}

// Whether a job comes less than a trace behind one that was submitted then, if there is one.
fn is_near(settings: &Settings, placed: Option<u32>, account: Account) -> bool
    requires { AreGood settings.now }
    ensures { IsTrue result ↔ IsNear settings.now placed account }
{
    match placed {
        Some(submit) => {
            let end = u64::from(settings.start)
                + u64::from(submit)
                + 10_000 * u64::from(settings.slot);
            moment_of(settings, account) < end
        }
        None => false,
    }
}

impl<'a> Intake<'a> {
    /// No jobs.
    pub(crate) fn new(alloc: Global, options: &Options) -> Result<Intake<'a>, AllocError>
        ensures handled { IfOk result (λ i. (s : Settings) → AreHandled s options.now [] [] i) }
        ensures none { IfOk result (λ i. i.waiting.held.items ≡ []) }
        ensures seconds { IfOk result (λ i. HasSeconds i.waiting) }
        ensures noted { IfOk result (λ i. IsNoted i.taken) }
    {
        Ok(Intake {
            taken: Taken::new(alloc)?,
            waiting: Waiting::new(alloc)?,
            last: 0,
            placed: None,
            joined: options.from.is_some(),
        })
    }

    // Whether a job without a place neither begins slot 0 earlier nor may leave a gap.
    fn is_timely(&self, settings: &Settings, account: Account) -> bool
        requires good { AreGood settings.now }
        requires small { settings.now.origin < 2 ^ 33 }
        ensures { IsTrue result ↔ IsTimely settings.now self.now account }
    {
        if settings.origin <= moment_of(settings, account)
            && (self.joined || is_in_run(settings, account))
        {
            return true;
        }
        !may_begin(settings, account)
    }

    // Whether a job that comes too late for the trace leaves no gap, as it comes less than a trace behind one that has a place.
    fn is_joined_by(&self, settings: &Settings, account: Account) -> bool
        requires good { AreGood settings.now }
        requires small { settings.now.origin < 2 ^ 33 }
        ensures { IsTrue result ↔ IsJoinedBy settings.now self.now account }
    {
        is_near(settings, self.placed, account)
            && !is_in_run(settings, account)
            && may_begin(settings, account)
    }

    // Whether late jobs leave no gap behind a job without a place. Nothing where it may not be left out yet.
    fn joined_behind(&self, settings: &Settings, account: Account) -> Option<bool>
        requires good { AreGood settings.now }
        requires small { settings.now.origin < 2 ^ 33 }
        ensures { MatchOption result ((joined : Bool) → MayLeave settings.now self.now account joined → ⊥) (MayLeave settings.now self.now account) }
    {
        if self.is_timely(settings, account) {
            return Some(self.joined);
        }
        if self.is_joined_by(settings, account) {
            return Some(true);
        }
        None
    }

    // A job with a place, if it comes in its turn.
    #[inline(always)]
    fn take(
        &mut self,
        alloc: Global,
        settings: &Settings,
        job: &LoggedJob<'_>,
        placing: &Placing,
    ) -> Result<(), Halt>
        requires good { AreGood settings.now }
        requires place { place settings.now job.now.account ≡ Ok placing.now }
        requires placed { IsPlaced placing.now }
        requires noted { IsNoted self.old.taken }
        ensures noted { OnOk result (IsNoted self.new.taken) }
        ensures waiting { OnOk result (self.new.waiting ≡ self.old.waiting) }
        ensures handled { OnOk result ((o : Options) → (all rest : List LoggedJob) → AreHandled settings.now o all (job.now ∷ rest) self.old → AreHandled settings.now o all rest self.new) }
    {
        let submit = job.account.submit;
        if submit < self.last {
            return Err(Halt::OutOfTurn);
        }
        self.last = last_behind(self.taken.is_full(settings), self.last, submit);
        self.placed = Some(submit);
        self.taken.add_placed(alloc, settings, job, placing)?;
        Ok(())
    }

    // A job without a place, if it comes in its turn.
    fn leave(&mut self, settings: &Settings, job: &LoggedJob<'_>, cause: Cause) -> Result<(), Halt>
        requires good { AreGood settings.now }
        requires small { settings.now.origin < 2 ^ 33 }
        requires place { place settings.now job.now.account ≡ Err cause }
        requires noted { IsNoted self.old.taken }
        ensures noted { OnOk result (IsNoted self.new.taken) }
        ensures waiting { OnOk result (self.new.waiting ≡ self.old.waiting) }
        ensures handled { OnOk result ((o : Options) → (all rest : List LoggedJob) → AreHandled settings.now o all (job.now ∷ rest) self.old → AreHandled settings.now o all rest self.new) }
    {
        let Some(joined) = self.joined_behind(settings, job.account) else {
            return Err(Halt::OutOfTurn);
        };
        self.joined = joined;
        self.taken.leave(job.line, cause)?;
        Ok(())
    }

    // Whether a job comes in its turn and has a place, but is one more than a trace takes, whatever its name is.
    #[inline(always)]
    fn finds_no_room(&self, settings: &Settings, job: &LoggedJob<'_>) -> bool
        requires good { AreGood settings.now }
        requires noted { IsNoted self.now.taken }
        ensures turn { result ≡ true → self.now.last ≤ job.now.account.submit }
        ensures place { result ≡ true → is_ok (place settings.now job.now.account) ≡ true }
        ensures full { result ≡ true → is_full settings.now (so_far self.now.taken) ≡ true }
        ensures beyond { result ≡ true → (p : Placing) → (number : Option ℕ) → named settings.now (so_far self.now.taken) job.now.line job.now.account.submit job.now.name job.now.set p number ≡ left_out (so_far self.now.taken) job.now.line Beyond }
    {
        let submit = job.account.submit;
        self.last <= submit
            && self.taken.has_no_room(settings, submit)
            && has_place(settings, &job.account)
    }

    // A job, if it comes in its turn.
    #[inline(always)]
    fn handle(
        &mut self,
        alloc: Global,
        settings: &Settings,
        job: &LoggedJob<'_>,
    ) -> Result<(), Halt>
        requires good { AreGood settings.now }
        requires small { settings.now.origin < 2 ^ 33 }
        requires noted { IsNoted self.old.taken }
        ensures noted { OnOk result (IsNoted self.new.taken) }
        ensures waiting { OnOk result (self.new.waiting ≡ self.old.waiting) }
        ensures handled { OnOk result ((o : Options) → (all rest : List LoggedJob) → AreHandled settings.now o all (job.now ∷ rest) self.old → AreHandled settings.now o all rest self.new) }
    {
        if self.finds_no_room(settings, job) {
            self.placed = Some(job.account.submit);
            self.taken.leave(job.line, Cause::Beyond)?;
            return Ok(());
        }
        match place(settings, &job.account) {
            Ok(placing) => self.take(alloc, settings, job, &placing),
            Err(cause) => self.leave(settings, job, cause),
        }
    }

    // A job outside the wanted part of the log is left out, and any other one waits.
    #[inline(always)]
    fn hold(&mut self, settings: &Settings, job: LoggedJob<'a>) -> Result<(), AllocError>
        requires noted { IsNoted self.old.taken }
        ensures noted { OnOk result (IsNoted self.new.taken) }
        ensures wanted { OnOk result (AreWanted settings.now self.old.waiting.held.items → AreWanted settings.now self.new.waiting.held.items) }
        ensures seconds { OnOk result (HasSeconds self.old.waiting → HasSeconds self.new.waiting) }
        ensures handled { OnOk result ((x : ℕ) → (o : Options) → (all : List LoggedJob) → AreWanted settings.now self.old.waiting.held.items → AreHandled (begun_at settings.now x) o all self.old.waiting.held.items self.old → AreHandled (begun_at settings.now x) o (all ++ job.entry ∷ []) self.new.waiting.held.items self.new) }
    {
        if is_outside(settings, moment_of(settings, job.account)) {
            self.taken.leave(job.line, Cause::Outside)?;
            return Ok(());
        }
        self.waiting.add(job)?;
        Ok(())
    }

    /// Whether a job that comes, where slot 0 is known, passes those that wait: it is handled where none does and the trace is full, and left out where it has
    /// no place and by the marks none that waits was submitted in its second. Any other one is to wait.
    #[inline(always)]
    pub(crate) fn passes(
        &mut self,
        alloc: Global,
        settings: &Settings,
        job: &LoggedJob<'_>,
    ) -> Result<bool, Halt>
        requires good { AreGood settings.now }
        requires small { settings.now.origin < 2 ^ 33 }
        requires noted { IsNoted self.old.taken }
        ensures noted { OnOk result (IsNoted self.new.taken) }
        ensures waiting { OnOk result (self.new.waiting ≡ self.old.waiting) }
        ensures stays { IfOk result (λ passed. passed ≡ false → self.new ≡ self.old) }
        ensures handled { IfOk result (λ passed. passed ≡ true → (o : Options) → (all : List LoggedJob) → HasSeconds self.old.waiting → AreHandled settings.now o all self.old.waiting.held.items self.old → AreHandled settings.now o (all ++ job.now ∷ []) self.new.waiting.held.items self.new) }
    {
        let submit = job.account.submit;
        if self.waiting.held.is_empty() && self.taken.is_full(settings) {
            self.handle(alloc, settings, job)?;
            return Ok(true);
        }
        if self.waiting.may_share(submit) || !self.is_timely(settings, job.account) {
            return Ok(false);
        }
        match place(settings, &job.account) {
            Err(cause) => {
                self.leave(settings, job, cause)?;
                Ok(true)
            }
            Ok(_) => Ok(false),
        }
    }

    // A job that comes, where slot 0 is known. It waits unless it passes those that do.
    #[inline(always)]
    fn add_known(
        &mut self,
        alloc: Global,
        settings: &Settings,
        job: LoggedJob<'a>,
    ) -> Result<(), Halt>
        requires good { AreGood settings.now }
        requires small { settings.now.origin < 2 ^ 33 }
        requires noted { IsNoted self.old.taken }
        ensures noted { OnOk result (IsNoted self.new.taken) }
        ensures wanted { OnOk result (AreWanted settings.now self.old.waiting.held.items → AreWanted settings.now self.new.waiting.held.items) }
        ensures seconds { OnOk result (HasSeconds self.old.waiting → HasSeconds self.new.waiting) }
        ensures handled { OnOk result ((o : Options) → (all : List LoggedJob) → HasSeconds self.old.waiting → AreWanted settings.now self.old.waiting.held.items → AreHandled settings.now o all self.old.waiting.held.items self.old → AreHandled settings.now o (all ++ job.entry ∷ []) self.new.waiting.held.items self.new) }
    {
        if !self.passes(alloc, settings, &job)? {
            self.hold(settings, job)?;
        }
        Ok(())
    }

    /// A job that comes, where slot 0 is known or not.
    #[inline(always)]
    pub(crate) fn add(
        &mut self,
        alloc: Global,
        settings: &Settings,
        known: bool,
        job: LoggedJob<'a>,
    ) -> Result<(), Halt>
        requires good { AreGood settings.now }
        requires small { known ≡ true → settings.now.origin < 2 ^ 33 }
        requires noted { IsNoted self.old.taken }
        ensures noted { OnOk result (IsNoted self.new.taken) }
        ensures wanted { OnOk result (AreWanted settings.now self.old.waiting.held.items → AreWanted settings.now self.new.waiting.held.items) }
        ensures seconds { OnOk result (HasSeconds self.old.waiting → HasSeconds self.new.waiting) }
        ensures handled { OnOk result ((x : ℕ) → (known ≡ true → x ≡ settings.now.origin) → (o : Options) → (all : List LoggedJob) → HasSeconds self.old.waiting → AreWanted settings.now self.old.waiting.held.items → AreHandled (begun_at settings.now x) o all self.old.waiting.held.items self.old → AreHandled (begun_at settings.now x) o (all ++ job.entry ∷ []) self.new.waiting.held.items self.new) }
    {
        if known {
            self.add_known(alloc, settings, job)?;
        } else {
            self.hold(settings, job)?;
        }
        Ok(())
    }

    // These jobs, if they come in their turn.
    fn handle_all(
        &mut self,
        alloc: Global,
        settings: &Settings,
        jobs: &[LoggedJob<'_>],
    ) -> Result<(), Halt>
        requires good { AreGood settings.now }
        requires small { settings.now.origin < 2 ^ 33 }
        requires noted { IsNoted self.old.taken }
        ensures noted { OnOk result (IsNoted self.new.taken) }
        ensures waiting { OnOk result (self.new.waiting ≡ self.old.waiting) }
        ensures handled { OnOk result ((o : Options) → (all rest : List LoggedJob) → AreHandled settings.now o all (jobs.now ++ rest) self.old → AreHandled settings.now o all rest self.new) }
    {
        for job in jobs {
            self.handle(alloc, settings, job)?;
        }
        Ok(())
    }

    // The same of some jobs of a list.
    fn handle_each(
        &mut self,
        alloc: Global,
        settings: &Settings,
        jobs: &[LoggedJob<'_>],
        order: &[Listed],
    ) -> Result<(), Halt>
        requires good { AreGood settings.now }
        requires small { settings.now.origin < 2 ^ 33 }
        requires noted { IsNoted self.old.taken }
        requires within { All (λ l. l.place < length jobs.now) order.now }
        ensures noted { OnOk result (IsNoted self.new.taken) }
        ensures waiting { OnOk result (self.new.waiting ≡ self.old.waiting) }
        ensures handled { OnOk result ((o : Options) → (all rest : List LoggedJob) → AreHandled settings.now o all (jobs_at jobs.now order.now ++ rest) self.old → AreHandled settings.now o all rest self.new) }
    {
        for listed in order {
            self.handle(alloc, settings, &jobs[listed.place])?;
        }
        Ok(())
    }

    /// These jobs, in order of submission, if they come in their turn.
    pub(crate) fn handle_listed(
        &mut self,
        alloc: Global,
        settings: &Settings,
        jobs: &[LoggedJob<'_>],
    ) -> Result<(), Halt>
        requires good { AreGood settings.now }
        requires small { settings.now.origin < 2 ^ 33 }
        requires noted { IsNoted self.old.taken }
        ensures noted { OnOk result (IsNoted self.new.taken) }
        ensures waiting { OnOk result (self.new.waiting ≡ self.old.waiting) }
        ensures handled { OnOk result ((o : Options) → (all rest : List LoggedJob) → AreHandled settings.now o all (jobs.now ++ rest) self.old → AreHandled settings.now o all rest self.new) }
    {
        let order = listed_in_order(alloc, jobs)?;
        self.handle_each(alloc, settings, jobs, &order)?;
        Ok(())
    }

    /// The jobs that are held back, in order of submission, until so many are left, if they come in their turn.
    pub(crate) fn release(
        &mut self,
        alloc: Global,
        settings: &Settings,
        left: usize,
    ) -> Result<(), Halt>
        requires good { AreGood settings.now }
        requires small { settings.now.origin < 2 ^ 33 }
        requires noted { IsNoted self.old.taken }
        ensures noted { OnOk result (IsNoted self.new.taken) }
        ensures few { OnOk result (length self.new.waiting.held.items ≤ left) }
        ensures wanted { OnOk result (AreWanted settings.now self.old.waiting.held.items → AreWanted settings.now self.new.waiting.held.items) }
        ensures seconds { OnOk result (HasSeconds self.old.waiting → HasSeconds self.new.waiting) }
        ensures handled { OnOk result ((o : Options) → (all : List LoggedJob) → AreHandled settings.now o all self.old.waiting.held.items self.old → AreHandled settings.now o all self.new.waiting.held.items self.new) }
    {
        if self.waiting.held.len() <= left {
            return Ok(());
        }
        let mut jobs = mem::replace(&mut self.waiting.held, Vec::new(alloc));
        by_submission(&mut jobs)?;
        let many = jobs.len().saturating_sub(left);
        self.handle_all(alloc, settings, &jobs[..many])?;
        drop_first(&mut jobs, many);
        self.waiting.hold(alloc, jobs)?;
        Ok(())
    }
}
