// The account of a run.
ghost use Rattle.std.specs.Prelude.{◌≡◌, ◌++◌, ◌≤◌, List, ℕ, length, Some, Ok, IfErr, IfOk};
ghost use Rattle.std.specs.List.Sorted.{IsNonDecreasingBy, IsPermutation};
ghost use Rattle.tetri_accounts.specs.Accounted.{TellsPolicy, TellsReport, TellsRun};
ghost use Rattle.tetri_accounts.specs.Rows.{idle_rows};
ghost use Rattle.tetri_accounts.specs.Runs.{place_of};
ghost use Rattle.tetri_accounts.specs.Taken.{IsFresh, IsTaken};
ghost use Rattle.tetri_accounts.specs.declared.ledger.Ledger.{Ledger};
ghost use Rattle.tetri_cycles.specs.Observed.{Observed};
ghost use Rattle.tetri_report.specs.Block.{Block};
ghost use Rattle.tetri_run.specs.CheckEnds.{Accepts, IsHalt, IsHaltOf, Refuses, Rejects, TellsBadTrace, TellsReadFault, ended_as};
ghost use Rattle.tetri_state.specs.Snapshot.{opening_state};
ghost use Rattle.tetri_trace.specs.Lines.{scenario_in};
ghost use Rattle.tetri_trace.specs.Scenario.{scenario};
ghost use Rattle.tetri_trace.specs.Sound.{IsSound};

use crate::idle::add_idle;
use crate::ledger::Ledger;
use crate::row::{CycleNote, Departure, Row};
use std::alloc::{AllocError, Global};
use tetri_io::Shelf;
use tetri_policy::{Policy, observe_policy};
use tetri_run::{Status, check_seen};
use tetri_trace::Trace;

/// The account of a run: its rows, by job and then by the slot of the launch, and what is noted of its cycles, in their order.
#[derive(Drop)]
pub struct Account {
    pub rows: Vec<Row>,
    pub cycles: Vec<CycleNote>,
}

// The place of a row in an account.
fn place_of(row: &Row) -> u64
    ensures { result ≡ place_of row.now }
{
    u64::from(row.job) * 4_294_967_296 + u64::from(row.start.unwrap_or(0))
}

// The rows, by job and then by the slot of the launch.
fn in_order(rows: Vec<Row>) -> Result<Vec<Row>, AllocError>
    ensures one_each { IfOk result (λ v. IsPermutation rows.items v.items) }
    ensures in_order { IfOk result (λ v. IsNonDecreasingBy place_of v.items) }
{
    let mut rows = rows;
    rows.sort_by_key(|r| place_of(r))?;
    Ok(rows)
}

// The rows of the one list, and behind them those of the other.
fn joined(first: Vec<Row>, second: Vec<Row>) -> Result<Vec<Row>, AllocError>
    ensures { IfOk result (λ v. v.items ≡ first.items ++ second.items) }
{
    let mut rows = first;
    let mut more = second;
    rows.append(&mut more)?;
    Ok(rows)
}

// The rows of these launches, and one for each job of the trace of which none of them is.
fn all_rows(
    alloc: Global,
    trace: &Trace,
    closed: Vec<Row>,
    running: Vec<Row>,
    gone: Vec<Departure>,
) -> Result<Vec<Row>, AllocError>
    ensures one_each { IfOk result (λ v. IsPermutation ((closed.items ++ running.items)
        ++ idle_rows (length (scenario trace.entry.now).submissions) (closed.items ++ running.items) gone.items) v.items) }
    ensures in_order { IfOk result (λ v. IsNonDecreasingBy place_of v.items) }
{
    let mut rows = joined(closed, running)?;
    add_idle(alloc, trace.jobs.len() as u32, &gone, &mut rows)?;
    let sorted = in_order(rows)?;
    Ok(sorted)
}

impl Ledger {
    /// The account of the cycles that this ledger saw, of a run of the trace. Its only error is want of memory.
    pub fn close(self, alloc: Global, trace: &Trace) -> Result<Account, AllocError>
        ensures { IfOk result (λ a. (first : Ledger) (bs : List Block) → IsFresh first
            → Observed IsTaken (scenario trace.entry.now) (opening_state (scenario trace.entry.now)) bs first self
            → TellsRun (scenario trace.entry.now) bs a) }
    {
        let Ledger {
            running,
            closed,
            gone,
            cycles,
        } = self;
        let rows = all_rows(alloc, trace, closed, running, gone)?;
        Ok(Account { rows, cycles })
    }
}

/// Checks the report that a name holds against the trace that another one holds, as `run_check` does, and gives the trace and the account
/// of the report's run where it is accepted, and else the status with which `run_check` ends. Each of the two is read once.
pub fn account_report<S: Shelf>(
    alloc: Global,
    trace: &str,
    report: &str,
    shelf: &mut S,
) -> Result<(Trace, Account), Status>
    ensures sound { IfOk result (λ r. IsSound (scenario r.0)) }
    ensures kept { (content : List ℕ) → S.told shelf.old trace.now ≡ Some content
        → IfOk result (λ r. scenario_in content ≡ Ok (scenario r.0)) }
    ensures tells { (lines : List ℕ) → S.told shelf.old report.now ≡ Some lines
        → IfOk result (λ r. TellsReport (scenario r.0) lines r.1) }
    ensures halts { IfErr result IsHalt }
    ensures halted { (content lines : List ℕ) → S.told shelf.old trace.now ≡ Some content
        → S.told shelf.old report.now ≡ Some lines
        → IfErr result (λ status. IsHaltOf status (scenario_in content) lines) }
    ensures bad_trace { TellsBadTrace (S.told shelf.old) (S.faults shelf.old) (S.faults shelf.new)
        trace.now report.now (ended_as result) }
    ensures read { TellsReadFault (S.told shelf.old) (S.faults shelf.old) (S.faults shelf.new)
        trace.now report.now (ended_as result) }
    ensures accepts { Accepts (S.told shelf.old) (S.faults shelf.old) (S.faults shelf.new)
        trace.now report.now (ended_as result) (Unit {0}) }
    ensures rejects { Rejects (S.told shelf.old) (S.faults shelf.old) (S.faults shelf.new)
        trace.now report.now (ended_as result) }
    ensures refuses { Refuses (S.told shelf.old) (S.faults shelf.old) (S.faults shelf.new)
        trace.now report.now (ended_as result) }
    ensures same { S.told shelf.new ≡ S.told shelf.old }
    ensures later { (other : List ℕ) → S.faults shelf.old other ≤ S.faults shelf.new other }
{
    let mut ledger = Ledger::new(alloc);
    let kept = match check_seen(alloc, trace, report, shelf, &mut ledger) {
        Ok(kept) => kept,
        Err(status) => return Err(status),
    };
    match ledger.close(alloc, &kept) {
        Ok(account) => Ok((kept, account)),
        Err(_) => Err(Status::NoMemory),
    }
}

/// The account of the run of a trace by a policy. Its only error is want of memory.
pub fn account_policy(alloc: Global, trace: &Trace, policy: Policy) -> Result<Account, AllocError>
    requires { IsSound (scenario trace.now) }
    ensures { IfOk result (TellsPolicy policy (scenario trace.entry.now)) }
{
    let mut ledger = Ledger::new(alloc);
    observe_policy(alloc, trace, policy, &mut ledger)?;
    let account = ledger.close(alloc, trace)?;
    Ok(account)
}
