// Runs by policies, told by the numbers of jobs, leaves and nodes.
ghost use Rattle.tetri_trace.specs.Scenario.{scenario};
ghost use Rattle.tetri_trace.specs.Sound.{IsSound};

use std::alloc::{AllocError, Global};
use tetri_cycles::{Observer, SeenSlot};
use tetri_policy::{Policy, observe_policy};
use tetri_report::Head;
use tetri_state::{Happened, PieceId, State};
use tetri_strl::Grant;
use tetri_tables::{Given, Tally, answer, nodes_told, sections_of};
use tetri_trace::Trace;

// The lines of a run: its cycles so far, and its numbers behind them.
#[derive(Drop)]
struct Lines {
    text: String,
    cycles: u64,
    launched: usize,
    ended: usize,
    cancelled: usize,
    expired: usize,
    worth: u128,
}

fn tell_pieces(out: &mut String, word: &str, pieces: &[PieceId]) -> Result<(), AllocError> {
    for piece in pieces {
        write!(out, "{word} {} {}\n", piece.job, piece.leaf)?;
    }
    Ok(())
}

fn tell_jobs(out: &mut String, word: &str, jobs: &[u32]) -> Result<(), AllocError> {
    for job in jobs {
        write!(out, "{word} {job}\n")?;
    }
    Ok(())
}

fn tell_happened(out: &mut String, happened: &Happened) -> Result<(), AllocError> {
    tell_pieces(out, "end", &happened.ended)?;
    tell_jobs(out, "cancel", &happened.cancelled)?;
    tell_jobs(out, "fail", &happened.failed)?;
    tell_pieces(out, "over", &happened.over)?;
    tell_jobs(out, "expire", &happened.expired)
}

fn tell_grants(out: &mut String, grants: &[Grant], starts: &[u32]) -> Result<(), AllocError> {
    for (place, grant) in grants.iter().enumerate() {
        let start = starts.get(place).copied().unwrap_or(0);
        write!(out, "grant {} {} {start} ", grant.job, grant.leaf)?;
        nodes_told(out, grant.nodes.as_slice())?;
        out.push_str("\n")?;
    }
    Ok(())
}

impl Observer for Lines {
    ghost saw = { λ _ _ _ _ _. Unit {0} };

    fn see(
        &mut self,
        _alloc: Global,
        _trace: &Trace,
        state: &State,
        slot: SeenSlot<'_>,
        head: &Head,
    ) -> Result<(), AllocError> {
        write!(self.text, "cycle {}\n", head.number)?;
        tell_happened(&mut self.text, &head.happened)?;
        write!(self.text, "worth {}\n", head.value)?;
        tell_grants(&mut self.text, head.grants.as_slice(), &head.starts)?;
        self.cycles = self.cycles.saturating_add(1);
        self.launched = state.launched_count();
        self.ended = state.ended_count();
        self.cancelled = state.cancelled_count();
        self.expired = state.expired_count();
        self.worth = self.worth.saturating_add(u128::from(slot.worth));
        Ok(())
    }
}

// The lines of a run of a trace by a policy.
fn lines_of(alloc: Global, trace: &Trace, policy: Policy) -> Result<String, AllocError>
    requires { IsSound (scenario trace.now) }
{
    let mut lines = Lines {
        text: String::new(alloc),
        cycles: 0,
        launched: 0,
        ended: 0,
        cancelled: 0,
        expired: 0,
        worth: 0,
    };
    observe_policy(alloc, trace, policy, &mut lines)?;
    let Lines {
        mut text,
        cycles,
        launched,
        ended,
        cancelled,
        expired,
        worth,
    } = lines;
    write!(
        text,
        "summary cycles={cycles} launched={launched} ended={ended} cancelled={cancelled} expired={expired} worth={worth} optimal=0"
    )?;
    Ok(text)
}

fn lines_by(alloc: Global, content: &str, policy: Policy) -> Result<String, AllocError> {
    match answer(alloc, content.as_bytes())? {
        Ok(trace) => lines_of(alloc, &trace, policy),
        Err(_) => String::from_str(alloc, "the trace is not read"),
    }
}

fn expect_lines(
    alloc: Global,
    tally: &mut Tally,
    given: &Given,
    kind: &str,
    policy: Policy,
    body: &str,
) -> Result<(), AllocError> {
    let found = lines_by(alloc, given.trace.as_str(), policy)?;
    tally.expect(kind, found.as_str(), body)
}

fn judge_section(
    alloc: Global,
    given: &mut Given,
    tally: &mut Tally,
    kind: &str,
    body: &str,
) -> Result<(), AllocError> {
    match kind {
        "fcfs" => expect_lines(alloc, tally, given, kind, Policy::FirstCome, body),
        "easy" => expect_lines(alloc, tally, given, kind, Policy::Backfill, body),
        _ => {
            if given.take(alloc, kind, body)? {
                return Ok(());
            }
            tally.expect(kind, "no such section", "")
        }
    }
}

/// Judges a table of traces and of their lines by a policy.
pub fn judge(alloc: Global, table: &str) -> Result<Tally, AllocError> {
    let mut tally = Tally::new(alloc);
    let mut given = Given::new(alloc);
    for (kind, body) in sections_of(alloc, table)? {
        judge_section(alloc, &mut given, &mut tally, kind, body)?;
    }
    Ok(tally)
}
