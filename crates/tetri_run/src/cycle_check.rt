// The check of one cycle of a report.
ghost use Rattle.std.specs.Prelude.{◌≡◌, ◌+◌, ◌<◌, ◌≤◌, ◌^◌, length, IfOk};
ghost use Rattle.tetri_cert.specs.declared.certificate.Certificate.{Certificate};
ghost use Rattle.tetri_judge.specs.Places.{place_of};
ghost use Rattle.tetri_judge.specs.Seen.{Tells};
ghost use Rattle.tetri_report.specs.Block.{headed};
ghost use Rattle.tetri_report.specs.BlockLines.{certificate_lines, end_place};
ghost use Rattle.tetri_run.specs.Checked.{AnswersCycle, AnswersPlan, AnswersVerdict, IsViewOf};
ghost use Rattle.tetri_space.specs.Sound.{IsSound as IsSoundInstance};
ghost use Rattle.tetri_space.specs.Space.{space};
ghost use Rattle.tetri_state.specs.Planning.{instance_of};
ghost use Rattle.tetri_state.specs.Reached.{IsReached, begun};
ghost use Rattle.tetri_state.specs.Snapshot.{Snapshot};
ghost use Rattle.tetri_trace.specs.Scenario.{scenario};
ghost use Rattle.tetri_trace.specs.Sound.{IsSound};

use crate::by_panel::optimal_count;
use crate::halt::CheckHalt;
use crate::sight::View;
use crate::why::{Why, why_of};
use std::alloc::Global;
use tetri_cycles::SlotTally;
use tetri_judge::{Seen, Verdict, judge_seen, place_of};
use tetri_report::{Expected, Head, first_other_line_by_head};
use tetri_space::{Instance, total};
use tetri_state::{State, find_launch};
use tetri_trace::Trace;

// The line at which a verdict refuses the plan, and why, unless memory ran out.
fn refusal_of(head: &Head, first: u64, verdict: Verdict) -> CheckHalt
    requires { (c : Certificate) → first + place_of (headed head.now c) verdict < 2 ^ 64 }
    ensures { (c : Certificate) → AnswersVerdict result verdict first (headed head.now c) }
{
    match why_of(verdict) {
        Some(why) => CheckHalt::Refused {
            line: first + place_of(head, verdict),
            why,
        },
        None => CheckHalt::NoMemory,
    }
}

// Holds the plan of a cycle, whose certificate was seen so, against all its tests.
fn test_plan(
    alloc: Global,
    inst: &Instance,
    carry: u64,
    budget: u32,
    first: u64,
    head: &Head,
    seen: &Seen,
) -> Result<(), CheckHalt>
    requires sound { IsSoundInstance (space inst.now) }
    requires few { (c : Certificate) × Tells (space inst.now) c seen.now
        × (first + end_place (headed head.now c) < 2 ^ 64) }
    ensures { (c : Certificate) → Tells (space inst.entry.now) c seen.entry.now
        → AnswersPlan result (space inst.entry.now) carry budget first (headed head.entry.now c) }
{
    match judge_seen(alloc, inst, carry, budget, head, seen) {
        Ok(()) => Ok(()),
        Err(verdict) => Err(refusal_of(head, first, verdict)),
    }
}

/// Checks the cycle that is viewed so, whose slot has begun with the state and whose first line has
/// this number: first its plan, and then all else that it tells. What it launches is launched where
/// nothing is wrong.
pub(crate) fn check_cycle(
    alloc: Global,
    trace: &Trace,
    state: &mut State,
    first: u64,
    head: &Head,
    view: &View,
) -> Result<SlotTally, CheckHalt>
    requires sound { IsSound (scenario trace.now) }
    requires sound_instance { IsSoundInstance (space view.now.slot.inst) }
    requires reached { IsReached (scenario trace.now) begun state.old }
    requires instance { space view.now.slot.inst ≡ instance_of (scenario trace.now) state.old }
    requires tells { (c : Certificate) × Tells (space view.now.slot.inst) c view.now.seen
        × (length (certificate_lines c) ≡ view.now.lines)
        × (first + end_place (headed head.now c) < 2 ^ 64) }
    requires starts { length head.now.starts.items ≡ length head.now.grants }
    ensures answer { (last : Snapshot) (c : Certificate)
        → IsViewOf (scenario trace.entry.now) last c state.old view.entry.now
        → AnswersCycle result (scenario trace.entry.now) last state.new first
        (headed head.entry.now c) }
    ensures most { IfOk result (λ tally. tally.optimal ≤ 1) }
    ensures small { IfOk result (λ tally. tally.worth < 2 ^ 64) }
{
    let inst = &view.slot.inst;
    let carry = state.carry(alloc, trace, inst)?;
    let carried = total(inst, &carry);
    let budget = trace.header.budget;
    test_plan(alloc, inst, carried, budget, first, head, &view.seen)?;
    let launch = find_launch(alloc, trace, inst, head.grants.as_slice())?;
    let expected = Expected {
        number: inst.now,
        happened: &view.slot.happened,
        starts: &launch.starts,
        launched: &launch.jobs,
    };
    if let Some(place) = first_other_line_by_head(head, view.lines, expected) {
        return Err(CheckHalt::Refused {
            line: first + place,
            why: Why::WrongEvents,
        });
    }
    let tally = SlotTally {
        worth: launch.worth,
        optimal: optimal_count(head.mark),
    };
    let prepared = state.prepare_launch(alloc, launch, &head.grants)?;
    state.apply(prepared);
    Ok(tally)
}
