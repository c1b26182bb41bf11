// Plans of a cycle that a table gives, and what they launch.
ghost use Rattle.std.specs.Prelude.{◌≡◌, IsTrue, OnOk};
ghost use Rattle.tetri_space.specs.Sound.{IsSound as IsSoundSpace};
ghost use Rattle.tetri_space.specs.Space.{space};
ghost use Rattle.tetri_space.specs.Trimmed.{IsThriftyForAll};
ghost use Rattle.tetri_state.specs.Planning.{instance_of};
ghost use Rattle.tetri_state.specs.Reached as moment;
ghost use Rattle.tetri_state.specs.Reached.{IsReached};
ghost use Rattle.tetri_trace.specs.Scenario.{scenario};
ghost use Rattle.tetri_trace.specs.Sound.{IsSound};

use crate::escapes::expand_text;
use crate::grants::{grants_in, grants_told};
use crate::tallies::{Tally, halves};
use std::alloc::{AllocError, Global};
use tetri_space::{Instance, lawful};
use tetri_state::{Prepared, State};
use tetri_strl::{Allotment, waste};
use tetri_trace::Trace;

fn is_thrifty(inst: &Instance, a: &Allotment) -> bool
    requires { IsSoundSpace (space inst.now) }
    ensures { IsTrue result → IsThriftyForAll (space inst.entry.now) a.now }
{
    for offer in &inst.jobs {
        if waste(&offer.expr, offer.job, a).is_some() {
            return false;
        }
    }
    true
}

/// The grants that the row `plan GRANTS => [LAUNCHED JOBS]` plans, and what they are to launch; no grants where there is no such row.
pub fn plan_of(rows: &str) -> (&str, &str) {
    for row in rows.lines() {
        let (what, wanted) = halves(row);
        if let Some(grants) = what.strip_prefix("plan ") {
            return (grants, wanted);
        }
    }
    ("", "[]")
}

// Expects these jobs to be launched, and the last plan to be the text of the grants.
fn expect_launch(
    alloc: Global,
    tally: &mut Tally,
    prepared: &Prepared,
    grants: &str,
    text: &str,
    wanted: &str,
) -> Result<(), AllocError> {
    let launched = format!(in alloc; "{:?}", prepared.launched())?;
    let wanted = expand_text(alloc, wanted)?;
    tally.expect(grants, launched.as_str(), wanted.as_str())?;
    let kept = grants_told(alloc, prepared.grants().as_slice())?;
    tally.expect("the last plan", kept.as_str(), text)
}

/// Launches what these grants plan, and expects these jobs to be launched; both may have repetitions. Grants that are not lawful, or not thrifty, are told as a
/// difference, and end the table.
pub fn launch(
    alloc: Global,
    tally: &mut Tally,
    trace: &Trace,
    state: &mut State,
    inst: &Instance,
    grants: &str,
    wanted: &str,
) -> Result<(), AllocError>
    requires sound { IsSound (scenario trace.now) }
    requires reached { IsReached (scenario trace.now) moment.begun state.old }
    requires instance { space inst.now ≡ instance_of (scenario trace.now) state.old }
    requires instance_sound { IsSoundSpace (space inst.now) }
    ensures { OnOk result (IsReached (scenario trace.entry.now) moment.between state.new) }
{
    let text = expand_text(alloc, grants)?;
    let plan = grants_in(alloc, text.as_str())?;
    if lawful(inst, &plan).is_err() || !is_thrifty(inst, &plan) {
        tally.expect(grants, "not lawful, or not thrifty", "a plan")?;
        return Err(AllocError);
    }
    let prepared = state.prepare(alloc, trace, inst, &plan)?;
    expect_launch(alloc, tally, &prepared, grants, text.as_str(), wanted)?;
    state.apply(prepared);
    Ok(())
}
