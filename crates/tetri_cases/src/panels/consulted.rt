// Panels that are asked and taught, cycle by cycle of a run over a trace.
ghost use Rattle.std.specs.Prelude.{◌<◌, OnOk};
ghost use Rattle.tetri_space.specs.Lawful.{IsLawful};
ghost use Rattle.tetri_space.specs.Sound.{IsSound as IsSoundSpace};
ghost use Rattle.tetri_space.specs.Space.{space};
ghost use Rattle.tetri_space.specs.Trimmed.{IsThriftyForAll};
ghost use Rattle.tetri_state.specs.Reached as moment;
ghost use Rattle.tetri_state.specs.Reached.{IsReached};
ghost use Rattle.tetri_trace.specs.Scenario.{scenario};
ghost use Rattle.tetri_trace.specs.Sound.{IsSound};

use std::alloc::{AllocError, Global};
use tetri_advice::{Advice, Advisor, PanelOf};
use tetri_plan::{Plan, plan_cycle};
use tetri_space::Instance;
use tetri_state::State;
use tetri_strl::Allotment;
use tetri_tables::{
    Tally, add_debug, expand_text, grants_in, grants_told, halves, launch, plan_of,
};
use tetri_trace::Trace;

/// Who sits: how many, the strikes of each in seating order, and how often one was missed.
pub fn seats_told<A: Advisor>(alloc: Global, panel: &PanelOf<A>) -> Result<String, AllocError> {
    let mut out = format!(in alloc; "seats {}, strikes", panel.len())?;
    for place in 0..panel.len() {
        write!(out, " {}", panel.strikes(place))?;
    }
    write!(out, ", missed {}", panel.missed())?;
    Ok(out)
}

fn heard_told(out: &mut String, heard: &[bool]) -> Result<(), AllocError> {
    out.push_str("heard ")?;
    for is_heard in heard {
        out.push_str(if *is_heard { "y" } else { "n" })?;
    }
    Ok(())
}

fn advice_told(alloc: Global, advice: &Advice) -> Result<String, AllocError> {
    let mut out = String::new(alloc);
    heard_told(&mut out, &advice.heard)?;
    for given in &advice.given {
        let grants = grants_told(alloc, given.as_slice())?;
        write!(out, " [{grants}]")?;
    }
    Ok(out)
}

// Asks the panel, and tells who was heard and which lists were given.
fn consulted<A: Advisor>(
    alloc: Global,
    inst: &Instance,
    panel: &mut PanelOf<A>,
) -> Result<String, AllocError>
    requires { IsSoundSpace (space inst.now) }
{
    let advice = panel.consult(alloc, inst)?;
    advice_told(alloc, &advice)
}

// Teaches the panel these grants, and tells who sits then.
fn taught<A: Advisor>(
    alloc: Global,
    inst: &Instance,
    panel: &mut PanelOf<A>,
    grants: &str,
) -> Result<String, AllocError>
    requires { IsSoundSpace (space inst.now) }
{
    let chosen = grants_in(alloc, grants)?;
    panel.teach(alloc, inst, &chosen);
    seats_told(alloc, panel)
}

fn add_numbers(out: &mut String, plan: &Plan) -> Result<(), AllocError> {
    write!(out, "{} {} {} ", plan.low, plan.value, plan.bound)?;
    add_debug(out, &plan.mark)?;
    write!(out, " {} ", plan.nodes)
}

fn plan_told(alloc: Global, plan: &Plan) -> Result<String, AllocError> {
    let mut out = String::new(alloc);
    add_numbers(&mut out, plan)?;
    heard_told(&mut out, &plan.heard)?;
    let grants = grants_told(alloc, plan.grants.as_slice())?;
    write!(out, " [{grants}]")?;
    Ok(out)
}

// Plans the cycle with the panel, and tells of the plan.
fn planned<A: Advisor>(
    alloc: Global,
    inst: &Instance,
    carry: &Allotment,
    panel: &mut PanelOf<A>,
    budget: &str,
) -> Result<String, AllocError>
    requires sound { IsSoundSpace (space inst.now) }
    requires lawful { IsLawful (space inst.now) carry.now }
    requires thrifty { IsThriftyForAll (space inst.now) carry.now }
{
    let budget = budget.parse::<u32>().unwrap_or(1);
    let plan = plan_cycle(alloc, inst, carry, panel, budget)?;
    plan_told(alloc, &plan)
}

fn told<A: Advisor>(
    alloc: Global,
    inst: &Instance,
    carry: &Allotment,
    panel: &mut PanelOf<A>,
    what: &str,
) -> Result<String, AllocError>
    requires sound { IsSoundSpace (space inst.now) }
    requires lawful { IsLawful (space inst.now) carry.now }
    requires thrifty { IsThriftyForAll (space inst.now) carry.now }
{
    let (word, rest) = what.split_once(' ').unwrap_or((what, ""));
    match word {
        "seats" => seats_told(alloc, panel),
        "consult" => consulted(alloc, inst, panel),
        "teach" => taught(alloc, inst, panel, rest),
        "planned" => planned(alloc, inst, carry, panel, rest),
        _ => String::from_str(alloc, "no such word"),
    }
}

fn expect_row<A: Advisor>(
    alloc: Global,
    tally: &mut Tally,
    inst: &Instance,
    carry: &Allotment,
    panel: &mut PanelOf<A>,
    row: &str,
) -> Result<(), AllocError>
    requires sound { IsSoundSpace (space inst.now) }
    requires lawful { IsLawful (space inst.now) carry.now }
    requires thrifty { IsThriftyForAll (space inst.now) carry.now }
{
    let (what, wanted) = halves(row);
    let what = expand_text(alloc, what)?;
    let found = told(alloc, inst, carry, panel, what.as_str())?;
    let wanted = expand_text(alloc, wanted)?;
    tally.expect(row, found.as_str(), wanted.as_str())
}

// The rows of a cycle but for those of its plan.
fn expect_rows<A: Advisor>(
    alloc: Global,
    tally: &mut Tally,
    inst: &Instance,
    carry: &Allotment,
    panel: &mut PanelOf<A>,
    rows: &str,
) -> Result<(), AllocError>
    requires sound { IsSoundSpace (space inst.now) }
    requires lawful { IsLawful (space inst.now) carry.now }
    requires thrifty { IsThriftyForAll (space inst.now) carry.now }
{
    for row in rows.lines() {
        if !row.starts_with("plan ") {
            expect_row(alloc, tally, inst, carry, panel, row)?;
        }
    }
    Ok(())
}

fn cycle<A: Advisor>(
    alloc: Global,
    tally: &mut Tally,
    trace: &Trace,
    state: &mut State,
    panel: &mut PanelOf<A>,
    rows: &str,
) -> Result<(), AllocError>
    requires sound { IsSound (scenario trace.now) }
    requires reached { IsReached (scenario trace.now) moment.between state.old }
    ensures { OnOk result (IsReached (scenario trace.entry.now) moment.between state.new) }
{
    if trace.header.until <= state.now() {
        tally.expect(rows, "past the end", "a slot")?;
        return Err(AllocError);
    }
    let _happened = state.begin_cycle(alloc, trace)?;
    let inst = state.instance(alloc, trace)?;
    let carry = state.carry(alloc, trace, &inst)?;
    expect_rows(alloc, tally, &inst, &carry, panel, rows)?;
    let (grants, launched) = plan_of(rows);
    launch(alloc, tally, trace, state, &inst, grants, launched)
}

/// Rows of a panel over the cycles of a trace, a block for each cycle with a blank line behind it. `consult` asks the panel: who was heard,
/// and the lists that were given. `teach GRANTS` teaches it, and `seats` tells who sits. `planned BUDGET` plans the cycle with it: what the
/// best candidate was worth, value, bound, mark, nodes of the tree, who was heard, and the grants. `plan GRANTS => [LAUNCHED JOBS]` is what
/// the cycle launches; without it nothing is launched.
pub fn cycles<A: Advisor>(
    alloc: Global,
    tally: &mut Tally,
    trace: &Trace,
    panel: &mut PanelOf<A>,
    body: &str,
) -> Result<(), AllocError>
    requires { IsSound (scenario trace.now) }
{
    let mut state = State::open(alloc, trace)?;
    for rows in body.split("\n\n") {
        cycle(alloc, tally, trace, &mut state, panel, rows)?;
    }
    Ok(())
}
