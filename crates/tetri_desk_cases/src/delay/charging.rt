// Charged instances and densities of the slots of a trace.
ghost use Rattle.std.specs.Prelude.{◌*◌, ◌≤◌, IfOk, IfSome, OnOk};
ghost use Rattle.tetri_space.specs.Sound.{IsSound as IsSoundSpace};
ghost use Rattle.tetri_space.specs.Space.{space};
ghost use Rattle.tetri_state.specs.Reached as moment;
ghost use Rattle.tetri_state.specs.Reached.{IsReached};
ghost use Rattle.tetri_strl.specs.WellMade.{PEAK};
ghost use Rattle.tetri_trace.specs.Scenario.{scenario};
ghost use Rattle.tetri_trace.specs.Sound.{IsSound};

use crate::delay::settings::Settings;
use std::alloc::{AllocError, Global};
use tetri_delay::{Density, Jobs, Rates, charged_instance, density_of};
use tetri_space::Instance;
use tetri_state::State;
use tetri_tables::{Tally, answer, launch, tell_expr};
use tetri_trace::Trace;

// Goes through the next slot of a run that launches nothing. Past the end it is told as want of memory.
fn pass_slot(alloc: Global, trace: &Trace, state: &mut State) -> Result<(), AllocError>
    requires sound { IsSound (scenario trace.now) }
    requires reached { IsReached (scenario trace.now) moment.between state.old }
    ensures { OnOk result (IsReached (scenario trace.entry.now) moment.between state.new) }
{
    if trace.header.until <= state.now() {
        return Err(AllocError);
    }
    let _happened = state.begin_cycle(alloc, trace)?;
    let inst = state.instance(alloc, trace)?;
    let mut tally = Tally::new(alloc);
    launch(alloc, &mut tally, trace, state, &inst, "", "[]")
}

// The instance of a slot of a run that launches nothing, if the run has the slot.
fn instance_at(alloc: Global, trace: &Trace, slot: u32) -> Result<Option<Instance>, AllocError>
    requires { IsSound (scenario trace.now) }
    ensures { IfOk result (λ o. IfSome o (λ i. IsSoundSpace (space i))) }
{
    if trace.header.until <= slot {
        return Ok(None);
    }
    let mut state = State::open(alloc, trace)?;
    for _ in 0..slot {
        pass_slot(alloc, trace, &mut state)?;
    }
    if trace.header.until <= state.now() {
        return Ok(None);
    }
    let _happened = state.begin_cycle(alloc, trace)?;
    Ok(Some(state.instance(alloc, trace)?))
}

// The rates of the settings, where a density that they leave out is that of the instance.
fn rates_of(inst: &Instance, settings: &Settings) -> Rates
    ensures { result.density.worth ≤ 100000 * PEAK }
{
    let density = match settings.density {
        Some(Density { worth, node_slots }) => Density {
            worth: worth.min(100_000_000_000_000_000),
            node_slots,
        },
        None => density_of(inst),
    };
    Rates {
        density,
        ageing: settings.ageing,
    }
}

// A line for each job: its number and its charged expression.
fn charged_told(alloc: Global, inst: &Instance, settings: &Settings) -> Result<String, AllocError>
    requires { IsSoundSpace (space inst.now) }
{
    let jobs = Jobs {
        first: &settings.first,
        held: &settings.held,
    };
    let charged = charged_instance(alloc, inst, rates_of(inst, settings), jobs)?;
    let mut out = String::new(alloc);
    for offer in &charged.jobs {
        write!(out, "{} ", offer.job)?;
        tell_expr(&mut out, &offer.expr)?;
        out.push_str("\n")?;
    }
    Ok(out)
}

fn charged_at(alloc: Global, trace: &Trace, settings: &Settings) -> Result<String, AllocError>
    requires { IsSound (scenario trace.now) }
{
    match instance_at(alloc, trace, settings.at)? {
        Some(inst) => charged_told(alloc, &inst, settings),
        None => String::from_str(alloc, "no such slot"),
    }
}

fn density_at(alloc: Global, trace: &Trace, settings: &Settings) -> Result<String, AllocError>
    requires { IsSound (scenario trace.now) }
{
    match instance_at(alloc, trace, settings.at)? {
        Some(inst) => {
            let Density { worth, node_slots } = density_of(&inst);
            format!(in alloc; "{worth}/{node_slots}")
        }
        None => String::from_str(alloc, "no such slot"),
    }
}

/// The charged instance of a slot of the trace.
pub fn charged(alloc: Global, trace: &str, settings: &Settings) -> Result<String, AllocError> {
    match answer(alloc, trace.as_bytes())? {
        Ok(trace) => charged_at(alloc, &trace, settings),
        Err(_) => String::from_str(alloc, "the trace is not read"),
    }
}

/// The density of the instance of a slot of the trace.
pub fn density(alloc: Global, trace: &str, settings: &Settings) -> Result<String, AllocError> {
    match answer(alloc, trace.as_bytes())? {
        Ok(trace) => density_at(alloc, &trace, settings),
        Err(_) => String::from_str(alloc, "the trace is not read"),
    }
}
