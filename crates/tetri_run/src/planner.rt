// The plan of one cycle, all else that the cycle tells, and its launch.
ghost use Rattle.std.specs.Prelude.{◌≡◌, ◌<◌, ◌≤◌, ◌^◌, List, All, AllPairs, IfOk, length, map};
ghost use Rattle.tetri_advice.specs.Seat.{creeds_of};
ghost use Rattle.tetri_advice.specs.Sitting.{seats};
ghost use Rattle.tetri_claims.specs.Good.{BoundsEveryLawful, IsThriftyForAll};
ghost use Rattle.tetri_judge.specs.PlanOf.{planned};
ghost use Rattle.tetri_plan.specs.Chosen.{IsChosen};
ghost use Rattle.tetri_plan.specs.Plans.{IsPrintableTree, planned_of};
ghost use Rattle.tetri_report.specs.Block.{block};
ghost use Rattle.tetri_report.specs.Printable.{HaveSmallLeaves, IsInRange};
ghost use Rattle.tetri_run.specs.Advised.{IsAdvice};
ghost use Rattle.tetri_run.specs.Cycle.{IsPlanFor};
ghost use Rattle.tetri_space.specs.GrantOrder.{ComesBefore};
ghost use Rattle.tetri_space.specs.Lawful.{IsLawful};
ghost use Rattle.tetri_space.specs.Space.{space};
ghost use Rattle.tetri_space.specs.Sound.{IsSound};
ghost use Rattle.tetri_state.specs.After.{starting_pieces};
ghost use Rattle.tetri_state.specs.Launch.{launched_in, start_of, worth_launched};
ghost use Rattle.tetri_strl.specs.declared.grants.Grant.{Grant};
ghost use Rattle.tetri_trace.specs.Scenario.{scenario};
ghost use Rattle.tetri_trace.specs.Sound.{IsSound as IsSoundTrace};

use std::alloc::{AllocError, Global};
use tetri_advice::{Advisor, PanelOf};
use tetri_plan::{Chooser, Plan, plan_cycle};
use tetri_report::Cycle;
use tetri_space::Instance;
use tetri_state::{Happened, Launch, find_launch};
use tetri_strl::Allotment;
use tetri_trace::Trace;

/// A cycle, and the launch of its grants.
#[derive(Drop)]
pub(crate) struct Told {
    pub(crate) cycle: Cycle,
    pub(crate) launch: Launch,
}

/// The cycle of this instance of the trace with this plan, before which this happened, and its
/// launch. Its only error is want of memory.
fn told_plan(
    alloc: Global,
    trace: &Trace,
    inst: &Instance,
    happened: Happened,
    plan: Plan,
) -> Result<Told, AllocError>
    requires trace { IsSoundTrace (scenario trace.now) }
    requires known { All (λ b. b.job < length (scenario trace.now).submissions)
        (space inst.now).bids }
    requires sound { IsSound (space inst.now) }
    requires ended { HaveSmallLeaves happened.ended.items }
    requires over { HaveSmallLeaves happened.over.items }
    requires printable { IsPrintableTree plan.certificate }
    ensures number { IfOk result (λ t. t.cycle.number ≡ (space inst.entry.now).now) }
    ensures happened { IfOk result (λ t. t.cycle.happened ≡ happened) }
    ensures plan { IfOk result (λ t. planned (block t.cycle) ≡ planned_of plan) }
    ensures starts { IfOk result (λ t. (block t.cycle).starts
        ≡ map (start_of (space inst.entry.now)) plan.grants) }
    ensures launched { IfOk result (λ t. (block t.cycle).launched
        ≡ launched_in (space inst.entry.now) plan.grants) }
    ensures in_range { IfOk result (λ t. IsInRange (block t.cycle)) }
    ensures jobs { IfOk result (λ t. t.launch.jobs.items
        ≡ launched_in (space inst.entry.now) plan.grants) }
    ensures pieces { IfOk result (λ t. t.launch.pieces.items
        ≡ starting_pieces (scenario trace.entry.now) (space inst.entry.now) plan.grants) }
    ensures worth { IfOk result (λ t. t.launch.worth
        ≡ worth_launched (space inst.entry.now) plan.grants) }
{
    let launch = find_launch(alloc, trace, inst, plan.grants.as_slice())?;
    let starts = Vec::from_slice(alloc, &launch.starts)?;
    let launched = Vec::from_slice(alloc, &launch.jobs)?;
    let cycle = Cycle {
        number: inst.now,
        happened,
        value: plan.value,
        bound: plan.bound,
        mark: plan.mark,
        nodes: plan.nodes,
        grants: plan.grants,
        starts,
        certificate: plan.certificate,
        launched,
    };
    Ok(Told { cycle, launch })
}

/// The cycle of this instance of the trace, before which this happened and from whose predecessor
/// this is carried over, with the plan that is chosen with the trace's budget once the panel was
/// asked.
pub(crate) fn told_cycle<A: Advisor>(
    alloc: Global,
    trace: &Trace,
    inst: &Instance,
    happened: Happened,
    carry: &Allotment,
    panel: &mut PanelOf<A>,
) -> Result<Told, AllocError>
    requires trace { IsSoundTrace (scenario trace.now) }
    requires known { All (λ b. b.job
        < length (scenario trace.now).submissions) (space inst.now).bids }
    requires sound { IsSound (space inst.now) }
    requires lawful { IsLawful (space inst.now) carry.now }
    requires thrifty { IsThriftyForAll (space inst.now) carry.now }
    requires ended { HaveSmallLeaves happened.ended.items }
    requires over { HaveSmallLeaves happened.over.items }
    ensures number { IfOk result (λ t. t.cycle.number ≡ (space inst.entry.now).now) }
    ensures happened { IfOk result (λ t. t.cycle.happened ≡ happened) }
    ensures plan { IfOk result
        (λ t. IsPlanFor (space inst.entry.now)
        (scenario trace.entry.now).header.budget carry.entry.now (block t.cycle)) }
    ensures bounded { IfOk result (λ t. BoundsEveryLawful (space inst.entry.now) t.cycle.bound) }
    ensures chosen { IfOk result (λ t. (given : List (List Grant))
        × IsAdvice (seats A.says A.misses A.creed panel.old) panel.old.missed
        (seats A.says A.misses A.creed panel.new) panel.new.missed (space inst.entry.now) given
        × IsChosen (space inst.entry.now) carry.entry.now given
        (scenario trace.entry.now).header.budget (planned (block t.cycle))) }
    ensures ordered { IfOk result (λ t. AllPairs ComesBefore t.cycle.grants) }
    ensures printable { IfOk result (λ t. IsPrintableTree t.cycle.certificate) }
    ensures in_range { IfOk result (λ t. IsInRange (block t.cycle)) }
    ensures jobs { IfOk result (λ t. t.launch.jobs.items
        ≡ launched_in (space inst.entry.now) t.cycle.grants) }
    ensures pieces { IfOk result (λ t. t.launch.pieces.items
        ≡ starting_pieces (scenario trace.entry.now) (space inst.entry.now) t.cycle.grants) }
    ensures worth { IfOk result (λ t. t.launch.worth
        ≡ worth_launched (space inst.entry.now) t.cycle.grants) }
    ensures creeds { creeds_of (seats A.says A.misses A.creed panel.new)
        ≡ creeds_of (seats A.says A.misses A.creed panel.old) }
    ensures later_misses { panel.old.missed ≤ panel.new.missed }
{
    let plan = plan_cycle(alloc, inst, carry, panel, trace.header.budget)?;
    let told = told_plan(alloc, trace, inst, happened, plan)?;
    Ok(told)
}

/// The same with the plan that a chooser chooses.
pub(crate) fn told_choice<C: Chooser>(
    alloc: Global,
    trace: &Trace,
    inst: &Instance,
    happened: Happened,
    carry: &Allotment,
    chooser: &mut C,
) -> Result<Told, AllocError>
    requires trace { IsSoundTrace (scenario trace.now) }
    requires known { All (λ b. b.job < length (scenario trace.now).submissions)
        (space inst.now).bids }
    requires sound { IsSound (space inst.now) }
    requires lawful { IsLawful (space inst.now) carry.now }
    requires thrifty { IsThriftyForAll (space inst.now) carry.now }
    requires ended { HaveSmallLeaves happened.ended.items }
    requires over { HaveSmallLeaves happened.over.items }
    ensures number { IfOk result (λ t. t.cycle.number ≡ (space inst.entry.now).now) }
    ensures happened { IfOk result (λ t. t.cycle.happened ≡ happened) }
    ensures plan { IfOk result (λ t. IsPlanFor (space inst.entry.now)
        (scenario trace.entry.now).header.budget carry.entry.now (block t.cycle)) }
    ensures bounded { IfOk result (λ t. BoundsEveryLawful (space inst.entry.now) t.cycle.bound) }
    ensures ordered { IfOk result (λ t. AllPairs ComesBefore t.cycle.grants) }
    ensures printable { IfOk result (λ t. IsPrintableTree t.cycle.certificate) }
    ensures in_range { IfOk result (λ t. IsInRange (block t.cycle)) }
    ensures jobs { IfOk result (λ t. t.launch.jobs.items
        ≡ launched_in (space inst.entry.now) t.cycle.grants) }
    ensures pieces { IfOk result (λ t. t.launch.pieces.items
        ≡ starting_pieces (scenario trace.entry.now) (space inst.entry.now) t.cycle.grants) }
    ensures worth { IfOk result (λ t. t.launch.worth
        ≡ worth_launched (space inst.entry.now) t.cycle.grants) }
{
    let plan = chooser.plan(alloc, inst, carry, trace.header.budget)?;
    let told = told_plan(alloc, trace, inst, happened, plan)?;
    Ok(told)
}
