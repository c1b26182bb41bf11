// A run by a policy, while an observer looks on.
ghost use Rattle.std.specs.Prelude.{◌≡◌, ◌<◌, IfOk, OnOk, length};
ghost use Rattle.tetri_policy.specs.Decided.{IsDecided};
ghost use Rattle.tetri_policy.specs.Run.{HasSeenRun, RanCycle};
ghost use Rattle.tetri_policy.specs.declared.policy.Policy.{Policy};
ghost use Rattle.tetri_space.specs.Sound.{IsSound as IsSoundSpace};
ghost use Rattle.tetri_space.specs.Space.{space};
ghost use Rattle.tetri_space.specs.Total.{tops_in, total_in};
ghost use Rattle.tetri_state.specs.Reached.{IsReached, between};
ghost use Rattle.tetri_state.specs.Snapshot.{Snapshot};
ghost use Rattle.tetri_trace.specs.Scenario.{scenario};
ghost use Rattle.tetri_trace.specs.Sound.{IsSound};

use crate::deciding::policy_grants;
use crate::laws::policies_are_lawful;
use crate::policy::Policy;
use std::alloc::{AllocError, Global};
use tetri_cert::PlanMark;
use tetri_cycles::{Observer, SeenSlot};
use tetri_report::Head;
use tetri_space::{Instance, tops, total};
use tetri_state::{Happened, Launch, State, find_launch};
use tetri_strl::Allotment;
use tetri_trace::Trace;

// How many pieces run in a state. Its only error is that they are more than memory can hold.
fn count_pieces(state: &State) -> Result<usize, AllocError>
    ensures { IfOk result (λ count. count ≡ length state.entry.now.pieces) }
{
    for count in 0..usize::MAX {
        if state.piece(count).is_none() {
            return Ok(count);
        }
    }
    Err(AllocError)
}

/// A slot in which a policy has decided: its instance, how many pieces run, what its cycle tells, and the launch of its grants.
#[derive(Drop)]
pub(crate) struct Decided {
    pub(crate) inst: Instance,
    pub(crate) held: usize,
    pub(crate) head: Head,
    pub(crate) launch: Launch,
}

// All that the cycle of an instance tells with these grants, before which this happened.
fn head_of(
    alloc: Global,
    inst: &Instance,
    happened: Happened,
    grants: Allotment,
    launch: &Launch,
) -> Result<Head, AllocError>
    requires { IsSoundSpace (space inst.now) }
    ensures number { IfOk result (λ h. h.number ≡ (space inst.entry.now).now) }
    ensures happened { IfOk result (λ h. h.happened ≡ happened) }
    ensures value { IfOk result (λ h. h.value ≡ total_in (space inst.entry.now) grants) }
    ensures bound { IfOk result (λ h. h.bound ≡ tops_in (space inst.entry.now)) }
    ensures mark { IfOk result (λ h. h.mark ≡ PlanMark.Wide) }
    ensures unsearched { IfOk result (λ h. h.nodes ≡ 0) }
    ensures grants { IfOk result (λ h. h.grants ≡ grants) }
    ensures starts { IfOk result (λ h. h.starts.items ≡ launch.entry.now.starts.items) }
    ensures launched { IfOk result (λ h. h.launched.items ≡ launch.entry.now.jobs.items) }
{
    let value = total(inst, &grants);
    let bound = tops(inst);
    let starts = Vec::from_slice(alloc, &launch.starts)?;
    let launched = Vec::from_slice(alloc, &launch.jobs)?;
    Ok(Head {
        number: inst.now,
        happened,
        value,
        bound,
        mark: PlanMark::Wide,
        nodes: 0,
        grants,
        starts,
        launched,
    })
}

// Begins the slot of a state, and decides by the policy. Its only error is want of memory.
fn decide(
    alloc: Global,
    trace: &Trace,
    state: &mut State,
    policy: Policy,
) -> Result<Decided, AllocError>
    requires sound { IsSound (scenario trace.now) }
    requires reached { IsReached (scenario trace.now) between state.old }
    requires in_run { state.old.now < (scenario trace.now).header.until }
    ensures { IfOk result (IsDecided policy (scenario trace.entry.now) state.old state.new) }
{
    let happened = state.begin_cycle(alloc, trace)?;
    let inst = state.instance(alloc, trace)?;
    let held = count_pieces(state)?;
    let grants = policy_grants(alloc, &inst, policy)?;
    policies_are_lawful(&inst);
    let launch = find_launch(alloc, trace, &inst, grants.as_slice())?;
    let head = head_of(alloc, &inst, happened, grants, &launch)?;
    Ok(Decided {
        inst,
        held,
        head,
        launch,
    })
}

// Launches what was decided, and shows the cycle. Its only error is want of memory.
fn launch_and_show<O: Observer>(
    alloc: Global,
    trace: &Trace,
    state: &mut State,
    decided: Decided,
    observer: &mut O,
) -> Result<(), AllocError>
    requires sound { IsSound (scenario trace.now) }
    requires decided { (p : Policy) × (s : Snapshot) × IsDecided p (scenario trace.now) s state.old decided }
    ensures ran { (p : Policy) (s : Snapshot) → IsDecided p (scenario trace.entry.now) s state.old decided
        → OnOk result (RanCycle O.saw p (scenario trace.entry.now) s state.new observer.old observer.new) }
    ensures reached { OnOk result (IsReached (scenario trace.entry.now) between state.new) }
{
    let Decided {
        inst,
        held,
        head,
        launch,
    } = decided;
    let worth = launch.worth;
    let prepared = state.prepare_launch(alloc, launch, &head.grants)?;
    state.apply(prepared);
    let slot = SeenSlot {
        inst: &inst,
        held,
        worth,
    };
    observer.see(alloc, trace, state, slot, &head)?;
    Ok(())
}

// Runs the slot that begins in this state, and shows its cycle. Its only error is want of memory.
fn run_slot<O: Observer>(
    alloc: Global,
    trace: &Trace,
    state: &mut State,
    policy: Policy,
    observer: &mut O,
) -> Result<(), AllocError>
    requires sound { IsSound (scenario trace.now) }
    requires reached { IsReached (scenario trace.now) between state.old }
    requires in_run { state.old.now < (scenario trace.now).header.until }
    ensures ran { OnOk result (RanCycle O.saw policy (scenario trace.entry.now) state.old state.new observer.old observer.new) }
    ensures reached { OnOk result (IsReached (scenario trace.entry.now) between state.new) }
{
    let decided = decide(alloc, trace, state, policy)?;
    launch_and_show(alloc, trace, state, decided, observer)?;
    Ok(())
}

/// Runs all slots of a trace under a policy, and shows each cycle to the observer once it is launched, as `check_seen` shows those of a
/// report. Its only error is want of memory; then the observer may have been shown some cycles.
pub fn observe_policy<O: Observer>(
    alloc: Global,
    trace: &Trace,
    policy: Policy,
    observer: &mut O,
) -> Result<(), AllocError>
    requires { IsSound (scenario trace.now) }
    ensures { OnOk result (HasSeenRun O.saw policy (scenario trace.entry.now) observer.old observer.new) }
{
    let mut state = State::open(alloc, trace)?;
    for number in 0..trace.header.until {
        run_slot(alloc, trace, &mut state, policy, observer)?;
    }
    Ok(())
}
