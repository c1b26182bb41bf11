// What is gathered of the cycles of a run.
ghost use Rattle.std.specs.Prelude.{◌≡◌, ◌++◌, ◌∷◌, [], drop, filter, length, map, OnOk};
ghost use Rattle.tetri_accounts.specs.Rows.{departing, leaving, row_of, staying};
ghost use Rattle.tetri_accounts.specs.Taken.{IsFresh};
ghost use Rattle.tetri_base.specs.Lists.{has};
ghost use Rattle.tetri_space.specs.Sound.{IsSound as IsSoundSpace};
ghost use Rattle.tetri_space.specs.Space.{space};
ghost use Rattle.tetri_state.specs.Begin.{occurrences};

use crate::own::{grants_by_job, pieces_by_job};
use crate::row::{CycleNote, Departure, Row};
use crate::slot::{add_departing, add_rows, ascending, part};
use std::alloc::{AllocError, Global};
use tetri_cycles::{Observer, SeenSlot};
use tetri_report::Head;
use tetri_space::Instance;
use tetri_state::State;
use tetri_trace::Trace;

/// The ledger of a run: the launches that run behind its cycles so far, those that ran, the jobs that were cancelled or expired, and what
/// is noted of the cycles.
#[derive(Drop)]
pub struct Ledger {
    pub(crate) running: Vec<Row>,
    pub(crate) closed: Vec<Row>,
    pub(crate) gone: Vec<Departure>,
    pub(crate) cycles: Vec<CycleNote>,
}

impl Ledger {
    /// A ledger of no cycle.
    pub fn new(alloc: Global) -> Ledger
        ensures { IsFresh result }
    {
        Ledger {
            running: Vec::new(alloc),
            closed: Vec::new(alloc),
            gone: Vec::new(alloc),
            cycles: Vec::new(alloc),
        }
    }
}

// Adds the launches of a cycle, in the state behind it, whose new pieces stand from this place on.
fn add_launches(
    alloc: Global,
    state: &State,
    from: usize,
    inst: &Instance,
    head: &Head,
    running: &mut Vec<Row>,
) -> Result<(), AllocError>
    requires sound { IsSoundSpace (space inst.now) }
    ensures { OnOk result (running.new.items ≡ running.old.items ++ map (row_of head.entry.now.grants (drop from state.entry.now.pieces) inst.entry.now.now)
        (filter (λ b. has head.entry.now.launched.items b.job) (space inst.entry.now).bids)) }
{
    let launched = ascending(alloc, &head.launched)?;
    let grants = grants_by_job(alloc, &head.grants)?;
    let pieces = pieces_by_job(alloc, state, from)?;
    add_rows(alloc, &pieces, inst, &grants, &launched, running)?;
    Ok(())
}

// What is noted of a cycle.
fn note_of(inst: &Instance, head: &Head) -> CycleNote
    ensures { result ≡ record {
      jobs = length (space inst.entry.now).bids;
      value = head.now.value;
      bound = head.now.bound;
      mark = head.now.mark;
      nodes = head.now.nodes;
    } }
{
    CycleNote {
        jobs: inst.jobs.len(),
        value: head.value,
        bound: head.bound,
        mark: head.mark,
        nodes: head.nodes,
    }
}

impl Ledger {
    // Takes a cycle in: the state behind it, what it planned for, how many pieces ran before its launch, and what it tells.
    fn take(
        &mut self,
        alloc: Global,
        state: &State,
        inst: &Instance,
        held: usize,
        head: &Head,
    ) -> Result<(), AllocError>
        requires { IsSoundSpace (space inst.now) }
        ensures running { OnOk result (self.new.running.items ≡ staying (occurrences head.entry.now.happened) inst.entry.now.now self.old.running.items
            ++ map (row_of head.entry.now.grants (drop held state.entry.now.pieces) inst.entry.now.now)
            (filter (λ b. has head.entry.now.launched.items b.job) (space inst.entry.now).bids)) }
        ensures closed { OnOk result (self.new.closed.items ≡ self.old.closed.items
            ++ leaving (occurrences head.entry.now.happened) inst.entry.now.now self.old.running.items) }
        ensures gone { OnOk result (self.new.gone.items ≡ self.old.gone.items ++ departing (occurrences head.entry.now.happened) inst.entry.now.now) }
        ensures cycles { OnOk result (self.new.cycles.items ≡ self.old.cycles.items ++ record {
          jobs = length (space inst.entry.now).bids;
          value = head.entry.now.value;
          bound = head.entry.now.bound;
          mark = head.entry.now.mark;
          nodes = head.entry.now.nodes;
        } ∷ []) }
    {
        let before = std::mem::replace(&mut self.running, Vec::new(alloc));
        let mut running = part(alloc, before, inst.now, &head.happened, &mut self.closed)?;
        add_launches(alloc, state, held, inst, head, &mut running)?;
        self.running = running;
        add_departing(&head.happened, inst.now, &mut self.gone)?;
        self.cycles.push(note_of(inst, head))?;
        Ok(())
    }
}

impl Observer for Ledger {
    ghost use Rattle.tetri_accounts.specs.Taken.{IsTaken};

    ghost saw = { IsTaken };

    fn see(
        &mut self,
        alloc: Global,
        _trace: &Trace,
        state: &State,
        slot: SeenSlot<'_>,
        head: &Head,
    ) -> Result<(), AllocError> {
        self.take(alloc, state, slot.inst, slot.held, head)?;
        Ok(())
    }
}
