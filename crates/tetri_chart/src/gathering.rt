// What is gathered of a report while it is checked.
ghost use Rattle.std.specs.Prelude.{◌≡◌, ◌++◌, [], ℕ, List, Option, map, IfOk, OnOk};
ghost use Rattle.tetri_chart.specs.Gathered.{picture_with};
ghost use Rattle.tetri_chart.specs.Picture.{picture_of};
ghost use Rattle.tetri_chart.specs.Pieces.{span_of};
ghost use Rattle.tetri_report.specs.Block.{Block};
ghost use Rattle.tetri_state.specs.Snapshot.{Snapshot, opening_state};
ghost use Rattle.tetri_trace.specs.Scenario.{Scenario};

use crate::marks::mark_of;
use crate::picture::{Chart, CycleMark, Span, Wait};
use crate::slot::{add_asked, add_pieces, part, span_of};
use std::alloc::{AllocError, Global};
use tetri_cycles::{Observer, SeenSlot};
use tetri_report::Head;
use tetri_state::{Piece, State};
use tetri_svg::Fate;
use tetri_trace::Trace;

/// What is gathered of the cycles so far: the cycle whose waiting grants are asked for, if one is, the pieces that run behind them, as they
/// were launched, those that have left, and the numbers and the waiting grants of the cycles.
#[derive(Drop)]
pub(crate) struct Gathering {
    pub(crate) asked: Option<u32>,
    pub(crate) active: Vec<Piece>,
    pub(crate) spans: Vec<Span>,
    pub(crate) cycles: Vec<CycleMark>,
    pub(crate) waits: Vec<Wait>,
}

impl Gathering {
    /// Nothing is gathered yet.
    pub(crate) fn new(alloc: Global, asked: Option<u32>) -> Gathering
        ensures asked { result.asked ≡ asked }
        ensures nothing { (t : Scenario) (blocks : List Block)
            → picture_with t (opening_state t) result blocks ≡ picture_of t asked blocks }
    {
        Gathering {
            asked,
            active: Vec::new(alloc),
            spans: Vec::new(alloc),
            cycles: Vec::new(alloc),
            waits: Vec::new(alloc),
        }
    }
}

impl Observer for Gathering {
    ghost use Rattle.tetri_chart.specs.Gathered.{IsTaken};

    ghost saw = { IsTaken };

    fn see(
        &mut self,
        alloc: Global,
        trace: &Trace,
        state: &State,
        slot: SeenSlot<'_>,
        head: &Head,
    ) -> Result<(), AllocError> {
        let inst = slot.inst;
        let active = std::mem::replace(&mut self.active, Vec::new(alloc));
        self.active = part(alloc, active, inst.now, &head.happened, &mut self.spans)?;
        add_pieces(alloc, state, slot.held, &mut self.active)?;
        let grants = head.grants.as_slice();
        add_asked(alloc, self.asked, inst, grants, &mut self.waits)?;
        let nodes = trace.cluster.count();
        let mark = mark_of(alloc, inst, &self.active, nodes, head)?;
        self.cycles.push(mark)?;
        Ok(())
    }
}

// Adds the pieces that run on as the run ends.
fn close(active: Vec<Piece>, until: u32, spans: &mut Vec<Span>) -> Result<(), AllocError>
    ensures { OnOk result (spans.new.items ≡ spans.old.items ++ map (span_of until Fate.RunsOn) active.items) }
{
    for piece in active {
        spans.push(span_of(piece, until, Fate::RunsOn))?;
    }
    Ok(())
}

/// What a picture shows of which this was gathered, of a run that ends in this slot.
pub(crate) fn chart_of(gathering: Gathering, until: u32) -> Result<Chart, AllocError>
    ensures { IfOk result (λ c. (t : Scenario) (s : Snapshot) → s.now ≡ until
        → c ≡ picture_with t s gathering []) }
{
    let Gathering {
        asked,
        active,
        mut spans,
        cycles,
        waits,
    } = gathering;
    close(active, until, &mut spans)?;
    Ok(Chart {
        spans,
        cycles,
        asked,
        waits,
    })
}
