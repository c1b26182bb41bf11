// What is seen of the certificate of the cycle that is being read.
ghost use Rattle.std.specs.Prelude.{◌≡◌, ◌<◌, ◌^◌, ◌∷◌, [], IfOk, OnOk};
ghost use Rattle.tetri_cert.specs.declared.certificate.Certificate.{Certificate};
ghost use Rattle.tetri_judge.specs.Seen.{WalksTree};
ghost use Rattle.tetri_report.specs.Reading.{with_node};
ghost use Rattle.tetri_run.specs.Checked.{HasBegun, IsViewOf, Sees, SeesSome};
ghost use Rattle.tetri_space.specs.Sound.{IsSound as IsSoundSpace};
ghost use Rattle.tetri_space.specs.Space.{space};
ghost use Rattle.tetri_state.specs.Reached.{IsReached, between};
ghost use Rattle.tetri_state.specs.Snapshot.{Snapshot};
ghost use Rattle.tetri_trace.specs.Scenario.{scenario};
ghost use Rattle.tetri_trace.specs.Sound.{IsSound};

use std::alloc::{AllocError, Global};
use tetri_cert::Mark;
use tetri_judge::{Seen, TreeWalk};
use tetri_space::Instance;
use tetri_state::{Happened, State};
use tetri_trace::Trace;

/// A slot that has begun: what happened at its beginning, and its instance.
#[derive(Drop)]
pub(crate) struct BegunSlot {
    pub(crate) happened: Happened,
    pub(crate) inst: Instance,
}

/// What is seen so far of a certificate, in place of its marks: the numbers of tops, where 0 and 0
/// also stand before its first line, or a walk over a tree in the instance of the slot, which began
/// at the tree's first node, and how many lines it has.
#[derive(Drop)]
pub(crate) enum Sight {
    Tops {
        columns: u64,
        rows: u64,
    },
    Tree {
        slot: BegunSlot,
        walk: TreeWalk,
        lines: u64,
    },
}

/// What a cycle is judged by: its slot, what was seen of its certificate, and how many lines that
/// has.
#[derive(Drop)]
pub(crate) struct View {
    pub(crate) slot: BegunSlot,
    pub(crate) seen: Seen,
    pub(crate) lines: u64,
}

// Begins the slot of the next cycle. Its only error is want of memory.
fn begin_slot(alloc: Global, trace: &Trace, state: &mut State) -> Result<BegunSlot, AllocError>
    requires sound { IsSound (scenario trace.now) }
    requires reached { IsReached (scenario trace.now) between state.old }
    requires in_run { state.old.now < (scenario trace.now).header.until }
    ensures { IfOk result (HasBegun (scenario trace.entry.now) state.old state.new) }
{
    let happened = state.begin_cycle(alloc, trace)?;
    let inst = state.instance(alloc, trace)?;
    Ok(BegunSlot { happened, inst })
}

// The walk over a tree in the instance of a slot, behind the first mark.
fn first_walk(alloc: Global, slot: &BegunSlot, mark: &Mark) -> Result<TreeWalk, AllocError>
    requires { IsSoundSpace (space slot.now.inst) }
    ensures { IfOk result (WalksTree (space slot.entry.now.inst) (mark.now ∷ [])) }
{
    let mut walk = TreeWalk::new(alloc, &slot.inst)?;
    walk.feed(alloc, mark)?;
    Ok(walk)
}

/// Sees one node more of the certificate, which is the next in preorder. Its only error is want of
/// memory.
pub(crate) fn see_node(
    alloc: Global,
    trace: &Trace,
    state: &mut State,
    sight: &mut Sight,
    mark: &Mark,
) -> Result<(), AllocError>
    requires sound { IsSound (scenario trace.now) }
    requires sees { SeesSome (scenario trace.now) state.old sight.old (2 ^ 63) }
    ensures { OnOk result ((last : Snapshot) (c : Certificate)
        → Sees (scenario trace.entry.now) last c state.old sight.old
        → Sees (scenario trace.entry.now) last (with_node c mark.now) state.new sight.new) }
{
    match sight {
        Sight::Tree { walk, lines, .. } => {
            walk.feed(alloc, mark)?;
            *lines += 1;
            Ok(())
        }
        Sight::Tops { .. } => {
            let slot = begin_slot(alloc, trace, state)?;
            let walk = first_walk(alloc, &slot, mark)?;
            *sight = Sight::Tree {
                slot,
                walk,
                lines: 1,
            };
            Ok(())
        }
    }
}

/// What the cycle is judged by whose certificate was seen so. Its only error is want of memory.
pub(crate) fn view_of(
    alloc: Global,
    trace: &Trace,
    state: &mut State,
    sight: Sight,
) -> Result<View, AllocError>
    requires sound { IsSound (scenario trace.now) }
    requires sees { SeesSome (scenario trace.now) state.old sight (2 ^ 63) }
    ensures { IfOk result (λ view. (last : Snapshot) (c : Certificate)
        → Sees (scenario trace.entry.now) last c state.old sight
        → IsViewOf (scenario trace.entry.now) last c state.new view) }
{
    match sight {
        Sight::Tops { columns, rows } => {
            let slot = begin_slot(alloc, trace, state)?;
            Ok(View {
                slot,
                seen: Seen::Tops { columns, rows },
                lines: 1,
            })
        }
        Sight::Tree { slot, walk, lines } => Ok(View {
            slot,
            seen: walk.end(),
            lines,
        }),
    }
}
