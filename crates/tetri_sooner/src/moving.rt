// Grants moved to earlier starts.
ghost use Rattle.tetri_space.specs.Sound.{IsSound};
ghost use Rattle.tetri_space.specs.Space.{space};

use crate::board::{Board, slots_in};
use std::alloc::{AllocError, Global};
use tetri_space::{Instance, leaf_of};
use tetri_strl::{Allotment, Expr, Grant, Leaf, copy_grant, copy_grants};

// A grant, and the leaf that it is for.
#[derive(Drop)]
struct Seat {
    grant: Grant,
    leaf: Leaf,
}

// The leaves between which the job chooses, and nothing where its offer is no such choice.
fn choices(inst: &Instance, job: u32) -> &[Expr] {
    match inst.jobs.binary_search_by_key(&job, |offer| offer.job) {
        Ok(at) => match &inst.jobs[at].expr {
            Expr::Max(parts) => parts.as_slice(),
            _ => &[],
        },
        Err(_) => &[],
    }
}

// Whether one of the parts is the leaf of this number.
fn is_among(parts: &[Expr], num: u32) -> bool {
    for part in parts {
        if let Expr::One(leaf) = part {
            if leaf.num == num {
                return true;
            }
        }
    }
    false
}

// Whether as many nodes for the other leaf are worth no less, and start sooner.
fn is_sooner(other: &Leaf, leaf: &Leaf) -> bool {
    other.start < leaf.start
        && other.v >= leaf.v
        && other.k == leaf.k
        && other.linear == leaf.linear
}

// Gives the seat the first of the leaves that starts sooner, is worth no less and has as many nodes left.
fn choose_sooner(
    alloc: Global,
    inst: &Instance,
    board: &mut Board,
    parts: &[Expr],
    seat: &mut Seat,
) -> Result<(), AllocError>
    requires { IsSound (space inst.now) }
{
    let count = seat.grant.nodes.as_slice().len();
    for part in parts {
        if let Expr::One(other) = part {
            if inst.now <= other.start && is_sooner(other, &seat.leaf) {
                let nodes = board.lowest(alloc, inst, other, count)?;
                if nodes.as_slice().len() == count {
                    seat.grant.leaf = other.num;
                    seat.grant.nodes = nodes;
                    seat.leaf = *other;
                    return Ok(());
                }
            }
        }
    }
    Ok(())
}

// Moves a seat to an earlier start, where its job chooses between leaves and one of them has the nodes.
fn move_seat(
    alloc: Global,
    inst: &Instance,
    board: &mut Board,
    seat: &mut Seat,
) -> Result<(), AllocError>
    requires { IsSound (space inst.now) }
{
    let parts = choices(inst, seat.grant.job);
    if !is_among(parts, seat.leaf.num) {
        return Ok(());
    }
    board.take_back(slots_in(inst, &seat.leaf), seat.grant.nodes.as_slice());
    choose_sooner(alloc, inst, board, parts, seat)?;
    board.give(slots_in(inst, &seat.leaf), seat.grant.nodes.as_slice());
    Ok(())
}

// The grants with their leaves, as far as all are known.
fn seats_of(alloc: Global, inst: &Instance, grants: &Allotment) -> Result<Vec<Seat>, AllocError>
    requires { IsSound (space inst.now) }
{
    let mut seats = Vec::new(alloc);
    for grant in grants.as_slice() {
        match leaf_of(inst, grant.job, grant.leaf) {
            Some(leaf) => {
                let grant = copy_grant(alloc, grant)?;
                seats.push(Seat { grant, leaf })?;
            }
            None => return Ok(seats),
        }
    }
    Ok(seats)
}

/// The grants, of which in order of their starts each is moved to an earlier start, where its job
/// chooses between leaves and one of these starts sooner, is worth no less, and has as many nodes
/// that are free and that no other grant has. Lists of lawful grants are meant; what is made is to
/// be tested. Its only error is want of memory.
pub fn moved_sooner(
    alloc: Global,
    inst: &Instance,
    grants: &Allotment,
) -> Result<Allotment, AllocError>
    requires { IsSound (space inst.now) }
{
    let mut seats = seats_of(alloc, inst, grants)?;
    let mut board = Board::new(alloc, inst.nodes)?;
    for seat in &seats {
        board.give(slots_in(inst, &seat.leaf), seat.grant.nodes.as_slice());
    }
    for slot in inst.now + 1..inst.now + inst.window {
        for seat in &mut seats {
            if seat.leaf.start == slot {
                move_seat(alloc, inst, &mut board, seat)?;
            }
        }
    }
    let mut moved = Allotment::new(alloc);
    for seat in seats {
        moved.push(seat.grant)?;
    }
    Ok(moved)
}
