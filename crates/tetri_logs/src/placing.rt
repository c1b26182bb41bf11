// The place of a job in a trace.
ghost use Rattle.std.specs.Prelude.{◌≡◌, ◌≤◌, ◌<◌, ◌^◌, true, IfOk, IfSome, is_ok, nat_le};
ghost use Rattle.tetri_logs.specs.Options.{AreGood};
ghost use Rattle.tetri_logs.specs.Placing.{IsPlaced, arrival_of, ask_of, cancel_of, is_outside, late_of, place, within_run, within_slots};
ghost use Rattle.tetri_logs.specs.Scale.{nodes_of, room_of, slot_of, slots_of};

use crate::account::Account;
use crate::entry::Cause;
use crate::options::Settings;
use crate::scale::{is_part_node, moment_of, nodes_of, room_of, slot_of, slots_of, worth_of};
use tetri_request::Ask;

// The slots that a trace has at most, and the greatest worth.
const RUN: u64 = 10_000;

const PEAK: u64 = 1_000_000_000_000;

/// When a job arrives, how late it ends, what it asks for, and when it is cancelled while it waits.
#[derive(Clone, Copy, Debug, PartialEq, Eq)]
pub struct Placing {
    pub arrival: u32,
    pub late: i32,
    pub ask: Ask,
    pub cancel: Option<u32>,
    /// Whether it asks for fewer processors than a node has, and takes a whole one.
    pub part_node: bool,
}

/// Whether a job that was submitted at this second is outside the part of the log that is wanted.
pub fn is_outside(settings: &Settings, moment: u64) -> bool
    ensures { result ≡ is_outside settings.now moment }
{
    moment < settings.from || settings.to <= moment
}

// The number, if it is a slot of a run.
fn within_run(slot: u64) -> Result<u32, Cause>
    ensures value { result ≡ within_run slot }
    ensures small { IfOk result (λ n. n < 10000) }
{
    if slot < RUN {
        Ok(slot as u32)
    } else {
        Err(Cause::Beyond)
    }
}

// The slot in which a job arrives, not before slot 0.
fn arrival_of(settings: &Settings, moment: u64) -> Result<u32, Cause>
    requires { AreGood settings.now }
    ensures value { result ≡ arrival_of settings.now moment }
    ensures small { IfOk result (λ n. n < 10000) }
{
    if moment < settings.origin {
        return Err(Cause::Beyond);
    }
    within_run(slot_of(settings, moment))
}

// How many slots longer than it asked for a job ran.
fn late_of(settings: &Settings, slots: u32, ran: Option<u32>) -> Result<i32, Cause>
    requires good { AreGood settings.now }
    requires small { slots ≤ 10000 }
    ensures { result ≡ late_of settings.now slots ran }
{
    let Some(ran) = ran else {
        return Ok(0);
    };
    let ran = slots_of(settings, ran);
    if ran <= u64::from(slots) + RUN {
        Ok(ran as i32 - slots as i32)
    } else {
        Err(Cause::Beyond)
    }
}

// The slot in which a job is cancelled while it waits.
fn cancel_of(settings: &Settings, moment: u64, waited: Option<u32>) -> Result<Option<u32>, Cause>
    requires good { AreGood settings.now }
    requires small { moment < 2 ^ 33 }
    ensures value { result ≡ cancel_of settings.now moment waited }
    ensures early { IfOk result (λ slot. IfSome slot (λ n. n < 10000)) }
{
    let Some(waited) = waited else {
        return Ok(None);
    };
    let slot = within_run(slot_of(settings, moment + u64::from(waited)))?;
    Ok(Some(slot))
}

// What a job of so many nodes and slots asks for: all nodes may serve.
fn ask_of(settings: &Settings, nodes: u32, slots: u32) -> Result<Ask, Cause>
    requires good { AreGood settings.now }
    requires few { nodes ≤ 4096 }
    requires small { slots ≤ 10000 }
    ensures value { result ≡ ask_of settings.now nodes slots }
    ensures deadline { IfOk result (λ a. a.deadline ≤ 20000) }
{
    let worth = worth_of(settings, nodes, slots);
    let value = worth.saturating_mul(u64::from(settings.unit));
    if PEAK < value {
        return Err(Cause::Beyond);
    }
    Ok(Ask {
        k: nodes,
        set: 0,
        dur: slots,
        value,
        deadline: slots + settings.slack,
        prefer: None,
        class: settings.class,
        elastic: false,
    })
}

/// The place of a job in a trace, or why it is left out.
#[tactic(auto, unfolding(crate::specs::Placing::place))]
pub fn place(settings: &Settings, account: &Account) -> Result<Placing, Cause>
    requires { AreGood settings.now }
    ensures value { result ≡ place settings.now account.now }
    ensures placed { IfOk result IsPlaced }
{
    let moment = moment_of(settings, *account);
    if is_outside(settings, moment) {
        return Err(Cause::Outside);
    }
    let nodes = nodes_of(settings, *account);
    let room = room_of(settings, *account);
    if room == 0 {
        return Err(Cause::NoSet);
    }
    if nodes > room {
        return Err(Cause::TooLarge);
    }
    let part_node = is_part_node(settings, *account);
    if settings.whole_nodes_only && part_node {
        return Err(Cause::PartNode);
    }
    let arrival = arrival_of(settings, moment)?;
    let slots = within_slots(slots_of(settings, account.limit))?;
    let late = late_of(settings, slots, account.ran)?;
    let cancel = cancel_of(settings, moment, account.waited)?;
    let ask = ask_of(settings, nodes as u32, slots)?;
    Ok(Placing {
        arrival,
        late,
        ask,
        cancel,
        part_node,
    })
}

// The number, if a run may last so many slots.
fn within_slots(slots: u64) -> Result<u32, Cause>
    ensures value { result ≡ within_slots slots }
    ensures small { IfOk result (λ n. n ≤ 10000) }
{
    if slots <= RUN {
        Ok(slots as u32)
    } else {
        Err(Cause::Beyond)
    }
}

// Whether a job asks for no more nodes than it may have.
#[tactic(auto, using(crate::proofs::PlaceLaws::filled_most))]
fn fits(settings: &Settings, account: &Account) -> bool
    requires { AreGood settings.now }
    ensures { result ≡ nat_le (nodes_of settings.now account.now) (room_of settings.now account.now) }
{
    let room = room_of(settings, *account);
    match account.nodes {
        Some(nodes) => u64::from(nodes) <= room,
        None => {
            u64::from(account.processors.unwrap_or(0)) <= room * u64::from(settings.processors)
        }
    }
}

// Whether so many seconds take no more slots than a run has.
#[tactic(auto, using(crate::proofs::PlaceLaws::slots_most))]
fn is_short(settings: &Settings, seconds: u32) -> bool
    requires { AreGood settings.now }
    ensures { result ≡ nat_le (slots_of settings.now seconds) 10000 }
{
    u64::from(seconds) <= RUN * u64::from(settings.slot)
}

// Whether the slot of a second is one of a run.
#[tactic(auto, using(crate::proofs::PlaceLaws::run_most))]
fn is_early(settings: &Settings, moment: u64) -> bool
    requires { AreGood settings.now }
    ensures { result ≡ is_ok (within_run (slot_of settings.now moment)) }
{
    moment.saturating_sub(settings.origin) < RUN * u64::from(settings.slot)
}

// Whether a job surely has a place. It needs no division, and does not see each job that has one.
fn has_usual_place(settings: &Settings, account: &Account) -> bool
    requires { AreGood settings.now }
    ensures { result ≡ true → is_ok (place settings.now account.now) ≡ true }
{
    let moment = moment_of(settings, *account);
    if is_outside(settings, moment) || moment < settings.origin {
        return false;
    }
    let room = room_of(settings, *account);
    if room == 0 || !fits(settings, account) {
        return false;
    }
    let part_node = is_part_node(settings, *account);
    if settings.whole_nodes_only && part_node {
        return false;
    }
    let end = moment + u64::from(account.waited.unwrap_or(0));
    is_early(settings, end)
        && is_short(settings, account.limit)
        && is_short(settings, account.ran.unwrap_or(0))
        && room * RUN * u64::from(settings.unit) <= PEAK
}

/// Whether a job has a place in a trace.
pub fn has_place(settings: &Settings, account: &Account) -> bool
    requires { AreGood settings.now }
    ensures { result ≡ is_ok (place settings.now account.now) }
{
    has_usual_place(settings, account) || place(settings, account).is_ok()
}
