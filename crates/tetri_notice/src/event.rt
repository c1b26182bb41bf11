// The event that an object is.
ghost use Rattle.std.specs.Prelude.{codes, IfOk};
ghost use Rattle.serde_json.specs.Find.{get};
ghost use Rattle.serde_json.specs.View.{view};
ghost use Rattle.tetri_notice.specs.Answers.{Gives};
ghost use Rattle.tetri_notice.specs.Notices.{IsGoodDemand, IsGoodNotice};
ghost use Rattle.tetri_notice.specs.Objects.{arrival_keys, arrival_notice, demand_in, demand_text, event_in, event_key, notice, notice_by};

use crate::asks::{AskText, ask_in, object_keys};
use crate::fault::{Field, Stop, TraceWhy};
use crate::field::{bad, late_in, name_in, required, slot_in};
use serde_json::Value;

/// The keys that name the kind of an event.
#[derive(Clone, Copy, Debug, PartialEq, Eq)]
pub(crate) enum EventKey {
    Arrive,
    Cancel,
    Drain,
    Undrain,
    Fail,
}

/// What a job asks for, with texts for what has no number yet.
#[derive(Clone, Copy, Debug)]
pub enum WorkText<'v> {
    Strl(&'v str),
    Asked(AskText<'v>),
}

/// What an event says, with names for what has no number yet.
#[derive(Clone, Copy, Debug)]
pub enum Notice<'v> {
    Arrive {
        name: &'v str,
        late: i32,
        work: WorkText<'v>,
    },
    Cancel(&'v str),
    Drain(&'v str),
    Undrain(&'v str),
    Fail(&'v str),
}

// The one event key that is there, with its value.
#[tactic(auto, unfolding(crate::specs::Objects::event_key))]
fn event_key(object: &Value) -> Result<(EventKey, &Value), Stop>
    ensures { Gives (λ key. (key.0, view key.1.now)) result (event_key (view object.now)) }
{
    match (
        object.get("arrive"),
        object.get("cancel"),
        object.get("drain"),
        object.get("undrain"),
        object.get("fail"),
    ) {
        (Some(value), None, None, None, None) => Ok((EventKey::Arrive, value)),
        (None, Some(value), None, None, None) => Ok((EventKey::Cancel, value)),
        (None, None, Some(value), None, None) => Ok((EventKey::Drain, value)),
        (None, None, None, Some(value), None) => Ok((EventKey::Undrain, value)),
        (None, None, None, None, Some(value)) => Ok((EventKey::Fail, value)),
        _ => Err(Stop::Because(TraceWhy::UnknownEvent)),
    }
}

// An arrival has an expression or an ask.
fn arrival_keys(object: &Value) -> Result<(), Stop>
    ensures { Gives (λ _. tt) result (arrival_keys (get (codes "strl") (view object.now)) (get (codes "ask") (view object.now))) }
{
    match (object.get("strl"), object.get("ask")) {
        (None, None) => Err(Stop::Because(TraceWhy::MissingField(Field::Strl))),
        (Some(_), None) => Ok(()),
        (_, Some(ask)) => object_keys(ask),
    }
}

// What the job of an arrival asks for, by an expression or an ask alone.
fn work_in(unit: u64, object: &Value) -> Result<WorkText, Stop>
    ensures value { Gives demand_text result (demand_in unit (get (codes "strl") (view object.now)) (get (codes "ask") (view object.now))) }
    ensures good { IfOk result (λ w. IsGoodDemand (demand_text w)) }
{
    match (object.get("strl"), object.get("ask")) {
        (Some(strl), None) => match strl.as_str() {
            Some(text) => Ok(WorkText::Strl(text)),
            None => Err(bad(Field::Strl)),
        },
        (None, Some(ask)) => {
            let ask = ask_in(unit, ask)?;
            Ok(WorkText::Asked(ask))
        }
        _ => Err(bad(Field::Strl)),
    }
}

// The job that arrives by this value.
#[tactic(auto, unfolding(crate::specs::Objects::arrival_notice))]
fn arrival_notice<'v>(unit: u64, object: &'v Value, value: &'v Value) -> Result<Notice<'v>, Stop>
    ensures value { Gives notice result (arrival_notice unit (view object.now) (view value.now)) }
    ensures good { IfOk result (λ n. IsGoodNotice (notice n)) }
{
    arrival_keys(object)?;
    let name = name_in(value, Field::Arrive)?;
    let late = late_in(object)?;
    let work = work_in(unit, object)?;
    Ok(Notice::Arrive { name, late, work })
}

fn notice_by<'v>(
    unit: u64,
    object: &'v Value,
    key: EventKey,
    value: &'v Value,
) -> Result<Notice<'v>, Stop>
    ensures value { Gives notice result (notice_by unit (view object.now) key (view value.now)) }
    ensures good { IfOk result (λ n. IsGoodNotice (notice n)) }
{
    match key {
        EventKey::Arrive => arrival_notice(unit, object, value),
        EventKey::Cancel => Ok(Notice::Cancel(name_in(value, Field::Cancel)?)),
        EventKey::Drain => Ok(Notice::Drain(name_in(value, Field::Drain)?)),
        EventKey::Undrain => Ok(Notice::Undrain(name_in(value, Field::Undrain)?)),
        EventKey::Fail => Ok(Notice::Fail(name_in(value, Field::Fail)?)),
    }
}

/// The slot and the notice of an event, where written worths are multiplied by the unit.
#[tactic(auto, unfolding(crate::specs::Objects::event_in))]
pub fn event_in(unit: u64, object: &Value) -> Result<(u64, Notice), Stop>
    ensures value { Gives (λ e. (e.0, notice e.1)) result (event_in unit (view object.now)) }
    ensures good { IfOk result (λ e. IsGoodNotice (notice e.1)) }
{
    let value = required(object, "at", Field::At)?;
    let at = slot_in(value, Field::At)?;
    let (key, value) = event_key(object)?;
    let notice = notice_by(unit, object, key, value)?;
    Ok((at, notice))
}
