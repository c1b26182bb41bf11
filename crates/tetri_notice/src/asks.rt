// The ask of an arrival.
ghost use Rattle.std.specs.Prelude.{◌≡◌, ◌≤◌, codes, IfOk, IfSome, option_and_then, option_map, ok_or};
ghost use Rattle.serde_json.specs.Find.{as_str, get};
ghost use Rattle.serde_json.specs.View.{view};
ghost use Rattle.tetri_strl.specs.WellMade.{PEAK};
ghost use Rattle.tetri_notice.specs.Answers.{Gives};
ghost use Rattle.tetri_notice.specs.Asks.{ask_at, ask_in, ask_keys, ask_text, class_of, elastic_of, number_at, object_keys, prefer_at, prefer_in, prefer_keys, prefer_text, run_of, set_text, worth_in, class_named, IsSoundAskText, IsSoundPreference, IsSoundPreferText};
ghost use Rattle.tetri_notice.specs.Fields.{optional, slot_in, within};
ghost use Rattle.tetri_notice.specs.Written.{whole};
ghost use Rattle.tetri_notice.specs.declared.fault.Field.TheVariants as fields;
ghost use Rattle.tetri_notice.specs.declared.fault.TraceWhy.TheVariants as whys;

use crate::fault::{Field, Stop, TraceWhy};
use crate::field::{bad, has_key, number_in, optional, required};
use serde_json::Value;
use tetri_request::Class;

const WORTH_MOST: i64 = 1_000_000_000_000;

/// Where an ask would rather run, with the text of its set.
#[derive(Clone, Copy, Debug)]
pub struct PreferText<'v> {
    pub set: &'v str,
    pub dur: u32,
}

/// An ask with texts for its sets.
#[derive(Clone, Copy, Debug)]
pub struct AskText<'v> {
    pub k: u32,
    pub set: &'v str,
    pub dur: u32,
    pub value: u64,
    pub deadline: u32,
    pub prefer: Option<PreferText<'v>>,
    pub class: Class,
    pub elastic: bool,
}

// What an ask prefers, where it is an object, has a set.
fn prefer_keys(ask: &Value) -> Result<(), Stop>
    ensures { Gives (λ _. tt) result (prefer_keys (get (codes "prefer") (view ask.now))) }
{
    match ask.get("prefer") {
        Some(prefer) if prefer.is_object() && !has_key(prefer, "set") => {
            Err(Stop::Because(TraceWhy::MissingField(Field::PreferSet)))
        }
        _ => Ok(()),
    }
}

#[tactic(auto, unfolding(crate::specs::Asks::ask_keys))]
fn ask_keys(ask: &Value) -> Result<(), Stop>
    ensures { Gives (λ _. tt) result (ask_keys (view ask.now)) }
{
    let _ = required(ask, "k", Field::K)?;
    let _ = required(ask, "dur", Field::Dur)?;
    let _ = required(ask, "value", Field::Value)?;
    let _ = required(ask, "deadline", Field::Deadline)?;
    prefer_keys(ask)
}

/// What is asked for, where it is an object, has all the keys that have to be there.
pub(crate) fn object_keys(ask: &Value) -> Result<(), Stop>
    ensures { Gives (λ _. tt) result (object_keys (view ask.now)) }
{
    if ask.is_object() {
        ask_keys(ask)
    } else {
        Ok(())
    }
}

// The number that a key holds, within its limits.
fn number_at(object: &Value, key: &str, low: u32, high: u32, field: Field) -> Result<u32, Stop>
    ensures value { Gives (λ n. n) result (ok_or (number_at key.now low high (view object.now)) (whys.BadField field)) }
    ensures within { IfOk result (λ n. (low ≤ n) × (n ≤ high)) }
{
    match object.get(key) {
        Some(value) => number_in(value, low, high, field),
        None => Err(bad(field)),
    }
}

// The text of the set that an ask is over, that of all nodes where it is left out.
fn set_text(ask: &Value) -> Result<&str, Stop>
    ensures { Gives (λ s. s.now) result (ok_or (set_text (optional (codes "set") (view ask.now))) (whys.BadField fields.Set)) }
{
    match optional(ask, "set") {
        Some(set) => match set.as_str() {
            Some(text) => Ok(text),
            None => Err(bad(Field::Set)),
        },
        None => Ok("*"),
    }
}

fn written_worth(z: i64) -> Option<u64>
    ensures { result ≡ option_and_then (within 0 PEAK) (slot_in (whole z)) }
{
    if 0 <= z && z <= WORTH_MOST {
        Some(z as u64)
    } else {
        None
    }
}

/// A written worth, times the unit.
pub(crate) fn worth_of(unit: u64, z: i64) -> Option<u64>
    ensures value { result ≡ worth_in unit (whole z) }
    ensures within { IfSome result (λ v. v ≤ PEAK) }
{
    let worth = written_worth(z)?.checked_mul(unit)?;
    if worth <= WORTH_MOST as u64 {
        Some(worth)
    } else {
        None
    }
}

fn worth_in(unit: u64, value: &Value) -> Option<u64>
    ensures value { result ≡ worth_in unit (view value.now) }
    ensures within { IfSome result (λ v. v ≤ PEAK) }
{
    worth_of(unit, value.as_i64()?)
}

fn worth_at(unit: u64, ask: &Value) -> Result<u64, Stop>
    ensures value { Gives (λ v. v) result (ok_or (option_and_then (worth_in unit) (get (codes "value") (view ask.now))) (whys.BadField fields.Value)) }
    ensures within { IfOk result (λ v. v ≤ PEAK) }
{
    let Some(value) = ask.get("value") else {
        return Err(bad(Field::Value));
    };
    match worth_in(unit, value) {
        Some(worth) => Ok(worth),
        None => Err(bad(Field::Value)),
    }
}

fn prefer_set(prefer: &Value) -> Result<&str, Stop>
    ensures { Gives (λ s. s.now) result (ok_or (option_and_then as_str (get (codes "set") (view prefer.now))) (whys.BadField fields.PreferSet)) }
{
    let Some(set) = prefer.get("set") else {
        return Err(bad(Field::PreferSet));
    };
    match set.as_str() {
        Some(text) => Ok(text),
        None => Err(bad(Field::PreferSet)),
    }
}

// How long a run on the preferred set lasts, where on any other it lasts this long.
fn run_of(dur: u32, prefer: &Value) -> Result<u32, Stop>
    requires { (1 ≤ dur) × (dur ≤ 10000) }
    ensures value { Gives (λ n. n) result (ok_or (run_of dur (optional (codes "dur") (view prefer.now))) (whys.BadField fields.PreferDur)) }
    ensures within { IfOk result (λ n. (1 ≤ n) × (n ≤ 10000)) }
{
    match optional(prefer, "dur") {
        Some(value) => number_in(value, 1, 10_000, Field::PreferDur),
        None => Ok(dur),
    }
}

#[tactic(auto, unfolding(crate::specs::Asks::prefer_at))]
fn prefer_at(dur: u32, prefer: &Value) -> Result<PreferText, Stop>
    requires { (1 ≤ dur) × (dur ≤ 10000) }
    ensures value { Gives prefer_text result (prefer_at dur (view prefer.now)) }
    ensures sound { IfOk result (λ p. IsSoundPreferText (prefer_text p)) }
{
    let set = prefer_set(prefer)?;
    let dur = run_of(dur, prefer)?;
    Ok(PreferText { set, dur })
}

// What an ask with runs so long prefers, if anything.
fn prefer_in(dur: u32, ask: &Value) -> Result<Option<PreferText>, Stop>
    requires { (1 ≤ dur) × (dur ≤ 10000) }
    ensures value { Gives (λ p. option_map prefer_text p) result (prefer_in dur (optional (codes "prefer") (view ask.now))) }
    ensures sound { IfOk result (λ p. IsSoundPreference (option_map prefer_text p)) }
{
    let Some(prefer) = optional(ask, "prefer") else {
        return Ok(None);
    };
    if !prefer.is_object() {
        return Err(bad(Field::Prefer));
    }
    let prefer = prefer_at(dur, prefer)?;
    Ok(Some(prefer))
}

/// The class with this name.
pub(crate) fn class_named(name: &str) -> Option<Class>
    ensures { result ≡ class_named name.now }
{
    if name == "steady" {
        Some(Class::Steady)
    } else if name == "decay" {
        Some(Class::Decay)
    } else {
        None
    }
}

// Steady where it is left out.
fn class_of(ask: &Value) -> Result<Class, Stop>
    ensures { Gives (λ c. c) result (ok_or (class_of (optional (codes "class") (view ask.now))) (whys.BadField fields.Class)) }
{
    let Some(class) = optional(ask, "class") else {
        return Ok(Class::Steady);
    };
    let Some(name) = class.as_str() else {
        return Err(bad(Field::Class));
    };
    match class_named(name) {
        Some(class) => Ok(class),
        None => Err(bad(Field::Class)),
    }
}

// Not elastic where it is left out.
fn elastic_of(ask: &Value) -> Result<bool, Stop>
    ensures { Gives (λ b. b) result (ok_or (elastic_of (optional (codes "elastic") (view ask.now))) (whys.BadField fields.Elastic)) }
{
    let Some(elastic) = optional(ask, "elastic") else {
        return Ok(false);
    };
    match elastic.as_bool() {
        Some(elastic) => Ok(elastic),
        None => Err(bad(Field::Elastic)),
    }
}

#[tactic(auto, unfolding(crate::specs::Asks::ask_at))]
fn ask_at(unit: u64, ask: &Value) -> Result<AskText, Stop>
    ensures value { Gives ask_text result (ask_at unit (view ask.now)) }
    ensures sound { IfOk result (λ a. IsSoundAskText (ask_text a)) }
{
    let k = number_at(ask, "k", 1, 4096, Field::K)?;
    let set = set_text(ask)?;
    let dur = number_at(ask, "dur", 1, 10_000, Field::Dur)?;
    let value = worth_at(unit, ask)?;
    let deadline = number_at(ask, "deadline", 1, 20_000, Field::Deadline)?;
    let prefer = prefer_in(dur, ask)?;
    let class = class_of(ask)?;
    let elastic = elastic_of(ask)?;
    Ok(AskText {
        k,
        set,
        dur,
        value,
        deadline,
        prefer,
        class,
        elastic,
    })
}

/// The ask that a value is, whose worth is multiplied by the unit.
pub(crate) fn ask_in(unit: u64, ask: &Value) -> Result<AskText, Stop>
    ensures value { Gives ask_text result (ask_in unit (view ask.now)) }
    ensures sound { IfOk result (λ a. IsSoundAskText (ask_text a)) }
{
    if ask.is_object() {
        ask_at(unit, ask)
    } else {
        Err(bad(Field::Ask))
    }
}
