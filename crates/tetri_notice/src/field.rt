// The values of an object.
ghost use Rattle.std.specs.Prelude.{◌≡◌, ◌≤◌, ◌≤ℤ◌, pos, negsuc, true, codes, IfOk, option_map, ok_or};
ghost use Rattle.serde_json.specs.View.{view};
ghost use Rattle.tetri_cluster.specs.Names.{is_name};
ghost use Rattle.tetri_notice.specs.Answers.{Gives};
ghost use Rattle.tetri_notice.specs.Fields.{has_key, late_of, name_in, number_in, object_in, optional, required, slot_in, unit_of};
ghost use Rattle.tetri_notice.specs.declared.fault.Field.TheVariants as fields;
ghost use Rattle.tetri_notice.specs.declared.fault.Stop.TheVariants as stops;
ghost use Rattle.tetri_notice.specs.declared.fault.TraceWhy.TheVariants as whys;

use crate::fault::{Field, Stop, TraceWhy};
use serde_json::Value;
use std::alloc::{AllocError, Global};
use tetri_cluster::{Name, NameFault, is_name};

/// The object that a line is.
#[tactic(auto, unfolding(crate::specs::Fields::object_in))]
pub fn object_in(alloc: Global, line: &[u8]) -> Result<Value, Stop>
    ensures { Gives view result (object_in line.now) }
{
    let value = match Value::from_slice(alloc, line) {
        Ok(value) => value,
        Err(e) => {
            if e.is_memory() {
                return Err(Stop::NoMemory);
            }
            return Err(Stop::Because(TraceWhy::NotJson));
        }
    };
    if value.is_object() {
        Ok(value)
    } else {
        Err(Stop::Because(TraceWhy::NotObject))
    }
}

/// A key holds no value that it may hold.
pub(crate) fn bad(field: Field) -> Stop
    ensures { result ≡ stops.Because (whys.BadField field) }
{
    Stop::Because(TraceWhy::BadField(field))
}

/// The value of a key that has to be there.
pub(crate) fn required<'v>(object: &'v Value, key: &str, field: Field) -> Result<&'v Value, Stop>
    ensures { Gives (λ v. view v.now) result (required field key.now (view object.now)) }
{
    match object.get(key) {
        Some(value) => Ok(value),
        None => Err(Stop::Because(TraceWhy::MissingField(field))),
    }
}

/// The value of a key that may be left out, or hold null.
pub(crate) fn optional<'v>(object: &'v Value, key: &str) -> Option<&'v Value>
    ensures { option_map (λ v. view v.now) result ≡ optional key.now (view object.now) }
{
    let value = object.get(key)?;
    if value.is_null() { None } else { Some(value) }
}

/// Whether a key is there, whatever it holds.
pub(crate) fn has_key(object: &Value, key: &str) -> bool
    ensures { result ≡ has_key key.now (view object.now) }
{
    object.get(key).is_some()
}

/// The name that a value is.
pub(crate) fn name_in(value: &Value, field: Field) -> Result<&str, Stop>
    ensures value { Gives (λ s. s.now) result (ok_or (name_in (view value.now)) (whys.BadField field)) }
    ensures name { IfOk result (λ s. is_name s.now ≡ true) }
{
    match value.as_str() {
        Some(text) if is_name(text.as_bytes()) => Ok(text),
        _ => Err(bad(field)),
    }
}

/// The name with this text.
pub fn read_name(alloc: Global, text: &str) -> Result<Name, AllocError>
    requires { is_name text.now ≡ true }
    ensures { IfOk result (λ n. n ≡ text.now) }
{
    match Name::read(alloc, text.as_bytes()) {
        Ok(name) => Ok(name),
        Err(NameFault::NotName) => unreachable!(),
        Err(NameFault::NoMemory) => Err(AllocError),
    }
}

/// The slot that a value is, 0 or more.
pub(crate) fn slot_in(value: &Value, field: Field) -> Result<u64, Stop>
    ensures { Gives (λ n. n) result (ok_or (slot_in (view value.now)) (whys.BadField field)) }
{
    match value.as_i64() {
        Some(n) if n >= 0 => Ok(n as u64),
        _ => Err(bad(field)),
    }
}

/// The number that a value is, within its limits.
pub(crate) fn number_in(value: &Value, low: u32, high: u32, field: Field) -> Result<u32, Stop>
    ensures value { Gives (λ n. n) result (ok_or (number_in low high (view value.now)) (whys.BadField field)) }
    ensures within { IfOk result (λ n. (low ≤ n) × (n ≤ high)) }
{
    match value.as_i64() {
        Some(n) if i64::from(low) <= n && n <= i64::from(high) => Ok(n as u32),
        _ => Err(bad(field)),
    }
}

/// What written worths are multiplied by, 1 where it is left out.
pub(crate) fn unit_in(object: &Value) -> Result<u32, Stop>
    ensures value { Gives (λ n. n) result (ok_or (unit_of (optional (codes "unit") (view object.now))) (whys.BadField fields.Unit)) }
    ensures within { IfOk result (λ n. (1 ≤ n) × (n ≤ 1000000)) }
{
    match optional(object, "unit") {
        Some(value) => number_in(value, 1, 1_000_000, Field::Unit),
        None => Ok(1),
    }
}

/// How many slots longer than asked for a job runs, 0 where it is left out.
pub(crate) fn late_in(object: &Value) -> Result<i32, Stop>
    ensures value { Gives (λ z. z) result (ok_or (late_of (optional (codes "late") (view object.now))) (whys.BadField fields.Late)) }
    ensures within { IfOk result (λ z. (negsuc 9999 ≤ℤ z) × (z ≤ℤ pos 10000)) }
{
    let Some(value) = optional(object, "late") else {
        return Ok(0);
    };
    match value.as_i64() {
        Some(n) if -10_000 <= n && n <= 10_000 => Ok(n as i32),
        _ => Err(bad(Field::Late)),
    }
}
