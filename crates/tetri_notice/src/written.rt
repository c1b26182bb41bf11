// Events as an import writes them, key by key in one order, read from the tokens of a line without a value of its object.
ghost use Rattle.std.specs.Prelude.{◌≡◌, ◌≤◌, ◌≤ℤ◌, IfSome, Ok, Some, codes, negsuc, option_map, pos, true};
ghost use Rattle.std.specs.List.{list_all};
ghost use Rattle.json.specs.Run.{is_plain};
ghost use Rattle.serde_json.specs.Data.{object, put, string};
ghost use Rattle.serde_json.specs.Read.{read};
ghost use Rattle.tetri_cluster.specs.Names.{is_name};
ghost use Rattle.tetri_notice.specs.Asks.{ask_text, IsSoundAskText};
ghost use Rattle.tetri_notice.specs.Fields.{late_of, name_in, number_in, slot_in};
ghost use Rattle.tetri_notice.specs.Notices.{IsGoodNotice};
ghost use Rattle.tetri_notice.specs.Objects.{arrives, asked, cancels, notice};
ghost use Rattle.tetri_notice.specs.Written.{ask_members, cancel_members, event_on, job_members, whole, with_due, with_set, AreMembers, IsValue, Puts, SaysAsk, TextSays};

use crate::asks::{AskText, class_named, worth_of};
use crate::event::{Notice, WorkText};
use crate::tokens::Tokens;
use tetri_cluster::is_name;

// The set of an ask, if one is written, and its deadline.
#[derive(Clone, Copy, Debug)]
struct Due<'v> {
    set: Option<&'v str>,
    deadline: i64,
}

// What an ask says, before its limits are looked at.
#[derive(Clone, Copy, Debug)]
struct WrittenAsk<'v> {
    k: i64,
    dur: i64,
    value: i64,
    due: Due<'v>,
    class: &'v str,
}

// An arrival, before its limits are looked at.
#[derive(Clone, Copy, Debug)]
struct WrittenJob<'v> {
    at: i64,
    name: &'v str,
    late: i64,
    ask: WrittenAsk<'v>,
}

// A cancellation, before its limits are looked at.
#[derive(Clone, Copy, Debug)]
struct WrittenCancel<'v> {
    at: i64,
    name: &'v str,
}

#[inline(always)]
fn number(reader: &mut Tokens<'_>) -> Option<i64>
    ensures { IfSome result (λ z. IsValue (whole z) reader.old reader.new) }
{
    reader.number()
}

#[inline(always)]
fn text<'v>(reader: &mut Tokens<'v>) -> Option<&'v str>
    ensures { IfSome result (λ s. IsValue (string s.now) reader.old reader.new) }
{
    reader.string()
}

#[inline(always)]
fn number_at(reader: &mut Tokens<'_>, key: &str) -> Option<i64>
    requires { list_all is_plain key.now ≡ true }
    ensures { IfSome result (λ z. Puts 0 (put key.now (whole z)) reader.old reader.new) }
{
    reader.passes_key(key)?;
    number(reader)
}

#[inline(always)]
fn text_at<'v>(reader: &mut Tokens<'v>, key: &str) -> Option<&'v str>
    requires { list_all is_plain key.now ≡ true }
    ensures { IfSome result (λ s. Puts 0 (put key.now (string s.now)) reader.old reader.new) }
{
    reader.passes_key(key)?;
    text(reader)
}

#[inline(always)]
fn set_at<'v>(reader: &mut Tokens<'v>) -> Option<Option<&'v str>>
    ensures { IfSome result (λ set. Puts 0 (with_set (option_map (λ s. s.now) set)) reader.old reader.new) }
{
    match reader.passes_key("set") {
        Some(()) => {
            let set = text(reader)?;
            Some(Some(set))
        }
        None => Some(None),
    }
}

#[inline(always)]
fn due_at<'v>(reader: &mut Tokens<'v>) -> Option<Due<'v>>
    ensures { IfSome result (λ due. Puts 0 (with_due due) reader.old reader.new) }
{
    let set = set_at(reader)?;
    let deadline = number_at(reader, "deadline")?;
    Some(Due { set, deadline })
}

#[inline(always)]
fn written_ask<'v>(reader: &mut Tokens<'v>) -> Option<WrittenAsk<'v>>
    ensures { IfSome result (λ a. AreMembers 0 (ask_members a) reader.old reader.new) }
{
    // What is read apart from the caller's tokens stays in registers.
    let mut tokens = reader.again();
    let k = number_at(&mut tokens, "k")?;
    let dur = number_at(&mut tokens, "dur")?;
    let value = number_at(&mut tokens, "value")?;
    let due = due_at(&mut tokens)?;
    let class = text_at(&mut tokens, "class")?;
    tokens.closes()?;
    *reader = tokens;
    Some(WrittenAsk {
        k,
        dur,
        value,
        due,
        class,
    })
}

#[inline(always)]
fn ask_at<'v>(reader: &mut Tokens<'v>) -> Option<WrittenAsk<'v>>
    ensures { IfSome result (λ a. Puts 1 (put (codes "ask") (object (ask_members a))) reader.old reader.new) }
{
    reader.passes_key("ask")?;
    reader.opens()?;
    written_ask(reader)
}

#[inline(always)]
fn job<'v>(reader: &mut Tokens<'v>) -> Option<WrittenJob<'v>>
    ensures { IfSome result (λ job. AreMembers 1 (job_members job) reader.old reader.new) }
{
    let at = number_at(reader, "at")?;
    let name = text_at(reader, "arrive")?;
    let late = number_at(reader, "late")?;
    let ask = ask_at(reader)?;
    reader.closes()?;
    Some(WrittenJob {
        at,
        name,
        late,
        ask,
    })
}

#[inline(always)]
fn cancel<'v>(reader: &mut Tokens<'v>) -> Option<WrittenCancel<'v>>
    ensures { IfSome result (λ cancel. AreMembers 1 (cancel_members cancel) reader.old reader.new) }
{
    let at = number_at(reader, "at")?;
    let name = text_at(reader, "cancel")?;
    reader.closes()?;
    Some(WrittenCancel { at, name })
}

// The arrival that a whole text is.
fn read_job<'v>(text: &'v str) -> Option<WrittenJob<'v>>
    ensures { IfSome result (λ job. read text.now ≡ Some (object (job_members job))) }
{
    let mut reader = Tokens::new(text);
    reader.opens()?;
    let job = job(&mut reader)?;
    if reader.is_empty() { Some(job) } else { None }
}

// The cancellation that a whole text is.
fn read_cancel<'v>(text: &'v str) -> Option<WrittenCancel<'v>>
    ensures { IfSome result (λ cancel. read text.now ≡ Some (object (cancel_members cancel))) }
{
    let mut reader = Tokens::new(text);
    reader.opens()?;
    let cancel = cancel(&mut reader)?;
    if reader.is_empty() {
        Some(cancel)
    } else {
        None
    }
}

fn number_within(z: i64, low: u32, high: u32) -> Option<u32>
    ensures value { result ≡ number_in low high (whole z) }
    ensures within { IfSome result (λ n. (low ≤ n) × (n ≤ high)) }
{
    if i64::from(low) <= z && z <= i64::from(high) {
        Some(z as u32)
    } else {
        None
    }
}

fn slot_from(z: i64) -> Option<u64>
    ensures { result ≡ slot_in (whole z) }
{
    if z >= 0 { Some(z as u64) } else { None }
}

fn late_from(z: i64) -> Option<i32>
    ensures value { result ≡ late_of (Some (whole z)) }
    ensures within { IfSome result (λ late. (negsuc 9999 ≤ℤ late) × (late ≤ℤ pos 10000)) }
{
    if -10_000 <= z && z <= 10_000 {
        Some(z as i32)
    } else {
        None
    }
}

fn name_from(text: &str) -> Option<&str>
    ensures value { option_map (λ s. s.now) result ≡ name_in (string text.now) }
    ensures name { IfSome result (λ s. is_name s.now ≡ true) }
{
    if is_name(text.as_bytes()) {
        Some(text)
    } else {
        None
    }
}

// What an ask says that keeps its limits.
#[inline(always)]
fn ask_said<'v>(unit: u64, ask: WrittenAsk<'v>) -> Option<AskText<'v>>
    ensures says { IfSome result (λ a. SaysAsk unit (object (ask_members ask.entry)) (ask_text a)) }
    ensures sound { IfSome result (λ a. IsSoundAskText (ask_text a)) }
{
    let k = number_within(ask.k, 1, 4096)?;
    let dur = number_within(ask.dur, 1, 10_000)?;
    let value = worth_of(unit, ask.value)?;
    let deadline = number_within(ask.due.deadline, 1, 20_000)?;
    let class = class_named(ask.class)?;
    Some(AskText {
        k,
        set: ask.due.set.unwrap_or("*"),
        dur,
        value,
        deadline,
        prefer: None,
        class,
        elastic: false,
    })
}

fn arrives<'v>(name: &'v str, late: i32, ask: AskText<'v>) -> Notice<'v>
    ensures { notice result ≡ arrives name.now late (asked (ask_text ask.entry)) }
{
    Notice::Arrive {
        name,
        late,
        work: WorkText::Asked(ask),
    }
}

fn cancels<'v>(name: &'v str) -> Notice<'v>
    ensures { notice result ≡ cancels name.now }
{
    Notice::Cancel(name)
}

// What an arrival says that keeps its limits. It stands apart, so that its values stay in registers.
#[inline(never)]
fn arrival<'v>(unit: u64, text: &'v str) -> Option<(u64, Notice<'v>)>
    ensures value { IfSome result (λ e. TextSays unit text.now e.0 (notice e.1)) }
    ensures good { IfSome result (λ e. IsGoodNotice (notice e.1)) }
{
    let job = read_job(text)?;
    let at = slot_from(job.at)?;
    let name = name_from(job.name)?;
    let late = late_from(job.late)?;
    let ask = ask_said(unit, job.ask)?;
    let notice = arrives(name, late, ask);
    Some((at, notice))
}

// What a cancellation says that keeps its limits. Few lines come here, so it stands apart.
#[inline(never)]
fn cancellation<'v>(unit: u64, text: &'v str) -> Option<(u64, Notice<'v>)>
    ensures value { IfSome result (λ e. TextSays unit text.now e.0 (notice e.1)) }
    ensures good { IfSome result (λ e. IsGoodNotice (notice e.1)) }
{
    let cancel = read_cancel(text)?;
    let at = slot_from(cancel.at)?;
    let name = name_from(cancel.name)?;
    let notice = cancels(name);
    Some((at, notice))
}

/// The slot and the notice of a line, where it is an arrival with an ask, or a cancellation, in the order in which an import writes their keys,
/// and keeps all limits. `None` says nothing of a line: `object_in` and `event_in` read each.
pub fn written_event<'v>(unit: u64, line: &'v [u8]) -> Option<(u64, Notice<'v>)>
    ensures value { IfSome result (λ e. event_on unit line.now ≡ Ok (e.0, notice e.1)) }
    ensures good { IfSome result (λ e. IsGoodNotice (notice e.1)) }
{
    let Ok(text) = simdutf8::compat::from_utf8(line) else {
        return None;
    };
    // An ask ends where its event does.
    if line.ends_with(b"}}") {
        arrival(unit, text)
    } else {
        cancellation(unit, text)
    }
}
