// What is told of a refusal.
use crate::around::{Around, around_line, cluster_in, header_of, near_nodes, object_of, text_at};
use crate::expressions::{Phrase, has_fault, tell_fault};
use crate::fields::{key_of, wanted_of};
use crate::keys::Place;
use crate::near::{Nearest, nearest_of};
use crate::scan::{Key, last_key, piece};
use crate::shown::{excerpt_at, front, shown};
use crate::told::Told;
use serde_json::Value;
use std::alloc::{AllocError, Global};
use tetri_cluster::{Cluster, NameTable};
use tetri_io::is_blank;
use tetri_notice::{Field, TraceWhy};
use tetri_parse::Fault;

const EVENT_KEYS: [&str; 5] = ["arrive", "cancel", "drain", "undrain", "fail"];

// The column of an offset of a line.
fn column_of(offset: usize) -> Option<u64> {
    Some((offset as u64).saturating_add(1))
}

// Tells what a key holds.
fn tell_key(alloc: Global, line: &[u8], key: Key, told: &mut Told) -> Result<(), AllocError> {
    told.column = column_of(key.value);
    told.found = Some(front(alloc, piece(line, key.value, key.end))?);
    Ok(())
}

// Tells why a line is no JSON.
fn tell_json(alloc: Global, line: &[u8], told: &mut Told) -> Result<(), AllocError> {
    if let Err(error) = Value::from_slice(alloc, line) {
        if error.is_memory() {
            return Err(AllocError);
        }
        let at = error.column().saturating_sub(1);
        told.column = column_of(at);
        told.found = Some(format!(in alloc; "{error}")?);
        told.excerpt = Some(excerpt_at(alloc, line, at)?);
    }
    Ok(())
}

// The names of the keys in a place that nobody knows, and that are nearest to a key.
fn near_unknown(
    alloc: Global,
    around: &Around<'_>,
    place: Place,
    name: &str,
) -> Result<Vec<String>, AllocError> {
    let mut nearest = Nearest::new(alloc, name);
    for key in &around.keys {
        if key.place == place && !key.is_known {
            let unknown = shown(alloc, piece(around.line, key.from, key.to))?;
            nearest.offer(alloc, unknown.as_str())?;
        }
    }
    nearest.into_names(alloc)
}

// Tells of a key that is missing, with keys of the line that may be meant.
fn tell_missing(
    alloc: Global,
    around: &Around<'_>,
    place: Place,
    name: &str,
    told: &mut Told,
) -> Result<(), AllocError> {
    told.expected = String::from_str(alloc, name)?;
    told.near = near_unknown(alloc, around, place, name)?;
    Ok(())
}

// Tells of a key that holds what it may not hold.
fn tell_bad(
    alloc: Global,
    around: &Around<'_>,
    field: Field,
    told: &mut Told,
) -> Result<(), AllocError> {
    let (place, name) = key_of(field);
    told.expected = String::from_str(alloc, wanted_of(field))?;
    if let Some(key) = last_key(around.line, &around.keys, place, name) {
        tell_key(alloc, around.line, key, told)?;
    }
    if field == Field::Class
        && let Some(found) = &told.found
    {
        let class = found.as_str().trim_matches('"');
        told.near = nearest_of(alloc, class, &["steady", "decay"])?;
    }
    Ok(())
}

// Tells of an event without a key that names it, or with more than one.
fn tell_event(alloc: Global, around: &Around<'_>, told: &mut Told) -> Result<(), AllocError> {
    let mut expected = String::from_str(alloc, "exactly one of")?;
    let mut found = String::new(alloc);
    let mut mark = " ";
    for name in EVENT_KEYS {
        expected.push_str(mark)?;
        expected.push_str(name)?;
        mark = ", ";
        if last_key(around.line, &around.keys, Place::Event, name).is_some() {
            if !found.is_empty() {
                found.push_str(" and ")?;
            }
            found.push_str(name)?;
        }
    }
    if found.is_empty() {
        for key in &around.keys {
            if key.place == Place::Event && !key.is_known && told.near.is_empty() {
                let unknown = shown(alloc, piece(around.line, key.from, key.to))?;
                told.near = nearest_of(alloc, unknown.as_str(), &EVENT_KEYS)?;
                if !told.near.is_empty() {
                    told.column = column_of(key.from);
                    found.push_str(unknown.as_str())?;
                }
            }
        }
    }
    if found.is_empty() {
        found.push_str("none")?;
    }
    told.expected = expected;
    told.found = Some(found);
    Ok(())
}

// Tells of a slot, and what it is to be.
fn tell_slot(
    alloc: Global,
    around: &Around<'_>,
    expected: String,
    told: &mut Told,
) -> Result<(), AllocError> {
    told.expected = expected;
    match last_key(around.line, &around.keys, Place::Event, "at") {
        Some(key) => tell_key(alloc, around.line, key, told),
        None => Ok(()),
    }
}

// The slot that a line names.
fn slot_of(alloc: Global, line: &[u8]) -> Result<Option<u64>, AllocError> {
    let Some(object) = object_of(alloc, line)? else {
        return Ok(None);
    };
    match object.get("at") {
        Some(at) => Ok(at.as_u64()),
        None => Ok(None),
    }
}

fn tell_order(alloc: Global, around: &Around<'_>, told: &mut Told) -> Result<(), AllocError> {
    let last = match around.last {
        Some(line) => slot_of(alloc, line)?,
        None => None,
    };
    let expected = match last {
        Some(slot) => format!(in alloc; "{slot} or more")?,
        None => String::new(alloc),
    };
    tell_slot(alloc, around, expected, told)
}

fn tell_end(alloc: Global, around: &Around<'_>, told: &mut Told) -> Result<(), AllocError> {
    let header = match around.header {
        Some(line) => header_of(alloc, line)?,
        None => None,
    };
    let expected = match header {
        Some(header) => {
            let until = header.header.until;
            format!(in alloc; "less than {until}, which is until of the header")?
        }
        None => String::new(alloc),
    };
    tell_slot(alloc, around, expected, told)
}

// The key of an event with a name, and the name.
fn named_key(around: &Around<'_>) -> Option<Key> {
    for name in EVENT_KEYS {
        if let Some(key) = last_key(around.line, &around.keys, Place::Event, name) {
            return Some(key);
        }
    }
    None
}

// The name that an event brings or names.
fn name_of(alloc: Global, around: &Around<'_>) -> Result<String, AllocError> {
    let mut found = String::new(alloc);
    if let Some(object) = &around.object {
        for key in EVENT_KEYS {
            if let Some(name) = text_at(object, key) {
                found.push_str(name)?;
            }
        }
    }
    Ok(found)
}

// Tells of the name of an event, without its quotes.
fn tell_name(around: &Around<'_>, name: String, told: &mut Told) {
    if let Some(key) = named_key(around) {
        told.column = column_of(key.value);
    }
    told.found = Some(name);
}

// The jobs of earlier lines that are nearest to a name, and the line of the job of the name itself.
fn jobs_before(
    alloc: Global,
    text: &[u8],
    number: u64,
    nearest: &mut Nearest<'_>,
    name: &str,
) -> Result<Option<u64>, AllocError> {
    let mut count = 0u64;
    let mut brought = None;
    for line in text.split(|b| *b == b'\n') {
        count = count.saturating_add(1);
        if count >= number {
            return Ok(brought);
        }
        if !line.iter().all(|b| is_blank(*b))
            && let Some(object) = object_of(alloc, line)?
            && let Some(job) = text_at(&object, "arrive")
        {
            if job == name {
                brought = Some(count);
            }
            nearest.offer(alloc, job)?;
        }
    }
    Ok(brought)
}

fn tell_job(
    alloc: Global,
    text: &[u8],
    number: u64,
    around: &Around<'_>,
    told: &mut Told,
) -> Result<(), AllocError> {
    let name = name_of(alloc, around)?;
    let mut nearest = Nearest::new(alloc, name.as_str());
    let _brought = jobs_before(alloc, text, number, &mut nearest, name.as_str())?;
    told.near = nearest.into_names(alloc)?;
    tell_name(around, name, told);
    Ok(())
}

// Tells of a job's name that is taken, and by which line.
fn tell_taken_job(
    alloc: Global,
    text: &[u8],
    number: u64,
    around: &Around<'_>,
    told: &mut Told,
) -> Result<(), AllocError> {
    let name = name_of(alloc, around)?;
    let mut nearest = Nearest::new(alloc, name.as_str());
    let brought = jobs_before(alloc, text, number, &mut nearest, name.as_str())?;
    drop(nearest);
    if let Some(line) = brought {
        told.expected = format!(in alloc; "a name that line {line} has not brought")?;
    }
    tell_name(around, name, told);
    Ok(())
}

// The key `name` of the node of this number.
fn node_key(around: &Around<'_>, node: usize) -> Option<Key> {
    let mut count = 0usize;
    for key in &around.keys {
        let is_name = piece(around.line, key.from, key.to) == b"name".as_slice();
        if key.place == Place::Node && is_name {
            if count == node {
                return Some(*key);
            }
            count = count.saturating_add(1);
        }
    }
    None
}

// Tells of the node of a header whose name is taken.
fn tell_taken_node(alloc: Global, around: &Around<'_>, told: &mut Told) -> Result<(), AllocError> {
    let Some(header) = header_of(alloc, around.line)? else {
        return Ok(());
    };
    let mut names = NameTable::new(alloc);
    for (place, node) in header.nodes.iter().enumerate() {
        if !names.add(node.name.bytes())? {
            if let Some(key) = node_key(around, place) {
                told.column = column_of(key.value);
            }
            told.found = Some(String::from_str(alloc, node.name.text())?);
            return Ok(());
        }
    }
    Ok(())
}

// Tells of the first closure of a header that names no node.
fn tell_closure(alloc: Global, around: &Around<'_>, told: &mut Told) -> Result<(), AllocError> {
    let Some(object) = &around.object else {
        return Ok(());
    };
    for key in &around.keys {
        let is_node = piece(around.line, key.from, key.to) == b"node".as_slice();
        if key.place == Place::Closure && is_node && told.found.is_none() {
            let value = front(alloc, piece(around.line, key.value, key.end))?;
            let name = String::from_str(alloc, value.as_str().trim_matches('"'))?;
            if !has_node(object, name.as_str()) {
                told.near = near_nodes(alloc, around.line, name.as_str())?;
                told.column = column_of(key.value);
                told.found = Some(name);
            }
        }
    }
    Ok(())
}

// Whether a header has a node of this name.
fn has_node(header: &Value, name: &str) -> bool {
    let Some(nodes) = header.get("nodes") else {
        return false;
    };
    let Some(nodes) = nodes.as_array() else {
        return false;
    };
    for node in nodes {
        if text_at(node, "name") == Some(name) {
            return true;
        }
    }
    false
}

fn tell_node(
    alloc: Global,
    around: &Around<'_>,
    header: &[u8],
    told: &mut Told,
) -> Result<(), AllocError> {
    let name = name_of(alloc, around)?;
    told.near = near_nodes(alloc, header, name.as_str())?;
    tell_name(around, name, told);
    Ok(())
}

// The text that a cause speaks of, and the place and the name of its key.
fn phrase_of<'v>(
    alloc: Global,
    object: &'v Value,
    cluster: &Cluster,
    offset: u64,
    fault: Fault,
) -> Result<Option<(Phrase<'v>, Place, &'static str)>, AllocError> {
    if let Some(strl) = text_at(object, "strl") {
        let phrase = Phrase {
            text: strl.as_bytes(),
            is_set: false,
        };
        return Ok(Some((phrase, Place::Event, "strl")));
    }
    let Some(ask) = object.get("ask") else {
        return Ok(None);
    };
    if let Some(set) = text_at(ask, "set")
        && has_fault(alloc, cluster, set.as_bytes(), offset, fault)?
    {
        let phrase = Phrase {
            text: set.as_bytes(),
            is_set: true,
        };
        return Ok(Some((phrase, Place::Ask, "set")));
    }
    let Some(prefer) = ask.get("prefer") else {
        return Ok(None);
    };
    match text_at(prefer, "set") {
        Some(set) => {
            let phrase = Phrase {
                text: set.as_bytes(),
                is_set: true,
            };
            Ok(Some((phrase, Place::Prefer, "set")))
        }
        None => Ok(None),
    }
}

// Tells of a fault in a text, where its header has a cluster.
fn tell_text(
    alloc: Global,
    around: &Around<'_>,
    header: &[u8],
    offset: u64,
    fault: Fault,
    told: &mut Told,
) -> Result<(), AllocError> {
    match cluster_in(alloc, header)? {
        Some(cluster) => tell_phrase(alloc, around, &cluster, header, offset, fault, told),
        None => Ok(()),
    }
}

// Tells of a fault in a text over the nodes of a cluster, and of the place that is meant.
fn tell_phrase(
    alloc: Global,
    around: &Around<'_>,
    cluster: &Cluster,
    header: &[u8],
    offset: u64,
    fault: Fault,
    told: &mut Told,
) -> Result<(), AllocError> {
    let Some(object) = &around.object else {
        return Ok(());
    };
    let Some((phrase, place, name)) = phrase_of(alloc, object, cluster, offset, fault)? else {
        return Ok(());
    };
    let at = tell_fault(alloc, cluster, header, phrase, offset, fault, told)?;
    if let Some(key) = last_key(around.line, &around.keys, place, name) {
        told.column = column_of(offset_in(around.line, key, at));
    }
    Ok(())
}

// The offset in a line of a place in the text that a key holds: its first where it is written with escapes.
fn offset_in(line: &[u8], key: Key, at: usize) -> usize {
    let is_plain = !piece(line, key.value, key.end).contains(&b'\\');
    let behind = if is_plain { at.saturating_add(1) } else { 0 };
    key.value.saturating_add(behind)
}

// Tells of the first object, which has no nodes.
fn tell_header(alloc: Global, around: &Around<'_>, told: &mut Told) -> Result<(), AllocError> {
    tell_missing(alloc, around, Place::Header, "nodes", told)?;
    if around.keys.is_empty() {
        told.expected = String::from_str(alloc, "a header as the first line that is not blank")?;
    }
    Ok(())
}

// Tells of a cause that speaks of the names of jobs and nodes.
fn tell_names(
    alloc: Global,
    text: &[u8],
    number: u64,
    around: &Around<'_>,
    why: TraceWhy,
    told: &mut Told,
) -> Result<(), AllocError> {
    match (why, around.header) {
        (TraceWhy::NameTaken, None) => tell_taken_node(alloc, around, told),
        (TraceWhy::NameTaken, Some(_)) => tell_taken_job(alloc, text, number, around, told),
        (TraceWhy::NoSuchNode, None) => tell_closure(alloc, around, told),
        (TraceWhy::NoSuchNode, Some(header)) => tell_node(alloc, around, header, told),
        (TraceWhy::NoSuchJob, _) => tell_job(alloc, text, number, around, told),
        (TraceWhy::BadStrl { offset, fault }, Some(header)) => {
            tell_text(alloc, around, header, offset, fault, told)
        }
        _ => Ok(()),
    }
}

// Tells that a line is no object.
fn tell_not_object(alloc: Global, line: &[u8], told: &mut Told) -> Result<(), AllocError> {
    told.column = Some(1);
    told.found = Some(front(alloc, line)?);
    told.expected = String::from_str(alloc, "an object")?;
    Ok(())
}

// Tells of a cause at a line.
fn tell_line(
    alloc: Global,
    text: &[u8],
    number: u64,
    around: &Around<'_>,
    why: TraceWhy,
    told: &mut Told,
) -> Result<(), AllocError> {
    match why {
        TraceWhy::NotJson => tell_json(alloc, around.line, told),
        TraceWhy::NotObject => tell_not_object(alloc, around.line, told),
        TraceWhy::NoHeader => tell_header(alloc, around, told),
        TraceWhy::MissingField(field) => {
            let (place, name) = key_of(field);
            tell_missing(alloc, around, place, name, told)
        }
        TraceWhy::BadField(field) => tell_bad(alloc, around, field, told),
        TraceWhy::UnknownEvent => tell_event(alloc, around, told),
        TraceWhy::OutOfOrder => tell_order(alloc, around, told),
        TraceWhy::PastEnd => tell_end(alloc, around, told),
        _ => tell_names(alloc, text, number, around, why, told),
    }
}

// Tells of a cause at the line of a number.
fn tell_number(
    alloc: Global,
    text: &[u8],
    number: u64,
    why: TraceWhy,
    told: &mut Told,
) -> Result<(), AllocError> {
    let around = around_line(alloc, text, number)?;
    tell_line(alloc, text, number, &around, why, told)
}

/// What is told of a trace with this text that is refused at a line for a cause.
pub(crate) fn told_of(
    alloc: Global,
    text: &[u8],
    number: u64,
    why: TraceWhy,
) -> Result<Told, AllocError> {
    let mut told = Told::nothing(alloc);
    if !matches!(why, TraceWhy::LineTooLong | TraceWhy::TraceTooLong) {
        tell_number(alloc, text, number, why, &mut told)?;
    }
    Ok(told)
}
