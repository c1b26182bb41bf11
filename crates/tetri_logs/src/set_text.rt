// The set of nodes that a job asks for.
ghost use Rattle.std.specs.Prelude.{◌≡◌, ◌==◌, ◌<◌, [], IfOk, IfSome, OnOk, fold, length, map, option_map, position, string_bytes};
ghost use Rattle.tetri_logs.specs.SetText.{are_features, features_of, first_partition, partition_set, seat_of, set_by_features, with_feature, with_tag};

use crate::entry::Cause;
use std::alloc::{AllocError, Global};
use std::marker::Model;
use std::rc::Rc;
use tetri_cluster::{Name, NameFault};
use tetri_hosts::{is_feature, partition_tag};
use tetri_io::parts_at;

/// A set of nodes as the text that a trace has for it: tags with `&` between them. It is empty where all nodes may serve.
#[derive(Drop)]
pub struct SetText {
    text: Option<Rc<String>>,
}

impl Model for SetText {
    ghost use Rattle.std.specs.Prelude.{List, ℕ};
    ghost use Rattle.tetri_logs.specs.SharedText.{shared_bytes};

    ghost Value = { List ℕ };

    ghost view = { λ s. shared_bytes s.text };
}

impl SetText {
    /// The set of all nodes. It takes no memory.
    pub(crate) fn new() -> SetText
        ensures { result ≡ [] }
    {
        SetText { text: None }
    }

    // The set with a text.
    fn of(alloc: Global, text: String) -> Result<SetText, AllocError>
        ensures { IfOk result (λ set. set ≡ string_bytes text) }
    {
        let text = Rc::new(alloc, text)?;
        Ok(SetText { text: Some(text) })
    }

    /// The text.
    pub fn text(&self) -> &str
        ensures { result.now ≡ self.now }
    {
        match &self.text {
            Some(text) => text.as_ref().as_str(),
            None => "",
        }
    }

    /// The same set, which shares the text. Its only error is want of memory.
    pub fn share(&self) -> Result<SetText, AllocError>
        ensures { IfOk result (λ set. set ≡ self.now) }
    {
        match &self.text {
            Some(text) => {
                let text = Rc::clone(text)?;
                Ok(SetText { text: Some(text) })
            }
            None => Ok(SetText { text: None }),
        }
    }
}

/// A set of nodes, or why there is none.
pub(crate) type Seat = Result<SetText, Cause>;

// Those of its nodes that have one tag more.
fn push(set: &mut String, tag: &Name) -> Result<(), AllocError>
    ensures { OnOk result (string_bytes set.new ≡ with_tag (string_bytes set.old) tag.now) }
{
    if !set.is_empty() {
        set.push_str("&")?;
    }
    set.push_str(tag.text())
}

// Those of its nodes that have one feature more.
fn push_feature(alloc: Global, set: &mut String, feature: &[u8]) -> Result<(), AllocError>
    ensures { OnOk result (string_bytes set.new ≡ with_feature (string_bytes set.old) feature.now) }
{
    match Name::read(alloc, feature) {
        Ok(tag) => push(set, &tag),
        Err(NameFault::NotName) => Ok(()),
        Err(NameFault::NoMemory) => Err(AllocError),
    }
}

// Where the first of several partitions ends.
fn comma_in(partitions: &[u8]) -> Option<usize>
    ensures value { result ≡ position (λ b. b == 44) partitions.now }
    ensures within { IfSome result (λ i. i < length partitions.now) }
{
    partitions.iter().position(|b| *b == b',')
}

// The first of several partitions.
fn first_partition(partitions: &[u8]) -> &[u8]
    ensures { result.now ≡ first_partition partitions.now }
{
    match comma_in(partitions) {
        Some(i) => &partitions[..i],
        None => partitions,
    }
}

// The nodes of a partition, or all where it is not told, unless no node can be in it.
fn partition_set(alloc: Global, partition: &[u8]) -> Result<Option<String>, AllocError>
    ensures { IfOk result (λ set. option_map string_bytes set ≡ partition_set partition.now) }
{
    let mut set = String::new(alloc);
    if partition.is_empty() {
        return Ok(Some(set));
    }
    match partition_tag(alloc, partition)? {
        Some(tag) => {
            push(&mut set, &tag)?;
            Ok(Some(set))
        }
        None => Ok(None),
    }
}

// What constraints ask for, part by part.
fn features_of(alloc: Global, constraints: &[u8]) -> Result<Vec<&[u8]>, AllocError>
    ensures { IfOk result (λ v. map (λ x. x.now) v.items ≡ features_of constraints.now) }
{
    if constraints.is_empty() {
        return Ok(Vec::new(alloc));
    }
    parts_at(alloc, b'&', constraints)
}

// Whether each of these is a feature.
fn are_features(parts: &[&[u8]]) -> bool
    ensures { result ≡ are_features (map (λ x. x.now) parts.now) }
{
    for part in parts {
        if !is_feature(part) {
            return false;
        }
    }
    true
}

// Those of a set's nodes that have each of these features.
fn with_features(alloc: Global, set: String, features: &[&[u8]]) -> Result<String, AllocError>
    ensures { IfOk result (λ all. string_bytes all ≡ fold with_feature (string_bytes set) (map (λ x. x.now) features.now)) }
{
    let mut all = set;
    for feature in features {
        push_feature(alloc, &mut all, feature)?;
    }
    Ok(all)
}

// Those of a set's nodes that have each of these features, if they are some.
fn set_by_features(alloc: Global, set: String, features: &[&[u8]]) -> Result<Seat, AllocError>
    ensures { IfOk result (λ seat. seat ≡ set_by_features (string_bytes set) (map (λ x. x.now) features.now)) }
{
    if !are_features(features) {
        return Ok(Err(Cause::Constraint));
    }
    let set = with_features(alloc, set, features)?;
    Ok(Ok(SetText::of(alloc, set)?))
}

/// The set that a line's partitions and constraints say. Its only error is want of memory.
pub(crate) fn seat_of(
    alloc: Global,
    partitions: &[u8],
    constraints: &[u8],
) -> Result<Seat, AllocError>
    ensures { IfOk result (λ seat. seat ≡ seat_of partitions.now constraints.now) }
{
    let features = features_of(alloc, constraints)?;
    match partition_set(alloc, first_partition(partitions))? {
        Some(set) => set_by_features(alloc, set, &features),
        None => Ok(Err(Cause::NoSet)),
    }
}
