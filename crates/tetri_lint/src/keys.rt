// The keys that a reader knows.

/// What kind of object a key stands in.
#[derive(Clone, Copy, Debug, PartialEq, Eq)]
pub(crate) enum Place {
    Header,
    Event,
    Node,
    Closure,
    Ask,
    Prefer,
    Other,
}

/// The known keys of a place. A trace that was imported has `epoch` and `slot_seconds` in its header besides.
pub(crate) fn known_keys(place: Place) -> &'static [&'static str] {
    match place {
        Place::Header => &[
            "nodes",
            "window",
            "budget",
            "until",
            "unit",
            "closures",
            "epoch",
            "slot_seconds",
        ],
        Place::Event => &[
            "at", "arrive", "cancel", "drain", "undrain", "fail", "late", "strl", "ask",
        ],
        Place::Node => &["name", "tags"],
        Place::Closure => &["node", "from", "to"],
        Place::Ask => &[
            "k", "set", "dur", "value", "deadline", "prefer", "class", "elastic",
        ],
        Place::Prefer => &["set", "dur"],
        Place::Other => &[],
    }
}

/// Which of the known keys of a place this is.
pub(crate) fn known_index(place: Place, name: &[u8]) -> Option<usize> {
    for (i, known) in known_keys(place).iter().enumerate() {
        if known.as_bytes() == name {
            return Some(i);
        }
    }
    None
}

/// The place of what a key of a place holds.
pub(crate) fn child_of(place: Place, name: &[u8]) -> Place {
    match (place, name) {
        (Place::Header, b"nodes") => Place::Node,
        (Place::Header, b"closures") => Place::Closure,
        (Place::Event, b"ask") => Place::Ask,
        (Place::Ask, b"prefer") => Place::Prefer,
        _ => Place::Other,
    }
}
