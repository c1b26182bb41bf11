// Where a key of a cause stands, and what it may hold.
use crate::keys::Place;
use tetri_notice::Field;

/// The place and the name of a key.
pub(crate) fn key_of(field: Field) -> (Place, &'static str) {
    match field {
        Field::Nodes => (Place::Header, "nodes"),
        Field::Window => (Place::Header, "window"),
        Field::Budget => (Place::Header, "budget"),
        Field::Until => (Place::Header, "until"),
        Field::Unit => (Place::Header, "unit"),
        Field::Closures => (Place::Header, "closures"),
        Field::At => (Place::Event, "at"),
        Field::Arrive => (Place::Event, "arrive"),
        Field::Cancel => (Place::Event, "cancel"),
        Field::Drain => (Place::Event, "drain"),
        Field::Undrain => (Place::Event, "undrain"),
        Field::Fail => (Place::Event, "fail"),
        Field::Late => (Place::Event, "late"),
        Field::Strl => (Place::Event, "strl"),
        Field::Ask => (Place::Event, "ask"),
        Field::K => (Place::Ask, "k"),
        Field::Set => (Place::Ask, "set"),
        Field::Dur => (Place::Ask, "dur"),
        Field::Value => (Place::Ask, "value"),
        Field::Deadline => (Place::Ask, "deadline"),
        Field::Prefer => (Place::Ask, "prefer"),
        Field::PreferSet => (Place::Prefer, "set"),
        Field::PreferDur => (Place::Prefer, "dur"),
        Field::Class => (Place::Ask, "class"),
        Field::Elastic => (Place::Ask, "elastic"),
    }
}

const NAME: &str = "a name: 1 to 64 letters, digits and _ - . : /";

/// What a key may hold.
pub(crate) fn wanted_of(field: Field) -> &'static str {
    match field {
        Field::Nodes => {
            "a list of 1 to 4096 objects, each with a name, and with a list of names as its tags where it has any; a name is 1 to 64 letters, digits and _ - . : /"
        }
        Field::Window => "a number from 1 to 64",
        Field::Budget | Field::Until => "a number from 1 to 10000",
        Field::Unit => "a number from 1 to 1000000",
        Field::Closures => {
            "a list of at most 4096 objects, each with a node's name, and with from and to, slots from 0 to 30000, from at most to"
        }
        Field::At => "a slot: a number from 0 on",
        Field::Arrive | Field::Cancel | Field::Drain | Field::Undrain | Field::Fail => NAME,
        Field::Late => "a number from -10000 to 10000",
        Field::Strl => "a text, with no ask beside it",
        Field::Ask => "an object with k, dur, value and deadline",
        Field::K => "a number from 1 to 4096",
        Field::Set | Field::PreferSet => "the text of a set",
        Field::Dur | Field::PreferDur => "a number from 1 to 10000",
        Field::Value => "a number from 0 to 1000000000000, times the unit too",
        Field::Deadline => "a number from 1 to 20000",
        Field::Prefer => "an object with a set",
        Field::Class => "steady or decay",
        Field::Elastic => "true or false",
    }
}
