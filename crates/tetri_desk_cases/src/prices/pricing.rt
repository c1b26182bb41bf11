// Reports by prices.
use crate::prices::chance::Chance;
use std::alloc::{AllocError, Global};
use tetri_io::{MemShelf, MemSink};
use tetri_priced::{BySearch, Unpriced, Wanted, price_report};
use tetri_run::{Status, say};
use tetri_tables::{Given, Tally, expand_text, text_in};

// Bytes of a read and of a write at most, and bytes that there is room for.
const PIECE: usize = 65_536;

const ROOM: usize = 16_000_000;

// What a section asks for: who gives prices, their numbers, and which cycles are told.
#[derive(Clone, Copy, Debug)]
struct Wish<'a> {
    who: &'a str,
    numbers: [u64; 3],
    wanted: Wanted,
}

// The number of this place in words, or another one.
fn number_at(words: &[&str], place: usize, other: u64) -> u64 {
    match words.get(place) {
        Some(word) => word.parse::<u64>().unwrap_or(other),
        None => other,
    }
}

// A number of a slot.
fn slot_at(words: &[&str], place: usize, other: u32) -> u32 {
    u32::try_from(number_at(words, place, u64::from(other))).unwrap_or(other)
}

// What the words ask for: `search`, `nobody` or `chance SEED UNIT MOST`, each `bare` where no prices are told, and `FROM TO`.
fn wish_of<'a>(words: &[&'a str]) -> Wish<'a> {
    let who = match words.first() {
        Some(word) => *word,
        None => "",
    };
    let mut numbers = [0u64; 3];
    let mut more: usize = 1;
    if who == "chance" {
        numbers = [
            number_at(words, 1, 0),
            number_at(words, 2, 1),
            number_at(words, 3, 0),
        ];
        more = 4;
    }
    let is_bare = match words.get(more) {
        Some(word) => *word == "bare",
        None => false,
    };
    let wanted = Wanted {
        from: slot_at(words, more + 1, 0),
        to: slot_at(words, more + 2, u32::MAX),
        prices: !is_bare,
    };
    Wish {
        who,
        numbers,
        wanted,
    }
}

// Prices the report as it is asked for.
fn status_of(alloc: Global, wish: &Wish<'_>, shelf: &mut MemShelf, sink: &mut MemSink) -> Status {
    let wanted = wish.wanted;
    match wish.who {
        "search" => price_report(alloc, "trace", "report", wanted, BySearch, shelf, sink),
        "chance" => {
            let [seed, unit, most] = wish.numbers;
            let chance = Chance { seed, unit, most };
            price_report(alloc, "trace", "report", wanted, chance, shelf, sink)
        }
        _ => price_report(alloc, "trace", "report", wanted, Unpriced, shelf, sink),
    }
}

// The shelf with the trace and the report.
fn shelf_of(alloc: Global, given: &Given) -> Result<MemShelf, AllocError> {
    let mut shelf = MemShelf::new(alloc, PIECE, &[])?;
    shelf.put("trace", given.trace.as_bytes())?;
    shelf.put("report", given.report.as_bytes())?;
    Ok(shelf)
}

// What is said of a status.
fn said_of(alloc: Global, status: &Status) -> Result<String, AllocError> {
    let mut errors = MemSink::new(alloc, PIECE, 1000, &[])?;
    let _said = say(alloc, status, &mut errors);
    text_in(alloc, errors.written())
}

// What is written, and what is said behind it.
fn told(alloc: Global, given: &Given, wish: &Wish<'_>) -> Result<String, AllocError> {
    let mut shelf = shelf_of(alloc, given)?;
    let mut sink = MemSink::new(alloc, PIECE, ROOM, &[])?;
    let status = status_of(alloc, wish, &mut shelf, &mut sink);
    let said = said_of(alloc, &status)?;
    let written = text_in(alloc, sink.written())?;
    format!(in alloc; "{written}{said}")
}

/// What is written and said of the report.
pub fn priced(
    alloc: Global,
    given: &Given,
    tally: &mut Tally,
    words: &str,
    body: &str,
) -> Result<(), AllocError> {
    let listed: Vec<&str> = words.split(' ').collect(alloc)?;
    let wish = wish_of(listed.as_slice());
    let found = told(alloc, given, &wish)?;
    let wanted = expand_text(alloc, body)?;
    tally.expect(
        words,
        found.as_str().trim_end_matches('\n'),
        wanted.as_str(),
    )
}
