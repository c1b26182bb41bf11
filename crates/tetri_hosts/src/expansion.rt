// A list of hosts, byte by byte.
ghost use Rattle.std.specs.Prelude.{◌≡◌, ◌+◌, ◌*◌, ◌<◌, ◌≤◌, ◌^◌, ◌++◌, ◌∷◌, [], IfOk, OnOk, fold, length, nat_le, string_bytes};
ghost use Rattle.tetri_hosts.specs.Expanding.{bracket_closed, byte_kept, expansion_of, fronts_joined, hosts_ended, joined, list_ended, nothing_read, one_text, padded, part_ended, part_texts, range_texts, text_ended, texts_added, texts_between, with_back, with_byte, with_host, with_inside, with_outside, zeros};
ghost use Rattle.tetri_hosts.specs.Answers.{Gives};

use crate::hosts::HostsFault;
use std::alloc::{AllocError, Global};
use std::mem;
use tetri_base::Items;
use tetri_cluster::{Name, NameFault, NameList};
use tetri_io::{digits_below, parts_at};

// The bytes of a text, and texts in order.
type Word = Items<u8>;

type Words = Items<Word>;

/// What a list of hosts says up to some byte.
#[derive(Drop)]
pub(crate) struct Expansion {
    /// The hosts that are whole.
    pub(crate) whole: NameList,
    /// What stands before the next text of the hosts that are not.
    pub(crate) fronts: Words,
    /// What the parts of a bracket stand for, up to its last comma.
    pub(crate) texts: Words,
    /// The bytes behind the last mark.
    pub(crate) tail: Word,
    /// Whether they stand in a bracket.
    pub(crate) inside: bool,
    /// What is wrong, once something is.
    pub(crate) fault: Option<HostsFault>,
}

// The empty text.
fn empty_text(alloc: Global) -> Word
    ensures { result ≡ [] }
{
    Items::new(alloc)
}

// The empty text alone.
fn one_empty(alloc: Global) -> Result<Words, AllocError>
    ensures { IfOk result (λ words. words ≡ [] ∷ []) }
{
    let mut words = Items::new(alloc);
    words.push(empty_text(alloc))?;
    Ok(words)
}

// Two texts, one behind the other.
fn text_of_both(alloc: Global, front: &[u8], back: &[u8]) -> Result<Word, AllocError>
    ensures { IfOk result (λ word. word ≡ front.now ++ back.now) }
{
    let mut bytes = Vec::from_slice(alloc, front)?;
    bytes.extend_from_slice(back)?;
    Ok(Items::of(bytes))
}

// With a front before each of these.
fn add_joined(
    alloc: Global,
    all: &mut Words,
    front: &Word,
    backs: &[Word],
) -> Result<(), AllocError>
    ensures { OnOk result (all.new ≡ fold (with_back front.now) all.old backs.now) }
{
    for back in backs {
        all.push(text_of_both(alloc, front.as_slice(), back.as_slice())?)?;
    }
    Ok(())
}

// Each of these before each of those.
fn joined(alloc: Global, fronts: &[Word], backs: &[Word]) -> Result<Words, AllocError>
    ensures { IfOk result (λ words. words ≡ joined fronts.now backs.now) }
{
    let mut all = Items::new(alloc);
    for front in fronts {
        add_joined(alloc, &mut all, front, backs)?;
    }
    Ok(all)
}

// So many zeros.
fn add_zeros(text: &mut String, count: usize) -> Result<(), AllocError>
    ensures { OnOk result (string_bytes text.new ≡ string_bytes text.old ++ zeros count) }
{
    for done in 0..count {
        let _written = done;
        text.push_str("0")?;
    }
    Ok(())
}

// A number in so many digits, or in more.
#[tactic(auto, unfolding(crate::specs::Expanding::padded))]
fn padded(alloc: Global, width: usize, number: u64) -> Result<Word, AllocError>
    ensures { IfOk result (λ word. word ≡ padded width number) }
{
    let digits = format!(in alloc; "{number}")?;
    let mut text = String::new(alloc);
    add_zeros(&mut text, width.saturating_sub(digits.len()))?;
    text.push_str(digits.as_str())?;
    Ok(Items::of(text.into_bytes()))
}

// So many numbers from one on, in so many digits or in more.
fn texts_between(alloc: Global, width: usize, first: u64, count: u64) -> Result<Words, AllocError>
    requires first { first < 2 ^ 32 }
    requires count { count ≤ 2 ^ 32 }
    ensures { IfOk result (λ words. words ≡ texts_between width first count) }
{
    let mut words = Items::new(alloc);
    for k in 0..count {
        words.push(padded(alloc, width, first + k)?)?;
    }
    Ok(words)
}

const NUMBERS: u64 = 4_294_967_296;

// The numbers from one to another, in as many digits as the first has.
fn range_texts(alloc: Global, first: &[u8], last: &[u8], most: usize) -> Result<Words, HostsFault>
    ensures { Gives (λ words. words) result (range_texts most first.now last.now) }
{
    let (Some(low), Some(high)) = (digits_below(NUMBERS, first), digits_below(NUMBERS, last)) else {
        return Err(HostsFault::NotHosts);
    };
    if high < low {
        return Err(HostsFault::NotHosts);
    }
    if most as u64 <= high - low {
        return Err(HostsFault::TooMany);
    }
    Ok(texts_between(alloc, first.len(), low, high - low + 1)?)
}

// Digits, as they stand.
fn one_text(alloc: Global, digits: &[u8]) -> Result<Words, HostsFault>
    ensures { Gives (λ words. words) result (one_text digits.now) }
{
    if digits_below(NUMBERS, digits).is_none() {
        return Err(HostsFault::NotHosts);
    }
    let mut words = Items::new(alloc);
    words.push(Items::of(Vec::from_slice(alloc, digits)?))?;
    Ok(words)
}

// What a part of a bracket stands for.
fn part_texts(alloc: Global, part: &[u8], most: usize) -> Result<Words, HostsFault>
    ensures { Gives (λ words. words) result (part_texts most part.now) }
{
    let ends = parts_at(alloc, b'-', part)?;
    match ends.as_slice() {
        [digits] => one_text(alloc, digits),
        [first, last] => range_texts(alloc, first, last, most),
        _ => Err(HostsFault::NotHosts),
    }
}

// Whether no more than so many are made where each of these stands before each of those.
fn is_within(fronts: &[Word], backs: &[Word], most: usize) -> bool
    ensures { result ≡ nat_le (length fronts.now * length backs.now) most }
{
    match fronts.len().checked_mul(backs.len()) {
        Some(count) => count <= most,
        None => false,
    }
}

impl Expansion {
    // Nothing is read.
    fn new(alloc: Global) -> Result<Expansion, AllocError>
        ensures { IfOk result (λ e. e ≡ nothing_read) }
    {
        Ok(Expansion {
            whole: Items::new(alloc),
            fronts: one_empty(alloc)?,
            texts: Items::new(alloc),
            tail: Items::new(alloc),
            inside: false,
            fault: None,
        })
    }

    // Puts texts behind all fronts.
    fn join(&mut self, alloc: Global, most: usize, backs: &[Word]) -> Result<(), AllocError>
        ensures { OnOk result (self.new ≡ fronts_joined most self.old backs.now) }
    {
        if !is_within(self.fronts.as_slice(), backs, most) {
            self.fault = Some(HostsFault::TooMany);
            return Ok(());
        }
        self.fronts = joined(alloc, self.fronts.as_slice(), backs)?;
        Ok(())
    }

    // Puts the bytes behind the last mark behind all fronts.
    fn end_text(&mut self, alloc: Global, most: usize) -> Result<(), AllocError>
        ensures { OnOk result (self.new ≡ text_ended most self.old) }
    {
        let mut backs = Items::new(alloc);
        backs.push(mem::replace(&mut self.tail, Items::new(alloc)))?;
        self.join(alloc, most, backs.as_slice())
    }

    // Adds what the bytes behind the last mark stand for as a part of a bracket.
    fn end_part(&mut self, alloc: Global, most: usize) -> Result<(), AllocError>
        ensures { OnOk result (self.new ≡ part_ended most self.old) }
    {
        let part = mem::replace(&mut self.tail, Items::new(alloc));
        match part_texts(alloc, part.as_slice(), most) {
            Ok(texts) => self.add_texts(texts, most),
            Err(HostsFault::NoMemory) => Err(AllocError),
            Err(fault) => {
                self.fault = Some(fault);
                Ok(())
            }
        }
    }

    // Adds these texts to those of the bracket.
    fn add_texts(&mut self, texts: Words, most: usize) -> Result<(), AllocError>
        ensures { OnOk result (self.new ≡ texts_added most self.old texts) }
    {
        if most.saturating_sub(self.texts.as_slice().len()) < texts.as_slice().len() {
            self.fault = Some(HostsFault::TooMany);
            return Ok(());
        }
        for text in texts.into_items() {
            self.texts.push(text)?;
        }
        Ok(())
    }

    // Puts what a bracket stands for behind all fronts.
    fn close_bracket(&mut self, alloc: Global, most: usize) -> Result<(), AllocError>
        ensures { OnOk result (self.new ≡ bracket_closed most self.old) }
    {
        let texts = mem::replace(&mut self.texts, Items::new(alloc));
        self.inside = false;
        self.join(alloc, most, texts.as_slice())
    }

    // A host that is whole.
    fn add_host(&mut self, alloc: Global, host: &[u8]) -> Result<(), AllocError>
        ensures { OnOk result (self.new ≡ with_host self.old host.now) }
    {
        if self.fault.is_some() {
            return Ok(());
        }
        match Name::read(alloc, host) {
            Ok(name) => self.whole.push(name)?,
            Err(NameFault::NotName) => self.fault = Some(HostsFault::NotHosts),
            Err(NameFault::NoMemory) => return Err(AllocError),
        }
        Ok(())
    }

    // Each front is a host that is whole.
    fn end_hosts(&mut self, alloc: Global, most: usize) -> Result<(), AllocError>
        ensures { OnOk result (self.new ≡ hosts_ended most self.old) }
    {
        if most.saturating_sub(self.whole.as_slice().len()) < self.fronts.as_slice().len() {
            self.fault = Some(HostsFault::TooMany);
            return Ok(());
        }
        let hosts = mem::replace(&mut self.fronts, one_empty(alloc)?);
        for host in hosts.into_items() {
            self.add_host(alloc, host.as_slice())?;
        }
        Ok(())
    }

    // A byte that is no mark.
    fn keep(&mut self, byte: u8) -> Result<(), AllocError>
        ensures { OnOk result (self.new ≡ byte_kept self.old byte) }
    {
        self.tail.push(byte)
    }

    // A byte in a bracket.
    fn add_inside(&mut self, alloc: Global, byte: u8, most: usize) -> Result<(), AllocError>
        ensures { OnOk result (self.new ≡ with_inside most self.old byte) }
    {
        if byte == b',' {
            return self.end_part(alloc, most);
        }
        if byte != b']' {
            return self.keep(byte);
        }
        self.end_part(alloc, most)?;
        if self.fault.is_none() {
            self.close_bracket(alloc, most)?;
        }
        Ok(())
    }

    // A byte outside of brackets.
    fn add_outside(&mut self, alloc: Global, byte: u8, most: usize) -> Result<(), AllocError>
        ensures { OnOk result (self.new ≡ with_outside most self.old byte) }
    {
        if byte != b',' && byte != b'[' {
            return self.keep(byte);
        }
        self.end_text(alloc, most)?;
        if byte == b'[' {
            self.inside = true;
        } else if self.fault.is_none() {
            self.end_hosts(alloc, most)?;
        }
        Ok(())
    }

    // One byte more. Once something is wrong, it stays.
    fn add(&mut self, alloc: Global, byte: u8, most: usize) -> Result<(), AllocError>
        ensures { OnOk result (self.new ≡ with_byte most self.old byte) }
    {
        if self.fault.is_some() {
            return Ok(());
        }
        if self.inside {
            self.add_inside(alloc, byte, most)
        } else {
            self.add_outside(alloc, byte, most)
        }
    }

    // The end of the list.
    fn finish(&mut self, alloc: Global, most: usize) -> Result<(), AllocError>
        ensures { OnOk result (self.new ≡ list_ended most self.old) }
    {
        if self.fault.is_some() {
            return Ok(());
        }
        if self.inside {
            self.fault = Some(HostsFault::NotHosts);
            return Ok(());
        }
        self.add_outside(alloc, b',', most)
    }
}

/// What a list of hosts says. Its only error is want of memory.
pub(crate) fn expansion_of(alloc: Global, text: &[u8], most: usize) -> Result<Expansion, AllocError>
    ensures { IfOk result (λ e. e ≡ expansion_of most text.now) }
{
    let mut read = Expansion::new(alloc)?;
    for byte in text {
        read.add(alloc, *byte, most)?;
    }
    read.finish(alloc, most)?;
    Ok(read)
}
