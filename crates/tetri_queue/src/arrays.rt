// How many tasks of an array may run at once.
ghost use Rattle.std.specs.Prelude.{◌≡◌, ◌==◌, ◌<◌, IfOk, IfSome, OnOk, length, map, option_map, position};
ghost use Rattle.tetri_queue.specs.Arrays.{array_of, id_of, is_full, limit_behind, limit_in, limits_in, limits_of, most_of, no_limits, place_of, throttles, with_limit, with_new, with_used};

use crate::line::{Said, number_in, said_of};
use std::alloc::{AllocError, Global};
use tetri_cluster::NameTable;
use tetri_hosts::columns_of;
use tetri_io::parts_at;

/// How many tasks of an array may run at once, and how many do, were released or are taken.
#[derive(Clone, Copy)]
pub(crate) struct Limit {
    pub(crate) most: u32,
    pub(crate) used: u64,
}

/// The arrays whose tasks may not all run at once.
#[derive(Drop)]
pub(crate) struct Limits {
    pub(crate) arrays: NameTable,
    pub(crate) limits: Vec<Limit>,
}

// Where the first byte of this kind stands.
fn mark_in(mark: u8, text: &[u8]) -> Option<usize>
    ensures value { result ≡ position (λ b. b == mark) text.now }
    ensures within { IfSome result (λ i. i < length text.now) }
{
    text.iter().position(|b| *b == mark)
}

// The array of a task, as `6` of `6_0` and `6_[0-3%2]`.
fn array_of(id: &[u8]) -> Option<&[u8]>
    ensures { option_map (λ a. a.now) result ≡ array_of id.now }
{
    match mark_in(b'_', id) {
        Some(place) => Some(&id[..place]),
        None => None,
    }
}

// The number that is not 0 before a bracket that ends a text.
fn limit_behind(text: &[u8]) -> Option<u32>
    ensures { result ≡ limit_behind text.now }
{
    match text.split_last() {
        Some((b']', number)) => match number_in(number) {
            Some(number) if number != 0 => Some(number),
            _ => None,
        },
        _ => None,
    }
}

// How many tasks may run at once of an array whose line has this identifier, as `6_[0-3%2]`.
fn limit_in(id: &[u8]) -> Option<u32>
    ensures { result ≡ limit_in id.now }
{
    match mark_in(b'%', id) {
        Some(place) if id[..place].contains(&b'[') => limit_behind(&id[place + 1..]),
        _ => None,
    }
}

// The first column of a line.
fn id_of<'a>(columns: &[&'a [u8]]) -> &'a [u8]
    ensures { result.now ≡ id_of (map (λ w. w.now) columns.now) }
{
    match columns.first() {
        Some(id) => id,
        None => b"",
    }
}

impl Limits {
    // No array has a limit.
    fn new(alloc: Global) -> Limits
        ensures { throttles result ≡ no_limits }
    {
        Limits {
            arrays: NameTable::new(alloc),
            limits: Vec::new(alloc),
        }
    }

    // The limit of an array that has none yet.
    fn add(&mut self, array: &[u8], most: u32) -> Result<(), AllocError>
        ensures { OnOk result (throttles self.new ≡ with_new (throttles self.old) array.now most) }
    {
        if self.arrays.add(array)? {
            self.limits.push(Limit { most, used: 0 })?;
        }
        Ok(())
    }

    // What an identifier says of the limit of its array. The first that says one counts.
    fn add_id(&mut self, id: &[u8]) -> Result<(), AllocError>
        ensures { OnOk result (throttles self.new ≡ with_limit (throttles self.old) id.now) }
    {
        match (array_of(id), limit_in(id)) {
            (Some(array), Some(most)) => self.add(array, most),
            _ => Ok(()),
        }
    }

    // What the lines of a text say of limits, by their first columns.
    fn add_lines(&mut self, alloc: Global, text: &[u8]) -> Result<(), AllocError>
        ensures { OnOk result (throttles self.new ≡ limits_of (throttles self.old) text.now) }
    {
        let lines = parts_at(alloc, b'\n', text)?;
        for line in &lines {
            let columns = columns_of(alloc, line)?;
            self.add_id(id_of(&columns))?;
        }
        Ok(())
    }

    // The place of the limit of a task's array, if it has one.
    fn place_of(&self, id: &[u8]) -> Option<usize>
        ensures { result ≡ place_of (throttles self.now) id.now }
    {
        match array_of(id) {
            Some(array) => self.arrays.number(array),
            None => None,
        }
    }

    /// Whether no more tasks of the array of this one may run.
    pub(crate) fn is_full(&self, id: &[u8]) -> bool
        ensures { result ≡ is_full (throttles self.now) id.now }
    {
        match self.place_of(id) {
            Some(place) => match self.limits.get(place) {
                Some(limit) => u64::from(limit.most) <= limit.used,
                None => false,
            },
            None => false,
        }
    }

    /// Counts a task.
    pub(crate) fn count(&mut self, id: &[u8])
        ensures value { throttles self.new ≡ with_used (throttles self.old) id.now }
        ensures arrays { self.new.arrays ≡ self.old.arrays }
        ensures most { most_of (throttles self.new) ≡ most_of (throttles self.old) }
    {
        if let Some(place) = self.place_of(id)
            && place < self.limits.len()
        {
            self.limits[place].used = self.limits[place].used.saturating_add(1);
        }
    }

    // Counts the task of a line, if it runs or was released.
    fn count_line(&mut self, alloc: Global, line: &[u8]) -> Result<(), AllocError>
        ensures arrays { OnOk result (self.new.arrays ≡ self.old.arrays) }
        ensures most { OnOk result (most_of (throttles self.new) ≡ most_of (throttles self.old)) }
    {
        let columns = columns_of(alloc, line)?;
        let id = id_of(&columns);
        if self.place_of(id).is_none() {
            return Ok(());
        }
        match said_of(alloc, &columns, false)? {
            Said::Holds(..) => self.count(id),
            Said::Asks(_) | Said::Left(_) => {}
        }
        Ok(())
    }

    // Counts the tasks of lines that run or were released.
    fn count_lines(&mut self, alloc: Global, text: &[u8]) -> Result<(), AllocError>
        ensures arrays { OnOk result (self.new.arrays ≡ self.old.arrays) }
        ensures most { OnOk result (most_of (throttles self.new) ≡ most_of (throttles self.old)) }
    {
        let lines = parts_at(alloc, b'\n', text)?;
        for line in &lines {
            self.count_line(alloc, line)?;
        }
        Ok(())
    }

    /// The limits that lines of arrays and of the queue give, with the tasks that run or were released.
    pub(crate) fn of_lines(alloc: Global, arrays: &[u8], jobs: &[u8]) -> Result<Limits, AllocError>
        ensures arrays { IfOk result (λ l. l.arrays ≡ (limits_in arrays.now jobs.now).arrays) }
        ensures most { IfOk result (λ l. most_of (throttles l) ≡ most_of (limits_in arrays.now jobs.now)) }
    {
        let mut limits = Limits::new(alloc);
        limits.add_lines(alloc, arrays)?;
        limits.add_lines(alloc, jobs)?;
        limits.count_lines(alloc, jobs)?;
        Ok(limits)
    }
}
