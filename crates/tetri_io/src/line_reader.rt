// Lines one after another, with few reads.
ghost use Rattle.std.specs.Prelude.{◌≡◌, ◌+◌, ◌-◌, ◌<◌, ◌≤◌, ◌^◌, ◌++◌, [], List, ℕ, Some, false, Contains, length, nat_lt, vec_len, IfOk, OnErr, IsErrOf};
ghost use Rattle.tetri_algebra.specs.Counts.{Rose};
ghost use Rattle.tetri_io.specs.Line.{AnswersLine, IsPlacedAfter, line_size};

use crate::line::{add_front, line_or_end};
use crate::{Failed, Line, LineFault, Shelf};
use std::alloc::{AllocError, Global};

const CHUNK: usize = 65_536;

/// Reads the lines of what a name holds, one after another from the first on. It keeps what it read
/// behind a line, so that many short lines take one read. It has the memory of one chunk.
#[derive(Drop)]
pub struct LineReader {
    chunk: Vec<u8>,
    used: usize,
    end: usize,
    at: u64,
    ghost filled: { used ≤ end },
    ghost held: { end ≤ vec_len chunk },
    ghost some_room: { 0 < vec_len chunk },
    ghost in_range: { at + (end - used) < 2 ^ 63 },
}

impl LineReader {
    ghost use Rattle.tetri_io.specs.LineReader.{ahead, line_end, place, IsAhead};

    /// Stands at the first line, and has read nothing.
    pub fn new(alloc: Global) -> Result<LineReader, AllocError>
        ensures { IfOk result (λ r. (place r ≡ 0) × (ahead r ≡ [])) }
    {
        Ok(LineReader {
            chunk: vec![in alloc; 0u8; CHUNK]?,
            used: 0,
            end: 0,
            at: 0,
        })
    }

    /// The next line, of at most `limit` bytes, as `read_line_at` reads it. A line whose line feed it
    /// keeps takes no read. `Failed` comes only where the count of the name's faults rose. At each
    /// fault it goes on standing at this line.
    pub fn next_line<S: Shelf>(
        &mut self,
        alloc: Global,
        shelf: &mut S,
        name: &str,
        limit: usize,
    ) -> Result<Line, LineFault>
        requires { (content : List ℕ) → S.told shelf.old name.now ≡ Some content
            → IsAhead content self.old }
        ensures line { (content : List ℕ) → S.told shelf.old name.now ≡ Some content
            → AnswersLine limit (place self.old) content result }
        ensures ahead { (content : List ℕ) → S.told shelf.old name.now ≡ Some content
            → IsAhead content self.new }
        ensures next { IfOk result (λ line. place self.new ≡ line_end (place self.old) line) }
        ensures stays { OnErr result (place self.new ≡ place self.old) }
        ensures kept { Contains (ahead self.old) 10 → shelf.new ≡ shelf.old }

        // This holds of a shelf that tells nothing, too.
        ensures place { IfOk result (IsPlacedAfter (place self.old)) }
        ensures short { IfOk result (λ line. line_size line ≤ limit) }
        ensures failed { IsErrOf result LineFault.Failed
            → Rose (S.faults shelf.old name.now) (S.faults shelf.new name.now) }
        ensures later { (other : List ℕ) → S.faults shelf.old other ≤ S.faults shelf.new other }
        ensures same { S.told shelf.new ≡ S.told shelf.old }
    {
        let from = self.at;
        match self.read_line(alloc, shelf, name, limit) {
            Ok(line) => Ok(line),
            Err(fault) => {
                self.used = self.end;
                self.at = from;
                Err(fault)
            }
        }
    }

    // The next line. At a fault it stands somewhere in it.
    fn read_line<S: Shelf>(
        &mut self,
        alloc: Global,
        shelf: &mut S,
        name: &str,
        limit: usize,
    ) -> Result<Line, LineFault>
        requires { (content : List ℕ) → S.told shelf.old name.now ≡ Some content
            → IsAhead content self.old }
        ensures line { (content : List ℕ) → S.told shelf.old name.now ≡ Some content
            → AnswersLine limit (place self.old) content result }
        ensures ahead { (content : List ℕ) → S.told shelf.old name.now ≡ Some content
            → IsAhead content self.new }
        ensures next { IfOk result (λ line. place self.new ≡ line_end (place self.old) line) }
        ensures kept { Contains (ahead self.old) 10 → shelf.new ≡ shelf.old }
        ensures place { IfOk result (IsPlacedAfter (place self.old)) }
        ensures short { IfOk result (λ line. line_size line ≤ limit) }
        ensures failed { IsErrOf result LineFault.Failed
            → Rose (S.faults shelf.old name.now) (S.faults shelf.new name.now) }
        ensures later { (other : List ℕ) → S.faults shelf.old other ≤ S.faults shelf.new other }
        ensures same { S.told shelf.new ≡ S.told shelf.old }
    {
        let mut bytes = Vec::new(alloc);
        'pieces: loop {
            if !self.fill(shelf, name)? {
                return Ok(line_or_end(bytes, self.at));
            }
            let count = self.end - self.used;
            let front = add_front(&mut bytes, &self.chunk[self.used..self.end], limit)?;
            if front < count {
                self.used += front + 1;
                self.at += front as u64 + 1;
                return Ok(Line::Text {
                    bytes,
                    next: self.at,
                });
            }
            self.used = self.end;
            self.at += count as u64;
        }
    }

    // Reads a chunk where nothing is kept, and says whether something is kept then.
    fn fill<S: Shelf>(&mut self, shelf: &mut S, name: &str) -> Result<bool, Failed>
        requires { (content : List ℕ) → S.told shelf.old name.now ≡ Some content
            → IsAhead content self.old }
        ensures some { IfOk result (λ some. some ≡ nat_lt 0 (length (ahead self.new))) }
        ensures ended { (content : List ℕ) → S.told shelf.old name.now ≡ Some content
            → IfOk result (λ some. some ≡ false → length content ≤ place self.new) }
        ensures ahead { (content : List ℕ) → S.told shelf.old name.now ≡ Some content
            → IsAhead content self.new }
        ensures place { place self.new ≡ place self.old }
        ensures kept { 0 < length (ahead self.old)
            → (shelf.new ≡ shelf.old) × (ahead self.new ≡ ahead self.old) }
        ensures failed { OnErr result (Rose (S.faults shelf.old name.now) (S.faults shelf.new name.now)) }
        ensures later { (other : List ℕ) → S.faults shelf.old other ≤ S.faults shelf.new other }
        ensures same { S.told shelf.new ≡ S.told shelf.old }
    {
        if self.used < self.end {
            return Ok(true);
        }
        let at = self.at;
        self.used = 0;
        self.end = 0;
        let count = shelf.read_at(name, at, &mut self.chunk)?;
        self.end = count;
        Ok(0 < count)
    }
}
