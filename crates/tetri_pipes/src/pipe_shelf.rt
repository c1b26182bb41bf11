// Pipes, standard input and files.
ghost use Rattle.std.specs.Prelude.{◌≡◌, ◌≢◌, ◌↔◌, ◌+◌, ◌-◌, ◌<◌, ◌≤◌, ◌⊎◌, ◌^◌, min, List, ℕ, None, Some, length, option_map, IfOk, OnOk, OnErr, IfSome, IsOk, IsSome, IsErrAnd};
ghost use Rattle.std.specs.Io.{ReadsAtMost};
ghost use Rattle.tetri_io.specs.Causes.{HasCause, count_after};
ghost use Rattle.tetri_io.specs.Shelf.{IsReadAt};
ghost use Rattle.tetri_pipes.specs.Whole.{is_too_long};

use crate::{Unread, read_whole};
use std::alloc::Global;
use std::collections::BTreeMap;
use std::fs;
use std::io::{Read, Seek, SeekFrom};
use std::rt::Files;
use tetri_io::{Failed, FileShelf, Shelf};

/// The files of a runtime, with pipes and standard input, which is the name `-`. What cannot be
/// sought is read whole, once, as it is opened, and kept in memory: from then on it is told, and no
/// read of it fails. Any other name is read as `FileShelf` reads it, and is not told. Of the read that
/// failed last the name is kept, as far as memory lasts.
#[derive(Drop)]
pub struct PipeShelf<'a, R: Files + Input> {
    alloc: Global,
    runtime: &'a R,
    files: FileShelf<'a, R>,
    names: BTreeMap<String, Vec<u8>>,
    failed: Option<String>,
}

impl<'a, R: Files + Input> PipeShelf<'a, R> {
    ghost use Rattle.tetri_pipes.specs.PipeShelf.{failed_name, fault_count, kept};

    /// The files of this runtime. Nothing is kept, and there is no fault yet.
    pub fn new(alloc: Global, runtime: &'a R) -> PipeShelf<'a, R>
        ensures empty { (name : List ℕ) → kept result name ≡ None }
        ensures faults { fault_count result ≡ 0 }
        ensures failed { failed_name result ≡ None }
    {
        PipeShelf {
            alloc,
            runtime,
            files: FileShelf::new(runtime),
            names: BTreeMap::new(alloc),
            failed: None,
        }
    }

    /// The name of which a read failed last, if there was memory to keep it.
    pub fn failed(&self) -> Option<&str>
        ensures { option_map (λ name. name.now) result ≡ failed_name self.now }
    {
        match &self.failed {
            Some(name) => Some(name.as_str()),
            None => None,
        }
    }

    /// Makes a name ready: what it names is opened, and kept where it cannot be sought. That has at
    /// most `limit` bytes, or is refused as too long.
    pub fn open(&mut self, name: &str, limit: u64) -> Result<(), Unread>
        ensures short { OnOk result ((kept self.new name.now ≡ kept self.old name.now)
            ⊎ IfSome (kept self.new name.now) (λ content. length content ≤ limit)) }
        ensures others { (other : List ℕ) → other ≢ name.now
            → kept self.new other ≡ kept self.old other }
        ensures err { OnErr result ((other : List ℕ) → kept self.new other ≡ kept self.old other) }
        ensures faults { fault_count self.new ≡ fault_count self.old }
    {
        if name == "-" {
            return self.keep(name, self.runtime.reader(), limit);
        }
        let mut file = fs::open(self.runtime, name)?;
        if file.seek(SeekFrom::Start(0)).is_err() {
            return self.keep(name, file, limit);
        }
        // A folder can be opened and sought, and not read.
        let mut first = [0u8; 1];
        let _count = file.read(&mut first)?;
        Ok(())
    }

    // Reads bytes of a file, and keeps its name where that fails.
    fn read_file(&mut self, name: &str, offset: u64, buf: &mut [u8]) -> Result<usize, Failed>
        requires { offset < 2 ^ 63 }
        ensures count { ReadsAtMost result buf.new }
        ensures within { IfOk result (λ n. offset + n < 2 ^ 63) }
        ensures same { self.new.names ≡ self.old.names }
        ensures cause { HasCause (fault_count self.old) (fault_count self.new) result }
        ensures later { (other : List ℕ) → fault_count self.old ≤ fault_count self.new }
        ensures counted { fault_count self.new ≡ count_after (fault_count self.old) result }
        ensures named { OnErr result (IfSome (failed_name self.new) (λ failed. failed ≡ name.now)) }
        ensures unnamed { OnOk result (failed_name self.new ≡ failed_name self.old) }
    {
        let outcome = self.files.read_at(name, offset, buf);
        if outcome.is_err() {
            self.failed = String::from_str(self.alloc, name).ok();
        }
        outcome
    }

    /// Keeps under a name what a reader has left, of at most `limit` bytes.
    pub fn keep<T: Read + Drop>(&mut self, name: &str, reader: T, limit: u64) -> Result<(), Unread>
        ensures holds { (left : List ℕ) → T.remaining reader ≡ Some left
            → OnOk result (kept self.new name.now ≡ Some left) }
        ensures kept { OnOk result (IsSome (kept self.new name.now)) }
        ensures short { OnOk result (IfSome (kept self.new name.now)
            (λ content. length content ≤ limit)) }
        ensures long { (left : List ℕ) → T.remaining reader ≡ Some left
            → IsErrAnd result is_too_long → limit < length left }
        ensures others { (other : List ℕ) → other ≢ name.now
            → kept self.new other ≡ kept self.old other }
        ensures err { OnErr result ((other : List ℕ) → kept self.new other ≡ kept self.old other) }
        ensures faults { fault_count self.new ≡ fault_count self.old }
    {
        let content = read_whole(self.alloc, reader, limit)?;
        let name = String::from_str(self.alloc, name)?;
        match self.names.insert(name, content) {
            Ok(_) => Ok(()),
            Err(_) => Err(Unread::NoMemory),
        }
    }
}

// Copies bytes of a content from an offset on to the front of a buffer.
fn copy_from(content: &[u8], offset: u64, buf: &mut [u8]) -> usize
    ensures count { result ≡ min (length buf.old) (length content.now - offset) }
    ensures bytes { IsReadAt content.now offset result buf.new }
{
    let offset = offset as usize;
    if content.len() <= offset {
        return 0;
    }
    let count = buf.len().min(content.len() - offset);
    buf[..count].copy_from_slice(&content[offset..offset + count]);
    count
}

impl<R: Files + Input> Shelf for PipeShelf<'_, R> {
    ghost use Rattle.tetri_pipes.specs.PipeShelf.{failed_name, fault_count, kept};

    ghost told = { kept };

    ghost faults = { λ s _. fault_count s };

    fn read_at(&mut self, name: &str, offset: u64, buf: &mut [u8]) -> Result<usize, Failed>
        requires { offset < 2 ^ 63 }

        // What each shelf ensures.
        ensures count { ReadsAtMost result buf.new }
        ensures within { IfOk result (λ n. offset + n < 2 ^ 63) }
        ensures bytes { (content : List ℕ) → kept self.old name.now ≡ Some content
            → IfOk result (λ n. IsReadAt content offset n buf.new) }
        ensures same { kept self.new ≡ kept self.old }
        ensures cause { HasCause (fault_count self.old) (fault_count self.new) result }
        ensures later { (other : List ℕ) → fault_count self.old ≤ fault_count self.new }

        // What this one ensures besides.
        ensures sure { IsSome (kept self.old name.now) → IsOk result }
        ensures counted { fault_count self.new ≡ count_after (fault_count self.old) result }
        ensures named { OnErr result (IfSome (failed_name self.new) (λ failed. failed ≡ name.now)) }
        ensures unnamed { OnOk result (failed_name self.new ≡ failed_name self.old) }
    {
        match self.names.get(name) {
            Some(content) => Ok(copy_from(content, offset, buf)),
            None => self.read_file(name, offset, buf),
        }
    }
}
