// Real files, and a writer that takes little.
use std::alloc::{AllocError, Global};
use std::io;
use std::io::Write;
use std::rt::Files;
use tetri_io::{FileShelf, Shelf, StdSink, send_all};
use tetri_tables::{Tally, halves};

// What is read of a file from an offset on, at most five bytes, with a bar behind them.
fn read_told<R: Files>(
    alloc: Global,
    files: &R,
    name: &str,
    offset: u32,
) -> Result<String, AllocError> {
    let mut shelf = FileShelf::new(files);
    let mut front = [0u8; 5];
    match shelf.read_at(name, offset as u64, &mut front) {
        Ok(count) => {
            let read = str::from_utf8(&front[..count]).unwrap_or("not text");
            format!(in alloc; "{read}|")
        }
        Err(_) => String::from_str(alloc, "failed"),
    }
}

/// Rows `NAME OFFSET => BYTES`: at most five bytes of a file from an offset on, with a bar behind them, or that it cannot be read.
pub fn judge_files<R: Files>(alloc: Global, files: &R, table: &str) -> Result<Tally, AllocError> {
    let mut tally = Tally::new(alloc);
    for row in table.lines() {
        let (what, wanted) = halves(row);
        let (name, offset) = what.split_once(' ').unwrap_or((what, ""));
        let found = read_told(alloc, files, name, offset.parse::<u32>().unwrap_or(0))?;
        tally.expect(row, found.as_str(), wanted)?;
    }
    Ok(tally)
}

// Takes two bytes a write and six in all, and then none.
#[derive(Drop)]
struct Narrow {
    bytes: Vec<u8>,
}

impl Write for Narrow {
    fn write(&mut self, piece: &[u8]) -> io::Result<usize> {
        let left = 6usize.saturating_sub(self.bytes.len());
        let count = piece.len().min(2).min(left);
        self.bytes.extend_from_slice(&piece[..count])?;
        Ok(count)
    }

    fn flush(&mut self) -> io::Result<()> {
        Ok(())
    }
}

// How sending a word ends.
fn sent_word(sink: &mut StdSink<Narrow>, word: &str) -> &'static str {
    match send_all(sink, word.as_bytes()) {
        Ok(()) => "sent;",
        Err(_) => "failed;",
    }
}

// How sending words one behind the other ends.
fn sent_told(alloc: Global, words: &str) -> Result<String, AllocError> {
    let mut sink = StdSink::new(Narrow {
        bytes: Vec::new(alloc),
    });
    let mut found = String::new(alloc);
    for word in words.split(' ') {
        found.push_str(sent_word(&mut sink, word))?;
    }
    Ok(found)
}

/// Rows `WORDS => ANSWERS`: how sending each word ends, one behind the other, to a writer that takes two bytes a write and six in all.
pub fn narrow_writes(alloc: Global, tally: &mut Tally, body: &str) -> Result<(), AllocError> {
    for row in body.lines() {
        let (what, wanted) = halves(row);
        let found = sent_told(alloc, what)?;
        tally.expect(row, found.as_str(), wanted)?;
    }
    Ok(())
}
