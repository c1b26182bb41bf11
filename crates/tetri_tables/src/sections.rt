// The sections of a table.
use crate::escapes::{expand, expand_text};
use std::alloc::{AllocError, Global};

/// The texts that sections give to those behind them.
#[derive(Drop)]
pub struct Given {
    /// The trace that is planned or read, or against which a report is checked.
    pub trace: String,
    /// The report that is checked, or of which others are made.
    pub report: String,
    /// A line that is the header of a trace, and one that is a job of it.
    pub header: String,
    pub job: String,
    /// The advisors of a panel, one in each line.
    pub seats: String,
    /// A program of whole numbers.
    pub program: String,
    /// A log that is imported.
    pub log: Vec<u8>,
}

impl Given {
    /// No texts.
    pub fn new(alloc: Global) -> Given {
        Given {
            trace: String::new(alloc),
            report: String::new(alloc),
            header: String::new(alloc),
            job: String::new(alloc),
            seats: String::new(alloc),
            program: String::new(alloc),
            log: Vec::new(alloc),
        }
    }

    /// Takes the text of a section; false where a section of this kind gives none.
    pub fn take(&mut self, alloc: Global, kind: &str, body: &str) -> Result<bool, AllocError> {
        match kind {
            "trace" => self.trace = lines_of(alloc, body)?,
            "report" => self.report = lines_of(alloc, body)?,
            "made trace" => self.trace = expand_text(alloc, body)?,
            "made report" => self.report = expand_text(alloc, body)?,
            "header" => self.header = String::from_str(alloc, body)?,
            "job" => self.job = String::from_str(alloc, body)?,
            "seats" => self.seats = expand_text(alloc, body)?,
            "program" => self.program = String::from_str(alloc, body)?,
            "made program" => self.program = expand_text(alloc, body)?,
            "made log" => self.log = expand(alloc, body)?,
            "log" => self.log = ended(alloc, body)?,
            _ => return Ok(false),
        }
        Ok(true)
    }
}

// The lines of a section, each ended.
fn lines_of(alloc: Global, body: &str) -> Result<String, AllocError> {
    if body.is_empty() {
        return Ok(String::new(alloc));
    }
    format!(in alloc; "{body}\n")
}

// The bytes of a section with its last line ended.
fn ended(alloc: Global, body: &str) -> Result<Vec<u8>, AllocError> {
    let mut bytes = expand(alloc, body)?;
    bytes.push(b'\n')?;
    Ok(bytes)
}

/// The sections of a table in order: the kind of each, and its text without the line feeds at its end. What stands before
/// the first line that begins with `== ` is a comment.
pub fn sections_of(alloc: Global, table: &str) -> Result<Vec<(&str, &str)>, AllocError> {
    let mut sections = Vec::new(alloc);
    for section in table.split("\n== ").skip(1) {
        let (kind, body) = section.split_once('\n').unwrap_or((section, ""));
        sections.push((kind, body.trim_end_matches('\n')))?;
    }
    Ok(sections)
}
