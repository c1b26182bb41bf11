// What is found in a trace.
ghost use Rattle.std.specs.Prelude.{◌≡◌};
ghost use Rattle.tetri_lint.specs.Levels.{level_of};

use crate::told::Told;
use std::alloc::{AllocError, Global};
use tetri_notice::TraceWhy;

/// How much a finding matters.
#[derive(Clone, Copy, Debug, PartialEq, Eq)]
pub enum Level {
    /// The trace hardly means what it says.
    Warning,
    /// It is good to know.
    Note,
}

/// What is found.
#[derive(Clone, Copy, Debug, PartialEq, Eq)]
pub enum Kind {
    /// No reader knows the key.
    UnknownKey,
    /// The key stands once more in its object: the last value counts.
    RepeatedKey,
    /// More nodes are wanted than the set has.
    MoreThanSet { wanted: u32, there: u32 },
    /// A run of so many slots ends after the deadline, whenever it starts.
    PastDeadline { dur: u32, deadline: u32 },
    /// What ends at the deadline is worth 0, though the job is worth something.
    RoundsToZero { value: u64 },
    /// For each start there are too few nodes that are not closed.
    NeverStarts,
    /// So many nodes are in no set that a job names.
    UnnamedNodes { count: u32 },
    /// A start may wait longer than the window reaches.
    ShortWindow { window: u32, wait: u32 },
}

/// How much a kind of finding matters.
pub fn level_of(kind: Kind) -> Level
    ensures { result ≡ level_of kind }
{
    match kind {
        Kind::ShortWindow { .. } => Level::Note,
        _ => Level::Warning,
    }
}

/// Something suspicious at a line, lines and columns counted from 1, of the key, job or node of this name.
#[derive(Drop)]
pub struct Finding {
    pub line: u64,
    pub column: Option<u64>,
    pub kind: Kind,
    pub name: String,
    /// The known names that are nearest.
    pub near: Vec<String>,
}

/// Why a trace is refused: the line and the cause that its reader gives, and what is told of it.
#[derive(Drop)]
pub struct Refusal {
    pub line: u64,
    pub why: TraceWhy,
    pub told: Told,
}

/// All that is to be said of a trace: why it is refused, or what is found in it, in the order of lines.
#[derive(Drop)]
pub struct Linted {
    pub refusal: Option<Refusal>,
    pub findings: Vec<Finding>,
    /// How many findings more there are than are kept.
    pub more: u64,
}

const FINDINGS_MOST: usize = 1000;

impl Linted {
    /// A trace of which nothing is said yet.
    pub(crate) fn new(alloc: Global) -> Linted
        ensures { result.refusal ≡ None }
    {
        Linted {
            refusal: None,
            findings: Vec::new(alloc),
            more: 0,
        }
    }

    /// Says something more.
    pub(crate) fn add(&mut self, finding: Finding) -> Result<(), AllocError>
        ensures { self.new.refusal ≡ self.old.refusal }
    {
        if self.findings.len() >= FINDINGS_MOST {
            self.more = self.more.saturating_add(1);
            return Ok(());
        }
        self.findings.push(finding)?;
        Ok(())
    }
}
