// A report, read line by line, cycle by cycle.
ghost use Rattle.std.specs.Prelude.{◌≡◌, ◌<◌, ◌≤◌, ◌+◌, ◌^◌, OnOk, OnErr};
ghost use Rattle.tetri_report.specs.Answers.{AnswersEnd, AnswersLine, Leaves};
ghost use Rattle.tetri_report.specs.Block.{block, headed};
ghost use Rattle.tetri_report.specs.Reading.{behind_line, end_answer, line_answer, opened, with_node};
ghost use Rattle.tetri_trace.specs.Scenario.{scenario};

use crate::cycle::{Cycle, Head, Summary};
use crate::fault::ReportFault;
use crate::strips::{Strips, Told};
use std::alloc::{AllocError, Global};
use std::marker::Model;
use tetri_base::Items;
use tetri_cert::{Certificate, Mark};
use tetri_trace::Trace;

// The certificate of no lines.
const NO_CERTIFICATE: Certificate = Certificate::Tops {
    columns: 0,
    rows: 0,
};

// The cycle of this head and this certificate.
fn cycle_of(head: Head, certificate: Certificate) -> Cycle
    ensures { block result ≡ headed head certificate }
{
    Cycle {
        number: head.number,
        happened: head.happened,
        value: head.value,
        bound: head.bound,
        mark: head.mark,
        nodes: head.nodes,
        grants: head.grants,
        starts: head.starts,
        certificate,
        launched: head.launched,
    }
}

// Puts a node last; the first one makes the certificate a tree. Without memory the certificate is as it was.
fn push_node(alloc: Global, certificate: &mut Certificate, mark: Mark) -> Result<(), AllocError>
    ensures ok { OnOk result (certificate.new ≡ with_node certificate.old mark) }
    ensures err { OnErr result (certificate.new ≡ certificate.old) }
{
    match certificate {
        Certificate::Tree(marks) => marks.push(mark),
        Certificate::Tops { .. } => {
            let mut marks = Items::new(alloc);
            marks.push(mark)?;
            *certificate = Certificate::Tree(marks);
            Ok(())
        }
    }
}

/// A report that is read line by line. It keeps one cycle at a time.
#[derive(Drop)]
pub struct Blocks {
    alloc: Global,
    strips: Strips,
    certificate: Certificate,
}

impl Model for Blocks {
    ghost use Rattle.tetri_report.specs.Reading.{Reading};
    ghost use Rattle.tetri_report.specs.Strips.{BeginsBare, certified_reading};

    ghost Value = { Reading };

    ghost view = { λ b. certified_reading b.strips b.certificate };

    ghost invariant = { λ b. BeginsBare (certified_reading b.strips b.certificate) };
}

impl Blocks {
    /// No line was read. It takes no memory.
    pub fn new(alloc: Global) -> Blocks
        ensures { result ≡ opened }
    {
        Blocks {
            alloc,
            strips: Strips::new(alloc),
            certificate: NO_CERTIFICATE,
        }
    }

    /// One line more: the cycle that it ends, if it ends one. `Malformed` comes exactly where the line is none of a
    /// report, may not stand behind those before it, or names no job or node of the trace; from then on every line and the
    /// end answer the same. Without memory all stays as it was. The trace is the same at each call.
    pub fn feed(&mut self, trace: &Trace, line: &[u8]) -> Result<Option<Cycle>, ReportFault>
        requires { self.old.lines < 2 ^ 63 }
        ensures answer { AnswersLine result (line_answer (scenario trace.entry.now) self.old line.now) }
        ensures left { Leaves result self.old (behind_line (scenario trace.entry.now) self.old line.now) self.new }
        ensures counted { self.new.lines ≤ self.old.lines + 1 }
    {
        let before = self.strips.stand();
        match self.strips.feed(trace, line) {
            Ok(Told::More) => Ok(None),
            Ok(Told::Tops { columns, rows }) => {
                self.certificate = Certificate::Tops { columns, rows };
                Ok(None)
            }
            Ok(Told::Node(mark)) => {
                if push_node(self.alloc, &mut self.certificate, mark).is_err() {
                    self.strips.go_back(before);
                    return Err(ReportFault::NoMemory);
                }
                Ok(None)
            }
            Ok(Told::Block(head)) => {
                let certificate = std::mem::replace(&mut self.certificate, NO_CERTIFICATE);
                Ok(Some(cycle_of(head, certificate)))
            }
            Err(fault) => Err(fault),
        }
    }

    /// The summary, where the last line that was read is one.
    pub fn summary(&self) -> Option<Summary>
        ensures { result ≡ self.now.summary }
    {
        self.strips.summary()
    }

    /// The summary, once all lines were read. `Malformed` comes where a line was refused, or with the number behind the
    /// last line where there was no summary. It takes no memory, and so `NoMemory` never comes.
    pub fn finish(self) -> Result<Summary, ReportFault>
        ensures { AnswersEnd result (end_answer self) }
    {
        self.strips.finish()
    }
}
