// A report, read line by line, where no certificate is kept.
ghost use Rattle.std.specs.Prelude.{◌≡◌, ◌<◌, ◌≤◌, ◌+◌, ◌^◌, ◌++◌, ◌∷◌, [], None, OnOk, OnErr, IfOk, option_map, false, true};
ghost use Rattle.tetri_cert.specs.declared.certificate.Certificate.TheVariants.{Tops};
ghost use Rattle.tetri_report.specs.Answers.{AnswersEnd, Leaves};
ghost use Rattle.tetri_report.specs.Block.{bare_block, headed};
ghost use Rattle.tetri_report.specs.Reading.{block_of, block_before, end_answer, ends_block, opened, with_line, with_read};
ghost use Rattle.tetri_report.specs.Strips.{AnswersTold, bare, strip_behind, telling, told_answer, told_by};
ghost use Rattle.tetri_trace.specs.Scenario.{scenario};

use crate::cycle::{Head, Summary};
use crate::fault::ReportFault;
use crate::line::{ReportLine, Stage};
use crate::read::line_in;
use crate::stages::{ends_block, fitting, is_certified, stage_behind};
use std::alloc::{AllocError, Global};
use std::marker::Model;
use tetri_cert::{Mark, PlanMark};
use tetri_state::Happened;
use tetri_strl::{Allotment, Grant};
use tetri_trace::Trace;

/// What a line of a report tells by itself.
#[derive(Drop)]
pub enum Told {
    /// Nothing yet: the line is one of a cycle that is not whole.
    More,
    /// The certificate is the sum of the tops, with these two numbers.
    Tops { columns: u64, rows: u64 },
    /// The next node of the certificate's tree, in preorder.
    Node(Mark),
    /// The line stands behind a whole cycle, whose certificate is what was told since the cycle began.
    Block(Head),
}

// A cycle of this number that says nothing else. It takes no memory.
fn empty_head(alloc: Global, number: u32) -> Head
    ensures { headed result (Tops 0 0) ≡ block_of number }
{
    Head {
        number,
        happened: Happened {
            ended: Vec::new(alloc),
            cancelled: Vec::new(alloc),
            failed: Vec::new(alloc),
            over: Vec::new(alloc),
            expired: Vec::new(alloc),
        },
        value: 0,
        bound: 0,
        mark: PlanMark::Wide,
        nodes: 0,
        grants: Allotment::new(alloc),
        starts: Vec::new(alloc),
        launched: Vec::new(alloc),
    }
}

// Puts a grant and its start last. Without memory the cycle says what it said.
fn push_grant(head: &mut Head, grant: Grant, start: u32) -> Result<(), AllocError>
    ensures ok { OnOk result (headed head.new (Tops 0 0) ≡ with_line (headed head.old (Tops 0 0)) (ReportLine.Grant grant start)) }
    ensures err { OnErr result (headed head.new (Tops 0 0) ≡ headed head.old (Tops 0 0)) }
{
    head.starts.push(start)?;
    if head.grants.push(grant).is_err() {
        let _start = head.starts.pop();
        return Err(AllocError);
    }
    Ok(())
}

// Adds to a cycle what a line of it says, or tells it where it is one of the certificate. Without memory the cycle says what it said.
fn add_line(head: &mut Head, line: ReportLine) -> Result<Told, AllocError>
    requires { ends_block line ≡ false }
    ensures told { IfOk result (λ told. telling told ≡ told_by opened line) }
    ensures ok { OnOk result (headed head.new (Tops 0 0) ≡ bare_block (with_line (headed head.old (Tops 0 0)) line)) }
    ensures err { OnErr result (headed head.new (Tops 0 0) ≡ headed head.old (Tops 0 0)) }
{
    match line {
        ReportLine::End(piece) => head.happened.ended.push(piece)?,
        ReportLine::Cancel(job) => head.happened.cancelled.push(job)?,
        ReportLine::Fail(job) => head.happened.failed.push(job)?,
        ReportLine::Over(piece) => head.happened.over.push(piece)?,
        ReportLine::Expire(job) => head.happened.expired.push(job)?,
        ReportLine::Plan(plan) => {
            head.value = plan.value;
            head.bound = plan.bound;
            head.mark = plan.mark;
            head.nodes = plan.nodes;
        }
        ReportLine::Grant { grant, start } => push_grant(head, grant, start)?,
        ReportLine::Tops { columns, rows } => return Ok(Told::Tops { columns, rows }),
        ReportLine::Node(mark) => return Ok(Told::Node(mark)),
        ReportLine::Launch(job) => head.launched.push(job)?,
        ReportLine::Cycle(_) | ReportLine::Summary(_) => unreachable!(),
    }
    Ok(Told::More)
}

// Where the reading of a report stands: how many lines were read, the last stage, the summary where the last line is one, and the
// number of the line that was refused.
#[derive(Clone, Copy)]
pub(crate) struct Stand {
    lines: u64,
    stage: Stage,
    summary: Option<Summary>,
    fault: Option<u64>,
}

/// A report that is read line by line. It keeps one cycle at a time, and nothing of its certificate, which is told line by line.
#[derive(Drop)]
pub struct Strips {
    alloc: Global,
    stand: Stand,
    head: Head,
}

impl Model for Strips {
    ghost use Rattle.std.specs.Prelude.{◌≤◌, ◌^◌};
    ghost use Rattle.tetri_cert.specs.declared.certificate.Certificate.TheVariants.{Tops};
    ghost use Rattle.tetri_report.specs.Block.{headed};
    ghost use Rattle.tetri_report.specs.Reading.{Reading};

    ghost Value = { Reading };

    ghost view = { λ s. record { lines = s.stand.lines; stage = s.stand.stage; block = headed s.head (Tops 0 0); summary = s.stand.summary; fault = s.stand.fault } };

    ghost invariant = { λ s. s.stand.lines ≤ 2 ^ 63 };
}

impl Strips {
    /// No line was read. It takes no memory.
    pub fn new(alloc: Global) -> Strips
        ensures { result ≡ opened }
    {
        Strips {
            alloc,
            stand: Stand {
                lines: 0,
                stage: Stage::Opened,
                summary: None,
                fault: None,
            },
            head: empty_head(alloc, 0),
        }
    }

    // One line more, at which a block ends.
    fn end_block(&mut self, line: ReportLine) -> Told
        requires few { self.old.lines < 2 ^ 63 }
        requires ends { ends_block line ≡ true }
        ensures answer { telling result ≡ told_by self.old line }
        ensures behind { self.new ≡ bare (with_read self.old line) }
    {
        let (number, stage, summary) = match line {
            ReportLine::Cycle(number) => (number, Stage::Begun, None),
            ReportLine::Summary(summary) => (0, Stage::Closed, Some(summary)),
            _ => unreachable!(),
        };
        let head = std::mem::replace(&mut self.head, empty_head(self.alloc, number));
        let told = if is_certified(self.stand.stage) {
            Told::Block(head)
        } else {
            Told::More
        };
        self.stand = Stand {
            lines: self.stand.lines + 1,
            stage,
            summary,
            fault: None,
        };
        told
    }

    // One line more, within a block.
    fn add(&mut self, line: ReportLine) -> Result<Told, AllocError>
        requires few { self.old.lines < 2 ^ 63 }
        requires within { ends_block line ≡ false }
        ensures told { IfOk result (λ told. telling told ≡ told_by self.old line) }
        ensures ok { OnOk result (self.new ≡ bare (with_read self.old line)) }
        ensures err { OnErr result (self.new ≡ self.old) }
    {
        let stage = stage_behind(&line);
        let told = add_line(&mut self.head, line)?;
        self.stand = Stand {
            lines: self.stand.lines + 1,
            stage,
            summary: None,
            fault: None,
        };
        Ok(told)
    }

    /// One line more: what it tells. `Malformed` comes exactly where the line is none of a report, may not stand behind those
    /// before it, or names no job or node of the trace; from then on every line and the end answer the same. Without memory all
    /// stays as it was. The trace is the same at each call.
    pub fn feed(&mut self, trace: &Trace, line: &[u8]) -> Result<Told, ReportFault>
        requires { self.old.lines < 2 ^ 63 }
        ensures answer { AnswersTold result (told_answer (scenario trace.entry.now) self.old line.now) }
        ensures left { Leaves result self.old (strip_behind (scenario trace.entry.now) self.old line.now) self.new }
        ensures counted { self.new.lines ≤ self.old.lines + 1 }
    {
        if let Some(line) = self.stand.fault {
            return Err(ReportFault::Malformed(line));
        }
        let read = line_in(self.alloc, trace, line)?;
        let Some(line) = fitting(self.stand.stage, read) else {
            let number = self.stand.lines + 1;
            self.stand.fault = Some(number);
            return Err(ReportFault::Malformed(number));
        };
        if ends_block(&line) {
            return Ok(self.end_block(line));
        }
        Ok(self.add(line)?)
    }

    // Where it stands.
    pub(crate) fn stand(&self) -> Stand
        ensures lines { result.lines ≡ self.now.lines }
        ensures stage { result.stage ≡ self.now.stage }
        ensures summary { result.summary ≡ self.now.summary }
        ensures fault { result.fault ≡ self.now.fault }
        ensures small { result.lines ≤ 2 ^ 63 }
    {
        self.stand
    }

    // Takes back a line that told a node: it stands where it stood before.
    pub(crate) fn go_back(&mut self, stand: Stand)
        requires { stand.lines ≤ 2 ^ 63 }
        ensures { self.new ≡ record self.old { lines = stand.lines; stage = stand.stage; summary = stand.summary; fault = stand.fault } }
    {
        self.stand = stand;
    }

    /// The summary, where the last line that was read is one.
    pub fn summary(&self) -> Option<Summary>
        ensures { result ≡ self.now.summary }
    {
        self.stand.summary
    }

    /// The summary, once all lines were read. `Malformed` comes where a line was refused, or with the number behind the
    /// last line where there was no summary. It takes no memory, and so `NoMemory` never comes.
    pub fn finish(self) -> Result<Summary, ReportFault>
        ensures { AnswersEnd result (end_answer self) }
    {
        if let Some(line) = self.stand.fault {
            return Err(ReportFault::Malformed(line));
        }
        match self.stand.summary {
            Some(summary) => Ok(summary),
            None => Err(ReportFault::Malformed(self.stand.lines + 1)),
        }
    }
}
