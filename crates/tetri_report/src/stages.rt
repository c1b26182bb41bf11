// Where a line of a report may stand.
ghost use Rattle.std.specs.Prelude.{◌≡◌};
ghost use Rattle.tetri_report.specs.Reading.{ends_block, fitting, is_between, is_certified, is_from_to, may_follow, rank, stage_behind};

use crate::line::{ReportLine, Stage};

// The stages of a report, numbered in their order.
fn rank(stage: Stage) -> u8
    ensures { result ≡ rank stage }
{
    stage as u8
}

// Whether a stage is one of those from the first to the last.
fn is_from_to(first: Stage, last: Stage, stage: Stage) -> bool
    ensures { result ≡ is_from_to first last stage }
{
    rank(first) <= rank(stage) && rank(stage) <= rank(last)
}

pub(crate) fn is_certified(stage: Stage) -> bool
    ensures { result ≡ is_certified stage }
{
    is_from_to(Stage::Tree, Stage::Certified, stage)
}

fn is_between(stage: Stage) -> bool
    ensures { result ≡ is_between stage }
{
    is_from_to(Stage::Opened, Stage::Opened, stage) || is_certified(stage)
}

fn may_follow(stage: Stage, line: &ReportLine) -> bool
    ensures { result ≡ may_follow stage line.now }
{
    match line {
        ReportLine::Cycle(_) => is_between(stage),
        ReportLine::End(_) => is_from_to(Stage::Begun, Stage::Ends, stage),
        ReportLine::Cancel(_) => is_from_to(Stage::Begun, Stage::Cancels, stage),
        ReportLine::Fail(_) => is_from_to(Stage::Begun, Stage::Fails, stage),
        ReportLine::Over(_) => is_from_to(Stage::Begun, Stage::Overs, stage),
        ReportLine::Expire(_) => is_from_to(Stage::Begun, Stage::Expires, stage),
        ReportLine::Plan(_) => is_from_to(Stage::Begun, Stage::Expires, stage),
        ReportLine::Grant { .. } => is_from_to(Stage::Planned, Stage::Planned, stage),
        ReportLine::Tops { .. } => is_from_to(Stage::Planned, Stage::Planned, stage),
        ReportLine::Node(_) => is_from_to(Stage::Planned, Stage::Tree, stage),
        ReportLine::Launch(_) => is_certified(stage),
        ReportLine::Summary(_) => is_between(stage),
    }
}

pub(crate) fn stage_behind(line: &ReportLine) -> Stage
    ensures { result ≡ stage_behind line.now }
{
    match line {
        ReportLine::Cycle(_) => Stage::Begun,
        ReportLine::End(_) => Stage::Ends,
        ReportLine::Cancel(_) => Stage::Cancels,
        ReportLine::Fail(_) => Stage::Fails,
        ReportLine::Over(_) => Stage::Overs,
        ReportLine::Expire(_) => Stage::Expires,
        ReportLine::Plan(_) => Stage::Planned,
        ReportLine::Grant { .. } => Stage::Planned,
        ReportLine::Tops { .. } => Stage::Certified,
        ReportLine::Node(_) => Stage::Tree,
        ReportLine::Launch(_) => Stage::Certified,
        ReportLine::Summary(_) => Stage::Closed,
    }
}

pub(crate) fn ends_block(line: &ReportLine) -> bool
    ensures { result ≡ ends_block line.now }
{
    match line {
        ReportLine::Cycle(_) => true,
        ReportLine::End(_) => false,
        ReportLine::Cancel(_) => false,
        ReportLine::Fail(_) => false,
        ReportLine::Over(_) => false,
        ReportLine::Expire(_) => false,
        ReportLine::Plan(_) => false,
        ReportLine::Grant { .. } => false,
        ReportLine::Tops { .. } => false,
        ReportLine::Node(_) => false,
        ReportLine::Launch(_) => false,
        ReportLine::Summary(_) => true,
    }
}

// The line, where it may stand at this stage.
pub(crate) fn fitting(stage: Stage, line: Option<ReportLine>) -> Option<ReportLine>
    ensures { result ≡ fitting stage line }
{
    match line {
        Some(line) => {
            if may_follow(stage, &line) {
                Some(line)
            } else {
                None
            }
        }
        None => None,
    }
}
