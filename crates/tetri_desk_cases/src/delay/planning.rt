// Runs with a cost of delay.
use crate::delay::settings::Settings;
use crate::panels::seat;
use std::alloc::{AllocError, Global};
use tetri_advice::{Advisor, Panel};
use tetri_by_swift::BySwift;
use tetri_delay::{Delay, DelaySettings, Delayed};
use tetri_greedy::{ByDeadline, ByWorth};
use tetri_io::{MemShelf, MemSink};
use tetri_run::{ByChooser, Status, run_check, run_chosen};
use tetri_tables::text_in;

// Bytes of a read and of a write at most, and bytes that there is room for.
const PIECE: usize = 65_536;

const ROOM: usize = 4_000_000;

// Bytes for copies of the dictionaries of a search.
const COPIES: usize = 268_435_456;

fn delay_settings(settings: &Settings) -> DelaySettings {
    DelaySettings {
        delay: match settings.density {
            Some(density) => Delay::Fixed(density),
            None => Delay::Auto,
        },
        ageing: settings.ageing,
        keeps_promise: settings.keeps_promise,
        effort: settings.effort,
    }
}

// The report of the run, with the two shipped advisors.
fn report_of(alloc: Global, trace: &str, settings: &Settings) -> Result<String, AllocError> {
    let mut panel = Panel::new(alloc);
    let by_deadline: Box<dyn Advisor> = Box::new(alloc, ByDeadline::new())?;
    seat(&mut panel, by_deadline)?;
    let by_worth: Box<dyn Advisor> = Box::new(alloc, ByWorth::new())?;
    seat(&mut panel, by_worth)?;
    let chooser = BySwift::new(panel, COPIES);
    let mut shelf = MemShelf::new(alloc, PIECE, &[])?;
    shelf.put("trace", trace.as_bytes())?;
    let mut sink = MemSink::new(alloc, PIECE, ROOM, &[])?;
    let mut planner = ByChooser {
        chooser: Delayed::new(alloc, chooser, delay_settings(settings)),
    };
    match run_chosen(alloc, "trace", &mut shelf, &mut sink, &mut planner) {
        Status::Done => text_in(alloc, sink.written()),
        _ => String::from_str(alloc, "no report\n"),
    }
}

// Whether a check accepts the report.
fn is_accepted(alloc: Global, trace: &str, report: &str) -> Result<bool, AllocError> {
    let mut shelf = MemShelf::new(alloc, PIECE, &[])?;
    shelf.put("trace", trace.as_bytes())?;
    shelf.put("report", report.as_bytes())?;
    let mut sink = MemSink::new(alloc, PIECE, 1000, &[])?;
    match run_check(alloc, "trace", "report", &mut shelf, &mut sink) {
        Status::Done => Ok(true),
        _ => Ok(false),
    }
}

// Whether a line is of a certificate.
fn is_of_certificate(line: &str) -> bool {
    match line.split(' ').next().unwrap_or("") {
        "tops" | "close" | "split" | "whole" | "rest" => true,
        _ => false,
    }
}

/// The report of the run of a trace without the lines of certificates, and whether a check accepts it.
pub fn planned(alloc: Global, trace: &str, settings: &Settings) -> Result<String, AllocError> {
    let report = report_of(alloc, trace, settings)?;
    let mut out = String::new(alloc);
    for line in report.lines() {
        if !is_of_certificate(line) {
            write!(out, "{line}\n")?;
        }
    }
    if is_accepted(alloc, trace, report.as_str())? {
        out.push_str("accepted")?;
    } else {
        out.push_str("refused")?;
    }
    Ok(out)
}
