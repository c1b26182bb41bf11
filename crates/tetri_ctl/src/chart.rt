// `tetri_ctl chart TRACE REPORT [REPORT2]`
use crate::builders::{Built, choice, number, on_report, with_word};
use crate::named::{Shelf, open_both, open_report};
use crate::refusals::end_of;
use crate::said::{USAGE, complain};
use clap::{Arg, ArgMatches};
use std::alloc::{AllocError, Global};
use tetri_chart::{Colours, PairStatus, View, chart, chart_pair, clock_of};
use tetri_cluster::{Name, NameFault, NameList};
use tetri_figures::tags_of;
use tetri_io::StdSink;
use tetri_run::Status;

// The word that names another report.
fn second_word<'a>(alloc: Global) -> Arg<'a> {
    Arg::new(alloc, "REPORT2").help(
        "another report of the trace, which is drawn below, a file or -",
    )
}

// The option that says what the colours tell.
fn colour_word<'a>(alloc: Global) -> Arg<'a> {
    choice(
        alloc,
        "colour",
        &["job", "class", "tag"],
        "colour bars by job, by the class of the job, or by the first tag of the node",
    )
    .value_name("WHAT")
}

// With what is asked of the drawing.
fn with_view<'a>(alloc: Global, command: Built<'a>) -> Built<'a> {
    let command = with_word(
        command,
        number(
            alloc,
            "cycle",
            "N",
            "show what this cycle planned for later slots",
        ),
    );
    let command = with_word(
        command,
        number(alloc, "from", "SLOT", "begin with this slot of the run"),
    );
    let command = with_word(
        command,
        number(
            alloc,
            "to",
            "SLOT",
            "end with this slot of the run, and not with the last in which a piece runs",
        ),
    );
    with_word(command, colour_word(alloc))
}

/// The words of the command.
pub fn command<'a>(alloc: Global) -> Built<'a> {
    let command = on_report(
        alloc,
        "chart",
        "Draws a report that is accepted, or two of one trace over the same slots, as SVG",
        "Example: tetri_ctl chart day.jsonl day.report > day.svg",
    );
    with_view(alloc, with_word(command, second_word(alloc)))
}

// The tags as names.
fn names_of(alloc: Global, tags: &[String]) -> Result<NameList, AllocError> {
    let mut names = NameList::new(alloc);
    for tag in tags {
        match Name::read(alloc, tag.as_bytes()) {
            Ok(name) => names.push(name)?,
            Err(NameFault::NoMemory) => return Err(AllocError),
            Err(NameFault::NotName) => {}
        }
    }
    Ok(names)
}

// What the colours are to tell. The tags are those of the trace's header.
fn colours_of(
    alloc: Global,
    shelf: &mut Shelf<'_>,
    trace: &str,
    word: Option<&str>,
) -> Result<Colours, AllocError> {
    match word {
        Some("class") => Ok(Colours::ByClass),
        Some("tag") => {
            let tags = tags_of(alloc, shelf, trace)?;
            Ok(Colours::ByTag(names_of(alloc, &tags)?))
        }
        _ => Ok(Colours::ByJob),
    }
}

// What is said where the run lacks what is asked for.
fn lacking(words: &ArgMatches<'_>) -> &'static str {
    match (words.get_one::<u32>("from"), words.get_one::<u32>("to")) {
        (None, None) => "the run has no such cycle",
        _ => "the run has no such cycle or slots",
    }
}

// How the words ask for the run to be shown.
fn view_of(
    alloc: Global,
    shelf: &mut Shelf<'_>,
    trace: &str,
    words: &ArgMatches<'_>,
) -> Result<View, AllocError> {
    Ok(View {
        from: words.get_one::<u32>("from"),
        to: words.get_one::<u32>("to"),
        clock: clock_of(alloc, shelf, trace),
        colours: colours_of(alloc, shelf, trace, words.get_str("colour"))?,
    })
}

// Draws a report that can be read.
fn drawn(
    rt: &HostRuntime,
    shelf: &mut Shelf<'_>,
    trace: &str,
    report: &str,
    words: &ArgMatches<'_>,
) -> Result<Status, u8> {
    open_both(rt, shelf, trace, report)?;
    let Ok(view) = view_of(rt.alloc(), shelf, trace, words) else {
        return Ok(Status::NoMemory);
    };
    let cycle = words.get_one::<u32>("cycle");
    let mut sink = StdSink::new(rt.stdout());
    Ok(chart(rt.alloc(), trace, report, cycle, &view, shelf, &mut sink))
}

// Draws two reports that can be read.
fn drawn_pair(
    rt: &HostRuntime,
    shelf: &mut Shelf<'_>,
    trace: &str,
    first: &str,
    second: &str,
    words: &ArgMatches<'_>,
) -> Result<PairStatus, u8> {
    open_both(rt, shelf, trace, first)?;
    open_report(rt, shelf, second)?;
    let Ok(view) = view_of(rt.alloc(), shelf, trace, words) else {
        return Ok(PairStatus::First(Status::NoMemory));
    };
    let cycle = words.get_one::<u32>("cycle");
    let mut sink = StdSink::new(rt.stdout());
    Ok(chart_pair(
        rt.alloc(),
        trace,
        first,
        second,
        cycle,
        view,
        shelf,
        &mut sink,
    ))
}

// Draws one report, and gives the exit number.
fn run_one(rt: &HostRuntime, trace: &str, report: &str, words: &ArgMatches<'_>) -> u8 {
    let mut shelf = Shelf::new(rt.alloc(), rt);
    match drawn(rt, &mut shelf, trace, report, words) {
        Ok(Status::Usage) => {
            complain(rt, report, lacking(words));
            USAGE
        }
        Ok(status) => end_of(rt, &mut shelf, &status, trace, report),
        Err(number) => number,
    }
}

// Draws two reports, one below the other, and gives the exit number.
fn run_pair(
    rt: &HostRuntime,
    trace: &str,
    first: &str,
    second: &str,
    words: &ArgMatches<'_>,
) -> u8 {
    let mut shelf = Shelf::new(rt.alloc(), rt);
    match drawn_pair(rt, &mut shelf, trace, first, second, words) {
        Ok(PairStatus::Both(Status::Usage)) => {
            complain(rt, first, lacking(words));
            USAGE
        }
        Ok(PairStatus::First(status)) => end_of(rt, &mut shelf, &status, trace, first),
        Ok(PairStatus::Second(status)) => end_of(rt, &mut shelf, &status, trace, second),
        Ok(PairStatus::Both(status)) => end_of(rt, &mut shelf, &status, trace, first),
        Err(number) => number,
    }
}

/// Draws what the words name, and gives the exit number.
pub fn run(rt: &HostRuntime, words: &ArgMatches<'_>) -> u8 {
    let trace = words.get_str("TRACE").unwrap_or("");
    let report = words.get_str("REPORT").unwrap_or("");
    match words.get_str("REPORT2") {
        Some(second) => run_pair(rt, trace, report, second, words),
        None => run_one(rt, trace, report, words),
    }
}
