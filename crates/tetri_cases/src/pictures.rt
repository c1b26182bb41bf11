// Pictures of reports that are accepted, and answers to those that are not, with their traces in the folder that the program runs in.
//
// A row of the table has a trace and one report of it or two, and then what is asked for: `--cycle` for the cycle whose waiting grants
// are shown, `--from` and `--to` for the slots, and `--colour` with `class` or `tag` for what the colours of bars tell. Behind a bar
// stand the tags, those of the trace's header in its order.
use std::alloc::Global;
use std::{fs, io};
use tetri_chart::{Colours, PairStatus, View, chart, chart_pair, clock_of};
use tetri_cluster::{Name, NameFault, NameList};
use tetri_io::{FileShelf, StdSink};
use tetri_run::{Status, conclude};

// What a row asks for.
#[derive(Clone, Copy)]
struct Row<'a> {
    trace: &'a str,
    first: &'a str,
    // The second report, or a word of what is asked for.
    next: &'a str,
    cycle: Option<u32>,
    from: Option<u32>,
    to: Option<u32>,
    colour: &'a str,
    tags: &'a str,
}

// What stands before a mark, and what stands behind it.
fn parts_at<'a>(text: &'a str, mark: &str) -> (&'a str, &'a str) {
    text.split_once(mark).unwrap_or((text, ""))
}

// The word behind a mark, empty where the mark is not there.
fn word_behind<'a>(text: &'a str, mark: &str) -> &'a str {
    let (_, rest) = parts_at(text, mark);
    let (word, _) = parts_at(rest, " ");
    word
}

fn number_behind(text: &str, mark: &str) -> Option<u32> {
    word_behind(text, mark).parse::<u32>().ok()
}

fn row_of<'a>(asked: &'a str, tags: &'a str) -> Row<'a> {
    let (trace, rest) = parts_at(asked, " ");
    let (first, rest) = parts_at(rest, " ");
    let (next, _) = parts_at(rest, " ");
    Row {
        trace,
        first,
        next,
        cycle: number_behind(asked, " --cycle "),
        from: number_behind(asked, " --from "),
        to: number_behind(asked, " --to "),
        colour: word_behind(asked, " --colour "),
        tags,
    }
}

// The tags as names.
fn names_of(alloc: Global, tags: &str) -> Result<NameList, NameFault> {
    let mut names = NameList::new(alloc);
    for tag in tags.split(' ') {
        names.push(Name::read(alloc, tag.as_bytes())?)?;
    }
    Ok(names)
}

// What the colours tell.
fn colours_of(alloc: Global, row: &Row<'_>) -> Result<Colours, NameFault> {
    match row.colour {
        "class" => Ok(Colours::ByClass),
        "tag" => Ok(Colours::ByTag(names_of(alloc, row.tags)?)),
        _ => Ok(Colours::ByJob),
    }
}

// How a trace's run is shown.
fn view_of(
    rt: &HostRuntime,
    shelf: &mut FileShelf<'_, HostRuntime>,
    row: &Row<'_>,
) -> Result<View, NameFault> {
    Ok(View {
        from: row.from,
        to: row.to,
        clock: clock_of(rt.alloc(), shelf, row.trace),
        colours: colours_of(rt.alloc(), row)?,
    })
}

// Prints how a call ended.
fn print_status(rt: &HostRuntime, whose: &str, status: &Status) -> io::Result<()> {
    if let Status::Usage = status {
        return println!(rt; "no such cycle or slots");
    }
    print!(rt; "{whose}")?;
    let mut sink = StdSink::new(rt.stdout());
    let number = conclude(rt.alloc(), status, &mut sink);
    println!(rt; "{number}")
}

// Draws a report, and prints how the call ended.
fn draw_one(
    rt: &HostRuntime,
    shelf: &mut FileShelf<'_, HostRuntime>,
    row: &Row<'_>,
    view: &View,
) -> io::Result<()> {
    let mut sink = StdSink::new(rt.stdout());
    let status = chart(
        rt.alloc(),
        row.trace,
        row.first,
        row.cycle,
        view,
        shelf,
        &mut sink,
    );
    print_status(rt, "", &status)
}

// Draws two reports, and prints which check ended so, or how drawing both did.
fn draw_pair(
    rt: &HostRuntime,
    shelf: &mut FileShelf<'_, HostRuntime>,
    row: &Row<'_>,
    view: View,
) -> io::Result<()> {
    let mut sink = StdSink::new(rt.stdout());
    let status = chart_pair(
        rt.alloc(),
        row.trace,
        row.first,
        row.next,
        None,
        view,
        shelf,
        &mut sink,
    );
    match &status {
        PairStatus::First(status) => print_status(rt, "first ", status),
        PairStatus::Second(status) => print_status(rt, "second ", status),
        PairStatus::Both(status) => print_status(rt, "", status),
    }
}

fn draw_row(rt: &HostRuntime, row: &Row<'_>) -> io::Result<()> {
    let mut shelf = FileShelf::new(rt);
    let Ok(view) = view_of(rt, &mut shelf, row) else {
        return println!(rt; "no such names");
    };
    if row.next.ends_with(".report") {
        draw_pair(rt, &mut shelf, row, view)
    } else {
        draw_one(rt, &mut shelf, row, &view)
    }
}

/// Draws what each row of a table asks for, and prints how each call ended.
pub fn draw_all(rt: &HostRuntime, table: &str) -> io::Result<()> {
    let table = fs::read_to_string(rt, table)?;
    for row in table.as_str().lines() {
        let (asked, tags) = parts_at(row, " | ");
        println!(rt; "== {asked}")?;
        draw_row(rt, &row_of(asked, tags))?;
    }
    Ok(())
}
