// `tetri_ctl plan TRACE`
use crate::accounted::kept_trace;
use crate::advisors::seat;
use crate::builders::{Built, choice, on_trace, with_word};
use crate::delays::{delay_of, with_delay};
use crate::named::{Shelf, open_trace};
use crate::refusals::end_of;
use crate::said::{USAGE, complain, wrong_words};
use clap::{Arg, ArgMatches};
use std::alloc::{AllocError, Global};
use tetri_advice::{Advisor, Panel};
use tetri_by_price::ByPrice;
use tetri_by_swift::BySwift;
use tetri_delay::{DelaySettings, Delayed};
use tetri_greedy::{ByDeadline, ByWorth};
use tetri_io::StdSink;
use tetri_run::{ByChooser, Status, run_chosen, run_plan};
use tetri_sooner::Sooner;

// How the plan of a cycle is searched for.
#[derive(Clone, Copy, Debug, PartialEq, Eq)]
enum Search {
    // By branch and bound as `tetri plan`, where the cycle is not too wide.
    Exact,
    // By prices of the nodes first.
    Prices,
    // By branch and bound that goes on from the node above, and by prices of the nodes. The default.
    Swift,
    // The same with a cost of delay.
    Delayed(DelaySettings),
}

// The bytes of a plan's copies of dictionaries at most.
const KEEP_BYTES: usize = 268_435_456;

// The option that says how plans are searched for.
fn search_word<'a>(alloc: Global) -> Arg<'a> {
    let help = "how plans are searched for; exact is tetri plan [default: swift]";
    choice(alloc, "search", &["exact", "prices", "swift"], help).value_name("HOW")
}

/// The words of the command.
pub fn command<'a>(alloc: Global) -> Built<'a> {
    let command = on_trace(
        alloc,
        "plan",
        "Plans a trace, and writes its report",
        "Example: tetri_ctl import swf cluster.swf | tetri_ctl plan - > cluster.report",
    );
    with_delay(alloc, with_word(command, search_word(alloc)))
}

// The search that the words ask for; the error says what is wrong with them.
fn search_of(words: &ArgMatches<'_>) -> Result<Search, &'static str> {
    if let Some(settings) = delay_of(words)? {
        return Ok(Search::Delayed(settings));
    }
    Ok(match words.get_str("search") {
        Some("exact") => Search::Exact,
        Some("prices") => Search::Prices,
        _ => Search::Swift,
    })
}

// A plan with a cost of delay has the bound of a search's root, so the header's budget has to be 1.
// Where it is not, that is said, and the error is the exit number, as where the trace is refused.
fn budget_is_one(rt: &HostRuntime, shelf: &mut Shelf<'_>, trace: &str) -> Result<(), u8> {
    let kept = kept_trace(rt, shelf, trace)?;
    if kept.header.budget == 1 {
        return Ok(());
    }
    complain(
        rt,
        trace,
        "--delay-cost needs a header with a budget of 1, which import and queue write with --budget 1",
    );
    Err(USAGE)
}

// Seats the two shipped advisors, and plans as it is asked for. Its only error is want of memory for a seat.
fn seat_and_plan(
    rt: &HostRuntime,
    shelf: &mut Shelf<'_>,
    trace: &str,
    search: Search,
) -> Result<Status, AllocError> {
    let mut panel = Panel::new(rt.alloc());
    let by_deadline: Box<dyn Advisor> = Box::new(rt.alloc(), ByDeadline::new())?;
    seat(&mut panel, by_deadline)?;
    let by_worth: Box<dyn Advisor> = Box::new(rt.alloc(), ByWorth::new())?;
    seat(&mut panel, by_worth)?;
    let mut sink = StdSink::new(rt.stdout());
    let status = match search {
        Search::Exact => run_plan(rt.alloc(), trace, shelf, &mut sink, &mut panel),
        Search::Prices => {
            let mut planner = ByChooser {
                chooser: Sooner::new(ByPrice::new(panel)),
            };
            run_chosen(rt.alloc(), trace, shelf, &mut sink, &mut planner)
        }
        Search::Swift => {
            let mut planner = ByChooser {
                chooser: Sooner::new(BySwift::new(panel, KEEP_BYTES)),
            };
            run_chosen(rt.alloc(), trace, shelf, &mut sink, &mut planner)
        }
        Search::Delayed(settings) => {
            let chooser = BySwift::new(panel, KEEP_BYTES);
            let mut planner = ByChooser {
                chooser: Delayed::new(rt.alloc(), chooser, settings),
            };
            run_chosen(rt.alloc(), trace, shelf, &mut sink, &mut planner)
        }
    };
    Ok(status)
}

// Plans a trace that is ready to be read, and gives the exit number.
fn plan(rt: &HostRuntime, shelf: &mut Shelf<'_>, trace: &str, search: Search) -> u8 {
    if matches!(search, Search::Delayed(_))
        && let Err(number) = budget_is_one(rt, shelf, trace)
    {
        return number;
    }
    let status = match seat_and_plan(rt, shelf, trace, search) {
        Ok(status) => status,
        Err(AllocError) => Status::NoMemory,
    };
    end_of(rt, shelf, &status, trace, "")
}

/// Plans what the words name, and gives the exit number.
pub fn run(rt: &HostRuntime, words: &ArgMatches<'_>) -> u8 {
    let search = match search_of(words) {
        Ok(search) => search,
        Err(what) => return wrong_words(rt, what),
    };
    let trace = words.get_str("TRACE").unwrap_or("");
    let mut shelf = Shelf::new(rt.alloc(), rt);
    match open_trace(rt, &mut shelf, trace) {
        Ok(()) => plan(rt, &mut shelf, trace, search),
        Err(number) => number,
    }
}
