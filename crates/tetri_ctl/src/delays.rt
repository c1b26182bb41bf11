// The words that ask for a cost of delay.
use crate::builders::{Built, flag, number, valued, with_word};
use clap::{Arg, ArgMatches};
use std::alloc::Global;
use tetri_delay::{Delay, DelaySettings, density_in};

// So many nodes the search for a plan has where the words do not say it.
const EFFORT: u32 = 0;

// The option that says what a delay costs.
fn cost_word<'a>(alloc: Global) -> Arg<'a> {
    valued(
        alloc,
        "delay-cost",
        "COST",
        "what a node costs for each slot before a start: auto, a number, or none [default: none]",
    )
}

/// The command with the words that ask for a cost of delay.
pub fn with_delay<'a>(alloc: Global, command: Built<'a>) -> Built<'a> {
    let command = with_word(command, cost_word(alloc));
    let command = with_word(
        command,
        number(
            alloc,
            "ageing",
            "SLOTS",
            "with a cost of delay: for so many slots of waiting a job is worth as much again",
        ),
    );
    let command = with_word(
        command,
        flag(
            alloc,
            "keep-promise",
            "with a cost of delay: the oldest job, once it is planned, keeps its nodes",
        ),
    );
    with_word(
        command,
        number(
            alloc,
            "effort",
            "N",
            "with a cost of delay: nodes of a search tree for the plan, besides prices [default: 0]",
        ),
    )
}

// What a delay costs, and nothing where it costs nothing; `Err` where the word is none of these.
fn cost_of(words: &ArgMatches<'_>) -> Result<Option<Delay>, &'static str> {
    match words.get_str("delay-cost") {
        None | Some("none") => Ok(None),
        Some("auto") => Ok(Some(Delay::Auto)),
        Some(text) => match density_in(text) {
            Some(density) => Ok(Some(Delay::Fixed(density))),
            None => Err("--delay-cost takes auto, none or a number, as 0.5"),
        },
    }
}

// Whether words are given that go with a cost of delay alone.
fn has_others(words: &ArgMatches<'_>) -> bool {
    words.get_one::<u32>("ageing").is_some()
        || words.get_one::<u32>("effort").is_some()
        || words.get_flag("keep-promise")
}

/// The settings that the words ask for, and nothing where there is no cost of delay. The error says
/// what is wrong with the words.
pub fn delay_of(words: &ArgMatches<'_>) -> Result<Option<DelaySettings>, &'static str> {
    let Some(delay) = cost_of(words)? else {
        if has_others(words) {
            return Err(
                "--ageing, --keep-promise and --effort go with --delay-cost auto or a number",
            );
        }
        return Ok(None);
    };
    if words.get_str("search").is_some() {
        return Err("--search does not go with --delay-cost");
    }
    let ageing = words.get_one::<u32>("ageing");
    if ageing == Some(0) {
        return Err("--ageing takes at least 1 slot");
    }
    Ok(Some(DelaySettings {
        delay,
        ageing,
        keeps_promise: words.get_flag("keep-promise"),
        effort: words.get_one::<u32>("effort").unwrap_or(EFFORT),
    }))
}
