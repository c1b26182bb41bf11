// What the words of the commands are built of.
use clap::{Arg, ArgAction, Command, value_parser};
use std::alloc::{AllocError, Global};

/// A command that is being built, or that there is no memory for it.
pub type Built<'a> = Result<Command<'a>, AllocError>;

/// The same with one word more.
pub fn with_word<'a>(command: Built<'a>, word: Arg<'a>) -> Built<'a> {
    command?.arg(word)
}

/// The same with one command more below it.
pub fn with_command<'a>(program: Built<'a>, command: Built<'a>) -> Built<'a> {
    program?.subcommand(command?)
}

/// A command, with what its help says first and last.
pub fn titled<'a>(alloc: Global, name: &'a str, about: &'a str, after: &'a str) -> Built<'a> {
    Ok(Command::new(alloc, name).about(about).after_help(after))
}

/// A command on a trace.
pub fn on_trace<'a>(alloc: Global, name: &'a str, about: &'a str, after: &'a str) -> Built<'a> {
    let command = titled(alloc, name, about, after);
    with_word(command, trace_word(alloc))
}

/// A command on a trace and a report of it.
pub fn on_report<'a>(alloc: Global, name: &'a str, about: &'a str, after: &'a str) -> Built<'a> {
    let command = on_trace(alloc, name, about, after);
    with_word(command, report_word(alloc))
}

/// The word that names a trace.
pub fn trace_word<'a>(alloc: Global) -> Arg<'a> {
    Arg::new(alloc, "TRACE")
        .required(true)
        .help("the trace, a file or -")
}

/// The word that names a report.
pub fn report_word<'a>(alloc: Global) -> Arg<'a> {
    Arg::new(alloc, "REPORT")
        .required(true)
        .help("its report, a file or -")
}

/// An option that is given or is not.
pub fn flag<'a>(alloc: Global, name: &'a str, help: &'a str) -> Arg<'a> {
    Arg::new(alloc, name)
        .long(name)
        .action(ArgAction::SetTrue)
        .help(help)
}

/// An option that holds one of a few words.
pub fn choice<'a>(alloc: Global, name: &'a str, words: &'a [&'a str], help: &'a str) -> Arg<'a> {
    Arg::new(alloc, name)
        .long(name)
        .value_parser(words)
        .help(help)
}

/// An option that holds a text. `value` is what help calls it.
pub fn valued<'a>(alloc: Global, name: &'a str, value: &'a str, help: &'a str) -> Arg<'a> {
    Arg::new(alloc, name)
        .long(name)
        .value_name(value)
        .help(help)
}

/// An option that holds a number. `value` is what help calls it.
pub fn number<'a>(alloc: Global, name: &'a str, value: &'a str, help: &'a str) -> Arg<'a> {
    valued(alloc, name, value, help).value_parser(value_parser!(u32))
}
