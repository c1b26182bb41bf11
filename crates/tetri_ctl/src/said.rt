// What is said of how a call ended, and the number with which the program exits.
use std::{fs, io};
use tetri_io::{StdSink, send_all};
use tetri_pipes::Unread;
use tetri_run::{Status, conclude};

/// What was asked for is refused.
pub const REFUSED: u8 = 1;

/// The words are wrong.
pub const USAGE: u8 = 2;

/// Something that is named cannot be read.
pub const READ_FAULT: u8 = 3;

/// Standard output cannot be written.
pub const WRITE_FAULT: u8 = 4;

/// What is read is refused.
pub const BAD_INPUT: u8 = 5;

/// There is no memory.
pub const NO_MEMORY: u8 = 6;

/// A name as it is shown.
pub fn shown(name: &str) -> &str {
    if name == "-" { "standard input" } else { name }
}

/// Says what is wrong with what a name holds.
pub fn complain(rt: &HostRuntime, name: &str, what: &str) {
    let name = shown(name);
    let _said = eprintln!(rt; "tetri_ctl: {name}: {what}");
}

/// Says that the program of a cycle has more columns than numbers of columns tell.
pub fn too_large(rt: &HostRuntime, name: &str, columns: u64, rows: u64) {
    let name = shown(name);
    let what = "the program is larger than 2147483647 columns";
    let _said = eprintln!(rt; "tetri_ctl: {name}: {what}: {columns} columns, {rows} rows");
}

// Says what the system says of a name.
fn complain_of_system(rt: &HostRuntime, name: &str, error: &io::Error) {
    let name = shown(name);
    let _said = eprintln!(rt; "tetri_ctl: {name}: {error}");
}

/// Says that a read of a file failed, with the reason of the system where the file cannot be opened any more, and gives the exit number.
pub fn read_fault(rt: &HostRuntime, name: &str) -> u8 {
    match fs::open(rt, name) {
        Err(error) => complain_of_system(rt, name, &error),
        Ok(_file) => complain(rt, name, "read fault"),
    }
    READ_FAULT
}

/// Says why a name is not read, and gives the exit number. `too_long` is that of what is too long.
pub fn unread(rt: &HostRuntime, name: &str, why: &Unread, too_long: u8) -> u8 {
    match why {
        Unread::Failed(error) => {
            complain_of_system(rt, name, error);
            READ_FAULT
        }
        Unread::TooLong => {
            complain(rt, name, "too long to be read from a pipe");
            too_long
        }
        Unread::NoMemory => {
            complain(rt, name, "out of memory");
            NO_MEMORY
        }
    }
}

/// Writes a text to standard output. Where it cannot be written, that is said, and the error is the exit number.
pub fn write_output(rt: &HostRuntime, text: &[u8]) -> Result<(), u8> {
    let mut out = StdSink::new(rt.stdout());
    match send_all(&mut out, text) {
        Ok(()) => Ok(()),
        Err(_) => {
            complain(rt, "standard output", "write fault");
            Err(WRITE_FAULT)
        }
    }
}

/// Says why the words of the command line are not read, and gives the exit number.
pub fn words_fault(rt: &HostRuntime, error: &io::Error) -> u8 {
    complain_of_system(rt, "the command line", error);
    match error.kind() {
        io::ErrorKind::OutOfMemory => NO_MEMORY,
        _ => USAGE,
    }
}

/// Says what is wrong with the words of a call, and gives the exit number.
pub fn wrong_words(rt: &HostRuntime, what: &str) -> u8 {
    let _said = eprintln!(rt; "tetri_ctl: {what}");
    USAGE
}

// What a status speaks of.
fn subject<'a>(status: &Status, trace: &'a str, report: &'a str) -> &'a str {
    match status {
        Status::BadTrace { .. } => shown(trace),
        Status::Refused { .. } => shown(report),
        Status::WriteFault => "standard output",
        Status::Done | Status::Usage | Status::ReadFault | Status::NoMemory => "",
    }
}

/// Says how a call on a trace and a report ended, with the name that it speaks of, and gives the exit number.
pub fn end(rt: &HostRuntime, status: &Status, trace: &str, report: &str) -> u8 {
    if *status != Status::Done {
        let _said = eprint!(rt; "tetri_ctl: ");
    }
    let subject = subject(status, trace, report);
    if !subject.is_empty() {
        let _said = eprint!(rt; "{subject}: ");
    }
    let mut errors = StdSink::new(rt.stderr());
    conclude(rt.alloc(), status, &mut errors)
}

/// Says that there is no memory, and gives the exit number.
pub fn no_memory(rt: &HostRuntime) -> u8 {
    end(rt, &Status::NoMemory, "", "")
}
