//! Tries whole runs of large sizes, which the tables that its arguments name make of a few words, and prints what differs and how many
//! cases there were. The README lists the kinds of sections.
#![tactic(auto)]

mod runs;

use std::{env, fs, io};

fn main(rt: HostRuntime) -> io::Result<()> {
    for name in env::args(&rt)?.skip(1) {
        let text = fs::read_to_string(&rt, name.as_str())?;
        let tally = runs::judge(rt.alloc(), text.as_str())?;
        print!(rt; "{}", tally.differences)?;
        println!(rt; "{name}: {} cases", tally.cases)?;
    }
    Ok(())
}
