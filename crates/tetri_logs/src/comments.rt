// What the comments of a log say of its cluster.
ghost use Rattle.std.specs.Prelude.{◌≡◌, map};
ghost use Rattle.tetri_logs.specs.Facts.{fact_in, fact_named};

use crate::words::{count_in, is_text};

/// A number that a comment gives.
#[derive(Clone, Copy, Debug, PartialEq, Eq)]
pub enum Fact {
    /// How many nodes the cluster has.
    Nodes(u32),
    /// How many processors the cluster has.
    Processors(u32),
    /// The second since 1970 with which the log's clock begins.
    Start(u32),
}

fn fact_named(key: &[u8], number: u32) -> Option<Fact>
    ensures { result ≡ fact_named key.now number }
{
    if is_text(key, "MaxNodes:") {
        Some(Fact::Nodes(number))
    } else if is_text(key, "MaxProcs:") {
        Some(Fact::Processors(number))
    } else if is_text(key, "UnixStartTime:") {
        Some(Fact::Start(number))
    } else {
        None
    }
}

/// What the words of a comment say, if it is something that is read.
pub(crate) fn fact_in(words: &[&[u8]]) -> Option<Fact>
    ensures { result ≡ fact_in (map (λ w. w.now) words.now) }
{
    if words.len() < 2 {
        return None;
    }
    match count_in(words[1]) {
        Some(number) => fact_named(words[0], number),
        None => None,
    }
}
