// The columns that sacct prints, by the names in its header.
ghost use Rattle.std.specs.Prelude.{◌≡◌, map};
ghost use Rattle.std.specs.List.{list_any};
ghost use Rattle.tetri_logs.specs.Header.{column, column_count, either, header_in, id_column, is_header, is_id};

use crate::lines::ends_empty;
use crate::words::is_text;

/// Where the columns stand that are used, each by its number, counted from 1.
#[derive(Clone, Copy, PartialEq, Eq)]
pub struct Header {
    /// How many there are.
    pub count: usize,
    pub id: usize,
    pub submit: usize,
    pub start: usize,
    pub end: usize,
    pub nodes: usize,
    pub limit: usize,
    /// Whether the limit is a number of minutes, and not a time as `1-00:00:00`.
    pub in_minutes: bool,
    pub state: usize,
    /// The processors, where they are told.
    pub processors: Option<usize>,
    /// The partitions, where they are told.
    pub partitions: Option<usize>,
    /// The constraints, where they are told.
    pub constraints: Option<usize>,
}

/// The columns of a log without a header: JobIDRaw, Submit, Start, End, NNodes, TimelimitRaw, Partition and State.
pub(crate) const USUAL: Header = Header {
    count: 8,
    id: 1,
    submit: 2,
    start: 3,
    end: 4,
    nodes: 5,
    limit: 6,
    in_minutes: true,
    state: 8,
    processors: None,
    partitions: Some(7),
    constraints: None,
};

// The number of the column with a name, counted from 1.
fn column(name: &str, names: &[&[u8]]) -> Option<usize>
    ensures { result ≡ column name.now (map (λ w. w.now) names.now) }
{
    for (i, other) in names.iter().enumerate() {
        if *other == name.as_bytes() {
            return Some(i + 1);
        }
    }
    None
}

// The first of two numbers that is there.
fn either(one: Option<usize>, other: Option<usize>) -> Option<usize>
    ensures { result ≡ either one other }
{
    match one {
        Some(one) => Some(one),
        None => other,
    }
}

// The column of a job's identifier.
fn id_column(names: &[&[u8]]) -> Option<usize>
    ensures { result ≡ id_column (map (λ w. w.now) names.now) }
{
    either(column("JobID", names), column("JobIDRaw", names))
}

// Whether a name is that of the column of a job's identifier.
#[inline(always)]
fn is_id(name: &[u8]) -> bool
    ensures { result ≡ is_id name.now }
{
    is_text(name, "JobID") || is_text(name, "JobIDRaw")
}

// Whether one of these names is that.
#[inline(always)]
fn has_id(names: &[&[u8]]) -> bool
    ensures { result ≡ list_any (λ name. is_id name.now) names.now }
{
    for name in names {
        if is_id(name) {
            return true;
        }
    }
    false
}

/// Whether these are names of columns.
#[inline(always)]
#[tactic(auto, using(crate::proofs::HeaderLemmas::header_has_id))]
pub(crate) fn is_header(names: &[&[u8]]) -> bool
    ensures { result ≡ is_header (map (λ w. w.now) names.now) }
{
    has_id(names)
}

// A bar at the line's end begins no column.
fn column_count(names: &[&[u8]]) -> usize
    ensures { result ≡ column_count (map (λ w. w.now) names.now) }
{
    if ends_empty(names) {
        names.len() - 1
    } else {
        names.len()
    }
}

/// The columns that a header names, in any order. `None` exactly where one is missing that is needed.
#[tactic(auto, unfolding(crate::specs::Header::header_in))]
pub(crate) fn header_in(names: &[&[u8]]) -> Option<Header>
    ensures { result ≡ header_in (map (λ w. w.now) names.now) }
{
    let id = id_column(names)?;
    let submit = column("Submit", names)?;
    let start = column("Start", names)?;
    let end = column("End", names)?;
    let nodes = column("NNodes", names)?;
    let limit = either(column("TimelimitRaw", names), column("Timelimit", names))?;
    let state = column("State", names)?;
    Some(Header {
        count: column_count(names),
        id,
        submit,
        start,
        end,
        nodes,
        limit,
        in_minutes: column("TimelimitRaw", names).is_some(),
        state,
        processors: either(column("NCPUS", names), column("AllocCPUS", names)),
        partitions: column("Partition", names),
        constraints: column("Constraints", names),
    })
}
