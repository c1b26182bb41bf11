// What a line of a log is.
ghost use Rattle.std.specs.Prelude.{◌≡◌, IfOk, Ok, OnOk, map, true};
ghost use Rattle.tetri_cluster.specs.Names.{is_name};
ghost use Rattle.tetri_logs.specs.Entry.{entries_in, header_at, header_entry, layout_at, line_entries, row_entries, row_entry, swf_entry, table_entries, with_name};
ghost use Rattle.tetri_logs.specs.Sacct.{id_name, told_cell};
ghost use Rattle.tetri_logs.specs.SetText.{seated};

use crate::account::Account;
use crate::comments::{Fact, fact_in};
use crate::header::{Header, header_in, is_header};
use crate::job_name::JobName;
use crate::layout::Layout;
use crate::sacct::{cell, pointed_id, row_of, sacct_account, told_cell, without_return};
use crate::seats::Seats;
use crate::set_text::SetText;
use crate::swf::{is_comment, swf_account, swf_partition};
use crate::tasks::task_ids;
use crate::words::{has_byte, word_at, words_of};
use std::alloc::{AllocError, Global};
use tetri_base::Items;
use tetri_cluster::{Name, NameFault};

/// Why a line of a log brings no job, or why a job of it is not taken.
#[derive(Clone, Copy, Debug, PartialEq, Eq)]
pub enum Cause {
    /// It is no line of its format. This column, counted from 1, is the first that is read and is not what it should be.
    Unreadable(usize),
    /// It speaks of a part of a job.
    Step,
    /// The job has no nodes.
    NoNodes,
    /// The job ended before it began, or before it was submitted.
    Backwards,
    /// What the job asks of its nodes is more than features that they have all.
    Constraint,
    /// No node is in the job's set.
    NoSet,
    /// The job asks for more nodes than there are in its set.
    TooLarge,
    /// The job asks for fewer processors than a node has, and jobs with whole nodes alone are wanted.
    PartNode,
    /// The job is outside the part of the log that is asked for.
    Outside,
    /// An earlier job has its name.
    Repeated,
    /// It is beyond what a trace can say.
    Beyond,
}

/// A line that brings no job, or a job that is not taken, by the number of the line, counted from 1. Tasks of one line have one number.
#[derive(Clone, Copy)]
pub struct Reject {
    pub line: usize,
    pub cause: Cause,
}

/// The formats of a log.
#[derive(Clone, Copy, Debug, PartialEq, Eq)]
pub enum Format {
    /// The Standard Workload Format.
    Swf,
    /// What `sacct` prints.
    Sacct,
}

/// A job of a log, with the number of its line. The tasks of an array that wait are jobs of one line.
#[derive(Drop)]
pub struct LoggedJob<'a> {
    pub line: usize,
    pub name: JobName<'a>,
    pub account: Account,
    /// The nodes that it may use.
    pub set: SetText,
}

/// What a line of a log is.
#[derive(Drop)]
pub enum Entry<'a> {
    Job(LoggedJob<'a>),
    Comment(Option<Fact>),
    Left(Reject),
}

/// What a line of a log is: one entry, or the tasks of an array.
#[derive(Drop)]
pub enum Entries<'a> {
    One(Entry<'a>),
    Tasks(Vec<Entry<'a>>),
}

// A job with a name.
#[inline(always)]
fn named<'a>(line: usize, name: JobName<'a>, account: Account) -> Entry<'a>
    requires { is_name name ≡ true }
    ensures { result ≡ with_name line name.entry (Ok account) }
{
    Entry::Job(LoggedJob {
        line,
        name,
        account,
        set: SetText::new(),
    })
}

// A job with this name of the log, if it is one.
#[inline(always)]
fn with_name<'a>(line: usize, name: &'a [u8], account: Result<Account, Cause>) -> Entry<'a>
    ensures { result ≡ with_name line name.now account }
{
    let account = match account {
        Ok(account) => account,
        Err(cause) => return Entry::Left(Reject { line, cause }),
    };
    match JobName::lent(name) {
        Some(name) => named(line, name, account),
        None => Entry::Left(Reject {
            line,
            cause: Cause::Beyond,
        }),
    }
}

// The same with a name that is made.
fn with_made_name<'a>(
    alloc: Global,
    line: usize,
    name: &[u8],
    account: Account,
) -> Result<Entry<'a>, AllocError>
    ensures { IfOk result (λ e. e ≡ with_name line name.now (Ok account)) }
{
    match Name::read(alloc, name) {
        Ok(name) => Ok(Entry::Job(LoggedJob {
            line,
            name: JobName::made(alloc, name)?,
            account,
            set: SetText::new(),
        })),
        Err(NameFault::NotName) => Ok(Entry::Left(Reject {
            line,
            cause: Cause::Beyond,
        })),
        Err(NameFault::NoMemory) => Err(AllocError),
    }
}

// What a line of the Standard Workload Format is.
#[inline(always)]
fn swf_entry<'a>(
    alloc: Global,
    seats: &mut Seats<'a>,
    line: usize,
    words: &mut Vec<&'a [u8]>,
    text: &'a [u8],
) -> Result<Entry<'a>, AllocError>
    ensures entry { IfOk result (λ e. e ≡ swf_entry seats.old line text.now) }
    ensures same { seats.new ≡ seats.old }
{
    words_of(words, text)?;
    let words = words.as_slice();
    if is_comment(text) {
        return Ok(Entry::Comment(fact_in(words)));
    }
    let entry = with_name(line, word_at(words, 0), swf_account(words));
    seats.seated(alloc, entry, swf_partition(words), b"")
}

// What a header is, where it is known whether each column is there that is needed.
fn header_entry<'a>(line: usize, row: &[&[u8]], header: Option<Header>) -> Entry<'a>
    ensures { result ≡ header_entry line (map (λ w. w.now) row.now) header }
{
    match header {
        Some(_) => Entry::Comment(None),
        None => Entry::Left(Reject {
            line,
            cause: Cause::Unreadable(row.len() + 1),
        }),
    }
}

// A job by an identifier that is made.
fn with_made_id<'a>(
    alloc: Global,
    line: usize,
    id: &[u8],
    account: Account,
) -> Result<Entry<'a>, AllocError>
    ensures { IfOk result (λ e. e ≡ with_name line (id_name id.now) (Ok account)) }
{
    if has_byte(id, b'+') {
        let name = pointed_id(alloc, id)?;
        with_made_name(alloc, line, &name, account)
    } else {
        with_made_name(alloc, line, id, account)
    }
}

// An entry with the set of its job that the columns say.
#[inline(always)]
fn seated_row<'a>(
    alloc: Global,
    seats: &mut Seats<'a>,
    header: &Header,
    row: &[&'a [u8]],
    found: Entry<'a>,
) -> Result<Entry<'a>, AllocError>
    ensures entry { IfOk result (λ e. e ≡ seated seats.old found.entry (told_cell (map (λ w. w.now) row.now) header.now.partitions) (told_cell (map (λ w. w.now) row.now) header.now.constraints)) }
    ensures same { seats.new ≡ seats.old }
{
    if !seats.are_mixed() {
        return Ok(found);
    }
    let partitions = told_cell(row, header.partitions);
    let constraints = told_cell(row, header.constraints);
    seats.seated(alloc, found, partitions, constraints)
}

// The job of a line by its identifier in the log, which is a name itself where no plus is in it.
#[inline(always)]
#[tactic(auto, using(crate::proofs::NameLemmas::own_name))]
fn row_entry<'a>(
    alloc: Global,
    seats: &mut Seats<'a>,
    header: &Header,
    line: usize,
    row: &[&'a [u8]],
    account: Account,
    id: &'a [u8],
) -> Result<Entry<'a>, AllocError>
    ensures entry { IfOk result (λ e. e ≡ row_entry seats.old header.now line (map (λ w. w.now) row.now) (Ok account) id.now) }
    ensures same { seats.new ≡ seats.old }
{
    match JobName::lent(id) {
        Some(name) => seated_row(alloc, seats, header, row, named(line, name, account)),
        None => {
            let entry = with_made_id(alloc, line, id, account)?;
            seated_row(alloc, seats, header, row, entry)
        }
    }
}

// The jobs of a line by their identifiers.
fn entries_by<'a>(
    alloc: Global,
    seats: &mut Seats<'a>,
    header: &Header,
    line: usize,
    row: &[&'a [u8]],
    account: Account,
    ids: &[Items<u8>],
) -> Result<Vec<Entry<'a>>, AllocError>
    ensures entries { IfOk result (λ es. es.items ≡ map (row_entry seats.old header.now line (map (λ w. w.now) row.now) (Ok account)) ids.now) }
    ensures same { seats.new ≡ seats.old }
{
    let mut entries = Vec::new(alloc);
    for id in ids {
        let entry = with_made_id(alloc, line, id.as_slice(), account)?;
        let entry = seated_row(alloc, seats, header, row, entry)?;
        entries.push(entry)?;
    }
    Ok(entries)
}

// The jobs of a line.
#[inline(always)]
fn row_entries<'a>(
    alloc: Global,
    seats: &mut Seats<'a>,
    header: &Header,
    line: usize,
    row: &[&'a [u8]],
) -> Result<Entries<'a>, AllocError>
    ensures entries { IfOk result (λ es. entries_in es ≡ row_entries seats.old header.now line (map (λ w. w.now) row.now)) }
    ensures same { seats.new ≡ seats.old }
{
    let account = match sacct_account(&mut seats.last, header, row) {
        Ok(account) => account,
        Err(cause) => return Ok(Entries::One(Entry::Left(Reject { line, cause }))),
    };
    let id = cell(row, header.id);
    match task_ids(alloc, id)? {
        None => {
            let entry = row_entry(alloc, seats, header, line, row, account, id)?;
            Ok(Entries::One(entry))
        }
        Some(ids) => {
            let tasks = entries_by(alloc, seats, header, line, row, account, ids.as_slice())?;
            Ok(Entries::Tasks(tasks))
        }
    }
}

// What the columns of a line are. A header says which columns there are.
#[inline(always)]
fn table_entries<'a>(
    alloc: Global,
    seats: &mut Seats<'a>,
    header: &mut Header,
    line: usize,
    words: &mut Vec<&'a [u8]>,
    text: &'a [u8],
) -> Result<Entries<'a>, AllocError>
    ensures entries { IfOk result (λ es. entries_in es ≡ table_entries seats.old header.old line text.now) }
    ensures header { OnOk result (header.new ≡ header_at header.old text.now) }
    ensures same { seats.new ≡ seats.old }
{
    if without_return(text).is_empty() {
        return Ok(Entries::One(Entry::Comment(None)));
    }
    row_of(words, text)?;
    let row = words.as_slice();
    if is_header(row) {
        let named = header_in(row);
        *header = named.unwrap_or(*header);
        return Ok(Entries::One(header_entry(line, row, named)));
    }
    row_entries(alloc, seats, header, line, row)
}

/// The same as `read_entries`, without a vector for an entry alone. The words of the line take the place of others.
#[inline(always)]
pub(crate) fn line_entries<'a>(
    alloc: Global,
    seats: &mut Seats<'a>,
    layout: &mut Layout,
    line: usize,
    words: &mut Vec<&'a [u8]>,
    text: &'a [u8],
) -> Result<Entries<'a>, AllocError>
    ensures entries { IfOk result (λ es. entries_in es ≡ line_entries seats.old layout.old line text.now) }
    ensures layout { OnOk result (layout.new ≡ layout_at layout.old text.now) }
    ensures same { seats.new ≡ seats.old }
{
    match layout {
        Layout::Words => {
            let entry = swf_entry(alloc, seats, line, words, text)?;
            Ok(Entries::One(entry))
        }
        Layout::Table(header) => table_entries(alloc, seats, header, line, words, text),
    }
}

// The entries of a line one after another.
fn listed<'a>(alloc: Global, found: Entries<'a>) -> Result<Vec<Entry<'a>>, AllocError>
    ensures { IfOk result (λ es. es.items ≡ entries_in found.entry) }
{
    match found {
        Entries::One(entry) => {
            let mut entries = Vec::new(alloc);
            entries.push(entry)?;
            Ok(entries)
        }
        Entries::Tasks(entries) => Ok(entries),
    }
}

/// What a line with this number is, where the lines before it have left this layout, and nodes differ or not: one entry, or as many as the
/// line has tasks of an array, in their order. Its only error is want of memory.
pub fn read_entries<'a>(
    alloc: Global,
    mixed: bool,
    layout: &mut Layout,
    line: usize,
    text: &'a [u8],
) -> Result<Vec<Entry<'a>>, AllocError>
    ensures entries { IfOk result (λ es. es.items ≡ line_entries mixed layout.old line text.now) }
    ensures layout { OnOk result (layout.new ≡ layout_at layout.old text.now) }
{
    let mut seats = Seats::new(alloc, mixed);
    let mut words = Vec::new(alloc);
    let entries = line_entries(alloc, &mut seats, layout, line, &mut words, text)?;
    listed(alloc, entries)
}
