// What a line of the queue says.
ghost use Rattle.std.specs.Prelude.{◌≡◌, length};
ghost use Rattle.tetri_queue.specs.Arrays.{number_in};
ghost use Rattle.tetri_queue.specs.Orders.{is_id, is_id_byte};

use crate::cause::Cause;
use crate::span::{is_nothing, is_text, seconds_of};
use std::alloc::{AllocError, Global};
use tetri_cluster::{Name, NameFault};
use tetri_io::digits_below;
use tetri_logs::seconds_in;

/// How many columns a line has: `%i %T %P %D %l %L %V %N %Q %f %r %E %h %n %x %v` of squeue.
pub(crate) const COLUMNS: usize = 16;

/// A job that waits for an order, as its line says. What it asks of its nodes is still text.
#[derive(Drop)]
pub(crate) struct Waiting<'a> {
    pub(crate) name: Name,
    pub(crate) width: u32,
    /// The seconds that it may run.
    pub(crate) limit: u64,
    pub(crate) submitted: Option<u32>,
    pub(crate) priority: u32,
    pub(crate) kind: Kind<'a>,
}

/// What a job asks of its nodes: the first of its partitions, an expression over features, hosts that it names, hosts that it bars.
#[derive(Clone, Copy)]
pub(crate) struct Kind<'a> {
    pub(crate) partition: &'a [u8],
    pub(crate) features: &'a [u8],
    pub(crate) wanted: &'a [u8],
    pub(crate) barred: &'a [u8],
}

/// What a line of the queue says.
#[derive(Drop)]
pub(crate) enum Said<'a> {
    /// A job waits for an order.
    Asks(Waiting<'a>),
    /// These hosts are closed for so many seconds: a job runs there, or waits for them.
    Holds(&'a [u8], u64, bool),
    Left(Cause),
}

// Whether a job in this state has ended.
fn is_over(state: &[u8]) -> bool {
    is_text(state, "COMPLETED")
        || is_text(state, "CANCELLED")
        || is_text(state, "FAILED")
        || is_text(state, "TIMEOUT")
        || is_text(state, "NODE_FAIL")
        || is_text(state, "PREEMPTED")
        || is_text(state, "BOOT_FAIL")
        || is_text(state, "DEADLINE")
        || is_text(state, "OUT_OF_MEMORY")
        || is_text(state, "REVOKED")
}

/// What stands before the first byte of this kind, or all.
pub(crate) fn before(mark: u8, text: &[u8]) -> &[u8] {
    match text.iter().position(|b| *b == mark) {
        Some(place) if place <= text.len() => &text[..place],
        _ => text,
    }
}

// The bytes of an identifier of a task: of a pending array `6_[0-3%2]` its next task, `6_0`.
fn task_of(alloc: Global, id: &[u8]) -> Result<Vec<u8>, AllocError> {
    let mut bytes = Vec::new(alloc);
    let mut inside = false;
    for b in id {
        if *b == b'[' {
            inside = true;
        } else if inside && !b.is_ascii_digit() {
            return Ok(bytes);
        } else {
            bytes.push(*b)?;
        }
    }
    Ok(bytes)
}

/// A number of 32 bits, or none.
pub(crate) fn number_in(text: &[u8]) -> Option<u32>
    ensures { result ≡ number_in text.now }
{
    match digits_below(4_294_967_296, text) {
        Some(number) => Some(number as u32),
        None => None,
    }
}

// Why a held job is not one for an order, if it is not.
fn kept_out(columns: &[&[u8]], whole: bool) -> Option<Cause>
    requires { length columns.now ≡ 16 }
{
    if columns[0].contains(&b'+') {
        Some(Cause::Component)
    } else if !is_nothing(columns[11]) {
        Some(Cause::Dependent)
    } else if !is_nothing(columns[15]) {
        Some(Cause::Reservation)
    } else if !whole && !is_text(columns[12], "NO") {
        Some(Cause::Shared)
    } else {
        None
    }
}

// A held job with this name.
fn waiting_job<'a>(alloc: Global, name: Name, columns: &[&'a [u8]]) -> Result<Said<'a>, AllocError>
    requires { length columns.now ≡ 16 }
{
    let Some(limit) = seconds_of(alloc, columns[4])? else {
        return Ok(Said::Left(Cause::Unreadable));
    };
    let (Some(width), Some(priority)) = (number_in(columns[3]), number_in(columns[8])) else {
        return Ok(Said::Left(Cause::Unreadable));
    };
    if width == 0 {
        return Ok(Said::Left(Cause::Unreadable));
    }
    Ok(Said::Asks(Waiting {
        name,
        width,
        limit,
        submitted: seconds_in(columns[6]),
        priority,
        kind: Kind {
            partition: before(b',', columns[2]),
            features: columns[9],
            wanted: columns[13],
            barred: columns[14],
        },
    }))
}

// A job that its user holds.
fn held<'a>(alloc: Global, columns: &[&'a [u8]], whole: bool) -> Result<Said<'a>, AllocError>
    requires { length columns.now ≡ 16 }
{
    if let Some(cause) = kept_out(columns, whole) {
        return Ok(Said::Left(cause));
    }
    let id = task_of(alloc, columns[0])?;
    match Name::read(alloc, &id) {
        Ok(name) if is_id(&id) => waiting_job(alloc, name, columns),
        Ok(_) | Err(NameFault::NotName) => Ok(Said::Left(Cause::Unreadable)),
        Err(NameFault::NoMemory) => Err(AllocError),
    }
}

/// Whether these bytes can be the manager's identifier of a job or a task, as `12` or `12_3`.
pub(crate) fn is_id(bytes: &[u8]) -> bool
    ensures { result ≡ is_id bytes.now }
{
    bytes.iter().all(|b| is_id_byte(*b))
}

// A digit or _.
fn is_id_byte(b: u8) -> bool
    ensures { result ≡ is_id_byte b }
{
    (b'0' <= b && b <= b'9') || b == b'_'
}

// A job that waits and is not held by its user.
fn not_held<'a>(alloc: Global, columns: &[&'a [u8]]) -> Result<Said<'a>, AllocError>
    requires { length columns.now ≡ 16 }
{
    let reason = columns[10];
    if is_text(reason, "JobHeldAdmin") {
        return Ok(Said::Left(Cause::HeldOtherwise));
    }
    if is_text(reason, "Dependency") {
        return Ok(Said::Left(Cause::Dependent));
    }
    if is_nothing(columns[13]) {
        return Ok(Said::Left(Cause::NotHeld));
    }
    match seconds_of(alloc, columns[4])? {
        Some(limit) => Ok(Said::Holds(columns[13], limit, false)),
        None => Ok(Said::Left(Cause::Unreadable)),
    }
}

// A job that has nodes.
fn running<'a>(alloc: Global, columns: &[&'a [u8]]) -> Result<Said<'a>, AllocError>
    requires { length columns.now ≡ 16 }
{
    if is_text(columns[1], "COMPLETING") {
        return Ok(Said::Holds(columns[7], 0, true));
    }
    match seconds_of(alloc, columns[5])? {
        Some(left) => Ok(Said::Holds(columns[7], left, true)),
        None => Ok(Said::Left(Cause::Unreadable)),
    }
}

/// What the columns of a line say. Its only error is want of memory.
pub(crate) fn said_of<'a>(
    alloc: Global,
    columns: &[&'a [u8]],
    whole: bool,
) -> Result<Said<'a>, AllocError> {
    if columns.len() != COLUMNS {
        return Ok(Said::Left(Cause::Unreadable));
    }
    if is_text(columns[1], "PENDING") {
        if is_text(columns[10], "JobHeldUser") {
            return held(alloc, columns, whole);
        }
        return not_held(alloc, columns);
    }
    if is_over(columns[1]) || is_nothing(columns[7]) {
        return Ok(Said::Left(Cause::Finished));
    }
    running(alloc, columns)
}
