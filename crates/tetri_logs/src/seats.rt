// The sets that lines ask for, of which the first are known, and the day of the last moment in a line.
ghost use Rattle.std.specs.Prelude.{◌≡◌, IfOk, IfSome};
ghost use Rattle.tetri_logs.specs.SetText.{seat_of, seated};

use crate::entry::{Entry, LoggedJob, Reject};
use crate::set_text::{Seat, seat_of};
use crate::times::{Day, no_day};
use crate::words::is_same;
use std::alloc::{AllocError, Global};
use std::marker::Model;

// The set that partitions and constraints ask for.
#[derive(Drop)]
struct Known<'a> {
    partitions: &'a [u8],
    constraints: &'a [u8],
    seat: Seat,
}

// As many sets as are looked through.
const MOST_KNOWN: usize = 16;

/// Whether nodes differ. Then the sets that lines ask for first are known to those behind them. The day of a line's last moment is too.
#[derive(Drop)]
pub(crate) struct Seats<'a> {
    mixed: bool,
    known: Vec<Known<'a>>,
    pub(crate) last: Day<'a>,
}

impl<'a> Model for Seats<'a> {
    ghost use Rattle.std.specs.Prelude.{Bool};
    ghost use Rattle.tetri_logs.specs.Seats.{AreKnown};
    ghost use Rattle.tetri_logs.specs.Times.{IsDay};

    ghost Value = { Bool };

    ghost view = { λ s. s.mixed };

    ghost invariant = { λ s. AreKnown s.known.items × IsDay s.last };
}

fn share_seat(seat: &Seat) -> Result<Seat, AllocError>
    ensures { IfOk result (λ shared. shared ≡ seat.now) }
{
    match seat {
        Ok(set) => {
            let set = set.share()?;
            Ok(Ok(set))
        }
        Err(cause) => Ok(Err(*cause)),
    }
}

impl Known<'_> {
    ghost use Rattle.tetri_logs.specs.Seats.{AreKnown};

    // What is known of these partitions and constraints.
    fn find<'k>(known: &'k [Known<'_>], partitions: &[u8], constraints: &[u8]) -> Option<&'k Seat>
        requires { AreKnown known.now }
        ensures { IfSome result (λ seat. seat.now ≡ seat_of partitions.now constraints.now) }
    {
        for one in known {
            if is_same(one.partitions, partitions) && is_same(one.constraints, constraints) {
                return Some(&one.seat);
            }
        }
        None
    }
}

impl<'a> Seats<'a> {
    /// No set is known.
    pub(crate) fn new(alloc: Global, mixed: bool) -> Seats<'a>
        ensures { result ≡ mixed }
    {
        Seats {
            mixed,
            known: Vec::new(alloc),
            last: no_day(),
        }
    }

    // The set that partitions and constraints say.
    fn seat(
        &mut self,
        alloc: Global,
        partitions: &'a [u8],
        constraints: &'a [u8],
    ) -> Result<Seat, AllocError>
        ensures seat { IfOk result (λ seat. seat ≡ seat_of partitions.now constraints.now) }
        ensures same { self.new ≡ self.old }
    {
        if let Some(seat) = Known::find(&self.known, partitions, constraints) {
            return share_seat(seat);
        }
        let seat = seat_of(alloc, partitions, constraints)?;
        if self.known.len() < MOST_KNOWN {
            let shared = share_seat(&seat)?;
            self.known.push(Known {
                partitions,
                constraints,
                seat: shared,
            })?;
        }
        Ok(seat)
    }

    /// Whether nodes differ.
    pub(crate) fn are_mixed(&self) -> bool
        ensures { result ≡ self.now }
    {
        self.mixed
    }

    /// An entry with the set of its job, where nodes differ. Its only error is want of memory.
    #[inline(always)]
    pub(crate) fn seated(
        &mut self,
        alloc: Global,
        found: Entry<'a>,
        partitions: &'a [u8],
        constraints: &'a [u8],
    ) -> Result<Entry<'a>, AllocError>
        ensures entry { IfOk result (λ e. e ≡ seated self.old found.entry partitions.now constraints.now) }
        ensures same { self.new ≡ self.old }
    {
        if !self.mixed {
            return Ok(found);
        }
        let job = match found {
            Entry::Job(job) => job,
            other => return Ok(other),
        };
        match self.seat(alloc, partitions, constraints)? {
            Ok(set) => Ok(Entry::Job(LoggedJob { set, ..job })),
            Err(cause) => Ok(Entry::Left(Reject {
                line: job.line,
                cause,
            })),
        }
    }
}
