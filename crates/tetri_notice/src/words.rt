// What is said of a cause.
ghost use Rattle.std.specs.Prelude.{◌≡◌, ◌++◌, OnOk, string_bytes};
ghost use Rattle.tetri_notice.specs.Words.{field_words, why_name, why_values, why_words};

use crate::fault::{Field, TraceWhy};
use std::alloc::AllocError;
use std::fmt::Write;

impl Field {
    // The field as its key.
    fn key(self) -> &'static str
        ensures { result.now ≡ field_words self }
    {
        match self {
            Field::Nodes => "nodes",
            Field::Window => "window",
            Field::Budget => "budget",
            Field::Until => "until",
            Field::Unit => "unit",
            Field::Closures => "closures",
            Field::At => "at",
            Field::Arrive => "arrive",
            Field::Cancel => "cancel",
            Field::Drain => "drain",
            Field::Undrain => "undrain",
            Field::Fail => "fail",
            Field::Late => "late",
            Field::Strl => "strl",
            Field::Ask => "ask",
            Field::K => "k",
            Field::Set => "set",
            Field::Dur => "dur",
            Field::Value => "value",
            Field::Deadline => "deadline",
            Field::Prefer => "prefer",
            Field::PreferSet => "prefer.set",
            Field::PreferDur => "prefer.dur",
            Field::Class => "class",
            Field::Elastic => "elastic",
        }
    }
}

impl TraceWhy {
    fn name(self) -> &'static str
        ensures { result.now ≡ why_name self }
    {
        match self {
            TraceWhy::LineTooLong => "line-too-long",
            TraceWhy::TraceTooLong => "trace-too-long",
            TraceWhy::NotJson => "not-json",
            TraceWhy::NotObject => "not-object",
            TraceWhy::NoHeader => "no-header",
            TraceWhy::MissingField(_) => "missing-field",
            TraceWhy::BadField(_) => "bad-field",
            TraceWhy::UnknownEvent => "unknown-event",
            TraceWhy::OutOfOrder => "out-of-order",
            TraceWhy::PastEnd => "past-end",
            TraceWhy::NameTaken => "name-taken",
            TraceWhy::NoSuchJob => "no-such-job",
            TraceWhy::NoSuchNode => "no-such-node",
            TraceWhy::BadStrl { .. } => "bad-strl",
            TraceWhy::TooManyJobs => "too-many-jobs",
        }
    }

    // Adds the values, each after a space.
    fn add_values(self, out: &mut String) -> Result<(), AllocError>
        ensures { OnOk result (string_bytes out.new ≡ string_bytes out.old ++ why_values self) }
    {
        match self {
            TraceWhy::MissingField(field) | TraceWhy::BadField(field) => {
                write!(out, " {}", field.key())
            }
            TraceWhy::BadStrl { offset, fault } => write!(out, " {offset} {}", fault.words()),
            _ => Ok(()),
        }
    }

    /// Adds the cause in words, with its values. Its only error is want of memory.
    #[tactic(auto, unfolding(crate::specs::Words::why_words))]
    pub fn print_onto(self, out: &mut String) -> Result<(), AllocError>
        ensures { OnOk result (string_bytes out.new ≡ string_bytes out.old ++ why_words self) }
    {
        out.push_str(self.name())?;
        self.add_values(out)
    }
}
