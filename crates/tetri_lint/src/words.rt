// Causes in words for a person.
use tetri_notice::TraceWhy;
use tetri_parse::Fault;

// What is wrong with the text of an expression or of a set.
fn fault_words(fault: Fault) -> &'static str {
    match fault {
        Fault::Unexpected => "this cannot stand here",
        Fault::Ended => "the text ends too early",
        Fault::Trailing => "something stands behind the whole",
        Fault::NumberRange => "the number is outside its limits",
        Fault::UnknownSet => "no node has this tag or name",
        Fault::Uneven => "the worth, times the unit, is no multiple of the number of nodes",
        Fault::Mixed => "leaves below one min or sum start in different slots",
        Fault::TooDeep => "the expression is more than 64 deep",
        Fault::TooManyLeaves => "the expression has more than 128 leaves",
        Fault::TooRich => "the expression may be worth more than 1000000000000",
        Fault::TooManySets => "the trace names more than 4096 different sets",
    }
}

/// What is wrong.
pub(crate) fn words_of(why: TraceWhy) -> &'static str {
    match why {
        TraceWhy::LineTooLong => "the line has more than 1048576 bytes",
        TraceWhy::TraceTooLong => "the trace has more than 67108864 bytes",
        TraceWhy::NotJson => "the line is no JSON",
        TraceWhy::NotObject => "the line is no object",
        TraceWhy::NoHeader => "there is no header: the first object has no nodes",
        TraceWhy::MissingField(_) => "a key is missing",
        TraceWhy::BadField(_) => "a key holds what it may not hold",
        TraceWhy::UnknownEvent => "an event has exactly one of the keys that name it",
        TraceWhy::OutOfOrder => "the slot is below that of an earlier line",
        TraceWhy::PastEnd => "the slot is not below the number of cycles",
        TraceWhy::NameTaken => "the name is taken",
        TraceWhy::NoSuchJob => "no earlier line brings this job",
        TraceWhy::NoSuchNode => "no node has this name",
        TraceWhy::BadStrl { fault, .. } => fault_words(fault),
        TraceWhy::TooManyJobs => "100000 jobs came before",
    }
}
