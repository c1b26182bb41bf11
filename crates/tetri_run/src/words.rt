// The words of the command line.
ghost use Rattle.std.specs.Prelude.{◌≡◌, ◌<◌, ◌^◌, IfSome, option_map};
ghost use Rattle.tetri_io.specs.Numbers.{digits_below};
ghost use Rattle.tetri_run.specs.Words.{IsSmall, asked, asked_of, texts};

use tetri_io::digits_below;

/// What the words ask for, by names or by a number below 2^31.
#[derive(Clone, Copy, Debug)]
pub(crate) enum Request<'a> {
    Plan { trace: &'a str },
    Check { trace: &'a str, report: &'a str },
    Load { number: u32 },
    Parts { trace: &'a str },
    Tight { trace: &'a str },
    Admit { trace: &'a str },
}

// The number of a generated trace: 1 to 10 digits, with a value below 2^31.
fn load_number(word: &str) -> Option<u32>
    ensures value { result ≡ digits_below (2 ^ 31) word.now }
    ensures below { IfSome result (λ n. n < 2 ^ 31) }
{
    match digits_below(1 << 31, word.as_bytes()) {
        Some(number) => Some(number as u32),
        None => None,
    }
}

/// What is asked for: `plan`, `parts`, `tight` or `admit` and one more word, `check` and two more,
/// or `load` and a number.
pub(crate) fn asked(words: &[String]) -> Option<Request<'_>>
    ensures asked { option_map asked_of result ≡ asked (texts words.now) }
    ensures small { IfSome result IsSmall }
{
    match words {
        [verb, trace] if verb.as_str() == "plan" => Some(Request::Plan {
            trace: trace.as_str(),
        }),
        [verb, trace, report] if verb.as_str() == "check" => Some(Request::Check {
            trace: trace.as_str(),
            report: report.as_str(),
        }),
        [verb, number] if verb.as_str() == "load" => match load_number(number.as_str()) {
            Some(number) => Some(Request::Load { number }),
            None => None,
        },
        [verb, trace] if verb.as_str() == "parts" => Some(Request::Parts {
            trace: trace.as_str(),
        }),
        [verb, trace] if verb.as_str() == "tight" => Some(Request::Tight {
            trace: trace.as_str(),
        }),
        [verb, trace] if verb.as_str() == "admit" => Some(Request::Admit {
            trace: trace.as_str(),
        }),
        _ => None,
    }
}
