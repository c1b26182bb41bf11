// Words that ask of the program itself.
ghost use Rattle.std.specs.Prelude.{◌≡◌, map, string_bytes};
ghost use Rattle.tetri_about.specs.Itself.{asked_of_itself};

/// What is asked of a program itself.
#[derive(Clone, Copy, Debug, PartialEq, Eq)]
pub enum Itself {
    Help,
    Version,
}

/// What words ask of the program itself: `--help` alone, or `--version` alone.
pub fn asked_of_itself(words: &[String]) -> Option<Itself>
    ensures { result ≡ asked_of_itself (map (λ w. string_bytes w) words.now) }
{
    match words {
        [word] if word.as_str() == "--help" => Some(Itself::Help),
        [word] if word.as_str() == "--version" => Some(Itself::Version),
        _ => None,
    }
}
