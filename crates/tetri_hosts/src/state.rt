// What a node's state means for jobs.
ghost use Rattle.std.specs.Prelude.{◌≡◌, bytes_eq};
ghost use Rattle.tetri_hosts.specs.States.{is_soft_mark, state_of, stricter, word_state};

/// What a node's state means for jobs.
#[derive(Clone, Copy, Debug, PartialEq, Eq)]
pub enum NodeState {
    /// It can begin a job at once.
    Free,
    /// It serves, or is kept for something, for now.
    Taken,
    /// It takes no jobs: it is down, drained, failing or partly used, does not answer, or is in a state that is not known here.
    Shut,
}

// Whether a word is this text.
fn is_text(word: &[u8], text: &str) -> bool
    ensures { result ≡ bytes_eq word.now text.now }
{
    word == text.as_bytes()
}

// What the word of a state means.
fn word_state(word: &[u8]) -> NodeState
    ensures { result ≡ word_state word.now }
{
    if is_text(word, "idle") {
        NodeState::Free
    } else if is_text(word, "allocated")
        || is_text(word, "completing")
        || is_text(word, "planned")
        || is_text(word, "reserved")
        || is_text(word, "maint")
    {
        NodeState::Taken
    } else {
        NodeState::Shut
    }
}

// Whether a mark behind a state says nothing that keeps a job away: powered down, powering up, completing too.
fn is_soft_mark(mark: u8) -> bool
    ensures { result ≡ is_soft_mark mark }
{
    mark == b'~' || mark == b'#' || mark == b'+'
}

/// What a state means, with at most one mark behind it.
pub(crate) fn state_of(text: &[u8]) -> NodeState
    ensures { result ≡ state_of text.now }
{
    match text.split_last() {
        Some((mark, word)) if is_soft_mark(*mark) => word_state(word),
        _ => word_state(text),
    }
}

/// The one of two states that keeps more jobs away.
pub(crate) fn stricter(one: NodeState, other: NodeState) -> NodeState
    ensures { result ≡ stricter one other }
{
    match (one, other) {
        (NodeState::Free, _) => other,
        (NodeState::Taken, NodeState::Shut) => NodeState::Shut,
        (NodeState::Taken, _) => NodeState::Taken,
        (NodeState::Shut, _) => NodeState::Shut,
    }
}
