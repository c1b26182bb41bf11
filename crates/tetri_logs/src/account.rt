// What a log says of a job.
ghost use Rattle.std.specs.Prelude.{◌≡◌};
ghost use Rattle.tetri_logs.specs.Account.{account_of, positive};

/// What a log says of a job. Times are whole seconds of the log's clock.
#[derive(Clone, Copy, Debug, PartialEq, Eq)]
pub struct Account {
    /// When it was submitted.
    pub submit: u32,
    /// How many nodes it asked for, one at least, where the log counts nodes.
    pub nodes: Option<u32>,
    /// How many processors it asked for, one at least, where the log says it.
    pub processors: Option<u32>,
    /// For how long it asked for them: what it ran, where it is not known.
    pub limit: u32,
    /// How long it ran, where it is known.
    pub ran: Option<u32>,
    /// How long it waited until it was cancelled, if it never ran.
    pub waited: Option<u32>,
    /// How many nodes are in its set, where these may not be all.
    pub room: Option<u32>,
}

/// The columns from which an account is made.
#[derive(Clone, Copy)]
pub(crate) struct Columns {
    pub(crate) submit: u32,
    pub(crate) nodes: Option<u32>,
    pub(crate) processors: Option<u32>,
    pub(crate) limit: Option<u32>,
    pub(crate) ran: Option<u32>,
    pub(crate) wait: Option<u32>,
    pub(crate) cancelled: bool,
}

/// A number above 0.
pub(crate) fn positive(number: Option<u32>) -> Option<u32>
    ensures { result ≡ positive number }
{
    match number {
        Some(n) if n > 0 => Some(n),
        _ => None,
    }
}

/// The account of some columns.
pub(crate) fn account_of(columns: Columns) -> Account
    ensures { result ≡ account_of columns }
{
    let Columns {
        submit,
        nodes,
        processors,
        limit,
        ran,
        wait,
        cancelled,
    } = columns;
    let limit = positive(limit).unwrap_or(ran.unwrap_or(0));
    if cancelled && positive(ran).is_none() {
        Account {
            submit,
            nodes,
            processors,
            limit,
            ran: None,
            waited: Some(wait.unwrap_or(0)),
            room: None,
        }
    } else {
        Account {
            submit,
            nodes,
            processors,
            limit,
            ran,
            waited: None,
            room: None,
        }
    }
}
