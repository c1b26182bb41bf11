// The hosts of a list, as `n[1-3,07-09],m5,rack[1-2]node[1-4]`.
ghost use Rattle.std.specs.Prelude.{◌≡◌};
ghost use Rattle.tetri_hosts.specs.Answers.{Gives};
ghost use Rattle.tetri_hosts.specs.Expanding.{hosts_in};

use crate::expansion::{Expansion, expansion_of};
use std::alloc::{AllocError, Global};
use tetri_cluster::NameList;

/// Why a text is not read as a list of hosts.
#[derive(Clone, Copy, Debug, PartialEq, Eq)]
pub enum HostsFault {
    /// It is none.
    NotHosts,
    /// There are more hosts than are wanted.
    TooMany,
    NoMemory,
}

impl From<AllocError> for HostsFault {
    ghost use Rattle.std.specs.Prelude.{◌≡◌};
    ghost use Rattle.tetri_hosts.specs.declared.hosts.HostsFault.TheVariants as fault;

    ghost from_gives = { λ _ e. e ≡ fault.NoMemory };

    fn from(_: AllocError) -> Self {
        HostsFault::NoMemory
    }
}

/// The hosts of a list, in its order, at most so many. `NotHosts` and `TooMany` come exactly where the list gives them.
pub fn expand(alloc: Global, text: &[u8], most: usize) -> Result<NameList, HostsFault>
    ensures { Gives (λ names. names) result (hosts_in most text.now) }
{
    let Expansion { whole, fault, .. } = expansion_of(alloc, text, most)?;
    match fault {
        Some(fault) => Err(fault),
        None => Ok(whole),
    }
}
