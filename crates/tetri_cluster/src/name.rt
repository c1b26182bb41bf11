// A name of a node, a tag or a job.
ghost use Rattle.std.specs.Prelude.{◌≡◌, true, false, IfOk, IsErrOf};
ghost use Rattle.std.specs.List.{list_all};
ghost use Rattle.tetri_cluster.specs.Names.{is_name, is_name_byte};

use std::alloc::{AllocError, Global};
use std::marker::Model;
use thiserror::Error;

/// 1 to 64 letters, digits and `_ - . : /`.
#[derive(Drop)]
pub struct Name {
    text: String,
}

impl Model for Name {
    ghost use Rattle.std.specs.Prelude.{List, ℕ, ◌≡◌, true, string_bytes};
    ghost use Rattle.tetri_cluster.specs.Names.{is_name};

    ghost Value = { List ℕ };

    ghost view = { λ n. string_bytes n.text };

    ghost invariant = { λ n. is_name (string_bytes n.text) ≡ true };
}

/// Why bytes are not read as a name.
#[derive(Clone, Copy, Debug, PartialEq, Eq, Error)]
pub enum NameFault {
    /// The bytes are no name.
    #[error("no name of 1 to 64 letters, digits and _-.:/")]
    NotName,
    /// There is no memory for the name.
    #[error("out of memory")]
    NoMemory,
}

impl From<AllocError> for NameFault {
    ghost use Rattle.std.specs.Prelude.{◌≡◌};
    ghost use Rattle.tetri_cluster.specs.declared.name.NameFault.TheVariants as fault;

    ghost from_gives = { λ _ e. e ≡ fault.NoMemory };

    fn from(_: AllocError) -> Self {
        NameFault::NoMemory
    }
}

fn is_name_byte(b: u8) -> bool
    ensures { result ≡ is_name_byte b }
{
    (b'a' <= b && b <= b'z') || (b'A' <= b && b <= b'Z') || (b'-' <= b && b <= b':') || b == b'_'
}

fn has_name_bytes(bytes: &[u8]) -> bool
    ensures { result ≡ list_all is_name_byte bytes.now }
{
    bytes.iter().all(|b| is_name_byte(*b))
}

/// Whether bytes are a name.
pub fn is_name(bytes: &[u8]) -> bool
    ensures { result ≡ is_name bytes.now }
{
    1 <= bytes.len() && bytes.len() <= 64 && has_name_bytes(bytes)
}

impl Name {
    /// The name with these bytes. `NotName` exactly where they are no name.
    pub fn read(alloc: Global, bytes: &[u8]) -> Result<Name, NameFault>
        ensures value { IfOk result (λ n. n ≡ bytes.now) }
        ensures name { IfOk result (λ _. is_name bytes.now ≡ true) }
        ensures not_name { IsErrOf result NameFault.NotName → is_name bytes.now ≡ false }
    {
        let Ok(text) = str::from_utf8(bytes) else {
            return Err(NameFault::NotName);
        };
        if !is_name(bytes) {
            return Err(NameFault::NotName);
        }
        let text = String::from_str(alloc, text)?;
        Ok(Name { text })
    }

    /// The bytes from which the name was read.
    pub fn bytes(&self) -> &[u8]
        ensures value { result.now ≡ self.now }
        ensures name { is_name self.now ≡ true }
    {
        self.text.as_bytes()
    }

    /// The name as text.
    pub fn text(&self) -> &str
        ensures value { result.now ≡ self.now }
        ensures name { is_name self.now ≡ true }
    {
        self.text.as_str()
    }
}
