// The name of a job of a log.
ghost use Rattle.std.specs.Prelude.{◌≡◌, MatchOption, IfOk, false, true};
ghost use Rattle.tetri_cluster.specs.Names.{is_name};

use std::alloc::{AllocError, Global};
use std::marker::Model;
use tetri_cluster::{Name, NameFault, is_name};

// The bytes of a name: borrowed, or in memory of its own.
#[derive(Drop)]
enum NameBytes<'a> {
    Lent(&'a [u8]),
    Made(Box<Name>),
}

/// The name of a job. It takes no memory where its bytes are borrowed.
#[derive(Drop)]
pub struct JobName<'a> {
    bytes: NameBytes<'a>,
}

impl<'a> Model for JobName<'a> {
    ghost use Rattle.std.specs.Prelude.{List, ℕ};
    ghost use Rattle.tetri_logs.specs.JobName.{IsLentName, name_bytes};

    ghost Value = { List ℕ };

    ghost view = { λ n. name_bytes n.bytes };

    ghost invariant = { λ n. IsLentName n.bytes };
}

impl<'a> JobName<'a> {
    /// The name with these bytes, which it borrows. `None` exactly where they are no name.
    pub fn lent(bytes: &'a [u8]) -> Option<JobName<'a>>
        ensures { MatchOption result (is_name bytes.now ≡ false) (λ n. (n ≡ bytes.now) × (is_name bytes.now ≡ true)) }
    {
        if !is_name(bytes) {
            return None;
        }
        Some(JobName {
            bytes: NameBytes::Lent(bytes),
        })
    }

    /// The same name. Its only error is want of memory.
    pub(crate) fn made(alloc: Global, name: Name) -> Result<JobName<'a>, AllocError>
        ensures { IfOk result (λ n. n ≡ name) }
    {
        let name = Box::new(alloc, name)?;
        Ok(JobName {
            bytes: NameBytes::Made(name),
        })
    }

    /// Its bytes.
    pub fn bytes(&self) -> &[u8]
        ensures value { result.now ≡ self.now }
        ensures name { is_name self.now ≡ true }
    {
        match &self.bytes {
            NameBytes::Lent(bytes) => bytes,
            NameBytes::Made(name) => name.bytes(),
        }
    }

    /// The name in memory of its own. Its only error is want of memory.
    pub fn owned(&self, alloc: Global) -> Result<Name, AllocError>
        ensures { IfOk result (λ n. n ≡ self.now) }
    {
        match Name::read(alloc, self.bytes()) {
            Ok(name) => Ok(name),
            Err(NameFault::NotName) => unreachable!(),
            Err(NameFault::NoMemory) => Err(AllocError),
        }
    }
}
