// Files. They tell nothing of what they hold.
ghost use Rattle.std.specs.Prelude.{◌≡◌, ◌+◌, ◌<◌, ◌≤◌, ◌^◌, List, ℕ, Some, length, IfOk, IfSome};
ghost use Rattle.std.specs.Io.{ReadsAtMost};
ghost use Rattle.tetri_io.specs.Causes.{HasCause, count_after};
ghost use Rattle.tetri_io.specs.Shelf.{IsReadAt};

use crate::{Failed, Shelf};
use std::fs;
use std::io::{Read, Seek, SeekFrom};
use std::rt::Files;

/// The files of a runtime. Each read opens the named file, seeks and reads. It tells no content,
/// and each fault counts one, up to 2^64 - 1, as the fault of every name.
#[derive(Drop)]
pub struct FileShelf<'a, R: Files> {
    files: &'a R,
    faults: u64,
}

impl<'a, R: Files> FileShelf<'a, R> {
    ghost use Rattle.tetri_io.specs.FileShelf.{fault_count};

    /// The files of this runtime, with no fault yet.
    pub fn new(files: &'a R) -> FileShelf<'a, R>
        ensures { fault_count result ≡ 0 }
    {
        FileShelf { files, faults: 0 }
    }
}

// Reads bytes of a file from an offset on. Nothing is read at or behind 2^63 - 1.
fn read_file<R: Files>(files: &R, name: &str, offset: u64, buf: &mut [u8]) -> Option<usize>
    requires { offset < 2 ^ 63 }
    ensures count { IfSome result (λ n. n ≤ length buf.new) }
    ensures within { IfSome result (λ n. offset + n < 2 ^ 63) }
{
    let most = buf.len().min((i64::MAX as u64 - offset) as usize);
    let mut file = fs::open(files, name).ok()?;
    file.seek(SeekFrom::Start(offset)).ok()?;
    file.read(&mut buf[..most]).ok()
}

impl<R: Files> Shelf for FileShelf<'_, R> {
    ghost use Rattle.tetri_io.specs.FileShelf.{fault_count, told_content};

    ghost told = { told_content };

    ghost faults = { λ s _. fault_count s };

    fn read_at(&mut self, name: &str, offset: u64, buf: &mut [u8]) -> Result<usize, Failed>
        requires { offset < 2 ^ 63 }

        // What each shelf ensures.
        ensures count { ReadsAtMost result buf.new }
        ensures within { IfOk result (λ n. offset + n < 2 ^ 63) }
        ensures bytes { (content : List ℕ) → told_content self.old name.now ≡ Some content
            → IfOk result (λ n. IsReadAt content offset n buf.new) }
        ensures same { told_content self.new ≡ told_content self.old }
        ensures cause { HasCause (fault_count self.old) (fault_count self.new) result }
        ensures later { (other : List ℕ) → fault_count self.old ≤ fault_count self.new }

        // What this one ensures besides.
        ensures counted { fault_count self.new ≡ count_after (fault_count self.old) result }
    {
        match read_file(self.files, name, offset, buf) {
            Some(count) => Ok(count),
            None => {
                self.faults = self.faults.saturating_add(1);
                Err(Failed)
            }
        }
    }
}
