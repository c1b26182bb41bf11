// A text that is read by any name.
ghost use Rattle.std.specs.Prelude.{◌≡◌, ◌-◌, length, min};
ghost use Rattle.tetri_io.specs.Shelf.{IsReadAt};

use tetri_io::{Failed, Shelf};

/// A text, which each name holds. No read of it fails.
#[derive(Drop)]
pub(crate) struct TextShelf<'a> {
    pub(crate) text: &'a [u8],
}

// Copies bytes of a text from an offset on to the front of a buffer.
fn copy_from(text: &[u8], offset: u64, buf: &mut [u8]) -> usize
    ensures count { result ≡ min (length buf.old) (length text.now - offset) }
    ensures bytes { IsReadAt text.now offset result buf.new }
{
    let offset = offset as usize;
    if text.len() <= offset {
        return 0;
    }
    let count = buf.len().min(text.len() - offset);
    buf[..count].copy_from_slice(&text[offset..offset + count]);
    count
}

impl Shelf for TextShelf<'_> {
    ghost use Rattle.std.specs.Prelude.{Some};

    ghost told = { λ s _. Some s.text.now };

    ghost faults = { λ _ _. 0 };

    fn read_at(&mut self, _name: &str, offset: u64, buf: &mut [u8]) -> Result<usize, Failed> {
        Ok(copy_from(self.text, offset, buf))
    }
}
