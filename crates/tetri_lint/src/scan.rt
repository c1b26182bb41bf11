// The keys of a line, each with its place.
use crate::keys::{Place, child_of, known_index};
use std::alloc::{AllocError, Global};

/// A key of an object, with the offsets in its line of its name and its value.
#[derive(Clone, Copy, Debug, PartialEq, Eq)]
pub(crate) struct Key {
    pub(crate) place: Place,
    pub(crate) from: usize,
    pub(crate) to: usize,
    pub(crate) value: usize,
    pub(crate) end: usize,
    pub(crate) is_known: bool,
    pub(crate) is_repeated: bool,
}

// What comes next in an object or a list.
#[derive(Clone, Copy, Debug, PartialEq, Eq)]
enum Awaits {
    Key,
    Value,
    Nothing,
}

// An object or a list that is not closed, and which known keys it had.
#[derive(Clone, Copy, Debug, PartialEq, Eq)]
struct Frame {
    place: Place,
    is_object: bool,
    awaits: Awaits,
    open: Option<usize>,
    seen: [bool; 16],
}

// Whether the next byte stands in a text.
#[derive(Clone, Copy, Debug, PartialEq, Eq)]
enum Text {
    Out,
    In,
    Escaped,
}

#[derive(Drop)]
struct Scanner<'l> {
    line: &'l [u8],
    top: Place,
    frames: Vec<Frame>,
    keys: Vec<Key>,
    text: Text,
    from: usize,
}

/// The bytes from one offset to another.
pub(crate) fn piece(line: &[u8], from: usize, to: usize) -> &[u8] {
    line.get(from..to).unwrap_or(&[])
}

impl<'l> Scanner<'l> {
    // A value begins here, where one is awaited.
    fn value_begins(&mut self, at: usize) -> Result<(), AllocError> {
        let Some(mut frame) = self.frames.pop() else {
            return Ok(());
        };
        if frame.awaits == Awaits::Value {
            frame.awaits = Awaits::Nothing;
            if let Some(open) = frame.open {
                self.value_at(open, at);
            }
        }
        self.frames.push(frame)?;
        Ok(())
    }

    fn value_at(&mut self, open: usize, at: usize) {
        if open < self.keys.len() {
            let mut key = self.keys[open];
            key.value = at;
            self.keys[open] = key;
        }
    }

    fn ends_at(&mut self, open: usize, at: usize) {
        if open < self.keys.len() {
            let mut key = self.keys[open];
            key.end = at;
            self.keys[open] = key;
        }
    }

    // The place of an object or a list that begins here.
    fn place(&self) -> Place {
        let Some(frame) = self.frames.last() else {
            return self.top;
        };
        match frame.open {
            Some(open) if open < self.keys.len() => {
                let key = self.keys[open];
                child_of(frame.place, piece(self.line, key.from, key.to))
            }
            _ if frame.is_object => Place::Other,
            _ => frame.place,
        }
    }

    fn begins(&mut self, at: usize, is_object: bool) -> Result<(), AllocError> {
        let place = self.place();
        self.value_begins(at)?;
        self.frames.push(Frame {
            place,
            is_object,
            awaits: if is_object {
                Awaits::Key
            } else {
                Awaits::Nothing
            },
            open: None,
            seen: [false; 16],
        })?;
        Ok(())
    }

    // Behind a value of an object or a list.
    fn goes_on(&mut self, at: usize) -> Result<(), AllocError> {
        let Some(mut frame) = self.frames.pop() else {
            return Ok(());
        };
        if let Some(open) = frame.open {
            self.ends_at(open, at);
        }
        frame.open = None;
        frame.awaits = if frame.is_object {
            Awaits::Key
        } else {
            Awaits::Nothing
        };
        self.frames.push(frame)?;
        Ok(())
    }

    fn ends(&mut self, at: usize) {
        if let Some(frame) = self.frames.pop()
            && let Some(open) = frame.open
        {
            self.ends_at(open, at);
        }
    }

    fn colon(&mut self) -> Result<(), AllocError> {
        let Some(mut frame) = self.frames.pop() else {
            return Ok(());
        };
        if frame.open.is_some() {
            frame.awaits = Awaits::Value;
        }
        self.frames.push(frame)?;
        Ok(())
    }

    // A text ends here: it may be a key.
    fn text_ends(&mut self, at: usize) -> Result<(), AllocError> {
        let Some(mut frame) = self.frames.pop() else {
            return Ok(());
        };
        if frame.awaits == Awaits::Key {
            let from = self.from.saturating_add(1);
            let mut is_repeated = false;
            let known = known_index(frame.place, piece(self.line, from, at));
            if let Some(index) = known
                && index < 16
            {
                let mut seen = frame.seen;
                is_repeated = seen[index];
                seen[index] = true;
                frame.seen = seen;
            }
            frame.awaits = Awaits::Nothing;
            frame.open = Some(self.keys.len());
            self.keys.push(Key {
                place: frame.place,
                from,
                to: at,
                value: at,
                end: at,
                is_known: known.is_some(),
                is_repeated,
            })?;
        }
        self.frames.push(frame)?;
        Ok(())
    }

    fn mark(&mut self, at: usize, byte: u8) -> Result<(), AllocError> {
        match byte {
            b'"' => {
                self.from = at;
                self.text = Text::In;
                self.value_begins(at)
            }
            b'{' => self.begins(at, true),
            b'[' => self.begins(at, false),
            b'}' | b']' => {
                self.ends(at);
                Ok(())
            }
            b',' => self.goes_on(at),
            b':' => self.colon(),
            b' ' | b'\t' | b'\r' | b'\n' => Ok(()),
            _ => self.value_begins(at),
        }
    }

    fn step(&mut self, at: usize, byte: u8) -> Result<(), AllocError> {
        match self.text {
            Text::Escaped => {
                self.text = Text::In;
                Ok(())
            }
            Text::In => {
                if byte == b'\\' {
                    self.text = Text::Escaped;
                    return Ok(());
                }
                if byte == b'"' {
                    self.text = Text::Out;
                    return self.text_ends(at);
                }
                Ok(())
            }
            Text::Out => self.mark(at, byte),
        }
    }
}

/// The keys of a line of JSON, whose value stands in this place, in the order of the text.
pub(crate) fn keys_of(alloc: Global, line: &[u8], top: Place) -> Result<Vec<Key>, AllocError> {
    let mut scanner = Scanner {
        line,
        top,
        frames: Vec::new(alloc),
        keys: Vec::new(alloc),
        text: Text::Out,
        from: 0,
    };
    for (at, byte) in line.iter().enumerate() {
        scanner.step(at, *byte)?;
    }
    Ok(scanner.keys)
}

/// The last key of this name in a place.
pub(crate) fn last_key(line: &[u8], keys: &[Key], place: Place, name: &str) -> Option<Key> {
    let mut last = None;
    for key in keys {
        if key.place == place && piece(line, key.from, key.to) == name.as_bytes() {
            last = Some(*key);
        }
    }
    last
}
