//! The bytes that the text of a row stands for.
use nc_names::{Bytes, Memory};
use std::alloc::Global;

/// What the next byte of a text belongs to.
#[derive(Clone, Copy)]
enum Place {
    Plain,
    Escape,
    Hex,
    Low(u8),
    Count(u32),
}

/// The bytes so far, and those of a part that is repeated.
#[derive(Drop)]
struct Speller {
    out: Bytes,
    part: Bytes,
    count: u32,
    place: Place,
}

/// The value of a hexadecimal digit.
fn digit(byte: u8) -> u8 {
    match byte {
        b'0'..=b'9' => byte & 15,
        _ => (byte & 7).wrapping_add(9),
    }
}

impl Speller {
    /// Puts a byte at the end of the part that is open, or else of all.
    fn put(&mut self, byte: u8) -> Result<(), Memory> {
        if self.count > 0 {
            self.part.push(byte)
        } else {
            self.out.push(byte)
        }
    }

    /// Puts the part as often as it counts, and closes it.
    fn close(&mut self) -> Result<(), Memory> {
        for _ in 0..self.count {
            self.out.push_slice(self.part.as_slice())?;
        }
        self.part.clear();
        self.count = 0;
        Ok(())
    }

    fn plain(&mut self, byte: u8) -> Result<(), Memory> {
        match byte {
            b'\\' => {
                self.place = Place::Escape;
                Ok(())
            }
            b')' if self.count > 0 => self.close(),
            _ => self.put(byte),
        }
    }

    fn escape(&mut self, byte: u8) -> Result<(), Memory> {
        self.place = match byte {
            b'x' => Place::Hex,
            b'*' => Place::Count(0),
            _ => Place::Plain,
        };
        match byte {
            b'x' | b'*' => Ok(()),
            b'n' => self.put(b'\n'),
            b'r' => self.put(b'\r'),
            b't' => self.put(b'\t'),
            _ => self.put(byte),
        }
    }

    fn counted(&mut self, byte: u8, count: u32) {
        if byte == b'(' {
            self.count = count;
            self.place = Place::Plain;
        } else {
            let more = count.wrapping_mul(10).wrapping_add(u32::from(byte & 15));
            self.place = Place::Count(more);
        }
    }

    fn take(&mut self, byte: u8) -> Result<(), Memory> {
        match self.place {
            Place::Plain => self.plain(byte),
            Place::Escape => self.escape(byte),
            Place::Hex => {
                self.place = Place::Low(digit(byte));
                Ok(())
            }
            Place::Low(high) => {
                self.place = Place::Plain;
                self.put(high.wrapping_mul(16).wrapping_add(digit(byte)))
            }
            Place::Count(count) => {
                self.counted(byte, count);
                Ok(())
            }
        }
    }
}

/// The bytes of a text.
pub(crate) fn spelled(alloc: Global, text: &[u8]) -> Result<Bytes, Memory> {
    let mut speller = Speller {
        out: Bytes::new(alloc),
        part: Bytes::new(alloc),
        count: 0,
        place: Place::Plain,
    };
    for byte in text {
        speller.take(*byte)?;
    }
    Ok(speller.out)
}
