// What is kept of the present line.
ghost use Rattle.std.specs.Prelude.{◌≤◌, length};

use crate::Reader;

// The line's first bytes: of a longer line they stand for all of it.
#[derive(Clone, Copy)]
pub struct Line {
    bytes: [u8; Reader::KEPT_MOST],
    held: usize,
    pub ghost within: { held ≤ length bytes },
}

impl Line {
    ghost use Rattle.std.specs.Prelude.{◌≡◌, ◌==◌, take};
    ghost use Rattle.counter_feed.specs.Feeding.{kept_most, Appended};

    // Begins a line.
    pub fn new() -> Line
        ensures long { length result.bytes ≡ kept_most }
        ensures held { result.held ≡ 0 }
    {
        Line {
            bytes: [0; Reader::KEPT_MOST],
            held: 0,
        }
    }

    // Tells whether the line has no byte yet.
    pub fn is_empty(&self) -> bool
        ensures { result ≡ (self.now.held == 0) }
    {
        self.held == 0
    }

    // Gives the bytes that are kept.
    pub fn as_slice(&self) -> &[u8]
        ensures { result.now ≡ take self.now.held self.now.bytes }
    {
        &self.bytes[..self.held]
    }

    // Appends a byte; of a line too long to be readable no more is kept.
    pub fn append(&mut self, byte: u8)
        ensures { Appended self.old self.new byte }
    {
        if self.held < Reader::KEPT_MOST {
            self.bytes[self.held] = byte;
            self.held += 1;
        }
    }

    // Begins the next line.
    pub fn clear(&mut self)
        ensures bytes { self.new.bytes ≡ self.old.bytes }
        ensures held { self.new.held ≡ 0 }
    {
        self.held = 0;
    }
}
