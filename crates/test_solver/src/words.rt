// Words of two bytes, the lower byte first, read and written without the board's own code.

ghost use Rattle.std.specs.Prelude.{◌<◌};

// No table here is longer, in bytes.
pub const SPACE: usize = 98;

const WORDS: usize = SPACE / 2;

#[derive(Clone, Copy, PartialEq, Eq)]
pub struct Words {
    pub bytes: [u8; SPACE],
}

impl Words {
    // Gives words of which every byte is this one.
    pub fn all(byte: u8) -> Words {
        Words {
            bytes: [byte; SPACE],
        }
    }

    // Gives word i; 0 where there is none.
    pub fn word(&self, i: usize) -> usize
        ensures { result < 65536 }
    {
        if i < WORDS {
            usize::from(self.bytes[2 * i]) + 256 * usize::from(self.bytes[2 * i + 1])
        } else {
            0
        }
    }

    // Writes word i, if there is one.
    pub fn put(&mut self, i: usize, word: usize) {
        if i < WORDS {
            self.bytes[2 * i] = (word % 256) as u8;
            self.bytes[2 * i + 1] = (word / 256 % 256) as u8;
        }
    }
}
