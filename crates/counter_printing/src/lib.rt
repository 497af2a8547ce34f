// The counter program's lines, written into a lent buffer.
#![tactic(auto)]

ghost use Rattle.std.specs.Prelude.{◌≤◌, length};

use board_answers::Values;

// A lent buffer, and how many of its first bytes are written. The others are scratch.
#[derive(Drop)]
pub struct Output<'a> {
    bytes: &'a mut [u8],
    written: usize,
    pub ghost within: { written ≤ length bytes.now },
}

impl<'a> Output<'a> {
    ghost use Rattle.std.specs.Prelude.{◌≡◌, [], ◌∷◌, ◌+◌, ◌*◌, ◌<◌, take};
    ghost use Rattle.spec_table.specs.Table.{words};
    ghost use Rattle.board_answers.specs.Answered.{values_of};
    ghost use Rattle.spec_text.specs.Numbers.{space, digits};
    ghost use Rattle.counter_printing.specs.Wrote.{Wrote, HasRoom, field_most, spaced};

    // Begins with nothing written.
    pub fn new(bytes: &'a mut [u8]) -> Output<'a>
        ensures same_bytes { result.bytes.ghost_name ≡ bytes.entry.ghost_name }
        ensures bytes { result.bytes.now ≡ bytes.old }
        ensures written { result.written ≡ 0 }
    {
        Output { bytes, written: 0 }
    }

    // Gives what is written.
    pub fn as_slice(&self) -> &[u8]
        ensures { result.now ≡ take self.now.written self.now.bytes.now }
    {
        &self.bytes[..self.written]
    }

    // Tells how many bytes more there is room for.
    pub fn room(&self) -> usize
        ensures { self.now.written + result ≡ length self.now.bytes.now }
    {
        self.bytes.len() - self.written
    }

    // Writes one byte.
    pub fn byte(&mut self, b: u8)
        requires { HasRoom self.old 1 }
        ensures { Wrote self.old self.new (b ∷ []) }
    {
        self.bytes[self.written] = b;
        self.written += 1;
    }

    // Writes the digits of a number, the last one behind the others: as many calls deep as there are digits. One
    // digit needs no division, and no call of itself.
    // Kept: by hand, since `number` can't fail and `write!` may, for all that it promises.
    fn decimal(&mut self, n: usize)
        requires { HasRoom self.old (length (digits n n)) }
        ensures { Wrote self.old self.new (digits n n) }
    {
        if n < 10 {
            self.byte(b'0' + n as u8);
        } else {
            self.decimal(n / 10);
            self.byte(b'0' + (n % 10) as u8);
        }
    }

    // Writes a space and a number.
    pub fn number(&mut self, n: usize)
        requires { HasRoom self.old field_most }
        ensures wrote { Wrote self.old self.new (space ∷ digits n n) }
        ensures short { self.new.written ≤ self.old.written + field_most }
    {
        self.byte(b' ');
        self.decimal(n);
    }

    // Writes the values of an answer, a space before each.
    pub fn values(&mut self, v: Values)
        requires { HasRoom self.old (3 * field_most) }
        ensures wrote { Wrote self.old self.new (spaced (values_of v)) }
        ensures short { self.new.written ≤ self.old.written + 3 * field_most }
    {
        for &value in v.as_slice() {
            self.number(value);
        }
    }

    // Writes the first `count` words of a list, a space before each.
    pub fn listed(&mut self, list: &[u8], count: usize)
        requires count_in_bounds { 2 * count ≤ length list.now }
        requires room { HasRoom self.old (field_most * count) }
        ensures wrote { Wrote self.old self.new (spaced (take count (words list.now))) }
        ensures short { self.new.written ≤ self.old.written + field_most * count }
    {
        for i in 0..count {
            self.number(table_words::read(list, i));
        }
    }
}
