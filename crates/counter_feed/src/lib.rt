// The counter program on slices: its input comes in pieces of any size, and each complete line is replied to.
#![tactic(auto)]

ghost use Rattle.std.specs.Prelude.{[], ◌∷◌, ◌≡◌, ◌≢◌};
ghost use Rattle.spec_text.specs.Numbers.{line_feed};
ghost use Rattle.counter_printing.specs.Wrote.{HasRoom};
ghost use Rattle.counter_answer_lines.specs.AnswerLines.{line_most};
ghost use Rattle.counter_feed.specs.Feeding.{place_of, Stands, TakesByte, Feeds, Finishes, Begins};

use counter_answer_lines::LINE_MOST;
use counter_printing::Output;
use counter_state::{Counter, TableBytes};
use kept_line::Line;
use table_refusals::Refusal;

mod kept_line;

// Where the program is in its input: its state, and what it keeps of the present line.
#[derive(Clone, Copy)]
pub struct Reader {
    counter: Counter,
    line: Line,
}

impl Reader {
    // The bytes kept of a line: one more than a readable line may have.
    pub const KEPT_MOST: usize = 41;

    // Begins before the first byte.
    pub fn new() -> Reader
        ensures { Begins result }
    {
        Reader {
            counter: Counter::new(),
            line: Line::new(),
        }
    }
}

// Takes one byte of the input: a line feed ends the line, which is replied to; any other byte belongs to it.
fn take_byte(reader: &mut Reader, byte: u8, bytes: &mut TableBytes, out: &mut Output<'_>)
    requires stands { Stands reader.old bytes.old }
    requires room { HasRoom out.old line_most }
    ensures takes { TakesByte (place_of reader.old bytes.old) (byte ∷ []) reader.new bytes.new
        out.old out.new }
    ensures silent { byte ≢ line_feed → out.new ≡ out.old }
{
    if byte == b'\n' {
        counter_reply::to_line(&mut reader.counter, reader.line.as_slice(), bytes, out);
        reader.line.clear();
    } else {
        reader.line.append(byte);
    }
}

// Takes a chunk of the input, as far as the output has room for another reply, and tells how many bytes that are.
pub fn feed(
    reader: &mut Reader,
    chunk: &[u8],
    bytes: &mut TableBytes,
    out: &mut Output<'_>,
) -> usize
    requires stands { Stands reader.old bytes.old }
    requires room { HasRoom out.old line_most }
    ensures { Feeds (place_of reader.old bytes.old) chunk.now reader.new bytes.new result
        out.old out.new }
{
    for (used, &byte) in chunk.iter().enumerate() {
        take_byte(reader, byte, bytes, out);
        // Only a reply takes room.
        if byte == b'\n' && out.room() < LINE_MOST {
            return used + 1;
        }
    }
    chunk.len()
}

// Ends the input: "a last line without a line feed, gives 10".
pub fn finish(reader: &Reader, out: &mut Output<'_>)
    requires { HasRoom out.old line_most }
    ensures { Finishes reader.now out.old out.new }
{
    if !reader.line.is_empty() {
        counter_answer_lines::refusal(out, Refusal::Unreadable.number() as usize);
    }
}
