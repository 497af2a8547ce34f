// The counter program between a reader and a writer: it reads and writes, and `counter_feed` does the rest.
#![tactic(auto)]

ghost use Rattle.std.specs.Prelude.{◌≤◌, length};
ghost use Rattle.counter_answer_lines.specs.AnswerLines.{line_most};
ghost use Rattle.counter_feed.specs.Feeding.{Stands};

use counter_feed::Reader;
use counter_printing::Output;
use counter_state::TableBytes;
use std::io::{self, Read, Write};
use table_size::Size;

// The most bytes of a chunk of the input, and of what is written at once.
const BUFFER_BYTES: usize = 65536;

// Reads once, so many bytes at the most; gives none where the input ends or can't be read.
fn read_some<'a, R: Read>(input: &mut R, chunk: &'a mut [u8], most: usize) -> &'a [u8]
    ensures { length result.now ≤ length chunk.old }
{
    let most = most.min(chunk.len());
    let count = input.read(&mut chunk[..most]).unwrap_or(0);
    &chunk[..count]
}

// Answers all of a chunk. What is answered is written before more is taken, so that each answer appears as soon as
// its line is complete.
fn answer<W: Write>(
    reader: &mut Reader,
    output: &mut W,
    mut chunk: &[u8],
    bytes: &mut TableBytes,
    out: &mut [u8],
) -> io::Result<()>
    requires stands { Stands reader.old bytes.old }
    requires line_most_in_bounds { line_most ≤ length out.old }
    ensures { Stands reader.new bytes.new }
{
    while !chunk.is_empty() {
        let mut text = Output::new(out);
        let used = counter_feed::feed(reader, chunk, bytes, &mut text);
        output.write_all(text.as_slice())?;
        chunk = &chunk[used..];
    }
    Ok(())
}

// Answers the input, read at most so many bytes at a time, until it ends or an answer can't be written.
fn converse<R: Read, W: Write>(input: &mut R, output: &mut W, most: usize) -> io::Result<()> {
    let mut reader = Reader::new();
    let mut bytes = [0; Size::MOST_BYTES];
    let mut chunk = [0; BUFFER_BYTES];
    let mut out = [0; BUFFER_BYTES];
    // Counts to a number that no run reaches, since every loop has to end.
    for _ in 0..u64::MAX {
        let part = read_some(input, &mut chunk, most);
        if part.is_empty() {
            break;
        }
        answer(&mut reader, output, part, &mut bytes, &mut out)?;
    }
    let mut text = Output::new(&mut out);
    counter_feed::finish(&reader, &mut text);
    output.write_all(text.as_slice())
}

// Runs the counter program, which reads at most so many bytes at a time. An answer that can't be written ends it:
// nobody is left to answer.
pub fn serve<R: Read, W: Write>(input: &mut R, output: &mut W, most: usize) {
    let _ = converse(input, output, most);
}
