// The lines that the counter program prints for answers.
#![tactic(auto)]

ghost use Rattle.std.specs.Prelude.{[], ◌++◌, suc, ◌+◌, ◌*◌, ◌≤◌, length, take};
ghost use Rattle.spec_lists.specs.Lists.{nth};
ghost use Rattle.spec_table.specs.Table.{most_benches, words};
ghost use Rattle.spec_calls.specs.Answers.{in_numbers};
ghost use Rattle.board_answers.specs.Answered.{answer_of, values_of};
ghost use Rattle.spec_counter.specs.Counter.{printed};
ghost use Rattle.counter_printing.specs.Wrote.{HasRoom, Wrote};
ghost use Rattle.counter_answer_lines.specs.AnswerLines.{line_most, refusal_text, answer_text, listing_text};

use board_answers::{Answer, Values};
use counter_printing::Output;
use table_refusals::Refusal;

// The room that any line fits into: `line_most`, for those who lend the buffer.
pub const LINE_MOST: usize = 10628;

// What an answer's line tells: a letter, numbers of the command that it repeats, and the answer.
#[derive(Clone, Copy)]
pub struct Told {
    pub letter: u8,
    pub repeated: Values,
    pub answer: Result<Answer, Refusal>,
}

// Prints a line: a letter, numbers of the command, values and the first `count` words of a list, and the line feed.
fn line(
    out: &mut Output<'_>,
    letter: u8,
    repeated: Values,
    values: Values,
    list: &[u8],
    count: usize,
)
    requires room { HasRoom out.old line_most }
    requires count_in_bounds { 2 * count ≤ length list.now }
    requires count_most { count ≤ most_benches }
    ensures wrote { Wrote out.old out.new
        (printed letter (values_of repeated ++ values_of values ++ take count (words list.now))) }
    ensures short { out.new.written ≤ out.old.written + line_most }
{
    out.byte(letter);
    out.values(repeated);
    out.values(values);
    out.listed(list, count);
    out.byte(b'\n');
}

// Prints "R and the refusal".
// Kept: the refusal's number, what may not change: the clause `wrote` speaks of every number.
pub fn refusal(out: &mut Output<'_>, number: usize)
    requires { HasRoom out.old line_most }
    ensures wrote { Wrote out.old out.new (refusal_text number) }
    ensures short { out.new.written ≤ out.old.written + line_most }
{
    line(out, b'R', Values::of(&[number]), Values::of(&[]), &[], 0);
}

// Prints an answer's line without a list.
pub fn answer(out: &mut Output<'_>, told: Told)
    requires { HasRoom out.old line_most }
    ensures wrote { Wrote out.old out.new
        (answer_text told.letter (values_of told.repeated) (answer_of told.answer) []) }
    ensures short { out.new.written ≤ out.old.written + line_most }
{
    match told.answer {
        Ok(accepted) => line(out, told.letter, told.repeated, accepted.values(), &[], 0),
        Err(why) => refusal(out, why.number() as usize),
    }
}

// Prints an answer's line with the words of a list, as many as its value k says; a refusal lists none.
#[tactic(auto, using(crate::proofs::Lines::value_number))]
pub fn listing(out: &mut Output<'_>, told: Told, k: usize, list: &[u8])
    requires room { HasRoom out.old line_most }
    requires le_k { 1 ≤ k }
    requires k_in_bounds { 2 * nth (in_numbers (answer_of told.answer)) (suc k) 0 ≤ length list.now }
    requires list_len_bound { length list.now ≤ 2 * most_benches }
    ensures wrote { Wrote out.old out.new
        (listing_text told.letter (values_of told.repeated) k (answer_of told.answer) list.now) }
    ensures short { out.new.written ≤ out.old.written + line_most }
{
    match told.answer {
        Ok(accepted) => {
            let values = accepted.values();
            let count = values.get(k).unwrap_or(0);
            line(out, told.letter, told.repeated, values, list, count);
        }
        Err(why) => refusal(out, why.number() as usize),
    }
}
