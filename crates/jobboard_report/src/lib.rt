// Answers for C programs: an answer's values go into the numbers that the program lends, and its number is returned.
// A lent number for which there is no value stays, and so does one for a value that does not fit 32 bits; a refusal has
// no values, and those of every call fit.
#![tactic(auto)]

ghost use Rattle.std.specs.Prelude.{◌≡◌, [], ◌∷◌, drop};
ghost use Rattle.spec_lists.specs.Lists.{nth};
ghost use Rattle.spec_calls.specs.Answers.{in_numbers};
ghost use Rattle.board_answers.specs.Answered.{answer_of};
ghost use Rattle.jobboard_report.specs.Report.{written_over, Written};

use board_answers::Answer;
use table_refusals::Refusal;

// Writes value k, counted from 1, into the lent number, which is never read and stays where there is none.
fn write(answer: Result<Answer, Refusal>, k: usize, lent: &mut u32)
    ensures { lent.new ≡ written_over (nth (drop 1 (in_numbers (answer_of answer))) k 4294967296)
        lent.old }
{
    if let Some(value) = board_answers::values_told(answer).get(k)
        && let Ok(value) = u32::try_from(value)
    {
        *lent = value;
    }
}

// Reports the number and the first value.
// Kept: one function over an array of the lent numbers; tried, and the proof didn't close, since nothing proves a `&mut`
// that is moved out of an array.
pub fn one(answer: Result<Answer, Refusal>, first: &mut u32) -> u32
    ensures { Written (answer_of answer) result (first.old ∷ []) (first.new ∷ []) }
{
    write(answer, 1, first);
    board_answers::number(answer)
}

// Reports the number and the first two values.
pub fn two(answer: Result<Answer, Refusal>, first: &mut u32, second: &mut u32) -> u32
    ensures { Written (answer_of answer) result (first.old ∷ second.old ∷ [])
        (first.new ∷ second.new ∷ []) }
{
    write(answer, 2, second);
    one(answer, first)
}

// Reports the number and the first three values.
pub fn three(
    answer: Result<Answer, Refusal>,
    first: &mut u32,
    second: &mut u32,
    third: &mut u32,
) -> u32
    ensures { Written (answer_of answer) result (first.old ∷ second.old ∷ third.old ∷ [])
        (first.new ∷ second.new ∷ third.new ∷ []) }
{
    write(answer, 3, third);
    two(answer, first, second)
}
