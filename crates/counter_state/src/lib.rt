// What the counter program keeps.
#![tactic(auto)]

ghost use Rattle.std.specs.Prelude.{◌≡◌};
ghost use Rattle.spec_counter.specs.Counter.{counter_list};

use board_answers::Answer;
use board_tally::Tally;
use table_refusals::Refusal;
use table_size::Size;

// "Its list has 1,000 bytes".
const LIST_BYTES: usize = 1000;

// The program's own bytes, with room for every table.
pub type TableBytes = [u8; Size::MOST_BYTES];

// The program's table is the first `length` bytes of its own.
// Kept: the bytes are lent beside the counter, since `Counter::noted` takes and gives the counter by value.
#[derive(Clone, Copy)]
pub struct Counter {
    pub length: usize,
    pub tally: Tally,
}

impl Counter {
    ghost use Rattle.std.specs.Prelude.{List, ℕ};
    ghost use Rattle.spec_calls.specs.Tally.{noted};
    ghost use Rattle.board_answers.specs.Answered.{answer_of};
    ghost use Rattle.board_tally.specs.Counts.{tally_of};
    ghost use Rattle.spec_counter.specs.Counter.{at_first};
    ghost use Rattle.counter_state.specs.State.{counter_of};

    // Starts: "Before the first B its table has length 0".
    pub fn new() -> Counter
        ensures length { result.length ≡ 0 }
        ensures state { (bytes : List ℕ) → counter_of result bytes ≡ at_first }
    {
        Counter {
            length: 0,
            tally: Tally::new(),
        }
    }

    // Notes the answer in the program's own tally. A 9 "is not printed".
    pub fn noted(mut self, answer: Result<Answer, Refusal>) -> Counter
        ensures length { result.length ≡ self.length }
        ensures tally { tally_of result.tally ≡ (noted (tally_of self.tally) (answer_of answer)).tally }
    {
        let _ = board_tally::note_in_place(&mut self.tally, answer);
        self
    }
}

// Makes the list that is lent to an arrival, a closing and a tight set.
pub fn zero_list() -> [u8; LIST_BYTES]
    ensures { result ≡ counter_list }
{
    [0; LIST_BYTES]
}
