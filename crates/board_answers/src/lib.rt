// What the calls answer: an accepted call's answer, or why the call was refused.
#![tactic(auto)]

ghost use Rattle.std.specs.Prelude.{◌≡◌, ◌≤◌, drop};
ghost use Rattle.spec_calls.specs.Answers.{in_numbers};
ghost use Rattle.board_answers.specs.Answered.{accepted_of, answer_of, returned, values_of};

use table_refusals::Refusal;
pub use value_list::Values;

#[cfg(test)]
mod tests;
mod value_list;

// What an accepted call answers.
// Kept: a variant for each fact of document 01, yes, no and none too, what may not change: `accepted_of` names each.
#[derive(Clone, Copy, PartialEq, Eq, Debug)]
pub enum Answer {
    Blanked,
    // The bench that holds the new job in the end, the bench whose load rose, the other jobs that changed holder.
    Arrived(usize, usize, usize),
    // The bench whose load fell, the jobs that changed holder.
    Closed(usize, usize),
    Load(usize),
    Heaviest(usize),
    // Benches in the set, jobs inside.
    TightSet(usize, usize),
    Sound,
    Level,
    NotLevel,
    // Paths flipped, and no improving path is left.
    Levelled(u32),
    // Paths flipped, and one is left.
    Stopped(u32),
    // How long the sheet is.
    Sheet(usize),
    // A job between two benches, the records read.
    Between(usize, usize),
    // No job is: the records read.
    NoneBetween(usize),
}

impl Answer {
    // Gives its values, in document 01's order; yes and level are 1, no, stopped and no job 0.
    pub fn values(self) -> Values
        ensures numbers { values_of result ≡ drop 1 (in_numbers (accepted_of self)) }
        ensures count_most { result.count ≤ 3 }
    {
        match self {
            Answer::Blanked | Answer::Sound => Values::of(&[]),
            Answer::Arrived(holder, rose, moved) => Values::of(&[holder, rose, moved]),
            Answer::Closed(fell, moved) => Values::of(&[fell, moved]),
            Answer::Load(n) | Answer::Heaviest(n) => Values::of(&[n]),
            Answer::TightSet(benches, inside) => Values::of(&[benches, inside]),
            Answer::Level => Values::of(&[1]),
            Answer::NotLevel => Values::of(&[0]),
            Answer::Levelled(paths) => Values::of(&[paths as usize, 1]),
            Answer::Stopped(paths) => Values::of(&[paths as usize, 0]),
            Answer::Sheet(length) => Values::of(&[length]),
            Answer::Between(job, records) => Values::of(&[job, records]),
            Answer::NoneBetween(records) => Values::of(&[0, records]),
        }
    }
}

// Gives the refusal's number, 0 for an accepted call.
pub fn number(answer: Result<Answer, Refusal>) -> u32
    ensures { result ≡ returned (answer_of answer) }
{
    match answer {
        Ok(_) => 0,
        Err(refusal) => refusal.number(),
    }
}

// Gives the answer's values; a refusal has none.
pub fn values_told(answer: Result<Answer, Refusal>) -> Values
    ensures numbers { values_of result ≡ drop 1 (in_numbers (answer_of answer)) }
    ensures count_most { result.count ≤ 3 }
{
    match answer {
        Ok(accepted) => accepted.values(),
        Err(_) => Values::of(&[]),
    }
}
