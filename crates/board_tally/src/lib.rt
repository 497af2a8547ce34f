// The tally of arrivals, closings and jobs moved.
#![tactic(auto)]

ghost use Rattle.std.specs.Prelude.{◌+◌, ◌≡◌, leb};
ghost use Rattle.spec_calls.specs.Tally.{most_count, zero_tally, counts_fit, noted};
ghost use Rattle.board_answers.specs.Answered.{answer_of};
ghost use Rattle.board_tally.specs.Counts.{tally_of, note_of, number_of, more, RaisesBy, NotedAs};

use board_answers::Answer;
use table_refusals::Refusal;

// Three 32-bit counts.
#[derive(Clone, Copy, Default)]
pub struct Tally {
    pub arrivals: u32,
    pub closings: u32,
    pub moved: u32,
}

// The tally handed back, and what noting answers: counted, or refusal 9.
#[derive(Clone, Copy)]
pub struct Noted {
    pub tally: Tally,
    pub note: Result<(), Refusal>,
}

// Gives the number that is returned for a note, 0 where the answer was counted.
pub fn number(note: Result<(), Refusal>) -> u32
    ensures { result ≡ number_of (note_of note) }
{
    match note {
        Ok(()) => 0,
        Err(refusal) => refusal.number(),
    }
}

// What noting an answer adds to each count.
#[derive(Clone, Copy, Default)]
struct Added {
    arrivals: usize,
    closings: usize,
    moved: usize,
}

impl Added {
    // Tells what an answer adds: "one to its own count and its moved jobs to the third", or nothing.
    fn by(answer: Result<Answer, Refusal>) -> Added
        ensures { RaisesBy (answer_of answer) result }
    {
        let Ok(accepted) = answer else {
            return Added::default();
        };
        match accepted {
            Answer::Arrived(_, _, moved) => Added {
                arrivals: 1,
                closings: 0,
                moved,
            },
            Answer::Closed(_, moved) => Added {
                arrivals: 0,
                closings: 1,
                moved,
            },
            _ => Added::default(),
        }
    }
}

// Tells whether a count can be raised by so many.
fn has_room(count: u32, raise: usize) -> bool
    ensures { result ≡ leb (count + raise) most_count }
{
    raise <= (Tally::MOST_COUNT - count) as usize
}

impl Tally {
    // The most that a count holds.
    pub const MOST_COUNT: u32 = u32::MAX;

    // Starts with all counts zero.
    pub fn new() -> Tally
        ensures { tally_of result ≡ zero_tally }
    {
        Tally::default()
    }

    // Tells whether all three counts can be raised by so many.
    fn fits(self, added: Added) -> bool
        ensures { result ≡ counts_fit (more self added) }
    {
        has_room(self.arrivals, added.arrivals)
            && has_room(self.closings, added.closings)
            && has_room(self.moved, added.moved)
    }

    // Notes an answer: raises all three counts, or none where one would pass the most.
    // Kept: `mut self`, the new tally beside its answer, what may not change: so the customer asked for `Tally::note`.
    pub fn note(mut self, answer: Result<Answer, Refusal>) -> Noted
        ensures { NotedAs (noted (tally_of self) (answer_of answer)) result }
    {
        let added = Added::by(answer);
        if !self.fits(added) {
            return Noted {
                tally: self,
                note: Err(Refusal::CountFull),
            };
        }
        self.arrivals += added.arrivals as u32;
        self.closings += added.closings as u32;
        self.moved += added.moved as u32;
        Noted {
            tally: self,
            note: Ok(()),
        }
    }
}

// Raises the lent tally in place.
pub fn note_in_place(tally: &mut Tally, answer: Result<Answer, Refusal>) -> Result<(), Refusal>
    ensures { NotedAs (noted (tally_of tally.old) (answer_of answer))
        (record { tally = tally.new; note = result }) }
{
    let noted = (*tally).note(answer);
    *tally = noted.tally;
    noted.note
}
