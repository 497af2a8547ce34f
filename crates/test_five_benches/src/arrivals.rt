// An order of arrivals, and what the board comes to.
ghost use Rattle.std.specs.Prelude.{◌≤◌, ◌<◌};

use crate::jobs::{self, BENCHES, JOBS, Job};
use crate::least::{Least, SETS};
use board_answers::Answer;
use test_solver::Size;
use test_solver::job_book::Book;
use test_solver::tables::Table;
use test_solver::words::Words;

// Bytes for the jobs that an arrival moves: one less than there are benches, at most.
const LIST: usize = 2 * (BENCHES - 1);

// A table, and the jobs that arrived: as a book, and as a set.
#[derive(Clone, Copy)]
struct Stage {
    table: Table,
    book: Book,
    set: usize,
}

#[derive(Drop)]
pub struct Arrivals {
    order: [Job; JOBS],
    // What each number of arrivals, from 0, came to.
    stages: [Stage; JOBS + 1],
}

impl Arrivals {
    // Begins the first order of the dictionary.
    pub fn none() -> Arrivals {
        let mut table = Table {
            words: Words::all(0),
            size: Size {
                benches: BENCHES,
                jobs: JOBS,
            },
        };
        // Leaves zeros where it is refused, and no arrival is accepted there.
        let _ = board_changes::blank(&mut table.words.bytes, BENCHES, JOBS);
        Arrivals {
            order: jobs::in_order(),
            stages: [Stage {
                table,
                book: Book::empty(),
                set: 0,
            }; JOBS + 1],
        }
    }

    // Makes the next arrival after so many, and tells whether it is accepted.
    pub fn make(&mut self, jobs: usize) -> bool
        requires { jobs < 10 }
    {
        let job = self.order[jobs];
        let mut stage = self.stages[jobs];
        let mut list = [0; LIST];
        let table = &mut stage.table.words.bytes;
        let answer = board_changes::arrival(table, job.number, job.first, job.second, &mut list);
        stage.book.write(job.number, Some(job.benches()));
        stage.set |= job.alone();
        self.stages[jobs + 1] = stage;
        matches!(answer, Ok(Answer::Arrived(_, _, _)))
    }

    // Tells whether the table after so many arrivals has their jobs and no other, and its loads are the second solver's
    // least.
    pub fn agree(&self, solved: &[Least; SETS], jobs: usize) -> bool
        requires { jobs ≤ 10 }
    {
        let stage = &self.stages[jobs];
        let Some(least) = solved.get(stage.set) else {
            return false;
        };
        stage.table.fits(&stage.book) && least.is_of(stage.table.loads_held())
    }

    // Tells whether every load is 2 at the end of the order.
    pub fn end_even(&self) -> bool {
        let table = &self.stages[JOBS].table.words.bytes;
        (1..BENCHES + 1).all(|bench| board_questions::load(table, bench) == Ok(Answer::Load(2)))
    }

    // Makes the next order of the dictionary, and counts the arrivals at its beginning that stay as they were; none
    // after the last order.
    pub fn next_order(&mut self) -> Option<usize> {
        let order = &mut self.order;
        let kept = order
            .windows(2)
            .rposition(|pair| pair[0].number < pair[1].number)?;
        let fallen = order[kept].number;
        let risen = order.iter().rposition(|job| fallen < job.number)?;
        order.swap(kept, risen);
        order[kept + 1..].reverse();
        Some(kept)
    }
}
