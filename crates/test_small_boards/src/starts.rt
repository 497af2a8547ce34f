// Boards to start from: blank, or with random jobs that are held anyhow, levelled or not.
use crate::board::Board;
use crate::calls::{Call, perform};
use crate::counts::{Deed, Fault};
use crate::outcomes::Outcome;
use crate::random::Seed;
use board_answers::Answer;
use test_solver::Size;
use test_solver::tables::Holder;
use test_solver::words::Words;

// Adds a job in three of four draws. Half of them name bench 1 first, and mostly the bench of the lower number holds
// a job, so that many tables are not level.
fn add_random_job(board: &mut Board, job: usize, seed: Seed) {
    let benches = board.table.size.benches;
    let first = match seed.below(1, 8) {
        0 | 1 => return,
        2..=4 => 1,
        _ => seed.within(2, benches),
    };
    let second = seed.other(3, benches, first);
    let by_the_higher = seed.below(4, 8) == 0;
    let holder = if by_the_higher == (first < second) {
        Holder::Second
    } else {
        Holder::First
    };
    board.table.add_job(job, (first, second), holder);
    board.book.write(job, Some((first, second)));
}

// Puts jobs on their chains from any job on and around, so that chains are in several orders.
fn random_jobs(size: Size, level: bool, seed: Seed) -> Board {
    let mut board = Board::blank(size, level);
    let from = seed.below(9, size.jobs);
    let mut next = seed;
    for k in 0..size.jobs {
        next = next.after(10);
        add_random_job(&mut board, (from + k) % size.jobs + 1, next);
    }
    board
}

// Begins a run: blanks a table, levels a board of drawn jobs, or takes one as it is.
pub fn begin(size: Size, seed: Seed) -> Outcome {
    let way = seed.below(3, 3);
    let (reply, right) = match way {
        0 => {
            // All of the table is to be written over.
            let mut filled = Board::blank(size, true);
            filled.table.words = Words::all(255);
            let reply = perform(&filled, Call::Blank(size.benches, size.jobs));
            (reply, reply.answer == Ok(Answer::Blanked))
        }
        1 => {
            let reply = perform(&random_jobs(size, true, seed), Call::Levelling(u32::MAX));
            (reply, matches!(reply.answer, Ok(Answer::Levelled(_))))
        }
        _ => {
            let reply = perform(&random_jobs(size, false, seed), Call::FormCheck);
            (reply, reply.answer == Ok(Answer::Sound))
        }
    };
    Outcome::new(reply.board, Deed::Begun, right, Fault::Start)
}
