// Tables that are not sound, or whose sizes do not fit: every call of 01 is refused with 2 or 1, whatever its numbers,
// and leaves all bytes.
use crate::board::Board;
use crate::calls::{Call, perform};
use crate::counts::{Deed, Fault};
use crate::outcomes::Outcome;
use crate::random::Seed;
use test_solver::job_book::Refusal;
use test_solver::tables::{self, Field, Table};
use test_solver::words::SPACE;

// Numbers above 01's limits.
const TOO_MANY_BENCHES: usize = 501;

const TOO_MANY_JOBS: usize = 4001;

// Gives a chain's wrong beginning: a number above J, or a job of another chain.
fn wrong_first(board: &Board, job: usize, bench: usize) -> usize {
    match board.table.holder(job) {
        Some(holder) if holder != bench => job,
        _ => board.table.size.jobs + 1,
    }
}

// Makes the table unsound, in one of several ways: tells which word to write, and what. The record of a job that does
// not stand gets a next job.
fn spoilt_word(board: &Board, seed: Seed) -> (usize, usize) {
    let table = &board.table;
    let size = table.size;
    let job = seed.within(3, size.jobs);
    let bench = seed.within(4, size.benches);
    let drawn = seed.below(5, 8);
    match drawn {
        0..=2 if !board.book.stands(job) => (table.record(job, Field::Next), job),
        // A wrong holder, the job's other bench, a bench above B, the job as its own next job.
        0 => (table.record(job, Field::Holder), 3),
        1 => (
            table.record(job, Field::First),
            table.field(job, Field::Second),
        ),
        2 => (table.record(job, Field::Second), size.benches + 1),
        3 => (table.record(job, Field::Next), job),
        // A chain's wrong beginning, one standing job too many, anything but 0.
        4 | 5 => (Table::head(bench), wrong_first(board, job, bench)),
        6 => (tables::STANDING, table.words.word(tables::STANDING) + 1),
        _ => (tables::ZERO, 1),
    }
}

// Tells which of words 0 and 1 to write, and a number that is not the table's: 0, one above the limit, or one more.
fn spoilt_size(board: &Board, seed: Seed) -> (usize, usize) {
    let size = board.table.size;
    let (place, too_many, one_more) = if seed.below(4, 2) == 0 {
        (tables::BENCHES, TOO_MANY_BENCHES, size.benches + 1)
    } else {
        (tables::JOBS, TOO_MANY_JOBS, size.jobs + 1)
    };
    match seed.below(3, 3) {
        0 => (place, 0),
        1 => (place, too_many),
        _ => (place, one_more),
    }
}

// Gives the table another length than its own.
fn spoilt_length(board: &Board, seed: Seed) -> usize {
    let length = seed.below(3, SPACE);
    if length == board.length { 0 } else { length }
}

// Damages the table: its length, its sizes, or anything else. Gives the refusal that is due.
fn damage(board: &mut Board, seed: Seed) -> Refusal {
    match seed.below(2, 4) {
        0 => {
            board.length = spoilt_length(board, seed);
            Refusal::Sizes
        }
        1 => {
            let (place, word) = spoilt_size(board, seed);
            board.table.words.put(place, word);
            Refusal::Sizes
        }
        _ => {
            let (place, word) = spoilt_word(board, seed);
            board.table.words.put(place, word);
            Refusal::Unsound
        }
    }
}

// Makes every call of 01 on a damaged copy of the table.
pub fn every_call(board: &Board, seed: Seed) -> Outcome {
    let mut damaged = *board;
    let due = damage(&mut damaged, seed);
    let size = board.table.size;
    let job = seed.number(6, size.jobs);
    let bench = seed.number(8, size.benches);
    let calls = [
        Call::Arrival(job, bench, 1),
        Call::Closing(job),
        Call::Levelling(1),
        Call::Load(bench),
        Call::Heaviest,
        Call::FormCheck,
        Call::LevelCheck,
        Call::TightSet(bench),
    ];
    let right = calls
        .iter()
        .all(|&call| perform(&damaged, call).is_refused(&damaged, due));
    Outcome::new(*board, Deed::Refused(due.number()), right, Fault::Damaged)
}
