// Tight sets of every height, held against sets made anew from the holders.
use crate::board::{Board, MOST_JOBS};
use crate::calls::{Call, full_list, is_refused_short, perform};
use board_answers::Answer;
use test_solver::MOST_BENCHES;
use test_solver::bench_loads::Loads;
use test_solver::job_book::{Book, Refusal};
use test_solver::words::Words;

// Which benches are in a set.
#[derive(Clone, Copy)]
struct Set {
    // Bench 1 comes first.
    in_order: [bool; MOST_BENCHES],
}

impl Set {
    // Makes the set of the benches whose load is at least the height.
    fn heavy(loads: &Loads, height: usize) -> Set {
        let mut set = Set {
            in_order: [false; MOST_BENCHES],
        };
        for (i, is_in) in set.in_order.iter_mut().enumerate() {
            *is_in = height <= loads.of(i + 1);
        }
        set
    }

    // Makes the set of a height. Each round of all jobs brings in a bench at least, until no more come in.
    fn of(board: &Board, loads: &Loads, height: usize) -> Set {
        let mut set = Set::heavy(loads, height);
        for _ in 0..MOST_BENCHES {
            for job in 1..MOST_JOBS + 1 {
                set.bring_in(board, job);
            }
        }
        set
    }

    // Tells whether a bench is in the set.
    fn has(&self, bench: usize) -> bool {
        self.in_order
            .get(bench.wrapping_sub(1))
            .copied()
            .unwrap_or(false)
    }

    // Takes a bench in.
    fn add(&mut self, bench: usize) {
        if let Some(is_in) = self.in_order.get_mut(bench.wrapping_sub(1)) {
            *is_in = true;
        }
    }

    // Brings in the benches of a job whose holder is in.
    fn bring_in(&mut self, board: &Board, job: usize) {
        if let Some((first, second)) = board.book.benches_of(job)
            && board
                .table
                .holder(job)
                .is_some_and(|holder| self.has(holder))
        {
            self.add(first);
            self.add(second);
        }
    }

    // Counts the benches.
    fn count(&self) -> usize {
        self.in_order.iter().filter(|&&is_in| is_in).count()
    }

    // Counts the jobs with both benches in the set.
    fn inside(&self, book: &Book) -> usize {
        (1..MOST_JOBS + 1)
            .filter(|&job| {
                book.benches_of(job)
                    .is_some_and(|(first, second)| self.has(first) && self.has(second))
            })
            .count()
    }

    // Lists the benches, rising, as words at the beginning of a list.
    fn list(&self) -> Words {
        let mut list = full_list();
        for (place, bench) in (1..MOST_BENCHES + 1)
            .filter(|&bench| self.has(bench))
            .enumerate()
        {
            list.put(place, bench);
        }
        list
    }
}

// Tells of a level board whether the inside jobs less (h - 1) times the benches are the excess above h - 1. Where h
// is the heaviest load, it is the density rounded up.
fn proves(loads: &Loads, height: usize, benches: usize, inside: usize) -> bool {
    let Some(lower) = height.checked_sub(1) else {
        return false;
    };
    let below = benches.wrapping_mul(lower);
    let is_rounded = below < inside && inside <= benches.wrapping_mul(height);
    below.wrapping_add(loads.excess(lower)) == inside && (is_rounded || height < loads.heaviest())
}

// Tells whether the set of a height that some load reaches is right, and is refused where its list is one byte too
// short.
fn set_is_right(board: &Board, loads: &Loads, height: usize) -> bool {
    let set = Set::of(board, loads, height);
    let benches = set.count();
    let inside = set.inside(&board.book);
    let call = Call::TightSet(height);
    let reply = perform(board, call);
    (!board.level || proves(loads, height, benches, inside))
        && reply.answer == Ok(Answer::TightSet(benches, inside))
        && reply.list == set.list()
        && is_refused_short(board, call, benches)
}

// Tells whether the set of a height is right, or refused.
fn is_right(board: &Board, loads: &Loads, height: usize) -> bool {
    if height == 0 || loads.heaviest() < height {
        perform(board, Call::TightSet(height)).is_refused(board, Refusal::Height)
    } else {
        set_is_right(board, loads, height)
    }
}

// Tells whether the sets of all heights from 0 to one above the most jobs are right.
pub fn are_right(board: &Board, loads: &Loads) -> bool {
    (0..MOST_JOBS + 2).all(|height| is_right(board, loads, height))
}
