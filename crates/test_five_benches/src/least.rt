// What the second solver gives for each set of the jobs. A set is a number: its binary digits, from the lowest, tell
// which jobs are in it.
use crate::jobs;
use test_solver::bench_loads::{Excesses, Loads};
use test_solver::job_book::Book;

// Sets of ten jobs.
pub const SETS: usize = 1 << jobs::JOBS;

// What is least for a set.
#[derive(Clone, Copy, Default)]
pub struct Least {
    excesses: Excesses,
    heaviest: usize,
}

impl Least {
    // Tries every sharing of a book's jobs.
    fn of(book: &Book) -> Least {
        Least {
            excesses: book.least_excesses(),
            heaviest: book.least_heaviest(),
        }
    }

    // Tells whether the loads' heaviest and their excess above every height are the least.
    pub fn is_of(&self, loads: Loads) -> bool {
        loads.heaviest() == self.heaviest && loads.excesses() == self.excesses
    }
}

// Gives the book of a set's jobs.
fn book_of(set: usize) -> Book {
    let mut book = Book::empty();
    for job in jobs::in_order() {
        if set & job.alone() != 0 {
            book.write(job.number, Some(job.benches()));
        }
    }
    book
}

// Solves every set once: what is least does not depend on the order of arrivals. Fills an array that is lent, since one
// that is handed back is copied.
pub fn solve(solved: &mut [Least; SETS]) {
    for (set, least) in solved.iter_mut().enumerate() {
        *least = Least::of(&book_of(set));
    }
}
