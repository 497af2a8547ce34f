// Random runs of arrivals, closings and levellings on small boards. A job book, kept by document 01's rules,
// foretells every refusal, and a second solver that tries every sharing of the book's jobs tells the least heaviest
// load and the least excess (01: overhang) above every height; the board's answers and its table are held against
// both after each call.
#![tactic(auto)]

use board::{Board, MOST_JOBS};
use counts::Counts;
use outcomes::Outcome;
use random::Seed;
use std::io;
use test_solver::Size;

mod arrivals_and_closings;
mod board;
mod board_faults;
mod calls;
mod counts;
mod damaged_tables;
mod levellings;
mod moved_jobs;
mod outcomes;
mod random;
mod starts;
mod tight_sets;

const RUNS: usize = 2000;

const CALLS: usize = 30;

// Makes a drawn call: one that may change the board, a question, or all calls of 01 on a damaged copy.
fn call(board: &Board, seed: Seed) -> Outcome {
    match seed.below(1, 16) {
        0..=6 => arrivals_and_closings::arrival(board, seed),
        7..=10 => arrivals_and_closings::closing(board, seed),
        11..=13 => levellings::levelling(board, seed),
        _ if seed.below(9, 2) == 0 => arrivals_and_closings::load(board, seed),
        _ => damaged_tables::every_call(board, seed),
    }
}

// Counts a run: on 2 to 5 benches, with 8 job numbers in half of the runs, else fewer.
fn run(seed: Seed, counts: &mut Counts) {
    let size = Size {
        benches: seed.within(1, 4) + 1,
        jobs: seed.within(2, 16).min(MOST_JOBS),
    };
    let mut outcome = starts::begin(size, seed);
    outcome.count(counts);
    let mut next = seed.after(100);
    for _ in 0..CALLS {
        next = next.after(10);
        outcome = call(&outcome.board, next);
        outcome.count(counts);
        counts.add_call();
    }
}

fn main(rt: HostRuntime) -> io::Result<()> {
    let mut counts = Counts::default();
    let mut seed = Seed::first();
    for _ in 0..RUNS {
        seed = seed.after(1000);
        run(seed, &mut counts);
    }
    counts.print(&rt)
}
