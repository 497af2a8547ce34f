// A second solver, for tests: it tries every sharing of a book's jobs. Beside it, what a test needs to keep a job
// book and to read and write tables. Nothing here uses the board's own code.
//
// Benches are numbered 1 to 5 here, jobs 1 to 10.
#![tactic(auto)]

ghost use Rattle.std.specs.Prelude.{◌≤◌};

pub mod bench_loads;
pub mod job_book;
pub mod tables;
pub mod words;

pub const MOST_BENCHES: usize = 5;

pub const MOST_JOBS: usize = 10;

// How many benches and jobs a board has.
#[derive(Clone, Copy)]
pub struct Size {
    pub benches: usize,
    pub jobs: usize,
    pub ghost benches_most: { benches ≤ 5 },
    pub ghost jobs_most: { jobs ≤ 10 },
}

impl Size {
    // Tells whether the board has a bench of this number.
    pub fn has_bench(self, bench: usize) -> bool {
        1 <= bench && bench <= self.benches
    }

    // Tells whether the board has a job number as this.
    pub fn has_job(self, job: usize) -> bool {
        1 <= job && job <= self.jobs
    }
}
