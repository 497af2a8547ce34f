// The board's jobs, one for each pair of its benches.
ghost use Rattle.std.specs.Prelude.{◌≤◌};

pub const BENCHES: usize = 5;

pub const JOBS: usize = 10;

#[derive(Clone, Copy)]
pub struct Job {
    pub number: usize,
    pub first: usize,
    pub second: usize,
    pub ghost number_least: { 1 ≤ number },
    pub ghost number_most: { number ≤ 10 },
}

impl Job {
    fn new(number: usize, first: usize, second: usize) -> Job
        requires least { 1 ≤ number }
        requires most { number ≤ 10 }
    {
        Job {
            number,
            first,
            second,
        }
    }

    // Gives the benches that it names.
    pub fn benches(self) -> (usize, usize) {
        (self.first, self.second)
    }

    // Gives the set that has only this job.
    pub fn alone(self) -> usize {
        1 << (self.number - 1)
    }
}

// Gives the jobs in the order of their numbers.
pub fn in_order() -> [Job; JOBS] {
    [
        Job::new(1, 1, 2),
        Job::new(2, 1, 3),
        Job::new(3, 1, 4),
        Job::new(4, 1, 5),
        Job::new(5, 2, 3),
        Job::new(6, 2, 4),
        Job::new(7, 2, 5),
        Job::new(8, 3, 4),
        Job::new(9, 3, 5),
        Job::new(10, 4, 5),
    ]
}
