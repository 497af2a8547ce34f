// The loads of a board's benches, and what is weighed of them.
use crate::{MOST_BENCHES, MOST_JOBS};

// The excess above each height from 0.
pub type Excesses = [usize; MOST_JOBS + 1];

// The load of each bench.
#[derive(Clone, Copy, PartialEq, Eq)]
pub struct Loads {
    // Bench 1 comes first.
    in_order: [usize; MOST_BENCHES],
}

impl Loads {
    // Gives the loads of a board without jobs.
    pub fn none() -> Loads {
        Loads {
            in_order: [0; MOST_BENCHES],
        }
    }

    // Gives the load of a bench; 0 for a bench that there is not.
    pub fn of(&self, bench: usize) -> usize {
        self.in_order
            .get(bench.wrapping_sub(1))
            .copied()
            .unwrap_or(0)
    }

    // Puts more jobs on a bench, if there is one.
    pub fn add(&mut self, bench: usize, jobs: usize) {
        if let Some(load) = self.in_order.get_mut(bench.wrapping_sub(1)) {
            *load = load.wrapping_add(jobs);
        }
    }

    // Gives these loads with one more job on a bench.
    pub fn with_one_more(&self, bench: usize) -> Loads {
        let mut more = *self;
        more.add(bench, 1);
        more
    }

    // 01: overhang. Adds up each load above the height less the height.
    pub fn excess(&self, height: usize) -> usize {
        let mut sum: usize = 0;
        for load in &self.in_order {
            sum = sum.wrapping_add(load.saturating_sub(height));
        }
        sum
    }

    // Gives the excess above each height from 0 to 10.
    pub fn excesses(&self) -> Excesses {
        let mut excesses = [0; MOST_JOBS + 1];
        for (height, excess) in excesses.iter_mut().enumerate() {
            *excess = self.excess(height);
        }
        excesses
    }

    // Gives the heaviest load.
    pub fn heaviest(&self) -> usize {
        self.in_order.iter().copied().max().unwrap_or(0)
    }
}
