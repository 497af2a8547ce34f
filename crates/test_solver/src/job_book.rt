// The job book: for each job number nothing, or the two benches that the job names.
ghost use Rattle.std.specs.Prelude.{◌≤◌};

use crate::bench_loads::{Excesses, Loads};
use crate::{MOST_JOBS, Size};

// Why a call is to be refused, with document 01's number.
// Kept: beside the board's own enum, what may not change: the solver takes nothing from what it tests.
#[derive(Clone, Copy, PartialEq, Eq)]
pub enum Refusal {
    Sizes = 1,
    Unsound = 2,
    JobNumber = 3,
    BenchNumber = 4,
    AlreadyStanding = 5,
    NotStanding = 6,
    Height = 7,
    ListTooShort = 8,
}

impl Refusal {
    // Gives its number.
    pub fn number(self) -> u32 {
        self as u32
    }
}

#[derive(Clone, Copy)]
pub struct Book {
    // Job 1 comes first.
    in_order: [Option<(usize, usize)>; MOST_JOBS],
}

impl Book {
    // Gives the book of a blank board.
    pub fn empty() -> Book {
        Book {
            in_order: [None; MOST_JOBS],
        }
    }

    // Gives the benches that a standing job names.
    pub fn benches_of(&self, job: usize) -> Option<(usize, usize)> {
        self.in_order.get(job.wrapping_sub(1)).copied().flatten()
    }

    // Tells whether a job stands.
    pub fn stands(&self, job: usize) -> bool {
        self.benches_of(job).is_some()
    }

    // Writes the benches under the job number, or strikes the job out.
    pub fn write(&mut self, job: usize, benches: Option<(usize, usize)>) {
        if let Some(named) = self.in_order.get_mut(job.wrapping_sub(1)) {
            *named = benches;
        }
    }

    // Counts the standing jobs.
    pub fn standing(&self) -> usize
        ensures { result ≤ 10 }
    {
        self.in_order.iter().filter(|named| named.is_some()).count()
    }

    // Tells whether an arrival is to be accepted, or why not.
    pub fn arrival(
        &self,
        size: Size,
        job: usize,
        first: usize,
        second: usize,
    ) -> Result<(), Refusal> {
        if !size.has_job(job) {
            return Err(Refusal::JobNumber);
        }
        if !size.has_bench(first) || !size.has_bench(second) || first == second {
            return Err(Refusal::BenchNumber);
        }
        if self.stands(job) {
            return Err(Refusal::AlreadyStanding);
        }
        Ok(())
    }

    // Tells whether a closing is to be accepted, or why not.
    pub fn closing(&self, size: Size, job: usize) -> Result<(), Refusal> {
        if !size.has_job(job) {
            return Err(Refusal::JobNumber);
        }
        if !self.stands(job) {
            return Err(Refusal::NotStanding);
        }
        Ok(())
    }

    // Counts the sharings: each standing job goes to one of two benches.
    fn sharings(&self) -> usize {
        1 << self.standing()
    }

    // Counts the loads of a sharing. Each binary digit of its number, from the lowest, says which of its two benches a
    // standing job goes to.
    fn loads_of(&self, sharing: usize) -> Loads {
        let mut loads = Loads::none();
        let mut rest = sharing;
        for &(first, second) in self.in_order.iter().flatten() {
            loads.add(if rest % 2 == 0 { first } else { second }, 1);
            rest /= 2;
        }
        loads
    }

    // Gives the least heaviest load of all sharings.
    pub fn least_heaviest(&self) -> usize {
        (0..self.sharings())
            .map(|sharing| self.loads_of(sharing).heaviest())
            .min()
            .unwrap_or(0)
    }

    // Gives the least excess of all sharings above each height from 0 to 10.
    pub fn least_excesses(&self) -> Excesses {
        let mut least = [usize::MAX; MOST_JOBS + 1];
        for sharing in 0..self.sharings() {
            let excesses = self.loads_of(sharing).excesses();
            for (least, excess) in least.iter_mut().zip(excesses) {
                *least = excess.min(*least);
            }
        }
        least
    }
}
