// Counts of what was tried and of what was not as it should be.
use std::io::{self, Print};

// What is not as it should be: of a board, then of a call.
#[derive(Clone, Copy)]
pub enum Fault {
    Records,
    Loads,
    LevelCheck,
    Sharing,
    TightSet,
    Refusal,
    Arrival,
    Closing,
    Levelling,
    Damaged,
    Start,
}

// What is printed of each fault, in the same order.
const FAULTS: [&str; 11] = [
    "wrong records",
    "wrong loads",
    "wrong level checks",
    "sharings not the least",
    "wrong tight sets",
    "wrong refusals",
    "wrong arrivals",
    "wrong closings",
    "wrong levellings",
    "damaged tables not refused",
    "wrong starts",
];

// The numbers of the refusals that the runs meet are 1 to this.
const MOST_REFUSAL: usize = 6;

// What a call did. The numbers are jobs moved or paths turned, and of a refusal its number.
#[derive(Clone, Copy)]
pub enum Deed {
    Begun,
    Arrived(usize),
    Closed(usize),
    Levelled(u32),
    Stopped(u32),
    // Kept: the number; no plainer as an enum, since the board's refusal and the solver's are two, and counted alike.
    Refused(u32),
    Answered,
}

// Calls of a kind, and how many jobs they moved or paths they turned.
#[derive(Clone, Copy, Default)]
struct Changes {
    calls: u64,
    changed: u64,
}

impl Changes {
    fn add(&mut self, changed: u64) {
        self.calls = self.calls.wrapping_add(1);
        self.changed = self.changed.wrapping_add(changed);
    }
}

#[derive(Clone, Copy, Default)]
pub struct Counts {
    runs: u64,
    calls: u64,
    arrivals: Changes,
    closings: Changes,
    levelled: Changes,
    stopped: Changes,
    refused: [u64; MOST_REFUSAL],
    faults: [u64; FAULTS.len()],
}

impl Counts {
    // Counts a call of a run.
    pub fn add_call(&mut self) {
        self.calls = self.calls.wrapping_add(1);
    }

    // Counts what a call did.
    pub fn add_deed(&mut self, deed: Deed) {
        match deed {
            Deed::Begun => self.runs = self.runs.wrapping_add(1),
            Deed::Arrived(moved) => self.arrivals.add(moved as u64),
            Deed::Closed(moved) => self.closings.add(moved as u64),
            Deed::Levelled(paths) => self.levelled.add(u64::from(paths)),
            Deed::Stopped(paths) => self.stopped.add(u64::from(paths)),
            Deed::Refused(number) => add_at(&mut self.refused, (number as usize).wrapping_sub(1)),
            Deed::Answered => {}
        }
    }

    pub fn add_fault(&mut self, fault: Fault) {
        add_at(&mut self.faults, fault as usize);
    }

    pub fn print(&self, rt: &impl Print) -> io::Result<()> {
        println!(rt; "{} runs", self.runs)?;
        println!(rt; "{} calls", self.calls)?;
        println!(rt;
            "{} arrivals, {} jobs moved",
            self.arrivals.calls, self.arrivals.changed
        )?;
        println!(rt;
            "{} closings, {} jobs moved",
            self.closings.calls, self.closings.changed
        )?;
        println!(rt;
            "{} levellings to the end, {} paths turned",
            self.levelled.calls, self.levelled.changed
        )?;
        println!(rt;
            "{} levellings stopped, {} paths turned",
            self.stopped.calls, self.stopped.changed
        )?;
        for (i, count) in self.refused.iter().enumerate() {
            println!(rt; "{count} refused with {}", i + 1)?;
        }
        for (count, fault) in self.faults.iter().zip(FAULTS) {
            println!(rt; "{count} {fault}")?;
        }
        Ok(())
    }
}

// Adds one to the count at a place, if there is one.
fn add_at(counts: &mut [u64], place: usize) {
    if let Some(count) = counts.get_mut(place) {
        *count = count.wrapping_add(1);
    }
}
