// Document 01's board "Five benches, one job for each pair, any arrival order: every load 2", in all 3,628,800
// orders, beside a second solver that tries every sharing. Each table on the way is held against that solver's least
// for the jobs that arrived. The orders are taken in dictionary order, and the table of each prefix is kept, so that
// an order makes only the arrivals after the prefix that it shares with the order before.
#![tactic(auto)]

use arrivals::Arrivals;
use jobs::JOBS;
use least::{Least, SETS};
use std::io::{self, Print};

mod arrivals;
mod jobs;
mod least;

// More than there are orders.
const MANY: u64 = 4_000_000;

#[derive(Clone, Copy)]
struct Counts {
    orders: u64,
    uneven: u64,
    compared: u64,
    other: u64,
}

impl Counts {
    // Counts an order that came to its end.
    fn add_order(&mut self, every_load_is_two: bool) {
        self.orders = self.orders.wrapping_add(1);
        self.uneven = self.uneven.wrapping_add(u64::from(!every_load_is_two));
    }

    // Counts a table on the way.
    fn add_table(&mut self, agrees: bool) {
        self.compared = self.compared.wrapping_add(1);
        self.other = self.other.wrapping_add(u64::from(!agrees));
    }

    fn print(&self, rt: &impl Print) -> io::Result<()> {
        println!(rt;
            "{} orders, {} that do not end with every load 2",
            self.orders, self.uneven
        )?;
        print!(rt;
            "{} tables on the way, with {SETS} sets of jobs: ",
            self.compared
        )?;
        println!(rt;
            "{} with other jobs, or a heaviest load or an overhang that is not the second solver's least",
            self.other
        )
    }
}

fn main(rt: HostRuntime) -> io::Result<()> {
    let mut solved = [Least::default(); SETS];
    least::solve(&mut solved);
    let mut arrivals = Arrivals::none();
    let mut counts = Counts {
        orders: 0,
        uneven: 0,
        compared: 0,
        other: 0,
    };
    counts.add_table(arrivals.agree(&solved, 0));
    let mut kept = 0;
    for _ in 0..MANY {
        for jobs in kept..JOBS {
            counts.add_table(arrivals.make(jobs) && arrivals.agree(&solved, jobs + 1));
        }
        counts.add_order(arrivals.end_even());
        let Some(places) = arrivals.next_order() else {
            break;
        };
        kept = places;
    }
    counts.print(&rt)
}
