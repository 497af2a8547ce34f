// The jobs that an arrival or a closing moved, held against the holders before and after.
use crate::board::{Board, MOST_JOBS};
use crate::calls::{Call, Reply, full_list, is_refused_short};
use test_solver::tables::Table;

// The jobs but this one that changed holder, the bench that they lead from, and the one that they come to.
#[derive(Clone, Copy)]
pub struct Moves {
    pub but: usize,
    pub from: Option<usize>,
    pub to: Option<usize>,
    pub count: usize,
}

// Hands a job over, and gives the bench that it comes to; none where it was not held by the bench named.
fn hand_over(table: &mut Table, job: usize, from: Option<usize>) -> Option<usize> {
    let is_held = table.holder(job) == from;
    table.hand_over(job);
    if is_held { table.holder(job) } else { None }
}

// Counts the jobs but this one that have another holder.
pub fn moved(before: &Table, after: &Table, but: usize) -> usize {
    (1..MOST_JOBS + 1)
        .filter(|&job| job != but && before.holder(job) != after.holder(job))
        .count()
}

impl Moves {
    // Tells whether the jobs listed, handed over one after the other, lead from one bench to the other and leave every
    // job but this one with the holder that it has after the call, and whether the list behind them is as it was lent.
    // As so many jobs have another holder, none is listed twice.
    pub fn are_listed(&self, before: &Board, reply: &Reply) -> bool {
        let mut table = before.table;
        let mut bench = self.from;
        let mut rest = reply.list;
        for k in 0..self.count.min(MOST_JOBS) {
            bench = hand_over(&mut table, rest.word(k), bench);
            rest.put(k, 65535);
        }
        bench.is_some()
            && bench == self.to
            && moved(&table, &reply.board.table, self.but) == 0
            && rest == full_list()
    }

    // Tells whether the call is refused with 8, and leaves all bytes, where its list is one byte too short for them.
    pub fn need_room(&self, before: &Board, call: Call) -> bool {
        self.count == 0 || is_refused_short(before, call, self.count)
    }
}
