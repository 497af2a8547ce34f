// Arrivals and closings, each held against what the book foretells and against the loads and holders before and
// after; and the load of a bench.
use crate::board::Board;
use crate::board_faults::loads;
use crate::calls::{Call, perform};
use crate::counts::{Deed, Fault};
use crate::moved_jobs::{Moves, moved};
use crate::outcomes::Outcome;
use crate::random::Seed;
use board_answers::Answer;
use test_solver::job_book::Refusal;

// Tells whether one more job stands on exactly this bench of the upper board, and so many jobs but this one have
// another holder.
fn one_more(lower: &Board, upper: &Board, bench: usize, job: usize, count: usize) -> bool {
    let (Some(below), Some(above)) = (loads(lower), loads(upper)) else {
        return false;
    };
    lower.table.size.has_bench(bench)
        && below.with_one_more(bench) == above
        && moved(&lower.table, &upper.table, job) == count
}

// Makes a drawn arrival. If it is accepted, the load of the bench that rose is one more, the new job's holder and the
// number of jobs moved are true, and the moved jobs lead from that holder to the bench that rose.
pub fn arrival(board: &Board, seed: Seed) -> Outcome {
    let size = board.table.size;
    let job = seed.number(2, size.jobs);
    let first = seed.number(4, size.benches);
    let second = seed.number(6, size.benches);
    let due = board.book.arrival(size, job, first, second);
    let call = Call::Arrival(job, first, second);
    let reply = perform(board, call);
    let Ok(Answer::Arrived(holder, rose, count)) = reply.answer else {
        return Outcome::refused(board, &reply, due);
    };
    let mut after = reply.board;
    after.book.write(job, Some((first, second)));
    let moves = Moves {
        but: job,
        from: Some(holder),
        to: Some(rose),
        count,
    };
    let right = due.is_ok()
        && size.has_bench(holder)
        && after.table.holder(job) == Some(holder)
        && one_more(board, &after, rose, job, count)
        && moves.are_listed(board, &reply)
        && moves.need_room(board, call);
    Outcome::new(after, Deed::Arrived(count), right, Fault::Arrival)
}

// Makes a drawn closing. If it is accepted, the load of the bench that fell is one less, the number of jobs moved is
// true, and the moved jobs lead from the bench that fell to the one that held the closed job.
pub fn closing(board: &Board, seed: Seed) -> Outcome {
    let size = board.table.size;
    let job = seed.number(2, size.jobs);
    let due = board.book.closing(size, job);
    let call = Call::Closing(job);
    let reply = perform(board, call);
    let Ok(Answer::Closed(fell, count)) = reply.answer else {
        return Outcome::refused(board, &reply, due);
    };
    let mut after = reply.board;
    after.book.write(job, None);
    let moves = Moves {
        but: job,
        from: Some(fell),
        to: board.table.holder(job),
        count,
    };
    let right = due.is_ok()
        && one_more(&after, board, fell, job, count)
        && moves.are_listed(board, &reply)
        && moves.need_room(board, call);
    Outcome::new(after, Deed::Closed(count), right, Fault::Closing)
}

// Asks for the load of a drawn bench. It is refused exactly if the board has no such bench.
pub fn load(board: &Board, seed: Seed) -> Outcome {
    let size = board.table.size;
    let bench = seed.number(2, size.benches);
    let reply = perform(board, Call::Load(bench));
    if !size.has_bench(bench) {
        return Outcome::refused(board, &reply, Err(Refusal::BenchNumber));
    }
    let right = matches!(reply.answer, Ok(Answer::Load(_))) && reply.left_all(board);
    Outcome::new(reply.board, Deed::Answered, right, Fault::Refusal)
}
