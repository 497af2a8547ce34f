// Levelling, held against itself one path at a time.
use crate::board::Board;
use crate::board_faults::loads;
use crate::calls::{Call, perform};
use crate::counts::{Deed, Fault};
use crate::outcomes::Outcome;
use crate::random::Seed;
use board_answers::Answer;
use test_solver::MOST_BENCHES;
use test_solver::bench_loads::Loads;

// More paths than a board here can need.
const MANY: u32 = 200;

// Gives the first bench whose load is above its load in the other list.
fn first_above(upper: &Loads, lower: &Loads) -> Option<usize> {
    (1..MOST_BENCHES + 1).find(|&bench| lower.of(bench) < upper.of(bench))
}

// Tells whether one bench has one job less and one has one more, and the first was at least two above the other.
fn improved(before: &Loads, after: &Loads) -> bool {
    let (Some(from), Some(to)) = (first_above(before, after), first_above(after, before)) else {
        return false;
    };
    let gap = before.of(from).saturating_sub(before.of(to));
    gap >= 2 && after.with_one_more(from) == before.with_one_more(to)
}

// Counts the paths that level a board, one at a time; none if one of them is wrong.
fn paths_needed(board: &Board) -> Option<u32> {
    let mut at = *board;
    for paths in 0..MANY {
        let reply = perform(&at, Call::Levelling(1));
        let before = loads(&at)?;
        let after = loads(&reply.board)?;
        match reply.answer {
            Ok(Answer::Levelled(0)) if before == after => return Some(paths),
            Ok(Answer::Levelled(1) | Answer::Stopped(1)) if improved(&before, &after) => {}
            _ => return None,
        }
        at = reply.board;
    }
    None
}

// Draws 0 to 3, or no limit to speak of.
fn allowance(seed: Seed) -> u32 {
    match seed.below(2, 8) {
        few @ 0..=3 => few as u32,
        _ => u32::MAX,
    }
}

// Makes a drawn levelling. It turns as many paths as are needed or allowed, and says "level" exactly if no more were
// needed, as on a board that was level.
pub fn levelling(board: &Board, seed: Seed) -> Outcome {
    let Some(needed) = paths_needed(board) else {
        return Outcome::new(*board, Deed::Answered, false, Fault::Levelling);
    };
    let allowed = allowance(seed);
    let to_the_end = needed <= allowed;
    let (due, deed) = if to_the_end {
        (Answer::Levelled(needed), Deed::Levelled(needed))
    } else {
        (Answer::Stopped(allowed), Deed::Stopped(allowed))
    };
    let reply = perform(board, Call::Levelling(allowed));
    let right = reply.answer == Ok(due) && (to_the_end || !board.level);
    let mut after = reply.board;
    after.level |= to_the_end;
    Outcome::new(after, deed, right, Fault::Levelling)
}
