// What a call did to a board.
use crate::board::Board;
use crate::board_faults;
use crate::calls::Reply;
use crate::counts::{Counts, Deed, Fault};
use test_solver::job_book;

// The board after it, what it did, and its fault.
#[derive(Clone, Copy)]
pub struct Outcome {
    pub board: Board,
    deed: Deed,
    fault: Option<Fault>,
}

impl Outcome {
    // Makes an outcome that is right, or has this fault.
    pub fn new(board: Board, deed: Deed, right: bool, fault: Fault) -> Outcome {
        Outcome {
            board,
            deed,
            fault: if right { None } else { Some(fault) },
        }
    }

    // Makes the outcome of a call that does not answer as an accepted one: right if it is refused as is due.
    pub fn refused(before: &Board, reply: &Reply, due: Result<(), job_book::Refusal>) -> Outcome {
        let deed = match reply.answer {
            Err(refusal) => Deed::Refused(refusal.number()),
            Ok(_) => Deed::Answered,
        };
        let right = match due {
            Err(refusal) => reply.is_refused(before, refusal),
            Ok(()) => false,
        };
        Outcome::new(reply.board, deed, right, Fault::Refusal)
    }

    // Counts the outcome, and the fault of the board that it left.
    pub fn count(&self, counts: &mut Counts) {
        counts.add_deed(self.deed);
        if let Some(fault) = self.fault {
            counts.add_fault(fault);
        }
        if let Err(fault) = board_faults::check(&self.board) {
            counts.add_fault(fault);
        }
    }
}
