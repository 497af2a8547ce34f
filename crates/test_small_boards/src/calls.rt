// The board's calls, each with a list beside the table.
use crate::board::Board;
use board_answers::Answer;
use table_refusals::Refusal;
use test_solver::job_book;
use test_solver::words::{SPACE, Words};

#[derive(Clone, Copy)]
pub enum Call {
    Blank(usize, usize),
    Arrival(usize, usize, usize),
    Closing(usize),
    Levelling(u32),
    Load(usize),
    Heaviest,
    FormCheck,
    LevelCheck,
    TightSet(usize),
}

// What a call left and answered.
#[derive(Clone, Copy)]
pub struct Reply {
    pub board: Board,
    pub list: Words,
    pub answer: Result<Answer, Refusal>,
}

impl Reply {
    // Tells whether the call left all bytes, of the table and of the list.
    pub fn left_all(&self, before: &Board) -> bool {
        self.board.table.words == before.table.words && self.list == full_list()
    }

    // Tells whether the call was refused with the number that is due and left all bytes.
    pub fn is_refused(&self, before: &Board, due: job_book::Refusal) -> bool {
        board_answers::number(self.answer) == due.number() && self.left_all(before)
    }
}

// Gives a list as it is lent.
pub fn full_list() -> Words {
    Words::all(255)
}

fn answer(t: &mut [u8], list: &mut [u8], call: Call) -> Result<Answer, Refusal> {
    match call {
        Call::Blank(benches, jobs) => board_changes::blank(t, benches, jobs),
        Call::Arrival(job, first, second) => board_changes::arrival(t, job, first, second, list),
        Call::Closing(job) => board_changes::closing(t, job, list),
        Call::Levelling(allowance) => board_changes::levelling(t, allowance),
        Call::Load(bench) => board_questions::load(t, bench),
        Call::Heaviest => board_questions::heaviest(t),
        Call::FormCheck => board_questions::form_check(t),
        Call::LevelCheck => board_questions::level_check(t),
        Call::TightSet(height) => board_questions::tight_set(t, height, list),
    }
}

// Makes a call on a board, with a list of so many bytes.
fn perform_with(board: &Board, call: Call, room: usize) -> Reply {
    let mut left = *board;
    let mut list = full_list();
    let answer = answer(
        &mut left.table.words.bytes[..board.length.min(SPACE)],
        &mut list.bytes[..room.min(SPACE)],
        call,
    );
    Reply {
        board: left,
        list,
        answer,
    }
}

// Makes a call on a board, with a list that is longer than any call needs.
pub fn perform(board: &Board, call: Call) -> Reply {
    perform_with(board, call, SPACE)
}

// Tells whether a call is refused with 8, and leaves all bytes, where its list is one byte too short for so many words.
pub fn is_refused_short(board: &Board, call: Call, words: usize) -> bool {
    let room = words.wrapping_mul(2).wrapping_sub(1);
    perform_with(board, call, room).is_refused(board, job_book::Refusal::ListTooShort)
}
