// A board after a call, held against its job book and against the second solver.
use crate::board::Board;
use crate::calls::{Call, perform};
use crate::counts::Fault;
use crate::tight_sets;
use board_answers::Answer;
use test_solver::bench_loads::Loads;

// Asks for the loads of all benches; none if one is not told.
pub fn loads(board: &Board) -> Option<Loads> {
    let mut loads = Loads::none();
    for bench in 1..board.table.size.benches + 1 {
        let Ok(Answer::Load(load)) = perform(board, Call::Load(bench)).answer else {
            return None;
        };
        loads.add(bench, load);
    }
    Some(loads)
}

// Looks at heaviest load, level check and sharing. A board is level exactly if its excesses are the least of all
// sharings; where it is known to be, its heaviest load is the least too.
fn check_loads(board: &Board, loads: &Loads) -> Result<(), Fault> {
    let heaviest = loads.heaviest();
    if perform(board, Call::Heaviest).answer != Ok(Answer::Heaviest(heaviest)) {
        return Err(Fault::Loads);
    }
    let is_least = loads.excesses() == board.book.least_excesses();
    let told = if is_least {
        Answer::Level
    } else {
        Answer::NotLevel
    };
    if perform(board, Call::LevelCheck).answer != Ok(told) {
        return Err(Fault::LevelCheck);
    }
    let is_lightest = heaviest == board.book.least_heaviest();
    if board.level && !(is_least && is_lightest) {
        return Err(Fault::Sharing);
    }
    Ok(())
}

// Looks for what is not as it should be.
pub fn check(board: &Board) -> Result<(), Fault> {
    let is_sound = perform(board, Call::FormCheck).answer == Ok(Answer::Sound);
    if !is_sound || !board.table.fits(&board.book) {
        return Err(Fault::Records);
    }
    let loads = loads(board).ok_or(Fault::Loads)?;
    if board.table.loads_held() != loads {
        return Err(Fault::Loads);
    }
    check_loads(board, &loads)?;
    if !tight_sets::are_right(board, &loads) {
        return Err(Fault::TightSet);
    }
    Ok(())
}
