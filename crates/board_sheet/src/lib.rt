// The wall sheet: a question whose answer is text on a lent page.
#![tactic(auto)]

ghost use Rattle.spec_table.specs.Table.{decode};
ghost use Rattle.spec_calls.specs.Calls.{outcome, ask, wall_sheet};
ghost use Rattle.table_size.specs.Sizes.{SoundTable};
ghost use Rattle.table_board.specs.BoardView.{Loaded};
ghost use Rattle.board_answers.specs.Answered.{Leaves};

use board_answers::Answer;
use table_refusals::Refusal;
use table_size::{PerBench, Size};

// Writes the sheet of a sound table, or refuses with 11 before a byte is written.
fn sheet_on(t: &[u8], s: Size, loads: &PerBench<u16>, page: &mut [u8]) -> Result<Answer, Refusal>
    requires sound_table { SoundTable t.now s }
    requires loaded { Loaded (decode t.now) loads.now }
    ensures { Leaves (outcome (ask wall_sheet page.old) t.now) result
        t.now page.new }
{
    let length = sheet_lines::sheet_length(s, loads);
    if page.len() < length {
        return Err(Refusal::PageTooShort);
    }
    let mut head = [0; Size::MOST_BENCHES + 1];
    let mut next = [0; Size::MOST_JOBS + 1];
    sheet_jobs::list_jobs(t, s, &mut head, &mut next);
    sheet_lines::write(s, loads, &head, &next, page);
    Ok(Answer::Sheet(length))
}

// Writes the sheet at the page's beginning: bench by bench its number, its load and its jobs, rising.
pub fn sheet(t: &[u8], page: &mut [u8]) -> Result<Answer, Refusal>
    ensures { Leaves (outcome (ask wall_sheet page.old) t.now) result
        t.now page.new }
{
    let mut loads = [0; Size::MOST_BENCHES + 1];
    let form = table_form::check(t, &mut loads)?;
    sheet_on(t, form.size, &loads, page)
}
