// The questions: they change no table byte.
#![tactic(auto)]

ghost use Rattle.std.specs.Prelude.{[]};
ghost use Rattle.spec_calls.specs.Calls.{outcome, ask, load_of, heaviest_load, tight_set_of, form_check, level_check};
ghost use Rattle.spec_table.specs.Table.{decode};
ghost use Rattle.table_size.specs.Sizes.{SoundTable};
ghost use Rattle.table_board.specs.BoardView.{Loaded};
ghost use Rattle.board_answers.specs.Answered.{Leaves};

use board_answers::Answer;
use table_refusals::Refusal;
use table_size::{PerBench, Size};

// Checks the form: sound, or the refusal.
pub fn form_check(t: &[u8]) -> Result<Answer, Refusal>
    ensures { Leaves (outcome (ask form_check []) t.now) result t.now [] }
{
    let mut loads = [0; Size::MOST_BENCHES + 1];
    table_form::check(t, &mut loads)?;
    Ok(Answer::Sound)
}

// Checks whether no path improves.
pub fn level_check(t: &[u8]) -> Result<Answer, Refusal>
    ensures { Leaves (outcome (ask level_check []) t.now) result t.now [] }
{
    // Serves the form check first: one array less to clear.
    let mut queue = [0; Size::MOST_BENCHES + 1];
    let mut loads = [0; Size::MOST_BENCHES + 1];
    let form = table_form::check_with(t, &mut queue, &mut loads)?;
    if sharing_levelling::is_level(t, form.size, form.rising, &loads, &mut queue) {
        Ok(Answer::Level)
    } else {
        Ok(Answer::NotLevel)
    }
}

// Answers the load of a bench.
pub fn load(t: &[u8], bench: usize) -> Result<Answer, Refusal>
    ensures { Leaves (outcome (ask (load_of bench) []) t.now) result t.now [] }
{
    let mut loads = [0; Size::MOST_BENCHES + 1];
    let form = table_form::check(t, &mut loads)?;
    if !form.size.has_bench(bench) {
        return Err(Refusal::BenchNumber);
    }
    Ok(Answer::Load(usize::from(loads[bench])))
}

// Answers the heaviest load.
pub fn heaviest(t: &[u8]) -> Result<Answer, Refusal>
    ensures { Leaves (outcome (ask heaviest_load []) t.now) result t.now [] }
{
    let mut loads = [0; Size::MOST_BENCHES + 1];
    let form = table_form::check(t, &mut loads)?;
    Ok(Answer::Heaviest(sharing_loads::find_heaviest(t, form.size, &loads).load))
}

// Lists the tight set on a sound table, or refuses with 7 or 8, in this order.
fn tight_set_on(
    t: &[u8],
    s: Size,
    loads: &PerBench<u16>,
    height: usize,
    list: &mut [u8],
) -> Result<Answer, Refusal>
    requires sound_table { SoundTable t.now s }
    requires loaded { Loaded (decode t.now) loads.now }
    ensures { Leaves (outcome (ask (tight_set_of height) list.old) t.now) result
        t.now list.new }
{
    if height == 0 {
        return Err(Refusal::Height);
    }
    let mut marks = [false; Size::MOST_BENCHES + 1];
    let extent = sharing_tight_set::tight_set(t, s, loads, height, &mut marks);
    // No bench has this load: the height is above the heaviest.
    if extent.benches == 0 {
        return Err(Refusal::Height);
    }
    if list.len() < 2 * extent.benches {
        return Err(Refusal::ListTooShort);
    }
    sharing_tight_set::write(s, &marks, list);
    Ok(Answer::TightSet(extent.benches, extent.jobs))
}

// Lists the tight set of a height: its benches, rising, as words at the list's beginning.
pub fn tight_set(t: &[u8], height: usize, list: &mut [u8]) -> Result<Answer, Refusal>
    ensures { Leaves (outcome (ask (tight_set_of height) list.old) t.now) result
        t.now list.new }
{
    let mut loads = [0; Size::MOST_BENCHES + 1];
    let form = table_form::check(t, &mut loads)?;
    tight_set_on(t, form.size, &loads, height, list)
}
