// The calls that write a table: blanking, arrival, closing, levelling.
#![tactic(auto)]

ghost use Rattle.std.specs.Prelude.{[], ◌∷◌};
ghost use Rattle.spec_calls.specs.Calls.{blanking, outcome, arrival, closing, levelling};
ghost use Rattle.table_form.specs.FormCheck.{FoundSound};
ghost use Rattle.board_answers.specs.Answered.{Leaves};

use board_answers::Answer;
use table_board::jobs;
use table_form::Sound;
use table_refusals::Refusal;
use table_size::{PerBench, Size};

// Blanks a table for so many benches and jobs. Old bytes are not looked at.
pub fn blank(t: &mut [u8], benches: usize, jobs: usize) -> Result<Answer, Refusal>
    ensures { Leaves (blanking benches jobs t.old) result t.new [] }
{
    table_header::blank(t, benches, jobs)?;
    Ok(Answer::Blanked)
}

// Takes in a job on a sound table, or refuses with 3, 4, 5 or 8, in this order.
fn arrival_on(
    t: &mut [u8],
    form: Sound,
    loads: &mut PerBench<u16>,
    path: &mut PerBench<u16>,
    job: usize,
    first: usize,
    second: usize,
    list: &mut [u8],
) -> Result<Answer, Refusal>
    requires found_sound { FoundSound t.old loads.old form.size form.rising }
    ensures { Leaves
        (outcome (arrival (record { job = job; given = first ∷ second ∷ []; list = list.old })) t.old)
        result t.new list.new }
{
    let Sound { size, rising } = form;
    if !size.has_job(job) {
        return Err(Refusal::JobNumber);
    }
    if !size.has_bench(first) || !size.has_bench(second) || first == second {
        return Err(Refusal::BenchNumber);
    }
    if jobs::stands(t, size, job) {
        return Err(Refusal::AlreadyStanding);
    }
    let effect = sharing_changes::arrive(t, size, rising, loads, path, job, first, second, list)?;
    Ok(Answer::Arrived(effect.holder, effect.bench, effect.moved))
}

// Takes in a job that names two benches, and lists the jobs that move.
pub fn arrival(
    t: &mut [u8],
    job: usize,
    first: usize,
    second: usize,
    list: &mut [u8],
) -> Result<Answer, Refusal>
    ensures { Leaves
        (outcome (arrival (record { job = job; given = first ∷ second ∷ []; list = list.old })) t.old)
        result t.new list.new }
{
    // Serves the form check first: one array less to clear.
    let mut path = [0; Size::MOST_BENCHES + 1];
    let mut loads = [0; Size::MOST_BENCHES + 1];
    let form = table_form::check_with(t, &mut path, &mut loads)?;
    arrival_on(t, form, &mut loads, &mut path, job, first, second, list)
}

// Closes a job on a sound table, or refuses with 3, 6 or 8, in this order.
fn closing_on(
    t: &mut [u8],
    form: Sound,
    loads: &mut PerBench<u16>,
    path: &mut PerBench<u16>,
    job: usize,
    list: &mut [u8],
) -> Result<Answer, Refusal>
    requires found_sound { FoundSound t.old loads.old form.size form.rising }
    ensures { Leaves (outcome (closing (record { job = job; list = list.old })) t.old) result
        t.new list.new }
{
    let Sound { size, rising } = form;
    if !size.has_job(job) {
        return Err(Refusal::JobNumber);
    }
    if !jobs::stands(t, size, job) {
        return Err(Refusal::NotStanding);
    }
    let effect = sharing_changes::close(t, size, rising, loads, path, job, list)?;
    Ok(Answer::Closed(effect.bench, effect.moved))
}

// Closes a standing job, and lists the jobs that move.
pub fn closing(t: &mut [u8], job: usize, list: &mut [u8]) -> Result<Answer, Refusal>
    ensures { Leaves (outcome (closing (record { job = job; list = list.old })) t.old) result
        t.new list.new }
{
    // Serves the form check first: one array less to clear.
    let mut path = [0; Size::MOST_BENCHES + 1];
    let mut loads = [0; Size::MOST_BENCHES + 1];
    let form = table_form::check_with(t, &mut path, &mut loads)?;
    closing_on(t, form, &mut loads, &mut path, job, list)
}

// Levels within an allowance of paths.
pub fn levelling(t: &mut [u8], allowance: u32) -> Result<Answer, Refusal>
    ensures { Leaves (outcome (levelling allowance) t.old) result t.new [] }
{
    // Serves the form check first: one array less to clear.
    let mut path = [0; Size::MOST_BENCHES + 1];
    let mut loads = [0; Size::MOST_BENCHES + 1];
    let form = table_form::check_with(t, &mut path, &mut loads)?;
    let levelling = sharing_levelling::relevel(
        t,
        form.size,
        form.rising,
        &mut loads,
        &mut path,
        allowance,
    );
    if levelling.level {
        Ok(Answer::Levelled(levelling.paths))
    } else {
        Ok(Answer::Stopped(levelling.paths))
    }
}
