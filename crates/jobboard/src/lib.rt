// The calls for C programs, over numbers and the table's bytes; `jobboard_c` exports them. Each returns the refusal's
// number, or 0. Results go through lent numbers, which a refused call leaves alone.
// Kept: a u32 made a usize by `as`; the new form is no plainer: `usize::try_from(job)` wants a refusal that never comes.
#![tactic(auto)]

ghost use Rattle.std.specs.Prelude.{[], ◌∷◌};
ghost use Rattle.spec_calls.specs.Calls.{outcome, blanking, arrival, closing, levelling, ask, load_of, heaviest_load, tight_set_of, form_check, level_check, wall_sheet, between};
ghost use Rattle.jobboard.specs.Desk.{Reported};

// Writes a table without jobs; 1 where the length is not that of so many benches and jobs.
pub fn jobboard_blank(table: &mut [u8], benches: u32, jobs: u32) -> u32
    ensures { Reported (blanking benches jobs table.old) result table.new [] [] [] }
{
    board_answers::number(board_changes::blank(table, benches as usize, jobs as usize))
}

// Checks the form: 0 for a sound table, 1 where its sizes do not fit, else 2.
pub fn jobboard_check(table: &[u8]) -> u32
    ensures { Reported (outcome (ask form_check []) table.now) result table.now [] [] [] }
{
    board_answers::number(board_questions::form_check(table))
}

// Takes in a job that names two benches; the other jobs that move go as words to the list's beginning. Results: the bench
// that holds it in the end, the bench whose load rose, the other jobs moved.
pub fn jobboard_arrival(
    table: &mut [u8],
    job: u32,
    first: u32,
    second: u32,
    list: &mut [u8],
    holder: &mut u32,
    rose: &mut u32,
    moved: &mut u32,
) -> u32
    ensures { Reported
        (outcome (arrival (record { job = job; given = first ∷ second ∷ []; list = list.old }))
        table.old)
        result table.new list.new (holder.old ∷ rose.old ∷ moved.old ∷ [])
        (holder.new ∷ rose.new ∷ moved.new ∷ []) }
{
    jobboard_report::three(
        board_changes::arrival(table, job as usize, first as usize, second as usize, list),
        holder,
        rose,
        moved,
    )
}

// Closes a standing job; the jobs that move go as words to the list's beginning. Results: the bench whose load fell, the
// jobs moved.
pub fn jobboard_closing(
    table: &mut [u8],
    job: u32,
    list: &mut [u8],
    fell: &mut u32,
    moved: &mut u32,
) -> u32
    ensures { Reported (outcome (closing (record { job = job; list = list.old })) table.old) result
        table.new list.new (fell.old ∷ moved.old ∷ [])
        (fell.new ∷ moved.new ∷ []) }
{
    let answer = board_changes::closing(table, job as usize, list);
    jobboard_report::two(answer, fell, moved)
}

// Levels within an allowance of paths. Results: the paths turned, and 1 for level or 0 for stopped.
pub fn jobboard_levelling(table: &mut [u8], allowance: u32, paths: &mut u32, level: &mut u32) -> u32
    ensures { Reported (outcome (levelling allowance) table.old) result table.new []
        (paths.old ∷ level.old ∷ []) (paths.new ∷ level.new ∷ []) }
{
    jobboard_report::two(board_changes::levelling(table, allowance), paths, level)
}

// Checks whether no path improves. Result: 1 for yes, 0 for no.
pub fn jobboard_level_check(table: &[u8], level: &mut u32) -> u32
    ensures { Reported (outcome (ask level_check []) table.now) result table.now []
        (level.old ∷ []) (level.new ∷ []) }
{
    jobboard_report::one(board_questions::level_check(table), level)
}

// Reports the load of a bench.
pub fn jobboard_load(table: &[u8], bench: u32, load: &mut u32) -> u32
    ensures { Reported (outcome (ask (load_of bench) []) table.now) result table.now []
        (load.old ∷ []) (load.new ∷ []) }
{
    jobboard_report::one(board_questions::load(table, bench as usize), load)
}

// Reports the heaviest load.
pub fn jobboard_heaviest(table: &[u8], load: &mut u32) -> u32
    ensures { Reported (outcome (ask heaviest_load []) table.now) result table.now []
        (load.old ∷ []) (load.new ∷ []) }
{
    jobboard_report::one(board_questions::heaviest(table), load)
}

// Writes the tight set of a height: its benches, rising, as words at the list's beginning. Results: benches in the
// set, jobs inside.
pub fn jobboard_tight_set(
    table: &[u8],
    height: u32,
    list: &mut [u8],
    benches: &mut u32,
    jobs: &mut u32,
) -> u32
    ensures { Reported (outcome (ask (tight_set_of height) list.old) table.now) result
        table.now list.new (benches.old ∷ jobs.old ∷ [])
        (benches.new ∷ jobs.new ∷ []) }
{
    jobboard_report::two(
        board_questions::tight_set(table, height as usize, list),
        benches,
        jobs,
    )
}

// Writes the wall sheet at the page's beginning. Result: its length.
pub fn jobboard_sheet(table: &[u8], page: &mut [u8], length: &mut u32) -> u32
    ensures { Reported (outcome (ask wall_sheet page.old) table.now) result
        table.now page.new (length.old ∷ []) (length.new ∷ []) }
{
    jobboard_report::one(board_sheet::sheet(table, page), length)
}

// Answers whether there is a job between two benches, on a table that nobody checked. Results: such a job, the lowest
// where all chains rise, 0 for none; the records read.
pub fn jobboard_between(
    table: &[u8],
    first: u32,
    second: u32,
    job: &mut u32,
    records: &mut u32,
) -> u32
    ensures { Reported (outcome (between first second) table.now) result table.now []
        (job.old ∷ records.old ∷ []) (job.new ∷ records.new ∷ []) }
{
    jobboard_report::two(
        board_pair::between(table, first as usize, second as usize),
        job,
        records,
    )
}
