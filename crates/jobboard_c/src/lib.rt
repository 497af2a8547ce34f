// What a C program links with: each call of `jobboard` under its own name, by its own clause. A slice is passed as a
// pointer and its length in bytes.
// Kept: a function for each of `jobboard`'s, the C interface: one exported name stands for one call.
#![tactic(auto)]

ghost use Rattle.std.specs.Prelude.{[], ◌∷◌};
ghost use Rattle.spec_calls.specs.Calls.{outcome, blanking, arrival, closing, levelling, ask, load_of, heaviest_load, tight_set_of, form_check, level_check, wall_sheet, between};
ghost use Rattle.jobboard.specs.Desk.{Reported};

// Writes a table without jobs; 1 where the length is not that of so many benches and jobs.
#[unsafe(no_mangle)]
pub extern "C" fn jobboard_blank(table: &mut [u8], benches: u32, jobs: u32) -> u32
    ensures { Reported (blanking benches jobs table.old) result table.new [] [] [] }
{
    jobboard::jobboard_blank(table, benches, jobs)
}

// Checks the form: 0 for a sound table, 1 where its sizes do not fit, else 2.
#[unsafe(no_mangle)]
pub extern "C" fn jobboard_check(table: &[u8]) -> u32
    ensures { Reported (outcome (ask form_check []) table.now) result table.now [] [] [] }
{
    jobboard::jobboard_check(table)
}

// Takes in a job that names two benches; the other jobs that move go as words to the list's beginning. Results: the bench
// that holds it in the end, the bench whose load rose, the other jobs moved.
#[unsafe(no_mangle)]
pub extern "C" fn jobboard_arrival(
    table: &mut [u8],
    job: u32,
    first: u32,
    second: u32,
    list: &mut [u8],
    holder: &mut u32,
    rose: &mut u32,
    moved: &mut u32,
) -> u32
    ensures { Reported
        (outcome (arrival (record { job = job; given = first ∷ second ∷ []; list = list.old }))
        table.old)
        result table.new list.new (holder.old ∷ rose.old ∷ moved.old ∷ [])
        (holder.new ∷ rose.new ∷ moved.new ∷ []) }
{
    jobboard::jobboard_arrival(table, job, first, second, list, holder, rose, moved)
}

// Closes a standing job; the jobs that move go as words to the list's beginning. Results: the bench whose load fell, the
// jobs moved.
#[unsafe(no_mangle)]
pub extern "C" fn jobboard_closing(
    table: &mut [u8],
    job: u32,
    list: &mut [u8],
    fell: &mut u32,
    moved: &mut u32,
) -> u32
    ensures { Reported (outcome (closing (record { job = job; list = list.old })) table.old) result
        table.new list.new (fell.old ∷ moved.old ∷ [])
        (fell.new ∷ moved.new ∷ []) }
{
    jobboard::jobboard_closing(table, job, list, fell, moved)
}

// Levels within an allowance of paths. Results: the paths turned, and 1 for level or 0 for stopped.
#[unsafe(no_mangle)]
pub extern "C" fn jobboard_levelling(
    table: &mut [u8],
    allowance: u32,
    paths: &mut u32,
    level: &mut u32,
) -> u32
    ensures { Reported (outcome (levelling allowance) table.old) result table.new []
        (paths.old ∷ level.old ∷ []) (paths.new ∷ level.new ∷ []) }
{
    jobboard::jobboard_levelling(table, allowance, paths, level)
}

// Checks whether no path improves. Result: 1 for yes, 0 for no.
#[unsafe(no_mangle)]
pub extern "C" fn jobboard_level_check(table: &[u8], level: &mut u32) -> u32
    ensures { Reported (outcome (ask level_check []) table.now) result table.now []
        (level.old ∷ []) (level.new ∷ []) }
{
    jobboard::jobboard_level_check(table, level)
}

// Reports the load of a bench.
#[unsafe(no_mangle)]
pub extern "C" fn jobboard_load(table: &[u8], bench: u32, load: &mut u32) -> u32
    ensures { Reported (outcome (ask (load_of bench) []) table.now) result table.now []
        (load.old ∷ []) (load.new ∷ []) }
{
    jobboard::jobboard_load(table, bench, load)
}

// Reports the heaviest load.
#[unsafe(no_mangle)]
pub extern "C" fn jobboard_heaviest(table: &[u8], load: &mut u32) -> u32
    ensures { Reported (outcome (ask heaviest_load []) table.now) result table.now []
        (load.old ∷ []) (load.new ∷ []) }
{
    jobboard::jobboard_heaviest(table, load)
}

// Writes the tight set of a height: its benches, rising, as words at the list's beginning. Results: benches in the
// set, jobs inside.
#[unsafe(no_mangle)]
pub extern "C" fn jobboard_tight_set(
    table: &[u8],
    height: u32,
    list: &mut [u8],
    benches: &mut u32,
    jobs: &mut u32,
) -> u32
    ensures { Reported (outcome (ask (tight_set_of height) list.old) table.now) result
        table.now list.new (benches.old ∷ jobs.old ∷ [])
        (benches.new ∷ jobs.new ∷ []) }
{
    jobboard::jobboard_tight_set(table, height, list, benches, jobs)
}

// Writes the wall sheet at the page's beginning. Result: its length.
#[unsafe(no_mangle)]
pub extern "C" fn jobboard_sheet(table: &[u8], page: &mut [u8], length: &mut u32) -> u32
    ensures { Reported (outcome (ask wall_sheet page.old) table.now) result
        table.now page.new (length.old ∷ []) (length.new ∷ []) }
{
    jobboard::jobboard_sheet(table, page, length)
}

// Answers whether there is a job between two benches, on a table that nobody checked. Results: such a job, the lowest
// where all chains rise, 0 for none; the records read.
#[unsafe(no_mangle)]
pub extern "C" fn jobboard_between(
    table: &[u8],
    first: u32,
    second: u32,
    job: &mut u32,
    records: &mut u32,
) -> u32
    ensures { Reported (outcome (between first second) table.now) result table.now []
        (job.old ∷ records.old ∷ []) (job.new ∷ records.new ∷ []) }
{
    jobboard::jobboard_between(table, first, second, job, records)
}
