// Arrival of a job that may arrive. What it hands along is found first, then the list for it is tested, and only then
// anything is written: the list, and the table.
#![tactic(auto)]

ghost use Rattle.std.specs.Prelude.{◌≡◌, [], ◌∷◌, ℕ, ◌≤◌, T};
ghost use Rattle.spec_lists.specs.Lists.{within};
ghost use Rattle.spec_table.specs.Board.{Board};
ghost use Rattle.spec_sharing.specs.Sharing.{lightest_named, arrive};
ghost use Rattle.spec_table.specs.Table.{most_benches, decode, encode};
ghost use Rattle.spec_calls.specs.Calls.{MayArrive};
ghost use Rattle.table_board.specs.BoardView.{HoldsBoard, Loaded};
ghost use Rattle.table_order.specs.InOrder.{InOrder};
ghost use Rattle.sharing_paths.specs.FoundPaths.{JobAt};
ghost use Rattle.sharing_effects.specs.Effects.{lent};
ghost use Rattle.sharing_arrival.specs.ArrivalResult.{ArrivalFound, EntersAt, ArrivalOf};

use sharing_effects::Effect;
use sharing_paths::FoundPath;
use sharing_paths_from::NewJob;
use table_refusals::Refusal;
use table_size::{PerBench, Size};

// Where an arriving job is taken in: the bench that holds it, and the place from which on the path is left.
#[derive(Clone, Copy)]
pub struct Intake {
    pub holder: usize,
    pub place: usize,
}

// Picks the lighter of two benches, the first-named if they are equal.
pub fn lighter(loads: &PerBench<u16>, first: usize, second: usize) -> usize
    requires t { T (within 1 most_benches first) }
    requires t_2 { T (within 1 most_benches second) }
    ensures { (b : Board) → Loaded b loads.now →
        result ≡ lightest_named b.holders (first ∷ second ∷ []) }
{
    if loads[second] < loads[first] {
        second
    } else {
        first
    }
}

// Finds what an arrival of job j at x, the lighter of its two benches, hands along: the path's jobs into `path`. The
// loads get the new job, since the search reads them; nothing reads them afterwards.
pub fn find_arrival(
    t: &[u8],
    s: Size,
    loads: &mut PerBench<u16>,
    j: usize,
    first: usize,
    second: usize,
    x: usize,
    path: &mut PerBench<u16>,
) -> FoundPath
    requires in_order { InOrder t.now s }
    requires may_arrive { MayArrive (decode t.now) j (first ∷ second ∷ []) }
    requires loaded { Loaded (decode t.now) loads.old }
    requires x_value { x ≡ lightest_named (decode t.now).holders (first ∷ second ∷ []) }
    ensures { ArrivalFound (decode t.now) j (first ∷ second ∷ []) x path.new result }
{
    loads[x] += 1;
    let new = NewJob {
        job: j,
        other: first + second - x,
    };
    sharing_paths_from::find_from(t, s, loads, x, Some(new), path)
}

// Tells where job j is taken in: if it is the path's first, at once where it goes, else at x.
fn enter(t: &[u8], s: Size, j: usize, x: usize, found: FoundPath, path: &PerBench<u16>) -> Intake
    requires holds_board { HoldsBoard t.now s }
    requires jobs_le_most_benches { found.jobs ≤ most_benches }
    requires by_index { (i : ℕ) → JobAt s path.now i found.jobs }
    ensures { EntersAt (decode t.now) j x path.now found result }
{
    if found.jobs != 0 && usize::from(path[0]) == j {
        let holder = sharing_paths::bench_after(t, s, path, 1, found.jobs, found.bench);
        return Intake { holder, place: 1 };
    }
    Intake {
        holder: x,
        place: 0,
    }
}

// Takes in job j where it enters, and hands the rest of the path along.
pub fn apply_arrival(
    t: &mut [u8],
    s: Size,
    j: usize,
    first: usize,
    second: usize,
    intake: Intake,
    found: FoundPath,
    path: &PerBench<u16>,
)
    requires in_order { InOrder t.old s }
    requires may_arrive { MayArrive (decode t.old) j (first ∷ second ∷ []) }
    requires by_index { (x : ℕ) × ArrivalFound (decode t.old) j (first ∷ second ∷ []) x path.now found ×
        EntersAt (decode t.old) j x path.now found intake }
    ensures { t.new ≡ encode (arrive (decode t.old) j (first ∷ second ∷ [])).board }
{
    let names = [first, second];
    table_splices::add_job(t, s, j, &names, intake.holder);
    sharing_paths::hand_along(t, s, path, intake.place, found.jobs, found.bench);
}

// Takes in job j on a table in order, and lists the jobs that move: finds, refuses a list that is too short, and then
// writes. `path` is lent: what it holds does not matter.
pub fn arrive_in_order(
    t: &mut [u8],
    s: Size,
    loads: &mut PerBench<u16>,
    path: &mut PerBench<u16>,
    j: usize,
    first: usize,
    second: usize,
    list: &mut [u8],
) -> Result<Effect, Refusal>
    requires in_order { InOrder t.old s }
    requires may_arrive { MayArrive (decode t.old) j (first ∷ second ∷ []) }
    requires loaded { Loaded (decode t.old) loads.old }
    ensures { ArrivalOf j first second (lent t.old list.old)
        (lent t.new list.new) result }
{
    let x = lighter(loads, first, second);
    let found = find_arrival(t, s, loads, j, first, second, x, path);
    let intake = enter(t, s, j, x, found, path);
    let place = intake.place;
    let end = found.jobs;
    let moved = end - place;
    if list.len() < 2 * moved {
        return Err(Refusal::ListTooShort);
    }
    let whole = &path[..];
    table_words::write_list(list, &whole[place..end]);
    apply_arrival(t, s, j, first, second, intake, found, path);
    Ok(Effect {
        holder: intake.holder,
        bench: found.bench,
        moved,
    })
}
