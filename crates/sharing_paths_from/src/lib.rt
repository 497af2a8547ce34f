// The arrival's path, which levelling flips too: found before anything is written.
#![tactic(auto)]

ghost use Rattle.std.specs.Prelude.{ℕ, ◌+◌, ◌≡◌, replicate};
ghost use Rattle.spec_table.specs.Board.{Board};
ghost use Rattle.spec_table.specs.Table.{most_benches, decode};
ghost use Rattle.spec_sharing.specs.Sharing.{arrival_choice};
ghost use Rattle.table_size.specs.Sizes.{BenchIn};
ghost use Rattle.table_board.specs.BoardView.{Loaded};
ghost use Rattle.table_order.specs.InOrder.{InOrder};
ghost use Rattle.graph_lists.specs.Arrays.{at, LoadsIn};
ghost use Rattle.sharing_loads.specs.LoadRanks.{LightestAt};
ghost use Rattle.sharing_paths.specs.FoundPaths.{last_of, PathFound};
ghost use Rattle.sharing_paths_from.specs.ArrivalSearch.{WithNew, FromBench, FirstLevel, Weighed, EndFound};

pub use new_job::NewJob;
use sharing_paths::FoundPath;
use table_size::{PerBench, Size};

mod new_job;

// Finds, of the benches at places `begin` to `end` of the queue, the one with the lowest load, then the lowest number.
fn lightest_among(queue: &PerBench<u16>, begin: usize, end: usize, loads: &PerBench<u16>) -> usize
    requires { Weighed queue.now begin end loads.now }
    ensures { LightestAt loads.now (at queue.now) begin end result }
{
    let mut low = usize::from(queue[begin]);
    for &y in &queue[begin + 1..end] {
        let y = usize::from(y);
        // Compares load and number at once: no number reaches 512.
        if usize::from(loads[y]) * 512 + y < usize::from(loads[low]) * 512 + low {
            low = y;
        }
    }
    low
}

// Starts a search at x and takes the steps from it, an arriving job's in its place; tells how many benches are found.
fn begin_with(
    t: &[u8],
    s: Size,
    x: usize,
    arriving: Option<NewJob>,
    queue: &mut PerBench<u16>,
    came: &mut PerBench<u16>,
) -> usize
    requires in_order { InOrder t.now s }
    requires bench_in { BenchIn s x }
    requires came_value { came.old ≡ replicate (most_benches + 1) 0 }
    requires with_job { (c : Board) × WithNew (decode t.now) c s x arriving }
    ensures { (c : Board) → WithNew (decode t.now) c s x arriving →
        FromBench c s.benches x 1 result 1 result queue.new came.new }
{
    let start = sharing_search::discover(x, Size::MOST_JOBS as u16 + 1, 0, queue, came);
    let first = table_order::first_job(t, s, x);
    let Some(new) = arriving else {
        let all = sharing_search::expand(t, s, x, first, Size::MOST_JOBS + 1, start, queue, came);
        return all.found;
    };
    let below = sharing_search::expand(t, s, x, first, new.job, start, queue, came);
    let found = sharing_search::discover(new.other, new.job as u16, below.found, queue, came);
    let above = sharing_search::expand(t, s, x, below.job, Size::MOST_JOBS + 1, found, queue, came);
    above.found
}

// Goes on level by level, and finds the last bench of the path that the arrival's order names: of the levels' lightest
// benches the first with the lowest load. No bench is lighter than `goal`: a search goes no farther than the nearest
// of its load.
fn end_from(
    t: &[u8],
    s: Size,
    loads: &PerBench<u16>,
    x: usize,
    goal: usize,
    end: usize,
    queue: &mut PerBench<u16>,
    came: &mut PerBench<u16>,
) -> FoundPath
    requires in_order { InOrder t.now s }
    requires loads_in { LoadsIn s loads.now }
    requires by_index { (c : Board) × (job other : ℕ) ×
        FirstLevel (decode t.now) c s loads.now x job other goal end queue.old came.old }
    ensures { (c : Board) (job other : ℕ) →
        FirstLevel (decode t.now) c s loads.now x job other goal end queue.old
        came.old →
        EndFound (decode t.now) c s.benches x queue.new came.new result }
{
    let low = loads[goal];
    let mut best = FoundPath { bench: x, jobs: 0 };
    let mut bound = loads[x] - 1;
    let mut begin = 1;
    let mut end = end;
    let mut level = 1;
    while begin < end {
        let y = lightest_among(queue, begin, end, loads);
        let n = loads[y];
        if n < bound {
            best = FoundPath {
                bench: y,
                jobs: level,
            };
            bound = n;
        }
        if bound == low {
            return best;
        }
        let more = sharing_search::expand_level(t, s, begin, end, goal, queue, came);
        begin = end;
        end = more;
        level += 1;
    }
    best
}

// Finds, of the improving paths from x on the board with one job more, the one that the arrival's order names: its
// jobs into `path`, its last bench and how many they are; x and 0 where there is none. The loads are those of that
// board. Bench x has the arriving job; where there is none, the board is the table's.
pub fn find_from(
    t: &[u8],
    s: Size,
    loads: &PerBench<u16>,
    x: usize,
    arriving: Option<NewJob>,
    path: &mut PerBench<u16>,
) -> FoundPath
    requires in_order { InOrder t.now s }
    requires bench_in { BenchIn s x }
    requires loads_in { LoadsIn s loads.now }
    requires with_job { (c : Board) × WithNew (decode t.now) c s x arriving × Loaded c loads.now }
    ensures { (c : Board) → WithNew (decode t.now) c s x arriving → Loaded c loads.now →
        PathFound (arrival_choice c x) (last_of x (arrival_choice c x)) path.new result }
{
    let goal = sharing_loads::lightest(s, loads);
    if loads[x] < loads[goal] + 2 {
        return FoundPath { bench: x, jobs: 0 };
    }
    // Until the path is written, its array is the queue.
    let mut came = [0; Size::MOST_BENCHES + 1];
    let found = begin_with(t, s, x, arriving, path, &mut came);
    let end = end_from(t, s, loads, x, goal, found, path, &mut came);
    sharing_paths::follow_back(t, s, &came, end.bench, end.jobs, path);
    end
}
