// The closing's path: found before anything is written. The search goes forwards from all benches of the greatest load
// at once, in rising number, until the bench that lost the job is found; if it is not, from those of the next lower
// load that are not found yet, and so on. What a round found does not lead there, and is not searched again.
#![tactic(auto)]

ghost use Rattle.std.specs.Prelude.{ℕ, ◌+◌, ◌≤◌, ◌≢◌, List};
ghost use Rattle.spec_lists.specs.Lists.{greatest};
ghost use Rattle.spec_table.specs.Board.{Board};
ghost use Rattle.spec_table.specs.Table.{decode};
ghost use Rattle.spec_sharing.specs.Sharing.{closing_choice};
ghost use Rattle.table_size.specs.Sizes.{BenchIn};
ghost use Rattle.table_board.specs.BoardView.{Loaded};
ghost use Rattle.table_order.specs.InOrder.{InOrder};
ghost use Rattle.graph_lists.specs.Arrays.{at, LoadsIn};
ghost use Rattle.sharing_paths.specs.FoundPaths.{start_of, PathFound};
ghost use Rattle.sharing_paths_to.specs.ClosingSearch.{WithoutJob, Rounds, InRound, GoalFound, RoundOf};

use sharing_paths::FoundPath;
use table_board::jobs;
use table_size::{PerBench, Size};

// What a round found: how many benches are found in all, and how many jobs lead to the bench that lost one, where it was
// found.
#[derive(Clone, Copy)]
struct Round {
    found: usize,
    jobs: Option<usize>,
}

// Starts the search at every bench of this load that is not found, in rising number; tells how many are found then.
fn seed(
    s: Size,
    loads: &PerBench<u16>,
    load: usize,
    found: usize,
    queue: &mut PerBench<u16>,
    came: &mut PerBench<u16>,
) -> usize
    requires loads_in { LoadsIn s loads.now }
    requires by_index { (b c : Board) × (x : ℕ) × (at loads.now x + 2 ≤ load) ×
        Rounds b c s loads.now x load found queue.old came.old }
    ensures { (b c : Board) (x : ℕ) → at loads.now x + 2 ≤ load →
        Rounds b c s loads.now x load found queue.old came.old →
        InRound b c s loads.now x load found result 0 queue.new came.new }
{
    let mut end = found;
    for x in 1..s.benches() + 1 {
        if usize::from(loads[x]) == load {
            end = sharing_search::discover(x, Size::MOST_JOBS as u16 + 1, end, queue, came);
        }
    }
    end
}

// Searches from the benches of this load, level by level, until x is found.
fn search_round(
    t: &[u8],
    s: Size,
    loads: &PerBench<u16>,
    load: usize,
    x: usize,
    found: usize,
    queue: &mut PerBench<u16>,
    came: &mut PerBench<u16>,
) -> Round
    requires in_order { InOrder t.now s }
    requires loads_in { LoadsIn s loads.now }
    requires x_bound { at loads.now x + 2 ≤ load }
    requires rounds { (c : Board) × Rounds (decode t.now) c s loads.now x load found queue.old came.old }
    ensures { (c : Board) →
        Rounds (decode t.now) c s loads.now x load found queue.old
        came.old →
        RoundOf (decode t.now) c s loads.now x load queue.new came.new result }
{
    let mut begin = found;
    let mut end = seed(s, loads, load, found, queue, came);
    let mut level = 0;
    while begin < end {
        let more = sharing_search::expand_level(t, s, begin, end, x, queue, came);
        level += 1;
        if came[x] != 0 {
            return Round {
                found: more,
                jobs: Some(level),
            };
        }
        begin = end;
        end = more;
    }
    Round {
        found: end,
        jobs: None,
    }
}

// Follows the path of n jobs by which x was found back to its first bench: its jobs into `path`.
fn path_to(
    t: &[u8],
    s: Size,
    came: &PerBench<u16>,
    x: usize,
    n: usize,
    path: &mut PerBench<u16>,
) -> FoundPath
    requires in_order { InOrder t.now s }
    requires n_nonzero { n ≢ 0 }
    requires by_index { (c : Board) × (found : ℕ) × (queue : List ℕ) × WithoutJob (decode t.now) c s x ×
        GoalFound (decode t.now) c s x n found queue came.now }
    ensures { (c : Board) (found : ℕ) (queue : List ℕ) → WithoutJob (decode t.now) c s x →
        GoalFound (decode t.now) c s x n found queue came.now →
        PathFound (closing_choice c x) (start_of x (closing_choice c x)) path.new result }
{
    sharing_paths::follow_back(t, s, came, x, n, path);
    let bench = jobs::holder(t, s, usize::from(path[0]));
    FoundPath { bench, jobs: n }
}

// Finds, of the improving paths to x on the board without one of its jobs, the one that the closing's order names: its
// jobs into `path`, its first bench and how many they are; x and 0 where there is none. The loads are those of that
// board; the table has the job still, but the search never leaves x. No load is above `top`: the caller can read the
// heaviest before it lowers one.
pub fn find_to(
    t: &[u8],
    s: Size,
    loads: &PerBench<u16>,
    x: usize,
    top: usize,
    path: &mut PerBench<u16>,
) -> FoundPath
    requires in_order { InOrder t.now s }
    requires bench_in { BenchIn s x }
    requires loads_in { LoadsIn s loads.now }
    requires loads_bound { greatest s.benches (at loads.now) ≤ top }
    requires without_job { (c : Board) × WithoutJob (decode t.now) c s x × Loaded c loads.now }
    ensures { (c : Board) → WithoutJob (decode t.now) c s x → Loaded c loads.now →
        PathFound (closing_choice c x) (start_of x (closing_choice c x)) path.new result }
{
    let least = usize::from(loads[x]) + 2;
    if top < least {
        return FoundPath { bench: x, jobs: 0 };
    }
    // Until the path is written, its array is the queue.
    let mut came = [0; Size::MOST_BENCHES + 1];
    let mut load = top;
    let mut found = 0;
    while least <= load {
        let round = search_round(t, s, loads, load, x, found, path, &mut came);
        if let Some(jobs) = round.jobs {
            return path_to(t, s, &came, x, jobs, path);
        }
        found = round.found;
        load = sharing_loads::next_lower(s, loads, load);
    }
    FoundPath { bench: x, jobs: 0 }
}
