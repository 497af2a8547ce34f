// The first bench of the path that levelling flips: of the benches that start an improving path the one with the
// greatest load, then the lowest. Loads go down and numbers up; what a bench reached need not be searched again from
// a lighter one.
#![tactic(auto)]

ghost use Rattle.std.specs.Prelude.{suc, ◌≤◌};
ghost use Rattle.spec_table.specs.Table.{decode};
ghost use Rattle.table_size.specs.Sizes.{BenchIn};
ghost use Rattle.table_board.specs.BoardView.{Loaded};
ghost use Rattle.table_order.specs.InOrder.{InOrder};
ghost use Rattle.graph_lists.specs.Arrays.{at, LoadsIn};
ghost use Rattle.sharing_start.specs.PathStart.{StartOf, Searched, SearchedTo};

use graph_lists::keys;
use table_size::{PerBench, Size};

// The first bench that starts an improving path, where one does; how many benches are found.
#[derive(Clone, Copy)]
struct Search {
    start: Option<usize>,
    found: usize,
}

// Searches from bench x, level by level, until a load is found that is lower by two or more. Where x was found before,
// there is none.
fn search_from(
    t: &[u8],
    s: Size,
    loads: &PerBench<u16>,
    x: usize,
    found: usize,
    queue: &mut PerBench<u16>,
    came: &mut PerBench<u16>,
) -> Search
    requires in_order { InOrder t.now s }
    requires loaded { Loaded (decode t.now) loads.now }
    requires bench_in { BenchIn s x }
    requires bound { 2 ≤ at loads.now x }
    requires searched { Searched (decode t.now) s (at loads.now x) x found queue.old came.old }
    ensures { SearchedTo (decode t.now) s (at loads.now x) (suc x) result queue.new
        came.new }
{
    let limit = loads[x] - 2;
    let mut begin = found;
    let mut end = sharing_search::discover(x, Size::MOST_JOBS as u16 + 1, found, queue, came);
    while begin < end {
        let more = sharing_search::expand_level(t, s, begin, end, 0, queue, came);
        if keys::wanted_among(queue, end, more, loads, limit) {
            return Search {
                start: Some(x),
                found: more,
            };
        }
        begin = end;
        end = more;
    }
    Search {
        start: None,
        found: end,
    }
}

// Searches from the benches of this load, in rising number, until one reaches a load that is lower by two or more.
fn start_among(
    t: &[u8],
    s: Size,
    loads: &PerBench<u16>,
    load: usize,
    found: usize,
    queue: &mut PerBench<u16>,
    came: &mut PerBench<u16>,
) -> Search
    requires in_order { InOrder t.now s }
    requires loads_in { LoadsIn s loads.now }
    requires loaded { Loaded (decode t.now) loads.now }
    requires le_load { 2 ≤ load }
    requires searched { Searched (decode t.now) s load 1 found queue.old came.old }
    ensures { SearchedTo (decode t.now) s load (suc s.benches) result queue.new
        came.new }
{
    let mut found = found;
    for x in 1..s.benches() + 1 {
        if usize::from(loads[x]) == load {
            let searched = search_from(t, s, loads, x, found, queue, came);
            if searched.start.is_some() {
                return searched;
            }
            found = searched.found;
        }
    }
    Search { start: None, found }
}

// Finds the bench of greatest load, then lowest number, among those that start an improving path, if one does.
// No bench with the least load or one more does. The queue is lent, so that it is not cleared for each search: what it
// holds does not matter.
pub fn first_start(
    t: &[u8],
    s: Size,
    loads: &PerBench<u16>,
    queue: &mut PerBench<u16>,
) -> Option<usize>
    requires in_order { InOrder t.now s }
    requires loads_in { LoadsIn s loads.now }
    requires loaded { Loaded (decode t.now) loads.now }
    ensures { StartOf (decode t.now) s result }
{
    let goal = sharing_loads::lightest(s, loads);
    let low = usize::from(loads[goal]);
    let mut load = usize::from(s.greatest(loads));
    if load < low + 2 {
        return None;
    }
    let mut came = [0; Size::MOST_BENCHES + 1];
    let mut found = 0;
    while low + 2 <= load {
        let first = start_among(t, s, loads, load, found, queue, &mut came);
        if first.start.is_some() {
            return first.start;
        }
        found = first.found;
        load = sharing_loads::next_lower(s, loads, load);
    }
    None
}
