// The tight set of a height: its benches marked, their number and the jobs inside, and the benches written to a list.
#![tactic(auto)]

ghost use Rattle.std.specs.Prelude.{◌≡◌, false, ◌≤◌, ◌+◌, ◌*◌, length, replicate};
ghost use Rattle.spec_table.specs.Table.{in_list, most_benches, decode};
ghost use Rattle.spec_sharing.specs.Sharing.{tight_set};
ghost use Rattle.table_size.specs.Sizes.{SoundTable};
ghost use Rattle.table_board.specs.BoardView.{Loaded};
ghost use Rattle.graph_lists.specs.Arrays.{Tells, LoadsIn};
ghost use Rattle.sharing_tight_set.specs.MarkedSets.{marked, HeavyMarked, Lighter, Measured, TightSet};

use table_size::{PerBench, Size};

// How many benches are in a set, and how many jobs they hold.
#[derive(Clone, Copy)]
pub struct Extent {
    pub benches: usize,
    pub jobs: usize,
}

// Counts the marked benches, and adds up their loads.
fn measure(s: Size, loads: &PerBench<u16>, marks: &PerBench<bool>) -> Extent
    requires { LoadsIn s loads.now }
    ensures { Measured s loads.now marks.now result }
{
    let mut count = 0;
    let mut jobs = 0;
    for x in 1..s.benches() + 1 {
        if marks[x] {
            count += 1;
            jobs += usize::from(loads[x]);
        }
    }
    Extent {
        benches: count,
        jobs,
    }
}

// Marks the benches with load h or more; tells whether one has less.
fn mark_heavy(s: Size, loads: &PerBench<u16>, h: usize, marks: &mut PerBench<bool>) -> bool
    requires loads_in { LoadsIn s loads.now }
    requires marks_value { marks.old ≡ replicate (most_benches + 1) false }
    ensures heavy_marked { HeavyMarked s loads.now h marks.new }
    ensures tells { Tells (Lighter s loads.now h) result }
{
    let mut less = false;
    for x in 1..s.benches() + 1 {
        if h <= usize::from(loads[x]) {
            marks[x] = true;
        } else {
            less = true;
        }
    }
    less
}

// Marks what the chains of the benches with load h or more bring in; these benches are marked already.
fn mark_closure(t: &[u8], s: Size, loads: &PerBench<u16>, h: usize, marks: &mut PerBench<bool>)
    requires sound_table { SoundTable t.now s }
    requires loaded { Loaded (decode t.now) loads.now }
    requires heavy_marked { HeavyMarked s loads.now h marks.old }
    ensures { marked s marks.new ≡ tight_set (decode t.now) h }
{
    let mut head = [0; Size::MOST_BENCHES + 1];
    let mut next = [0; Size::MOST_JOBS + 1];
    let mut to = [0; Size::MOST_JOBS + 1];
    sharing_chains::copy_chains(t, s, &mut head, &mut next, &mut to);
    sharing_visits::walk_heavy(s, &head, &next, &to, loads, h, marks);
}

// Marks the tight set of height h; tells the number of its benches and of the jobs inside. Where no bench has less
// than h, all are marked at once: no chain is copied, and no walk begins. A job inside is held inside, and a job that
// a bench of the set holds is inside, so the loads are added up and no job is counted.
pub fn tight_set(
    t: &[u8],
    s: Size,
    loads: &PerBench<u16>,
    h: usize,
    marks: &mut PerBench<bool>,
) -> Extent
    requires sound_table { SoundTable t.now s }
    requires loaded { Loaded (decode t.now) loads.now }
    requires marks_value { marks.old ≡ replicate (most_benches + 1) false }
    ensures { TightSet (decode t.now) s h marks.new result }
{
    if mark_heavy(s, loads, h, marks) {
        mark_closure(t, s, loads, h, marks);
    }
    measure(s, loads, marks)
}

// Writes the marked benches, rising, as words at the list's beginning.
pub fn write(s: Size, marks: &PerBench<bool>, list: &mut [u8])
    requires { 2 * length (marked s marks.now) ≤ length list.old }
    ensures { list.new ≡ in_list (marked s marks.now) list.old }
{
    let mut count = 0;
    for x in 1..s.benches() + 1 {
        if marks[x] {
            table_words::write(list, count, x);
            count += 1;
        }
    }
}
