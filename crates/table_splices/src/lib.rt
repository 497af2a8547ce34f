// Chains spliced: a job goes into its holder's chain at its place, or out of it. Each call leaves the bytes of the
// changed board, every chain rising.
#![tactic(auto)]

ghost use Rattle.std.specs.Prelude.{◌≤◌, ◌<◌, ◌≡◌, false, [], ◌∷◌, T};
ghost use Rattle.spec_lists.specs.Lists.{member, update};
ghost use Rattle.spec_table.specs.Board.{names_of, stands, put, held_by};
ghost use Rattle.spec_table.specs.Table.{decode};
ghost use Rattle.table_words.specs.Bytes.{layout_in};
ghost use Rattle.table_size.specs.Sizes.{SizeOf, BenchIn};
ghost use Rattle.table_size.specs.Written.{HasLayout};
ghost use Rattle.table_board.specs.BoardView.{Fillable};
ghost use Rattle.table_order.specs.InOrder.{InOrder, TableOf};
ghost use Rattle.table_splices.specs.Splices.{GapOf, linked, Inserted};

use table_board::jobs;
use table_header::heads;
use table_records::Record;
use table_size::Size;

// Where a job belongs in a bench's chain: the job before it and the job behind it, 0 for none.
#[derive(Clone, Copy)]
struct Gap {
    before: usize,
    behind: usize,
}

// Finds where job j belongs in bench x's chain: after the last job below j, before the first one from j on.
fn find_gap(t: &[u8], s: Size, x: usize, j: usize) -> Gap
    requires in_order { InOrder t.now s }
    requires bench_in { BenchIn s x }
    ensures { GapOf (decode t.now) s x j result }
{
    let mut before = 0;
    let mut behind = table_order::first_job(t, s, x);
    while behind != 0 && behind < j {
        before = behind;
        behind = table_order::next_job(t, s, before);
    }
    Gap { before, behind }
}

// Writes job n after job i in bench x's chain, or at its front where i is 0.
fn link(t: &mut [u8], s: Size, x: usize, i: usize, n: usize)
    requires size_of { SizeOf t.old s }
    requires bench_in { BenchIn s x }
    requires i_le_jobs { i ≤ s.jobs }
    requires n_bound { n < 65536 }
    ensures { HasLayout t.new s (linked (layout_in t.old) x i n) }
{
    if i == 0 {
        heads::write_head(t, s, x, n);
    } else {
        table_records::write_next(t, s, i, n);
    }
}

// Writes job j with these two benches and this holder, in front of the job behind it, and the link to it.
fn insert(t: &mut [u8], s: Size, j: usize, first: usize, second: usize, holder: usize, gap: Gap)
    requires in_order { InOrder t.old s }
    requires fillable { Fillable s j (first ∷ second ∷ []) holder }
    requires gap_of { GapOf (decode t.old) s holder j gap }
    ensures { Inserted t.old t.new s j (first ∷ second ∷ []) holder gap }
{
    // Kept: 1 for the first-named and 2 for the second-named holder are the table's format.
    let word = if first == holder { 1 } else { 2 };
    table_records::write_record(
        t,
        s,
        j,
        Record {
            first,
            second,
            holder: word,
            next: gap.behind,
        },
    );
    link(t, s, holder, gap.before, j);
}

// Writes job j, which does not stand, with these benches and this holder.
pub fn add_job(t: &mut [u8], s: Size, j: usize, names: &[usize], holder: usize)
    requires in_order { InOrder t.old s }
    requires fillable { Fillable s j names.now holder }
    requires j_value { stands (decode t.old) j ≡ false }
    ensures { TableOf t.new s (put (decode t.old) j names.now holder) }
{
    let gap = find_gap(t, s, holder, j);
    insert(t, s, j, names[0], names[1], holder, gap);
    let count = table_header::standing_word(t, s);
    table_header::write_standing(t, s, count + 1);
}

// Empties the record of job j, which stands.
pub fn remove_job(t: &mut [u8], s: Size, j: usize)
    requires in_order { InOrder t.old s }
    requires t { T (stands (decode t.old) j) }
    ensures { TableOf t.new s (put (decode t.old) j [] 0) }
{
    let x = jobs::holder(t, s, j);
    let gap = find_gap(t, s, x, j);
    let old = table_records::read_record(t, s, j);
    table_records::write_record(
        t,
        s,
        j,
        Record {
            first: 0,
            second: 0,
            holder: 0,
            next: 0,
        },
    );
    link(t, s, x, gap.before, old.next);
    let count = table_header::standing_word(t, s);
    table_header::write_standing(t, s, count - 1);
}

// Hands job j to bench y, one of those it names.
pub fn hand_job(t: &mut [u8], s: Size, j: usize, y: usize)
    requires in_order { InOrder t.old s }
    requires t { T (member y (names_of (decode t.old) j)) }
    ensures { TableOf t.new s
        (held_by (decode t.old) (update (decode t.old).holders j y)) }
{
    let x = jobs::holder(t, s, j);
    if x == y {
        return;
    }
    let old = table_records::read_record(t, s, j);
    let from = find_gap(t, s, x, j);
    let to = find_gap(t, s, y, j);
    insert(t, s, j, old.first, old.second, y, to);
    link(t, s, x, from.before, old.next);
}
