// A table in order: the jobs of a bench, one after the other, rising.
#![tactic(auto)]

ghost use Rattle.std.specs.Prelude.{suc, T};
ghost use Rattle.spec_table.specs.Board.{holder_of, stands};
ghost use Rattle.spec_table.specs.Table.{decode};
ghost use Rattle.table_size.specs.Sizes.{BenchIn};
ghost use Rattle.table_order.specs.InOrder.{InOrder, FirstFrom};

use table_size::Size;

// Reads the lowest job that bench x holds, 0 for none.
pub fn first_job(t: &[u8], s: Size, x: usize) -> usize
    requires in_order { InOrder t.now s }
    requires bench_in { BenchIn s x }
    ensures { FirstFrom (decode t.now) s x 1 result }
{
    table_chains::head(t, s, x)
}

// Reads the lowest job above j that j's holder holds, 0 for none.
pub fn next_job(t: &[u8], s: Size, j: usize) -> usize
    requires in_order { InOrder t.now s }
    requires t { T (stands (decode t.now) j) }
    ensures { FirstFrom (decode t.now) s (holder_of (decode t.now) j) (suc j) result }
{
    table_chains::next(t, s, j)
}
