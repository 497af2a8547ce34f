// The form check's clauses after the sizes, exactly: one pass over the records, one walk along the chains.
#![tactic(auto)]

ghost use Rattle.std.specs.Prelude.{◌≤◌, ◌≡◌, T};
ghost use Rattle.spec_lists.specs.Lists.{nth};
ghost use Rattle.spec_table.specs.Table.{formed};
ghost use Rattle.table_words.specs.Bytes.{layout_in};
ghost use Rattle.table_size.specs.Sizes.{SizeOf, BenchIn, ByBench};
ghost use Rattle.table_record_form.specs.Kinds.{CountedTo};
ghost use Rattle.table_chain_form.specs.ChainWalks.{walked, all_walked};
ghost use Rattle.table_chain_form.specs.ChainLengths.{ChainLengths};

use table_header::heads;
use table_record_form::Counted;
use table_size::{PerBench, Size};

// Walks bench x's chain, before which `left` jobs are not yet met; how many are left after it. None where the chain has
// more, or a job that x does not hold.
fn walk(t: &[u8], s: Size, x: usize, mut left: usize) -> Option<usize>
    requires size_of { SizeOf t.now s }
    requires bench_in { BenchIn s x }
    ensures { result ≡ walked (layout_in t.now).entries x left
        (nth (layout_in t.now).heads x 0) }
{
    let jobs = s.jobs();
    let mut j = heads::head(t, s, x);
    while j != 0 {
        if left == 0 || jobs < j {
            return None;
        }
        let next = table_records::read_record(t, s, j).next;
        if table_records::holder_at(t, s, j) != x {
            return None;
        }
        left -= 1;
        j = next;
    }
    Some(left)
}

// Tells whether all chains have together this number of jobs, each held by its chain's bench. Leaves in `loads`, at
// each bench, the number of jobs on its chain: a walk counts them anyway.
fn walk_all(t: &[u8], s: Size, count: usize, loads: &mut PerBench<u16>) -> bool
    requires size_of { SizeOf t.now s }
    requires by_bench { ByBench s loads.old }
    requires count_le_jobs { count ≤ s.jobs }
    ensures value { result ≡ all_walked (layout_in t.now).entries 1 (layout_in t.now).heads
        (Some count) }
    ensures chain_lengths { T result → ChainLengths (layout_in t.now) s loads.new }
{
    let mut left = count;
    for x in 1..s.benches() + 1 {
        let Some(n) = walk(t, s, x, left) else {
            return false;
        };
        loads[x] = (left - n) as u16;
        left = n;
    }
    left == 0
}

// Tests the clauses of the sound table after its sizes; the records of `done` are counted already. Of a table that
// passes, leaves in `loads`, at each bench, the number of jobs on its chain.
pub fn is_formed(t: &[u8], s: Size, done: Counted, loads: &mut PerBench<u16>) -> bool
    requires size_of { SizeOf t.now s }
    requires counted_to { CountedTo t.now s done.records done.jobs }
    requires by_bench { ByBench s loads.old }
    ensures value { result ≡ formed (layout_in t.now) }
    ensures chain_lengths { T result → ChainLengths (layout_in t.now) s loads.new }
{
    if table_header::spare_word(t, s) != 0 {
        return false;
    }
    let Some(count) = table_record_form::count_records(t, s, done) else {
        return false;
    };
    if table_header::standing_word(t, s) != count {
        return false;
    }
    walk_all(t, s, count, loads)
}
