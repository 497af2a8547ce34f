// Chains: the jobs that a bench holds, one after the other.
#![tactic(auto)]

ghost use Rattle.std.specs.Prelude.{◌≡◌, ◌+◌, T, replicate};
ghost use Rattle.spec_table.specs.Board.{stands};
ghost use Rattle.spec_table.specs.Table.{most_benches, decode};
ghost use Rattle.table_size.specs.Sizes.{JobIn, BenchIn, SoundTable};
ghost use Rattle.table_board.specs.BoardView.{HoldsBoard};
ghost use Rattle.table_chains.specs.Chains.{ChainOf, StoredHeads, NextOf, ChainsRebuilt, Pushed, Linked};

use table_board::jobs;
use table_header::heads;
use table_size::{PerBench, Size};

// Reads the first job on bench x's chain, 0 for none.
pub fn head(t: &[u8], s: Size, x: usize) -> usize
    requires sound_table { SoundTable t.now s }
    requires bench_in { BenchIn s x }
    ensures { ChainOf t.now s x result }
{
    heads::head(t, s, x)
}

// Writes, at x, the first job on bench x's chain; 0 stands beyond the last bench.
pub fn copy_heads(t: &[u8], s: Size, head: &mut PerBench<u16>)
    requires sound_table { SoundTable t.now s }
    requires head_value { head.old ≡ replicate (most_benches + 1) 0 }
    ensures { StoredHeads t.now s head.new }
{
    heads::copy_heads(t, s, head);
}

// Reads the job after job j on its chain, 0 for none.
pub fn next(t: &[u8], s: Size, j: usize) -> usize
    requires sound_table { SoundTable t.now s }
    requires t { T (stands (decode t.now) j) }
    ensures { NextOf t.now j result }
{
    let r = table_records::read_record(t, s, j);
    r.next
}

// Puts job j at the front of its holder's chain; tells whether it stands.
fn push(t: &mut [u8], s: Size, j: usize) -> bool
    requires holds_board { HoldsBoard t.old s }
    requires job_in { JobIn s j }
    ensures { Pushed t.old t.new s j result }
{
    let x = jobs::holder(t, s, j);
    if x == 0 {
        return false;
    }
    let behind = heads::head(t, s, x);
    table_records::write_next(t, s, j, behind);
    heads::write_head(t, s, x, j);
    true
}

// Puts every standing job at the front of its holder's chain, from the last job down, so that chains rise; tells
// how many they are.
fn push_all(t: &mut [u8], s: Size) -> usize
    requires { HoldsBoard t.old s }
    ensures { Linked t.old t.new s result }
{
    let mut count = 0;
    for j in (1..s.jobs() + 1).rev() {
        count += usize::from(push(t, s, j));
    }
    count
}

// Rebuilds all chains, in rising order. After it the bytes are those of the board that the records hold.
pub fn rebuild_chains(t: &mut [u8], s: Size)
    requires { HoldsBoard t.old s }
    ensures { ChainsRebuilt t.old t.new s }
{
    heads::clear_heads(t, s);
    let count = push_all(t, s);
    table_header::write_standing(t, s, count);
}
