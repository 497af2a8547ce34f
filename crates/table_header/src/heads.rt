// Word 3 + x: the first job on the chain of bench x, 0 for none.
// Kept: 0 for none is the table's format, and HeadOf gives the word as it stands.
ghost use Rattle.std.specs.Prelude.{◌≡◌, ◌+◌, ◌<◌, replicate};
ghost use Rattle.spec_table.specs.Table.{most_benches};
ghost use Rattle.table_words.specs.Bytes.{layout_in};
ghost use Rattle.table_size.specs.Sizes.{SizeOf, BenchIn};
ghost use Rattle.table_size.specs.Written.{HeadOf, HeadsOf, HasLayout, with_head, cleared};

use table_size::{PerBench, Size};

// Reads the first job on bench x's chain.
pub fn head(t: &[u8], s: Size, x: usize) -> usize
    requires size_of { SizeOf t.now s }
    requires bench_in { BenchIn s x }
    ensures { HeadOf t.now x result }
{
    table_words::read(t, 3 + x)
}

// Writes, at x, the first job on bench x's chain; 0 stands beyond the last bench.
pub fn copy_heads(t: &[u8], s: Size, heads: &mut PerBench<u16>)
    requires size_of { SizeOf t.now s }
    requires heads_value { heads.old ≡ replicate (most_benches + 1) 0 }
    ensures { HeadsOf t.now s heads.new }
{
    for x in 1..s.benches() + 1 {
        heads[x] = head(t, s, x) as u16;
    }
}

// Writes the first job on bench x's chain.
pub fn write_head(t: &mut [u8], s: Size, x: usize, j: usize)
    requires size_of { SizeOf t.old s }
    requires bench_in { BenchIn s x }
    requires j_bound { j < 65536 }
    ensures { HasLayout t.new s (with_head (layout_in t.old) x j) }
{
    table_words::write(t, 3 + x, j);
}

// Empties every chain.
pub fn clear_heads(t: &mut [u8], s: Size)
    requires { SizeOf t.old s }
    ensures { HasLayout t.new s (cleared (layout_in t.old)) }
{
    let end = 8 + 2 * s.benches();
    table_words::clear(&mut t[8..end]);
}
