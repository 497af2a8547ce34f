// Jobs' records: words B + 4 × j and the next three are job j's, which is 4 + B + 4 × (j − 1).
#![tactic(auto)]

ghost use Rattle.std.specs.Prelude.{◌≡◌, ◌+◌, ◌*◌, ◌≤◌, ◌<◌};
ghost use Rattle.spec_table.specs.Table.{holder_in};
ghost use Rattle.table_words.specs.Bytes.{layout_in};
ghost use Rattle.table_size.specs.Sizes.{SizeOf, JobIn};
ghost use Rattle.table_size.specs.Written.{record_in, HasLayout, with_entry, with_next};
ghost use Rattle.table_records.specs.Records.{entry_of, RecordFits, RecordOf, NameAt};

use table_size::Size;

// "First bench, second bench, holder (1 first-named, 2 second-named), next job on the chain."
#[derive(Clone, Copy)]
pub struct Record {
    pub first: usize,
    pub second: usize,
    pub holder: usize,
    pub next: usize,
}

// Computes where job j's record begins.
fn record_at(s: Size, j: usize) -> usize
    requires { JobIn s j }
    ensures { result ≡ s.benches + 4 * j }
{
    s.benches() + 4 * j
}

// Reads job j's record.
pub fn read_record(t: &[u8], s: Size, j: usize) -> Record
    requires size_of { SizeOf t.now s }
    requires job_in { JobIn s j }
    ensures { RecordOf t.now j result }
{
    let at = record_at(s, j);
    let first = table_words::read(t, at);
    let second = table_words::read(t, at + 1);
    let holder = table_words::read(t, at + 2);
    let next = table_words::read(t, at + 3);
    Record {
        first,
        second,
        holder,
        next,
    }
}

// Reads the k-th bench that job j's record names, counted from 1.
pub fn name_at(t: &[u8], s: Size, j: usize, k: usize) -> usize
    requires size_of { SizeOf t.now s }
    requires job_in { JobIn s j }
    requires le_k { 1 ≤ k }
    requires k_bound { k ≤ 2 }
    ensures { NameAt t.now j k result }
{
    table_words::read(t, record_at(s, j) + k - 1)
}

// Reads the bench that job j's holder word tells, 0 for none. It reads that bench alone: no branch on which of the
// names it is, which a processor would guess wrong every other time.
// Kept: 0 for none is the table's format, and what holder_in gives of a record.
pub fn holder_at(t: &[u8], s: Size, j: usize) -> usize
    requires size_of { SizeOf t.now s }
    requires job_in { JobIn s j }
    ensures { result ≡ holder_in (record_in t.now j) }
{
    let place = table_words::read(t, record_at(s, j) + 2);
    if place < 1 || 2 < place {
        return 0;
    }
    name_at(t, s, j, place)
}

// Writes job j's record.
pub fn write_record(t: &mut [u8], s: Size, j: usize, r: Record)
    requires size_of { SizeOf t.old s }
    requires job_in { JobIn s j }
    requires record_fits { RecordFits r }
    ensures { HasLayout t.new s (with_entry (layout_in t.old) j (entry_of r)) }
{
    let at = record_at(s, j);
    table_words::write(t, at, r.first);
    table_words::write(t, at + 1, r.second);
    table_words::write(t, at + 2, r.holder);
    table_words::write(t, at + 3, r.next);
}

// Writes another next word into job j's record.
pub fn write_next(t: &mut [u8], s: Size, j: usize, next: usize)
    requires size_of { SizeOf t.old s }
    requires job_in { JobIn s j }
    requires next_bound { next < 65536 }
    ensures { HasLayout t.new s
        (with_entry (layout_in t.old) j (with_next (record_in t.old j) next)) }
{
    table_words::write(t, record_at(s, j) + 3, next);
}
