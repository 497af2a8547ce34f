// What each record of a table is, and the form check's pass over the records: the number of standing jobs.
#![tactic(auto)]

ghost use Rattle.std.specs.Prelude.{◌≡◌};
ghost use Rattle.table_words.specs.Bytes.{layout_in};
ghost use Rattle.table_size.specs.Sizes.{SizeOf};
ghost use Rattle.table_records.specs.Records.{entry_of};
ghost use Rattle.table_record_form.specs.Kinds.{kind_of, counted, CountedTo};

use table_records::Record;
use table_size::Size;

// What a record is.
#[derive(Clone, Copy)]
pub enum Kind {
    Vacant,
    Fitting,
    Unfit,
}

// How far a pass over the records has come: the first `records` are counted, and `jobs` of them stand.
#[derive(Clone, Copy)]
pub struct Counted {
    pub records: usize,
    pub jobs: usize,
}

// Tells a record's kind: no job's; one that names two different benches of 1 to B and has holder 1 or 2; or
// neither. Tests for one that fits first, whose first word is not 0, and for four zero words last: put first, these
// are compared by vector instructions, which takes longer.
pub fn kind_of(s: Size, r: Record) -> Kind
    ensures { result ≡ kind_of s.benches (entry_of r) }
{
    let Record {
        first,
        second,
        holder,
        next,
    } = r;
    if s.has_bench(first) && s.has_bench(second) && first != second && 1 <= holder && holder <= 2 {
        return Kind::Fitting;
    }
    if first != 0 {
        return Kind::Unfit;
    }
    if second == 0 && holder == 0 && next == 0 {
        Kind::Vacant
    } else {
        Kind::Unfit
    }
}

// Counts the standing jobs' records; those of `done` are counted already. None where one does not fit.
pub fn count_records(t: &[u8], s: Size, done: Counted) -> Option<usize>
    requires size_of { SizeOf t.now s }
    requires counted_to { CountedTo t.now s done.records done.jobs }
    ensures { result ≡ counted s.benches 0 (layout_in t.now).entries }
{
    let mut count = done.jobs;
    for j in done.records + 1..s.jobs() + 1 {
        match kind_of(s, table_records::read_record(t, s, j)) {
            Kind::Vacant => {}
            Kind::Fitting => count += 1,
            Kind::Unfit => return None,
        }
    }
    Some(count)
}
