// The form check in one pass. The jobs are met in rising order: each must fit and be due, the next that its holder's
// chain leads to. Loads are counted on the way. Got through, the table is sound, and its bytes are those of its board,
// every chain rising; else they are not, and it is told how many records were counted, for a check that goes on there.
#![tactic(auto)]

ghost use Rattle.std.specs.Prelude.{◌≡◌, ◌↔◌, ◌+◌, T, replicate};
ghost use Rattle.spec_table.specs.Table.{most_benches};
ghost use Rattle.table_size.specs.Sizes.{SizeOf, JobIn, ByBench};
ghost use Rattle.table_size.specs.Written.{record_in, HeadsOf};
ghost use Rattle.table_rising.specs.Passing.{
  DueWords,
  Before,
  MetAs,
  ReachedAs,
  NoneDue,
  Encoded,
  AllInTurn,
  PassOf,
};

use table_header::heads;
use table_record_form::{Counted, Kind};
use table_size::{PerBench, Size};

// What meeting a job tells.
#[derive(Clone, Copy)]
enum Turn {
    // No job has this number.
    Vacant,
    Met,
    // Its record does not fit, or another job is due at its holder.
    NotMet,
}

// Meets job j. If it stands, it must fit and be due at its holder; then the next job on that chain is due there, and
// the holder has one job more.
fn meet(t: &[u8], s: Size, j: usize, due: &mut PerBench<u16>, loads: &mut PerBench<u16>) -> Turn
    requires size_of { SizeOf t.now s }
    requires job_in { JobIn s j }
    requires due_words { DueWords s due.old }
    requires before { Before s j loads.old }
    ensures { MetAs s (record_in t.now j) j due.old loads.old
        due.new loads.new result }
{
    let r = table_records::read_record(t, s, j);
    match table_record_form::kind_of(s, r) {
        Kind::Vacant => Turn::Vacant,
        Kind::Unfit => Turn::NotMet,
        Kind::Fitting => {
            let x = table_records::name_at(t, s, j, r.holder);
            // Compares in the width of the loop's counter: compiled, j needs no second one of 16 bits.
            if usize::from(due[x]) != j {
                return Turn::NotMet;
            }
            due[x] = r.next as u16;
            loads[x] += 1;
            Turn::Met
        }
    }
}

// Meets the jobs in rising order, from the first jobs on the chains on: how many stand, or what is counted before one
// that can't be met.
fn meet_all(
    t: &[u8],
    s: Size,
    due: &mut PerBench<u16>,
    loads: &mut PerBench<u16>,
) -> Result<usize, Counted>
    requires size_of { SizeOf t.now s }
    requires heads_of { HeadsOf t.now s due.old }
    requires loads_value { loads.old ≡ replicate (most_benches + 1) 0 }
    ensures reached_as { ReachedAs t.now s due.new loads.new result }
    ensures all_in_turn { Encoded t.now s → AllInTurn s due.new result }
    ensures by_bench { ByBench s loads.new }
{
    let mut count = 0;
    for j in 1..s.jobs() + 1 {
        match meet(t, s, j, due, loads) {
            Turn::Vacant => {}
            Turn::Met => count += 1,
            Turn::NotMet => {
                return Err(Counted {
                    records: j - 1,
                    jobs: count,
                });
            }
        }
    }
    Ok(count)
}

// Tells whether no job is due: whether the greatest number is 0.
fn none_due(s: Size, due: &PerBench<u16>) -> bool
    ensures { T result ↔ NoneDue s due.now }
{
    s.greatest(due) == 0
}

// Makes the pass; where it gets through, the loads are the benches', and where not, the error is what is counted. The
// jobs that are due stand in `due`, which is lent: what is left in it means nothing.
pub fn pass_over(
    t: &[u8],
    s: Size,
    due: &mut PerBench<u16>,
    loads: &mut PerBench<u16>,
) -> Result<(), Counted>
    requires size_of { SizeOf t.now s }
    requires due_value { due.old ≡ replicate (most_benches + 1) 0 }
    requires loads_value { loads.old ≡ replicate (most_benches + 1) 0 }
    ensures { PassOf t.now s loads.new result }
{
    heads::copy_heads(t, s, due);
    let count = meet_all(t, s, due, loads)?;
    if table_header::spare_word(t, s) == 0
        && table_header::standing_word(t, s) == count
        && none_due(s, due)
    {
        Ok(())
    } else {
        Err(Counted {
            records: s.jobs(),
            jobs: count,
        })
    }
}
