// A bench's chain on bytes that nobody checked, read up to a job that names another bench, too.
#![tactic(auto)]

ghost use Rattle.std.specs.Prelude.{◌≡◌, []};
ghost use Rattle.spec_lists.specs.Lists.{nth};
ghost use Rattle.spec_table.specs.Table.{chains};
ghost use Rattle.spec_pair.specs.Pair.{walk};
ghost use Rattle.table_words.specs.Bytes.{layout_in};
ghost use Rattle.table_size.specs.Sizes.{SizeOf, JobIn, BenchIn};
ghost use Rattle.table_pair.specs.Walking.{match_in, walk_of, step_at};

use table_header::heads;
use table_record_form::Kind;
use table_records::Record;
use table_refusals::Refusal;
use table_size::Size;

// What a walk found: the matching job, if there is one, and how many records it read.
#[derive(Clone, Copy)]
pub struct Walked {
    pub job: Option<usize>,
    pub records: usize,
}

// Reads job j's record on bench x's chain: it must name two different benches of 1 to B, and x must hold it. The next
// job on the chain, or None where it names y, too.
fn step_at(t: &[u8], s: Size, x: usize, y: usize, j: usize) -> Result<Option<usize>, Refusal>
    requires size_of { SizeOf t.now s }
    requires job_in { JobIn s j }
    ensures { result ≡ step_at (layout_in t.now) x y j }
{
    let r = table_records::read_record(t, s, j);
    let Record {
        first,
        second,
        next,
        ..
    } = r;
    let Kind::Fitting = table_record_form::kind_of(s, r) else {
        return Err(Refusal::Unsound);
    };
    if table_records::holder_at(t, s, j) != x {
        return Err(Refusal::Unsound);
    }
    if first == y || second == y {
        return Ok(None);
    }
    Ok(Some(next))
}

// Reads bench x's chain up to a match with bench y, a number above `met`, or its end. `met` is the first match; the
// record of a number above it is not read, so that the number is not tested.
pub fn walk(t: &[u8], s: Size, x: usize, y: usize, met: Option<usize>) -> Result<Walked, Refusal>
    requires size_of { SizeOf t.now s }
    requires bench_in { BenchIn s x }
    ensures { result ≡ walk_of (walk (layout_in t.now) x y (match_in met) 0
        (nth (chains (layout_in t.now)) x [])) }
{
    let jobs = s.jobs();
    let mut before = 0;
    let mut records = 0;
    let mut j = heads::head(t, s, x);
    while j != 0 {
        if met.is_some_and(|first| first < j) {
            return Ok(Walked { job: None, records });
        }
        if j <= before || jobs < j {
            return Err(Refusal::Unsound);
        }
        records += 1;
        let Some(next) = step_at(t, s, x, y, j)? else {
            return Ok(Walked {
                job: Some(j),
                records,
            });
        };
        before = j;
        j = next;
    }
    Ok(Walked { job: None, records })
}
