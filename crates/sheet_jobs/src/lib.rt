// The jobs of each bench, listed in rising order.
#![tactic(auto)]

ghost use Rattle.std.specs.Prelude.{◌≡◌, ◌+◌, replicate};
ghost use Rattle.spec_table.specs.Table.{most_benches, decode};
ghost use Rattle.table_size.specs.Sizes.{SoundTable};
ghost use Rattle.sheet_jobs.specs.JobLists.{JobLists};

use table_board::jobs;
use table_size::{PerBench, PerJob, Size};

// Lists the jobs by the benches that hold them, whatever the order of the chains is: `head` gets each bench's first
// job, `next` the one after each. The numbers without a job come under 0.
// Kept: no call of lists::list_by, no plainer: a loop as long as this one would first fill the array of its keys.
pub fn list_jobs(t: &[u8], s: Size, head: &mut PerBench<u16>, next: &mut PerJob<u16>)
    requires sound_table { SoundTable t.now s }
    requires head_value { head.old ≡ replicate (most_benches + 1) 0 }
    ensures { JobLists (decode t.now) head.new next.new }
{
    for j in (1..s.jobs() + 1).rev() {
        let x = jobs::holder(t, s, j);
        next[j] = head[x];
        head[x] = j as u16;
    }
}
