// The table's chains copied, in the order they stand, to arrays that a walk reads without the table.
#![tactic(auto)]

ghost use Rattle.std.specs.Prelude.{◌≡◌, ◌+◌, replicate};
ghost use Rattle.spec_table.specs.Table.{most_benches};
ghost use Rattle.table_size.specs.Sizes.{SoundTable};
ghost use Rattle.sharing_chains.specs.StoredChains.{StoredJobs, StoredChains};

use table_board::jobs;
use table_size::{PerBench, PerJob, Size};

// Writes, at each standing job, the job after it on its chain and the other bench that it names.
fn copy_jobs(t: &[u8], s: Size, next: &mut PerJob<u16>, to: &mut PerJob<u16>)
    requires { SoundTable t.now s }
    ensures { StoredJobs t.now next.new to.new }
{
    for j in 1..s.jobs() + 1 {
        let holder = jobs::holder(t, s, j);
        if holder != 0 {
            let other = sharing_steps::other(t, s, j, holder);
            next[j] = table_chains::next(t, s, j) as u16;
            to[j] = other as u16;
        }
    }
}

// Copies all chains.
pub fn copy_chains(
    t: &[u8],
    s: Size,
    head: &mut PerBench<u16>,
    next: &mut PerJob<u16>,
    to: &mut PerJob<u16>,
)
    requires sound_table { SoundTable t.now s }
    requires head_value { head.old ≡ replicate (most_benches + 1) 0 }
    ensures { StoredChains t.now s head.new next.new to.new }
{
    table_chains::copy_heads(t, s, head);
    copy_jobs(t, s, next, to);
}
