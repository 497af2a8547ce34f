// Keys of benches, such as loads: whether a bench that is wanted was found.
ghost use Rattle.graph_lists.specs.Arrays.{Tells};
ghost use Rattle.graph_lists.specs.Keys.{QueuedIn, WantedIn};

use table_size::PerBench;

// Tells whether a wanted bench, one with a key of at most `limit`, stands in the queue from place `begin` to
// `end`.
#[tactic(auto, using(crate::proofs::Keying::wanted_turn, crate::proofs::Keying::wanted_end))]
pub fn wanted_among(
    queue: &PerBench<u16>,
    begin: usize,
    end: usize,
    key: &PerBench<u16>,
    limit: u16,
) -> bool
    requires { QueuedIn queue.now begin end }
    ensures { Tells (WantedIn queue.now begin end key.now limit) result }
{
    (begin..end).any(|i| key[usize::from(queue[i])] <= limit)
}
