// A bench in the set brings in its chain, and each job on that chain brings in its other bench: the bench visit and
// the chain walk call each other. At each call the pair of unmarked benches and remaining chain falls. The chains are
// the table's, in the order they stand.
#![tactic(auto)]

ghost use Rattle.std.specs.Prelude.{◌≡◌, T};
ghost use Rattle.spec_lists.specs.Lists.{within};
ghost use Rattle.spec_table.specs.Table.{most_benches};
ghost use Rattle.sharing_visits.specs.ArrayChains.{Walkable, BenchChains, FromChain, Leads};
ghost use Rattle.sharing_visits.specs.Marks.{FromHeavy, ClosedOver};

use table_size::{PerBench, PerJob, Size};

// Marks bench x and what it brings in.
#[cycle(visit_walk)]
fn visit(
    head: &PerBench<u16>,
    next: &PerJob<u16>,
    to: &PerJob<u16>,
    x: usize,
    marks: &mut PerBench<bool>,
)
    requires bench_chains { BenchChains head.now next.now to.now }
    requires t { T (within 1 most_benches x) }
    ensures { ClosedOver (Leads head.now next.now to.now) (λ y. y ≡ x)
        marks.old marks.new }
{
    if marks[x] {
        return;
    }
    marks[x] = true;
    walk(head, next, to, usize::from(head[x]), marks);
}

// Marks what the chain from job j on brings in.
#[cycle(visit_walk)]
fn walk(
    head: &PerBench<u16>,
    next: &PerJob<u16>,
    to: &PerJob<u16>,
    j: usize,
    marks: &mut PerBench<bool>,
)
    requires bench_chains { BenchChains head.now next.now to.now }
    requires walkable { Walkable next.now to.now j }
    ensures { ClosedOver (Leads head.now next.now to.now)
        (FromChain next.now to.now j) marks.old marks.new }
{
    if j == 0 {
        return;
    }
    visit(head, next, to, usize::from(to[j]), marks);
    // Keeps this call last: compiled, it is a loop along the chain and takes no stack.
    walk(head, next, to, usize::from(next[j]), marks);
}

// Marks what the chains of the benches with load h or more bring in.
pub fn walk_heavy(
    s: Size,
    head: &PerBench<u16>,
    next: &PerJob<u16>,
    to: &PerJob<u16>,
    loads: &PerBench<u16>,
    h: usize,
    marks: &mut PerBench<bool>,
)
    requires { BenchChains head.now next.now to.now }
    ensures { ClosedOver (Leads head.now next.now to.now)
        (FromHeavy s loads.now h (Leads head.now next.now to.now))
        marks.old marks.new }
{
    for x in 1..s.benches() + 1 {
        if h <= usize::from(loads[x]) {
            walk(head, next, to, usize::from(head[x]), marks);
        }
    }
}
