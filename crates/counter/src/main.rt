// The counter program: it reads lines from standard input and prints one line each.
#![tactic(auto)]

fn main(rt: HostRuntime) {
    counter_io::serve(&mut rt.stdin(), &mut rt.stdout(), 65536);
}
