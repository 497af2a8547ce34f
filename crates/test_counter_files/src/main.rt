// The counter program on each file that its arguments name, twice: as it reads standard input, and a byte at a time.
// The files and the expected answers were made by another implementation of document 01 with request 04. For path-4.in,
// which has the longest moves, it gave all but the moved jobs; these were worked out by two more programs. Two files
// were worked out by hand: every-line.in has every kind of line and of unreadable line; in lower-benches.in benches 4
// and 5 are the heaviest, and those below them have to be shared as well as if they stood alone.
#![tactic(auto)]

use std::fs::Files;
use std::io::{self, Eprint, Print};

// Bytes that are read at a time, as the counter program reads them.
const AT_ONCE: usize = 65536;

fn serve_file<R: Files + Print + Eprint>(rt: &R, path: &str, most: usize) -> io::Result<()> {
    if let Some(mut file) = test_arguments::open(rt, path)? {
        counter_io::serve(&mut file, &mut io::writer(rt), most);
    }
    Ok(())
}

fn main(rt: HostRuntime) -> io::Result<()> {
    test_arguments::for_each(&rt, |path| {
        serve_file(&rt, path, AT_ONCE)?;
        serve_file(&rt, path, 1)
    })
}
