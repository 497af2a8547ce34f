// Prints, for each table file that its arguments name, what the form check answers (sound, 1 or 2), then the heaviest
// load and how many benches were counted to find it, or the same refusal. The C call does not tell that number, so it
// is compared here. The files and the expected answers were made by another implementation of the papers: `base` is
// from before the change requests, `requests` from the newest one. `base` came without numbers of benches; they were
// made by a program apart, which follows the words of request 05 on a table's bytes and gives all those of `requests`.
// A file's name tells what damage was tried; where that changed nothing, the table is sound.
#![tactic(auto)]

ghost use Rattle.std.specs.Prelude.{◌≤◌, length};

use std::fs::Files;
use std::io::{self, Eprint, Print, Read};
use table_size::Size;

// Bytes that are read of a file: more than any table has.
const ROOM: usize = 65536;

fn print_table(rt: &impl Print, t: &[u8]) -> io::Result<()> {
    let mut loads = [0; Size::MOST_BENCHES + 1];
    match table_form::check(t, &mut loads) {
        Ok(form) => {
            let heaviest = sharing_loads::find_heaviest(t, form.size, &loads);
            println!(rt; " sound H{} {}", heaviest.load, heaviest.benches)
        }
        // Refuses twice: as the form check, and in place of the heaviest load.
        Err(refusal) => {
            let number = refusal.number();
            println!(rt; " {number} {number}")
        }
    }
}

// Reads until the bytes are full, the input ends or a read fails, and counts the bytes read.
fn read_full(input: &mut impl Read, bytes: &mut [u8]) -> usize
    ensures { result ≤ length bytes.new }
{
    let mut done = 0;
    // Kept: counts by what each read gives, and the count is the answer; a subslice that gets shorter is no plainer.
    while done < bytes.len() {
        let n = input.read(&mut bytes[done..]).unwrap_or(0);
        if n == 0 {
            break;
        }
        done += n;
    }
    done
}

fn print_file<R: Files + Print + Eprint>(rt: &R, path: &str) -> io::Result<()> {
    let Some(mut file) = test_arguments::open(rt, path)? else {
        return Ok(());
    };
    let mut bytes = [0; ROOM];
    let n = read_full(&mut file, &mut bytes);
    print!(rt; "{path}")?;
    print_table(rt, &bytes[..n])
}

fn main(rt: HostRuntime) -> io::Result<()> {
    test_arguments::for_each(&rt, |path| print_file(&rt, path))
}
