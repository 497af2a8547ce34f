// The files that a test program's arguments name.
#![tactic(auto)]

use std::env::{Env, FillError};
use std::fs::{File, Files};
use std::io::{self, Eprint};

// Bytes that are lent for an argument: as many as the longest path has.
const ROOM: usize = 4096;

// Gives an argument, in the room lent; none where there are no more. One that is too long for a path, or no text,
// counts as empty.
fn argument<'a>(rt: &impl Env, i: usize, room: &'a mut [u8; ROOM]) -> Option<&'a str> {
    match rt.arg(i, room) {
        Ok(n) => Some(std::str::from_utf8(&room[..n]).unwrap_or("")),
        Err(FillError::TooLong) => Some(""),
        Err(FillError::NotPresent) => None,
    }
}

// Serves each path that an argument gives, until one fails.
pub fn for_each<R: Env, F: FnMut(&str) -> io::Result<()>>(rt: &R, mut serve: F) -> io::Result<()>
    requires { F.IsAlwaysCallable serve }
{
    let mut room = [0; ROOM];
    for i in 1..usize::MAX {
        let Some(path) = argument(rt, i, &mut room) else {
            break;
        };
        serve(path)?;
    }
    Ok(())
}

// Opens a file; none, with a line on standard error, where it cannot be opened.
pub fn open<R: Files + Eprint>(rt: &R, path: &str) -> io::Result<Option<R::File>> {
    match File::open(rt, path) {
        Ok(file) => Ok(Some(file)),
        Err(e) => {
            eprintln!(rt; "{path}: {e}")?;
            Ok(None)
        }
    }
}
