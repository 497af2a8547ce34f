// The form check, of any bytes: refusal 1, refusal 2, or sound. One pass over the table, where every chain rises; else
// the other records, and the chains one after the other. It stands in front of every call that reads a
// table, but the pair question, and each gets the loads from it.
#![tactic(auto)]

ghost use Rattle.std.specs.Prelude.{◌≡◌, ◌+◌, replicate};
ghost use Rattle.spec_table.specs.Table.{most_benches};
ghost use Rattle.table_form.specs.FormCheck.{FormOf};

use table_refusals::Refusal;
use table_size::{PerBench, Size};

// What the form check tells of a sound table: its size, and whether the bytes are the encoding of the board, every
// chain rising.
#[derive(Clone, Copy)]
pub struct Sound {
    pub size: Size,
    pub rising: bool,
}

// Checks any bytes. Where they are sound, `loads` gets the load of each bench. `due` is lent, zeros at first, and free
// afterwards: a call that searches need not clear another array.
pub fn check_with(
    t: &[u8],
    due: &mut PerBench<u16>,
    loads: &mut PerBench<u16>,
) -> Result<Sound, Refusal>
    requires due_value { due.old ≡ replicate (most_benches + 1) 0 }
    requires loads_value { loads.old ≡ replicate (most_benches + 1) 0 }
    ensures { FormOf t.now loads.new result }
{
    let size = Size::of(t)?;
    match table_rising::pass_over(t, size, due, loads) {
        Ok(()) => Ok(Sound { size, rising: true }),
        Err(done) => {
            if table_chain_form::is_formed(t, size, done, loads) {
                Ok(Sound {
                    size,
                    rising: false,
                })
            } else {
                Err(Refusal::Unsound)
            }
        }
    }
}

// Checks any bytes, with an array of its own for the due jobs.
pub fn check(t: &[u8], loads: &mut PerBench<u16>) -> Result<Sound, Refusal>
    requires { loads.old ≡ replicate (most_benches + 1) 0 }
    ensures { FormOf t.now loads.new result }
{
    let mut due = [0; Size::MOST_BENCHES + 1];
    check_with(t, &mut due, loads)
}
