// An arrival or a closing on a sound table, in order or not. A table in another order is changed in a copy that is put in
// order; it is copied back if the change was made. Both changes make their copy in one place: so the room for it, as large
// as the largest table, is no part of the frame of a call on a table in order.
#![tactic(auto)]

ghost use Rattle.std.specs.Prelude.{◌≡◌, ◌↔◌, [], ◌∷◌, T, length};
ghost use Rattle.spec_table.specs.Board.{stands};
ghost use Rattle.spec_table.specs.Table.{decode, encode};
ghost use Rattle.spec_calls.specs.Calls.{MayArrive};
ghost use Rattle.table_size.specs.Sizes.{SoundTable};
ghost use Rattle.table_board.specs.BoardView.{Loaded};
ghost use Rattle.table_order.specs.InOrder.{InOrder};
ghost use Rattle.sharing_arrival.specs.ArrivalResult.{ArrivalOf};
ghost use Rattle.sharing_closing.specs.ClosingResult.{ClosingOf};
ghost use Rattle.sharing_effects.specs.Effects.{lent};
ghost use Rattle.sharing_changes.specs.TaskResult.{MayDo, TaskOf};

use sharing_effects::Effect;
use table_refusals::Refusal;
use table_size::{PerBench, Size};

// What is to be done.
// Kept: no plainer as a closure: it would take the table, the loads, the path and the list, all changed, and do_in_copy
// would have to say by F.post what the call left of each of the four, for what TaskOf now says in one line.
#[derive(Clone, Copy)]
enum Task {
    // A job arrives, for two benches.
    Arrive(usize, usize, usize),
    // A job closes.
    Close(usize),
}

// Does the task on a table in order.
fn do_in_order(
    t: &mut [u8],
    s: Size,
    loads: &mut PerBench<u16>,
    path: &mut PerBench<u16>,
    task: Task,
    list: &mut [u8],
) -> Result<Effect, Refusal>
    requires in_order { InOrder t.old s }
    requires may_do { MayDo (decode t.old) task }
    requires loaded { Loaded (decode t.old) loads.old }
    ensures { TaskOf task (lent t.old list.old) (lent t.new list.new) result }
{
    match task {
        Task::Arrive(j, first, second) => {
            sharing_arrival::arrive_in_order(t, s, loads, path, j, first, second, list)
        }
        Task::Close(j) => sharing_closing::close_in_order(t, s, loads, path, j, list),
    }
}

// Does the task in a copy, as long as the table, that is put in order; copies it back if the task was done.
fn do_in_copy(
    t: &mut [u8],
    s: Size,
    loads: &mut PerBench<u16>,
    path: &mut PerBench<u16>,
    task: Task,
    list: &mut [u8],
    copy: &mut [u8],
) -> Result<Effect, Refusal>
    requires sound_table { SoundTable t.old s }
    requires may_do { MayDo (decode t.old) task }
    requires loaded { Loaded (decode t.old) loads.old }
    requires copy_len { length copy.old ≡ length t.old }
    ensures { TaskOf task (lent t.old list.old) (lent t.new list.new) result }
{
    table_copies::copy_in_order(t, s, copy);
    let effect = do_in_order(copy, s, loads, path, task, list)?;
    table_copies::copy_back(copy, t);
    Ok(effect)
}

// Does the task on a table in any order: makes the room for the copy.
fn do_stored(
    t: &mut [u8],
    s: Size,
    loads: &mut PerBench<u16>,
    path: &mut PerBench<u16>,
    task: Task,
    list: &mut [u8],
) -> Result<Effect, Refusal>
    requires sound_table { SoundTable t.old s }
    requires may_do { MayDo (decode t.old) task }
    requires loaded { Loaded (decode t.old) loads.old }
    ensures { TaskOf task (lent t.old list.old) (lent t.new list.new) result }
{
    let mut copy = [0; Size::MOST_BYTES];
    let n = s.bytes();
    do_in_copy(t, s, loads, path, task, list, &mut copy[0..n])
}

// Takes in job j for two benches, and lists the jobs that move. `path` is lent: what it holds does not matter.
pub fn arrive(
    t: &mut [u8],
    s: Size,
    rising: bool,
    loads: &mut PerBench<u16>,
    path: &mut PerBench<u16>,
    j: usize,
    first: usize,
    second: usize,
    list: &mut [u8],
) -> Result<Effect, Refusal>
    requires sound_table { SoundTable t.old s }
    requires variant { T rising ↔ (t.old ≡ encode (decode t.old)) }
    requires may_arrive { MayArrive (decode t.old) j (first ∷ second ∷ []) }
    requires loaded { Loaded (decode t.old) loads.old }
    ensures { ArrivalOf j first second (lent t.old list.old)
        (lent t.new list.new) result }
{
    if rising {
        return sharing_arrival::arrive_in_order(t, s, loads, path, j, first, second, list);
    }
    do_stored(t, s, loads, path, Task::Arrive(j, first, second), list)
}

// Closes job j, which stands, and lists the jobs that move. `path` is lent: what it holds does not matter.
pub fn close(
    t: &mut [u8],
    s: Size,
    rising: bool,
    loads: &mut PerBench<u16>,
    path: &mut PerBench<u16>,
    j: usize,
    list: &mut [u8],
) -> Result<Effect, Refusal>
    requires sound_table { SoundTable t.old s }
    requires variant { T rising ↔ (t.old ≡ encode (decode t.old)) }
    requires t { T (stands (decode t.old) j) }
    requires loaded { Loaded (decode t.old) loads.old }
    ensures { ClosingOf j (lent t.old list.old)
        (lent t.new list.new) result }
{
    if rising {
        return sharing_closing::close_in_order(t, s, loads, path, j, list);
    }
    do_stored(t, s, loads, path, Task::Close(j), list)
}
