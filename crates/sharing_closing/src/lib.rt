// Closing of a standing job. What it hands along is found first, then the list for it is tested, and only then anything is
// written: the list, and the table.
#![tactic(auto)]

ghost use Rattle.std.specs.Prelude.{◌≡◌, T};
ghost use Rattle.spec_table.specs.Board.{stands};
ghost use Rattle.spec_table.specs.Table.{decode, encode};
ghost use Rattle.spec_sharing.specs.Sharing.{close};
ghost use Rattle.table_board.specs.BoardView.{Loaded};
ghost use Rattle.table_order.specs.InOrder.{InOrder};
ghost use Rattle.sharing_effects.specs.Effects.{lent};
ghost use Rattle.sharing_closing.specs.ClosingResult.{ClosingFound, ClosingOf};

use sharing_effects::Effect;
use sharing_paths::FoundPath;
use table_board::jobs;
use table_refusals::Refusal;
use table_size::{PerBench, Size};

// Finds what a closing of job j hands along: the path's jobs into `path`. The loads lose the job.
pub fn find_closing(
    t: &[u8],
    s: Size,
    loads: &mut PerBench<u16>,
    j: usize,
    path: &mut PerBench<u16>,
) -> FoundPath
    requires in_order { InOrder t.now s }
    requires t { T (stands (decode t.now) j) }
    requires loaded { Loaded (decode t.now) loads.old }
    ensures { ClosingFound (decode t.now) j path.new result }
{
    let x = jobs::holder(t, s, j);
    // Reads the heaviest load before it may fall: a word just written would hold up the reading of all.
    let top = usize::from(s.greatest(loads));
    loads[x] -= 1;
    sharing_paths_to::find_to(t, s, loads, x, top, path)
}

// Closes job j and hands the path's jobs along, the last to the bench that held it.
pub fn apply_closing(t: &mut [u8], s: Size, j: usize, found: FoundPath, path: &PerBench<u16>)
    requires in_order { InOrder t.old s }
    requires t { T (stands (decode t.old) j) }
    requires closing_found { ClosingFound (decode t.old) j path.now found }
    ensures { t.new ≡ encode (close (decode t.old) j).board }
{
    let x = jobs::holder(t, s, j);
    table_splices::remove_job(t, s, j);
    sharing_paths::hand_along(t, s, path, 0, found.jobs, x);
}

// Closes job j on a table in order, and lists the jobs that move: finds, refuses a list that is too short, and then writes.
// `path` is lent: what it holds does not matter.
pub fn close_in_order(
    t: &mut [u8],
    s: Size,
    loads: &mut PerBench<u16>,
    path: &mut PerBench<u16>,
    j: usize,
    list: &mut [u8],
) -> Result<Effect, Refusal>
    requires in_order { InOrder t.old s }
    requires t { T (stands (decode t.old) j) }
    requires loaded { Loaded (decode t.old) loads.old }
    ensures { ClosingOf j (lent t.old list.old)
        (lent t.new list.new) result }
{
    let found = find_closing(t, s, loads, j, path);
    let moved = found.jobs;
    if list.len() < 2 * moved {
        return Err(Refusal::ListTooShort);
    }
    let whole = &path[..];
    table_words::write_list(list, &whole[..moved]);
    apply_closing(t, s, j, found, path);
    Ok(Effect {
        holder: 0,
        bench: found.bench,
        moved,
    })
}
