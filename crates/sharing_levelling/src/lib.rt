// Levelling, and whether a board is level.
#![tactic(auto)]

ghost use Rattle.std.specs.Prelude.{◌≡◌, ◌↔◌, T, length};
ghost use Rattle.spec_sharing.specs.Sharing.{level};
ghost use Rattle.spec_table.specs.Table.{decode, encode};
ghost use Rattle.table_size.specs.Sizes.{SoundTable};
ghost use Rattle.table_board.specs.BoardView.{Loaded};
ghost use Rattle.sharing_levelling.specs.LevellingResult.{LevellingOf};

use table_size::{PerBench, Size};

// What levelling reports: the paths flipped, and whether no improving path is left.
#[derive(Clone, Copy)]
pub struct Levelling {
    pub paths: u32,
    pub level: bool,
}

// Tells whether no improving path is left, of a table in any order: in a copy, as long as the table, that is put in
// order. What the queue holds does not matter.
fn is_level_copy(
    t: &[u8],
    s: Size,
    loads: &PerBench<u16>,
    queue: &mut PerBench<u16>,
    copy: &mut [u8],
) -> bool
    requires sound_table { SoundTable t.now s }
    requires loaded { Loaded (decode t.now) loads.now }
    requires copy_len { length copy.old ≡ length t.now }
    ensures { result ≡ level (decode t.now) }
{
    table_copies::copy_in_order(t, s, copy);
    sharing_start::first_start(copy, s, loads, queue).is_none()
}

// Tells whether no improving path is left. What the queue holds does not matter.
pub fn is_level(
    t: &[u8],
    s: Size,
    rising: bool,
    loads: &PerBench<u16>,
    queue: &mut PerBench<u16>,
) -> bool
    requires sound_table { SoundTable t.now s }
    requires variant { T rising ↔ (t.now ≡ encode (decode t.now)) }
    requires loaded { Loaded (decode t.now) loads.now }
    ensures { result ≡ level (decode t.now) }
{
    if rising {
        sharing_start::first_start(t, s, loads, queue).is_none()
    } else {
        let mut copy = [0; Size::MOST_BYTES];
        let n = s.bytes();
        is_level_copy(t, s, loads, queue, &mut copy[0..n])
    }
}

// Flips one path after the other, while an improving one is left and the allowance is not used up. A table in another
// order is put in order first. The loads follow: a path's first bench has one job less, its last one more. What the
// path's array holds at first does not matter.
pub fn relevel(
    t: &mut [u8],
    s: Size,
    rising: bool,
    loads: &mut PerBench<u16>,
    path: &mut PerBench<u16>,
    allowance: u32,
) -> Levelling
    requires sound_table { SoundTable t.old s }
    requires variant { T rising ↔ (t.old ≡ encode (decode t.old)) }
    requires loaded { Loaded (decode t.old) loads.old }
    ensures { LevellingOf t.old t.new allowance result }
{
    table_copies::put_in_order(t, s, rising);
    // Between two paths the path's array is the queue of the search for the next start.
    let mut start = sharing_start::first_start(t, s, loads, path);
    for paths in 0..allowance {
        let Some(x) = start else {
            return Levelling { paths, level: true };
        };
        let found = sharing_paths_from::find_from(t, s, loads, x, None, path);
        let y = found.bench;
        sharing_paths::hand_along(t, s, path, 0, found.jobs, y);
        loads[x] -= 1;
        loads[y] += 1;
        start = sharing_start::first_start(t, s, loads, path);
    }
    Levelling {
        paths: allowance,
        level: start.is_none(),
    }
}
