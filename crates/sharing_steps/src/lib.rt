// A job as a step: it leads from the bench that holds it to the other bench that it names.
#![tactic(auto)]

ghost use Rattle.std.specs.Prelude.{◌≡◌, ◌≢◌, ◌⊎◌};
ghost use Rattle.spec_table.specs.Board.{holder_of};
ghost use Rattle.spec_table.specs.Table.{decode};
ghost use Rattle.table_board.specs.BoardView.{HoldsBoard, HolderOf};
ghost use Rattle.sharing_steps.specs.Others.{other_of, OtherOf};

use table_board::jobs;
use table_size::Size;

// Finds the bench other than x that job j names, one of whose two benches x is: from the bench that holds the job the
// one that it leads to, and from that one the holder.
pub fn other(t: &[u8], s: Size, j: usize, x: usize) -> usize
    requires holds_board { HoldsBoard t.now s }
    requires x_end { (x ≡ holder_of (decode t.now) j) ⊎ (x ≡ other_of (decode t.now) j) }
    requires x_nonzero { x ≢ 0 }
    ensures other { x ≡ holder_of (decode t.now) j → OtherOf (decode t.now) s j result }
    ensures origin { x ≡ other_of (decode t.now) j → HolderOf t.now s j result }
{
    // Costs no branch that a processor guesses wrong every other time, and no load that waits for another: the holder
    // word would be read first, then the name at the place it tells.
    jobs::name(t, s, j, 1) + jobs::name(t, s, j, 2) - x
}
