// The jobs of a board, read from their records, and how many they are. table_splices changes them.
ghost use Rattle.std.specs.Prelude.{◌≡◌};
ghost use Rattle.spec_table.specs.Board.{names_of, stands, standing};
ghost use Rattle.spec_table.specs.Table.{decode};
ghost use Rattle.table_size.specs.Sizes.{JobIn, SoundTable};
ghost use Rattle.table_board.specs.BoardView.{HoldsBoard, Position, NameOf, HolderOf};

use table_size::Size;

// Tells whether job j stands.
pub fn stands(t: &[u8], s: Size, j: usize) -> bool
    requires holds_board { HoldsBoard t.now s }
    requires job_in { JobIn s j }
    ensures { result ≡ stands (decode t.now) j }
{
    let r = table_records::read_record(t, s, j);
    r.first != 0
}

// Reads the number of standing jobs, which a sound table tells.
pub fn standing(t: &[u8], s: Size) -> usize
    requires { SoundTable t.now s }
    ensures { result ≡ standing (decode t.now) }
{
    table_header::standing_word(t, s)
}

// Reads the k-th bench that job j names, counted from 1.
pub fn name(t: &[u8], s: Size, j: usize, k: usize) -> usize
    requires holds_board { HoldsBoard t.now s }
    requires position { Position (names_of (decode t.now) j) k }
    ensures { NameOf t.now s j k result }
{
    let r = table_records::read_record(t, s, j);
    if k == 1 { r.first } else { r.second }
}

// Reads the bench that holds job j, 0 for none.
// Kept: 0 for none is the table's format, here and on chains (`head`, `next`, `first_job`, `next_job`, a gap's ends).
pub fn holder(t: &[u8], s: Size, j: usize) -> usize
    requires holds_board { HoldsBoard t.now s }
    requires job_in { JobIn s j }
    ensures { HolderOf t.now s j result }
{
    table_records::holder_at(t, s, j)
}
