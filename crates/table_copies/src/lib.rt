// Tables put in order: a table itself, or a copy of it.
#![tactic(auto)]

ghost use Rattle.std.specs.Prelude.{◌≡◌, ◌↔◌, T, length};
ghost use Rattle.spec_table.specs.Table.{decode, encode};
ghost use Rattle.table_size.specs.Sizes.{SoundTable};
ghost use Rattle.table_order.specs.InOrder.{TableOf};

use table_size::Size;

// Puts the chains of a table in order, unless they rise.
pub fn put_in_order(t: &mut [u8], s: Size, rising: bool)
    requires sound_table { SoundTable t.old s }
    requires variant { T rising ↔ (t.old ≡ encode (decode t.old)) }
    ensures { TableOf t.new s (decode t.old) }
{
    if !rising {
        table_chains::rebuild_chains(t, s);
    }
}

// Copies a table and puts the copy's chains in order; the table stays as it is.
pub fn copy_in_order(t: &[u8], s: Size, copy: &mut [u8])
    requires sound_table { SoundTable t.now s }
    requires copy_len { length copy.old ≡ length t.now }
    ensures { TableOf copy.new s (decode t.now) }
{
    copy.copy_from_slice(t);
    table_chains::rebuild_chains(copy, s);
}

// Copies a changed copy back to its table.
pub fn copy_back(copy: &[u8], t: &mut [u8])
    requires { length t.old ≡ length copy.now }
    ensures { t.new ≡ copy.now }
{
    t.copy_from_slice(copy);
}
