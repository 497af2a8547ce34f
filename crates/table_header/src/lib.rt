// What stands before the records. Words 0 to 3: B; J; number of standing jobs; 0.
#![tactic(auto)]

ghost use Rattle.std.specs.Prelude.{◌≡◌, cond, ◌<◌, length, is_ok, IfErr};
ghost use Rattle.spec_table.specs.Table.{sizes_fit, blank_table};
ghost use Rattle.table_words.specs.Bytes.{layout_in};
ghost use Rattle.table_size.specs.Sizes.{SizeOf};
ghost use Rattle.table_size.specs.Written.{HasLayout, with_standing};

use table_refusals::Refusal;
use table_size::Size;

pub mod heads;

// Reads word 2.
pub fn standing_word(t: &[u8], s: Size) -> usize
    requires { SizeOf t.now s }
    ensures { result ≡ (layout_in t.now).standing }
{
    table_words::read(t, 2)
}

// Reads word 3.
pub fn spare_word(t: &[u8], s: Size) -> usize
    requires { SizeOf t.now s }
    ensures { result ≡ (layout_in t.now).spare }
{
    table_words::read(t, 3)
}

// Writes the number of standing jobs, and 0 after it.
pub fn write_standing(t: &mut [u8], s: Size, count: usize)
    requires size_of { SizeOf t.old s }
    requires count_bound { count < 65536 }
    ensures { HasLayout t.new s (with_standing (layout_in t.old) count) }
{
    table_words::write(t, 2, count);
    table_words::write(t, 3, 0);
}

// Writes a table without jobs, whatever the bytes were; refusal 1, and no byte changed, where the sizes do not fit.
pub fn blank(t: &mut [u8], benches: usize, jobs: usize) -> Result<(), Refusal>
    ensures value { is_ok result ≡ sizes_fit (length t.old) benches jobs }
    ensures refusal { IfErr result (λ r. r ≡ Refusal.Sizes) }
    ensures t_after { t.new ≡ cond (is_ok result) (blank_table benches jobs) t.old }
{
    let s = Size::new(benches, jobs)?;
    if t.len() != s.bytes() {
        return Err(Refusal::Sizes);
    }
    table_words::clear(t);
    table_words::write(t, 0, benches);
    table_words::write(t, 1, jobs);
    Ok(())
}
