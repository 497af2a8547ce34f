// Words in bytes: "A word is 16 bits, two bytes, low byte first."
#![tactic(auto)]

ghost use Rattle.std.specs.Prelude.{◌≡◌, ◌+◌, ◌*◌, ◌<◌, ◌≤◌, length, replicate};
ghost use Rattle.spec_table.specs.Table.{in_list};
ghost use Rattle.table_words.specs.Bytes.{IsWord, set_word};

// Reads word i.
pub fn read(bytes: &[u8], i: usize) -> usize
    requires { 2 * i + 1 < length bytes.now }
    ensures { IsWord bytes.now i result }
{
    usize::from(bytes[2 * i]) + 256 * usize::from(bytes[2 * i + 1])
}

// Writes word i.
pub fn write(bytes: &mut [u8], i: usize, word: usize)
    requires i_in_bounds { 2 * i + 1 < length bytes.old }
    requires word_bound { word < 65536 }
    ensures { bytes.new ≡ set_word bytes.old i word }
{
    bytes[2 * i] = (word % 256) as u8;
    bytes[2 * i + 1] = (word / 256 % 256) as u8;
}

// Writes words at the beginning of a list of bytes that has room for them.
pub fn write_list(list: &mut [u8], words: &[u16])
    requires { 2 * length words.now ≤ length list.old }
    ensures { list.new ≡ in_list words.now list.old }
{
    for (i, &word) in words.iter().enumerate() {
        write(list, i, usize::from(word));
    }
}

// Clears all bytes.
pub fn clear(bytes: &mut [u8])
    ensures { bytes.new ≡ replicate (length bytes.old) 0 }
{
    bytes.fill(0);
}
