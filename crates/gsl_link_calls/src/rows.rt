//! Rows of tables by heads, 0 where there is none.

ghost use Rattle.std.specs.Prelude.{◌≡◌, slice_index, slice_set};

pub(crate) fn byte_at(rows: &[u8], head: u32) -> u8
    ensures { result ≡ slice_index rows.now head }
{
    match rows.get(head as usize) {
        Some(byte) => *byte,
        None => 0,
    }
}

pub(crate) fn word_at(rows: &[u32], head: u32) -> u32
    ensures { result ≡ slice_index rows.now head }
{
    match rows.get(head as usize) {
        Some(word) => *word,
        None => 0,
    }
}

pub(crate) fn put_word(rows: &mut Vec<u32>, head: u32, word: u32)
    ensures { rows.new.items ≡ slice_set rows.old.items head word }
{
    if (head as usize) < rows.len() {
        rows[head as usize] = word;
    }
}

pub(crate) fn number_at(rows: &[usize], head: usize) -> usize
    ensures { result ≡ slice_index rows.now head }
{
    match rows.get(head) {
        Some(number) => *number,
        None => 0,
    }
}

pub(crate) fn put_number(rows: &mut Vec<usize>, head: u32, number: usize)
    ensures { rows.new.items ≡ slice_set rows.old.items head number }
{
    if (head as usize) < rows.len() {
        rows[head as usize] = number;
    }
}
