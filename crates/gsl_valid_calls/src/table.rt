//! Rows of tables by ids.

ghost use Rattle.std.specs.Prelude.{◌≡◌, slice_index, slice_set};

/// The byte of an id, 0 where it has none.
pub(crate) fn byte_at(rows: &[u8], id: u32) -> u8
    ensures { result ≡ slice_index rows.now id }
{
    match rows.get(id as usize) {
        Some(byte) => *byte,
        None => 0,
    }
}

/// Puts the byte of an id, if it has a row.
pub(crate) fn put_byte(rows: &mut Vec<u8>, id: u32, byte: u8)
    ensures { rows.new.items ≡ slice_set rows.old.items id byte }
{
    if (id as usize) < rows.len() {
        rows[id as usize] = byte;
    }
}

/// The word of an id, 0 where it has none.
pub(crate) fn word_at(rows: &[u32], id: u32) -> u32
    ensures { result ≡ slice_index rows.now id }
{
    match rows.get(id as usize) {
        Some(word) => *word,
        None => 0,
    }
}

/// Puts the word of an id, if it has a row.
pub(crate) fn put_word(rows: &mut Vec<u32>, id: u32, word: u32)
    ensures { rows.new.items ≡ slice_set rows.old.items id word }
{
    if (id as usize) < rows.len() {
        rows[id as usize] = word;
    }
}
