//! Words of 32 bits in bytes, the least byte first; bytes past the end are zeros, and none is written there.

ghost use Rattle.std.specs.Prelude.{◌≡◌, ◌+◌, ◌^◌, ◌<◌, set, slice_index};
ghost use Rattle.gsl_words.specs.Words as spec;

/// A byte, or zero past the end.
fn byte_at(bytes: &[u8], at: usize) -> u8
    ensures { result ≡ slice_index bytes.now at }
{
    if at < bytes.len() { bytes[at] } else { 0 }
}

/// The word of the four bytes from an offset on.
#[tactic(auto, unfolding(gsl_words::specs::Words::word_at))]
pub(crate) fn word_at(bytes: &[u8], at: usize) -> u32
    requires { at + 3 < 2 ^ 64 }
    ensures { result ≡ spec.word_at bytes.now at }
{
    let a = u32::from(byte_at(bytes, at));
    let b = u32::from(byte_at(bytes, at + 1));
    let c = u32::from(byte_at(bytes, at + 2));
    let d = u32::from(byte_at(bytes, at + 3));
    a + 256 * b + 65536 * c + 16777216 * d
}

/// Changes a byte, if it is there.
fn put_byte(bytes: &mut [u8], at: usize, byte: u8)
    ensures { bytes.new ≡ set bytes.old at byte }
{
    if at < bytes.len() {
        bytes[at] = byte;
    }
}

/// Changes the four bytes from an offset on to those of a word.
#[tactic(auto, unfolding(gsl_words::specs::Words::put_word))]
pub(crate) fn put_word(bytes: &mut [u8], at: usize, word: u32)
    requires { at + 3 < 2 ^ 64 }
    ensures { bytes.new ≡ spec.put_word bytes.old at word }
{
    put_byte(bytes, at, (word % 256) as u8);
    put_byte(bytes, at + 1, (word / 256 % 256) as u8);
    put_byte(bytes, at + 2, (word / 65536 % 256) as u8);
    put_byte(bytes, at + 3, (word / 16777216 % 256) as u8);
}
