//! Absolute values, signs, and the lesser and the greater of two words.

ghost use Rattle.std.specs.Prelude.{◌≡◌, pos, unsigned_abs};
ghost use Rattle.std.specs.Int.{int_min, int_max, int_signum};
ghost use Rattle.gsl_values.specs.Word.{value, word_of};

use crate::operators::is_less;

/// The absolute value; that of the least `int` is itself.
pub fn absolute(signed: bool, a: u32) -> u32
    ensures { result ≡ word_of (pos (unsigned_abs (value signed a))) }
{
    if signed {
        a.cast_signed().unsigned_abs()
    } else {
        a
    }
}

/// -1, 0 or 1.
pub fn sign_of(signed: bool, a: u32) -> u32
    ensures { result ≡ word_of (int_signum (value signed a)) }
{
    if signed {
        a.cast_signed().signum().cast_unsigned()
    } else {
        a.min(1)
    }
}

/// The lesser of two words.
pub fn lesser(signed: bool, a: u32, b: u32) -> u32
    ensures { value signed result ≡ int_min (value signed a) (value signed b) }
{
    if is_less(signed, b, a) { b } else { a }
}

/// The greater of two words.
pub fn greater(signed: bool, a: u32, b: u32) -> u32
    ensures { value signed result ≡ int_max (value signed a) (value signed b) }
{
    if is_less(signed, b, a) { a } else { b }
}
