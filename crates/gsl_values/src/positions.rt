//! Positions of bits.

ghost use Rattle.std.specs.Prelude.{ℕ, ◌≡◌, ◌<◌, ◌==◌, not};
ghost use Rattle.std.specs.Int.{bit_at};
ghost use Rattle.gsl_values.specs.Word.{word_of};
ghost use Rattle.gsl_values.specs.Functions.{lowest, highest, sign_bit};

/// The position of the lowest 1, or -1 where there is none.
pub fn lowest_one(a: u32) -> u32
    ensures { result ≡ word_of (lowest (λ i. bit_at a i == 1) 0 32) }
{
    if a == 0 { u32::MAX } else { a.trailing_zeros() }
}

/// The position of the highest bit that differs from the sign, or -1 where there is none.
pub fn highest_bit(signed: bool, a: u32) -> u32
    ensures { result ≡ word_of (highest (λ i. not (bit_at a i == sign_bit signed a)) 32) }
{
    let differing = differing_bits(signed, a);
    if differing == 0 {
        u32::MAX
    } else {
        31 - differing.leading_zeros()
    }
}

/// The word whose bits are 1 where those of `a` differ from its sign.
fn differing_bits(signed: bool, a: u32) -> u32
    ensures { (i : ℕ) → i < 32 → not (bit_at a i == sign_bit signed a) ≡ (bit_at result i == 1) }
{
    if signed && a >= 0x8000_0000 { !a } else { a }
}
