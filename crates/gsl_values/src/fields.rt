//! Bit fields.

ghost use Rattle.std.specs.Prelude.{◌≡◌, ◌≤◌, ◌+◌, ◌-◌, ◌^◌};
ghost use Rattle.gsl_values.specs.Word.{word_of_bits};
ghost use Rattle.gsl_values.specs.Functions.{is_free_field, extracted_bit, inserted_bit};

/// Whether the language leaves a field open: offset and count are `int`, and neither may be negative nor
/// their sum more than 32.
pub fn is_free_field(offset: u32, bits: u32) -> bool
    ensures { result ≡ is_free_field offset bits }
{
    offset > 32 || bits > 32 - offset
}

/// So many bits from an offset on, as a word; those of an `int` extend their sign.
pub fn extracted(signed: bool, a: u32, offset: u32, bits: u32) -> u32
    requires { offset + bits ≤ 32 }
    ensures { result ≡ word_of_bits (extracted_bit signed a offset bits) }
{
    if bits == 0 {
        return 0;
    }
    let ones = low_ones(bits);
    let field = (a >> offset) & ones;
    if signed && (a >> (offset + bits - 1)) & 1 == 1 {
        field | !ones
    } else {
        field
    }
}

/// The base with so many of the lowest bits of the other word put in at an offset.
pub fn inserted(base: u32, insert: u32, offset: u32, bits: u32) -> u32
    requires { offset + bits ≤ 32 }
    ensures { result ≡ word_of_bits (inserted_bit base insert offset bits) }
{
    if bits == 0 {
        return base;
    }
    let mask = low_ones(bits) << offset;
    (base & !mask) | ((insert << offset) & mask)
}

/// The word whose lowest bits, so many, are 1.
fn low_ones(bits: u32) -> u32
    requires { bits ≤ 32 }
    ensures { result ≡ 2 ^ bits - 1 }
{
    if bits == 32 {
        u32::MAX
    } else {
        (1 << bits) - 1
    }
}
