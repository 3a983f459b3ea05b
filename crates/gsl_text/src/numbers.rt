//! Numbers without sign.

ghost use Rattle.std.specs.Prelude.{◌≡◌, ◌≤◌};
ghost use Rattle.gsl_text.specs.Numbers as spec;

/// The number that one digit or more write in the base, if a word holds it.
pub fn natural(base: u32, digits: &[u8]) -> Option<u32>
    requires low { 2 ≤ base }
    requires high { base ≤ 16 }
    ensures { result ≡ spec.natural base digits.now }
{
    if digits.is_empty() {
        return None;
    }
    let mut value: u32 = 0;
    for byte in digits {
        let digit = char::from(*byte).to_digit(base)?;
        value = value.checked_mul(base)?.checked_add(digit)?;
    }
    Some(value)
}

/// A number without sign: decimal, or hexadecimal behind `0x`.
pub fn unsigned(field: &[u8]) -> Option<u32>
    ensures { result ≡ spec.unsigned field.now }
{
    match field.strip_prefix(b"0x") {
        Some(digits) => natural(16, digits),
        None => natural(10, field),
    }
}
