//! The fields of a line, from left to right. Each function takes the bytes that are left, and gives
//! what it read with the bytes behind it, or `None` where they do not begin with it.

ghost use Rattle.std.specs.Prelude.{◌≡◌, ◌≤◌, ◌<◌, List, length, take, drop, IfOk};
ghost use Rattle.std.specs.Option.{option_map};
ghost use Rattle.gsl_manifest.specs.Numbers as numbers;
ghost use Rattle.gsl_manifest.specs.Fields as spec;

use gsl_base::{List, Memory, Text};
use gsl_text::natural;
use std::alloc::Global;

/// A decimal number, which has no zero in front of its digits.
#[tactic(auto, unfolding(crate::specs::Numbers::decimal_of))]
fn decimal(digits: &[u8]) -> Option<u32>
    ensures { result ≡ numbers.decimal_of digits.now }
{
    match digits {
        [b'0', _, ..] => None,
        _ => natural(10, digits),
    }
}

/// A number without sign: decimal, or hexadecimal behind `0x`.
fn unsigned(field: &[u8]) -> Option<u32>
    ensures { result ≡ numbers.unsigned field.now }
{
    match field.strip_prefix(b"0x") {
        Some(digits) => natural(16, digits),
        None => decimal(field),
    }
}

/// The word of a number below zero, down to -2^31.
fn below_zero(magnitude: u32) -> Option<u32>
    ensures { result ≡ numbers.below_zero magnitude }
{
    if magnitude > 1 << 31 {
        return None;
    }
    Some(magnitude.wrapping_neg())
}

/// The word of a number: one without sign, or `-` and decimal digits.
fn number(field: &[u8]) -> Option<u32>
    ensures { result ≡ numbers.number field.now }
{
    match field.strip_prefix(b"-") {
        Some(digits) => below_zero(decimal(digits)?),
        None => unsigned(field),
    }
}

/// How many spaces the bytes begin with.
fn gap_len(bytes: &[u8]) -> usize
    ensures value { result ≡ spec.gap_len bytes.now }
    ensures within { result ≤ length bytes.now }
{
    bytes.iter().take_while(|byte| **byte == b' ').count()
}

/// How many bytes stand before the first space.
fn field_len(bytes: &[u8]) -> usize
    ensures value { result ≡ spec.field_len bytes.now }
    ensures within { result ≤ length bytes.now }
{
    bytes.iter().take_while(|byte| **byte != b' ').count()
}

/// What stands behind one or more spaces, if anything does.
#[tactic(auto, unfolding(crate::specs::Fields::behind_gap))]
fn behind_gap(bytes: &[u8]) -> Option<&[u8]>
    ensures { option_map (λ rest. rest.now) result ≡ spec.behind_gap bytes.now }
{
    let gap = gap_len(bytes);
    if gap == 0 || gap == bytes.len() {
        return None;
    }
    Some(&bytes[gap..])
}

/// A field that stands first, and what stands behind it.
pub fn first_field(bytes: &[u8]) -> (&[u8], &[u8])
    ensures { (result.0.now, result.1.now) ≡ spec.field_at bytes.now }
{
    bytes.split_at(field_len(bytes))
}

/// The next field.
#[tactic(auto, unfolding(crate::specs::Fields::next_field))]
fn next_field(bytes: &[u8]) -> Option<(&[u8], &[u8])>
    ensures { option_map (λ read. (read.0.now, read.1.now)) result ≡ spec.next_field bytes.now }
{
    Some(first_field(behind_gap(bytes)?))
}

/// The next field, a number.
#[tactic(auto, unfolding(crate::specs::Fields::number_at))]
pub fn next_number(bytes: &[u8]) -> Option<(u32, &[u8])>
    ensures { option_map (λ read. (read.0, read.1.now)) result ≡ spec.number_at bytes.now }
{
    let (field, rest) = next_field(bytes)?;
    let value = number(field)?;
    Some((value, rest))
}

/// The next field, a number without sign.
#[tactic(auto, unfolding(crate::specs::Fields::unsigned_at))]
pub fn next_unsigned(bytes: &[u8]) -> Option<(u32, &[u8])>
    ensures { option_map (λ read. (read.0, read.1.now)) result ≡ spec.unsigned_at bytes.now }
{
    let (field, rest) = next_field(bytes)?;
    let value = unsigned(field)?;
    Some((value, rest))
}

/// The last field, a number.
pub fn last_number(bytes: &[u8]) -> Option<u32>
    ensures { result ≡ spec.last (spec.number_at bytes.now) }
{
    let (value, rest) = next_number(bytes)?;
    if !rest.is_empty() {
        return None;
    }
    Some(value)
}

/// The last field, a number without sign.
pub fn last_unsigned(bytes: &[u8]) -> Option<u32>
    ensures { result ≡ spec.last (spec.unsigned_at bytes.now) }
{
    let (value, rest) = next_unsigned(bytes)?;
    if !rest.is_empty() {
        return None;
    }
    Some(value)
}

/// The last three fields, numbers.
#[tactic(auto, unfolding(crate::specs::Fields::three_at))]
pub fn last_three(bytes: &[u8]) -> Option<[u32; 3]>
    ensures { result ≡ spec.three_at bytes.now }
{
    let (x, rest) = next_number(bytes)?;
    let (y, rest) = next_number(rest)?;
    let z = last_number(rest)?;
    Some([x, y, z])
}

/// The numbers of all fields that are left, if there are at most so many.
fn all_numbers(alloc: Global, most: usize, bytes: &[u8]) -> Result<Option<List<u32>>, Memory>
    ensures { IfOk result (λ found. found ≡ spec.numbers_at most bytes.now) }
{
    let mut numbers = List::new(alloc);
    let mut rest = bytes;
    let mut left = most;
    while !rest.is_empty() {
        if left == 0 {
            return Ok(None);
        }
        let Some((value, more)) = next_number(rest) else {
            return Ok(None);
        };
        numbers.push(value)?;
        rest = more;
        left -= 1;
    }
    Ok(Some(numbers))
}

/// The numbers of all fields that are left, if there are some and at most so many.
pub fn some_numbers(alloc: Global, most: usize, bytes: &[u8]) -> Result<Option<List<u32>>, Memory>
    ensures { IfOk result (λ found. found ≡ spec.some_numbers_at most bytes.now) }
{
    let Some(numbers) = all_numbers(alloc, most, bytes)? else {
        return Ok(None);
    };
    if numbers.is_empty() {
        return Ok(None);
    }
    Ok(Some(numbers))
}

/// A path: all that stands behind the spaces.
#[tactic(auto, unfolding(crate::specs::Fields::path_at))]
pub fn path(alloc: Global, bytes: &[u8]) -> Result<Option<Text>, Memory>
    ensures { IfOk result (λ found. found ≡ spec.path_at bytes.now) }
{
    let Some(path) = behind_gap(bytes) else {
        return Ok(None);
    };
    let Ok(path) = str::from_utf8(path) else {
        return Ok(None);
    };
    Ok(Some(Text::from_str(alloc, path)?))
}
