//! Operators and built-in functions on words, one by one.

use crate::misread::Misread;
use crate::names::{binary, builtin, unary};
use gsl_base::{Bytes, Choices32};
use gsl_values::Choices;
use std::alloc::Global;

/// Prints the word that an operator or a built-in function gives, and how many choices are then left: `NAME TYPE WORDS <- CHOICES`,
/// with words and choices in hexadecimal digits.
pub fn put_computed(alloc: Global, out: &mut Bytes, rest: &str) -> Result<(), Misread> {
    let (left, right) = rest.split_once("<-").unwrap_or((rest, ""));
    let mut choices = choices(alloc, right)?;
    let word = computed(left, &mut choices)?;
    let left = choices.left();
    let text = format!(in alloc; "{word:08x} left {left}\n")?;
    out.extend_from_slice(text.as_bytes())?;
    Ok(())
}

fn choices(alloc: Global, text: &str) -> Result<Choices, Misread> {
    let mut list = Choices32::new(alloc);
    for digits in text.split_whitespace() {
        list.push(hex(digits)?)?;
    }
    if list.len() > 1000 {
        return Err(Misread::Form);
    }
    Ok(Choices::new(list))
}

fn hex(digits: &str) -> Result<u32, Misread> {
    u32::from_str_radix(digits, 16).map_err(|_| Misread::Form)
}

/// What an operator or a function gives on words of a type.
fn computed(text: &str, choices: &mut Choices) -> Result<u32, Misread> {
    let (name, rest) = text.split_once(' ').unwrap_or((text, ""));
    let (ty, rest) = rest.split_once(' ').unwrap_or((rest, ""));
    let signed = ty == "int";
    let args = arguments(rest)?;
    if let Some(op) = binary(name) {
        return Ok(gsl_values::binary(op, signed, args[0], args[1], choices));
    }
    if let Some(op) = unary(name) {
        return Ok(gsl_values::unary(op, args[0]));
    }
    match builtin(name) {
        Some(which) => Ok(gsl_values::builtin(which, signed, &args, choices)),
        None => Err(Misread::Form),
    }
}

/// Up to four words, and zeros behind them.
fn arguments(text: &str) -> Result<[u32; 4], Misread> {
    let mut words = [0; 4];
    let mut count: u32 = 0;
    for digits in text.split_whitespace() {
        if count >= 4 {
            return Err(Misread::Form);
        }
        words[count as usize] = hex(digits)?;
        count += 1;
    }
    Ok(words)
}
