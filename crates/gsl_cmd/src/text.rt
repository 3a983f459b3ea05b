//! The texts that the program prints.

ghost use Rattle.std.specs.Prelude.{◌≡◌, ◌+◌, ◌%◌, [], IfOk, slice_index_or};
ghost use Rattle.gsl_cmd.specs.Texts.{fault_text as text_of_fault, told_fault as text_told, four_digits as digits_of, line_text as text_of_line, long_text as text_of_long};

use gsl_base::{Bytes, Fault, Memory, Text};
use std::alloc::Global;

/// What is printed where the outside failed.
pub const HOST_TEXT: &[u8] = b"ERROR: host\n";

/// The line that reports a fault of the file that has this name: `ERROR: FILE:LINE: Ennnn`.
fn fault_text(alloc: Global, file: &str, fault: &Fault) -> Result<Bytes, Memory>
    ensures { IfOk result (λ text. text ≡ text_of_fault file.now fault.now) }
{
    let mut text = Bytes::new(alloc);
    text.extend_from_slice(b"ERROR: ")?;
    text.extend_from_slice(file.as_bytes())?;
    text.extend_from_slice(b":")?;
    let line = fault.place.line.to_string(alloc)?;
    text.extend_from_slice(line.as_bytes())?;
    text.extend_from_slice(b": E")?;
    text.extend_from_slice(&four_digits(fault.code.number()))?;
    text.extend_from_slice(b"\n")?;
    Ok(text)
}

/// The same, where these are the files of a command.
pub fn told_fault(alloc: Global, files: &[Text], fault: &Fault) -> Result<Bytes, Memory>
    ensures { IfOk result (λ text. text ≡ text_told files.now fault.now) }
{
    fault_text(alloc, name_at(files, fault.place.unit), fault)
}

/// The name of the file of this number.
fn name_at(files: &[Text], unit: u32) -> &str
    ensures { result.now ≡ slice_index_or files.now unit [] }
{
    if (unit as usize) < files.len() {
        files[unit as usize].as_str()
    } else {
        ""
    }
}

/// The line that tells which line of a text is wrong: `FILE: line N`.
pub fn line_text(alloc: Global, file: &Text, line: u32) -> Result<Bytes, Memory>
    ensures { IfOk result (λ text. text ≡ text_of_line file.now line) }
{
    let mut text = Bytes::from_slice(alloc, file.as_str().as_bytes())?;
    text.extend_from_slice(b": line ")?;
    let digits = line.to_string(alloc)?;
    text.extend_from_slice(digits.as_bytes())?;
    text.extend_from_slice(b"\n")?;
    Ok(text)
}

/// The line that tells that a text is too long: `FILE: too long`.
pub fn long_text(alloc: Global, file: &Text) -> Result<Bytes, Memory>
    ensures { IfOk result (λ text. text ≡ text_of_long file.now) }
{
    let mut text = Bytes::from_slice(alloc, file.as_str().as_bytes())?;
    text.extend_from_slice(b": too long\n")?;
    Ok(text)
}

/// The last four decimal digits of a number.
fn four_digits(number: u16) -> [u8; 4]
    ensures { result ≡ digits_of number }
{
    [
        digit(number / 1000),
        digit(number / 100),
        digit(number / 10),
        digit(number),
    ]
}

/// The last decimal digit of a number.
fn digit(number: u16) -> u8
    ensures { result ≡ 48 + number % 10 }
{
    b'0' + (number % 10) as u8
}
