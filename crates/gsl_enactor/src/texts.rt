//! The texts that a run prints where it lists nothing.

use gsl_base::{Bytes, Memory};
use gsl_words::WordFault;
use std::alloc::Global;

/// What is printed where a call of the host failed.
pub const HOST_TEXT: &[u8] = b"ERROR: host\n";

/// What is printed where the module is going on after its steps.
pub const GOING_TEXT: &[u8] = b"steps used up\n";

/// What is printed where no meaning is given.
pub const STUCK_TEXT: &[u8] = b"stuck\n";

/// A text, a number, and the end of the line.
fn numbered(alloc: Global, front: &[u8], number: u32) -> Result<Bytes, Memory> {
    let mut text = Bytes::from_slice(alloc, front)?;
    let digits = number.to_string(alloc)?;
    text.extend_from_slice(digits.as_bytes())?;
    text.extend_from_slice(b"\n")?;
    Ok(text)
}

/// `strayed at word W`
pub fn strayed_text(alloc: Global, at: u32) -> Result<Bytes, Memory> {
    numbered(alloc, b"strayed at word ", at)
}

/// `MODULE: too long`
pub fn long_text(alloc: Global) -> Result<Bytes, Memory> {
    Bytes::from_slice(alloc, b"MODULE: too long\n")
}

/// `MODULE: Vn W`, of the least rule that a module breaks, and the word at which it does.
pub fn broken_text(alloc: Global, rule: u32, at: u32) -> Result<Bytes, Memory> {
    let mut text = Bytes::from_slice(alloc, b"MODULE: V")?;
    let digits = rule.to_string(alloc)?;
    text.extend_from_slice(digits.as_bytes())?;
    text.extend_from_slice(numbered(alloc, b" ", at)?.as_slice())?;
    Ok(text)
}

/// The line that tells the first fault of a file that is no module.
pub fn fault_text(alloc: Global, fault: WordFault) -> Result<Bytes, Memory> {
    match fault {
        WordFault::NotWhole => Bytes::from_slice(alloc, b"MODULE: NotWhole\n"),
        WordFault::BigEndian => Bytes::from_slice(alloc, b"MODULE: BigEndian\n"),
        WordFault::BadMagic => Bytes::from_slice(alloc, b"MODULE: BadMagic\n"),
        WordFault::BadHeader => Bytes::from_slice(alloc, b"MODULE: BadHeader\n"),
        WordFault::UnknownOpcode(at) => numbered(alloc, b"MODULE: UnknownOpcode ", at),
        WordFault::BadCount(at) => numbered(alloc, b"MODULE: BadCount ", at),
        WordFault::BadString(at) => numbered(alloc, b"MODULE: BadString ", at),
        WordFault::Memory => Err(Memory),
    }
}
