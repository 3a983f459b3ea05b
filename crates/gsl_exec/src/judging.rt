//! The module of a file, if it is a valid one.

ghost use Rattle.std.specs.Prelude.{◌≡◌, ◌≤◌, ◌^◌, ◌<◌, length};
ghost use Rattle.gsl_words.specs.Instructions.{HasFile};
ghost use Rattle.gsl_valid.specs.Placed.{count_of_words};
ghost use Rattle.gsl_exec.specs.Steps.{JudgesBytes, JudgesModule, Rejects};

use crate::stop::{Stop, told};
use crate::texts::{broken_text, placed};
use gsl_base::Bytes;
use gsl_validate::{Invalid, Valid, validate};
use gsl_words::{Module, WordFault, decode};
use std::alloc::Global;

/// The module whose file the bytes are, if it is valid.
pub fn judged(alloc: Global, bytes: &[u8]) -> Result<Valid, Stop>
    requires { length bytes.now ≤ 402653184 }
    ensures { JudgesBytes bytes.now result }
{
    match decode(alloc, bytes) {
        Ok(module) => judged_module(alloc, module),
        Err(fault) => Err(rejection(alloc, fault)),
    }
}

/// A module, if it is valid.
fn judged_module(alloc: Global, of: Module) -> Result<Valid, Stop>
    requires file { HasFile of }
    requires words { count_of_words of < 2 ^ 32 }
    ensures { JudgesModule of result }
{
    match validate(alloc, of) {
        Ok(valid) => Ok(valid),
        Err(Invalid::Broken(rule, at)) => Err(told(8, broken_text(alloc, rule, at))),
        Err(Invalid::Memory) => Err(Stop::Memory),
    }
}

/// Tells what is wrong with a module's file, unless memory was wanting.
pub fn rejection(alloc: Global, fault: WordFault) -> Stop
    ensures { Rejects fault result }
{
    match fault {
        WordFault::NotWhole => told(8, Bytes::from_slice(alloc, b"MODULE: NotWhole\n")),
        WordFault::BigEndian => told(8, Bytes::from_slice(alloc, b"MODULE: BigEndian\n")),
        WordFault::BadMagic => told(8, Bytes::from_slice(alloc, b"MODULE: BadMagic\n")),
        WordFault::BadHeader => told(8, Bytes::from_slice(alloc, b"MODULE: BadHeader\n")),
        WordFault::UnknownOpcode(at) => told(8, placed(alloc, b"MODULE: UnknownOpcode ", at)),
        WordFault::BadCount(at) => told(8, placed(alloc, b"MODULE: BadCount ", at)),
        WordFault::BadString(at) => told(8, placed(alloc, b"MODULE: BadString ", at)),
        WordFault::Memory => Stop::Memory,
    }
}
