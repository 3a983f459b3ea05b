//! `dis` and `asm`: from the file of a module to its text, and back.

ghost use Rattle.std.specs.Prelude.{◌≡◌, ◌≤◌, length, MatchResult};
ghost use Rattle.gsl_cmd.specs.Command.{Gives, Tells, refused_by};
ghost use Rattle.gsl_cmd.specs.Converting as spec;

use crate::stop::Stop;
use crate::text::{line_text, long_text};
use gsl_asm::{AsmFault, assemble, show};
use gsl_base::{Bytes, Memory, Text};
use gsl_exec::{Stop as Unlisted, rejection};
use gsl_words::{decode, encode};
use std::alloc::Global;

/// What is made of a file.
#[derive(Clone, Copy, Debug)]
pub enum Conversion {
    /// The text of a module.
    Disassemble,
    /// The module of a text.
    Assemble,
}

/// The bytes that are made of those of the file of this name.
#[tactic(auto, unfolding(crate::specs::Converting::Makes))]
pub fn made(alloc: Global, conversion: Conversion, name: &Text, bytes: &[u8]) -> Result<Bytes, Stop>
    requires { length bytes.now ≤ 402653184 }
    ensures { Gives (spec.Makes conversion name.now bytes.now) result }
{
    match conversion {
        Conversion::Disassemble => shown(alloc, bytes),
        Conversion::Assemble => assembled(alloc, name, bytes),
    }
}

/// The text of the module whose file the bytes are.
fn shown(alloc: Global, bytes: &[u8]) -> Result<Bytes, Stop>
    requires { length bytes.now ≤ 402653184 }
    ensures { Gives (spec.Shows bytes.now) result }
{
    match decode(alloc, bytes) {
        Ok(module) => match show(alloc, &module) {
            Ok(text) => Ok(text),
            Err(_) => Err(Stop::Memory),
        },
        Err(fault) => Err(refused(rejection(alloc, fault))),
    }
}

/// The file of the module that the bytes are a text of.
fn assembled(alloc: Global, name: &Text, bytes: &[u8]) -> Result<Bytes, Stop>
    requires { length bytes.now ≤ 402653184 }
    ensures { Gives (spec.Assembles name.now bytes.now) result }
{
    match assemble(alloc, bytes) {
        Ok(module) => {
            let mut file = Bytes::new(alloc);
            match encode(&module, &mut file) {
                Ok(()) => Ok(file),
                Err(_) => Err(Stop::Memory),
            }
        }
        Err(AsmFault::Line(line)) => Err(told(line_text(alloc, name, line))),
        Err(AsmFault::Memory) => Err(Stop::Memory),
    }
}

/// Why a module's file is refused.
fn refused(why: Unlisted) -> Stop
    ensures { result ≡ refused_by why }
{
    match why {
        Unlisted::Told(_, text) => Stop::Rejected(text),
        Unlisted::Host => Stop::Host,
        Unlisted::Memory => Stop::Memory,
    }
}

/// Tells that a file has more than `MAX_MODULE_BYTES`, unless memory was wanting.
pub fn too_long(alloc: Global, conversion: Conversion, name: &Text) -> Stop
    ensures { Tells (spec.too_long conversion name.now) result }
{
    match conversion {
        Conversion::Disassemble => told(Bytes::from_slice(alloc, b"MODULE: too long\n")),
        Conversion::Assemble => told(long_text(alloc, name)),
    }
}

/// A line that is told, unless memory was wanting for it.
fn told(line: Result<Bytes, Memory>) -> Stop
    ensures { MatchResult line (λ text. result ≡ Stop.Rejected text) (λ _. result ≡ Stop.Memory) }
{
    match line {
        Ok(text) => Stop::Rejected(text),
        Err(_) => Stop::Memory,
    }
}
