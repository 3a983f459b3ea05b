//! From the files of a run to a valid module and its input.

ghost use Rattle.std.specs.Prelude.{◌≤◌, ◌<◌, ◌^◌, length, IfOk};
ghost use Rattle.gsl_words.specs.Instructions.{HasFile};
ghost use Rattle.gsl_valid.specs.Placed.{count_of_words};

use crate::stop::Stop;
use crate::texts::{broken_text, fault_text, long_text};
use gsl_base::{Bytes, Input, Text};
use gsl_given::{MAX_MANIFEST_BYTES, Stop as Ungiven, manifest_of, read_input, read_manifest_file};
use gsl_host::{Host, ReadRefusal};
use gsl_manifest::Manifest;
use gsl_validate::{Invalid, Valid, validate};
use gsl_words::{Module, decode};
use std::alloc::Global;

/// The most bytes of a module.
const MAX_MODULE_BYTES: usize = 402_653_184;

/// Reads the file of a module.
pub fn read_module<H: Host>(alloc: Global, name: &Text, host: &mut H) -> Result<Bytes, Stop>
    ensures { IfOk result (λ bytes. length bytes ≤ MAX_MODULE_BYTES) }
{
    match host.read_file(alloc, name, MAX_MODULE_BYTES) {
        Ok(bytes) => Ok(bytes),
        Err(ReadRefusal::TooLong) => Err(Stop::Module(long_text(alloc)?)),
        Err(ReadRefusal::Failed) => Err(Stop::Host),
        Err(ReadRefusal::Memory) => Err(Stop::Memory),
    }
}

/// The valid module whose file the bytes are.
pub fn valid_of(alloc: Global, bytes: &[u8]) -> Result<Valid, Stop>
    requires { length bytes.now ≤ MAX_MODULE_BYTES }
{
    match decode(alloc, bytes) {
        Ok(found) => judged(alloc, found),
        Err(fault) => Err(Stop::Module(fault_text(alloc, fault)?)),
    }
}

fn judged(alloc: Global, found: Module) -> Result<Valid, Stop>
    requires file { HasFile found }
    requires words { count_of_words found < 2 ^ 32 }
{
    match validate(alloc, found) {
        Ok(valid) => Ok(valid),
        Err(Invalid::Broken(rule, at)) => Err(Stop::Module(broken_text(alloc, rule, at)?)),
        Err(Invalid::Memory) => Err(Stop::Memory),
    }
}

/// Why there is no input.
fn ungiven(stop: Ungiven) -> Stop {
    match stop {
        Ungiven::Refused(text) => Stop::Input(text),
        Ungiven::Host => Stop::Host,
        Ungiven::Memory => Stop::Memory,
    }
}

/// Reads the file of a manifest.
pub fn read_inputs<H: Host>(alloc: Global, name: &Text, host: &mut H) -> Result<Bytes, Stop>
    ensures { IfOk result (λ bytes. length bytes ≤ MAX_MANIFEST_BYTES) }
{
    match read_manifest_file(alloc, name, host) {
        Ok(bytes) => Ok(bytes),
        Err(stop) => Err(ungiven(stop)),
    }
}

/// The manifest that the bytes are.
pub fn manifest(alloc: Global, bytes: &[u8]) -> Result<Manifest, Stop>
    requires { length bytes.now ≤ MAX_MANIFEST_BYTES }
{
    match manifest_of(alloc, bytes) {
        Ok(manifest) => Ok(manifest),
        Err(stop) => Err(ungiven(stop)),
    }
}

/// Reads the files that a manifest names, and gives the input with their bytes.
pub fn read_named<H: Host>(alloc: Global, manifest: Manifest, host: &mut H) -> Result<Input, Stop> {
    match read_input(alloc, manifest, host) {
        Ok(input) => Ok(input),
        Err(stop) => Err(ungiven(stop)),
    }
}
