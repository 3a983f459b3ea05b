//! Reading the file of a module.

ghost use Rattle.std.specs.Prelude.{◌≡◌, ◌≤◌, Err, IfOk, length};
ghost use Rattle.gsl_host.specs.declared.target.Stream.{Stream};
ghost use Rattle.gsl_host.specs.declared.target.Target.{Target};
ghost use Rattle.gsl_host.specs.Outside.{NeverFall, Rose};
ghost use Rattle.gsl_exec.specs.Steps.{HasStatus, ReadsModule};

use crate::stop::{Stop, told};
use gsl_base::{Bytes, Text};
use gsl_host::{Host, ReadRefusal};
use std::alloc::Global;

/// The most bytes of the file of a module.
pub const MAX_MODULE_BYTES: usize = 402_653_184;

/// Reads the file of a module.
pub fn read_module<H: Host>(alloc: Global, name: &Text, host: &mut H) -> Result<Bytes, Stop>
    ensures told { ReadsModule (H.files host.old) name.now result }
    ensures within { IfOk result (λ bytes. length bytes ≤ 402653184) }
    ensures line { HasStatus result }
    ensures failed { result ≡ Err Stop.Host → Rose (H.faults host.old) (H.faults host.new) (Target.Reading name.now) }
    ensures faults { NeverFall (H.faults host.old) (H.faults host.new) }
    ensures files { H.files host.new ≡ H.files host.old }
    ensures streams { (stream : Stream) → H.printed host.new stream ≡ H.printed host.old stream }
{
    match host.read_file(alloc, name, MAX_MODULE_BYTES) {
        Ok(bytes) => Ok(bytes),
        Err(ReadRefusal::TooLong) => Err(told(8, Bytes::from_slice(alloc, b"MODULE: too long\n"))),
        Err(ReadRefusal::Failed) => Err(Stop::Host),
        Err(ReadRefusal::Memory) => Err(Stop::Memory),
    }
}
