//! `check`: whether the file of a module is that of a valid one.

ghost use Rattle.std.specs.Prelude.{◌≡◌, ◌≢◌, ◌≤◌, Err, Some, Contains, MatchResult, length};
ghost use Rattle.std.specs.FinMap.{get};
ghost use Rattle.gsl_host.specs.declared.target.Stream.{Stream};
ghost use Rattle.gsl_host.specs.declared.target.Target.{Target};
ghost use Rattle.gsl_host.specs.Outside.{Files, NeverFall, Rose};
ghost use Rattle.gsl_plan.specs.Plan.{Plan};
ghost use Rattle.gsl_cmd.specs.Command.{ChecksBytes, Ends, HasOwn};
ghost use Rattle.gsl_cmd.specs.Job.{IsCheckJob, IsJob, Job, found_in};
ghost use Rattle.gsl_cmd.specs.Performs.{Performs};
ghost use Rattle.gsl_cmd.specs.Targets.{targets_of};
ghost use Rattle.gsl_cmd.specs.Texts.{valid_text};

use crate::printing::finish;
use gsl_base::{Bytes, Text};
use gsl_exec::{Stop, judged, read_module};
use gsl_host::Host;
use std::alloc::Global;

/// The line that tells that a module is valid.
fn told_valid(alloc: Global) -> Result<Bytes, Stop>
    ensures { MatchResult result (λ text. text ≡ valid_text) (λ why. why ≡ Stop.Memory) }
{
    match Bytes::from_slice(alloc, b"valid\n") {
        Ok(text) => Ok(text),
        Err(_) => Err(Stop::Memory),
    }
}

/// What is told of the module whose file the bytes are: that it is valid, or why it is not.
fn check_bytes(alloc: Global, bytes: &[u8]) -> Result<Bytes, Stop>
    requires { length bytes.now ≤ 402653184 }
    ensures { ChecksBytes bytes.now result }
{
    match judged(alloc, bytes) {
        Ok(_valid) => told_valid(alloc),
        Err(stop) => Err(stop),
    }
}

/// Judges the module of a file.
fn check_file<H: Host>(alloc: Global, file: &Text, host: &mut H) -> Result<Bytes, Stop>
    ensures told { (files : Files) → H.files host.old ≡ Some files →
        Ends (λ job. IsCheckJob file.now job (found_in (get files file.now))) (H.faults host.old) (H.faults host.new) result }
    ensures own { HasOwn result }
    ensures failed { result ≡ Err Stop.Host → Rose (H.faults host.old) (H.faults host.new) (Target.Reading file.now) }
    ensures faults { NeverFall (H.faults host.old) (H.faults host.new) }
    ensures files { H.files host.new ≡ H.files host.old }
    ensures streams { (stream : Stream) → H.printed host.new stream ≡ H.printed host.old stream }
{
    match read_module(alloc, file, host) {
        Ok(bytes) => check_bytes(alloc, bytes.as_slice()),
        Err(stop) => Err(stop),
    }
}

/// Judges a module, prints that it is valid or why it is not, and gives the status.
pub fn check_command<H: Host>(alloc: Global, file: &Text, host: &mut H) -> u8
    ensures told { (files : Files) → H.files host.old ≡ Some files → (job : Job) × IsJob (Plan.Check file.now) files job
        × Performs job files (H.files host.new) (H.faults host.old) (H.faults host.new) (H.printed host.old) (H.printed host.new) result }
    ensures cause { result ≡ 3 → (target : Target) × Contains (targets_of (Plan.Check file.now)) target × Rose (H.faults host.old) (H.faults host.new) target }
    ensures planned { result ≢ 2 }
{
    let end = check_file(alloc, file, host);
    finish(alloc, end, host)
}
