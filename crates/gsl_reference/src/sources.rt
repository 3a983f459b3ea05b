//! From source files to their program.

ghost use Rattle.std.specs.Prelude.{◌≡◌, ◌≤◌, Some, Err, length, map, Contains, IfOk};
ghost use Rattle.gsl_host.specs.declared.target.Stream.{Stream};
ghost use Rattle.gsl_host.specs.declared.target.Target.{Target};
ghost use Rattle.gsl_host.specs.Outside.{Files, NeverFall, Rose};
ghost use Rattle.gsl_tree.specs.WellTyped.{IsProgram};
ghost use Rattle.gsl_cmd.specs.Job.{gather, reads};
ghost use Rattle.gsl_cmd.specs.Verdict.{linked_of};
ghost use Rattle.gsl_reference.specs.Steps.{Makes, ReadsSources, Tells};

use crate::stop::Stop;
use gsl_base::{Fault, Refusal, Sources, Stage, Text};
use gsl_cmd::{MAX_SOURCES, Stop as Unread, linked, read_sources, told_fault};
use gsl_host::Host;
use gsl_tree::Program;
use std::alloc::Global;

/// Tells a fault of one of these source files.
fn told(alloc: Global, names: &[Text], fault: &Fault) -> Stop
    ensures { Tells names.now fault.now result }
{
    match told_fault(alloc, names, fault) {
        Ok(text) => Stop::Fault(text),
        Err(_) => Stop::Memory,
    }
}

/// Reads source files in their order.
pub fn sources_of<H: Host>(alloc: Global, names: &[Text], host: &mut H) -> Result<Sources, Stop>
    requires { length names.now ≤ MAX_SOURCES }
    ensures told { (files : Files) → H.files host.old ≡ Some files → ReadsSources names.now (gather files 0 names.now) result }
    ensures count { IfOk result (λ sources. length sources ≡ length names.now) }
    ensures failed { result ≡ Err Stop.Host → (target : Target) × Contains (map Target.Reading names.now) target × Rose (H.faults host.old) (H.faults host.new) target }
    ensures reached { (files : Files) → H.files host.old ≡ Some files → result ≡ Err Stop.Host →
        (target : Target) × Contains (reads files names.now) target × Rose (H.faults host.old) (H.faults host.new) target }
    ensures faults { NeverFall (H.faults host.old) (H.faults host.new) }
    ensures files { H.files host.new ≡ H.files host.old }
    ensures streams { (stream : Stream) → H.printed host.new stream ≡ H.printed host.old stream }
{
    match read_sources(alloc, 0, names, Sources::new(alloc), host) {
        Ok(sources) => Ok(sources),
        Err(Unread::Fault(fault)) => Err(told(alloc, names, &fault)),
        Err(Unread::Host) => Err(Stop::Host),
        Err(Unread::Memory | Unread::Rejected(_)) => Err(Stop::Memory),
    }
}

/// The program that sources make.
pub fn program(
    alloc: Global,
    stage: Stage,
    names: &[Text],
    sources: &Sources,
) -> Result<Program, Stop>
    requires { length sources.now ≤ MAX_SOURCES }
    ensures made { Makes names.now (linked_of stage sources.now) result }
    ensures typed { IfOk result IsProgram }
{
    match linked(alloc, stage, sources.as_slice()) {
        Ok(program) => Ok(program),
        Err(Refusal::Source(fault)) => Err(told(alloc, names, &fault)),
        Err(Refusal::Memory) => Err(Stop::Memory),
    }
}
