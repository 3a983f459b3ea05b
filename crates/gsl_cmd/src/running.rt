//! `exec` and `run`: a module is run on the input of a manifest.

ghost use Rattle.std.specs.Prelude.{◌≡◌, ◌≢◌, ◌≤◌, ◌++◌, ◌∷◌, [], List, Err, Some, length};
ghost use Rattle.std.specs.FinMap.{get};
ghost use Rattle.gsl_given.specs.declared.given.TheConstants.{MAX_MANIFEST_BYTES as MOST};
ghost use Rattle.gsl_host.specs.declared.target.Stream.{Stream};
ghost use Rattle.gsl_host.specs.declared.target.Target.{Target};
ghost use Rattle.gsl_host.specs.Outside.{Files, Name, NeverFall, Rose};
ghost use Rattle.gsl_exec.specs.Owed.{read_of};
ghost use Rattle.gsl_plan.specs.Plan.{Plan};
ghost use Rattle.gsl_cmd.specs.Command.{Ends, HasOwn, MakesModule, SomeTaken, Unreads};
ghost use Rattle.gsl_cmd.specs.Job.{IsInputsJob, IsJob, IsTextJob, Job};
ghost use Rattle.gsl_cmd.specs.Performs.{Performs};
ghost use Rattle.gsl_cmd.specs.Targets.{MayReach};

use crate::command::read_sources;
use crate::compiling::{MAX_SOURCES, compiled_module};
use crate::printing::finish;
use crate::stop::Stop as Unread;
use crate::text::told_fault;
use gsl_base::{Bytes, Refusal, Sources, Stage, Text};
use gsl_exec::{Stop, exec, exec_valid, one_owed_of_valid, stopped, told};
use gsl_given::{MAX_MANIFEST_BYTES, read_manifest_file};
use gsl_host::Host;
use gsl_validate::Valid;
use gsl_words::Target as Version;
use std::alloc::Global;

/// Runs a module on the input of a manifest, prints what it gave or why there is nothing, and gives the status.
pub fn exec_command<H: Host>(alloc: Global, file: &Text, inputs: &Text, host: &mut H) -> u8
    ensures told { (files : Files) → H.files host.old ≡ Some files → (job : Job) × IsJob (Plan.Exec file.now inputs.now) files job
        × Performs job files (H.files host.new) (H.faults host.old) (H.faults host.new) (H.printed host.old) (H.printed host.new) result }
    ensures cause { result ≡ 3 → (target : Target) × MayReach (Plan.Exec file.now inputs.now) (H.files host.old) target
        × Rose (H.faults host.old) (H.faults host.new) target }
    ensures planned { result ≢ 2 }
{
    let end = exec(alloc, file, inputs, host);
    finish(alloc, end, host)
}

/// The module of sources, which are those of the files of these names, or the line of their first fault.
fn made(alloc: Global, stage: Stage, names: &[Text], sources: &Sources) -> Result<Valid, Stop>
    requires { length sources.now ≤ MAX_SOURCES }
    ensures { MakesModule stage sources.now names.now result }
{
    match compiled_module(alloc, Version::V10, stage, sources) {
        Ok(valid) => Ok(valid),
        Err(Refusal::Source(fault)) => Err(told(1, told_fault(alloc, names, &fault))),
        Err(Refusal::Memory) => Err(Stop::Memory),
    }
}

/// Compiles sources and runs their module on the input of the manifest that the bytes are.
fn run_text<H: Host>(
    alloc: Global,
    stage: Stage,
    names: &[Text],
    sources: &Sources,
    text: &[u8],
    host: &mut H,
) -> Result<Bytes, Stop>
    requires few { length sources.now ≤ MAX_SOURCES }
    requires short { length text.now ≤ MAX_MANIFEST_BYTES }
    ensures told { SomeTaken → (files : Files) → H.files host.old ≡ Some files → (targets : List Target) →
        Ends (IsTextJob files stage names.now sources.now text.now targets) (H.faults host.old) (H.faults host.new) result }
    ensures own { HasOwn result }
    ensures failed { result ≡ Err Stop.Host → (name : Name) × Rose (H.faults host.old) (H.faults host.new) (Target.Reading name) }
    ensures faults { NeverFall (H.faults host.old) (H.faults host.new) }
    ensures files { H.files host.new ≡ H.files host.old }
    ensures streams { (stream : Stream) → H.printed host.new stream ≡ H.printed host.old stream }
{
    match made(alloc, stage, names, sources) {
        Ok(valid) => exec_valid(alloc, &valid, text, host),
        Err(stop) => Err(stop),
    }
}

/// Reads the manifest, compiles sources and runs their module on its input.
fn run_sources<H: Host>(
    alloc: Global,
    stage: Stage,
    inputs: &Text,
    names: &[Text],
    sources: &Sources,
    host: &mut H,
) -> Result<Bytes, Stop>
    requires { length sources.now ≤ MAX_SOURCES }
    ensures told { SomeTaken → (files : Files) → H.files host.old ≡ Some files → (targets : List Target) →
        Ends (λ job. IsInputsJob files stage names.now sources.now (targets ++ Target.Reading inputs.now ∷ []) job (read_of MOST (get files inputs.now)))
        (H.faults host.old) (H.faults host.new) result }
    ensures own { HasOwn result }
    ensures failed { result ≡ Err Stop.Host → (name : Name) × Rose (H.faults host.old) (H.faults host.new) (Target.Reading name) }
    ensures faults { NeverFall (H.faults host.old) (H.faults host.new) }
    ensures files { H.files host.new ≡ H.files host.old }
    ensures streams { (stream : Stream) → H.printed host.new stream ≡ H.printed host.old stream }
{
    match read_manifest_file(alloc, inputs, host) {
        Ok(text) => run_text(alloc, stage, names, sources, text.as_slice(), host),
        Err(why) => Err(stopped(why)),
    }
}

/// Why source files were not read, as a line with its status.
fn unread(alloc: Global, names: &[Text], why: Unread) -> Stop
    ensures { Unreads names.now why result }
{
    match why {
        Unread::Fault(fault) => told(1, told_fault(alloc, names, &fault)),
        Unread::Rejected(text) => Stop::Told(8, text),
        Unread::Host => Stop::Host,
        Unread::Memory => Stop::Memory,
    }
}

/// Reads source files and the manifest, compiles the sources and runs their module on its input.
fn run_files<H: Host>(
    alloc: Global,
    stage: Stage,
    inputs: &Text,
    names: &[Text],
    host: &mut H,
) -> Result<Bytes, Stop>
    requires { length names.now ≤ MAX_SOURCES }
    ensures told { SomeTaken → (files : Files) → H.files host.old ≡ Some files →
        Ends (λ job. IsJob (Plan.Run stage inputs.now names.now) files job) (H.faults host.old) (H.faults host.new) result }
    ensures own { HasOwn result }
    ensures failed { result ≡ Err Stop.Host → (name : Name) × Rose (H.faults host.old) (H.faults host.new) (Target.Reading name) }
    ensures faults { NeverFall (H.faults host.old) (H.faults host.new) }
    ensures files { H.files host.new ≡ H.files host.old }
    ensures streams { (stream : Stream) → H.printed host.new stream ≡ H.printed host.old stream }
{
    match read_sources(alloc, 0, names, Sources::new(alloc), host) {
        Ok(sources) => run_sources(alloc, stage, inputs, names, &sources, host),
        Err(why) => Err(unread(alloc, names, why)),
    }
}

/// Compiles source files, runs their module on the input of a manifest, prints what it gave or why there is nothing, and gives the status.
pub fn run_command<H: Host>(
    alloc: Global,
    stage: Stage,
    inputs: &Text,
    names: &[Text],
    host: &mut H,
) -> u8
    requires { length names.now ≤ MAX_SOURCES }
    ensures told { (files : Files) → H.files host.old ≡ Some files → (job : Job) × IsJob (Plan.Run stage inputs.now names.now) files job
        × Performs job files (H.files host.new) (H.faults host.old) (H.faults host.new) (H.printed host.old) (H.printed host.new) result }
    ensures cause { result ≡ 3 → (target : Target) × MayReach (Plan.Run stage inputs.now names.now) (H.files host.old) target
        × Rose (H.faults host.old) (H.faults host.new) target }
    ensures planned { result ≢ 2 }
{
    one_owed_of_valid();
    let end = run_files(alloc, stage, inputs, names, host);
    finish(alloc, end, host)
}
