//! A run, from the files that are read to what is listed.

ghost use Rattle.std.specs.Prelude.{◌≡◌, ◌≤◌, ◌++◌, ◌∷◌, [], List, Some, Ok, Err, length};
ghost use Rattle.std.specs.FinMap.{get};
ghost use Rattle.gsl_host.specs.declared.target.Stream.{Stream};
ghost use Rattle.gsl_host.specs.declared.target.Target.{Target};
ghost use Rattle.gsl_host.specs.Outside.{Files, Name, NeverFall, Rose};
ghost use Rattle.gsl_tree.specs.WellTyped.{IsProgram};
ghost use Rattle.gsl_given.specs.Given as given;
ghost use Rattle.gsl_cmd.specs.Job.{Job};
ghost use Rattle.gsl_cmd.specs.Verdict.{linked_of};
ghost use Rattle.gsl_reference.specs.Asked.{Asked};
ghost use Rattle.gsl_reference.specs.Owed as owed;
ghost use Rattle.gsl_reference.specs.Steps.{Ends};

use crate::performing::performed;
use crate::sources::{program, sources_of};
use crate::stop::{Stop, stopped};
use gsl_base::{Bytes, Sources, Stage, Text};
use gsl_cmd::MAX_SOURCES;
use gsl_given::{MAX_MANIFEST_BYTES, manifest_of, read_input, read_manifest_file};
use gsl_host::Host;
use gsl_manifest::Manifest;
use gsl_tree::Program;
use std::alloc::Global;

/// Runs source files on the input of a manifest.
pub fn run_files<H: Host>(
    alloc: Global,
    stage: Stage,
    inputs: &Text,
    names: &[Text],
    host: &mut H,
) -> Result<Bytes, Stop>
    requires { length names.now ≤ MAX_SOURCES }
    ensures told { owed.AreRead → (files : Files) → H.files host.old ≡ Some files →
        Ends (owed.IsJob (record { stage = stage; inputs = inputs.now; sources = names.now }) files) (H.faults host.old) (H.faults host.new) result }
    ensures failed { result ≡ Err Stop.Host → (name : Name) × Rose (H.faults host.old) (H.faults host.new) (Target.Reading name) }
    ensures faults { NeverFall (H.faults host.old) (H.faults host.new) }
    ensures files { H.files host.new ≡ H.files host.old }
    ensures streams { (stream : Stream) → H.printed host.new stream ≡ H.printed host.old stream }
{
    match sources_of(alloc, names, host) {
        Ok(sources) => run_sources(alloc, stage, inputs, names, &sources, host),
        Err(stop) => Err(stop),
    }
}

/// Runs sources on the input of a manifest.
fn run_sources<H: Host>(
    alloc: Global,
    stage: Stage,
    inputs: &Text,
    names: &[Text],
    sources: &Sources,
    host: &mut H,
) -> Result<Bytes, Stop>
    requires { length sources.now ≤ MAX_SOURCES }
    ensures told { owed.AreRead → (files : Files) → H.files host.old ≡ Some files → (targets : List Target) →
        Ends (owed.IsBehindSources (record { stage = stage; inputs = inputs.now; sources = names.now }) files sources.now targets) (H.faults host.old) (H.faults host.new) result }
    ensures failed { result ≡ Err Stop.Host → (name : Name) × Rose (H.faults host.old) (H.faults host.new) (Target.Reading name) }
    ensures faults { NeverFall (H.faults host.old) (H.faults host.new) }
    ensures files { H.files host.new ≡ H.files host.old }
    ensures streams { (stream : Stream) → H.printed host.new stream ≡ H.printed host.old stream }
{
    match read_manifest_file(alloc, inputs, host) {
        Ok(bytes) => run_program(alloc, stage, names, sources, bytes.as_slice(), host),
        Err(why) => Err(stopped(why)),
    }
}

/// Runs the program of sources on the input of the manifest that the bytes are.
fn run_program<H: Host>(
    alloc: Global,
    stage: Stage,
    names: &[Text],
    sources: &Sources,
    bytes: &[u8],
    host: &mut H,
) -> Result<Bytes, Stop>
    requires few { length sources.now ≤ MAX_SOURCES }
    requires short { length bytes.now ≤ MAX_MANIFEST_BYTES }
    ensures told { owed.AreRead → (files : Files) → H.files host.old ≡ Some files → (targets : List Target) →
        Ends (λ job. owed.IsProgramJob files names.now bytes.now targets job (linked_of stage sources.now)) (H.faults host.old) (H.faults host.new) result }
    ensures failed { result ≡ Err Stop.Host → (name : Name) × Rose (H.faults host.old) (H.faults host.new) (Target.Reading name) }
    ensures faults { NeverFall (H.faults host.old) (H.faults host.new) }
    ensures files { H.files host.new ≡ H.files host.old }
    ensures streams { (stream : Stream) → H.printed host.new stream ≡ H.printed host.old stream }
{
    match program(alloc, stage, names, sources) {
        Ok(program) => run_by(alloc, &program, bytes, host),
        Err(stop) => Err(stop),
    }
}

/// Runs a program on the input of the manifest that the bytes are.
fn run_by<H: Host>(
    alloc: Global,
    program: &Program,
    bytes: &[u8],
    host: &mut H,
) -> Result<Bytes, Stop>
    requires typed { IsProgram program.now }
    requires short { length bytes.now ≤ MAX_MANIFEST_BYTES }
    ensures told { owed.AreRead → (files : Files) → H.files host.old ≡ Some files → (targets : List Target) →
        Ends (λ job. owed.IsProgramJob files [] bytes.now targets job (Ok program.now)) (H.faults host.old) (H.faults host.new) result }
    ensures failed { result ≡ Err Stop.Host → (name : Name) × Rose (H.faults host.old) (H.faults host.new) (Target.Reading name) }
    ensures faults { NeverFall (H.faults host.old) (H.faults host.new) }
    ensures files { H.files host.new ≡ H.files host.old }
    ensures streams { (stream : Stream) → H.printed host.new stream ≡ H.printed host.old stream }
{
    match manifest_of(alloc, bytes) {
        Ok(manifest) => run_on(alloc, program, manifest, host),
        Err(why) => Err(stopped(why)),
    }
}

/// Runs a program on the input of a manifest.
fn run_on<H: Host>(
    alloc: Global,
    program: &Program,
    manifest: Manifest,
    host: &mut H,
) -> Result<Bytes, Stop>
    requires { IsProgram program.now }
    ensures told { owed.AreRead → (files : Files) → H.files host.old ≡ Some files → (targets : List Target) →
        Ends (λ job. job ≡ owed.run_by files targets program.now (Ok manifest)) (H.faults host.old) (H.faults host.new) result }
    ensures failed { result ≡ Err Stop.Host → (name : Name) × Rose (H.faults host.old) (H.faults host.new) (Target.Reading name) }
    ensures faults { NeverFall (H.faults host.old) (H.faults host.new) }
    ensures files { H.files host.new ≡ H.files host.old }
    ensures streams { (stream : Stream) → H.printed host.new stream ≡ H.printed host.old stream }
{
    let units = manifest.steps;
    match read_input(alloc, manifest, host) {
        Ok(input) => performed(alloc, program, &input, units),
        Err(why) => Err(stopped(why)),
    }
}
