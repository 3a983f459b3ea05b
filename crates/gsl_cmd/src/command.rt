//! The commands of the program.

ghost use Rattle.std.specs.Prelude.{ℕ, ◌+◌, ◌≡◌, ◌≢◌, ◌≤◌, ◌⊎◌, ◌++◌, [], ◌∷◌, List, Option, Some, Ok, Err, length, map, Contains, IfErr, IfOk, OnOk};
ghost use Rattle.std.specs.FinMap.{get};
ghost use Rattle.std.specs.Option.{option_map};
ghost use Rattle.gsl_base.specs.declared.fault.Fault.{Fault};
ghost use Rattle.gsl_host.specs.declared.target.Stream.{Stream};
ghost use Rattle.gsl_host.specs.declared.target.Target.{Target};
ghost use Rattle.gsl_host.specs.Outside.{Files, NeverFall, Rose, Sets, KeepsOthers};
ghost use Rattle.gsl_cmd.specs.Job.{Job, IsJob, gather, reads};
ghost use Rattle.gsl_plan.specs.Plan.{Plan, plan_of};
ghost use Rattle.gsl_cmd.specs.Command.{Ended, Reported, ReadsGathered, ReadsSource, ReadsFile, CompilesSources, behind_sources};
ghost use Rattle.gsl_cmd.specs.Converting.{plan_for};
ghost use Rattle.gsl_cmd.specs.Targets.{MayReach, targets_of};
ghost use Rattle.gsl_cmd.specs.Performs.{Performs};
ghost use Rattle.gsl_cmd.specs.Written.{Written};

use crate::checking::check_command;
use crate::compiling::{MAX_SOURCE_BYTES, MAX_SOURCES, compile_for, fault_in};
use crate::converting::{Conversion, made, too_long};
use crate::printing::say;
use crate::running::{exec_command, run_command};
use crate::stop::Stop;
use crate::text::{HOST_TEXT, told_fault};
use gsl_base::{Bytes, Code, Fault, Refusal, Sources, Stage, Text, Words};
use gsl_exec::{MAX_MODULE_BYTES, one_owed, one_owed_of_valid};
use gsl_host::{Host, HostRefusal, ReadRefusal};
use gsl_plan::{Command, plan};
use gsl_words::Target as Version;
use std::alloc::Global;

/// Prints how the program is called.
fn usage<H: Host>(alloc: Global, text: &[u8], host: &mut H) -> u8
    ensures status { (result ≡ 2) ⊎ (result ≡ 4) }
    ensures out { H.printed host.new Stream.Out ≡ H.printed host.old Stream.Out }
    ensures files { H.files host.new ≡ H.files host.old }
    ensures faults { NeverFall (H.faults host.old) (H.faults host.new) }
{
    say(alloc, text, 2, host)
}

/// Reports why a command stopped, and gives the status. A fault is of one of these source files.
fn report<H: Host>(alloc: Global, files: &[Text], stop: Stop, host: &mut H) -> u8
    ensures reported { Reported files.now stop (H.faults host.old) (H.faults host.new) (H.printed host.old Stream.Err) (H.printed host.new Stream.Err) result }
    ensures out { H.printed host.new Stream.Out ≡ H.printed host.old Stream.Out }
    ensures files { H.files host.new ≡ H.files host.old }
    ensures faults { NeverFall (H.faults host.old) (H.faults host.new) }
{
    match stop {
        Stop::Memory => 4,
        Stop::Host => say(alloc, HOST_TEXT, 3, host),
        Stop::Rejected(text) => say(alloc, text.as_slice(), 8, host),
        Stop::Fault(fault) => match told_fault(alloc, files, &fault) {
            Ok(text) => say(alloc, text.as_slice(), 1, host),
            Err(_) => 4,
        },
    }
}

/// Reads the source file of this number.
fn read_source<H: Host>(alloc: Global, unit: u32, file: &Text, host: &mut H) -> Result<Bytes, Stop>
    ensures told { ReadsSource (H.files host.old) unit file.now result }
    ensures failed { result ≡ Err Stop.Host → Rose (H.faults host.old) (H.faults host.new) (Target.Reading file.now) }
    ensures faults { NeverFall (H.faults host.old) (H.faults host.new) }
    ensures files { H.files host.new ≡ H.files host.old }
    ensures streams { (stream : Stream) → H.printed host.new stream ≡ H.printed host.old stream }
{
    match host.read_file(alloc, file, MAX_SOURCE_BYTES) {
        Ok(bytes) => Ok(bytes),
        Err(ReadRefusal::TooLong) => Err(Stop::Fault(fault_in(unit, Code::E0900))),
        Err(ReadRefusal::Failed) => Err(Stop::Host),
        Err(ReadRefusal::Memory) => Err(Stop::Memory),
    }
}

/// Reads source files, numbered from this one on, behind sources that were read.
pub fn read_sources<H: Host>(
    alloc: Global,
    unit: u32,
    files: &[Text],
    sources: Sources,
    host: &mut H,
) -> Result<Sources, Stop>
    requires { unit + length files.now ≤ MAX_SOURCES }
    ensures told { (known : Files) → H.files host.old ≡ Some known → ReadsGathered (behind_sources sources (gather known unit files.now)) result }
    ensures count { IfOk result (λ all. length all ≡ length sources + length files.now) }
    ensures failed { result ≡ Err Stop.Host → (target : Target) × Contains (map Target.Reading files.now) target × Rose (H.faults host.old) (H.faults host.new) target }
    ensures reached { (known : Files) → H.files host.old ≡ Some known → result ≡ Err Stop.Host →
        (target : Target) × Contains (reads known files.now) target × Rose (H.faults host.old) (H.faults host.new) target }
    ensures faults { NeverFall (H.faults host.old) (H.faults host.new) }
    ensures files { H.files host.new ≡ H.files host.old }
    ensures streams { (stream : Stream) → H.printed host.new stream ≡ H.printed host.old stream }
{
    match files {
        [] => Ok(sources),
        [file, more @ ..] => {
            let source = read_source(alloc, unit, file, host)?;
            let all = with_source(sources, source)?;
            read_sources(alloc, unit + 1, more, all, host)
        }
    }
}

/// The sources with one more.
fn with_source(sources: Sources, source: Bytes) -> Result<Sources, Stop>
    ensures ok { IfOk result (λ all. all ≡ sources ++ source ∷ []) }
    ensures err { IfErr result (λ why. why ≡ Stop.Memory) }
{
    let mut all = sources;
    all.push(source)?;
    Ok(all)
}

/// Compiles source files and writes their module.
fn compile_files<H: Host>(
    alloc: Global,
    version: Version,
    stage: Stage,
    out: &Text,
    names: &[Text],
    host: &mut H,
) -> Result<(), Stop>
    requires { length names.now ≤ MAX_SOURCES }
    ensures told { (files : Files) → H.files host.old ≡ Some files →
        Ended (Plan.Compile version stage out.now names.now) names.now files (H.files host.new) (H.faults host.old) (H.faults host.new) result }
    ensures cause { result ≡ Err Stop.Host → (target : Target) × Contains (targets_of (Plan.Compile version stage out.now names.now)) target × Rose (H.faults host.old) (H.faults host.new) target }
    ensures faults { NeverFall (H.faults host.old) (H.faults host.new) }
    ensures streams { (stream : Stream) → H.printed host.new stream ≡ H.printed host.old stream }
{
    let sources = read_sources(alloc, 0, names, Sources::new(alloc), host)?;
    let bytes = compile_sources(alloc, version, stage, &sources)?;
    write_file(alloc, out, &bytes, host)
}

/// Compiles sources.
fn compile_sources(
    alloc: Global,
    version: Version,
    stage: Stage,
    sources: &Sources,
) -> Result<Bytes, Stop>
    requires { length sources.now ≤ MAX_SOURCES }
    ensures { CompilesSources version stage sources.now result }
{
    match compile_for(alloc, version, stage, sources) {
        Ok(bytes) => Ok(bytes),
        Err(Refusal::Source(fault)) => Err(Stop::Fault(fault)),
        Err(Refusal::Memory) => Err(Stop::Memory),
    }
}

/// Writes a file whole.
fn write_file<H: Host>(alloc: Global, out: &Text, bytes: &Bytes, host: &mut H) -> Result<(), Stop>
    ensures ok { OnOk result (Sets (H.files host.old) (H.files host.new) out.now bytes.now) }
    ensures others { KeepsOthers (H.files host.old) (H.files host.new) out.now }
    ensures failed { result ≡ Err Stop.Host → Rose (H.faults host.old) (H.faults host.new) (Target.Writing out.now) }
    ensures no_fault { (fault : Fault) → result ≡ Err (Stop.Fault fault) → ⊥ }
    ensures no_text { (text : List ℕ) → result ≡ Err (Stop.Rejected text) → ⊥ }
    ensures faults { NeverFall (H.faults host.old) (H.faults host.new) }
    ensures streams { (stream : Stream) → H.printed host.new stream ≡ H.printed host.old stream }
{
    match host.write_file(alloc, out, bytes.as_slice()) {
        Ok(()) => Ok(()),
        Err(HostRefusal::Failed) => Err(Stop::Host),
        Err(HostRefusal::Memory) => Err(Stop::Memory),
    }
}

/// Compiles source files, writes their module and gives the status.
fn compile_command<H: Host>(
    alloc: Global,
    version: Version,
    stage: Stage,
    out: &Text,
    names: &[Text],
    host: &mut H,
) -> u8
    requires { length names.now ≤ MAX_SOURCES }
    ensures told { (files : Files) → H.files host.old ≡ Some files → (job : Job) × IsJob (Plan.Compile version stage out.now names.now) files job
        × Performs job files (H.files host.new) (H.faults host.old) (H.faults host.new) (H.printed host.old) (H.printed host.new) result }
    ensures cause { result ≡ 3 → (target : Target) × Contains (targets_of (Plan.Compile version stage out.now names.now)) target × Rose (H.faults host.old) (H.faults host.new) target }
    ensures planned { result ≢ 2 }
{
    match compile_files(alloc, version, stage, out, names, host) {
        Ok(()) => 0,
        Err(stop) => report(alloc, names, stop, host),
    }
}

/// Reads the file of a module, or of its text.
fn read_module<H: Host>(
    alloc: Global,
    conversion: Conversion,
    file: &Text,
    host: &mut H,
) -> Result<Bytes, Stop>
    ensures told { ReadsFile conversion (H.files host.old) file.now result }
    ensures within { IfOk result (λ bytes. length bytes ≤ 402653184) }
    ensures failed { result ≡ Err Stop.Host → Rose (H.faults host.old) (H.faults host.new) (Target.Reading file.now) }
    ensures faults { NeverFall (H.faults host.old) (H.faults host.new) }
    ensures files { H.files host.new ≡ H.files host.old }
    ensures streams { (stream : Stream) → H.printed host.new stream ≡ H.printed host.old stream }
{
    match host.read_file(alloc, file, MAX_MODULE_BYTES) {
        Ok(bytes) => Ok(bytes),
        Err(ReadRefusal::TooLong) => Err(too_long(alloc, conversion, file)),
        Err(ReadRefusal::Failed) => Err(Stop::Host),
        Err(ReadRefusal::Memory) => Err(Stop::Memory),
    }
}

/// Writes what is made of a file.
fn convert_file<H: Host>(
    alloc: Global,
    conversion: Conversion,
    file: &Text,
    out: &Text,
    host: &mut H,
) -> Result<(), Stop>
    ensures told { (files : Files) → H.files host.old ≡ Some files →
        Ended (plan_for conversion file.now out.now) [] files (H.files host.new) (H.faults host.old) (H.faults host.new) result }
    ensures cause { result ≡ Err Stop.Host → (target : Target) × Contains (targets_of (plan_for conversion file.now out.now)) target × Rose (H.faults host.old) (H.faults host.new) target }
    ensures faults { NeverFall (H.faults host.old) (H.faults host.new) }
    ensures streams { (stream : Stream) → H.printed host.new stream ≡ H.printed host.old stream }
{
    let bytes = read_module(alloc, conversion, file, host)?;
    let text = made(alloc, conversion, file, bytes.as_slice())?;
    write_file(alloc, out, &text, host)
}

/// Converts a file and gives the status.
fn convert_command<H: Host>(
    alloc: Global,
    conversion: Conversion,
    file: &Text,
    out: &Text,
    host: &mut H,
) -> u8
    ensures told { (files : Files) → H.files host.old ≡ Some files → (job : Job) × IsJob (plan_for conversion file.now out.now) files job
        × Performs job files (H.files host.new) (H.faults host.old) (H.faults host.new) (H.printed host.old) (H.printed host.new) result }
    ensures cause { result ≡ 3 → (target : Target) × Contains (targets_of (plan_for conversion file.now out.now)) target × Rose (H.faults host.old) (H.faults host.new) target }
    ensures planned { result ≢ 2 }
{
    match convert_file(alloc, conversion, file, out, host) {
        Ok(()) => 0,
        Err(stop) => report(alloc, &[], stop, host),
    }
}

/// Runs the command that the words are, and gives the program's status. The first word is the program's
/// own name.
pub fn glsl_main<H: Host>(alloc: Global, words: &Words, host: &mut H) -> u8
    // Status 2 comes exactly where the words are no command, unless memory was wanting; all stays then.
    ensures usage { result ≡ 2 → plan_of words.now ≡ None }
    ensures unplanned { plan_of words.now ≡ None → ((result ≡ 2) ⊎ (result ≡ 4)) × (H.files host.new ≡ H.files host.old)
        × (H.printed host.new Stream.Out ≡ H.printed host.old Stream.Out) }

    // The command has done its job, or as much of it as the host and the memory let it.
    ensures told { (plan : Plan) → plan_of words.now ≡ Some plan → (files : Files) → H.files host.old ≡ Some files →
        (job : Job) × IsJob plan files job
        × Performs job files (H.files host.new) (H.faults host.old) (H.faults host.new) (H.printed host.old) (H.printed host.new) result }

    // Status 0 means that what the command makes has been written: of `compile` a module that carries the program of the
    // sources and is small for it; of `exec` and `run` it means that the module has ended.
    ensures written { result ≡ 0 → (plan : Plan) → plan_of words.now ≡ Some plan → (files : Files) → H.files host.old ≡ Some files →
        Written plan files (H.files host.new) }

    // On every host, status 3 comes only where something failed that the command may reach for.
    ensures cause { result ≡ 3 → (plan : Plan) × (target : Target) × (plan_of words.now ≡ Some plan) × MayReach plan (H.files host.old) target
        × Rose (H.faults host.old) (H.faults host.new) target }
{
    one_owed();
    one_owed_of_valid();
    let Ok(command) = plan(alloc, words) else {
        return 4;
    };
    match command {
        Command::Usage(text) => usage(alloc, text.as_slice(), host),
        Command::Compile {
            target,
            stage,
            out,
            files,
        } => compile_command(alloc, target, stage, &out, files.as_slice(), host),
        Command::Disassemble { file, out } => {
            convert_command(alloc, Conversion::Disassemble, &file, &out, host)
        }
        Command::Assemble { file, out } => {
            convert_command(alloc, Conversion::Assemble, &file, &out, host)
        }
        Command::Check { file } => check_command(alloc, &file, host),
        Command::Exec { file, inputs } => exec_command(alloc, &file, &inputs, host),
        Command::Run {
            stage,
            inputs,
            files,
        } => run_command(alloc, stage, &inputs, files.as_slice(), host),
    }
}
