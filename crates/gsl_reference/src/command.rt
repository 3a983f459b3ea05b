//! A run of a shader, from the words of a command line to a status.

ghost use Rattle.std.specs.Prelude.{◌≡◌, ◌≢◌, ◌≤◌, ◌⊎◌, ◌++◌, ◌∷◌, [], Some, None, length};
ghost use Rattle.gsl_host.specs.declared.target.Stream.{Stream};
ghost use Rattle.gsl_host.specs.declared.target.Target.{Target};
ghost use Rattle.gsl_host.specs.Outside.{Files, Name, NeverFall, Rose};
ghost use Rattle.gsl_cmd.specs.Command.{Said};
ghost use Rattle.gsl_cmd.specs.Job.{Job};
ghost use Rattle.gsl_cmd.specs.Performs.{Performs};
ghost use Rattle.gsl_plan.specs.Plan.{are_files as may_be_files, stage_of as stage_named};
ghost use Rattle.gsl_reference.specs.Asked.{Asked, asked_for, asked_in, asked_of};
ghost use Rattle.gsl_reference.specs.Owed.{IsJob};
ghost use Rattle.gsl_reference.specs.Steps.{Reported};
ghost use Rattle.gsl_reference.specs.Texts.{usage_text};

use crate::running::run_files;
use crate::stop::Stop;
use crate::texts::{GOING_TEXT, STRAYED_TEXT, USAGE_TEXT};
use gsl_base::{Stage, Text, Words};
use gsl_cmd::{HOST_TEXT, MAX_SOURCES, say, show_text};
use gsl_host::Host;
use gsl_manifest::one_reading;
use gsl_plan::MAX_FILES;
use std::alloc::Global;

/// Reports why a run stopped, and gives the status.
fn report<H: Host>(alloc: Global, stop: Stop, host: &mut H) -> u8
    ensures reported { Reported stop (H.faults host.old) (H.faults host.new) (H.printed host.old Stream.Err) (H.printed host.new Stream.Err) result }
    ensures out { H.printed host.new Stream.Out ≡ H.printed host.old Stream.Out }
    ensures files { H.files host.new ≡ H.files host.old }
    ensures faults { NeverFall (H.faults host.old) (H.faults host.new) }
{
    match stop {
        Stop::Fault(text) => say(alloc, text.as_slice(), 1, host),
        Stop::Going => say(alloc, GOING_TEXT, 5, host),
        Stop::Strayed => say(alloc, STRAYED_TEXT, 6, host),
        Stop::Input(text) => say(alloc, text.as_slice(), 7, host),
        Stop::Host => say(alloc, HOST_TEXT, 3, host),
        Stop::Memory => 4,
    }
}

/// The stage that a word names.
fn stage_of(word: &str) -> Option<Stage>
    ensures { result ≡ stage_named word.now }
{
    if word == "vert" {
        Some(Stage::Vertex)
    } else if word == "frag" {
        Some(Stage::Fragment)
    } else if word == "comp" {
        Some(Stage::Compute)
    } else {
        None
    }
}

/// Whether there is one source file or more, and not too many.
fn are_files(names: &[Text]) -> bool
    ensures { result ≡ may_be_files names.now }
{
    !names.is_empty() && names.len() <= MAX_FILES
}

/// Runs source files of a stage on the input of a manifest, prints the listing or why there is none, and gives the status.
fn run<H: Host>(alloc: Global, stage: Stage, inputs: &Text, names: &[Text], host: &mut H) -> u8
    requires { length names.now ≤ MAX_SOURCES }
    ensures told { (files : Files) → H.files host.old ≡ Some files → (job : Job)
        × IsJob (record { stage = stage; inputs = inputs.now; sources = names.now }) files job
        × Performs job files (H.files host.new) (H.faults host.old) (H.faults host.new) (H.printed host.old) (H.printed host.new) result }
    ensures cause { result ≡ 3 → ((name : Name) × Rose (H.faults host.old) (H.faults host.new) (Target.Reading name))
        ⊎ Rose (H.faults host.old) (H.faults host.new) (Target.Printing Stream.Out) }
    ensures asked { result ≢ 2 }
{
    one_reading();
    match run_files(alloc, stage, inputs, names, host) {
        Ok(text) => show_text(alloc, text.as_slice(), host),
        Err(stop) => report(alloc, stop, host),
    }
}

/// The words ask for nothing.
fn usage<H: Host>(alloc: Global, host: &mut H) -> u8
    ensures said { Said (H.faults host.old) (H.faults host.new) (H.printed host.old Stream.Err) (H.printed host.new Stream.Err) usage_text 2 result }
    ensures out { H.printed host.new Stream.Out ≡ H.printed host.old Stream.Out }
    ensures files { H.files host.new ≡ H.files host.old }
{
    say(alloc, USAGE_TEXT, 2, host)
}

/// Runs the files of these names, if there are as many as there may be and the stage is one.
fn run_for<H: Host>(alloc: Global, stage: &Text, inputs: &Text, names: &[Text], host: &mut H) -> u8
    ensures usage { result ≡ 2 → asked_for stage.now inputs.now names.now ≡ None }
    ensures unasked { asked_for stage.now inputs.now names.now ≡ None →
        Said (H.faults host.old) (H.faults host.new) (H.printed host.old Stream.Err) (H.printed host.new Stream.Err) usage_text 2 result
        × (H.files host.new ≡ H.files host.old) × (H.printed host.new Stream.Out ≡ H.printed host.old Stream.Out) }
    ensures told { (asked : Asked) → asked_for stage.now inputs.now names.now ≡ Some asked → (files : Files) → H.files host.old ≡ Some files →
        (job : Job) × IsJob asked files job
        × Performs job files (H.files host.new) (H.faults host.old) (H.faults host.new) (H.printed host.old) (H.printed host.new) result }
    ensures cause { result ≡ 3 → ((name : Name) × Rose (H.faults host.old) (H.faults host.new) (Target.Reading name))
        ⊎ Rose (H.faults host.old) (H.faults host.new) (Target.Printing Stream.Out) }
{
    if !are_files(names) {
        return usage(alloc, host);
    }
    match stage_of(stage.as_str()) {
        Some(stage) => run(alloc, stage, inputs, names, host),
        None => usage(alloc, host),
    }
}

/// Runs what the words `STAGE INPUTS FILE..` ask for, and gives the status. The first word is the program's own name.
pub fn reference<H: Host>(alloc: Global, words: &Words, host: &mut H) -> u8
    // Status 2 comes exactly where the words ask for nothing, unless memory was wanting; all stays then.
    ensures usage { result ≡ 2 → asked_of words.now ≡ None }
    ensures unasked { asked_of words.now ≡ None →
        Said (H.faults host.old) (H.faults host.new) (H.printed host.old Stream.Err) (H.printed host.new Stream.Err) usage_text 2 result
        × (H.files host.new ≡ H.files host.old) × (H.printed host.new Stream.Out ≡ H.printed host.old Stream.Out) }

    // The run has done its job, or as much of it as the host and the memory let it.
    ensures told { (asked : Asked) → asked_of words.now ≡ Some asked → (files : Files) → H.files host.old ≡ Some files →
        (job : Job) × IsJob asked files job
        × Performs job files (H.files host.new) (H.faults host.old) (H.faults host.new) (H.printed host.old) (H.printed host.new) result }

    // On every host, status 3 comes only where reading a file or printing the listing failed.
    ensures cause { result ≡ 3 → ((name : Name) × Rose (H.faults host.old) (H.faults host.new) (Target.Reading name))
        ⊎ Rose (H.faults host.old) (H.faults host.new) (Target.Printing Stream.Out) }
{
    match words.as_slice() {
        [_, stage, inputs, names @ ..] => run_for(alloc, stage, inputs, names, host),
        _ => usage(alloc, host),
    }
}
