//! A run of a module: from the words of a command line and the files that they name to a listing and a status.

ghost use Rattle.gsl_enactor.specs.Listed as spec;

use crate::reading::{manifest, read_inputs, read_module, read_named, valid_of};
use crate::stop::Stop;
use crate::texts::{GOING_TEXT, HOST_TEXT, STUCK_TEXT, strayed_text};
use gsl_base::{Bytes, Input, InputRefusal, Output, Text, Words};
use gsl_enact::{Enacted, enact};
use gsl_enact_steps::Step;
use gsl_given::misfit_text;
use gsl_host::{Host, HostRefusal, Stream};
use gsl_manifest::listing;
use gsl_validate::Valid;
use std::alloc::Global;

/// Prints a text on standard error. The status is the one given, or 4 where memory was wanting.
fn say<H: Host>(alloc: Global, text: &[u8], status: u8, host: &mut H) -> u8 {
    match host.print(alloc, Stream::Err, text) {
        Ok(()) | Err(HostRefusal::Failed) => status,
        Err(HostRefusal::Memory) => 4,
    }
}

/// Reports why a run stopped, and gives the status.
fn report<H: Host>(alloc: Global, stop: Stop, host: &mut H) -> u8 {
    let status = stop.status();
    match stop {
        Stop::Memory => status,
        Stop::Host => say(alloc, HOST_TEXT, status, host),
        Stop::Going => say(alloc, GOING_TEXT, status, host),
        Stop::Stuck => say(alloc, STUCK_TEXT, status, host),
        Stop::Input(text) => say(alloc, text.as_slice(), status, host),
        Stop::Module(text) => say(alloc, text.as_slice(), status, host),
        Stop::Strayed(at) => match strayed_text(alloc, at) {
            Ok(text) => say(alloc, text.as_slice(), status, host),
            Err(_) => 4,
        },
    }
}

/// The listing of an output.
fn shown(alloc: Global, output: &Output) -> Result<Bytes, Stop>
    ensures { spec.Shows output.now result }
{
    match listing(alloc, output) {
        Ok(text) => Ok(text),
        Err(_) => Err(Stop::Memory),
    }
}

/// The listing of what a run came to.
fn listed(alloc: Global, step: Step) -> Result<Bytes, Stop>
    ensures { spec.Lists step result }
{
    match step {
        Step::Ended(output) => shown(alloc, &output),
        Step::Strayed(at) => Err(Stop::Strayed(at)),
        Step::Going => Err(Stop::Going),
        Step::Stuck => Err(Stop::Stuck),
    }
}

/// The line that tells why an input does not fit.
fn misfit(alloc: Global, refusal: InputRefusal) -> Stop
    ensures { spec.Refuses refusal result }
{
    match misfit_text(alloc, refusal) {
        Ok(text) => Stop::Input(text),
        Err(_) => Stop::Memory,
    }
}

/// The listing of what a module comes to on an input.
fn enacted(alloc: Global, valid: &Valid, input: &Input, steps: u64) -> Result<Bytes, Stop>
    ensures { spec.Answers valid.now input.now steps result }
{
    match enact(alloc, valid.module(), input, steps) {
        Err(_) => Err(Stop::Memory),
        Ok(Enacted::Misfit(refusal)) => Err(misfit(alloc, refusal)),
        Ok(Enacted::Came(step)) => listed(alloc, step),
    }
}

/// The listing of what the module of a file comes to on the input of a manifest.
fn run_module_file<H: Host>(
    alloc: Global,
    name: &Text,
    inputs: &Text,
    host: &mut H,
) -> Result<Bytes, Stop> {
    let file = read_module(alloc, name, host)?;
    let bytes = read_inputs(alloc, inputs, host)?;
    let valid = valid_of(alloc, file.as_slice())?;
    let manifest = manifest(alloc, bytes.as_slice())?;
    let steps = manifest.steps;
    let input = read_named(alloc, manifest, host)?;
    enacted(alloc, &valid, &input, steps)
}

/// Prints a listing, and gives the status.
fn show<H: Host>(alloc: Global, text: &[u8], host: &mut H) -> u8 {
    match host.print(alloc, Stream::Out, text) {
        Ok(()) => 0,
        Err(HostRefusal::Failed) => say(alloc, HOST_TEXT, 3, host),
        Err(HostRefusal::Memory) => 4,
    }
}

/// Runs `MODULE INPUTS`, and gives the status. The first word is the program's own name.
pub fn enactor<H: Host>(alloc: Global, words: &Words, host: &mut H) -> u8 {
    let [_, name, inputs] = words.as_slice() else {
        return say(alloc, b"usage\n", 2, host);
    };
    match run_module_file(alloc, name, inputs, host) {
        Ok(text) => show(alloc, text.as_slice(), host),
        Err(stop) => report(alloc, stop, host),
    }
}
