//! A run of a module's file, from the files that are read to what is listed.

ghost use Rattle.std.specs.Prelude.{◌≡◌, ◌≢◌, ◌≤◌, ◌∷◌, [], List, Some, None, Ok, Err, length};
ghost use Rattle.std.specs.FinMap.{get};
ghost use Rattle.gsl_host.specs.declared.target.Stream.{Stream};
ghost use Rattle.gsl_host.specs.declared.target.Target.{Target};
ghost use Rattle.gsl_host.specs.Outside.{Files, Name, NeverFall, Rose};
ghost use Rattle.gsl_given.specs.declared.given.TheConstants.{MAX_MANIFEST_BYTES as MOST};
ghost use Rattle.gsl_given.specs.Given as given;
ghost use Rattle.gsl_given.specs.Texts.{misfit_text as text_of};
ghost use Rattle.gsl_machine.specs.Fits.{fits};
ghost use Rattle.gsl_machine.specs.State.{Outcome};
ghost use Rattle.gsl_enact.specs.Came.{came as step_of};
ghost use Rattle.gsl_enact_steps.specs.declared.step.Step.{Step as OneStep};
ghost use Rattle.gsl_valid.specs.Valid.{Valid as IsValid};
ghost use Rattle.gsl_exec.specs.Owed as owed;
ghost use Rattle.gsl_exec.specs.Steps.{AreRead, Comes, Ends, HasStatus, NeverStuck};

use crate::judging::judged;
use crate::reading::read_module;
use crate::stop::{Stop, stopped, told};
use crate::texts::placed;
use gsl_base::{Bytes, Input, Text};
use gsl_enact::{Enacted, enact};
use gsl_enact_steps::Step;
use gsl_given::{MAX_MANIFEST_BYTES, manifest_of, misfit_text, read_input, read_manifest_file};
use gsl_host::Host;
use gsl_manifest::{Manifest, listing, one_reading};
use gsl_sound::valid_modules_are_never_stuck;
use gsl_validate::Valid;
use std::alloc::Global;

/// The listing of what a run came to, or why there is none.
fn shown(alloc: Global, step: Step) -> Result<Bytes, Stop>
    requires { step ≢ OneStep.Stuck }
    ensures { (targets : List Target) (outcome : Outcome) → step ≡ step_of outcome → (one : owed.Owed) × owed.IsCame targets one outcome × Comes ⊥ one result }
{
    match step {
        Step::Ended(output) => match listing(alloc, &output) {
            Ok(text) => Ok(text),
            Err(_) => Err(Stop::Memory),
        },
        Step::Strayed(at) => Err(told(6, placed(alloc, b"strayed at word ", at))),
        Step::Going => Err(told(5, Bytes::from_slice(alloc, b"steps used up\n"))),
        Step::Stuck => unreachable!(),
    }
}

/// The listing of what a valid module comes to on an input, or why there is none.
fn enacted(alloc: Global, valid: &Valid, input: &Input, steps: u64) -> Result<Bytes, Stop>
    ensures { (targets : List Target) → (one : owed.Owed) × owed.IsTested targets valid.now steps input.now one (fits valid.now input.now) × Comes ⊥ one result }
{
    valid_modules_are_never_stuck();
    match enact(alloc, valid.module(), input, steps) {
        Ok(Enacted::Misfit(refusal)) => Err(told(7, misfit_text(alloc, refusal))),
        Ok(Enacted::Came(step)) => shown(alloc, step),
        Err(_) => Err(Stop::Memory),
    }
}

/// Runs a valid module on the input of a manifest.
fn exec_given<H: Host>(
    alloc: Global,
    valid: &Valid,
    manifest: Manifest,
    host: &mut H,
) -> Result<Bytes, Stop>
    requires { IsValid valid.now }
    ensures told { NeverStuck → (files : Files) → H.files host.old ≡ Some files → (targets : List Target) →
        Ends (λ one. owed.IsSaid files targets valid.now one (Ok manifest)) (H.faults host.old) (H.faults host.new) result }
    ensures line { HasStatus result }
    ensures failed { result ≡ Err Stop.Host → (name : Name) × Rose (H.faults host.old) (H.faults host.new) (Target.Reading name) }
    ensures faults { NeverFall (H.faults host.old) (H.faults host.new) }
    ensures files { H.files host.new ≡ H.files host.old }
    ensures streams { (stream : Stream) → H.printed host.new stream ≡ H.printed host.old stream }
{
    let steps = manifest.steps;
    match read_input(alloc, manifest, host) {
        Ok(input) => enacted(alloc, valid, &input, steps),
        Err(why) => Err(stopped(why)),
    }
}

/// Runs a valid module on the input of the manifest that the bytes are.
fn exec_said<H: Host>(
    alloc: Global,
    valid: &Valid,
    text: &[u8],
    host: &mut H,
) -> Result<Bytes, Stop>
    requires valid { IsValid valid.now }
    requires text { length text.now ≤ MAX_MANIFEST_BYTES }
    ensures told { AreRead → NeverStuck → (files : Files) → H.files host.old ≡ Some files → (targets : List Target) →
        Ends (λ one. owed.IsTaken files text.now targets one (Ok valid.now) None) (H.faults host.old) (H.faults host.new) result }
    ensures line { HasStatus result }
    ensures failed { result ≡ Err Stop.Host → (name : Name) × Rose (H.faults host.old) (H.faults host.new) (Target.Reading name) }
    ensures faults { NeverFall (H.faults host.old) (H.faults host.new) }
    ensures files { H.files host.new ≡ H.files host.old }
    ensures streams { (stream : Stream) → H.printed host.new stream ≡ H.printed host.old stream }
{
    match manifest_of(alloc, text) {
        Ok(manifest) => exec_given(alloc, valid, manifest, host),
        Err(why) => Err(stopped(why)),
    }
}

/// Runs a valid module on the input of the manifest that the bytes are: reads the files that it names, runs the module on the input, if it fits,
/// for the manifest's steps, and gives the listing, or tells why there is none as `exec` does.
pub fn exec_valid<H: Host>(
    alloc: Global,
    valid: &Valid,
    text: &[u8],
    host: &mut H,
) -> Result<Bytes, Stop>
    requires valid { IsValid valid.now }
    requires text { length text.now ≤ MAX_MANIFEST_BYTES }
    // So much is owed of a module that is not refused, whatever was reached for before, and as much of it is done as the host and the memory let.
    ensures told { (files : Files) → H.files host.old ≡ Some files → (targets : List Target) →
        Ends (λ one. owed.IsTaken files text.now targets one (Ok valid.now) None) (H.faults host.old) (H.faults host.new) result }
    ensures line { HasStatus result }
    ensures failed { result ≡ Err Stop.Host → (name : Name) × Rose (H.faults host.old) (H.faults host.new) (Target.Reading name) }
    ensures faults { NeverFall (H.faults host.old) (H.faults host.new) }
    ensures files { H.files host.new ≡ H.files host.old }
    ensures streams { (stream : Stream) → H.printed host.new stream ≡ H.printed host.old stream }
{
    one_reading();
    valid_modules_are_never_stuck();
    exec_said(alloc, valid, text, host)
}

/// Runs the module whose file the bytes are on the input of a manifest.
fn exec_bytes<H: Host>(
    alloc: Global,
    bytes: &[u8],
    text: &[u8],
    host: &mut H,
) -> Result<Bytes, Stop>
    requires bytes { length bytes.now ≤ 402653184 }
    requires text { length text.now ≤ MAX_MANIFEST_BYTES }
    ensures told { AreRead → NeverStuck → (files : Files) → H.files host.old ≡ Some files → (targets : List Target) →
        Ends (owed.IsJudged files bytes.now text.now targets) (H.faults host.old) (H.faults host.new) result }
    ensures line { HasStatus result }
    ensures failed { result ≡ Err Stop.Host → (name : Name) × Rose (H.faults host.old) (H.faults host.new) (Target.Reading name) }
    ensures faults { NeverFall (H.faults host.old) (H.faults host.new) }
    ensures files { H.files host.new ≡ H.files host.old }
    ensures streams { (stream : Stream) → H.printed host.new stream ≡ H.printed host.old stream }
{
    match judged(alloc, bytes) {
        Ok(valid) => exec_said(alloc, &valid, text, host),
        Err(stop) => Err(stop),
    }
}

/// Reads the manifest, and runs the module whose file the bytes are on its input.
fn exec_behind<H: Host>(
    alloc: Global,
    bytes: &[u8],
    inputs: &Text,
    host: &mut H,
) -> Result<Bytes, Stop>
    requires { length bytes.now ≤ 402653184 }
    ensures told { AreRead → NeverStuck → (files : Files) → H.files host.old ≡ Some files → (file : Name) →
        Ends (λ one. owed.IsBehind files bytes.now (Target.Reading file ∷ Target.Reading inputs.now ∷ []) one (owed.read_of MOST (get files inputs.now)))
        (H.faults host.old) (H.faults host.new) result }
    ensures line { HasStatus result }
    ensures failed { result ≡ Err Stop.Host → (name : Name) × Rose (H.faults host.old) (H.faults host.new) (Target.Reading name) }
    ensures faults { NeverFall (H.faults host.old) (H.faults host.new) }
    ensures files { H.files host.new ≡ H.files host.old }
    ensures streams { (stream : Stream) → H.printed host.new stream ≡ H.printed host.old stream }
{
    match read_manifest_file(alloc, inputs, host) {
        Ok(text) => exec_bytes(alloc, bytes, text.as_slice(), host),
        Err(why) => Err(stopped(why)),
    }
}

/// The same for a module and a manifest by the names of their files.
fn exec_files<H: Host>(
    alloc: Global,
    file: &Text,
    inputs: &Text,
    host: &mut H,
) -> Result<Bytes, Stop>
    ensures told { AreRead → NeverStuck → (files : Files) → H.files host.old ≡ Some files →
        Ends (owed.IsOwed file.now inputs.now files) (H.faults host.old) (H.faults host.new) result }
    ensures line { HasStatus result }
    ensures failed { result ≡ Err Stop.Host → (name : Name) × Rose (H.faults host.old) (H.faults host.new) (Target.Reading name) }
    ensures faults { NeverFall (H.faults host.old) (H.faults host.new) }
    ensures files { H.files host.new ≡ H.files host.old }
    ensures streams { (stream : Stream) → H.printed host.new stream ≡ H.printed host.old stream }
{
    match read_module(alloc, file, host) {
        Ok(bytes) => exec_behind(alloc, bytes.as_slice(), inputs, host),
        Err(stop) => Err(stop),
    }
}

/// Reads the file of a module and then the manifest, judges the module, reads the files that the manifest names, runs the module on the
/// input, if it fits, for the manifest's steps, and gives the listing (SPIR-V 1.0, 2). Why there is none is told with its status:
/// 5 where it still goes on, 6 where an index was out of bounds, 7 where the manifest or the input is refused, 8 where the module is.
pub fn exec<H: Host>(alloc: Global, file: &Text, inputs: &Text, host: &mut H) -> Result<Bytes, Stop>
    // So much is owed over the files that are told, and as much of it is done as the host and the memory let.
    ensures told { (files : Files) → H.files host.old ≡ Some files →
        Ends (owed.IsOwed file.now inputs.now files) (H.faults host.old) (H.faults host.new) result }
    // On every host, a line is told with a status of 5 to 8, and it fails only where the reading of a file did.
    ensures line { HasStatus result }
    ensures failed { result ≡ Err Stop.Host → (name : Name) × Rose (H.faults host.old) (H.faults host.new) (Target.Reading name) }
    ensures faults { NeverFall (H.faults host.old) (H.faults host.new) }
    ensures files { H.files host.new ≡ H.files host.old }
    ensures streams { (stream : Stream) → H.printed host.new stream ≡ H.printed host.old stream }
{
    one_reading();
    valid_modules_are_never_stuck();
    exec_files(alloc, file, inputs, host)
}
