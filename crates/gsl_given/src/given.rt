//! A manifest, and the files that it names.

ghost use Rattle.std.specs.Prelude.{◌≡◌, ◌≤◌, ◌++◌, [], ◌∷◌, Err, Some, length, map, not, Contains, IfOk, IfErr};
ghost use Rattle.std.specs.List.{prefix_len};
ghost use Rattle.std.specs.Option.{option_map};
ghost use Rattle.gsl_host.specs.declared.target.Stream.{Stream};
ghost use Rattle.gsl_host.specs.declared.target.Target.{Target};
ghost use Rattle.gsl_host.specs.Outside.{Files, NeverFall, Rose};
ghost use Rattle.gsl_manifest.specs.declared.manifest.BufferLine.{BufferLine as Line};
ghost use Rattle.gsl_given.specs.Given as spec;

use crate::stop::Stop;
use crate::texts::{line_text, long_text};
use gsl_base::{Buffer, Buffers, Bytes, Input, List, Memory, Text};
use gsl_host::{Host, ReadRefusal};
use gsl_manifest::{BufferLine, Manifest, ManifestRefusal, PushLine, read_manifest};
use std::alloc::Global;

/// The most bytes of a manifest.
pub const MAX_MANIFEST_BYTES: usize = 1_048_576;

/// The most bytes of a file that a manifest names.
const MAX_FILE_BYTES: usize = 16_777_216;

/// Reads the file of a manifest.
pub fn read_manifest_file<H: Host>(alloc: Global, name: &Text, host: &mut H) -> Result<Bytes, Stop>
    ensures told { spec.ReadsManifest (H.files host.old) name.now result }
    ensures within { IfOk result (λ bytes. length bytes ≤ MAX_MANIFEST_BYTES) }
    ensures failed { result ≡ Err Stop.Host → Rose (H.faults host.old) (H.faults host.new) (Target.Reading name.now) }
    ensures faults { NeverFall (H.faults host.old) (H.faults host.new) }
    ensures files { H.files host.new ≡ H.files host.old }
    ensures streams { (stream : Stream) → H.printed host.new stream ≡ H.printed host.old stream }
{
    match host.read_file(alloc, name, MAX_MANIFEST_BYTES) {
        Ok(bytes) => Ok(bytes),
        Err(ReadRefusal::TooLong) => Err(Stop::Refused(long_text(alloc)?)),
        Err(ReadRefusal::Failed) => Err(Stop::Host),
        Err(ReadRefusal::Memory) => Err(Stop::Memory),
    }
}

/// The manifest that the bytes are.
pub fn manifest_of(alloc: Global, bytes: &[u8]) -> Result<Manifest, Stop>
    requires { length bytes.now ≤ MAX_MANIFEST_BYTES }
    ensures { spec.Says bytes.now result }
{
    match read_manifest(alloc, bytes) {
        Ok(manifest) => Ok(manifest),
        Err(ManifestRefusal::Line(line)) => Err(Stop::Refused(line_text(alloc, line)?)),
        Err(ManifestRefusal::Memory) => Err(Stop::Memory),
    }
}

/// Reads the files that a manifest names, those of buffers in the order of their lines and that of the push constants last, and gives the
/// input with their bytes.
pub fn read_input<H: Host>(alloc: Global, manifest: Manifest, host: &mut H) -> Result<Input, Stop>
    ensures told { (files : Files) → H.files host.old ≡ Some files → spec.Answers (spec.given files manifest) result }
    ensures failed { result ≡ Err Stop.Host → (target : Target) × spec.IsNamed manifest target × Rose (H.faults host.old) (H.faults host.new) target }
    ensures reached { (files : Files) → H.files host.old ≡ Some files → result ≡ Err Stop.Host →
        (target : Target) × Contains (spec.reads files (spec.names_of manifest)) target × Rose (H.faults host.old) (H.faults host.new) target }
    ensures faults { NeverFall (H.faults host.old) (H.faults host.new) }
    ensures files { H.files host.new ≡ H.files host.old }
    ensures streams { (stream : Stream) → H.printed host.new stream ≡ H.printed host.old stream }
{
    let Manifest {
        buffers,
        push,
        input,
        steps: _,
    } = manifest;
    let given = read_buffers(alloc, buffers.as_slice(), Buffers::new(alloc), host)?;
    let push = read_push(alloc, &push, host)?;
    Ok(Input {
        buffers: given,
        push,
        ..input
    })
}

/// Reads the files of buffers, and puts each in its place among those that were read before.
fn read_buffers<H: Host>(
    alloc: Global,
    lines: &[BufferLine],
    before: Buffers,
    host: &mut H,
) -> Result<Buffers, Stop>
    ensures told { (files : Files) → H.files host.old ≡ Some files → spec.Answers (spec.buffers_found files before lines.now) result }
    ensures failed { result ≡ Err Stop.Host → (target : Target) × Contains (map (λ (line : Line). Target.Reading line.path) lines.now) target × Rose (H.faults host.old) (H.faults host.new) target }
    ensures reached { (files : Files) → H.files host.old ≡ Some files → result ≡ Err Stop.Host →
        (target : Target) × Contains (spec.reads files (map (λ (line : Line). line.path) lines.now)) target × Rose (H.faults host.old) (H.faults host.new) target }
    ensures faults { NeverFall (H.faults host.old) (H.faults host.new) }
    ensures files { H.files host.new ≡ H.files host.old }
    ensures streams { (stream : Stream) → H.printed host.new stream ≡ H.printed host.old stream }
{
    match lines {
        [] => Ok(before),
        [line, more @ ..] => {
            let all = read_buffer(alloc, line, before, host)?;
            read_buffers(alloc, more, all, host)
        }
    }
}

/// Reads the file of a buffer, and puts it in its place.
fn read_buffer<H: Host>(
    alloc: Global,
    line: &BufferLine,
    before: Buffers,
    host: &mut H,
) -> Result<Buffers, Stop>
    ensures told { (files : Files) → H.files host.old ≡ Some files → spec.Answers (spec.buffer_found files before line.now) result }
    ensures failed { result ≡ Err Stop.Host → Rose (H.faults host.old) (H.faults host.new) (Target.Reading line.now.path) }
    ensures faults { NeverFall (H.faults host.old) (H.faults host.new) }
    ensures files { H.files host.new ≡ H.files host.old }
    ensures streams { (stream : Stream) → H.printed host.new stream ≡ H.printed host.old stream }
{
    let bytes = read_file(alloc, &line.path, line.line, host)?;
    let all = with_buffer(line, before, bytes)?;
    Ok(all)
}

/// Reads the file of the push constants, if one is named.
fn read_push<H: Host>(
    alloc: Global,
    line: &Option<PushLine>,
    host: &mut H,
) -> Result<Option<Bytes>, Stop>
    ensures told { (files : Files) → H.files host.old ≡ Some files → spec.Answers (spec.push_found files line.now) result }
    ensures failed { result ≡ Err Stop.Host → (target : Target) × Contains (map Target.Reading (spec.push_names line.now)) target × Rose (H.faults host.old) (H.faults host.new) target }
    ensures faults { NeverFall (H.faults host.old) (H.faults host.new) }
    ensures files { H.files host.new ≡ H.files host.old }
    ensures streams { (stream : Stream) → H.printed host.new stream ≡ H.printed host.old stream }
{
    match line {
        None => Ok(None),
        Some(line) => push_of(alloc, line, host),
    }
}

/// Reads the file of the push constants.
fn push_of<H: Host>(alloc: Global, line: &PushLine, host: &mut H) -> Result<Option<Bytes>, Stop>
    ensures told { (files : Files) → H.files host.old ≡ Some files → spec.Answers (spec.push_found files (Some line.now)) result }
    ensures failed { result ≡ Err Stop.Host → Rose (H.faults host.old) (H.faults host.new) (Target.Reading line.now.path) }
    ensures faults { NeverFall (H.faults host.old) (H.faults host.new) }
    ensures files { H.files host.new ≡ H.files host.old }
    ensures streams { (stream : Stream) → H.printed host.new stream ≡ H.printed host.old stream }
{
    let bytes = read_file(alloc, &line.path, line.line, host)?;
    Ok(Some(bytes))
}

/// Reads the file that is named on a line.
fn read_file<H: Host>(alloc: Global, path: &Text, line: u32, host: &mut H) -> Result<Bytes, Stop>
    ensures told { spec.ReadsFile (H.files host.old) line path.now result }
    ensures failed { result ≡ Err Stop.Host → Rose (H.faults host.old) (H.faults host.new) (Target.Reading path.now) }
    ensures faults { NeverFall (H.faults host.old) (H.faults host.new) }
    ensures files { H.files host.new ≡ H.files host.old }
    ensures streams { (stream : Stream) → H.printed host.new stream ≡ H.printed host.old stream }
{
    match host.read_file(alloc, path, MAX_FILE_BYTES) {
        Ok(bytes) => Ok(bytes),
        Err(ReadRefusal::TooLong) => Err(Stop::Refused(line_text(alloc, line)?)),
        Err(ReadRefusal::Failed) => Err(Stop::Host),
        Err(ReadRefusal::Memory) => Err(Stop::Memory),
    }
}

/// The buffers with that of a line, in its place.
fn with_buffer(line: &BufferLine, buffers: Buffers, bytes: Bytes) -> Result<Buffers, Memory>
    ensures { IfOk result (λ all. all ≡ spec.with_buffer line.now buffers bytes) }
{
    let buffer = Buffer {
        set: line.set,
        binding: line.binding,
        bytes,
    };
    place_buffer(buffers, buffer)
}

/// The buffers with one more, in its place.
fn place_buffer(buffers: Buffers, buffer: Buffer) -> Result<Buffers, Memory>
    ensures { IfOk result (λ all. all ≡ spec.placed buffer buffers) }
{
    let index = buffer_place(buffers.as_slice(), &buffer);
    let mut items = buffers.into_vec();
    items.insert(index, buffer)?;
    Ok(List::from_vec(items))
}

/// How many buffers stand before one, as far as each does.
fn buffer_place(buffers: &[Buffer], buffer: &Buffer) -> usize
    ensures value { result ≡ prefix_len (λ other. not (spec.is_before buffer.now other)) buffers.now }
    ensures within { result ≤ length buffers.now }
{
    buffers
        .iter()
        .take_while(|other| !is_before(buffer, other))
        .count()
}

/// Whether a buffer stands before another, by set and then by binding.
fn is_before(a: &Buffer, b: &Buffer) -> bool
    ensures { result ≡ spec.is_before a.now b.now }
{
    a.set < b.set || (a.set == b.set && a.binding < b.binding)
}
