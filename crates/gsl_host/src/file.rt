ghost use Rattle.std.specs.Prelude.{◌≡◌, ◌+◌, ◌≤◌, [], length, IfOk, IsTrue};
ghost use Rattle.std.specs.Io.KnownBytes.{Appends};
ghost use Rattle.gsl_host.specs.Told.{no_files, no_streams, ReadsLeft, ReadsUpTo};
ghost use Rattle.gsl_host.specs.declared.target.Target.{Target};
ghost use Rattle.gsl_host.specs.Outside.{NeverFall, Rose};
ghost use Rattle.gsl_host.specs.Faults.{faults_of, with_fault, failed, read_failed};

use crate::faults::Faults;
use crate::host::Host;
use crate::target::{HostRefusal, ReadRefusal, Stream, Target};
use gsl_base::{Bytes, List, Memory, Text};
use std::alloc::Global;
use std::fs::File;
use std::io;
use std::io::{Read, Write};
use std::marker::Model;
use std::rt::{Files, Runtime};

/// How many bytes one read asks for at most.
const CHUNK: usize = 4096;

/// A host over the files and streams of the system. It tells nothing but its faults: contracts see
/// the targets of its failed calls.
///
/// Standard error takes text alone, so printing bytes there that are not UTF-8 is a fault.
#[derive(Drop)]
pub struct FileHost<R: Runtime> {
    rt: R,
    faults: Faults,
}

impl<R: Runtime> Model for FileHost<R> {
    ghost use Rattle.std.specs.Prelude.{List};
    ghost use Rattle.gsl_host.specs.declared.target.Target.{Target};

    ghost Value = { List Target };

    ghost view = { λ h. h.faults };
}

impl<R: Runtime> FileHost<R> {
    /// A host with no fault so far, which takes no memory.
    pub fn new(rt: R, alloc: Global) -> FileHost<R>
        ensures { result ≡ [] }
    {
        FileHost {
            rt,
            faults: Faults::new(alloc),
        }
    }
}

impl<R: Runtime> Host for FileHost<R> {
    ghost files = { no_files };

    ghost printed = { no_streams };

    ghost faults = { faults_of };

    #[tactic(auto, using(crate::proofs::Targets::fault_counts))]
    fn read_file(&mut self, alloc: Global, name: &Text, most: usize) -> Result<Bytes, ReadRefusal>
        ensures within { IfOk result (λ bytes. length bytes ≤ most) }
        ensures failed { result ≡ Err ReadRefusal.Failed → Rose (faults_of self.old) (faults_of self.new) (Target.Reading name.now) }
        ensures faults { NeverFall (faults_of self.old) (faults_of self.new) }
        ensures after { self.new ≡ with_fault self.old (Target.Reading name.now) (read_failed result) }
    {
        let reading = Target::Reading(Text::from_str(alloc, name.as_str())?);
        self.faults.expect(reading)?;
        match open_and_read(&self.rt, alloc, name.as_str(), most) {
            Err(ReadRefusal::Failed) => Err(ReadRefusal::Failed),
            answer => {
                self.faults.withdraw();
                answer
            }
        }
    }

    #[tactic(auto, using(crate::proofs::Targets::fault_counts))]
    fn write_file(&mut self, alloc: Global, name: &Text, bytes: &[u8]) -> Result<(), HostRefusal>
        ensures failed { result ≡ Err HostRefusal.Failed → Rose (faults_of self.old) (faults_of self.new) (Target.Writing name.now) }
        ensures faults { NeverFall (faults_of self.old) (faults_of self.new) }
        ensures after { self.new ≡ with_fault self.old (Target.Writing name.now) (failed result) }
    {
        let writing = Target::Writing(Text::from_str(alloc, name.as_str())?);
        self.faults.expect(writing)?;
        if !create_and_write(&self.rt, name.as_str(), bytes) {
            return Err(HostRefusal::Failed);
        }
        self.faults.withdraw();
        Ok(())
    }

    #[tactic(auto, using(crate::proofs::Targets::fault_counts))]
    fn print(&mut self, _alloc: Global, stream: Stream, bytes: &[u8]) -> Result<(), HostRefusal>
        ensures failed { result ≡ Err HostRefusal.Failed → Rose (faults_of self.old) (faults_of self.new) (Target.Printing stream) }
        ensures faults { NeverFall (faults_of self.old) (faults_of self.new) }
        ensures after { self.new ≡ with_fault self.old (Target.Printing stream) (failed result) }
    {
        self.faults.expect(Target::Printing(stream))?;
        let done = match stream {
            Stream::Out => write_all(&mut io::writer(&self.rt), bytes),
            Stream::Err => print_error(&self.rt, bytes),
        };
        if !done {
            return Err(HostRefusal::Failed);
        }
        self.faults.withdraw();
        Ok(())
    }
}

/// Reads the file `name`, if it has at most `most` bytes. It reads at most one byte more.
fn open_and_read<R: Files>(
    rt: &R,
    alloc: Global,
    name: &str,
    most: usize,
) -> Result<Bytes, ReadRefusal>
    ensures within { IfOk result (λ bytes. length bytes ≤ most) }
{
    match File::open(rt, name) {
        Ok(mut file) => read_to_end(&mut file, alloc, most),
        Err(_) => Err(ReadRefusal::Failed),
    }
}

/// The bytes that a reader has left, if they are at most `most`. It reads at most one byte more.
fn read_to_end<F: Read>(reader: &mut F, alloc: Global, most: usize) -> Result<Bytes, ReadRefusal>
    ensures within { IfOk result (λ bytes. length bytes ≤ most) }
    ensures left { ReadsLeft (F.remaining reader.old) most result }
    ensures few { ReadsUpTo (F.remaining reader.old) (F.remaining reader.new) (most + 1) }
{
    let mut bytes = List::new(alloc);
    let mut chunk = [0; CHUNK];
    loop {
        let room = most - bytes.len();
        let wanted = if room < CHUNK { room + 1 } else { CHUNK };
        let Ok(count) = reader.read(&mut chunk[..wanted]) else {
            return Err(ReadRefusal::Failed);
        };
        if count == 0 {
            return Ok(bytes);
        }
        if count > room {
            return Err(ReadRefusal::TooLong);
        }
        bytes.extend_from_slice(&chunk[..count])?;
    }
}

/// Makes the file `name` of these bytes, and says whether that was done.
fn create_and_write<R: Files>(rt: &R, name: &str, bytes: &[u8]) -> bool {
    match File::create(rt, name) {
        Ok(mut file) => write_all(&mut file, bytes),
        Err(_) => false,
    }
}

/// Writes all of the bytes, in as many writes as it takes, and says whether that was done.
fn write_all<W: Write>(writer: &mut W, bytes: &[u8]) -> bool
    ensures { IsTrue result → Appends (W.contents writer.old) (W.contents writer.new) bytes.now }
{
    let mut rest = bytes;
    while !rest.is_empty() {
        match writer.write(rest) {
            Ok(0) | Err(_) => return false,
            Ok(count) => rest = &rest[count..],
        }
    }
    writer.flush().is_ok()
}

/// Prints text on standard error, and says whether that was done.
fn print_error<R: Eprint>(rt: &R, bytes: &[u8]) -> bool {
    match std::str::from_utf8(bytes) {
        Ok(text) => rt.eprint(text).is_ok(),
        Err(_) => false,
    }
}
