ghost use Rattle.std.specs.Prelude.{ℕ, List, Option, Err, ◌≡◌, ◌≤◌, length, IfOk, OnOk, OnErr};
ghost use Rattle.gsl_host.specs.declared.target.Stream.{Stream};
ghost use Rattle.gsl_host.specs.declared.target.Target.{Target};
ghost use Rattle.gsl_host.specs.Outside.{Files, Reads, Sets, KeepsOthers, Appends, AppendsSome, other, NeverFall, Rose};

use crate::target::{HostRefusal, ReadRefusal, Stream, Target};
use gsl_base::{Bytes, Text};
use std::alloc::Global;

/// The outside of the program: named files, standard output and standard error.
///
/// `files` is the map from names to bytes, where the host tells it; `printed` is what each stream has
/// gained, where the host tells it; `faults` counts the failed calls of each target.
pub trait Host {
    ghost files: { Self → Option Files };

    ghost printed: { Self → Stream → Option (List ℕ) };

    ghost faults: { Self → Target → ℕ };

    /// The bytes of the file `name`, if they are at most `most`. Files and streams stay.
    fn read_file(&mut self, alloc: Global, name: &Text, most: usize) -> Result<Bytes, ReadRefusal>
        ensures answer { Reads (files self.old) name.now most result }
        ensures within { IfOk result (λ bytes. length bytes ≤ most) }
        ensures failed { result ≡ Err ReadRefusal.Failed → Rose (faults self.old) (faults self.new) (Target.Reading name.now) }
        ensures faults { NeverFall (faults self.old) (faults self.new) }
        ensures files { files self.new ≡ files self.old }
        ensures streams { (stream : Stream) → printed self.new stream ≡ printed self.old stream };

    /// Sets the file `name`. After a refusal it may have been lost or written in part; all other files
    /// and the streams stay.
    fn write_file(&mut self, alloc: Global, name: &Text, bytes: &[u8]) -> Result<(), HostRefusal>
        ensures ok { OnOk result (Sets (files self.old) (files self.new) name.now bytes.now) }
        ensures others { KeepsOthers (files self.old) (files self.new) name.now }
        ensures failed { result ≡ Err HostRefusal.Failed → Rose (faults self.old) (faults self.new) (Target.Writing name.now) }
        ensures faults { NeverFall (faults self.old) (faults self.new) }
        ensures streams { (stream : Stream) → printed self.new stream ≡ printed self.old stream };

    /// Prints bytes at the end of a stream. After a refusal it has gained some first part of them; the
    /// files and the other stream stay.
    fn print(&mut self, alloc: Global, stream: Stream, bytes: &[u8]) -> Result<(), HostRefusal>
        ensures ok { OnOk result (Appends (printed self.old stream) (printed self.new stream) bytes.now) }
        ensures refused { OnErr result (AppendsSome (printed self.old stream) (printed self.new stream) bytes.now) }
        ensures other { printed self.new (other stream) ≡ printed self.old (other stream) }
        ensures failed { result ≡ Err HostRefusal.Failed → Rose (faults self.old) (faults self.new) (Target.Printing stream) }
        ensures faults { NeverFall (faults self.old) (faults self.new) }
        ensures files { files self.new ≡ files self.old };
}
