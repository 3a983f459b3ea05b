//! Printing what a command came to.

ghost use Rattle.std.specs.Prelude.{◌≡◌, ◌≢◌};
ghost use Rattle.gsl_host.specs.declared.target.Target.{Target};
ghost use Rattle.gsl_host.specs.Outside.{NeverFall, Rose};
ghost use Rattle.gsl_cmd.specs.Command.{Finished, Said, Shown};

use crate::text::HOST_TEXT;
use gsl_base::Bytes;
use gsl_exec::Stop;
use gsl_host::{Host, HostRefusal, Stream};
use std::alloc::Global;

/// Prints a text on standard error. The status is the one given, or 4 where memory was wanting.
pub fn say<H: Host>(alloc: Global, text: &[u8], status: u8, host: &mut H) -> u8
    ensures said { Said (H.faults host.old) (H.faults host.new) (H.printed host.old Stream.Err) (H.printed host.new Stream.Err) text.now status result }
    ensures out { H.printed host.new Stream.Out ≡ H.printed host.old Stream.Out }
    ensures files { H.files host.new ≡ H.files host.old }
    ensures faults { NeverFall (H.faults host.old) (H.faults host.new) }
{
    match host.print(alloc, Stream::Err, text) {
        Ok(()) | Err(HostRefusal::Failed) => status,
        Err(HostRefusal::Memory) => 4,
    }
}

/// Prints a text on standard output, and gives the status.
pub fn show_text<H: Host>(alloc: Global, text: &[u8], host: &mut H) -> u8
    ensures shown { Shown (H.faults host.old) (H.faults host.new) (H.printed host.old Stream.Out) (H.printed host.new Stream.Out)
        (H.printed host.old Stream.Err) (H.printed host.new Stream.Err) text.now result }
    ensures files { H.files host.new ≡ H.files host.old }
    ensures faults { NeverFall (H.faults host.old) (H.faults host.new) }
    ensures cause { result ≡ 3 → Rose (H.faults host.old) (H.faults host.new) (Target.Printing Stream.Out) }
    ensures planned { result ≢ 2 }
{
    match host.print(alloc, Stream::Out, text) {
        Ok(()) => 0,
        Err(HostRefusal::Failed) => say(alloc, HOST_TEXT, 3, host),
        Err(HostRefusal::Memory) => 4,
    }
}

/// Prints the text that a command made, or why there is none, and gives the status.
pub fn finish<H: Host>(alloc: Global, end: Result<Bytes, Stop>, host: &mut H) -> u8
    ensures finished { Finished end (H.faults host.old) (H.faults host.new) (H.printed host.old Stream.Out) (H.printed host.new Stream.Out)
        (H.printed host.old Stream.Err) (H.printed host.new Stream.Err) result }
    ensures files { H.files host.new ≡ H.files host.old }
    ensures faults { NeverFall (H.faults host.old) (H.faults host.new) }
{
    match end {
        Ok(text) => show_text(alloc, text.as_slice(), host),
        Err(Stop::Told(status, text)) => say(alloc, text.as_slice(), status, host),
        Err(Stop::Host) => say(alloc, HOST_TEXT, 3, host),
        Err(Stop::Memory) => 4,
    }
}
