//! The program `gsl`: the words of its command line and the files and streams of the system, handed to
//! the compiler's top call, whose contract says what a run does (`glsl_main` of `gsl_cmd`).
#![tactic(auto)]

use gsl_base::{Memory, Text, Words};
use gsl_cmd::glsl_main;
use gsl_host::FileHost;
use std::io::ErrorKind;
use std::process::ExitCode;
use std::rt::Runtime;
use std::{env, io};

fn main(rt: HostRuntime) -> ExitCode {
    ExitCode::from(match words(&rt) {
        Ok(words) => glsl_main(rt.alloc(), &words, &mut FileHost::new(rt, rt.alloc())),
        Err(stop) => stop.status(&rt),
    })
}

/// Why there are no words to run.
#[derive(Clone, Copy, Debug)]
enum NoWords {
    /// A word is not UTF-8.
    NotText,
    /// The system did not give them.
    Host,
    Memory,
}

impl NoWords {
    /// Reports it, and gives the program's status.
    fn status(self, rt: &impl Runtime) -> u8 {
        match self {
            NoWords::NotText => {
                let _ = rt.eprint("usage\n");
                2
            }
            NoWords::Host => {
                let _ = rt.eprint("ERROR: host\n");
                3
            }
            NoWords::Memory => 4,
        }
    }
}

impl From<Memory> for NoWords {
    fn from(_error: Memory) -> NoWords {
        NoWords::Memory
    }
}

impl From<io::Error> for NoWords {
    fn from(error: io::Error) -> NoWords {
        match error.kind() {
            ErrorKind::OutOfMemory => NoWords::Memory,
            ErrorKind::InvalidData => NoWords::NotText,
            _ => NoWords::Host,
        }
    }
}

/// The words of the command line, the program's name first.
fn words(rt: &HostRuntime) -> Result<Words, NoWords> {
    let mut words = Words::new(rt.alloc());
    for word in env::args(rt)? {
        words.push(Text::from_string(word))?;
    }
    Ok(words)
}
