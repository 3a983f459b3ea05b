//! Runs the cases in the files that its words name, and prints what came of each: command lines over
//! hosts in memory, texts and their trees, shaders and their modules side by side. `docs/CASES.md` has
//! the form of a case.
#![tactic(auto)]

mod case;
mod modules;
mod reader;
mod running;
mod sides;
mod sources;
mod text;

use crate::case::Case;
use crate::reader::{Misread, read_cases};
use crate::running::run_case;
use gsl_base::{Bytes, Memory, Text};
use gsl_host::{FileHost, Host, ReadRefusal, Stream};
use gsl_outline::{Done, Outline};
use std::alloc::Global;
use std::env;
use std::process::ExitCode;

/// The largest file of cases.
const MAX_BYTES: usize = 16_777_216;

fn main(rt: HostRuntime) -> ExitCode {
    let alloc = rt.alloc();
    let Ok(words) = env::args(&rt) else {
        return ExitCode::from(3);
    };
    let mut host = FileHost::new(rt, alloc);
    let mut status = 0;
    for word in words.into_iter().skip(1) {
        if run_file(alloc, word.as_str(), &mut host).is_err() {
            status = 1;
        }
    }
    ExitCode::from(status)
}

/// Runs the cases of a file, and prints what came.
fn run_file<H: Host>(alloc: Global, name: &str, host: &mut H) -> Result<(), Memory> {
    let mut out = Outline::new(alloc);
    run_named(alloc, &mut out, name, host)?;
    host.print(alloc, Stream::Out, out.bytes())
        .map_err(|_| Memory)
}

fn run_named<H: Host>(alloc: Global, out: &mut Outline, name: &str, host: &mut H) -> Done {
    match bytes_of(alloc, name, host)? {
        Ok(bytes) => run_text(alloc, out, name, bytes.as_slice()),
        Err(_) => {
            out.put(name)?;
            out.put(" cannot be read\n")
        }
    }
}

fn bytes_of<H: Host>(
    alloc: Global,
    name: &str,
    host: &mut H,
) -> Result<Result<Bytes, ReadRefusal>, Memory> {
    let name = Text::from_str(alloc, name)?;
    Ok(host.read_file(alloc, &name, MAX_BYTES))
}

fn run_text(alloc: Global, out: &mut Outline, name: &str, bytes: &[u8]) -> Done {
    let Ok(text) = std::str::from_utf8(bytes) else {
        out.put(name)?;
        return out.put(" is not UTF-8\n");
    };
    match read_cases(alloc, text) {
        Ok(cases) => run_cases(alloc, out, &cases),
        Err(Misread::Line(line)) => {
            out.put(name)?;
            out.put(" is no file of cases at line ")?;
            out.number(u64::from(line))?;
            out.end_line()
        }
        Err(Misread::Memory) => Err(Memory),
    }
}

fn run_cases(alloc: Global, out: &mut Outline, cases: &[Case]) -> Done {
    for case in cases {
        run_case(alloc, out, case)?;
    }
    Ok(())
}
