//! Runs the cases in the files that its words name: sources, each with the stage for which it is checked, and prints of each what
//! its typed unit has, or its first fault. `docs/CASES.md` has the form of a case.
#![tactic(auto)]

mod reading;
mod telling;

use crate::reading::{Case, read_cases};
use crate::telling::tell;
use gsl_base::{Memory, Text};
use gsl_host::{FileHost, Host, Stream};
use gsl_outline::Outline;
use std::alloc::Global;
use std::env;
use std::process::ExitCode;

/// The largest file of cases.
const MAX_BYTES: usize = 16_777_216;

fn main(rt: HostRuntime) -> ExitCode {
    let alloc = rt.alloc();
    let Ok(words) = env::args(&rt) else {
        return ExitCode::from(3);
    };
    let mut host = FileHost::new(rt, alloc);
    let mut status = 0;
    for word in words.into_iter().skip(1) {
        if run_file(alloc, word.as_str(), &mut host).is_err() {
            status = 1;
        }
    }
    ExitCode::from(status)
}

/// Runs the cases of a file, and prints what came.
fn run_file<H: Host>(alloc: Global, name: &str, host: &mut H) -> Result<(), Memory> {
    let mut out = Outline::new(alloc);
    match host.read_file(alloc, &Text::from_str(alloc, name)?, MAX_BYTES) {
        Ok(bytes) => run_text(alloc, &mut out, bytes.as_slice())?,
        Err(_) => {
            out.put(name)?;
            out.put(" cannot be read\n")?;
        }
    }
    host.print(alloc, Stream::Out, out.bytes())
        .map_err(|_| Memory)
}

fn run_text(alloc: Global, out: &mut Outline, bytes: &[u8]) -> Result<(), Memory> {
    let Ok(text) = std::str::from_utf8(bytes) else {
        return out.put("no UTF-8\n");
    };
    let cases = read_cases(alloc, text)?;
    for case in &cases {
        run_case(alloc, out, case)?;
    }
    Ok(())
}

/// Prints a case's title, and what came of its source.
fn run_case(alloc: Global, out: &mut Outline, case: &Case) -> Result<(), Memory> {
    out.put(case.title.as_str())?;
    out.put(": ")?;
    tell(alloc, out, case.stage, case.source.as_str().as_bytes())
}
