//! Reads typed expressions in postfix form, and calls with their candidates, from the files that its words name, and prints what is
//! known of each expression and which candidate is chosen. `docs/CASES.md` has the form of a line.
#![tactic(auto)]

mod answers;
mod computed;
mod expressions;
mod layouts;
mod misread;
mod names;
mod stack;
mod structs;
mod types;

use crate::answers::run_text;
use gsl_base::{Bytes, Memory, Text};
use gsl_host::{FileHost, Host, Stream};
use std::alloc::Global;
use std::env;
use std::process::ExitCode;

/// The largest file of cases.
const MAX_BYTES: usize = 16_777_216;

fn main(rt: HostRuntime) -> ExitCode {
    let alloc = rt.alloc();
    let Ok(words) = env::args(&rt) else {
        return ExitCode::from(3);
    };
    let mut host = FileHost::new(rt, alloc);
    let mut status = 0;
    for word in words.into_iter().skip(1) {
        if run_file(alloc, word.as_str(), &mut host).is_err() {
            status = 1;
        }
    }
    ExitCode::from(status)
}

/// Runs the cases of a file, and prints what came.
fn run_file<H: Host>(alloc: Global, name: &str, host: &mut H) -> Result<(), Memory> {
    let mut out = Bytes::new(alloc);
    match host.read_file(alloc, &Text::from_str(alloc, name)?, MAX_BYTES) {
        Ok(bytes) => match std::str::from_utf8(bytes.as_slice()) {
            Ok(text) => run_text(alloc, &mut out, text)?,
            Err(_) => out.extend_from_slice(b"not UTF-8\n")?,
        },
        Err(_) => out.extend_from_slice(b"not read\n")?,
    }
    host.print(alloc, Stream::Out, out.as_slice())
        .map_err(|_| Memory)
}
